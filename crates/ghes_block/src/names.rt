// The standard's words for the numbers of a block.
ghost use Rattle.std.specs.Prelude.{◌≡◌, option_map};
ghost use Rattle.ghes_block.specs.Names.{block_severity_word};

/// The word for the severity of a block or an entry (ACPI 6.4, 18.3.2.7.1); none for a number that has none.
pub fn severity_name(severity: u32) -> Option<&'static str>
    ensures { option_map (λ name. name.now) result ≡ block_severity_word severity }
{
    match severity {
        0 => Some("recoverable"),
        1 => Some("fatal"),
        2 => Some("corrected"),
        3 => Some("none"),
        _ => None,
    }
}
