// The label of a part: the text by which its maker knows it (the FRU text of UEFI 2.8, N.2.2, and of ACPI 6.4, 18.3.2.7.1).
ghost use Rattle.std.specs.Prelude.{◌≡◌, [], ◌∷◌, OnOk};
ghost use Rattle.field_lines.specs.Texts.{shown_byte};
ghost use Rattle.show_findings.specs.Labels.{behind_blank, gap_text, has_label, label_text};
ghost use Rattle.show_findings.specs.declared.labels.Gap.TheVariants.{Start};
ghost use Rattle.show_findings.specs.Sentences.{Adds};

use std::alloc::AllocError;

// What stands before the next letter.
#[derive(Clone, Copy)]
enum Gap {
    /// There was no letter yet.
    Start,
    /// Blanks, behind a letter.
    Blank,
    /// A letter.
    Nothing,
}

/// Adds the letters before the first zero behind a comma, with one space in place of blanks inside, and without those around.
pub(crate) fn add_label(out: &mut String, mut text: &[u8]) -> Result<(), AllocError>
    ensures { OnOk result (Adds (label_text Start text.entry.now) out.old out.new) }
{
    let mut gap = Gap::Start;
    while let [byte, rest @ ..] = text {
        if *byte == 0 {
            break;
        }
        if *byte == b' ' {
            gap = behind_blank(gap);
        } else {
            out.push_str(gap_text(gap))?;
            add_letter(out, *byte)?;
            gap = Gap::Nothing;
        }
        text = rest;
    }
    Ok(())
}

fn behind_blank(gap: Gap) -> Gap
    ensures { result ≡ behind_blank gap }
{
    match gap {
        Gap::Start => Gap::Start,
        Gap::Blank | Gap::Nothing => Gap::Blank,
    }
}

fn gap_text(gap: Gap) -> &'static str
    ensures { result.now ≡ gap_text gap }
{
    match gap {
        Gap::Start => ", ",
        Gap::Blank => " ",
        Gap::Nothing => "",
    }
}

// A dot stands for what can't be printed.
fn add_letter(out: &mut String, byte: u8) -> Result<(), AllocError>
    ensures { OnOk result (Adds (shown_byte byte ∷ []) out.old out.new) }
{
    if byte < 32 || byte > 126 {
        return out.push('.');
    }
    out.push(char::from(byte))
}

/// Whether a label has a letter.
pub(crate) fn has_label(mut text: &[u8]) -> bool
    ensures { result ≡ has_label text.entry.now }
{
    while let [byte, rest @ ..] = text {
        if *byte == 0 {
            return false;
        }
        if *byte != b' ' {
            return true;
        }
        text = rest;
    }
    false
}
