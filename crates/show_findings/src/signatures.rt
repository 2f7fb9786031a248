// Signatures.
ghost use Rattle.std.specs.Prelude.{◌≡◌, ◌≤◌, ◌+◌, length};
ghost use Rattle.std.specs.List.{list_all};
ghost use Rattle.base_model.specs.Bytes.{part, number_at};
ghost use Rattle.show_findings.specs.Signatures.{begins, is_dump, is_name, is_known_table, is_letter, is_sealed, signed_kind, sum_of};

use crate::FileKind;
use apei_bytes::get_u32;

// What a table begins with (ACPI 6.4, section 5.2.6).
const TABLE_HEADER: usize = 36;

/// The kind of a file that begins with a signature.
#[tactic(auto, using(std::proofs::lemmas::Bool::Decides::nat_tests))]
pub(crate) fn signed_kind(bytes: &[u8]) -> Option<FileKind>
    ensures { result ≡ signed_kind bytes.now }
{
    if is_dump(bytes) {
        Some(FileKind::Dump)
    } else if begins(bytes, b"ERSTSTOR") {
        Some(FileKind::Qemu)
    } else if begins(bytes, b"APEIERST") {
        Some(FileKind::Medium)
    } else if begins(bytes, b"CPER") {
        Some(FileKind::Records)
    } else if is_known_table(bytes) || is_sealed(bytes) {
        Some(FileKind::Tables)
    } else {
        None
    }
}

fn begins(bytes: &[u8], text: &[u8]) -> bool
    ensures { result ≡ begins text.now bytes.now }
{
    bytes.starts_with(text)
}

// Whether the first line is that of a table in the text of acpidump: its signature and its address.
#[tactic(auto, using(std::proofs::lemmas::Bool::Decides::nat_tests))]
fn is_dump(bytes: &[u8]) -> bool
    ensures { result ≡ is_dump bytes.now }
{
    is_name(bytes) && begins(&bytes[4..], b" @ 0x")
}

// Whether the first four bytes are the letters of a signature.
#[tactic(auto, using(std::proofs::lemmas::Bool::Decides::nat_tests))]
fn is_name(bytes: &[u8]) -> bool
    ensures { result ≡ is_name bytes.now }
{
    bytes.len() >= 4 && are_letters(&bytes[..4])
}

fn are_letters(bytes: &[u8]) -> bool
    ensures { result ≡ list_all is_letter bytes.now }
{
    bytes.iter().all(|byte| is_letter(*byte))
}

// A capital letter, a digit or an underscore.
fn is_letter(byte: u8) -> bool
    ensures { result ≡ is_letter byte }
{
    byte.is_ascii_uppercase() || byte.is_ascii_digit() || byte == b'_'
}

// Whether it is one of the tables whose fields are shown, be it sound or not.
fn is_known_table(bytes: &[u8]) -> bool
    ensures { result ≡ is_known_table bytes.now }
{
    begins(bytes, b"ERST") || begins(bytes, b"HEST") || begins(bytes, b"BERT")
}

// Whether it is a table of another signature, whose bytes add to 0.
#[tactic(auto, using(std::proofs::lemmas::Bool::Decides::nat_tests))]
fn is_sealed(bytes: &[u8]) -> bool
    ensures { result ≡ is_sealed bytes.now }
{
    if bytes.len() < TABLE_HEADER || !is_name(bytes) {
        return false;
    }
    let length = get_u32(bytes, 4) as usize;
    TABLE_HEADER <= length && length <= bytes.len() && sum_of(&bytes[..length]) == 0
}

// What the bytes add to, modulo 256.
fn sum_of(bytes: &[u8]) -> u8
    ensures { result ≡ sum_of bytes.now }
{
    let mut sum: u8 = 0;
    for byte in bytes {
        sum = sum.wrapping_add(*byte);
    }
    sum
}
