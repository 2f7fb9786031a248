// The form of a status block, and files that hold nothing.
ghost use Rattle.std.specs.Prelude.{◌≡◌, length};
ghost use Rattle.show_findings.specs.Shapes.{are_all, is_blank, is_block, is_empty_block, shaped_kind};

use crate::FileKind;
use apei_bytes::get_u32;

// What a status block begins with (ACPI 6.4, section 18.3.2.7.1).
const BLOCK_HEADER: usize = 20;

/// The kind of a file that no signature and no name tells.
#[tactic(auto, using(std::proofs::lemmas::Bool::Decides::nat_tests))]
pub(crate) fn shaped_kind(bytes: &[u8]) -> FileKind
    ensures { result ≡ shaped_kind bytes.now }
{
    if bytes.is_empty() {
        FileKind::Empty
    } else if is_block(bytes) {
        FileKind::Blocks
    } else if is_blank(bytes) {
        FileKind::Blank
    } else {
        FileKind::Unknown
    }
}

// Whether a status block may begin here: its status is not 0 and has no reserved bit, and its severity is one of the four.
#[tactic(auto, using(std::proofs::lemmas::Bool::Decides::nat_tests))]
fn is_block(bytes: &[u8]) -> bool
    ensures { result ≡ is_block bytes.now }
{
    if bytes.len() < BLOCK_HEADER {
        return false;
    }
    let status = get_u32(bytes, 0);
    status != 0 && status < 1 << 14 && get_u32(bytes, 16) < 4
}

fn is_blank(bytes: &[u8]) -> bool
    ensures { result ≡ is_blank bytes.now }
{
    are_all(0x00, bytes) || are_all(0xFF, bytes) || is_empty_block(bytes)
}

/// Whether this is a status block that reports nothing: it has no status, no raw data, no entries and no severity, and zeros behind its header.
#[tactic(auto, using(std::proofs::lemmas::Bool::Decides::nat_tests))]
pub fn is_empty_block(bytes: &[u8]) -> bool
    ensures { result ≡ is_empty_block bytes.now }
{
    if bytes.len() < BLOCK_HEADER {
        return false;
    }
    let says_nothing = get_u32(bytes, 0) == 0 && get_u32(bytes, 8) == 0 && get_u32(bytes, 12) == 0;
    says_nothing && get_u32(bytes, 16) == 3 && are_all(0x00, &bytes[BLOCK_HEADER..])
}

fn are_all(filling: u8, bytes: &[u8]) -> bool
    ensures { result ≡ are_all filling bytes.now }
{
    bytes.iter().all(|byte| *byte == filling)
}
