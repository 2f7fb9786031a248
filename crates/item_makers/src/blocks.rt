// A status block with one entry.
ghost use Rattle.std.specs.Prelude.{◌≡◌, ◌+◌, length, take, Some, None, IfOk, OnErr, MatchResult};
ghost use Rattle.base_model.specs.Bytes.{put_at};
ghost use Rattle.ghes_block.specs.Grammar.{IsBlock};
ghost use Rattle.item_makers.specs.Sizes.{refusal};
ghost use Rattle.item_makers.specs.Blocks.{status_for, entry_head, made_block, block_bytes};

use crate::error::{MakeError, check_size};
use crate::given::{bit_if, guid_given, number_given, text_given};
use crate::severity::Severity;
use apei_bytes::Guid;
use ghes_block::{BlockWriter, EntryHead};

/// The bytes of a block before its section: those of its head and of its entry's.
const BEFORE_SECTION: usize = 92;

/// The revision of an entry with a timestamp (ACPI 6.4, table 18.13).
const REVISION: u16 = 0x0300;

/// What a block says of its section. `flags` are those of a section (UEFI 2.8, N.2.2), `timestamp` is in the form of
/// UEFI 2.8, N.2.1: seconds, minutes, hours, a flag, day, month, year and century, a byte each, the first one lowest.
#[derive(Clone, Copy, Debug)]
pub struct BlockFields {
    pub severity: Severity,
    pub kind: Guid,
    pub flags: u8,
    pub fru: Option<Guid>,
    pub fru_text: Option<[u8; 20]>,
    pub timestamp: Option<u64>,
}

/// The status of a block with one entry: bit 0 for an uncorrected error, bit 1 for a corrected one, and the count of
/// entries from bit 4 on (ACPI 6.4, table 18.11).
fn status_for(severity: Severity) -> u32
    ensures { result ≡ status_for severity }
{
    match severity {
        Severity::Recoverable | Severity::Fatal => 0x11,
        Severity::Corrected => 0x12,
        Severity::Informational => 0x10,
    }
}

fn entry_head(fields: &BlockFields) -> EntryHead
    ensures { result ≡ entry_head fields.now }
{
    EntryHead {
        kind: fields.kind,
        severity: fields.severity.number(),
        revision: REVISION,
        validation: bit_if(fields.fru.is_some(), 1)
            + bit_if(fields.fru_text.is_some(), 2)
            + bit_if(fields.timestamp.is_some(), 4),
        flags: fields.flags,
        fru: guid_given(fields.fru),
        fru_text: text_given(fields.fru_text),
        stamp: number_given(fields.timestamp),
    }
}

/// Makes a status block with one entry of revision 3 and no raw data at the front of `out`, and says how many bytes it
/// has: 92 and those of the section.
pub fn make_block(out: &mut [u8], fields: &BlockFields, section: &[u8]) -> Result<usize, MakeError>
    // The first bytes are the fields of a block one after another, and the others are as before.
    ensures made { IfOk result (λ _. out.new ≡ put_at out.old 0 (block_bytes fields.now section.now)) }
    ensures size { IfOk result (λ size. size ≡ 92 + length section.now) }
    // They are a block, which says what was given.
    ensures read { IfOk result (λ size. IsBlock (made_block fields.now section.now) (take size out.new)) }
    // It is refused exactly if it is longer than its length fields can say, or than the room.
    ensures exact { MatchResult result (λ _. refusal (length out.old) (92 + length section.now) ≡ None)
        (λ e. refusal (length out.old) (92 + length section.now) ≡ Some e) }
    ensures unchanged { OnErr result (out.new ≡ out.old) }
{
    check_size(out.len(), BEFORE_SECTION + section.len())?;
    let head = entry_head(fields);
    let mut writer = BlockWriter::start(out, status_for(fields.severity), fields.severity.number());
    writer.entry(&head, section).unwrap();
    Ok(writer.finish(&[]).unwrap())
}
