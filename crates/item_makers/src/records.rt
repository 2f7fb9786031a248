// A record with one section.
ghost use Rattle.std.specs.Prelude.{◌≡◌, ◌+◌, length, take, Some, None, IfOk, OnErr, MatchResult};
ghost use Rattle.base_model.specs.Bytes.{put_at};
ghost use Rattle.cper_frame.specs.Grammar.{IsRecord};
ghost use Rattle.item_makers.specs.Sizes.{refusal};
ghost use Rattle.item_makers.specs.Records.{record_head, section_head, made_record, record_bytes};

use crate::error::{MakeError, check_size};
use crate::given::{bit_if, guid_given, number_given, text_given};
use crate::severity::Severity;
use apei_bytes::Guid;
use cper_frame::{RecordHead, RecordWriter, SectionHead};

/// The bytes of a record before its section: those of its header and of the section's descriptor.
const BEFORE_SECTION: usize = 200;

/// The revisions of a header (UEFI 2.8, N.2.1) and of a descriptor (N.2.2).
const REVISION: u16 = 0x0101;

const SECTION_REVISION: u16 = 0x0100;

/// What a record says of itself and of its section, which has the record's severity. `timestamp` is in the form of UEFI
/// 2.8, N.2.1: seconds, minutes, hours, a flag, day, month, year and century, a byte each, the first one lowest.
#[derive(Clone, Copy, Debug)]
pub struct RecordFields {
    pub id: u64,
    pub severity: Severity,
    pub timestamp: Option<u64>,
    pub creator: Guid,
    pub notification: Guid,
    pub flags: u32,
    pub kind: Guid,
    pub section_flags: u32,
    pub fru: Option<Guid>,
    pub fru_text: Option<[u8; 20]>,
}

fn record_head(fields: &RecordFields) -> RecordHead
    ensures { result ≡ record_head fields.now }
{
    let none = Guid::from_bytes([0; 16]);
    RecordHead {
        revision: REVISION,
        severity: fields.severity.number(),
        validation: u32::from(bit_if(fields.timestamp.is_some(), 2)),
        timestamp: number_given(fields.timestamp),
        platform: none,
        partition: none,
        creator: fields.creator,
        notification: fields.notification,
        id: fields.id,
        flags: fields.flags,
        persistence: [0; 8],
        reserved: [0; 12],
    }
}

fn section_head(fields: &RecordFields) -> SectionHead
    ensures { result ≡ section_head fields.now }
{
    SectionHead {
        revision: SECTION_REVISION,
        validation: bit_if(fields.fru.is_some(), 1) + bit_if(fields.fru_text.is_some(), 2),
        reserved: 0,
        flags: fields.section_flags,
        kind: fields.kind,
        fru: guid_given(fields.fru),
        severity: fields.severity.number(),
        fru_text: text_given(fields.fru_text),
    }
}

/// Makes a record with one section at the front of `out`, and says how many bytes it has: 200 and those of the section.
pub fn make_record(
    out: &mut [u8],
    fields: &RecordFields,
    section: &[u8],
) -> Result<usize, MakeError>
    // The first bytes are the fields of a record one after another, and the others are as before.
    ensures made { IfOk result (λ _. out.new ≡ put_at out.old 0 (record_bytes fields.now section.now)) }
    ensures size { IfOk result (λ size. size ≡ 200 + length section.now) }
    // They are a record, which says what was given.
    ensures read { IfOk result (λ size. IsRecord (made_record fields.now section.now) (take size out.new)) }
    // It is refused exactly if it is longer than its length fields can say, or than the room.
    ensures exact { MatchResult result (λ _. refusal (length out.old) (200 + length section.now) ≡ None)
        (λ e. refusal (length out.old) (200 + length section.now) ≡ Some e) }
    ensures unchanged { OnErr result (out.new ≡ out.old) }
{
    check_size(out.len(), BEFORE_SECTION + section.len())?;
    let head = record_head(fields);
    let described = section_head(fields);
    let mut writer = RecordWriter::start(out, &head, 1);
    writer.section(&described, section).unwrap();
    Ok(writer.finish())
}
