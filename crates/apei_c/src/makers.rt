// Makers of error status blocks and error records.
ghost use Rattle.std.specs.Prelude.{◌≡◌};
ghost use Rattle.item_makers.specs.Severities.{severity_of};
ghost use Rattle.apei_c.specs.declared.status.Status.{Status as AnyStatus};
ghost use Rattle.apei_c.specs.Statuses.{number_of};
ghost use Rattle.apei_c.specs.Makers.{if_given, block_fields, record_fields, status_of_making, size_told, MakesBlock, MakesRecord};

use crate::maker_structs::{BlockNumbers, RecordNumbers};
use crate::status::Status;
use apei_bytes::Guid;
use item_makers::{BlockFields, MakeError, RecordFields, Severity};

fn guid_if(given: u8, guid: [u8; 16]) -> Option<Guid>
    ensures { result ≡ if_given given guid }
{
    if given == 0 {
        None
    } else {
        Some(Guid::from_bytes(guid))
    }
}

fn text_if(given: u8, text: [u8; 20]) -> Option<[u8; 20]>
    ensures { result ≡ if_given given text }
{
    if given == 0 { None } else { Some(text) }
}

fn number_if(given: u8, number: u64) -> Option<u64>
    ensures { result ≡ if_given given number }
{
    if given == 0 { None } else { Some(number) }
}

fn block_fields(numbers: &BlockNumbers, severity: Severity) -> BlockFields
    ensures { result ≡ block_fields numbers.now severity }
{
    BlockFields {
        severity,
        kind: Guid::from_bytes(numbers.kind),
        flags: numbers.flags,
        fru: guid_if(numbers.has_fru, numbers.fru),
        fru_text: text_if(numbers.has_fru_text, numbers.fru_text),
        timestamp: number_if(numbers.has_timestamp, numbers.timestamp),
    }
}

fn record_fields(numbers: &RecordNumbers, severity: Severity) -> RecordFields
    ensures { result ≡ record_fields numbers.now severity }
{
    RecordFields {
        id: numbers.id,
        severity,
        timestamp: number_if(numbers.has_timestamp, numbers.timestamp),
        creator: Guid::from_bytes(numbers.creator),
        notification: Guid::from_bytes(numbers.notification),
        flags: numbers.flags,
        kind: Guid::from_bytes(numbers.kind),
        section_flags: numbers.section_flags,
        fru: guid_if(numbers.has_fru, numbers.fru),
        fru_text: text_if(numbers.has_fru_text, numbers.fru_text),
    }
}

/// The status of an item that isn't made, and the size that is told then.
fn refuse(error: MakeError, size: &mut u64) -> Status
    ensures status { result ≡ status_of_making error }
    ensures size { size.new ≡ size_told error size.old }
{
    match error {
        MakeError::Long { size: _ } => Status::Long,
        MakeError::Room { need } => {
            *size = need;
            Status::Short
        }
    }
}

fn make_block(numbers: &BlockNumbers, section: &[u8], out: &mut [u8], size: &mut u64) -> Status
    ensures { MakesBlock numbers.now (severity_of numbers.now.severity) section.now out.old size.old result out.new size.new }
{
    let Some(severity) = Severity::from_number(numbers.severity) else {
        return Status::Choice;
    };
    let fields = block_fields(numbers, severity);
    match item_makers::make_block(out, &fields, section) {
        Ok(made) => {
            *size = made as u64;
            Status::Done
        }
        Err(error) => refuse(error, size),
    }
}

fn make_record(numbers: &RecordNumbers, section: &[u8], out: &mut [u8], size: &mut u64) -> Status
    ensures { MakesRecord numbers.now (severity_of numbers.now.severity) section.now out.old size.old result out.new size.new }
{
    let Some(severity) = Severity::from_number(numbers.severity) else {
        return Status::Choice;
    };
    let fields = record_fields(numbers, severity);
    match item_makers::make_record(out, &fields, section) {
        Ok(made) => {
            *size = made as u64;
            Status::Done
        }
        Err(error) => refuse(error, size),
    }
}

/// Makes an error status block around a section.
#[unsafe(no_mangle)]
pub extern "C" fn apei_c_make_block(
    numbers: &BlockNumbers,
    section: &[u8],
    out: &mut [u8],
    size: &mut u64,
) -> u32
    ensures { (status : AnyStatus) × (result ≡ number_of status)
        × MakesBlock numbers.now (severity_of numbers.now.severity) section.now out.old size.old status out.new size.new }
{
    make_block(numbers, section, out, size).number()
}

/// Makes an error record around a section.
#[unsafe(no_mangle)]
pub extern "C" fn apei_c_make_record(
    numbers: &RecordNumbers,
    section: &[u8],
    out: &mut [u8],
    size: &mut u64,
) -> u32
    ensures { (status : AnyStatus) × (result ≡ number_of status)
        × MakesRecord numbers.now (severity_of numbers.now.severity) section.now out.old size.old status out.new size.new }
{
    make_record(numbers, section, out, size).number()
}
