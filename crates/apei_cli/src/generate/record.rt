// The records that are written.
ghost use Rattle.std.specs.Prelude.{◌≡◌, ◌≤◌, take};
ghost use Rattle.apei_cli.specs.Records.{record_of};

use apei_bytes::{put_u32, put_u64};
use cper_frame::{ID_AT, LENGTH_AT};

/// The bytes of the longest record that is written.
const LONGEST: usize = 368;

/// The signature, the revision, the end of the signature, no sections, a corrected error, and no valid field.
const FIRST_FIELDS: [u8; LENGTH_AT] =
    *b"CPER\x01\x01\xff\xff\xff\xff\x00\x00\x02\x00\x00\x00\x00\x00\x00\x00";

/// Bytes that begin with the record of an identifier and so many bytes.
pub fn sample_record(id: u64, size: u64) -> [u8; LONGEST]
    requires least { 128 ≤ size }
    requires most { size ≤ 368 }
    ensures { take size result ≡ record_of id size }
{
    let mut record = [0u8; LONGEST];
    record[..LENGTH_AT].copy_from_slice(&FIRST_FIELDS);
    put_u32(&mut record, LENGTH_AT, size as u32);
    put_u64(&mut record, ID_AT, id);
    record
}
