// The instruction entries of an Error Record Serialization Table, where they stand.
ghost use Rattle.std.specs.Prelude.{◌≡◌, ℕ, ◌+◌, ◌*◌, List, length, slice_get, Some, None, IfOk, IfErr, MatchResult};
ghost use Rattle.apei_tables.specs.declared.headers.Header.{Header as AnyHeader};
ghost use Rattle.erst_entries.specs.declared.entries.Entry.{Entry as AnyEntry};
ghost use Rattle.erst_entries.specs.Tables.{FindsErst, AreRead, refusal};
ghost use Rattle.item_parts.specs.Parts.{entry_parts};
ghost use Rattle.item_parts.specs.Items.{ErstParts, Counts, Tells, FindsCount, FindsPart, IsFault};

use crate::faults::ItemError;
use crate::items::Item;
use crate::parts::Part;
use apei_bytes::get_u32;
use apei_tables::Header;
use erst_entries::ErstError;

/// The bytes before the entries, and those of an entry (ACPI 6.4, section 18.5.1.2).
const FIXED: usize = 48;

const ENTRY: usize = 32;

/// The table that the bytes begin with.
#[tactic(auto, using(std::proofs::lemmas::Bool::Decides::nat_tests))]
fn find(bytes: &[u8]) -> Result<&[u8], ErstError>
    ensures found { IfOk result (λ table. (header : AnyHeader) × FindsErst bytes.now header table.now) }
    ensures refused { MatchResult result (λ _. refusal bytes.now ≡ None) (λ error. refusal bytes.now ≡ Some error) }
{
    let (_header, table) = match Header::decode(bytes, *b"ERST", FIXED as u32) {
        Ok(found) => found,
        Err(error) => return Err(ErstError::Table(error)),
    };
    let header_size = get_u32(bytes, 36);
    if header_size != 48 && header_size != 12 {
        return Err(ErstError::HeaderSize {
            found: u64::from(header_size),
        });
    }
    let found = u64::from(get_u32(bytes, 44));
    let length = u64::from(get_u32(bytes, 4));
    if length != 48 + 32 * found {
        return Err(ErstError::Count { found, length });
    }
    Ok(table)
}

/// How many entries the table has that the bytes begin with.
pub fn count(bytes: &[u8]) -> Result<u32, ItemError>
    ensures found { IfOk result (Counts ErstParts bytes.now) }
    ensures only { FindsCount ErstParts bytes.now result }
    ensures refused { IfErr result (IsFault Item.Erst bytes.now) }
{
    match find(bytes) {
        Ok(_table) => Ok(get_u32(bytes, 44)),
        Err(error) => Err(ItemError::Erst(error)),
    }
}

/// An entry of the table that the bytes begin with.
pub fn part(bytes: &[u8], index: u32) -> Result<Option<Part>, ItemError>
    ensures found { IfOk result (Tells ErstParts bytes.now index) }
    ensures only { FindsPart ErstParts bytes.now index result }
    ensures refused { IfErr result (IsFault Item.Erst bytes.now) }
{
    match find(bytes) {
        Ok(table) => Ok(part_of(table, index)),
        Err(error) => Err(ItemError::Erst(error)),
    }
}

fn part_of(table: &[u8], index: u32) -> Option<Part>
    ensures { (size : ℕ) (entries : List AnyEntry) → length table.now ≡ 48 + 32 * size
        → AreRead table.now size entries → result ≡ slice_get (entry_parts 48 entries) index }
{
    let at = FIXED + ENTRY * index as usize;
    if at >= table.len() {
        return None;
    }
    Some(Part {
        at: at as u64,
        len: ENTRY as u64,
        body: 0,
        body_len: 0,
        kind: u32::from(table[at]),
    })
}
