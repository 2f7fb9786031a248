// The table: read, written, and built entry by entry.
ghost use Rattle.std.specs.Prelude.{◌≡◌, ◌+◌, ◌*◌, ◌≤◌, ◌<◌, ◌^◌, ◌⊎◌, ℕ, List, [], ◌∷◌, ◌++◌, Some, None, length, map, take, sum, slice_get, ◌%◌, ◌↔◌, IsTrue, true, OnOk, OnErr, IfOk, MatchResult};
ghost use Rattle.base_model.specs.Bytes.{part, number_at, joined, AreBytes};
ghost use Rattle.apei_tables.specs.Layout.{HasSizes};
ghost use Rattle.apei_tables.specs.Tables.{IsSealed};
ghost use Rattle.erst_entries.specs.Layout.{Erst, FitsErst, AreEntries, entry_spelling, front_spelling, spelling};
ghost use Rattle.erst_entries.specs.Programs.{program_of};
ghost use Rattle.erst_entries.specs.Groups.{Kept};
ghost use Rattle.erst_entries.specs.Tables.{IsErst, FindsErst, AreRead, refusal, IsRefusal, Finished};
ghost use Rattle.erst_entries.specs.declared.tables.ErstError.TheVariants.{Memory};

use crate::entries::{ENTRY, Entry};
use crate::groups::{ACTIONS, group, start_of};
use crate::programs::Program;
use apei_bytes::{OutOfMemory, get_u32, put_u32};
use apei_tables::{Header, TableError, sum_of};
use std::alloc::{AllocError, Global};
use std::marker::Model;

/// Why bytes don't begin with an Error Record Serialization Table.
#[derive(Clone, Copy, Debug, PartialEq, Eq)]
pub enum ErstError {
    /// They begin with no sealed table of this signature that has at least the 48 bytes before the entries.
    Table(TableError),
    /// The serialization header size is neither 48 nor 12.
    HeaderSize { found: u64 },
    /// The length isn't 48 bytes and 32 more for each counted entry.
    Count { found: u64, length: u64 },
    /// There was no memory for the entries.
    Memory,
}

/// The bytes before the entries.
const FIXED: usize = 48;

/// An Error Record Serialization Table (ACPI 6.4, section 18.5.1). Reserved fields are kept.
#[derive(Drop)]
pub struct ErstTable {
    header: Header,
    header_size: u32,
    reserved: u32,
    count: u32,
    entries: Vec<Entry>,
    /// Room for as many, and where they stand by action, the place behind each action's last one.
    by_action: Vec<Entry>,
    ends: [u32; ACTIONS],
    /// Whether they stand there, and none was pushed since.
    is_grouped: bool,
}

impl Model for ErstTable {
    ghost use Rattle.std.specs.Prelude.{◌+◌, ◌*◌, ◌<◌, ◌^◌, length};
    ghost use Rattle.erst_entries.specs.Layout.{Erst};
    ghost use Rattle.erst_entries.specs.Groups.{Kept};

    ghost Value = { Erst };

    ghost view = { λ t. record { header = t.header; header_size = t.header_size; reserved = t.reserved; count = t.count; entries = t.entries.items } };

    ghost invariant = { λ t. (48 + 32 * length t.entries.items < 2 ^ 32) × Kept t.is_grouped t.entries.items t.ends t.by_action.items };
}

impl ErstTable {
    /// The table that stands first in `bytes`, and how many bytes it has. Bytes behind it are left alone. The refusals
    /// are tried in the order of `ErstError`.
    pub fn decode(alloc: Global, bytes: &[u8]) -> Result<(ErstTable, usize), ErstError>
        ensures found { IfOk result (λ found. IsErst found.0 (take found.1 bytes.now) × FitsErst found.0
            × (found.1 ≤ length bytes.now)) }
        ensures only { (erst : Erst) (table rest : List ℕ) → bytes.now ≡ table ++ rest → FitsErst erst
            → IsErst erst table → MatchResult result (λ found. (found.0 ≡ erst) × (found.1 ≡ length table)) (λ error. error ≡ Memory) }
        ensures refused { MatchResult result (λ _. refusal bytes.now ≡ None) (IsRefusal bytes.now) }
    {
        let (header, table) = match check(bytes) {
            Ok(found) => found,
            Err(error) => return Err(error),
        };
        let count = get_u32(bytes, 44);
        let Ok(entries) = read_entries(alloc, table, count as usize) else {
            return Err(ErstError::Memory);
        };
        let Ok(grouped) = by_action(alloc, &entries) else {
            return Err(ErstError::Memory);
        };
        let ends = grouped.1;
        let erst = ErstTable {
            header,
            header_size: get_u32(bytes, 36),
            reserved: get_u32(bytes, 40),
            count,
            entries,
            by_action: grouped.0,
            ends,
            is_grouped: true,
        };
        Ok((erst, table.len()))
    }

    /// The table's bytes, each field as it is kept.
    pub fn encode(&self, alloc: Global) -> Result<Vec<u8>, OutOfMemory>
        ensures { IfOk result (λ bytes. bytes.items ≡ spelling self.now) }
    {
        let mut bytes = Vec::with_capacity(alloc, FIXED + ENTRY * self.entries.len())?;
        bytes.extend_from_slice(&self.front())?;
        spell_entries(&mut bytes, &self.entries)?;
        Ok(bytes)
    }

    /// A table with this header, header size 48 and no entries.
    pub fn blank(alloc: Global, header: Header) -> ErstTable
        ensures { result ≡ record { header = header; header_size = 48; reserved = 0; count = 0; entries = [] } }
    {
        ErstTable {
            header,
            header_size: 48,
            reserved: 0,
            count: 0,
            entries: Vec::new(alloc),
            by_action: Vec::new(alloc),
            ends: [0; ACTIONS],
            is_grouped: false,
        }
    }

    /// Puts an entry behind the others. The header and the count stay as they are until `finish`.
    pub fn push(&mut self, entry: Entry) -> Result<(), OutOfMemory>
        requires { length self.old.entries < 2 ^ 20 }
        ensures ok { OnOk result (self.new ≡ record self.old { entries = self.old.entries ++ entry ∷ [] }) }
        ensures err { OnErr result (self.new ≡ self.old) }
    {
        self.is_grouped = false;
        self.by_action.push(entry)?;
        self.entries.push(entry)?;
        Ok(())
    }

    /// Sets the count, the length and the checksum, so that the table is sealed.
    pub fn finish(&mut self)
        ensures sealed { IsSealed (spelling self.new) }
        ensures finished { Finished self.old self.new }
        ensures byte { self.new.header.checksum < 256 }
    {
        self.ends = group(&self.entries, &mut self.by_action);
        self.is_grouped = true;
        self.count = self.entries.len() as u32;
        self.header.length = (FIXED + ENTRY * self.entries.len()) as u32;
        self.header.checksum = 0;
        self.header.checksum = self.sum().wrapping_neg();
    }

    /// How many entries the table has.
    pub fn len(&self) -> usize
        ensures { result ≡ length self.now.entries }
    {
        self.entries.len()
    }

    /// Whether it has no entry.
    pub fn is_empty(&self) -> bool
        ensures { IsTrue result ↔ (length self.now.entries ≡ 0) }
    {
        self.entries.is_empty()
    }

    /// An entry by its place in the table.
    pub fn entry(&self, index: usize) -> Entry
        requires { index < length self.now.entries }
        ensures { slice_get self.now.entries index ≡ Some result }
    {
        self.entries[index]
    }

    /// The program of an action.
    pub fn program(&self, action: u8) -> Program<'_>
        ensures { result ≡ program_of action self.now.entries }
    {
        if !self.is_grouped {
            return Program::of(&self.entries, action);
        }
        let start = start_of(&self.ends, action);
        let end = self.ends[usize::from(action)];
        Program::alone(&self.by_action[start as usize..end as usize], action)
    }

    /// What all its bytes add to, modulo 256.
    fn sum(&self) -> u8
        ensures value { result ≡ sum (spelling self.now) % 256 }
        ensures sizes { HasSizes self.now.header }
    {
        sum_of(&self.front()).wrapping_add(sum_of_entries(&self.entries))
    }

    /// The 48 bytes before the entries.
    fn front(&self) -> [u8; FIXED]
        ensures value { result ≡ front_spelling self.now }
        ensures sizes { HasSizes self.now.header }
    {
        let mut bytes = [0; FIXED];
        self.header.put(&mut bytes);
        put_u32(&mut bytes, 36, self.header_size);
        put_u32(&mut bytes, 40, self.reserved);
        put_u32(&mut bytes, 44, self.count);
        bytes
    }
}

/// The header and the bytes of the table that stands first, all of it checked but for memory.
#[tactic(auto, using(std::proofs::lemmas::Bool::Decides::nat_tests))]
fn check(bytes: &[u8]) -> Result<(Header, &[u8]), ErstError>
    ensures found { IfOk result (λ found. FindsErst bytes.now found.0 found.1.now) }
    ensures refused { MatchResult result (λ _. refusal bytes.now ≡ None) (λ error. refusal bytes.now ≡ Some error) }
{
    let (header, table) = match Header::decode(bytes, *b"ERST", FIXED as u32) {
        Ok(found) => found,
        Err(error) => return Err(ErstError::Table(error)),
    };
    let header_size = get_u32(bytes, 36);
    if header_size != 48 && header_size != 12 {
        return Err(ErstError::HeaderSize {
            found: u64::from(header_size),
        });
    }
    let count = u64::from(get_u32(bytes, 44));
    let length = u64::from(get_u32(bytes, 4));
    if length != 48 + 32 * count {
        return Err(ErstError::Count {
            found: count,
            length,
        });
    }
    Ok((header, table))
}

/// The `count` entries from byte 48 of a table on.
fn read_entries(alloc: Global, table: &[u8], count: usize) -> Result<Vec<Entry>, AllocError>
    requires { length table.now ≡ 48 + 32 * count }
    ensures { IfOk result (λ entries. AreRead table.now count entries.items) }
{
    let mut entries = Vec::with_capacity(alloc, count)?;
    for index in 0..count {
        let at = FIXED + ENTRY * index;
        entries.push(Entry::read(&table[at..at + ENTRY]))?;
    }
    Ok(entries)
}

/// The entries once more, by action, and the place behind each action's last one.
fn by_action(alloc: Global, entries: &[Entry]) -> Result<(Vec<Entry>, [u32; ACTIONS]), AllocError>
    requires { length entries.now < 2 ^ 32 }
    ensures { IfOk result (λ found. Kept true entries.now found.1 found.0.items) }
{
    let mut grouped = Vec::from_slice(alloc, entries)?;
    let ends = group(entries, &mut grouped);
    Ok((grouped, ends))
}

/// Puts the bytes of entries behind others.
fn spell_entries(bytes: &mut Vec<u8>, entries: &[Entry]) -> Result<(), AllocError>
    ensures { OnOk result (bytes.new.items ≡ bytes.old.items ++ joined (map entry_spelling entries.now)) }
{
    for entry in entries {
        bytes.extend_from_slice(&entry.spell())?;
    }
    Ok(())
}

/// What the bytes of entries add to, modulo 256.
fn sum_of_entries(entries: &[Entry]) -> u8
    ensures { result ≡ sum (joined (map entry_spelling entries.now)) % 256 }
{
    let mut total: u8 = 0;
    for entry in entries {
        total = total.wrapping_add(sum_of(&entry.spell()));
    }
    total
}
