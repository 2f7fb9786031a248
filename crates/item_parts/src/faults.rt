// Why bytes begin with no item.
ghost use Rattle.std.specs.Prelude.{◌≡◌};
ghost use Rattle.item_parts.specs.Faults.{number_of_kind, fault_of, table_fault, erst_fault, hest_fault, record_fault, block_fault};

use apei_tables::TableError;
use cper_frame::FrameError;
use erst_entries::ErstError;
use ghes_block::BlockError;
use hest_sources::HestError;

/// Why bytes begin with no item, as its own decoder says it: the first reason that applies.
#[derive(Clone, Copy, Debug, PartialEq, Eq)]
pub enum ItemError {
    Erst(ErstError),
    Hest(HestError),
    Bert(TableError),
    Record(FrameError),
    Block(BlockError),
}

/// Which fault an item has. The numbers are fixed.
#[derive(Clone, Copy, Debug, PartialEq, Eq)]
pub enum FaultKind {
    /// A table: fewer bytes than a header has.
    TableShort = 1,
    /// A table: the signature is another one.
    TableSignature = 2,
    /// A table: the length is below its fixed part, or above the bytes that are there.
    TableLength = 3,
    /// A table: the bytes don't add to 0 modulo 256.
    TableSum = 4,
    /// An ERST: the serialization header size is neither 48 nor 12.
    HeaderSize = 5,
    /// An ERST: the length isn't 48 bytes and 32 more for each counted entry.
    EntryCount = 6,
    /// A HEST: an error source of a type whose length isn't known.
    SourceType = 7,
    /// A HEST: an error source leaves the table.
    SourceCut = 8,
    /// A HEST: there are more or fewer error sources than the table says.
    SourceCount = 9,
    /// A record: bytes are missing.
    RecordShort = 10,
    /// A record: it doesn't begin with "CPER".
    RecordStart = 11,
    /// A record: the four bytes that end the signature aren't all 0xFF.
    RecordEnd = 12,
    /// A record: the length is too small for the header and its descriptors.
    RecordLength = 13,
    /// A record: a section's body isn't between the descriptors and the record's end.
    RecordSection = 14,
    /// A record: the length is above what is taken.
    RecordLimit = 15,
    /// A block: bytes are missing.
    BlockShort = 16,
    /// A block: the block status is 0.
    BlockNotPublished = 17,
    /// A block: the raw data begins before the entries end.
    BlockRawOffset = 18,
    /// A block: an entry leaves the data length.
    BlockEntry = 19,
    /// A block: too few bytes for an entry are left behind the last one.
    BlockRest = 20,
}

impl FaultKind {
    /// Its number.
    pub fn number(self) -> u32
        ensures { result ≡ number_of_kind self }
    {
        self as u32
    }
}

/// A fault of an item.
#[derive(Clone, Copy, Debug, PartialEq, Eq)]
pub struct Fault {
    /// Where it stands, from the item's start: the field that is wrong, the entry, error source or descriptor; or where the bytes
    /// end, if some are missing.
    pub at: u64,
    pub kind: FaultKind,
}

fn fault_at(at: u64, kind: FaultKind) -> Fault
    ensures { result ≡ record { at = at; kind = kind } }
{
    Fault { at, kind }
}

fn table_fault(error: TableError) -> Fault
    ensures { result ≡ table_fault error }
{
    match error {
        TableError::Short { have } => fault_at(have, FaultKind::TableShort),
        TableError::Signature { found: _ } => fault_at(0, FaultKind::TableSignature),
        TableError::Length { found: _ } => fault_at(4, FaultKind::TableLength),
        TableError::Sum { found: _ } => fault_at(9, FaultKind::TableSum),
    }
}

fn erst_fault(error: ErstError) -> Option<Fault>
    ensures { result ≡ erst_fault error }
{
    match error {
        ErstError::Table(error) => Some(table_fault(error)),
        ErstError::HeaderSize { found: _ } => Some(fault_at(36, FaultKind::HeaderSize)),
        ErstError::Count {
            found: _,
            length: _,
        } => Some(fault_at(44, FaultKind::EntryCount)),
        ErstError::Memory => None,
    }
}

fn hest_fault(error: HestError) -> Option<Fault>
    ensures { result ≡ hest_fault error }
{
    match error {
        HestError::Table(error) => Some(table_fault(error)),
        HestError::UnknownType { at, code: _ } => Some(fault_at(at, FaultKind::SourceType)),
        HestError::Cut { at } => Some(fault_at(at, FaultKind::SourceCut)),
        HestError::Count {
            declared: _,
            found: _,
        } => Some(fault_at(36, FaultKind::SourceCount)),
        HestError::Memory => None,
    }
}

fn record_fault(error: FrameError, have: u64) -> Fault
    ensures { result ≡ record_fault error have }
{
    match error {
        FrameError::Need { more: _ } => fault_at(have, FaultKind::RecordShort),
        FrameError::Start => fault_at(0, FaultKind::RecordStart),
        FrameError::End => fault_at(6, FaultKind::RecordEnd),
        FrameError::Length { found: _ } => fault_at(20, FaultKind::RecordLength),
        // The number of sections has 16 bits.
        FrameError::Section { index } => fault_at(
            128 + 72 * (index % 65536),
            FaultKind::RecordSection,
        ),
        FrameError::Limit { found: _ } => fault_at(20, FaultKind::RecordLimit),
    }
}

fn block_fault(error: BlockError, have: u64) -> Fault
    ensures { result ≡ block_fault error have }
{
    match error {
        BlockError::Need { more: _ } => fault_at(have, FaultKind::BlockShort),
        BlockError::NotPublished => fault_at(0, FaultKind::BlockNotPublished),
        BlockError::RawOffset { found: _ } => fault_at(4, FaultKind::BlockRawOffset),
        BlockError::Entry { index: _, at } => fault_at(at, FaultKind::BlockEntry),
        BlockError::Rest { bytes: _ } => fault_at(12, FaultKind::BlockRest),
    }
}

impl ItemError {
    /// The fault of an item of which `have` bytes were there. There is none where memory was wanting.
    pub fn fault(&self, have: u64) -> Option<Fault>
        ensures { result ≡ fault_of self.now have }
    {
        match *self {
            ItemError::Erst(error) => erst_fault(error),
            ItemError::Hest(error) => hest_fault(error),
            ItemError::Bert(error) => Some(table_fault(error)),
            ItemError::Record(error) => Some(record_fault(error, have)),
            ItemError::Block(error) => Some(block_fault(error, have)),
        }
    }
}
