// One error source structure.
ghost use Rattle.std.specs.Prelude.{◌≡◌, ◌+◌, ◌≤◌, ◌<◌, length, Some, Ok, IfOk, IfErr, None, ◌∷◌, []};
ghost use Rattle.base_model.specs.Bytes.{part, joined, spelled, number_at};
ghost use Rattle.apei_bytes.specs.Writing.{Wrote};
ghost use Rattle.apei_tables.specs.GasLayout.{spelling};
ghost use Rattle.hest_sources.specs.Tables.{IsMalformed};
ghost use Rattle.hest_sources.specs.Layout.{type_of, size_of, ghes_fields, ghes_bytes, length_with_banks, length_by_type, gas_at, front_at, source_at, structure_length};

use crate::tables::HestError;
use apei_bytes::{
    array_at, byte_at, get_u16, get_u32, get_u64, write_array, write_u8, write_u16, write_u32,
    write_u64,
};
use apei_tables::Gas;

/// A generic hardware error source (ACPI 6.4, 18.3.2.7), and where it has a read acknowledgement, of version 2
/// (18.3.2.8).
#[derive(Clone, Copy, Debug, PartialEq, Eq)]
pub struct Ghes {
    pub id: u16,
    /// The source that this one stands in for; 0xFFFF where there is none.
    pub related: u16,
    pub flags: u8,
    pub enabled: u8,
    /// Records to pre-allocate.
    pub records: u32,
    /// The most sections of a record.
    pub sections: u32,
    /// The most raw data of a record.
    pub raw: u32,
    /// Where the address of the error status block stands.
    pub status: Gas,
    /// The notification structure, as it stands.
    pub notify: [u8; 28],
    /// The length of the error status block.
    pub block_len: u32,
    pub ack: Option<Ack>,
}

/// The read acknowledgement of a source: the bits of the register to preserve, and those to write.
#[derive(Clone, Copy, Debug, PartialEq, Eq)]
pub struct Ack {
    pub register: Gas,
    pub preserve: u64,
    pub write: u64,
}

/// An error source: a generic one, or another one by its type, its place from the table's start and its length.
#[derive(Clone, Copy, Debug, PartialEq, Eq)]
pub enum HestSource {
    Ghes(Ghes),
    Other { kind: u16, at: u32, len: u32 },
}

/// The register at a place.
fn gas_from(bytes: &[u8], at: usize) -> Gas
    requires { at + 12 ≤ length bytes.now }
    ensures { result ≡ gas_at (part bytes.now at 12) }
{
    Gas::decode(&array_at(bytes, at))
}

impl Ack {
    /// Reads the acknowledgement of a source that stands first.
    fn read(bytes: &[u8]) -> Ack
        requires { 92 ≤ length bytes.now }
        ensures { result ≡ record {
          register = gas_at (part bytes.now 64 12);
          preserve = number_at bytes.now 76 8;
          write = number_at bytes.now 84 8;
        } }
    {
        Ack {
            register: gas_from(bytes, 64),
            preserve: get_u64(bytes, 76),
            write: get_u64(bytes, 84),
        }
    }
}

impl Ghes {
    /// Reads the source that stands first, with this acknowledgement.
    fn read(bytes: &[u8], ack: Option<Ack>) -> Ghes
        requires { 64 ≤ length bytes.now }
        ensures { result ≡ front_at bytes.now ack }
    {
        Ghes {
            id: get_u16(bytes, 2),
            related: get_u16(bytes, 4),
            flags: byte_at(bytes, 6),
            enabled: byte_at(bytes, 7),
            records: get_u32(bytes, 8),
            sections: get_u32(bytes, 12),
            raw: get_u32(bytes, 16),
            status: gas_from(bytes, 20),
            notify: array_at(bytes, 32),
            block_len: get_u32(bytes, 60),
            ack,
        }
    }

    /// 10 with an acknowledgement, 9 without.
    fn kind(&self) -> u16
        ensures { result ≡ type_of self.now.ack }
    {
        match self.ack {
            Some(_) => 10,
            None => 9,
        }
    }

    /// Writes its 64 bytes, or with an acknowledgement its 92, and says how many.
    pub fn put(&self, out: &mut [u8]) -> usize
        requires { size_of self.now.ack ≤ length out.old }
        ensures wrote { Wrote out.old out.new 0 result (ghes_bytes self.now) }
        ensures size { result ≡ size_of self.now.ack }
    {
        self.put_front(out);
        match &self.ack {
            Some(ack) => ack.put(out),
            None => 64,
        }
    }

    fn put_front(&self, out: &mut [u8])
        requires { 64 ≤ length out.old }
        ensures { Wrote out.old out.new 0 64 (joined (ghes_fields self.now)) }
    {
        let id = write_u16(out, 0, self.kind());
        let related = write_u16(out, id, self.id);
        let flags = write_u16(out, related, self.related);
        let enabled = write_u8(out, flags, self.flags);
        let records = write_u8(out, enabled, self.enabled);
        let sections = write_u32(out, records, self.records);
        let raw = write_u32(out, sections, self.sections);
        let status = write_u32(out, raw, self.raw);
        let notify = put_gas(out, status, &self.status);
        let block_len = write_array(out, notify, &self.notify);
        write_u32(out, block_len, self.block_len);
    }
}

impl Ack {
    fn put(&self, out: &mut [u8]) -> usize
        requires { 92 ≤ length out.old }
        ensures wrote { Wrote out.old out.new 64 92 (joined
            (spelling self.now.register ∷ spelled 8 self.now.preserve ∷ spelled 8 self.now.write ∷ [])) }
        ensures end { result ≡ 92 }
    {
        let preserve = put_gas(out, 64, &self.register);
        let write = write_u64(out, preserve, self.preserve);
        write_u64(out, write, self.write)
    }
}

fn put_gas(out: &mut [u8], at: usize, gas: &Gas) -> usize
    requires { at + 12 ≤ length out.old }
    ensures wrote { Wrote out.old out.new at result (spelling gas.now) }
    ensures end { result ≡ at + 12 }
{
    write_array(out, at, &gas.encode())
}

/// The length of a structure with machine check banks, whose number stands at a place.
fn length_with_banks(bytes: &[u8], at: u64, fixed: usize, place: usize) -> Result<usize, HestError>
    requires { fixed < 100 }
    ensures value { result ≡ length_with_banks at bytes.now fixed place }
    ensures malformed { IfErr result IsMalformed }
{
    if bytes.len() <= place {
        return Err(HestError::Cut { at });
    }
    Ok(fixed + 28 * byte_at(bytes, place) as usize)
}

/// The length of a structure by its type, of those that ACPI 6.4 lists in 18.3.2.
fn length_by_kind(kind: u16, bytes: &[u8], at: u64) -> Result<usize, HestError>
    ensures value { result ≡ length_by_type kind at bytes.now }
    ensures malformed { IfErr result IsMalformed }
{
    match kind {
        0 => length_with_banks(bytes, at, 40, 32),
        1 | 11 => length_with_banks(bytes, at, 48, 44),
        2 => Ok(20),
        6 => Ok(48),
        7 => Ok(44),
        8 => Ok(56),
        9 => Ok(64),
        10 => Ok(92),
        _ => Err(HestError::UnknownType {
            at,
            code: u64::from(kind),
        }),
    }
}

/// The length of the structure that stands first.
#[tactic(auto, using(std::proofs::lemmas::Bool::Decides::nat_tests), unfolding(crate::specs::Layout::structure_length))]
pub(crate) fn length_of(bytes: &[u8], at: u64) -> Result<usize, HestError>
    ensures value { result ≡ structure_length at bytes.now }
    ensures within { IfOk result (λ n. (20 ≤ n) × (n ≤ length bytes.now)) }
    ensures malformed { IfErr result IsMalformed }
{
    if bytes.len() < 2 {
        return Err(HestError::Cut { at });
    }
    let length = length_by_kind(get_u16(bytes, 0), bytes, at)?;
    if bytes.len() < length {
        return Err(HestError::Cut { at });
    }
    Ok(length)
}

impl HestSource {
    /// Reads the structure that stands first, of this length, at a place of the table.
    pub(crate) fn read(bytes: &[u8], at: u32, len: u32) -> HestSource
        requires { structure_length at bytes.now ≡ Ok len }
        ensures { result ≡ source_at at bytes.now len }
    {
        let kind = get_u16(bytes, 0);
        if kind == 10 {
            return HestSource::Ghes(Ghes::read(bytes, Some(Ack::read(bytes))));
        }
        if kind == 9 {
            return HestSource::Ghes(Ghes::read(bytes, None));
        }
        HestSource::Other { kind, at, len }
    }
}
