// The 36 bytes that an ACPI table begins with.
ghost use Rattle.std.specs.Prelude.{◌≡◌, ◌≤◌, ℕ, List, ◌++◌, length, IfOk, IsOkAnd};
ghost use Rattle.base_model.specs.Bytes.{part, number_at, put_at};
ghost use Rattle.apei_tables.specs.Layout.{spelling, HasSizes, IsHeader};
ghost use Rattle.apei_tables.specs.Tables.{IsTable, FindsTable, Refuses};

use crate::bytes::{begins_with, sum_of};
use apei_bytes::{array_at, get_u32, write_array, write_u32};

/// The header of a system description table (ACPI 6.4, section 5.2.6).
#[derive(Clone, Copy, Debug, PartialEq, Eq)]
pub struct Header {
    pub signature: [u8; 4],
    /// The bytes of the whole table, the header's 36 included.
    pub length: u32,
    pub revision: u8,
    /// What makes all bytes of the table add to 0 modulo 256.
    pub checksum: u8,
    pub oem_id: [u8; 6],
    pub oem_table_id: [u8; 8],
    pub oem_revision: u32,
    pub creator_id: [u8; 4],
    pub creator_revision: u32,
}

/// Why bytes don't begin with a table.
#[derive(Clone, Copy, Debug, PartialEq, Eq)]
pub enum TableError {
    /// Fewer bytes than a header has.
    Short { have: u64 },
    /// The table is another one.
    Signature { found: [u8; 4] },
    /// The length field is below the table's fixed part, or above the bytes that are there.
    Length { found: u64 },
    /// The table's bytes don't add to 0 modulo 256.
    Sum { found: u64 },
}

/// The bytes of a header.
const SIZE: usize = 36;

impl Header {
    /// The header and the table's bytes, where `bytes` begin with a table of this signature whose length is at least
    /// `fixed`. Bytes behind the table are left alone. The refusals are tried in the order of `TableError`.
    pub fn decode(
        bytes: &[u8],
        signature: [u8; 4],
        fixed: u32,
    ) -> Result<(Header, &[u8]), TableError>
        requires { 36 ≤ fixed }
        ensures found { IfOk result (λ found. FindsTable signature fixed bytes.now found.0 found.1.now) }
        ensures only { (header : _) (table rest : List ℕ) → bytes.now ≡ table ++ rest → IsHeader header
            → IsTable header table → header.signature ≡ signature → fixed ≤ length table
            → IsOkAnd result (λ found. (found.0 ≡ header) × (found.1.now ≡ table)) }
        ensures refused { Refuses signature fixed bytes.now result }
    {
        Header::find(bytes, signature, fixed)
    }

    /// The same, by the tests alone.
    #[tactic(auto, using(std::proofs::lemmas::Bool::Decides::nat_tests))]
    fn find(bytes: &[u8], signature: [u8; 4], fixed: u32) -> Result<(Header, &[u8]), TableError>
        requires { 36 ≤ fixed }
        ensures found { IfOk result (λ found. FindsTable signature fixed bytes.now found.0 found.1.now) }
        ensures refused { Refuses signature fixed bytes.now result }
    {
        if bytes.len() < SIZE {
            return Err(TableError::Short {
                have: bytes.len() as u64,
            });
        }
        let header = Header::read(bytes);
        if !begins_with(bytes, &signature) {
            let found = header.signature;
            return Err(TableError::Signature { found });
        }
        if header.length < fixed || header.length as usize > bytes.len() {
            return Err(TableError::Length {
                found: u64::from(header.length),
            });
        }
        let table = &bytes[..header.length as usize];
        let sum = sum_of(table);
        if sum != 0 {
            return Err(TableError::Sum {
                found: u64::from(sum),
            });
        }
        Ok((header, table))
    }

    /// The header that the first 36 bytes are.
    fn read(bytes: &[u8]) -> Header
        requires { 36 ≤ length bytes.now }
        ensures spelled { part bytes.now 0 36 ≡ spelling result }
        ensures fits { IsHeader result }
        ensures signature { result.signature ≡ part bytes.now 0 4 }
        ensures length { result.length ≡ number_at bytes.now 4 4 }
    {
        Header {
            signature: array_at(bytes, 0),
            length: get_u32(bytes, 4),
            revision: bytes[8],
            checksum: bytes[9],
            oem_id: array_at(bytes, 10),
            oem_table_id: array_at(bytes, 16),
            oem_revision: get_u32(bytes, 24),
            creator_id: array_at(bytes, 28),
            creator_revision: get_u32(bytes, 32),
        }
    }

    /// Writes its 36 bytes to the front of `out`.
    pub fn put(&self, out: &mut [u8])
        requires { 36 ≤ length out.old }
        ensures written { out.new ≡ put_at out.old 0 (spelling self.now) }
        ensures sizes { HasSizes self.now }
    {
        let length = write_array(out, 0, &self.signature);
        let revision = write_u32(out, length, self.length);
        let oem_id = write_array(out, revision, &[self.revision, self.checksum]);
        let oem_table_id = write_array(out, oem_id, &self.oem_id);
        let oem_revision = write_array(out, oem_table_id, &self.oem_table_id);
        let creator_id = write_u32(out, oem_revision, self.oem_revision);
        let creator_revision = write_array(out, creator_id, &self.creator_id);
        write_u32(out, creator_revision, self.creator_revision);
    }
}
