// The tables that tell a guest of the sources, and of the boot error region.
ghost use Rattle.std.specs.Prelude.{◌≡◌, ◌++◌, ◌∷◌, [], ◌≤◌, ◌+◌, ◌*◌, ◌<◌, ◌^◌, length, map, IfOk, OnOk, codes, vec_len};
ghost use Rattle.base_model.specs.Bytes.{joined, spelled, zeros};
ghost use Rattle.apei_tables.specs.Layout.{spelling};
ghost use Rattle.hest_sources.specs.Layout.{IsGhes, ghes_bytes};
ghost use Rattle.hest_sources.specs.Tables.{IsHest};
ghost use Rattle.ghes_block.specs.Table.{IsBert};
ghost use Rattle.ghes_port.specs.Tables.{AreStructures, IsUnsealed, stated, own_header};

use crate::setups::Setup;
use apei_bytes::{OutOfMemory, put_u32, put_u64};
use apei_tables::{Header, seal};
use hest_sources::Ghes;
use std::alloc::{AllocError, Global};

/// The header of a table, whose checksum is still 0.
fn own_header(signature: [u8; 4], length: u32) -> Header
    ensures { result ≡ own_header signature length 0 }
{
    Header {
        signature,
        length,
        revision: 1,
        checksum: 0,
        oem_id: *b"APEIPR",
        oem_table_id: *b"APEIGHES",
        oem_revision: 1,
        creator_id: *b"APEI",
        creator_revision: 1,
    }
}

/// The 40 bytes before the structures.
fn head(size: u32, count: u32) -> [u8; 40]
    ensures bytes { result ≡ spelling (own_header (codes "HEST") size 0) ++ spelled 4 count }
    ensures len { length result ≡ 40 }
{
    let mut bytes = [0; 40];
    own_header(*b"HEST", size).put(&mut bytes);
    put_u32(&mut bytes, 36, count);
    bytes
}

/// Puts the structure of a source after others.
fn push_structure(bytes: &mut Vec<u8>, source: Ghes) -> Result<(), AllocError>
    ensures pushed { OnOk result (bytes.new.items ≡ bytes.old.items ++ ghes_bytes source) }
    ensures fits { OnOk result (IsGhes source) }
    ensures len { OnOk result (vec_len bytes.new ≤ vec_len bytes.old + 92) }
{
    let mut structure = [0; 92];
    let size = source.put(&mut structure);
    bytes.extend_from_slice(&structure[..size])?;
    Ok(())
}

/// The structures, one after another.
fn structures(alloc: Global, setups: &[Setup]) -> Result<Vec<u8>, AllocError>
    ensures bytes { IfOk result (λ bytes. bytes.items ≡ joined (map (λ s. ghes_bytes s.source) setups.now)) }
    ensures fit { OnOk result (AreStructures setups.now) }
    ensures len { IfOk result (λ bytes. vec_len bytes ≤ 92 * length setups.now) }
{
    let mut bytes = Vec::new(alloc);
    for setup in setups {
        push_structure(&mut bytes, setup.source)?;
    }
    Ok(bytes)
}

/// Bytes, and others after them.
fn joined(alloc: Global, front: &[u8], rest: &[u8]) -> Result<Vec<u8>, AllocError>
    ensures { IfOk result (λ bytes. bytes.items ≡ front.now ++ rest.now) }
{
    let mut bytes = Vec::new(alloc);
    bytes.extend_from_slice(front)?;
    bytes.extend_from_slice(rest)?;
    Ok(bytes)
}

/// Seals the table of some sources.
fn seal_hest(table: &mut [u8], setups: &[Setup])
    requires few { length setups.now ≤ 64 }
    requires fit { AreStructures setups.now }
    requires small { length table.old < 2 ^ 32 }
    requires written { IsUnsealed setups.now table.old }
    ensures { IsHest (stated setups.now) table.new }
{
    seal(table);
}

/// The Hardware Error Source Table (ACPI 6.4, 18.3.2) of the sources, sealed.
pub(crate) fn hest(alloc: Global, setups: &[Setup]) -> Result<Vec<u8>, OutOfMemory>
    requires { length setups.now ≤ 64 }
    ensures { IfOk result (λ table. IsHest (stated setups.now) table.items) }
{
    let structures = structures(alloc, setups)?;
    let head = head((40 + structures.len()) as u32, setups.len() as u32);
    let mut table = joined(alloc, &head, &structures)?;
    seal_hest(&mut table, setups);
    Ok(table)
}

/// The Boot Error Record Table (ACPI 6.4, 18.3.1) of a region of `len` bytes, sealed.
pub fn bert(region: u64, len: u32) -> [u8; 48]
    ensures { IsBert (record { len = len; region = region }) result }
{
    let mut table = [0; 48];
    put_bert(&mut table, region, len);
    table
}

fn put_bert(table: &mut [u8], region: u64, len: u32)
    requires { table.old ≡ zeros 48 }
    ensures { IsBert (record { len = len; region = region }) table.new }
{
    own_header(*b"BERT", 48).put(table);
    put_u32(table, 36, len);
    put_u64(table, 40, region);
    seal(table);
}
