// The machine's own tables.
ghost use Rattle.std.specs.Prelude.{◌≡◌, [], ◌∷◌, length, IfOk, OnOk};
ghost use Rattle.erst_entries.specs.Layout.{spelling, FitsErst};
ghost use Rattle.erst_entries.specs.Tables.{IsErst};
ghost use Rattle.hest_sources.specs.declared.sources.HestSource.TheVariants.{Ghes as Generic};
ghost use Rattle.hest_sources.specs.Tables.{IsHest};
ghost use Rattle.ghes_block.specs.Table.{IsBert};
ghost use Rattle.erst_machine.specs.Memories.{zeros};
ghost use Rattle.erst_machine.specs.OwnTables.{own_header, own_source, own_size, own_erst, own_hest, own_bert, own_bert_bytes};

use crate::areas::{ACKNOWLEDGE, BLOCK_LEN, BOOT_ERRORS, BOOT_ERRORS_LEN, STATUS};
use crate::entries::{own_entries, register_of};
use apei_bytes::{OutOfMemory, put_u32, put_u64, write_array};
use apei_tables::{Header, seal};
use erst_entries::ErstTable;
use hest_sources::{Ack, Ghes};
use std::alloc::Global;

/// The header of a table of the machine, whose checksum is still 0.
pub fn own_header(signature: [u8; 4], length: u32) -> Header
    ensures { result ≡ own_header signature length 0 }
{
    Header {
        signature,
        length,
        revision: 1,
        checksum: 0,
        oem_id: *b"APEIPR",
        oem_table_id: *b"APEISIM ",
        oem_revision: 1,
        creator_id: *b"APEI",
        creator_revision: 1,
    }
}

/// The Error Record Serialization Table.
pub fn erst(alloc: Global) -> Result<Vec<u8>, OutOfMemory>
    ensures bytes { IfOk result (λ bytes. bytes.items ≡ spelling own_erst) }
    ensures size { IfOk result (λ bytes. length bytes.items ≡ own_size) }
    ensures table { IfOk result (λ bytes. IsErst own_erst bytes.items) }
    ensures fits { OnOk result (FitsErst own_erst) }
{
    let mut table = ErstTable::blank(alloc, own_header(*b"ERST", 0));
    for entry in own_entries() {
        table.push(entry)?;
    }
    table.finish();
    let bytes = table.encode(alloc)?;
    Ok(bytes)
}

/// The machine's one error source, that of the handover.
fn own_source() -> Ghes
    ensures { result ≡ own_source }
{
    let mut notify = [0; 28];
    notify[..6].copy_from_slice(&[0, 0x1c, 0, 0, 0xe8, 3]);
    Ghes {
        id: 1,
        related: 0xffff,
        flags: 0,
        enabled: 1,
        records: 1,
        sections: 4,
        raw: BLOCK_LEN,
        status: register_of(64, 4, STATUS),
        notify,
        block_len: BLOCK_LEN,
        ack: Some(Ack {
            register: register_of(64, 4, ACKNOWLEDGE),
            preserve: u64::MAX - 1,
            write: 1,
        }),
    }
}

fn put_hest(out: &mut [u8])
    requires { out.old ≡ zeros 132 }
    ensures { out.new ≡ own_hest }
{
    let mut source = [0; 92];
    own_source().put(&mut source);
    own_header(*b"HEST", 132).put(out);
    put_u32(out, 36, 1);
    write_array(out, 40, &source);
    seal(out);
}

fn put_bert(out: &mut [u8])
    requires { out.old ≡ zeros 48 }
    ensures { out.new ≡ own_bert_bytes }
{
    own_header(*b"BERT", 48).put(out);
    put_u32(out, 36, BOOT_ERRORS_LEN as u32);
    put_u64(out, 40, BOOT_ERRORS);
    seal(out);
}

/// The Hardware Error Source Table.
pub fn hest(alloc: Global) -> Result<Vec<u8>, OutOfMemory>
    ensures bytes { IfOk result (λ bytes. bytes.items ≡ own_hest) }
    ensures size { IfOk result (λ bytes. length bytes.items ≡ 132) }
    ensures table { IfOk result (λ bytes. IsHest (Generic own_source ∷ []) bytes.items) }
{
    let mut bytes = vec![in alloc; 0; 132]?;
    put_hest(&mut bytes);
    Ok(bytes)
}

/// The Boot Error Record Table.
pub fn bert(alloc: Global) -> Result<Vec<u8>, OutOfMemory>
    ensures bytes { IfOk result (λ bytes. bytes.items ≡ own_bert_bytes) }
    ensures size { IfOk result (λ bytes. length bytes.items ≡ 48) }
    ensures table { IfOk result (λ bytes. IsBert own_bert bytes.items) }
{
    let mut bytes = vec![in alloc; 0; 48]?;
    put_bert(&mut bytes);
    Ok(bytes)
}
