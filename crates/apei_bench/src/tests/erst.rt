// Tables of instruction entries written by hand, and one that is made by calls.
use apei_tables::{Gas, Header};
use erst_entries::{Action, Entry, ErstTable, Instruction};
use std::alloc::Global;
use std::test::Fail;

/// The 48 bytes before the entries, with serialization header size 48.
const FRONT_48: [&str; 12] = [
    "45525354", // signature "ERST"
    "90020000", // length 656
    "01", // revision
    "e4", // checksum
    "415045495052", // OEM id
    "4150454953494d20", // OEM table id
    "01000000", // OEM revision
    "41504549", // creator id
    "01000000", // creator revision
    "30000000", // serialization header size
    "00000000", // reserved
    "13000000", // entry count
];

/// The same with header size 12 and a reserved number that is set.
const FRONT_12: [&str; 12] = [
    "45525354", // signature "ERST"
    "90020000", // length 656
    "01", // revision
    "c2", // checksum
    "415045495052", // OEM id
    "4150454953494d20", // OEM table id
    "01000000", // OEM revision
    "41504549", // creator id
    "01000000", // creator revision
    "0c000000", // serialization header size
    "34120000", // reserved
    "13000000", // entry count
];

/// One entry of each instruction: action, instruction, flags, reserved byte; register region; value; mask.
const ENTRIES: [&str; 19] = [
    "080000000040000000002000000000000000000000000000ffffffffffffffff", // READ_REGISTER
    "060100000120000108002000000000000101010101000000ffffffff00000000", // READ_REGISTER_VALUE
    "040200000020080210002000000000000202020202000000ffffffffffffffff", // WRITE_REGISTER
    "000301000140000318002000000000000303030303000000ffffffff00000000", // WRITE_REGISTER_VALUE
    "030400c50020000420002000000000000404040404000000ffffffffffffffff", // NOOP
    "050500000120000028002000000000000505050505000000ffffffff00000000", // LOAD_VAR1
    "050600000040000130002000000000000606060606000000ffffffffffffffff", // LOAD_VAR2
    "050700000120000238002000000000000707070707000000ffffffff00000000", // STORE_VAR1
    "050800000020000340002000000000000808080808000000ffffffffffffffff", // ADD
    "050900000140000448002000000000000909090909000000ffffffff00000000", // SUBTRACT
    "050a00000020000050002000000000000a0a0a0a0a000000ffffffffffffffff", // ADD_VALUE
    "050b00000120000158002000000000000b0b0b0b0b000000ffffffff00000000", // SUBTRACT_VALUE
    "0e0c00000040000260002000000000000c0c0c0c0c000000ffffffffffffffff", // STALL
    "060d00000120000368002000000000000d0d0d0d0d000000ffffffff00000000", // STALL_WHILE_TRUE
    "060e00000020000470002000000000000e0e0e0e0e000000ffffffffffffffff", // SKIP_NEXT_INSTRUCTION_IF_TRUE
    "060f00000140000078002000000000000f0f0f0f0f000000ffffffff00000000", // GOTO
    "101000000020000180002000000000001010101010000000ffffffffffffffff", // SET_SRC_ADDRESS_BASE
    "101100000120000288002000000000001111111111000000ffffffff00000000", // SET_DST_ADDRESS_BASE
    "051200000040000390002000000000001212121212000000ffffffffffffffff", // MOVE_DATA
];

/// A table without entries.
const EMPTY: &str =
    "455253543000000001574150454950524150454953494d20010000004150454901000000300000000000000000000000";

fn bytes_of(alloc: Global, lines: &[&str]) -> Result<Vec<u8>, Fail> {
    let mut bytes = Vec::new(alloc);
    for line in lines {
        let Ok(part) = hex::decode(alloc, *line) else {
            return Err(Fail::from("no hex"));
        };
        bytes.extend_from_slice(&part)?;
    }
    Ok(bytes)
}

/// The length and the number of entries of the table that stands first, which is encoded again to the same bytes.
fn decoded_again(alloc: Global, bytes: &[u8]) -> Result<(usize, usize), Fail> {
    let Ok((table, len)) = ErstTable::decode(alloc, bytes) else {
        return Err(Fail::from("refused"));
    };
    let Ok(again) = table.encode(alloc) else {
        return Err(Fail::from("no memory"));
    };
    if again.as_slice() == &bytes[..len] {
        Ok((len, table.len()))
    } else {
        Err(Fail::from("other bytes"))
    }
}

#[test]
fn tables_of_every_instruction_and_both_header_sizes(rt: HostRuntime) -> Result<(), Fail> {
    let alloc = rt.alloc();
    let entries = bytes_of(alloc, &ENTRIES)?;
    for front in [FRONT_48, FRONT_12] {
        let mut bytes = bytes_of(alloc, &front)?;
        bytes.extend_from_slice(&entries)?;
        bytes.push(0xff)?;
        assert_eq!(rt; decoded_again(alloc, &bytes)?, (656, 19));
    }
    Ok(())
}

#[test]
fn entries_pushed_and_finished_make_a_table(rt: HostRuntime) -> Result<(), Fail> {
    let alloc = rt.alloc();
    let bytes = bytes_of(alloc, &[EMPTY])?;
    let Ok((header, _)) = Header::decode(&bytes, *b"ERST", 48) else {
        return Err(Fail::from("refused"));
    };
    let mut table = ErstTable::blank(alloc, header);
    let region = Gas {
        space: 0,
        width: 64,
        offset: 0,
        access: 4,
        address: 0x200008,
    };
    let entry = Entry {
        action: Action::GetRecordCount.code(),
        code: Instruction::ReadRegister.code(),
        flags: 0,
        spare: 0,
        region,
        value: 0,
        mask: 0xffff_ffff,
    };
    if table.push(entry).is_err() {
        return Err(Fail::from("no memory"));
    }
    table.finish();
    let Ok(encoded) = table.encode(alloc) else {
        return Err(Fail::from("no memory"));
    };
    assert_eq!(rt; decoded_again(alloc, &encoded)?, (80, 1));
    let program = table.program(Action::GetRecordCount.code());
    assert_eq!(rt; program.len(), 1);
    assert!(rt; table.program(Action::SetRecordIdentifier.code()).is_empty());
    Ok(())
}
