// Files that hold one item, or none.
ghost use Rattle.std.specs.Prelude.{[], Some, OnOk};
ghost use Rattle.show_items.specs.Judged.{ShowsOne};
ghost use Rattle.show_items.specs.Singles.{IsBlank, IsBody, IsDmesg, IsEmpty, IsMachineCheck, IsPacked, IsSentence, IsUnknown};

use crate::groups::Group;
use crate::records::add_section;
use crate::sheet::{Item, Sheet};
use apei_bytes::Guid;
use show_findings::{add_dmesg, add_machine_check, is_empty_block, seen_at};
use std::alloc::AllocError;

// The types of the sections whose bodies Linux shows in pstore.
const MACHINE_CHECK: [u8; 16] = [
    0xBE, 0xFF, 0x08, 0xFE, 0xE4, 0x95, 0xE7, 0x4B, 0xBC, 0x73, 0x40, 0x96, 0x04, 0x4A, 0x38, 0xFC,
];

const KERNEL_LOG: [u8; 16] = [
    0x4E, 0xE0, 0x97, 0xC1, 0x45, 0xD5, 0x70, 0x4A, 0x9C, 0x17, 0xA5, 0x54, 0x94, 0x19, 0xEB, 0x12,
];

// How many bytes are shown of a file that is none of what is known.
const FIRST: usize = 16;

/// Shows the body of a machine check that Linux stored.
pub(crate) fn show_machine_check(sheet: &mut Sheet<'_>, bytes: &[u8]) -> Result<(), AllocError>
    ensures { OnOk result (ShowsOne (IsMachineCheck bytes.now) (Some []) (Some []) sheet.old sheet.new) }
{
    let mut sentence = String::new(sheet.alloc());
    add_machine_check(&mut sentence, bytes)?;
    show_body(
        sheet,
        "machine-check",
        MACHINE_CHECK,
        sentence.as_str(),
        bytes,
    )
}

/// Shows a kernel's log that Linux stored.
pub(crate) fn show_dmesg(sheet: &mut Sheet<'_>, bytes: &[u8]) -> Result<(), AllocError>
    ensures { OnOk result (ShowsOne (IsDmesg bytes.now) (Some []) (Some []) sheet.old sheet.new) }
{
    let mut sentence = String::new(sheet.alloc());
    add_dmesg(&mut sentence, bytes)?;
    show_body(sheet, "dmesg", KERNEL_LOG, sentence.as_str(), bytes)
}

fn show_body(
    sheet: &mut Sheet<'_>,
    kind: &'static str,
    section: [u8; 16],
    sentence: &str,
    bytes: &[u8],
) -> Result<(), AllocError>
    ensures { OnOk result (ShowsOne (IsBody kind.now section bytes.now) (Some []) (Some []) sheet.old sheet.new) }
{
    let item = Item {
        kind,
        at: Some(0),
        bytes,
    };
    sheet.begin(&item, sentence)?;
    add_section(sheet, 0, &Guid::from_bytes(section), 0, bytes)?;
    sheet.end(&None)
}

/// Says that a file is empty.
pub(crate) fn show_empty(sheet: &mut Sheet<'_>) -> Result<(), AllocError>
    ensures { OnOk result (ShowsOne (IsEmpty) (Some []) (Some []) sheet.old sheet.new) }
{
    show_sentence(sheet, "empty", 0, &[], "the file is empty")
}

/// Shows bytes that hold nothing.
pub(crate) fn show_blank(sheet: &mut Sheet<'_>, at: u64, bytes: &[u8]) -> Result<(), AllocError>
    ensures { OnOk result (ShowsOne (IsBlank at bytes.now) (Some []) (Some []) sheet.old sheet.new) }
{
    let len = bytes.len();
    let mut sentence = String::new(sheet.alloc());
    match bytes {
        _ if is_empty_block(bytes) => sentence.push_str(
            "an empty error status block: no error is stored here",
        )?,
        [0, ..] => write!(sentence, "{len} zeros: no error is stored here")?,
        _ => write!(
            sentence,
            "{len} bytes of an erased flash: no error is stored here"
        )?,
    }
    show_sentence(sheet, "blank", at, bytes, sentence.as_str())
}

/// Says of the body of a record that Linux could not unpack how it is read.
pub(crate) fn show_packed(sheet: &mut Sheet<'_>, bytes: &[u8]) -> Result<(), AllocError>
    ensures { OnOk result (ShowsOne (IsPacked bytes.now) (Some []) (Some []) sheet.old sheet.new) }
{
    show_sentence(
        sheet,
        "packed",
        0,
        bytes,
        "the body of a record that Linux packed and could not unpack; this unpacks it: python3 -c 'import sys, zlib; sys.stdout.buffer.write(zlib.decompressobj(-15).decompress(sys.stdin.buffer.read()))' < FILE",
    )
}

fn show_sentence(
    sheet: &mut Sheet<'_>,
    kind: &'static str,
    at: u64,
    bytes: &[u8],
    sentence: &str,
) -> Result<(), AllocError>
    ensures { OnOk result (ShowsOne (IsSentence kind.now at bytes.now) (Some []) (Some []) sheet.old sheet.new) }
{
    let item = Item {
        kind,
        at: Some(at),
        bytes,
    };
    sheet.begin(&item, sentence)?;
    sheet.end(&None)
}

/// Says that bytes are none of what is known, and what was looked for.
pub(crate) fn show_unknown(sheet: &mut Sheet<'_>, at: u64, bytes: &[u8]) -> Result<(), AllocError>
    ensures { OnOk result (ShowsOne (IsUnknown at bytes.now) (Some []) (Some []) sheet.old sheet.new) }
{
    let item = Item {
        kind: "none",
        at: Some(at),
        bytes,
    };
    let len = bytes.len();
    let mut sentence = String::new(sheet.alloc());
    write!(
        sentence,
        "{len} bytes that are none of these: error records, tables of ACPI, the text of acpidump, error status blocks, files of pstore, an image or a medium of apei, QEMU's storage of acpi-erst"
    )?;
    sheet.begin(&item, sentence.as_str())?;
    let group = Group {
        name: "bytes",
        index: None,
        kind: None,
        base: 0,
    };
    sheet.add_bytes(&group, seen_at(bytes, 0, FIRST))?;
    sheet.end_as_bad()
}
