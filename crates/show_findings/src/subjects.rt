// What a section is about.
ghost use Rattle.std.specs.Prelude.{◌≡◌, ◌++◌, codes, option_map, OnOk};
ghost use Rattle.apei_bytes.specs.Guid.{guid_text};
ghost use Rattle.show_findings.specs.Subjects.{cxl_title, other_title, section_title};
ghost use Rattle.show_findings.specs.Words.{other_words, subject_words, words_of_kind};
ghost use Rattle.show_findings.specs.Sentences.{Adds};

use apei_bytes::Guid;
use cper_frame::section_name;
use field_lines::{SectionKind, section_kind};
use std::alloc::AllocError;
use std::str::from_utf8;

// The types of the sections that Linux stores by itself: a machine check, and a kernel's log, as it is and packed.
const MACHINE_CHECK: &[u8; 36] = b"fe08ffbe-95e4-4be7-bc73-4096044a38fc";

const KERNEL_LOG: &[u8; 36] = b"c197e04e-d545-4a70-9c17-a5549419eb12";

const PACKED_LOG: &[u8; 36] = b"4f118707-04dd-4055-b5dd-956d34ddfac6";

// A type of UEFI 2.8 for which there is no name among those of records (N.2.12).
const CCIX: &[u8; 36] = b"91335ef6-ebfb-4478-a6a6-88b728cf75d7";

// What a CXL device reports (UEFI 2.10, N.2.13 and N.2.14).
const CXL_PROTOCOL: &[u8; 36] = b"80b9efb4-52b5-4de3-a777-68784b771048";

const CXL_MEDIA: &[u8; 36] = b"fbcd0a77-c260-417f-85a9-088b1621eba6";

const CXL_DRAM: &[u8; 36] = b"601dcbb3-9c06-4eab-b8af-4e9bfb5c9624";

const CXL_MODULE: &[u8; 36] = b"fe927475-dd59-4339-a586-79bab113b774";

/// The name of a section of a type; none where nobody known named it.
pub fn section_title(kind: &Guid) -> Option<&'static str>
    ensures { option_map (λ title. title.now) result ≡ section_title (guid_text kind.now) }
{
    let mut text = [0; 36];
    kind.text(&mut text);
    match other_title(&text) {
        Some(title) => Some(title),
        None => section_name(kind),
    }
}

// The name of a section that UEFI has no name for among those of records.
fn other_title(text: &[u8; 36]) -> Option<&'static str>
    ensures { option_map (λ title. title.now) result ≡ other_title text.now }
{
    if *text == *MACHINE_CHECK {
        Some("Linux machine check")
    } else if *text == *KERNEL_LOG {
        Some("Linux kernel log")
    } else if *text == *PACKED_LOG {
        Some("Linux kernel log, packed")
    } else if *text == *CCIX {
        Some("CCIX PER Log")
    } else {
        cxl_title(text)
    }
}

fn cxl_title(text: &[u8; 36]) -> Option<&'static str>
    ensures { option_map (λ title. title.now) result ≡ cxl_title text.now }
{
    if *text == *CXL_PROTOCOL {
        Some("CXL Protocol Error")
    } else if *text == *CXL_MEDIA {
        Some("CXL General Media Event")
    } else if *text == *CXL_DRAM {
        Some("CXL DRAM Event")
    } else if *text == *CXL_MODULE {
        Some("CXL Memory Module Event")
    } else {
        None
    }
}

/// Adds what a section of a type is about.
pub(crate) fn add_subject(out: &mut String, kind: &Guid) -> Result<(), AllocError>
    ensures { OnOk result (Adds (subject_words kind.now) out.old out.new) }
{
    match words_of_kind(section_kind(kind)) {
        Some(words) => out.push_str(words),
        None => add_other(out, kind),
    }
}

fn words_of_kind(kind: Option<SectionKind>) -> Option<&'static str>
    ensures { option_map (λ words. words.now) result ≡ words_of_kind kind }
{
    match kind? {
        SectionKind::MemoryError | SectionKind::MemoryError2 => Some("memory error"),
        SectionKind::ProcessorGeneric | SectionKind::Ia32Processor | SectionKind::ArmProcessor =>
            Some("processor error"),
        SectionKind::PciExpress => Some("PCI Express error"),
        SectionKind::LinuxMachineCheck => Some("machine check"),
        SectionKind::LinuxDmesg => Some("error, the kernel's log of it"),
        _ => None,
    }
}

fn add_other(out: &mut String, kind: &Guid) -> Result<(), AllocError>
    ensures { OnOk result (Adds (other_words kind.now) out.old out.new) }
{
    let mut text = [0; 36];
    kind.text(&mut text);
    if text == *PACKED_LOG {
        return out.push_str("error, the kernel's log of it, packed");
    }
    match section_title(kind) {
        Some(title) => add_titled(out, title),
        None => add_unknown(out, kind),
    }
}

fn add_titled(out: &mut String, title: &str) -> Result<(), AllocError>
    ensures { OnOk result (Adds (codes "error, " ++ title.now) out.old out.new) }
{
    out.push_str("error, ")?;
    out.push_str(title)
}

fn add_unknown(out: &mut String, kind: &Guid) -> Result<(), AllocError>
    ensures { OnOk result (Adds (codes "error of the unknown type " ++ guid_text kind.now) out.old out.new) }
{
    out.push_str("error of the unknown type ")?;
    add_guid(out, kind)
}

/// Adds the text of a GUID.
pub(crate) fn add_guid(out: &mut String, guid: &Guid) -> Result<(), AllocError>
    ensures { OnOk result (Adds (guid_text guid.now) out.old out.new) }
{
    let mut text = [0; 36];
    guid.text(&mut text);
    match from_utf8(&text) {
        Ok(text) => out.push_str(text),
        // The text of a GUID is ASCII.
        Err(_) => unreachable!(),
    }
}
