// The types of sections, and the fields of their bodies.
ghost use Rattle.std.specs.Prelude.{◌≡◌, IfSome, IsTrue, map, option_map};
ghost use Rattle.apei_bytes.specs.Guid.{guid_text};
ghost use Rattle.field_lines.specs.Layouts.{is_sound_structure};
ghost use Rattle.field_lines.specs.Code.{structure_of};
ghost use Rattle.field_lines.specs.Sections.{section_kinds, kind_in, kind_of, structure_for, section_structure};

use crate::Layout;
use crate::arm::arm_processor;
use crate::ia32::ia32_processor;
use crate::linux::{linux_dmesg, linux_machine_check};
use crate::memory::{memory_error, memory_error_2};
use crate::pci::{pci_bus, pci_component, pci_express};
use crate::processor::processor_generic;
use crate::remapping::{ccix, directed_io, dma_remapping, firmware_record, iommu};
use apei_bytes::Guid;

/// What a section is about.
#[derive(Clone, Copy, Debug, PartialEq, Eq)]
pub enum SectionKind {
    /// A generic processor error (UEFI 2.8, N.2.4.1).
    ProcessorGeneric,
    /// An IA-32 or x64 processor error (UEFI 2.8, N.2.4.2).
    Ia32Processor,
    /// An ARM processor error (UEFI 2.8, N.2.4.4).
    ArmProcessor,
    /// A memory error (UEFI 2.8, N.2.5).
    MemoryError,
    /// A memory error, version 2 (UEFI 2.8, N.2.6).
    MemoryError2,
    /// A PCI Express error (UEFI 2.8, N.2.7).
    PciExpress,
    /// A PCI or PCI-X bus error (UEFI 2.8, N.2.8).
    PciBus,
    /// A PCI or PCI-X component error (UEFI 2.8, N.2.9).
    PciComponent,
    /// A reference to a firmware error record (UEFI 2.8, N.2.10).
    FirmwareRecord,
    /// A DMA remapping error (UEFI 2.8, N.2.11.1).
    DmaRemapping,
    /// An error of Intel's VT for Directed I/O (UEFI 2.8, N.2.11.2).
    DirectedIo,
    /// An error of an IOMMU (UEFI 2.8, N.2.11.3).
    Iommu,
    /// A CCIX PER log (UEFI 2.8, N.2.12).
    Ccix,
    /// Linux's machine check.
    LinuxMachineCheck,
    /// Linux's messages.
    LinuxDmesg,
}

// A type of sections: its GUID as text.
#[derive(Clone, Copy)]
struct Named {
    guid: &'static [u8; 36],
    kind: SectionKind,
}

const SECTIONS: [Named; 15] = [
    Named {
        guid: b"9876ccad-47b4-4bdb-b65e-16f193c4f3db",
        kind: SectionKind::ProcessorGeneric,
    },
    Named {
        guid: b"dc3ea0b0-a144-4797-b95b-53fa242b6e1d",
        kind: SectionKind::Ia32Processor,
    },
    Named {
        guid: b"e19e3d16-bc11-11e4-9caa-c2051d5d46b0",
        kind: SectionKind::ArmProcessor,
    },
    Named {
        guid: b"a5bc1114-6f64-4ede-b863-3e83ed7c83b1",
        kind: SectionKind::MemoryError,
    },
    Named {
        guid: b"61ec04fc-48e6-d813-25c9-8daa44750b12",
        kind: SectionKind::MemoryError2,
    },
    Named {
        guid: b"d995e954-bbc1-430f-ad91-b44dcb3c6f35",
        kind: SectionKind::PciExpress,
    },
    Named {
        guid: b"c5753963-3b84-4095-bf78-eddad3f9c9dd",
        kind: SectionKind::PciBus,
    },
    Named {
        guid: b"eb5e4685-ca66-4769-b6a2-26068b001326",
        kind: SectionKind::PciComponent,
    },
    Named {
        guid: b"81212a96-09ed-4996-9471-8d729c8e69ed",
        kind: SectionKind::FirmwareRecord,
    },
    Named {
        guid: b"5b51fef7-c79d-4434-8f1b-aa62de3e2c64",
        kind: SectionKind::DmaRemapping,
    },
    Named {
        guid: b"71761d37-32b2-45cd-a7d0-b0fedd93e8cf",
        kind: SectionKind::DirectedIo,
    },
    Named {
        guid: b"036f84e1-7f37-428c-a79e-575fdfaa84ec",
        kind: SectionKind::Iommu,
    },
    Named {
        guid: b"91335ef6-ebfb-4478-a6a6-88b728cf75d7",
        kind: SectionKind::Ccix,
    },
    Named {
        guid: b"fe08ffbe-95e4-4be7-bc73-4096044a38fc",
        kind: SectionKind::LinuxMachineCheck,
    },
    Named {
        guid: b"c197e04e-d545-4a70-9c17-a5549419eb12",
        kind: SectionKind::LinuxDmesg,
    },
];

/// What sections of a type are about (UEFI 2.8, N.2.2, and Linux's own); none for a type that is not known.
pub fn section_kind(guid: &Guid) -> Option<SectionKind>
    ensures { result ≡ kind_in section_kinds (guid_text guid.now) }
{
    let mut text = [0; 36];
    guid.text(&mut text);
    kind_in(&SECTIONS, &text)
}

fn kind_in(mut named: &[Named], guid: &[u8; 36]) -> Option<SectionKind>
    ensures { result ≡ kind_in (map kind_of named.entry.now) guid.now }
{
    while let [first, rest @ ..] = named {
        if first.guid == guid {
            return Some(first.kind);
        }
        named = rest;
    }
    None
}

/// The fields of the body of a section.
pub fn fields_of(kind: SectionKind) -> Layout
    ensures layout { structure_of result ≡ structure_for kind }
    ensures sound { IsTrue (is_sound_structure (structure_of result)) }
{
    match kind {
        SectionKind::ProcessorGeneric => processor_generic(),
        SectionKind::Ia32Processor => ia32_processor(),
        SectionKind::ArmProcessor => arm_processor(),
        SectionKind::MemoryError => memory_error(),
        SectionKind::MemoryError2 => memory_error_2(),
        SectionKind::PciExpress => pci_express(),
        SectionKind::PciBus => pci_bus(),
        SectionKind::PciComponent => pci_component(),
        SectionKind::FirmwareRecord => firmware_record(),
        SectionKind::DmaRemapping => dma_remapping(),
        SectionKind::DirectedIo => directed_io(),
        SectionKind::Iommu => iommu(),
        SectionKind::Ccix => ccix(),
        SectionKind::LinuxMachineCheck => linux_machine_check(),
        SectionKind::LinuxDmesg => linux_dmesg(),
    }
}

/// The fields of the body of a section of a type; none for a type that is not known.
pub fn section_layout(guid: &Guid) -> Option<Layout>
    ensures layout { option_map structure_of result ≡ section_structure (guid_text guid.now) }
    ensures sound { IfSome result (λ layout. IsTrue (is_sound_structure (structure_of layout))) }
{
    match section_kind(guid) {
        Some(kind) => Some(fields_of(kind)),
        None => None,
    }
}
