// The standard's words for the numbers and the GUIDs of a record.
ghost use Rattle.std.specs.Prelude.{◌≡◌, map, option_map};
ghost use Rattle.apei_bytes.specs.Guid.{guid_text};
ghost use Rattle.cper_frame.specs.Names.{severity_word, notifications, sections, name_in};

use apei_bytes::Guid;

// A GUID as text, and its name.
#[derive(Clone, Copy)]
struct Named {
    guid: &'static [u8; 36],
    name: &'static str,
}

// The notification types (UEFI 2.8, N.2.1).
const NOTIFICATIONS: [Named; 11] = [
    Named {
        guid: b"2dce8bb1-bdd7-450e-b9ad-9cf4ebd4f890",
        name: "Corrected Machine Check",
    },
    Named {
        guid: b"4e292f96-d843-4a55-a8c2-d481f27ebeee",
        name: "Corrected Platform Error",
    },
    Named {
        guid: b"e8f56ffe-919c-4cc5-ba88-65abe14913bb",
        name: "Machine Check Exception",
    },
    Named {
        guid: b"cf93c01f-1a16-4dfc-b8bc-9c4daf67c104",
        name: "PCI Express Error",
    },
    Named {
        guid: b"cc5263e8-9308-454a-89d0-340bd39bc98e",
        name: "INIT",
    },
    Named {
        guid: b"5bad89ff-b7e6-42c9-814a-cf2485d6e98a",
        name: "Non-Maskable Interrupt",
    },
    Named {
        guid: b"3d61a466-ab40-409a-a698-f362d464b38f",
        name: "Boot",
    },
    Named {
        guid: b"667dd791-c6b3-4c27-8a6b-0f8e722deb41",
        name: "DMA Remapping Error",
    },
    Named {
        guid: b"9a78788a-bbe8-11e4-809e-67611e5d46b0",
        name: "Synchronous External Abort",
    },
    Named {
        guid: b"5c284c81-b0ae-4e87-a322-b04c85624323",
        name: "SError Interrupt",
    },
    Named {
        guid: b"09a9d5ac-5204-4214-96e5-94992e752bcd",
        name: "Platform Error Interrupt",
    },
];

// The section types (UEFI 2.8, N.2.2).
const SECTIONS: [Named; 13] = [
    Named {
        guid: b"9876ccad-47b4-4bdb-b65e-16f193c4f3db",
        name: "Processor Generic",
    },
    Named {
        guid: b"dc3ea0b0-a144-4797-b95b-53fa242b6e1d",
        name: "IA32/X64 Processor",
    },
    Named {
        guid: b"e429faf1-3cb7-11d4-bca7-0080c73c8881",
        name: "IPF Processor",
    },
    Named {
        guid: b"e19e3d16-bc11-11e4-9caa-c2051d5d46b0",
        name: "ARM Processor",
    },
    Named {
        guid: b"a5bc1114-6f64-4ede-b863-3e83ed7c83b1",
        name: "Platform Memory",
    },
    Named {
        guid: b"61ec04fc-48e6-d813-25c9-8daa44750b12",
        name: "Platform Memory 2",
    },
    Named {
        guid: b"d995e954-bbc1-430f-ad91-b44dcb3c6f35",
        name: "PCI Express",
    },
    Named {
        guid: b"81212a96-09ed-4996-9471-8d729c8e69ed",
        name: "Firmware Error Record Reference",
    },
    Named {
        guid: b"c5753963-3b84-4095-bf78-eddad3f9c9dd",
        name: "PCI/PCI-X Bus",
    },
    Named {
        guid: b"eb5e4685-ca66-4769-b6a2-26068b001326",
        name: "PCI Component",
    },
    Named {
        guid: b"5b51fef7-c79d-4434-8f1b-aa62de3e2c64",
        name: "DMAr Generic",
    },
    Named {
        guid: b"71761d37-32b2-45cd-a7d0-b0fedd93e8cf",
        name: "Intel VT for Directed I/O",
    },
    Named {
        guid: b"036f84e1-7f37-428c-a79e-575fdfaa84ec",
        name: "IOMMU",
    },
];

/// The word for the severity of a record or a section (UEFI 2.8, N.2.1); none for a number that has none.
pub fn severity_name(severity: u32) -> Option<&'static str>
    ensures { option_map (λ name. name.now) result ≡ severity_word severity }
{
    match severity {
        0 => Some("recoverable"),
        1 => Some("fatal"),
        2 => Some("corrected"),
        3 => Some("informational"),
        _ => None,
    }
}

/// The name of a notification type; none for a GUID that UEFI doesn't name.
pub fn notification_name(guid: &Guid) -> Option<&'static str>
    ensures { option_map (λ name. name.now) result ≡ name_in notifications (guid_text guid.now) }
{
    let mut text = [0; 36];
    guid.text(&mut text);
    name_in(&NOTIFICATIONS, &text)
}

/// The name of a section type; none for a GUID that UEFI doesn't name.
pub fn section_name(guid: &Guid) -> Option<&'static str>
    ensures { option_map (λ name. name.now) result ≡ name_in sections (guid_text guid.now) }
{
    let mut text = [0; 36];
    guid.text(&mut text);
    name_in(&SECTIONS, &text)
}

fn name_in(mut names: &[Named], guid: &[u8; 36]) -> Option<&'static str>
    ensures { option_map (λ name. name.now) result ≡ name_in (map (λ named. (named.guid.now, named.name.now)) names.entry.now) guid.now }
{
    while let [named, rest @ ..] = names {
        if named.guid == guid {
            return Some(named.name);
        }
        names = rest;
    }
    None
}
