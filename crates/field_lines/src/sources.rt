// The fields of error sources, by the numbers of their types.
ghost use Rattle.std.specs.Prelude.{◌≡◌, IfSome, IsTrue, map, option_map};
ghost use Rattle.field_lines.specs.Layouts.{is_sound_structure};
ghost use Rattle.field_lines.specs.Code.{structure_of};
ghost use Rattle.field_lines.specs.Sources.{source_tables, structure_in, all_sound, source_of};

use crate::Layout;
use crate::checks::{CORRECTED_CHECK, MACHINE_CHECK, NMI_SOURCE};
use crate::generic::{GENERIC_SOURCE, GENERIC_SOURCE_2};
use crate::pcie::{PCIE_BRIDGE, PCIE_DEVICE, ROOT_PORT};

#[derive(Clone, Copy)]
struct Source {
    kind: u16,
    layout: Layout,
}

const SOURCES: [Source; 9] = [
    Source {
        kind: 0,
        layout: MACHINE_CHECK,
    },
    Source {
        kind: 1,
        layout: CORRECTED_CHECK,
    },
    Source {
        kind: 2,
        layout: NMI_SOURCE,
    },
    Source {
        kind: 6,
        layout: ROOT_PORT,
    },
    Source {
        kind: 7,
        layout: PCIE_DEVICE,
    },
    Source {
        kind: 8,
        layout: PCIE_BRIDGE,
    },
    Source {
        kind: 9,
        layout: GENERIC_SOURCE,
    },
    Source {
        kind: 10,
        layout: GENERIC_SOURCE_2,
    },
    Source {
        kind: 11,
        layout: CORRECTED_CHECK,
    },
];

/// The fields of an error source of a type (ACPI 6.4, 18.3.2); none for one that the standard doesn't name.
pub fn source_layout(kind: u16) -> Option<Layout>
    ensures layout { option_map structure_of result ≡ structure_in source_tables kind }
    ensures sound { IfSome result (λ layout. IsTrue (is_sound_structure (structure_of layout))) }
{
    layout_in(&SOURCES, kind)
}

fn layout_in(mut sources: &[Source], kind: u16) -> Option<Layout>
    requires { IsTrue (all_sound (map source_of sources.now)) }
    ensures layout { option_map structure_of result ≡ structure_in (map source_of sources.entry.now) kind }
    ensures sound { IfSome result (λ layout. IsTrue (is_sound_structure (structure_of layout))) }
{
    while let [source, rest @ ..] = sources {
        if source.kind == kind {
            return Some(source.layout);
        }
        sources = rest;
    }
    None
}
