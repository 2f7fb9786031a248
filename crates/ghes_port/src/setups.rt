// Whether a source may be served by itself.
ghost use Rattle.std.specs.Prelude.{◌≡◌, ◌<◌, ◌≤◌, length, IfOk, OnOk, MatchResult, Some, None};
ghost use Rattle.ghes_port.specs.Sound.{IsPlaced};
ghost use Rattle.ghes_port.specs.Setups.{map_of, is_notification, structure_fault, size_fault, setup_fault};

use crate::errors::OpenError;
use crate::maps::SourceMap;
use crate::overlaps::check_places;
use crate::registers::map_of;
use apei_bytes::byte_at;
use hest_sources::Ghes;

/// A source to be served: its structure in the table, where its block lies in memory, and how many blocks may wait.
#[derive(Clone, Copy, Debug, PartialEq, Eq)]
pub struct Setup {
    pub source: Ghes,
    pub block: u64,
    pub places: u32,
}

/// Whether the notification structure is one (ACPI 6.4, 18.3.2.9).
fn is_notification(notify: &[u8]) -> bool
    requires { 2 < length notify.now }
    ensures { result ≡ is_notification notify.now }
{
    byte_at(notify, 1) == 28 && byte_at(notify, 0) < 12
}

fn check_structure(index: u32, source: &Ghes) -> Result<(), OpenError>
    ensures { MatchResult result (λ _. structure_fault index source.now ≡ None)
        (λ error. structure_fault index source.now ≡ Some error) }
{
    if source.flags != 0 || source.enabled > 1 {
        return Err(OpenError::Reserved { index });
    }
    if source.records == 0 || source.sections == 0 {
        return Err(OpenError::Preallocation { index });
    }
    if !is_notification(&source.notify) {
        return Err(OpenError::Notification { index });
    }
    Ok(())
}

fn check_sizes(index: u32, setup: &Setup) -> Result<(), OpenError>
    ensures exact { MatchResult result (λ _. size_fault index setup.now ≡ None)
        (λ error. size_fault index setup.now ≡ Some error) }
    ensures short { OnOk result (setup.now.source.block_len ≤ 65536) }
    ensures few { OnOk result (setup.now.places ≤ 65536) }
{
    if setup.source.block_len < 20 || setup.source.block_len > 65536 {
        return Err(OpenError::Length { index });
    }
    if setup.places == 0 || setup.places > 65536 {
        return Err(OpenError::Places { index });
    }
    Ok(())
}

/// Where a source lies, if it may be served by itself.
pub(crate) fn check_setup(index: u32, setup: &Setup) -> Result<SourceMap, OpenError>
    ensures exact { MatchResult result (λ _. setup_fault index setup.now ≡ None)
        (λ error. setup_fault index setup.now ≡ Some error) }
    ensures found { IfOk result (λ map. map ≡ map_of setup.now) }
    ensures placed { IfOk result (λ map. IsPlaced map) }
    ensures short { IfOk result (λ map. map.len ≤ 65536) }
    ensures few { OnOk result (setup.now.places ≤ 65536) }
{
    check_structure(index, &setup.source)?;
    check_sizes(index, setup)?;
    let map = map_of(index, setup)?;
    check_places(index, &map)?;
    Ok(map)
}
