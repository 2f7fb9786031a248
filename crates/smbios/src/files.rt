// The structures in a file.
ghost use Rattle.std.specs.Prelude.{◌≡◌};
ghost use Rattle.base_model.specs.Bytes.{part};
ghost use Rattle.smbios.specs.Files.{has_entry_point, table_in};

use apei_bytes::{get_u16, get_u32, get_u64};

// The anchors of the two entry points, and how many bytes each has.
const ANCHOR_64: &[u8] = b"_SM3_";

const SIZE_64: usize = 24;

const ANCHOR_32: &[u8] = b"_SM_";

const SIZE_32: usize = 31;

/// The structures in a file: all of it, as in `/sys/firmware/dmi/tables/DMI`, or what the entry point tells that it begins with, as in a
/// file of `dmidecode --dump-bin`, whose addresses count from the file's first byte (DSP0134, 5.2).
pub fn table_in(file: &[u8]) -> &[u8]
    ensures { result.now ≡ table_in file.now }
{
    if has_entry_point(file, ANCHOR_64, SIZE_64) {
        return clipped(file, get_u64(file, 16), get_u32(file, 12));
    }
    if has_entry_point(file, ANCHOR_32, SIZE_32) {
        return clipped(
            file,
            u64::from(get_u32(file, 24)),
            u32::from(get_u16(file, 22)),
        );
    }
    file
}

fn has_entry_point(file: &[u8], anchor: &[u8], least: usize) -> bool
    ensures { result ≡ has_entry_point file.now anchor.now least }
{
    file.starts_with(anchor) && least <= file.len()
}

// So many bytes at a place, as far as they are there.
#[tactic(auto, using(crate::proofs::FileLemmas::clipped_end), unfolding(base_model::specs::Bytes::part))]
fn clipped(bytes: &[u8], at: u64, count: u32) -> &[u8]
    ensures { result.now ≡ part bytes.now at count }
{
    let at = at as usize;
    let count = count as usize;
    if at >= bytes.len() {
        return &bytes[bytes.len()..];
    }
    let others = &bytes[at..];
    if count < others.len() {
        &others[..count]
    } else {
        others
    }
}
