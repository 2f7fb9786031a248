// The kind of a file.
ghost use Rattle.std.specs.Prelude.{◌≡◌};
ghost use Rattle.show_findings.specs.Kinds.{IsKind, IsUntoldKind, told_kind};
ghost use Rattle.show_findings.specs.Kinds.{kind_behind as kind_of_rest};

use crate::names::named_kind;
use crate::shapes::shaped_kind;
use crate::signatures::signed_kind;
use flash_model::Geometry;
use image_survey::best_guess;

/// What a file is.
#[derive(Clone, Copy, Debug)]
pub enum FileKind {
    /// The text that `acpidump` writes of tables.
    Dump,
    /// The storage of QEMU's device `acpi-erst`.
    Qemu,
    /// A medium of the library: a first sector, and a flash behind it.
    Medium,
    /// Error records one after another.
    Records,
    /// Tables of ACPI one after another.
    Tables,
    /// The body of a record that Linux packed and could not unpack, by its name in pstore.
    Packed,
    /// The body of a machine check that Linux stored, by its name in pstore.
    MachineCheck,
    /// The text of a kernel's log that Linux stored, by its name in pstore.
    Dmesg,
    /// The flash of a record store of this geometry.
    Image(Geometry),
    /// Error status blocks one after another, or a whole boot error region.
    Blocks,
    /// No bytes.
    Empty,
    /// Zeros alone, as in a boot error region without an error, or the bytes 0xFF alone, as in an erased flash.
    Blank,
    /// None of these.
    Unknown,
}

/// The kind of a file: a signature tells it, or else the name that Linux gives files of pstore, the heads of a store's records, or the form
/// of a status block.
pub fn kind_of(name: &[u8], bytes: &[u8]) -> FileKind
    ensures { IsKind name.now bytes.now result }
{
    match told_kind(name, bytes) {
        Some(kind) => kind,
        None => untold_kind(bytes),
    }
}

/// The kind of what stands behind an item in a file.
pub fn kind_behind(bytes: &[u8]) -> FileKind
    ensures { result ≡ kind_of_rest bytes.now }
{
    match signed_kind(bytes) {
        Some(kind) => kind,
        None => shaped_kind(bytes),
    }
}

fn told_kind(name: &[u8], bytes: &[u8]) -> Option<FileKind>
    ensures { result ≡ told_kind name.now bytes.now }
{
    match signed_kind(bytes) {
        Some(kind) => Some(kind),
        None => named_kind(name),
    }
}

fn untold_kind(bytes: &[u8]) -> FileKind
    ensures { IsUntoldKind bytes.now result }
{
    match best_guess(bytes) {
        Some(guess) => FileKind::Image(guess.geometry),
        None => shaped_kind(bytes),
    }
}
