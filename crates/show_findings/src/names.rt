// The names that Linux gives the files of pstore.
ghost use Rattle.std.specs.Prelude.{◌≡◌};
ghost use Rattle.show_findings.specs.Names.{named_kind};

use crate::FileKind;

/// The kind of a file that has such a name: one that Linux could not unpack ends with `.enc.z`.
pub(crate) fn named_kind(name: &[u8]) -> Option<FileKind>
    ensures { result ≡ named_kind name.now }
{
    if name.ends_with(b".enc.z") {
        Some(FileKind::Packed)
    } else if name.starts_with(b"mce-erst-") {
        Some(FileKind::MachineCheck)
    } else if name.starts_with(b"dmesg-erst-") {
        Some(FileKind::Dmesg)
    } else {
        None
    }
}
