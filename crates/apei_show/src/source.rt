// The bytes of a file, or of standard input.
ghost use Rattle.std.specs.Prelude.{◌≡◌, ◌+◌, ◌^◌, ◌<◌, ◌≤◌, [], length, IfErr, IfOk, OnOk};
ghost use Rattle.std.specs.Io.KnownBytes.{Keeps};
ghost use Rattle.apei_show.specs.Faults.{HasReason};
ghost use Rattle.apei_show.specs.Names.{name_of};
ghost use Rattle.apei_show.specs.Sources.{named, IsWhole, IsCause, IsRefusal};
ghost use Rattle.apei_show.specs.declared.source.Unread.TheVariants.{Memory as WantOfMemory, System as ByTheSystem};

use crate::files::Files;
use crate::status::Status;
use std::alloc::{AllocError, Global};
use std::io;
use std::path::Path;

// The most bytes of a file that are shown.
const MOST: usize = 1 << 28;

// How many bytes are read at once.
const PIECE: usize = 1 << 16;

/// Why a source is not read.
#[derive(Debug, Drop)]
enum Unread {
    /// The system says why.
    System(io::Error),
    Memory,
    /// It has more bytes than are shown.
    Long,
}

impl From<io::Error> for Unread {
    ghost from_gives = { λ error unread. unread ≡ ByTheSystem error };

    fn from(error: io::Error) -> Unread {
        Unread::System(error)
    }
}

impl From<AllocError> for Unread {
    ghost from_gives = { λ _ unread. unread ≡ WantOfMemory };

    fn from(_: AllocError) -> Unread {
        Unread::Memory
    }
}

/// The bytes of the file at `path`, or of standard input where the path is `-`. Why it can't be read is said on standard error.
pub fn read_file<F: Files>(rt: &HostRuntime, files: &mut F, path: &str) -> Result<Vec<u8>, Status>
    ensures whole { IfOk result (λ bytes. IsWhole (named (F.input files.old) (F.content files.old) path.now) bytes.items) }
    ensures sound { OnOk result (F.faults files.new ≡ F.faults files.old) }
    ensures cause { IfErr result (IsRefusal (named (F.input files.old) (F.content files.old) path.now) (F.faults files.old) (F.faults files.new)) }
{
    match read_path(files, rt.alloc(), path) {
        Ok(bytes) => Ok(bytes),
        Err(Unread::Memory) => Err(Status::Memory),
        Err(Unread::Long) => {
            // Where standard error is closed nothing can be said.
            let _ = eprintln!(rt; "apei-show: {path}: it has more than {MOST} bytes");
            Err(Status::Unread)
        }
        Err(Unread::System(error)) => {
            let _ = eprintln!(rt; "apei-show: {path}: {error}");
            Err(Status::Unread)
        }
    }
}

fn read_path<F: Files>(files: &mut F, alloc: Global, path: &str) -> Result<Vec<u8>, Unread>
    ensures whole { IfOk result (λ bytes. IsWhole (named (F.input files.old) (F.content files.old) path.now) bytes.items) }
    ensures sound { OnOk result (F.faults files.new ≡ F.faults files.old) }
    ensures cause { IfErr result (IsCause (named (F.input files.old) (F.content files.old) path.now) (F.faults files.old) (F.faults files.new)) }
{
    open(files, path)?;
    read_all(files, alloc)
}

// Opens the file at a path, or standard input where the path is `-`.
fn open<F: Files>(files: &mut F, path: &str) -> io::Result<()>
    ensures whole { OnOk result (Keeps (named (F.input files.old) (F.content files.old) path.now) (F.rest files.new)) }
    ensures cause { HasReason (F.faults files.old) (F.faults files.new) result }
{
    if path == "-" {
        files.open_input()
    } else {
        files.open_file(path)
    }
}

// All bytes that are left of what is open.
fn read_all<F: Files>(files: &mut F, alloc: Global) -> Result<Vec<u8>, Unread>
    ensures whole { IfOk result (λ bytes. IsWhole (F.rest files.old) bytes.items) }
    ensures sound { OnOk result (F.faults files.new ≡ F.faults files.old) }
    ensures cause { IfErr result (IsCause (F.rest files.old) (F.faults files.old) (F.faults files.new)) }
{
    let mut bytes = Vec::new(alloc);
    let mut piece = vec![in alloc; 0; PIECE]?;
    read_pieces(files, &mut piece, &mut bytes)?;
    Ok(bytes)
}

// Reads piece by piece, up to the end.
fn read_pieces<F: Files>(files: &mut F, piece: &mut [u8], bytes: &mut Vec<u8>) -> Result<(), Unread>
    requires room { 0 < length piece.old }
    requires none { bytes.old.items ≡ [] }
    ensures whole { OnOk result (IsWhole (F.rest files.old) bytes.new.items) }
    ensures sound { OnOk result (F.faults files.new ≡ F.faults files.old) }
    ensures cause { IfErr result (IsCause (F.rest files.old) (F.faults files.old) (F.faults files.new)) }
{
    'pieces: loop {
        let count = files.read(piece)?;
        if count == 0 {
            return Ok(());
        }
        if count > MOST - bytes.len() {
            return Err(Unread::Long);
        }
        bytes.extend_from_slice(&piece[..count])?;
    }
}

/// The last part of a path, or the whole path where it has none.
pub fn name_of(path: &str) -> &[u8]
    ensures { result.now ≡ name_of path.now }
{
    match Path::new(path).file_name() {
        Some(name) => name.as_bytes(),
        None => path.as_bytes(),
    }
}
