// The system as a run meets it: files, and standard output.
ghost use Rattle.std.specs.Prelude.{◌≡◌, ℕ, List, Option, None, length, IfOk, OnOk, OnErr};
ghost use Rattle.std.specs.Io.KnownBytes.{Appends};
ghost use Rattle.base_model.specs.Faults.{HasCause};
ghost use Rattle.apei_look.specs.Answers.{locked_by, size_by, IsFoundBy};
ghost use Rattle.apei_look.specs.Endings.{Begins};
ghost use Rattle.apei_look.specs.Entries.{Entry, IsBeginning, IsFound, IsLocked, IsSize};

use std::fs::{File, Metadata, TryLockError};
use std::io::{ErrorKind, Write};
use std::os::unix::fs::FileExt;
use std::{fs, io};

/// What a path names.
#[derive(Clone, Copy, Debug, PartialEq, Eq)]
pub enum Found {
    Nothing,
    /// A regular file.
    File,
    /// A folder, a pipe, or what else is no regular file.
    Other,
}

/// Files by their paths, which are opened for reading alone, and standard output.
pub(crate) trait Host {
    type File: Drop;

    // What stands at a path, where it is known.
    ghost entry: { Self → List ℕ → Option Entry };

    // What an open file is, where it is known.
    ghost content: { Self.File → Option Entry };

    // What was written, where it is known.
    ghost written: { Self → Option (List ℕ) };

    // How many calls failed so far.
    ghost faults: { Self → ℕ };

    /// What stands at a path.
    fn find(&mut self, path: &str) -> io::Result<Found>
        ensures found { IfOk result (IsFound (entry self.old path.now)) }
        ensures stays { entry self.new ≡ entry self.old }
        ensures silent { written self.new ≡ written self.old }
        ensures cause { HasCause (faults self.old) (faults self.new) result };

    /// Opens the file at a path.
    fn open(&mut self, path: &str) -> io::Result<Self::File>
        ensures opened { IfOk result (λ file. content file ≡ entry self.old path.now) }
        ensures silent { written self.new ≡ written self.old }
        ensures cause { HasCause (faults self.old) (faults self.new) result };

    /// Locks a file, so that no run changes it meanwhile; false where a run holds it for its changes.
    fn lock(&mut self, file: &Self::File) -> io::Result<bool>
        ensures locked { IfOk result (IsLocked (content file.now)) }
        ensures silent { written self.new ≡ written self.old }
        ensures cause { HasCause (faults self.old) (faults self.new) result };

    /// How many bytes a file has.
    fn size(&mut self, file: &Self::File) -> io::Result<u64>
        ensures size { IfOk result (IsSize (content file.now)) }
        ensures silent { written self.new ≡ written self.old }
        ensures cause { HasCause (faults self.old) (faults self.new) result };

    /// The first bytes of a file, as many as `bytes` has. It is an error where the file has fewer.
    fn read(&mut self, file: &Self::File, bytes: &mut [u8]) -> io::Result<()>
        ensures first { OnOk result (IsBeginning (content file.now) (length bytes.old) bytes.new) }
        ensures silent { written self.new ≡ written self.old }
        ensures cause { HasCause (faults self.old) (faults self.new) result };

    /// Writes to standard output.
    fn write(&mut self, bytes: &[u8]) -> io::Result<()>
        ensures written { OnOk result (Appends (written self.old) (written self.new) bytes.now) }
        ensures begun { OnErr result (Begins bytes.now (written self.old) (written self.new)) }
        ensures cause { HasCause (faults self.old) (faults self.new) result };
}

/// The system itself. Each of its errors is a fault.
#[derive(Drop)]
pub(crate) struct System<'a> {
    rt: &'a HostRuntime,
    faults: u64,
}

impl<'a> System<'a> {
    /// The system, of which nothing was asked yet.
    pub(crate) fn new(rt: &'a HostRuntime) -> System<'a>
        ensures { result.faults ≡ 0 }
    {
        System { rt, faults: 0 }
    }

    // Counts an error.
    fn counted<T: Drop>(&mut self, answer: io::Result<T>) -> io::Result<T>
        ensures same { result ≡ answer }
        ensures cause { HasCause self.old.faults self.new.faults result }
    {
        if answer.is_err() {
            self.faults = self.faults.saturating_add(1);
        }
        answer
    }
}

impl Host for System<'_> {
    type File = File;

    ghost entry = { λ _ _. None };

    ghost content = { λ _. None };

    ghost written = { λ _. None };

    ghost faults = { λ system. system.faults };

    fn find(&mut self, path: &str) -> io::Result<Found> {
        let found = found_of(fs::metadata(self.rt, path));
        self.counted(found)
    }

    fn open(&mut self, path: &str) -> io::Result<File> {
        let opened = File::open(self.rt, path);
        self.counted(opened)
    }

    fn lock(&mut self, file: &File) -> io::Result<bool> {
        let locked = locked_of(file.try_lock_shared());
        self.counted(locked)
    }

    fn size(&mut self, file: &File) -> io::Result<u64> {
        let size = size_of(file.metadata());
        self.counted(size)
    }

    fn read(&mut self, file: &File, bytes: &mut [u8]) -> io::Result<()> {
        let read = file.read_exact_at(bytes, 0);
        self.counted(read)
    }

    fn write(&mut self, bytes: &[u8]) -> io::Result<()> {
        let written = self.rt.stdout().write_all(bytes);
        self.counted(written)
    }
}

// What the system says of a path. That nothing stands there is no error.
fn found_of(answer: io::Result<Metadata>) -> io::Result<Found>
    ensures { IsFoundBy answer result }
{
    match answer {
        Ok(metadata) if metadata.is_file() => Ok(Found::File),
        Ok(_) => Ok(Found::Other),
        Err(error) if error.kind() == ErrorKind::NotFound => Ok(Found::Nothing),
        Err(error) => Err(error),
    }
}

// Whether the system locked a file.
fn locked_of(answer: Result<(), TryLockError>) -> io::Result<bool>
    ensures { result ≡ locked_by answer }
{
    match answer {
        Ok(()) => Ok(true),
        Err(TryLockError::WouldBlock) => Ok(false),
        Err(TryLockError::Error(error)) => Err(error),
    }
}

// How many bytes the system says that a file has.
fn size_of(answer: io::Result<Metadata>) -> io::Result<u64>
    ensures { result ≡ size_by answer }
{
    Ok(answer?.len())
}
