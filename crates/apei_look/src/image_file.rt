// The file of an image, opened for reading alone.
ghost use Rattle.std.specs.Prelude.{◌≡◌, ◌≤◌, ◌^◌, true, min, IfErr, IfOk, IfSome, OnOk};
ghost use Rattle.apei_look.specs.Entries.{IsBeginning, IsFileOf, IsFound, IsLocked};
ghost use Rattle.apei_look.specs.Refusals.{length_checked, IsFileRefusal, IsFindRefusal, IsLockRefusal, IsOpenRefusal};
ghost use Rattle.apei_look.specs.Refusals.{IsReadRefusal};
ghost use Rattle.apei_look.specs.declared.host.Found.TheVariants.{File};

use crate::host::{Found, Host};
use crate::status::Status;
use std::alloc::Global;
use thiserror::Error;

// What the bytes are before they are read.
const ERASED: u8 = 0xFF;

/// Why a file is not read.
#[derive(Clone, Copy, Debug, PartialEq, Eq, Error)]
pub enum FileFault {
    /// It can't be opened or read.
    #[error("the image can't be read")]
    Unreadable,
    /// There is no such file.
    #[error("there is no such image")]
    Missing,
    /// It is no regular file.
    #[error("the image is no regular file")]
    NoFile,
    /// Another run holds it.
    #[error("another run holds the image")]
    Held,
}

/// A regular file that is open for reading alone. No run can hold it for its changes meanwhile.
#[derive(Drop)]
pub(crate) struct ImageFile<H: Host> {
    file: H::File,
    size: u64,
}

impl<H: Host> ImageFile<H> {
    /// Opens the file at `path`. One that another run holds for its changes is refused. So is a folder or a pipe, since the
    /// opening of a pipe waits.
    pub(crate) fn open(host: &mut H, path: &str) -> Result<ImageFile<H>, Status>
        ensures opened { IfOk result (λ image. H.content image.file ≡ H.entry host.old path.now) }
        ensures sized { IfOk result (λ image. IfSome (H.entry host.old path.now) (IsFileOf image.size)) }
        ensures sound { OnOk result (H.faults host.new ≡ H.faults host.old) }
        ensures silent { H.written host.new ≡ H.written host.old }
        ensures refused { IfErr result (IsOpenRefusal (H.entry host.old path.now)
            (H.faults host.old) (H.faults host.new)) }
    {
        find(host, path)?;
        let file = host.open(path)?;
        lock(host, &file)?;
        let size = host.size(&file)?;
        Ok(ImageFile { file, size })
    }

    /// How many bytes it has.
    pub(crate) fn size(&self) -> u64
        ensures { result ≡ self.now.size }
    {
        self.size
    }

    /// Its first bytes: so many, or all where it has fewer.
    pub(crate) fn beginning(
        &self,
        host: &mut H,
        alloc: Global,
        most: u64,
    ) -> Result<Vec<u8>, Status>
        requires { most ≤ 2 ^ 27 }
        ensures first { IfOk result (λ bytes. IsBeginning (H.content self.now.file) (min self.now.size most)
            bytes.items) }
        ensures sound { OnOk result (H.faults host.new ≡ H.faults host.old) }
        ensures silent { H.written host.new ≡ H.written host.old }
        ensures refused { IfErr result (IsReadRefusal (H.faults host.old) (H.faults host.new)) }
    {
        self.read(host, alloc, self.size.min(most))
    }

    /// All its bytes, which are at most so many.
    pub(crate) fn bytes(&self, host: &mut H, alloc: Global, most: u64) -> Result<Vec<u8>, Status>
        requires { most ≤ 2 ^ 27 }
        ensures all { IfOk result (λ bytes. IsBeginning (H.content self.now.file) self.now.size bytes.items) }
        ensures within { OnOk result (self.now.size ≤ most) }
        ensures sound { OnOk result (H.faults host.new ≡ H.faults host.old) }
        ensures silent { H.written host.new ≡ H.written host.old }
        ensures refused { IfErr result (IsFileRefusal self.now.size most
            (H.faults host.old) (H.faults host.new)) }
    {
        check_length(self.size, most)?;
        self.read(host, alloc, self.size)
    }

    // So many bytes from the first on.
    fn read(&self, host: &mut H, alloc: Global, len: u64) -> Result<Vec<u8>, Status>
        requires { len ≤ 2 ^ 27 }
        ensures first { IfOk result (λ bytes. IsBeginning (H.content self.now.file) len bytes.items) }
        ensures sound { OnOk result (H.faults host.new ≡ H.faults host.old) }
        ensures silent { H.written host.new ≡ H.written host.old }
        ensures refused { IfErr result (IsReadRefusal (H.faults host.old) (H.faults host.new)) }
    {
        let mut bytes = vec![in alloc; ERASED; len as usize]?;
        host.read(&self.file, &mut bytes)?;
        Ok(bytes)
    }
}

/// A file that is longer is refused.
pub fn check_length(found: u64, most: u64) -> Result<(), Status>
    ensures { result ≡ length_checked found most }
{
    if found <= most {
        Ok(())
    } else {
        Err(Status::Length {
            found,
            wanted: most,
        })
    }
}

// Looks whether a regular file stands at a path.
fn find<H: Host>(host: &mut H, path: &str) -> Result<(), Status>
    ensures found { OnOk result (IsFound (H.entry host.old path.now) File) }
    ensures stays { H.entry host.new ≡ H.entry host.old }
    ensures sound { OnOk result (H.faults host.new ≡ H.faults host.old) }
    ensures silent { H.written host.new ≡ H.written host.old }
    ensures refused { IfErr result (IsFindRefusal (H.entry host.old path.now)
        (H.faults host.old) (H.faults host.new)) }
{
    match host.find(path)? {
        Found::File => Ok(()),
        Found::Nothing => Err(Status::File(FileFault::Missing)),
        Found::Other => Err(Status::File(FileFault::NoFile)),
    }
}

// Locks a file.
fn lock<H: Host>(host: &mut H, file: &H::File) -> Result<(), Status>
    ensures locked { OnOk result (IsLocked (H.content file.now) true) }
    ensures sound { OnOk result (H.faults host.new ≡ H.faults host.old) }
    ensures silent { H.written host.new ≡ H.written host.old }
    ensures refused { IfErr result (IsLockRefusal (H.content file.now) (H.faults host.old) (H.faults host.new)) }
{
    if host.lock(file)? {
        Ok(())
    } else {
        Err(Status::File(FileFault::Held))
    }
}
