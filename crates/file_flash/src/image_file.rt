// The file of an image: opened, or made where it is missing.
ghost use Rattle.std.specs.Prelude.{◌≡◌, replicate, IfOk};
ghost use Rattle.file_flash.specs.Mediums.{size_of, image_of, IsUnusable};

use crate::medium::{ERASED, Medium};
use std::alloc::Global;
use std::fs::{File, OpenOptions};
use std::hash::{BuildHasher, RandomState};
use std::io::ErrorKind;
use std::os::fd::AsRawFd;
use std::os::unix::fs::FileExt;
use std::path::Path;
use std::{fs, io};

/// Opens the file, or makes it with so many erased bytes.
pub(crate) fn open_or_make(
    rt: &HostRuntime,
    alloc: Global,
    path: &str,
    size: u64,
) -> io::Result<Medium>
    ensures { IfOk result (λ medium. ¬ IsUnusable medium → size_of medium ≡ size) }
{
    match fs::metadata(rt, path) {
        Ok(found) if found.is_file() => open(rt, alloc, path, size),
        Ok(_) => Err(ErrorKind::Unsupported.into()),
        Err(error) if error.kind() == ErrorKind::NotFound => make(rt, alloc, path, size),
        Err(error) => Err(error),
    }
}

// A file of another length is left alone.
fn open(rt: &HostRuntime, alloc: Global, path: &str, size: u64) -> io::Result<Medium>
    ensures { IfOk result (λ medium. ¬ IsUnusable medium → size_of medium ≡ size) }
{
    let file = OpenOptions::new().read(true).write(true).open(rt, path)?;
    let file = lock(file)?;
    let found = file.metadata()?.len();
    if found != size {
        return Ok(Medium::Unusable { size: found });
    }
    let mut image = vec![in alloc; ERASED; size as usize]?;
    file.read_exact_at(&mut image, 0)?;
    Ok(Medium::Held { file, image })
}

// The file is filled under another name, and gets its own once it is whole and on the disk. It replaces none that stands
// there by then.
fn make(rt: &HostRuntime, alloc: Global, path: &str, size: u64) -> io::Result<Medium>
    ensures size { IfOk result (λ medium. size_of medium ≡ size) }
    ensures erased { IfOk result (λ medium. image_of medium ≡ replicate size 0xFF) }
{
    let image = vec![in alloc; ERASED; size as usize]?;
    let number = RandomState::new(rt)?.hash_one(0u64);
    let draft = format!(in alloc; "{path}.{number:016x}")?;
    let file = File::create_new(rt, draft.as_str())?;
    let placed = place(rt, file, &image, draft.as_str(), path);
    let removed = fs::remove_file(rt, draft.as_str());
    let file = placed?;
    removed?;
    sync_folder(rt, path)?;
    Ok(Medium::Held { file, image })
}

fn place(rt: &HostRuntime, file: File, image: &[u8], draft: &str, path: &str) -> io::Result<File> {
    let file = lock(file)?;
    file.write_all_at(image, 0)?;
    file.sync_all()?;
    fs::hard_link(rt, draft, path)?;
    Ok(file)
}

// Locks a file, under a descriptor that is no standard stream's: what is meant for one that was closed must not land in it.
fn lock(file: File) -> io::Result<File> {
    let file = if file.as_raw_fd() <= 2 {
        file.try_clone()?
    } else {
        file
    };
    file.try_lock()?;
    Ok(file)
}

fn sync_folder(rt: &HostRuntime, path: &str) -> io::Result<()> {
    let folder = match Path::new(path).parent() {
        Some(folder) if folder.as_str() != "" => folder.as_str(),
        _ => ".",
    };
    File::open(rt, folder)?.sync_all()
}
