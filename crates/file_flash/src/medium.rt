// What a flash in a file works on: an open file, and its bytes.
ghost use Rattle.std.specs.Prelude.{◌≡◌, ◌↔◌, ◌+◌, ◌≤◌, length, replicate, OnOk, IsErr, IsTrue};
ghost use Rattle.base_model.specs.Bytes.{part, put_at};

use flash_model::{FlashFailed, copy_range, fill_range, put_range};
use std::fs::File;
use std::io;
use std::os::unix::fs::FileExt;

pub(crate) const ERASED: u8 = 0xFF;

/// A file that is open, locked and held in memory too, or nothing that could be read or changed.
#[derive(Drop)]
pub enum Medium {
    /// The image is what the file holds: reads are answered from it.
    Held { file: File, image: Vec<u8> },
    /// Every call fails.
    Unusable { size: u64 },
}

// Makes a range of the file hold these bytes, for good.
fn store(file: &File, at: usize, bytes: &[u8]) -> io::Result<()> {
    file.write_all_at(bytes, at as u64)?;
    file.sync_data()
}

impl Medium {
    ghost use Rattle.file_flash.specs.Mediums.{size_of, image_of, IsUnusable};

    pub(crate) fn size(&self) -> u64
        ensures { result ≡ size_of self.now }
    {
        match self {
            Medium::Held { file: _, image } => image.len() as u64,
            Medium::Unusable { size } => *size,
        }
    }

    pub(crate) fn read(&self, at: usize, buf: &mut [u8]) -> Result<(), FlashFailed>
        requires { at + length buf.old ≤ size_of self.now }
        ensures bytes { OnOk result (buf.new ≡ part (image_of self.now) at (length buf.old)) }
        ensures fails { IsErr result ↔ IsUnusable self.now }
    {
        match self {
            Medium::Held { file: _, image } => {
                copy_range(image, at, buf);
                Ok(())
            }
            Medium::Unusable { size: _ } => Err(FlashFailed),
        }
    }

    pub(crate) fn program(&mut self, at: usize, bytes: &[u8]) -> Result<(), FlashFailed>
        requires { at + length bytes.now ≤ size_of self.old }
        ensures bytes { OnOk result (image_of self.new ≡ put_at (image_of self.old) at bytes.now) }
        ensures size { size_of self.new ≡ size_of self.old }
        ensures unusable { IsUnusable self.old → IsErr result × IsUnusable self.new }
    {
        let Medium::Held { file: _, image } = self else {
            return Err(FlashFailed);
        };
        put_range(image, at, bytes);
        self.settle(at, bytes.len())
    }

    pub(crate) fn erase(&mut self, at: usize, len: usize) -> Result<(), FlashFailed>
        requires { at + len ≤ size_of self.old }
        ensures bytes { OnOk result (image_of self.new ≡ put_at (image_of self.old) at (replicate len 0xFF)) }
        ensures size { size_of self.new ≡ size_of self.old }
        ensures unusable { IsUnusable self.old → IsErr result × IsUnusable self.new }
    {
        let Medium::Held { file: _, image } = self else {
            return Err(FlashFailed);
        };
        fill_range(image, at, len, ERASED);
        self.settle(at, len)
    }

    // Brings a range of the image to the file. Where that fails, the range is what the file then has there, stored once more so
    // that it stays so.
    fn settle(&mut self, at: usize, len: usize) -> Result<(), FlashFailed>
        requires { at + len ≤ size_of self.old }
        ensures bytes { OnOk result (image_of self.new ≡ image_of self.old) }
        ensures size { size_of self.new ≡ size_of self.old }
        ensures unusable { IsUnusable self.old → IsErr result × IsUnusable self.new }
    {
        let size = self.size();
        if let Medium::Held { file, image } = self {
            let range = &mut image[at..at + len];
            if store(file, at, range).is_ok() {
                return Ok(());
            }
            if file.read_exact_at(range, at as u64).is_err() || store(file, at, range).is_err() {
                *self = Medium::Unusable { size };
            }
        }
        Err(FlashFailed)
    }
}
