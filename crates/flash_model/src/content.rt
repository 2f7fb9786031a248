// What a change of a simulated flash puts into its range.
ghost use Rattle.std.specs.Prelude.{◌≡◌, ◌+◌, ◌*◌, ◌≤◌, length, replicate, Option};
ghost use Rattle.base_model.specs.Bytes.{put_at};
ghost use Rattle.flash_model.specs.Spans.{AreErasedBut};

use crate::Tear;
use crate::ranges::fill_range;
use crate::spans::{Span, erase, program, widen};

const ZERO: u8 = 0x00;

const MARK: u8 = 0xA5;

/// Bytes, or so many erased ones.
#[derive(Clone, Copy)]
pub(crate) enum Content<'a> {
    Bytes(&'a [u8]),
    Erased { len: usize },
}

impl Content<'_> {
    ghost use Rattle.flash_model.specs.Content.{bytes_of, IsWhole};
    ghost use Rattle.flash_model.specs.Simulation.{image_left};

    pub(crate) fn len(self) -> usize
        ensures { result ≡ length (bytes_of self.entry) }
    {
        match self {
            Content::Bytes(bytes) => bytes.len(),
            Content::Erased { len } => len,
        }
    }

    // Puts it into an image from a place on.
    fn put(self, image: &mut [u8], spans: &mut [Span], sector: usize, at: usize)
        requires within { at + length (bytes_of self) ≤ length image.old }
        requires whole { IsWhole sector at self }
        requires sectors { length spans.old * sector ≤ length image.old }
        requires known { AreErasedBut spans.old sector image.old }
        ensures bytes { image.new ≡ put_at image.old at (bytes_of self.entry) }
        ensures sectors { length spans.new ≡ length spans.old }
        ensures known { AreErasedBut spans.new sector image.new }
    {
        match self {
            Content::Bytes(bytes) => program(image, spans, sector, at, bytes),
            Content::Erased { .. } => erase(image, spans, sector, at),
        }
    }

    // Fills its range with one byte.
    fn fill(self, image: &mut [u8], spans: &mut [Span], sector: usize, at: usize, byte: u8)
        requires within { at + length (bytes_of self) ≤ length image.old }
        requires sectors { length spans.old * sector ≤ length image.old }
        requires known { AreErasedBut spans.old sector image.old }
        ensures bytes { image.new ≡ put_at image.old at (replicate (length (bytes_of self.entry)) byte) }
        ensures sectors { length spans.new ≡ length spans.old }
        ensures known { AreErasedBut spans.new sector image.new }
    {
        fill_range(image, at, self.len(), byte);
        widen(spans, sector, at, self.len());
    }

    /// Leaves in an image what a change to this leaves, torn so or whole.
    pub(crate) fn leave(
        self,
        tear: Option<Tear>,
        image: &mut [u8],
        spans: &mut [Span],
        sector: usize,
        at: usize,
    )
        requires within { at + length (bytes_of self) ≤ length image.old }
        requires whole { IsWhole sector at self }
        requires sectors { length spans.old * sector ≤ length image.old }
        requires known { AreErasedBut spans.old sector image.old }
        ensures left { image.new ≡ image_left tear image.old at (bytes_of self.entry) }
        ensures sectors { length spans.new ≡ length spans.old }
        ensures known { AreErasedBut spans.new sector image.new }
    {
        match tear {
            None | Some(Tear::Whole) => self.put(image, spans, sector, at),
            Some(Tear::Nothing) => {}
            Some(Tear::Zeros) => self.fill(image, spans, sector, at, ZERO),
            Some(Tear::Marks) => self.fill(image, spans, sector, at, MARK),
        }
    }
}
