// What a change puts into its range.
ghost use Rattle.std.specs.Prelude.{◌≡◌, ◌+◌, ◌*◌, ◌≤◌, length};
ghost use Rattle.base_model.specs.Bytes.{put_at, SameOutside};
ghost use Rattle.flash_model.specs.Spans.{AreErasedBut};

use crate::due::Kind;
use crate::log::Range;
use flash_model::spans::{Span, erase, program};

/// The bytes that are programmed, or how many are erased.
#[derive(Clone, Copy)]
pub(crate) enum Content<'a> {
    Program(&'a [u8]),
    Erase(usize),
}

impl Content<'_> {
    ghost use Rattle.erst_port.specs.Contents.{bytes_of, kind_of, IsAsked};

    fn len(self) -> usize
        ensures { result ≡ length (bytes_of self.entry) }
    {
        match self {
            Content::Program(bytes) => bytes.len(),
            Content::Erase(len) => len,
        }
    }

    fn kind(self) -> Kind
        ensures { result ≡ kind_of self.entry }
    {
        match self {
            Content::Program(_) => Kind::Program,
            Content::Erase(_) => Kind::Erase,
        }
    }

    /// The range that it takes from a place on.
    pub(crate) fn range(self, at: usize) -> Range
        ensures kind { result.kind ≡ kind_of self.entry }
        ensures at { result.at ≡ at }
        ensures len { result.len ≡ length (bytes_of self.entry) }
    {
        Range {
            kind: self.kind(),
            at,
            len: self.len(),
        }
    }

    /// Puts it into an image from a place on.
    pub(crate) fn put(self, image: &mut Vec<u8>, spans: &mut Vec<Span>, sector: usize, at: usize)
        requires within { at + length (bytes_of self) ≤ length image.old.items }
        requires asked { IsAsked sector image.old.items at self }
        requires sectors { length spans.old.items * sector ≤ length image.old.items }
        requires known { AreErasedBut spans.old.items sector image.old.items }
        ensures bytes { image.new.items ≡ put_at image.old.items at (bytes_of self.entry) }
        ensures size { length image.new.items ≡ length image.old.items }
        ensures rest { SameOutside at (length (bytes_of self.entry)) image.old.items image.new.items }
        ensures sectors { length spans.new.items ≡ length spans.old.items }
        ensures known { AreErasedBut spans.new.items sector image.new.items }
    {
        match self {
            Content::Program(bytes) => program(image, spans, sector, at, bytes),
            Content::Erase(_) => erase(image, spans, sector, at),
        }
    }
}
