//! Which bytes of each sector may be others than ones. So an erase fills no more than these.
ghost use Rattle.std.specs.Prelude.{◌≡◌, ℕ, ◌+◌, ◌*◌, ◌%◌, ◌^◌, ◌<◌, ◌≤◌, List, length, replicate, IfOk};
ghost use Rattle.base_model.specs.Bytes.{put_at, SameOutside};
ghost use Rattle.flash_model.specs.Spans.{AreErasedBut};

use crate::ranges::{fill_range, put_range};
use std::alloc::{AllocError, Global};

const ERASED: u8 = 0xFF;

/// The bytes of a sector from `from` up to `to`; none where `to` is not behind `from`.
#[derive(Clone, Copy)]
pub struct Span {
    pub from: usize,
    pub to: usize,
}

/// The spans of the sectors of a flash of which nothing is known: all bytes.
pub fn all_bytes(alloc: Global, size: usize, sector: usize) -> Result<Vec<Span>, AllocError>
    ensures within { IfOk result (λ spans. length spans.items * sector ≤ size) }
    ensures known { IfOk result (λ spans. (image : List ℕ) → AreErasedBut spans.items sector image) }
{
    let sectors = if sector == 0 { 0 } else { size / sector };
    let all = Span {
        from: 0,
        to: sector,
    };
    let spans = copies(alloc, all, sectors)?;
    Ok(spans)
}

fn copies(alloc: Global, span: Span, count: usize) -> Result<Vec<Span>, AllocError>
    ensures { IfOk result (λ spans. spans.items ≡ replicate count span) }
{
    vec![in alloc; span; count]
}

/// Programs bytes at a place.
pub fn program(image: &mut [u8], spans: &mut [Span], sector: usize, at: usize, bytes: &[u8])
    requires within { at + length bytes.now ≤ length image.old }
    requires sectors { length spans.old * sector ≤ length image.old }
    requires known { AreErasedBut spans.old sector image.old }
    ensures bytes { image.new ≡ put_at image.old at bytes.now }
    ensures sectors { length spans.new ≡ length spans.old }
    ensures known { AreErasedBut spans.new sector image.new }
{
    put_range(image, at, bytes);
    widen(spans, sector, at, bytes.len());
}

/// Erases the sector that begins at a place.
pub fn erase(image: &mut [u8], spans: &mut [Span], sector: usize, at: usize)
    requires within { at + sector ≤ length image.old }
    requires begins { at % sector ≡ 0 }
    requires known { AreErasedBut spans.old sector image.old }
    ensures bytes { image.new ≡ put_at image.old at (replicate sector 0xFF) }
    ensures sectors { length spans.new ≡ length spans.old }
    ensures known { AreErasedBut spans.new sector image.new }
{
    if sector == 0 || at / sector >= spans.len() {
        fill_range(image, at, sector, ERASED);
        return;
    }
    let number = at / sector;
    let span = spans[number];
    fill_range(
        image,
        at + span.from,
        span.to.saturating_sub(span.from),
        ERASED,
    );
    spans[number] = Span {
        from: sector,
        to: 0,
    };
}

/// Widens the spans of the sectors that have bytes of a range.
pub fn widen(spans: &mut [Span], sector: usize, at: usize, len: usize)
    requires end { at + len < 2 ^ 64 }
    requires sectors { length spans.old * sector < 2 ^ 64 }
    ensures sectors { length spans.new ≡ length spans.old }
    ensures known { (old new : List ℕ) → SameOutside at len old new → AreErasedBut spans.old sector old
        → AreErasedBut spans.new sector new }
{
    if sector == 0 {
        return;
    }
    let end = at + len;
    for number in at / sector..spans.len() {
        let begin = number * sector;
        if begin >= end {
            return;
        }
        let span = spans[number];
        spans[number] = Span {
            from: span.from.min(at.saturating_sub(begin)),
            to: span.to.max(sector.min(end - begin)),
        };
    }
}
