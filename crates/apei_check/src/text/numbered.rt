// The lines of parts that are counted from 0.
ghost use Rattle.std.specs.Prelude.{ℕ, ◌≡◌, ◌≤◌, ◌<◌, List, [], get_or, length};

use crate::text::{Parts, write_line};
use apei_bytes::{Sink, SinkFault};
use script_lines::LineText;

/// An item each of whose parts is found by its number.
pub(crate) trait Numbered {
    // The lines on its parts.
    ghost part_lines: { Self → List (List ℕ) };

    /// How many parts there are.
    fn count(&self) -> usize
        ensures { result ≡ length (part_lines self.now) };

    /// The line on a part.
    fn part_line(&self, index: usize) -> LineText
        requires { index < length (part_lines self.now) }
        ensures text { result ≡ get_or (part_lines self.now) index [] }
        ensures short { length result ≤ 255 };
}

/// Such an item, whose parts are shown in their order.
#[derive(Drop)]
pub(crate) struct InOrder<N> {
    pub item: N,
}

impl<N: Numbered> Parts for InOrder<N> {
    ghost is_decoded = { λ _. Unit {0} };

    ghost lines = { λ order. N.part_lines order.item };

    fn write_parts<O: Sink>(&self, out: &mut O) -> Result<(), SinkFault> {
        for index in 0..self.item.count() {
            write_line(self.item.part_line(index), out)?;
        }
        Ok(())
    }
}
