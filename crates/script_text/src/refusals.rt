// The refusals that have words.
ghost use Rattle.std.specs.Prelude.{ℕ, List, ◌++◌, codes, decimal};
ghost use Rattle.script_text.specs.TableWords.{words_of_table, words_of_erst, words_of_hest, ErstHasWords, HestHasWords};
ghost use Rattle.script_text.specs.FrameWords.{words_of_frame, words_of_block};
ghost use Rattle.script_text.specs.SubmitWords.{words_of_submit};

use crate::refusal::Refusal;
use apei_tables::TableError;
use cper_frame::FrameError;
use erst_entries::ErstError;
use ghes_ack::SubmitError;
use ghes_block::{BlockError, RegionFull};
use hest_sources::HestError;
use script_lines::LineText;

impl Refusal for TableError {
    ghost words = { words_of_table };

    ghost most_before = { 101 };

    fn add_to(&self, text: &mut LineText) {
        match self {
            TableError::Short { have } => text.add_one(b"short ", *have),
            TableError::Signature { found: _ } => text.add(b"signature"),
            TableError::Length { found } => text.add_one(b"length ", *found),
            TableError::Sum { found } => text.add_one(b"sum ", *found),
        }
    }
}

impl Refusal for ErstError {
    ghost has_words = { ErstHasWords };

    ghost words = { words_of_erst };

    ghost most_before = { 81 };

    fn add_to(&self, text: &mut LineText) {
        match self {
            ErstError::Table(why) => why.add_to(text),
            ErstError::HeaderSize { found } => text.add_one(b"header-size ", *found),
            ErstError::Count { found, length } => text.add_two(b"count ", *found, *length),
            ErstError::Memory => {}
        }
    }
}

impl Refusal for HestError {
    ghost has_words = { HestHasWords };

    ghost words = { words_of_hest };

    ghost most_before = { 79 };

    fn add_to(&self, text: &mut LineText) {
        match self {
            HestError::Table(why) => why.add_to(text),
            HestError::UnknownType { at, code } => text.add_two(b"unknown ", *at, *code),
            HestError::Cut { at } => text.add_one(b"cut ", *at),
            HestError::Count { declared, found } => text.add_two(b"count ", *declared, *found),
            HestError::Memory => {}
        }
    }
}

impl Refusal for FrameError {
    ghost words = { words_of_frame };

    ghost most_before = { 100 };

    fn add_to(&self, text: &mut LineText) {
        match self {
            FrameError::Need { more } => text.add_one(b"need ", *more),
            FrameError::Start => text.add(b"start"),
            FrameError::End => text.add(b"end"),
            FrameError::Length { found } => text.add_one(b"length ", *found),
            FrameError::Section { index } => text.add_one(b"section ", *index),
            FrameError::Limit { found } => text.add_one(b"limit ", *found),
        }
    }
}

impl Refusal for BlockError {
    ghost words = { words_of_block };

    ghost most_before = { 81 };

    fn add_to(&self, text: &mut LineText) {
        match self {
            BlockError::Need { more } => text.add_one(b"need ", *more),
            BlockError::NotPublished => text.add(b"not-published"),
            BlockError::RawOffset { found } => text.add_one(b"raw-offset ", *found),
            BlockError::Entry { index, at } => text.add_two(b"entry ", *index, *at),
            BlockError::Rest { bytes } => text.add_one(b"rest ", *bytes),
        }
    }
}

impl Refusal for SubmitError {
    ghost words = { words_of_submit };

    ghost most_before = { 75 };

    fn add_to(&self, text: &mut LineText) {
        match self {
            SubmitError::Long { len } => text.add_one(b"long ", *len),
            SubmitError::Malformed(why) => {
                text.add(b"block ");
                why.add_to(text);
            }
            SubmitError::Trailing { bytes } => text.add_one(b"trailing ", *bytes),
            SubmitError::Full => text.add(b"full"),
        }
    }
}

impl Refusal for RegionFull {
    ghost words = { λ full. codes "region " ++ decimal full.need };

    ghost most_before = { 100 };

    fn add_to(&self, text: &mut LineText) {
        text.add_one(b"region ", self.need);
    }
}
