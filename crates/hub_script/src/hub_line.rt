// A line of a script of several error sources.
ghost use Rattle.std.specs.Prelude.{◌+◌, ◌≤◌, length, MatchResult, ◌++◌};
ghost use Rattle.script_lines.specs.Columns.{Breaks, BreaksAt};
ghost use Rattle.script_lines.specs.declared.lengths.TheConstants.{LONGEST_LINE};
ghost use Rattle.hub_script.specs.HubGrammar.{IsLine};
ghost use Rattle.hub_script.specs.HubText.{IsText};
ghost use Rattle.hub_script.specs.HubWords.{form_of};

use crate::parts::{number_and_pairs, turns};
use script_lines::{Keyword, keyword_of, number, pairs, two_numbers};

/// A line of a script of several error sources. Hexadecimal digits and turns are parts of its text as they stand.
#[derive(Clone, Copy, Debug)]
pub enum HubLine<'a> {
    /// An empty line, or one that begins with `#`.
    Blank,
    /// A hardware error source table, whose generic sources are served from then on.
    Hest { hex: &'a [u8] },
    /// A block for the firmware of a source.
    Error { source: u64, hex: &'a [u8] },
    /// 1 to 2,048 pairs of a source, as a hexadecimal digit in lower case, and a side, `F` for the firmware and `R` for the reader.
    Turns { pairs: &'a [u8] },
    Heard { source: u64 },
    /// The listener of a source that is dropped.
    Drop { source: u64, at: u64 },
}

/// A word that such a line begins with, together with the space behind it where something follows.
#[derive(Clone, Copy)]
pub(crate) enum HubWord {
    Comment,
    Hest,
    Error,
    Turns,
    Heard,
    Drop,
}

const HUB_WORDS: [HubWord; 6] = [
    HubWord::Comment,
    HubWord::Hest,
    HubWord::Error,
    HubWord::Turns,
    HubWord::Heard,
    HubWord::Drop,
];

impl Keyword for HubWord {
    ghost codes = { λ word. (form_of word).0 };

    fn bytes(self) -> &'static [u8] {
        match self {
            HubWord::Comment => b"#",
            HubWord::Hest => b"hest ",
            HubWord::Error => b"error ",
            HubWord::Turns => b"turns ",
            HubWord::Heard => b"heard ",
            HubWord::Drop => b"drop ",
        }
    }
}

impl HubLine<'_> {
    /// The line that a text without a newline is, or the column of a text that is none.
    pub fn parse(text: &[u8]) -> Result<HubLine<'_>, u32>
        requires { length text.now ≤ LONGEST_LINE }
        ensures { MatchResult result (λ line. IsText text.now line) (λ column. BreaksAt IsLine text.now column) }
    {
        if text.is_empty() {
            return Ok(HubLine::Blank);
        }
        match HubLine::from_text(text) {
            Ok(line) => Ok(line),
            Err(reach) => Err(reach as u32 + 1),
        }
    }

    // The line that a text is which isn't empty, or how far it goes along with a line.
    fn from_text(text: &[u8]) -> Result<HubLine<'_>, usize>
        requires { 1 ≤ length text.now }
        ensures { MatchResult result (λ line. IsText text.now line) (λ reach. Breaks IsLine text.now reach) }
    {
        let word = match keyword_of(text, &HUB_WORDS) {
            Ok(word) => word,
            Err(reach) => return Err(reach),
        };
        let at = word.bytes().len();
        match HubLine::from_parts(word, &text[at..]) {
            Ok(line) => Ok(line),
            Err(reach) => Err(at + reach),
        }
    }

    // The line of a keyword and what follows it.
    fn from_parts(word: HubWord, rest: &[u8]) -> Result<HubLine<'_>, usize>
        ensures { MatchResult result (λ line. IsText ((form_of word).0 ++ rest.now) line)
            (λ reach. Breaks (form_of word).1 rest.now reach) }
    {
        match word {
            HubWord::Comment => Ok(HubLine::Blank),
            HubWord::Hest => {
                pairs(rest)?;
                Ok(HubLine::Hest { hex: rest })
            }
            HubWord::Error => {
                let (source, hex) = number_and_pairs(rest)?;
                Ok(HubLine::Error { source, hex })
            }
            HubWord::Turns => {
                turns(rest)?;
                Ok(HubLine::Turns { pairs: rest })
            }
            HubWord::Heard => {
                let source = number(rest, 0, u64::MAX)?;
                Ok(HubLine::Heard { source })
            }
            HubWord::Drop => {
                let (source, at) = two_numbers(rest, u64::MAX, 0, u64::MAX)?;
                Ok(HubLine::Drop { source, at })
            }
        }
    }
}
