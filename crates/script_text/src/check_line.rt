// A line of what is checked.
ghost use Rattle.std.specs.Prelude.{◌≡◌, ℕ, ◌+◌, ◌≤◌, ◌++◌, length, MatchResult};
ghost use Rattle.script_lines.specs.Columns.{Breaks, BreaksAt};
ghost use Rattle.script_lines.specs.declared.lengths.TheConstants.{LONGEST_LINE};
ghost use Rattle.script_text.specs.CheckGrammar.{IsCheckLine};
ghost use Rattle.script_text.specs.CheckText.{IsCheckText};
ghost use Rattle.script_text.specs.CheckWords.{check_codes_of, CheckFollows};

use crate::script_line::BadLine;
use script_lines::{Keyword, keyword_of, pairs};

/// A line that gives a table, a record or a block to be checked, in hexadecimal digits that are a part of its text.
#[derive(Clone, Copy, Debug)]
pub enum CheckLine<'a> {
    /// An empty line, or one that begins with `#`.
    Blank,
    Erst { hex: &'a [u8] },
    Hest { hex: &'a [u8] },
    Bert { hex: &'a [u8] },
    Record { hex: &'a [u8] },
    Block { hex: &'a [u8] },
}

/// A word that such a line begins with, together with the space behind it where something follows.
#[derive(Clone, Copy)]
pub(crate) enum CheckWord {
    Comment,
    Erst,
    Hest,
    Bert,
    Record,
    Block,
}

const CHECK_WORDS: [CheckWord; 6] = [
    CheckWord::Comment,
    CheckWord::Erst,
    CheckWord::Hest,
    CheckWord::Bert,
    CheckWord::Record,
    CheckWord::Block,
];

impl Keyword for CheckWord {
    ghost codes = { check_codes_of };

    fn bytes(self) -> &'static [u8] {
        match self {
            CheckWord::Comment => b"#",
            CheckWord::Erst => b"erst ",
            CheckWord::Hest => b"hest ",
            CheckWord::Bert => b"bert ",
            CheckWord::Record => b"record ",
            CheckWord::Block => b"block ",
        }
    }
}

impl CheckLine<'_> {
    /// The line that a text without a newline is.
    pub fn parse(text: &[u8]) -> Result<CheckLine<'_>, BadLine>
        requires { length text.now ≤ LONGEST_LINE }
        ensures { MatchResult result (λ line. IsCheckText text.now line)
            (λ bad. BreaksAt IsCheckLine text.now bad.column) }
    {
        if text.is_empty() {
            return Ok(CheckLine::Blank);
        }
        match CheckLine::from_text(text) {
            Ok(line) => Ok(line),
            Err(reach) => Err(BadLine {
                column: reach as u32 + 1,
            }),
        }
    }

    // The line that a text is which isn't empty, or how far it goes along with a line.
    fn from_text(text: &[u8]) -> Result<CheckLine<'_>, usize>
        requires { 1 ≤ length text.now }
        ensures { MatchResult result (λ line. IsCheckText text.now line) (λ reach. Breaks IsCheckLine text.now reach) }
    {
        let word = match keyword_of(text, &CHECK_WORDS) {
            Ok(word) => word,
            Err(reach) => return Err(reach),
        };
        let at = word.bytes().len();
        match CheckLine::from_parts(word, &text[at..]) {
            Ok(line) => Ok(line),
            Err(reach) => Err(at + reach),
        }
    }

    // The line of a keyword and what follows it.
    fn from_parts(word: CheckWord, rest: &[u8]) -> Result<CheckLine<'_>, usize>
        ensures { MatchResult result (λ line. IsCheckText (check_codes_of word ++ rest.now) line)
            (λ reach. Breaks (CheckFollows word) rest.now reach) }
    {
        match word {
            CheckWord::Comment => Ok(CheckLine::Blank),
            CheckWord::Erst => {
                pairs(rest)?;
                Ok(CheckLine::Erst { hex: rest })
            }
            CheckWord::Hest => {
                pairs(rest)?;
                Ok(CheckLine::Hest { hex: rest })
            }
            CheckWord::Bert => {
                pairs(rest)?;
                Ok(CheckLine::Bert { hex: rest })
            }
            CheckWord::Record => {
                pairs(rest)?;
                Ok(CheckLine::Record { hex: rest })
            }
            CheckWord::Block => {
                pairs(rest)?;
                Ok(CheckLine::Block { hex: rest })
            }
        }
    }
}
