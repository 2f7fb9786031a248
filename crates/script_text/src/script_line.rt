// A line of a script.
ghost use Rattle.std.specs.Prelude.{◌≡◌, ℕ, ◌+◌, ◌<◌, ◌≤◌, ◌++◌, length, decimal, MatchResult, ◌⊎◌, codes, []};
ghost use Rattle.script_lines.specs.Columns.{Breaks, BreaksAt};
ghost use Rattle.script_lines.specs.declared.lengths.TheConstants.{LONGEST_LINE};
ghost use Rattle.script_lines.specs.Parts.{IsNumber, IsPairs};
ghost use Rattle.script_text.specs.ScriptGrammar.{IsLine};
ghost use Rattle.script_text.specs.ScriptText.{IsText, Follows, codes_of};

use crate::turns::turns;
use script_lines::{Keyword, common_len, end, keyword_of, number, pairs, two_numbers};

/// A line of a script. Hexadecimal digits and letters are parts of its text as they stand.
#[derive(Clone, Copy, Debug)]
pub enum ScriptLine<'a> {
    /// An empty line, or one that begins with `#`.
    Blank,
    Write { hex: &'a [u8] },
    Read { id: u64 },
    Clear { id: u64 },
    Count,
    Next,
    Dummy,
    /// An action of the table's programs, and the value that it is given.
    Action { code: u64, value: u64 },
    Table { hex: &'a [u8] },
    TableOwn,
    TableShadow,
    Error { hex: &'a [u8] },
    /// 1 to 4,096 letters, `F` for a turn of the firmware and `R` for one of the reader.
    Turns { letters: &'a [u8] },
    /// An address, and a length of 1 to 4,096 bytes.
    Peek { at: u64, len: u64 },
    Fatal { hex: &'a [u8] },
    Bert,
    Heard,
    Reset,
    Power,
    Bridge { id: u64 },
}

/// A word that a script line begins with, together with the space behind it where something follows.
#[derive(Clone, Copy)]
pub(crate) enum ScriptWord {
    Comment,
    Write,
    Read,
    Clear,
    Count,
    Next,
    Dummy,
    Action,
    Table,
    Error,
    Turns,
    Peek,
    Fatal,
    Bert,
    Heard,
    Reset,
    Power,
    Bridge,
}

const SCRIPT_WORDS: [ScriptWord; 18] = [
    ScriptWord::Comment,
    ScriptWord::Write,
    ScriptWord::Read,
    ScriptWord::Clear,
    ScriptWord::Count,
    ScriptWord::Next,
    ScriptWord::Dummy,
    ScriptWord::Action,
    ScriptWord::Table,
    ScriptWord::Error,
    ScriptWord::Turns,
    ScriptWord::Peek,
    ScriptWord::Fatal,
    ScriptWord::Bert,
    ScriptWord::Heard,
    ScriptWord::Reset,
    ScriptWord::Power,
    ScriptWord::Bridge,
];

impl Keyword for ScriptWord {
    ghost codes = { codes_of };

    fn bytes(self) -> &'static [u8] {
        match self {
            ScriptWord::Comment => b"#",
            ScriptWord::Write => b"write ",
            ScriptWord::Read => b"read ",
            ScriptWord::Clear => b"clear ",
            ScriptWord::Count => b"count",
            ScriptWord::Next => b"next",
            ScriptWord::Dummy => b"dummy",
            ScriptWord::Action => b"action ",
            ScriptWord::Table => b"table ",
            ScriptWord::Error => b"error ",
            ScriptWord::Turns => b"turns ",
            ScriptWord::Peek => b"peek ",
            ScriptWord::Fatal => b"fatal ",
            ScriptWord::Bert => b"bert",
            ScriptWord::Heard => b"heard",
            ScriptWord::Reset => b"reset",
            ScriptWord::Power => b"power",
            ScriptWord::Bridge => b"bridge ",
        }
    }
}

/// A text that is no line.
#[derive(Clone, Copy, Debug, PartialEq, Eq)]
pub struct BadLine {
    /// One more than the length of its longest beginning with which some line begins.
    pub column: u32,
}

impl ScriptLine<'_> {
    /// The line that a text without a newline is.
    pub fn parse(text: &[u8]) -> Result<ScriptLine<'_>, BadLine>
        requires { length text.now ≤ LONGEST_LINE }
        ensures { MatchResult result (λ line. IsText text.now line) (λ bad. BreaksAt IsLine text.now bad.column) }
    {
        if text.is_empty() {
            return Ok(ScriptLine::Blank);
        }
        match ScriptLine::from_text(text) {
            Ok(line) => Ok(line),
            Err(reach) => Err(BadLine {
                column: reach as u32 + 1,
            }),
        }
    }

    // The line that a text is which isn't empty, or how far it goes along with a line.
    fn from_text(text: &[u8]) -> Result<ScriptLine<'_>, usize>
        requires { 1 ≤ length text.now }
        ensures { MatchResult result (λ line. IsText text.now line) (λ reach. Breaks IsLine text.now reach) }
    {
        let word = match keyword_of(text, &SCRIPT_WORDS) {
            Ok(word) => word,
            Err(reach) => return Err(reach),
        };
        let at = word.bytes().len();
        match ScriptLine::from_parts(word, &text[at..]) {
            Ok(line) => Ok(line),
            Err(reach) => Err(at + reach),
        }
    }

    // The line of a keyword and what follows it.
    fn from_parts(word: ScriptWord, rest: &[u8]) -> Result<ScriptLine<'_>, usize>
        ensures { MatchResult result (λ line. IsText (codes_of word ++ rest.now) line)
            (λ reach. Breaks (Follows word) rest.now reach) }
    {
        match word {
            ScriptWord::Comment => Ok(ScriptLine::Blank),
            ScriptWord::Write => {
                pairs(rest)?;
                Ok(ScriptLine::Write { hex: rest })
            }
            ScriptWord::Read => Ok(ScriptLine::Read { id: id(rest)? }),
            ScriptWord::Clear => Ok(ScriptLine::Clear { id: id(rest)? }),
            ScriptWord::Count => ScriptLine::alone(ScriptWord::Count, ScriptLine::Count, rest),
            ScriptWord::Next => ScriptLine::alone(ScriptWord::Next, ScriptLine::Next, rest),
            ScriptWord::Dummy => ScriptLine::alone(ScriptWord::Dummy, ScriptLine::Dummy, rest),
            ScriptWord::Action => {
                let (code, value) = two_numbers(rest, 255, 0, u64::MAX)?;
                Ok(ScriptLine::Action { code, value })
            }
            ScriptWord::Table => ScriptLine::from_table(rest),
            ScriptWord::Error => {
                pairs(rest)?;
                Ok(ScriptLine::Error { hex: rest })
            }
            ScriptWord::Turns => {
                turns(rest)?;
                Ok(ScriptLine::Turns { letters: rest })
            }
            ScriptWord::Peek => {
                let (at, len) = two_numbers(rest, u64::MAX, 1, 4096)?;
                Ok(ScriptLine::Peek { at, len })
            }
            ScriptWord::Fatal => {
                pairs(rest)?;
                Ok(ScriptLine::Fatal { hex: rest })
            }
            ScriptWord::Bert => ScriptLine::alone(ScriptWord::Bert, ScriptLine::Bert, rest),
            ScriptWord::Heard => ScriptLine::alone(ScriptWord::Heard, ScriptLine::Heard, rest),
            ScriptWord::Reset => ScriptLine::alone(ScriptWord::Reset, ScriptLine::Reset, rest),
            ScriptWord::Power => ScriptLine::alone(ScriptWord::Power, ScriptLine::Power, rest),
            ScriptWord::Bridge => Ok(ScriptLine::Bridge { id: id(rest)? }),
        }
    }

    // The line of a keyword that stands alone, which this line is.
    fn alone<'a>(
        word: ScriptWord,
        line: ScriptLine<'a>,
        rest: &[u8],
    ) -> Result<ScriptLine<'a>, usize>
        requires { IsText (codes_of word) line }
        ensures { MatchResult result (λ line. IsText (codes_of word ++ rest.now) line) (λ reach. Breaks (λ text. text ≡ []) rest.now reach) }
    {
        end(rest)?;
        Ok(line)
    }

    // The line that takes a table into use: one in hexadecimal digits, the machine's own, or its shadow.
    fn from_table(rest: &[u8]) -> Result<ScriptLine<'_>, usize>
        ensures { MatchResult result (λ line. IsText (codes_of ScriptWord.Table ++ rest.now) line)
            (λ reach. Breaks (λ text. IsPairs text ⊎ ((text ≡ codes "own") ⊎ (text ≡ codes "shadow"))) rest.now reach) }
    {
        if rest == b"own".as_slice() {
            return Ok(ScriptLine::TableOwn);
        }
        if rest == b"shadow".as_slice() {
            return Ok(ScriptLine::TableShadow);
        }
        let reach = match pairs(rest) {
            Ok(()) => return Ok(ScriptLine::Table { hex: rest }),
            Err(reach) => reach,
        };
        Err(reach.max(common_len(rest, b"own").max(common_len(rest, b"shadow"))))
    }
}

// An identifier, which is any number.
fn id(text: &[u8]) -> Result<u64, usize>
    ensures { MatchResult result (λ n. text.now ≡ decimal n)
        (λ reach. Breaks (IsNumber 0 0xFFFF_FFFF_FFFF_FFFF) text.now reach) }
{
    Ok(number(text, 0, u64::MAX)?)
}
