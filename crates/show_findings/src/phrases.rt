// What a sentence tells of a body: numbers, each by the row of a standard's table that shows it.
ghost use Rattle.std.specs.Prelude.{◌≡◌, ◌<◌, [], codes, if◌then◌else◌, false, map, OnOk};
ghost use Rattle.apei_bytes.specs.Guid.{digit};
ghost use Rattle.field_lines.specs.Code.{name_of, structure_of};
ghost use Rattle.field_lines.specs.Names.{is_flag};
ghost use Rattle.show_findings.specs.Phrases.{flag_phrases, marks_of, number_words, phrase_of, phrases_text, place_text, two_digits};
ghost use Rattle.show_findings.specs.Sentences.{Adds};

use field_lines::{Layout, Name, NamedNumber, number_told};
use std::alloc::AllocError;

/// How a number is told.
#[derive(Clone, Copy)]
pub(crate) enum Manner {
    /// In decimal digits.
    Tens,
    /// In digits of sixteen.
    Sixteens,
    /// In two digits of sixteen.
    Two,
    /// In four of them.
    Four,
    /// By the names of its bits that are set, each behind the words.
    Flags,
}

/// The row that shows a number, the words before the number, and how it is told.
#[derive(Clone, Copy)]
pub(crate) struct Phrase {
    pub row: &'static str,
    pub words: &'static str,
    pub manner: Manner,
}

/// What stands before the first part of a place, and behind the last one.
#[derive(Clone, Copy)]
pub(crate) struct Brackets {
    pub start: &'static str,
    pub end: &'static str,
}

/// Adds what phrases tell of a body, one behind another.
pub(crate) fn add_phrases(
    out: &mut String,
    layout: &Layout,
    body: &[u8],
    mut phrases: &[Phrase],
) -> Result<(), AllocError>
    ensures { OnOk result (Adds (phrases_text (structure_of layout.now) body.now (map phrase_of phrases.entry.now)) out.old out.new) }
{
    while let [phrase, rest @ ..] = phrases {
        if let Some(named) = number_told(layout, phrase.row, body) {
            add_number(out, phrase.words, phrase.manner, &named)?;
        }
        phrases = rest;
    }
    Ok(())
}

/// Adds the parts of a place that phrases tell, with a space between them and marks around them.
pub(crate) fn add_place(
    out: &mut String,
    brackets: &Brackets,
    layout: &Layout,
    body: &[u8],
    mut phrases: &[Phrase],
) -> Result<(), AllocError>
    ensures { OnOk result (Adds (place_text (marks_of brackets.now) false (structure_of layout.now) body.now
        (map phrase_of phrases.entry.now)) out.old out.new) }
{
    let mut begun = false;
    while let [phrase, rest @ ..] = phrases {
        if let Some(named) = number_told(layout, phrase.row, body) {
            out.push_str(gap(begun, brackets))?;
            add_number(out, phrase.words, phrase.manner, &named)?;
            begun = true;
        }
        phrases = rest;
    }
    out.push_str(end(begun, brackets))
}

fn gap(begun: bool, brackets: &Brackets) -> &'static str
    ensures { result.now ≡ (if begun then codes " " else brackets.now.start.now) }
{
    if begun { " " } else { brackets.start }
}

fn end(begun: bool, brackets: &Brackets) -> &'static str
    ensures { result.now ≡ (if begun then brackets.now.end.now else []) }
{
    if begun { brackets.end } else { "" }
}

fn add_number(
    out: &mut String,
    words: &str,
    manner: Manner,
    named: &NamedNumber,
) -> Result<(), AllocError>
    ensures { OnOk result (Adds (number_words words.now manner named.now.number (map name_of named.now.names.now)) out.old out.new) }
{
    let number = named.number;
    match manner {
        Manner::Tens => {
            out.push_str(words)?;
            write!(out, "{number}")
        }
        Manner::Sixteens => {
            out.push_str(words)?;
            write!(out, "{number:x}")
        }
        Manner::Two => {
            out.push_str(words)?;
            add_two(out, number)
        }
        Manner::Four => {
            out.push_str(words)?;
            add_two(out, number / 256)?;
            add_two(out, number)
        }
        Manner::Flags => add_flags(out, words, named.names, number),
    }
}

fn add_two(out: &mut String, number: u64) -> Result<(), AllocError>
    ensures { OnOk result (Adds (two_digits number) out.old out.new) }
{
    out.push(digit((number / 16 % 16) as u8))?;
    out.push(digit((number % 16) as u8))
}

/// A digit of sixteen.
pub(crate) fn digit(value: u8) -> char
    requires { value < 16 }
    ensures digit { result ≡ digit value }
    ensures ascii { result < 128 }
{
    if value < 10 {
        char::from(b'0' + value)
    } else {
        char::from(b'a' + value - 10)
    }
}

fn add_flags(
    out: &mut String,
    words: &str,
    mut names: &[Name],
    number: u64,
) -> Result<(), AllocError>
    ensures { OnOk result (Adds (flag_phrases words.now (map name_of names.entry.now) number) out.old out.new) }
{
    while let [name, rest @ ..] = names {
        if is_flag(number, name.number) {
            out.push_str(words)?;
            out.push_str(name.name)?;
        }
        names = rest;
    }
    Ok(())
}

fn is_flag(number: u64, bit: u64) -> bool
    ensures { result ≡ is_flag number bit }
{
    bit < 64 && number >> bit & 1 == 1
}
