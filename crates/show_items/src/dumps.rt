// The text of acpidump: for each table a line with its signature and its address, and lines of up to 16 bytes in digits.
ghost use Rattle.std.specs.Prelude.{◌≡◌, ◌<◌, ◌≤◌, ◌+◌, ◌++◌, List, length, take, Some, None, IfOk, IfSome, MatchOption, OnOk, true, false};
ghost use Rattle.show_items.specs.Beginnings.{IfStopped};
ghost use Rattle.show_items.specs.Digits.{value_of};
ghost use Rattle.show_items.specs.Dumps.{AreDumped, AreTables, Dumped, EndsTable, ReadsLine, TakesLine, behind_colon, behind_line, first_pair, has_any, is_title, line_bytes, line_len, pairs, tables_in, tables_left, whole, without_space};
ghost use Rattle.show_items.specs.Judged.{ShowsAll, StopsAll, StopsIn};
ghost use Rattle.show_items.specs.Stops.{HasStop};

use crate::pages::{Pages, Stop};
use crate::sheet::Sheet;
use crate::singles::show_unknown;
use crate::tables::show_table;
use show_findings::seen_at;
use std::alloc::AllocError;

/// Shows the tables whose bytes stand in a text of acpidump. A text without such bytes holds none of what is known.
pub(crate) fn show_dump<P: Pages>(
    sheet: &mut Sheet<'_>,
    pages: &mut P,
    text: &[u8],
) -> Result<(), Stop>
    ensures shown { OnOk result (ShowsAll (AreDumped false text.now) (P.written pages.old) (P.written pages.new)
        sheet.old sheet.new) }
    ensures cause { HasStop (P.failures pages.old) (P.failures pages.new) result }
    ensures stopped { IfStopped result (StopsIn (λ early. AreDumped early text.now)
        (P.written pages.old) (P.written pages.new) sheet.old) }
{
    if show_tables(sheet, pages, text)? {
        return Ok(());
    }
    Ok(show_unknown(sheet, 0, text)?)
}

// Shows the tables of a text, and says whether there is one.
fn show_tables<P: Pages>(sheet: &mut Sheet<'_>, pages: &mut P, text: &[u8]) -> Result<bool, Stop>
    ensures shown { OnOk result (ShowsAll (AreTables false (tables_in text.now)) (P.written pages.old) (P.written pages.new)
        sheet.old sheet.new) }
    ensures any { IfOk result (λ any. any ≡ has_any (tables_in text.now)) }
    ensures cause { HasStop (P.failures pages.old) (P.failures pages.new) result }
    ensures stopped { IfStopped result (StopsIn (λ early. AreTables early (tables_in text.now))
        (P.written pages.old) (P.written pages.new) sheet.old) }
{
    let mut dump = Dump {
        rest: text,
        at: 0,
        begin: 0,
        table: Vec::new(sheet.alloc()),
        has_tables: false,
    };
    while !dump.rest.is_empty() {
        dump.take_line(sheet, pages)?;
    }
    dump.end_table(sheet, pages)?;
    Ok(dump.has_tables)
}

// How far a text is read: where the next line and the line of the last signature begin, the bytes behind that, and whether a table was shown.
#[derive(Drop)]
struct Dump<'a> {
    rest: &'a [u8],
    at: u64,
    begin: u64,
    table: Vec<u8>,
    has_tables: bool,
}

impl Dump<'_> {
    // Takes the next line.
    fn take_line<P: Pages>(&mut self, sheet: &mut Sheet<'_>, pages: &mut P) -> Result<(), Stop>
        requires { 0 < length self.old.rest.now }
        ensures shorter { OnOk result (length self.new.rest.now < length self.old.rest.now) }
        ensures shown { OnOk result ((ended : List Dumped) × TakesLine self.old self.new ended
            × ShowsAll (AreTables false ended) (P.written pages.old) (P.written pages.new) sheet.old sheet.new) }
        ensures cause { HasStop (P.failures pages.old) (P.failures pages.new) result }
        ensures stopped { IfStopped result (StopsIn (λ early. AreTables early (tables_left self.old))
            (P.written pages.old) (P.written pages.new) sheet.old) }
    {
        let line = first_line(self.rest);
        self.read_line(line, sheet, pages)?;
        self.at = self.at.saturating_add(line.len() as u64).saturating_add(1);
        self.rest = behind_line(self.rest);
        Ok(())
    }

    // Reads a line: that of a signature ends the table before it.
    fn read_line<P: Pages>(
        &mut self,
        line: &[u8],
        sheet: &mut Sheet<'_>,
        pages: &mut P,
    ) -> Result<(), Stop>
        ensures shown { OnOk result ((ended : List Dumped) × ReadsLine line.now self.old self.new ended
            × ShowsAll (AreTables false ended) (P.written pages.old) (P.written pages.new) sheet.old sheet.new) }
        ensures cause { HasStop (P.failures pages.old) (P.failures pages.new) result }
        ensures stopped { IfStopped result ((is_title line.now ≡ true)
            × StopsAll (AreTables false (whole self.old.begin self.old.table.items)) (P.written pages.old) (P.written pages.new) sheet.old) }
    {
        if !is_title(line) {
            return Ok(add_line(&mut self.table, line)?);
        }
        self.end_table(sheet, pages)?;
        self.begin = self.at;
        Ok(())
    }

    // Shows the table whose bytes were read, if there are some.
    fn end_table<P: Pages>(&mut self, sheet: &mut Sheet<'_>, pages: &mut P) -> Result<(), Stop>
        ensures ended { OnOk result (EndsTable self.old self.new) }
        ensures shown { OnOk result (ShowsAll (AreTables false (whole self.old.begin self.old.table.items)) (P.written pages.old)
            (P.written pages.new) sheet.old sheet.new) }
        ensures cause { HasStop (P.failures pages.old) (P.failures pages.new) result }
        ensures stopped { IfStopped result (StopsAll (AreTables false (whole self.old.begin self.old.table.items))
            (P.written pages.old) (P.written pages.new) sheet.old) }
    {
        if self.table.is_empty() {
            return Ok(());
        }
        show_table(sheet, pages, Some(self.begin), &self.table)?;
        self.has_tables = true;
        self.table.clear();
        Ok(())
    }
}

fn first_line(text: &[u8]) -> &[u8]
    ensures { result.now ≡ take (line_len text.now) text.now }
{
    &text[..line_len(text)]
}

// The length of the first line.
fn line_len(text: &[u8]) -> usize
    ensures exact { result ≡ line_len text.now }
    ensures within { result ≤ length text.now }
{
    let mut rest = text;
    let mut len = 0;
    while let [byte, more @ ..] = rest {
        if *byte == b'\n' {
            return len;
        }
        len += 1;
        rest = more;
    }
    len
}

// What stands behind the first line and its end.
fn behind_line(text: &[u8]) -> &[u8]
    ensures exact { result.now ≡ behind_line text.now }
    ensures shorter { 0 < length text.now → length result.now < length text.now }
{
    let mut rest = text;
    while let [byte, more @ ..] = rest {
        if *byte == b'\n' {
            return more;
        }
        rest = more;
    }
    rest
}

// Whether a line is that of a table's signature.
fn is_title(line: &[u8]) -> bool
    ensures { result ≡ is_title line.now }
{
    seen_at(line, 4, 3) == b" @ ".as_slice()
}

// Adds the bytes of a line: at most 16 pairs of digits behind the colon.
#[tactic(auto, unfolding(crate::specs::Dumps::line_bytes))]
fn add_line(table: &mut Vec<u8>, line: &[u8]) -> Result<(), AllocError>
    ensures { OnOk result (table.new.items ≡ table.old.items ++ line_bytes line.now) }
{
    add_pairs(table, behind_colon(line), 16)
}

fn add_pairs(table: &mut Vec<u8>, text: &[u8], most: usize) -> Result<(), AllocError>
    ensures { OnOk result (table.new.items ≡ table.old.items ++ pairs most text.now) }
{
    let mut rest = text;
    for _count in 0..most {
        let Some((byte, more)) = first_pair(rest) else {
            return Ok(());
        };
        table.push(byte)?;
        rest = more;
    }
    Ok(())
}

fn behind_colon(line: &[u8]) -> &[u8]
    ensures { result.now ≡ behind_colon line.now }
{
    let mut rest = line;
    while let [byte, more @ ..] = rest {
        if *byte == b':' {
            return more;
        }
        rest = more;
    }
    rest
}

// The byte of the first pair of digits, and what stands behind it. One space may stand before it: some tools write two bytes without one between.
fn first_pair(text: &[u8]) -> Option<(u8, &[u8])>
    ensures { MatchOption result (first_pair text.now ≡ None) (λ pair. first_pair text.now ≡ Some (pair.0, pair.1.now)) }
{
    let [high, low, more @ ..] = without_space(text) else {
        return None;
    };
    let high = value(*high)?;
    let low = value(*low)?;
    Some((high * 16 + low, more))
}

fn without_space(text: &[u8]) -> &[u8]
    ensures { result.now ≡ without_space text.now }
{
    match text {
        [b' ', rest @ ..] => rest,
        _ => text,
    }
}

// The value of a digit of sixteen.
#[tactic(auto, using(std::proofs::lemmas::Bool::Decides::nat_tests))]
fn value(digit: u8) -> Option<u8>
    ensures value { result ≡ value_of digit }
    ensures low { IfSome result (λ value. value < 16) }
{
    let value = char::from(digit).to_digit(16)?;
    Some(value as u8)
}
