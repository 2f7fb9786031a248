// The lines of a script, cut from a source in memory that is taken once.
ghost use Rattle.std.specs.Prelude.{◌≡◌, ◌≢◌, ◌⊎◌, ◌↔◌, ℕ, ◌+◌, ◌-◌, ◌^◌, ◌<◌, ◌≤◌, true, false, List, [], ◌∷◌, ◌++◌, length, take, drop, slice_index, IsTrue, IfSome, IfOk, IfErr, OnOk, OnErr, MatchOption, MatchResult, MatchBool, vec_len};
ghost use Rattle.base_model.specs.Faults.{HasCause, Rose};
ghost use Rattle.script_lines.specs.Causes.{HasCauseOf, OfSource};
ghost use Rattle.script_lines.specs.Ends.{EndsReading, fault_of};
ghost use Rattle.script_lines.specs.Lines.{Line, Reading, lines_of, ended_lines_of, lines_ahead, IsNextLine, IsAtEnd, NextIsTooLong, HasNoLine, IsOneLine, IsFirstLine, StaysAt, TakesMore, TakesLine, SamePlace, PastLimits, IsTooLong};

use crate::LONGEST_LINE;
use crate::ending::ScriptEnd;
use apei_bytes::{OutOfMemory, ReadFailed, Source};
use memchr::memchr;
use std::alloc::Global;
use std::marker::Model;

/// The most bytes that a script has.
pub const MAX_SCRIPT: usize = 1 << 24;

// The least number of bytes that a read asks for.
const LEAST_READ: usize = 4096;

// A line at the front of the buffer ends, or is too long, before fewer bytes than a read asks for are left behind it.
// So each byte is moved to the front at most once.
const BUFFER: usize = 1 << 18;

/// Why there is no next line, though the script hasn't ended.
#[derive(Clone, Copy, Debug, PartialEq, Eq)]
pub enum LineStop {
    TooLong,
    SourceFault,
}

/// Reads a script line by line.
#[derive(Drop)]
pub struct LineReader {
    buffer: Vec<u8>,
    line_start: usize,
    line_end: usize,
    start: usize,
    end: usize,
    number: usize,
    position: usize,
    at_end: bool,
}

impl Model for LineReader {
    ghost use Rattle.std.specs.Prelude.{◌≡◌, ℕ, ◌-◌, ◌^◌, ◌≤◌, take, drop, length, slice_range, vec_len};
    ghost use Rattle.script_lines.specs.Lines.{Reading};

    ghost Value = { Reading };

    ghost view = { λ r. record {
      line = take (r.line_end - r.line_start) (drop r.line_start r.buffer.items);
      number = r.number;
      end = r.position;
      pending = take (r.end - r.start) (drop r.start r.buffer.items);
      at_end = r.at_end;
    } };

    ghost invariant = { λ r.
        (r.line_start ≤ r.line_end) × (r.line_end ≤ 262144) × (r.start ≤ r.end) × (r.end ≤ 262144)
        × (vec_len r.buffer ≡ 262144) × (r.number ≤ r.position) × (r.position ≤ 2 ^ 24) };
}

impl LineReader {
    /// A reader at the start of a script. It takes all the memory that it will have.
    pub fn new(alloc: Global) -> Result<LineReader, OutOfMemory>
        ensures { IfOk result (λ reader. reader
            ≡ record { line = []; number = 0; end = 0; pending = []; at_end = false }) }
    {
        Ok(LineReader {
            buffer: vec![in alloc; 0u8; BUFFER]?,
            line_start: 0,
            line_end: 0,
            start: 0,
            end: 0,
            number: 0,
            position: 0,
            at_end: false,
        })
    }

    /// The line read last, without its newline.
    pub fn line(&self) -> &[u8]
        ensures { result.now ≡ self.now.line }
    {
        &self.buffer[self.line_start..self.line_end]
    }

    /// How many lines were read.
    pub fn number(&self) -> u64
        ensures value { result ≡ self.now.number }
        ensures small { result ≤ 2 ^ 24 }
    {
        self.number as u64
    }

    /// Reads the next line, and answers whether there is one. It takes bytes from the script only where those that it has
    /// end no line.
    pub fn advance<I: Source>(&mut self, script: &mut I) -> Result<bool, LineStop>
        requires { I.tells → self.old.at_end ≡ true → I.rest script.old ≡ [] }
        ensures next { IfOk result (λ more. MatchBool more
            (IsNextLine I.tells self.old self.new (I.rest script.old) (I.rest script.new))
            (IsAtEnd I.tells self.old self.new (I.rest script.old) (I.rest script.new))) }
        ensures too_long { result ≡ Err LineStop.TooLong → NextIsTooLong I.tells self.old self.new (I.rest script.old) }
        ensures failed { result ≡ Err LineStop.SourceFault → HasNoLine I.tells self.old self.new (I.rest script.old)
            (I.rest script.new) }
        ensures stays { result ≢ Ok true → StaysAt I.tells self.old self.new (I.rest script.old) (I.rest script.new) }
        ensures ended { result ≡ Ok false → self.new.at_end ≡ true }
        // What is too long already is no fault of the source.
        ensures in_time { result ≡ Err LineStop.SourceFault → ¬ (PastLimits self.old.end (length self.new.pending) 0) }
        ensures at_end { I.tells → self.new.at_end ≡ true → I.rest script.new ≡ [] }
        ensures fault { result ≡ Err LineStop.SourceFault → Rose (I.faults script.old) (I.faults script.new) }
        ensures no_fault { result ≢ Err LineStop.SourceFault → I.faults script.new ≡ I.faults script.old }
    {
        let mut scanned = 0;
        'taking: loop {
            if let Some(text) = self.first_newline(scanned) {
                return self.read_line(text, 1);
            }
            scanned = self.taken();
            if self.is_too_long(scanned, 0) {
                return Err(LineStop::TooLong);
            }
            if self.is_at_end() {
                return self.read_last();
            }
            match self.fill(script) {
                Ok(0) => return self.read_last(),
                Ok(_) => {}
                Err(ReadFailed) => return Err(LineStop::SourceFault),
            }
        }
    }

    /// Reads the next line, and answers its number, from 1; where there is none, how the script ends.
    pub fn next_line<I: Source>(&mut self, script: &mut I) -> Result<u64, ScriptEnd>
        requires { I.tells → self.old.at_end ≡ true → I.rest script.old ≡ [] }
        ensures number { IfOk result (λ number. number ≡ self.new.number) }
        ensures line { OnOk result (IsNextLine I.tells self.old self.new (I.rest script.old) (I.rest script.new)) }
        ensures end { IfErr result (EndsReading I.tells self.old self.new (I.rest script.old) (I.rest script.new)) }
        ensures stays { OnErr result (StaysAt I.tells self.old self.new (I.rest script.old) (I.rest script.new)) }
        ensures ended { result ≡ Err ScriptEnd.Done → self.new.at_end ≡ true }
        ensures in_time { result ≡ Err ScriptEnd.SourceFault → ¬ (PastLimits self.old.end (length self.new.pending) 0) }
        ensures at_end { I.tells → self.new.at_end ≡ true → I.rest script.new ≡ [] }
        ensures no_fault { OnOk result (I.faults script.new ≡ I.faults script.old) }
        ensures cause { IfErr result (λ end. HasCauseOf OfSource (I.faults script.old) (I.faults script.new)
            (fault_of end)) }
    {
        match self.advance(script) {
            Ok(true) => Ok(self.number()),
            Ok(false) => Err(ScriptEnd::Done),
            Err(LineStop::TooLong) => Err(ScriptEnd::TooLong {
                line: self.number() + 1,
            }),
            Err(LineStop::SourceFault) => Err(ScriptEnd::SourceFault),
        }
    }

    // Whether the script came to its end.
    fn is_at_end(&self) -> bool
        ensures { result ≡ self.now.at_end }
    {
        self.at_end
    }

    // Where the first newline stands in the bytes that were taken, of which the first `scanned` have none.
    fn first_newline(&self, scanned: usize) -> Option<usize>
        requires within { scanned ≤ length self.now.pending }
        requires scanned { IsOneLine (take scanned self.now.pending) }
        ensures small { IfSome result (λ at. at < 2 ^ 18) }
        ensures first { MatchOption result (IsOneLine self.now.pending) (λ at. IsFirstLine at self.now.pending) }
    {
        match memchr(b'\n', &self.buffer[self.start + scanned..self.end]) {
            None => None,
            Some(at) => Some(scanned + at),
        }
    }

    // How many bytes were taken behind the line read last.
    fn taken(&self) -> usize
        ensures value { result ≡ length self.now.pending }
        ensures small { result ≤ 2 ^ 18 }
    {
        self.end - self.start
    }

    // Whether a line of this many bytes is too long, `newline` being how many bytes its newline has.
    fn is_too_long(&self, text: usize, newline: usize) -> bool
        requires text { text ≤ 2 ^ 18 }
        requires newline { newline ≤ 1 }
        ensures limits { IsTrue result ↔ PastLimits self.now.end text newline }
        ensures within { self.now.end ≤ 2 ^ 24 }
    {
        text > LONGEST_LINE || self.position + text + newline > MAX_SCRIPT
    }

    // Makes the next `text` bytes the line that was read, and leaves its newline, of `newline` bytes, behind.
    fn take_line(&mut self, text: usize, newline: usize)
        requires within { text + newline ≤ length self.old.pending }
        requires some { 0 < text + newline }
        requires short { self.old.end + text + newline ≤ 2 ^ 24 }
        ensures { TakesLine text newline self.old self.new }
    {
        self.line_start = self.start;
        self.line_end = self.start + text;
        self.start += text + newline;
        self.position += text + newline;
        self.number += 1;
    }

    // Reads a line of `text` bytes, and its newline of `newline` bytes.
    fn read_line(&mut self, text: usize, newline: usize) -> Result<bool, LineStop>
        requires within { text + newline ≤ length self.old.pending }
        requires text { text ≤ 2 ^ 18 }
        requires some { 0 < text + newline }
        requires newline { newline ≤ 1 }
        ensures { MatchResult result (λ more. (more ≡ true) × ¬ (PastLimits self.old.end text newline)
            × TakesLine text newline self.old self.new) (λ stop. (stop ≡ LineStop.TooLong)
            × PastLimits self.old.end text newline × (self.new ≡ self.old)) }
    {
        if self.is_too_long(text, newline) {
            return Err(LineStop::TooLong);
        }
        self.take_line(text, newline);
        Ok(true)
    }

    // Reads what is left behind the last newline, which is a line where it isn't empty.
    fn read_last(&mut self) -> Result<bool, LineStop>
        ensures at_end { OnOk result (self.new.at_end ≡ true) }
        ensures stays { result ≢ Ok true → (self.new.number ≡ self.old.number) × (self.new.end ≡ self.old.end)
            × (self.new.pending ≡ self.old.pending) }
        ensures read { MatchResult result
            (λ more. MatchBool more
            (¬ (PastLimits self.old.end (length self.old.pending) 0) × (0 < length self.old.pending)
            × (self.new.line ≡ self.old.pending) × (self.new.pending ≡ []) × (self.new.number ≡ self.old.number + 1)
            × (self.new.end ≡ self.old.end + length self.old.pending))
            ((self.old.pending ≡ []) × (self.new.number ≡ self.old.number)))
            (λ stop. (stop ≡ LineStop.TooLong) × PastLimits self.old.end (length self.old.pending) 0
            × (0 < length self.old.pending) × (self.new.number ≡ self.old.number)) }
    {
        self.at_end = true;
        let text = self.taken();
        if text == 0 {
            return Ok(false);
        }
        self.read_line(text, 0)
    }

    // Takes more bytes from the script, and forgets the line read last.
    fn fill<I: Source>(&mut self, script: &mut I) -> Result<usize, ReadFailed>
        requires { length self.old.pending ≤ LONGEST_LINE }
        ensures place { SamePlace self.old self.new }
        ensures line { self.new.line ≡ [] }
        ensures more { IfOk result (TakesMore I.tells self.old self.new (I.rest script.old) (I.rest script.new)) }
        ensures none { OnErr result (TakesMore I.tells self.old self.new (I.rest script.old) (I.rest script.new) 0) }
        ensures end { I.tells → result ≡ Ok 0 → I.rest script.old ≡ [] }
        ensures cause { HasCause (I.faults script.old) (I.faults script.new) result }
    {
        let start = make_room(&mut self.buffer, self.start, self.end);
        self.end = start + (self.end - self.start);
        self.start = start;
        self.line_start = 0;
        self.line_end = 0;
        let count = read_behind(script, &mut self.buffer, self.end)?;
        self.end += count;
        Ok(count)
    }
}

// Moves the bytes from `start` to `end` to the front of the buffer where few places are left behind them, and answers
// where they begin now.
fn make_room(buffer: &mut Vec<u8>, start: usize, end: usize) -> usize
    requires order { start ≤ end }
    requires few { end - start ≤ LONGEST_LINE }
    requires within { end ≤ 262144 }
    requires size { vec_len buffer.old ≡ 262144 }
    ensures size { vec_len buffer.new ≡ 262144 }
    ensures room { result + (end - start) < 262144 }
    ensures same { take (end - start) (drop result buffer.new.items) ≡ take (end - start)
        (drop start buffer.old.items) }
{
    if BUFFER - end >= LEAST_READ {
        return start;
    }
    buffer.copy_within(start..end, 0);
    0
}

// Reads bytes of the script to the places behind the first `kept` ones of the buffer.
fn read_behind<I: Source>(
    script: &mut I,
    buffer: &mut [u8],
    kept: usize,
) -> Result<usize, ReadFailed>
    requires { kept < length buffer.old }
    ensures kept { take kept buffer.new ≡ take kept buffer.old }
    ensures fits { IfOk result (λ n. kept + n ≤ length buffer.new) }
    ensures given { I.tells → MatchResult result (λ n. I.rest script.old
        ≡ take n (drop kept buffer.new) ++ I.rest script.new) (λ _. I.rest script.new ≡ I.rest script.old) }
    ensures end { I.tells → result ≡ Ok 0 → I.rest script.old ≡ [] }
    ensures cause { HasCause (I.faults script.old) (I.faults script.new) result }
{
    script.read(&mut buffer[kept..])
}
