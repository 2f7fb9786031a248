// Standard output.
ghost use Rattle.std.specs.Prelude.{◌≡◌, ◌≢◌, ◌<◌, ◌≤◌, length, Some, None, IfOk, OnErr, OnOk};
ghost use Rattle.std.specs.Io.KnownBytes.{Appends, WriteAppends, append_known};
ghost use Rattle.std.specs.IoError.{error_kind};
ghost use Rattle.apei_show.specs.Faults.{one_more};
ghost use Rattle.apei_show.specs.Outputs.{is_interrupted, stop_of};
ghost use Rattle.show_items.specs.Beginnings.{IsBegun};
ghost use Rattle.show_items.specs.Stops.{Failed};
ghost use Rattle.show_items.specs.declared.pages.Stop.TheVariants.{Memory as WantOfMemory};

use show_items::{Pages, Stop};
use std::io::{Error, ErrorKind, Write};

/// A writer that takes pages. Each of its errors is a failure.
#[derive(Drop)]
pub struct Output<W> {
    writer: W,
    failures: u64,
    last: Option<Stop>,
}

impl<W: Write> Output<W> {
    /// A writer that no page was given yet.
    pub fn new(writer: W) -> Output<W>
        ensures writer { result.writer ≡ writer }
        ensures none { result.failures ≡ 0 }
        ensures last { result.last ≡ None }
    {
        Output {
            writer,
            failures: 0,
            last: None,
        }
    }

    // Counts an error, and says why no more is shown.
    fn failed(&mut self, error: &Error) -> Stop
        ensures counted { Failed (record { count = self.old.failures; last = self.old.last })
            (record { count = self.new.failures; last = self.new.last }) result }
        ensures one { self.new.failures ≡ one_more self.old.failures }
        ensures reason { result ≡ stop_of (error_kind error.now) }
        ensures no_memory { result ≢ WantOfMemory }
        ensures writer { self.new.writer ≡ self.old.writer }
    {
        let stop = stop_of(error.kind());
        self.failures = self.failures.saturating_add(1);
        self.last = Some(stop);
        stop
    }
}

impl<W: Write> Pages for Output<W> {
    ghost written = { λ output. W.contents output.writer };

    ghost failures = { λ output. record { count = output.failures; last = output.last } };

    fn write(&mut self, page: &[u8]) -> Result<(), Stop> {
        match write_page(&mut self.writer, page) {
            Ok(()) => Ok(()),
            Err(error) => Err(self.failed(&error)),
        }
    }
}

// Writes a page. If that fails, a beginning of it may have been written.
fn write_page<W: Write>(writer: &mut W, page: &[u8]) -> Result<(), Error>
    ensures written { OnOk result (Appends (W.contents writer.old) (W.contents writer.new) page.now) }
    ensures begun { OnErr result (IsBegun (W.contents writer.old)
        (append_known (W.contents writer.old) page.now) (W.contents writer.new)) }
{
    let mut rest = page;
    while !rest.is_empty() {
        let taken = write_some(writer, rest)?;
        rest = &rest[taken..];
    }
    Ok(())
}

// Writes the first bytes, and says how many. A call that a signal broke off is made again.
fn write_some<W: Write>(writer: &mut W, bytes: &[u8]) -> Result<usize, Error>
    ensures some { IfOk result (λ taken. 0 < taken) }
    ensures within { IfOk result (λ taken. taken ≤ length bytes.now) }
    ensures written { WriteAppends (W.contents writer.old) (W.contents writer.new) result bytes.now }
{
    for _turn in 0..u64::MAX {
        match writer.write(bytes) {
            Ok(0) => return Err(Error::from(ErrorKind::WriteZero)),
            Ok(taken) => return Ok(taken),
            Err(error) => {
                if !is_interrupted(&error) {
                    return Err(error);
                }
            }
        }
    }
    Err(Error::from(ErrorKind::TimedOut))
}

// Whether a signal broke off a call.
fn is_interrupted(error: &Error) -> bool
    ensures { result ≡ is_interrupted (error_kind error.now) }
{
    matches!(error.kind(), ErrorKind::Interrupted)
}

// Why no more is shown, by the kind of an error.
fn stop_of(kind: ErrorKind) -> Stop
    ensures exact { result ≡ stop_of kind }
    ensures no_memory { result ≢ WantOfMemory }
{
    match kind {
        ErrorKind::BrokenPipe => Stop::Closed,
        _ => Stop::Output,
    }
}
