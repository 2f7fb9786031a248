// What is written of a file.
ghost use Rattle.std.specs.Prelude.{◌≡◌, ◌++◌, [], List, ℕ, IfOk, OnOk};
ghost use Rattle.std.specs.Io.KnownBytes.{Appends, append_known};
ghost use Rattle.apei_show.specs.Outputs.{IsWritten, StopsWriting, heads_files, head_text, path_text};
ghost use Rattle.show_items.specs.Beginnings.{IfStopped, IsBegun};
ghost use Rattle.show_items.specs.Stops.{HasStop};

use crate::source::name_of;
use show_items::{Form, Manner, Pages, Sheet, Stop, show_file};
use std::alloc::{AllocError, Global};

/// Writes the items of the file at a path, and says whether one is bad. A line with the path stands before them where there are several files.
pub fn show_bytes<P: Pages>(
    pages: &mut P,
    alloc: Global,
    path: &str,
    bytes: &[u8],
    manner: Manner<'_>,
    is_first: bool,
) -> Result<bool, Stop>
    ensures written { IfOk result (λ bad. (text : List ℕ)
        × Appends (P.written pages.old) (P.written pages.new) (head_text manner.entry is_first path.now ++ text)
        × IsWritten manner.entry text path.now bytes.now bad) }
    ensures cause { HasStop (P.failures pages.old) (P.failures pages.new) result }
    ensures stopped { IfStopped result (StopsWriting manner.entry (head_text manner.entry is_first path.now) path.now bytes.now
        (P.written pages.old) (P.written pages.new)) }
{
    write_head(pages, alloc, path, manner, is_first)?;
    write_items(pages, alloc, path, bytes, manner)
}

fn write_head<P: Pages>(
    pages: &mut P,
    alloc: Global,
    path: &str,
    manner: Manner<'_>,
    is_first: bool,
) -> Result<(), Stop>
    ensures written { OnOk result (Appends (P.written pages.old) (P.written pages.new) (head_text manner.entry is_first path.now)) }
    ensures cause { HasStop (P.failures pages.old) (P.failures pages.new) result }
    ensures stopped { IfStopped result (IsBegun (P.written pages.old)
        (append_known (P.written pages.old) (head_text manner.entry is_first path.now)) (P.written pages.new)) }
{
    if !heads_files(&manner) {
        return Ok(());
    }
    let line = path_line(alloc, path, is_first)?;
    pages.write(&line)
}

// Whether a line with the path stands before the items of each file.
fn heads_files(manner: &Manner<'_>) -> bool
    ensures { result ≡ heads_files manner.now.form manner.now.named }
{
    match manner.form {
        Form::Text => manner.named,
        Form::Brief | Form::Json => false,
    }
}

fn path_line(alloc: Global, path: &str, is_first: bool) -> Result<Vec<u8>, AllocError>
    ensures { IfOk result (λ line. line.items ≡ path_text is_first path.now) }
{
    let mut line = Vec::new(alloc);
    if !is_first {
        line.push(b'\n')?;
    }
    line.extend_from_slice(path.as_bytes())?;
    line.extend_from_slice(b":\n")?;
    Ok(line)
}

fn write_items<P: Pages>(
    pages: &mut P,
    alloc: Global,
    path: &str,
    bytes: &[u8],
    manner: Manner<'_>,
) -> Result<bool, Stop>
    ensures written { IfOk result (λ bad. (text : List ℕ)
        × Appends (P.written pages.old) (P.written pages.new) text × IsWritten manner.entry text path.now bytes.now bad) }
    ensures cause { HasStop (P.failures pages.old) (P.failures pages.new) result }
    ensures stopped { IfStopped result (StopsWriting manner.entry [] path.now bytes.now
        (P.written pages.old) (P.written pages.new)) }
{
    let mut sheet = Sheet::new(alloc, path, manner);
    show_file(&mut sheet, pages, name_of(path), bytes)?;
    Ok(sheet.has_bad())
}
