// A medium whose slots are not shown.
ghost use Rattle.std.specs.Prelude.{◌≡◌, ◌++◌, IfOk, OnOk, string_bytes};
ghost use Rattle.apei_look.specs.Mediums.{unread_line};
ghost use Rattle.apei_look.specs.Texts.{unread_object, version_json};
ghost use Rattle.apei_look.specs.Words.{unread_word_of};

use std::alloc::{AllocError, Global};
use std::fmt;

/// Why the slots of a medium are not shown.
#[derive(Clone, Copy, Debug, PartialEq, Eq)]
pub enum Unread {
    /// Its first sector is of another version.
    Version(u32),
    /// Its first sector has the signature, and is no header that a format made.
    Damaged,
}

impl fmt::Display for Unread {
    ghost use Rattle.std.specs.Prelude.{Some};
    ghost use Rattle.apei_look.specs.Mediums.{unread_words};

    ghost output = { λ unread. Some (unread_words unread) };

    fn fmt<W: fmt::Write>(&self, f: &mut fmt::Formatter<W>) -> fmt::Result {
        match self {
            Unread::Version(found) => write!(
                f,
                "a medium of the library, version {found}: version 1 is the only one that is shown"
            ),
            Unread::Damaged => write!(
                f,
                "a medium of the library whose first sector is damaged: its geometry is not known"
            ),
        }
    }
}

/// The text of such a medium: one line.
pub fn unread_text(alloc: Global, unread: Unread) -> Result<String, AllocError>
    ensures { IfOk result (λ text. string_bytes text ≡ unread_line unread) }
{
    let mut out = String::new(alloc);
    write!(out, "{unread}")?;
    out.push_str("\n")?;
    Ok(out)
}

/// The same as one JSON object on one line, with the bytes that the file has.
pub fn unread_json(alloc: Global, unread: Unread, held: u64) -> Result<String, AllocError>
    ensures { IfOk result (λ text. string_bytes text ≡ unread_object unread held) }
{
    let mut out = String::new(alloc);
    let word = unread_word(unread);
    write!(
        out,
        "{{\"held\":{held},\"file\":\"{word}\",\"medium\":{{\"version\":"
    )?;
    add_version(&mut out, unread)?;
    out.push_str("}}\n")?;
    Ok(out)
}

fn add_version(out: &mut String, unread: Unread) -> Result<(), AllocError>
    ensures { OnOk result (string_bytes out.new ≡ string_bytes out.old ++ version_json unread) }
{
    match unread {
        Unread::Version(found) => write!(out, "{found}"),
        Unread::Damaged => out.push_str("null"),
    }
}

// The word of its kind of file.
fn unread_word<'a>(unread: Unread) -> &'a str
    ensures { result.now ≡ unread_word_of unread }
{
    match unread {
        Unread::Version(_) => "other-version",
        Unread::Damaged => "damaged-medium",
    }
}
