// The whole as JSON.
ghost use Rattle.std.specs.Prelude.{◌≡◌, ◌++◌, IfOk, OnOk, string_bytes};
ghost use Rattle.apei_look.specs.FileObjects.{copies_json, counts_json, file_json, header_json, heads_json, kind_json, medium_json, seems_json, separator};
ghost use Rattle.apei_look.specs.FileObjects.{totals_json};
ghost use Rattle.apei_look.specs.Images.{IsJson};
ghost use Rattle.apei_look.specs.Texts.{geometry_json};

use crate::image::Image;
use crate::json_records::add_records;
use crate::json_slots::add_slots;
use crate::kind::file_word;
use crate::places::flash_at;
use flash_model::Geometry;
use image_survey::{FileView, Guess, Totals, VERSION, count_slots, view_file};
use std::alloc::{AllocError, Global};

/// What `text_of` says of an image, as one JSON object on one line. Identifiers are strings, as some programs round great
/// numbers.
pub fn json_of(alloc: Global, image: &Image<'_>) -> Result<String, AllocError>
    ensures { IfOk result (λ text. IsJson image.now.is_medium image.now.geometry.now image.now.held
        image.now.bytes.now (string_bytes text)) }
{
    let mut out = String::new(alloc);
    let view = view_file(image.bytes, image.geometry, image.views);
    let totals = count_slots(image.views, image.geometry);
    add_file(&mut out, image, &view)?;
    add_totals(&mut out, &totals)?;
    add_slots(&mut out, image)?;
    out.push_str(",\"stored\":[")?;
    add_records(alloc, &mut out, image)?;
    out.push_str("]}\n")?;
    Ok(out)
}

// The geometry that the image is looked at by, how many bytes the file has, what kind of file it is, and the medium that it is.
fn add_file(out: &mut String, image: &Image<'_>, view: &FileView) -> Result<(), AllocError>
    ensures { OnOk result (string_bytes out.new ≡ string_bytes out.old
        ++ file_json image.now.is_medium image.now.geometry.now image.now.held view.now) }
{
    out.push_str("{\"geometry\":")?;
    add_geometry(out, image.geometry)?;
    add_kind(out, image.is_medium, image.held, view)?;
    add_medium(out, image.is_medium, image.geometry)?;
    add_heads(out, view)
}

fn add_kind(out: &mut String, is_medium: bool, held: u64, view: &FileView) -> Result<(), AllocError>
    ensures { OnOk result (string_bytes out.new ≡ string_bytes out.old ++ kind_json is_medium held view.now) }
{
    let kind = file_word(is_medium, view.kind);
    write!(out, ",\"held\":{held},\"file\":\"{kind}\",\"medium\":")
}

// What the first sector of a medium says, `null` where the file is none.
fn add_medium(out: &mut String, is_medium: bool, geometry: &Geometry) -> Result<(), AllocError>
    ensures { OnOk result (string_bytes out.new ≡ string_bytes out.old ++ medium_json is_medium geometry.now) }
{
    if is_medium {
        add_header(out, geometry)
    } else {
        out.push_str("null")
    }
}

fn add_header(out: &mut String, geometry: &Geometry) -> Result<(), AllocError>
    ensures { OnOk result (string_bytes out.new ≡ string_bytes out.old ++ header_json geometry.now) }
{
    let at = flash_at(geometry, true);
    write!(out, "{{\"version\":{VERSION},\"flash_at\":{at}}}")
}

// The heads of a file, and the geometry that it seems to have.
fn add_heads(out: &mut String, view: &FileView) -> Result<(), AllocError>
    ensures { OnOk result (string_bytes out.new ≡ string_bytes out.old ++ heads_json view.now) }
{
    let heads = view.heads;
    write!(out, ",\"heads\":{heads},\"seems\":")?;
    add_guess(out, &view.guess)
}

fn add_guess(out: &mut String, guess: &Option<Guess>) -> Result<(), AllocError>
    ensures { OnOk result (string_bytes out.new ≡ string_bytes out.old ++ seems_json guess.now) }
{
    match guess {
        Some(guess) => add_geometry(out, &guess.geometry),
        None => out.push_str("null"),
    }
}

fn add_geometry(out: &mut String, geometry: &Geometry) -> Result<(), AllocError>
    ensures { OnOk result (string_bytes out.new ≡ string_bytes out.old ++ geometry_json geometry.now) }
{
    let sector = geometry.sector();
    let per_slot = geometry.per_slot();
    let slots = geometry.slots();
    write!(
        out,
        "{{\"sector\":{sector},\"per_slot\":{per_slot},\"slots\":{slots}}}"
    )
}

fn add_totals(out: &mut String, totals: &Totals) -> Result<(), AllocError>
    ensures { OnOk result (string_bytes out.new ≡ string_bytes out.old ++ totals_json totals.now) }
{
    add_counts(out, totals)?;
    add_copies(out, totals)
}

fn add_counts(out: &mut String, totals: &Totals) -> Result<(), AllocError>
    ensures { OnOk result (string_bytes out.new ≡ string_bytes out.old ++ counts_json totals.now) }
{
    let Totals { free, records, .. } = *totals;
    write!(out, ",\"free\":{free},\"records\":{records}")
}

fn add_copies(out: &mut String, totals: &Totals) -> Result<(), AllocError>
    ensures { OnOk result (string_bytes out.new ≡ string_bytes out.old ++ copies_json totals.now) }
{
    let Totals {
        second_copies,
        bytes,
        ..
    } = *totals;
    write!(out, ",\"second_copies\":{second_copies},\"bytes\":{bytes}")
}

/// A comma before all but the first item of a list.
pub(crate) fn add_separator(out: &mut String, is_first: bool) -> Result<(), AllocError>
    ensures { OnOk result (string_bytes out.new ≡ string_bytes out.old ++ separator is_first) }
{
    if is_first { Ok(()) } else { out.push(',') }
}
