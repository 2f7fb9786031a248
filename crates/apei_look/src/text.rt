// The whole as text.
ghost use Rattle.std.specs.Prelude.{◌≡◌, ◌++◌, true, IfOk, OnOk, string_bytes};
ghost use Rattle.apei_look.specs.FileTexts.{IsFileText, cut_text, division_text, end_place, end_text, guess_text, longer_text, medium_text, options_text};
ghost use Rattle.apei_look.specs.FileTexts.{place_text, version_text, view_text};
ghost use Rattle.apei_look.specs.Images.{IsText, copies_text, counts_text, shown_text, totals_line};
ghost use Rattle.apei_look.specs.Texts.{GrowsBy};

use crate::image::Image;
use crate::picture::{add_legend, add_picture};
use crate::places::{file_size, flash_at};
use crate::records::add_records;
use crate::slots::add_slots;
use flash_model::Geometry;
use image_survey::{FileKind, FileView, Totals, VERSION, count_slots, view_file};
use std::alloc::{AllocError, Global};

/// The text of an image: a line for the whole, lines on a file that is a medium, that is cut off or that is not of this geometry, a picture of
/// the slots with its legend, a line for each slot that is not erased, and lines for each record that a boot finds.
pub fn text_of(alloc: Global, image: &Image<'_>) -> Result<String, AllocError>
    ensures { IfOk result (λ text. IsText image.now.is_medium image.now.geometry.now image.now.held
        image.now.bytes.now (string_bytes text)) }
{
    let mut out = String::new(alloc);
    let totals = count_slots(image.views, image.geometry);
    add_totals(&mut out, image.geometry.slots, &totals)?;
    add_file(&mut out, image)?;
    add_shown(&mut out, image)?;
    add_records(alloc, &mut out, image)?;
    Ok(out)
}

// The line for the whole.
fn add_totals(out: &mut String, slots: u64, totals: &Totals) -> Result<(), AllocError>
    ensures { OnOk result (string_bytes out.new ≡ string_bytes out.old ++ totals_line slots totals.now) }
{
    add_counts(out, slots, totals)?;
    add_copies(out, totals)
}

fn add_counts(out: &mut String, slots: u64, totals: &Totals) -> Result<(), AllocError>
    ensures { OnOk result (string_bytes out.new ≡ string_bytes out.old ++ counts_text slots totals.now) }
{
    let Totals { free, records, .. } = *totals;
    write!(out, "slots {slots} free {free} records {records}")
}

fn add_copies(out: &mut String, totals: &Totals) -> Result<(), AllocError>
    ensures { OnOk result (string_bytes out.new ≡ string_bytes out.old ++ copies_text totals.now) }
{
    let Totals {
        second_copies,
        bytes,
        ..
    } = *totals;
    write!(out, " second copies {second_copies}")?;
    write!(out, " bytes {bytes}")?;
    out.push_str("\n")?;
    Ok(())
}

// The slots, as a picture and line by line.
fn add_shown(out: &mut String, image: &Image<'_>) -> Result<(), AllocError>
    ensures { OnOk result (string_bytes out.new ≡ string_bytes out.old
        ++ shown_text image.now.geometry.now image.now.bytes.now) }
{
    add_picture(out, image)?;
    add_legend(out)?;
    add_slots(out, image)
}

// What is said of the file: that it is a medium, is cut off, has another geometry, or is none of ours.
fn add_file(out: &mut String, image: &Image<'_>) -> Result<(), AllocError>
    ensures { OnOk result (GrowsBy (IsFileText image.now.is_medium image.now.geometry.now image.now.held
        image.now.bytes.now) (string_bytes out.old) (string_bytes out.new)) }
{
    if image.is_medium {
        add_medium(out, image.geometry)?;
        add_end(out, image)
    } else {
        let view = view_file(image.bytes, image.geometry, image.views);
        add_end(out, image)?;
        add_view(out, &view)
    }
}

// The geometry of a file that has another one, and that a file is none of ours.
fn add_view(out: &mut String, view: &FileView) -> Result<(), AllocError>
    ensures { OnOk result (string_bytes out.new ≡ string_bytes out.old ++ view_text view.now.kind view.now.guess) }
{
    match (view.kind, &view.guess) {
        (FileKind::Other, Some(guess)) => add_guess(out, &guess.geometry),
        (FileKind::Foreign, _) => {
            out.push_str("no head of a record stands in it: it is none of ours\n")
        }
        _ => Ok(()),
    }
}

// What the first sector of a medium says.
fn add_medium(out: &mut String, geometry: &Geometry) -> Result<(), AllocError>
    ensures { OnOk result (string_bytes out.new ≡ string_bytes out.old ++ medium_text geometry.now) }
{
    add_version(out, geometry)?;
    add_division(out, geometry)?;
    add_place(out, geometry)
}

fn add_version(out: &mut String, geometry: &Geometry) -> Result<(), AllocError>
    ensures { OnOk result (string_bytes out.new ≡ string_bytes out.old ++ version_text geometry.now) }
{
    let slots = geometry.slots;
    write!(out, "a medium of the library, version {VERSION}: {slots} ")
}

fn add_place(out: &mut String, geometry: &Geometry) -> Result<(), AllocError>
    ensures { OnOk result (string_bytes out.new ≡ string_bytes out.old ++ place_text geometry.now) }
{
    let at = flash_at(geometry, true);
    writeln!(out, ", from byte {at} on")
}

// How a flash is divided.
fn add_division(out: &mut String, geometry: &Geometry) -> Result<(), AllocError>
    ensures { OnOk result (string_bytes out.new ≡ string_bytes out.old ++ division_text geometry.now) }
{
    let Geometry {
        sector,
        per_slot,
        ..
    } = *geometry;
    write!(out, "slots of {per_slot} sectors of {sector}")
}

// Where a file ends that is cut off, and from where one that is longer is not shown.
#[tactic(auto, using(std::proofs::lemmas::Bool::Decides::nat_tests))]
fn add_end(out: &mut String, image: &Image<'_>) -> Result<(), AllocError>
    ensures { OnOk result (string_bytes out.new ≡ string_bytes out.old
        ++ end_text image.now.is_medium image.now.geometry.now image.now.held) }
{
    let held = image.held;
    let size = file_size(image.geometry, image.is_medium);
    if held == size {
        return Ok(());
    }
    if held > size {
        return add_longer(out, held, size);
    }
    add_cut(out, image)
}

fn add_longer(out: &mut String, held: u64, size: u64) -> Result<(), AllocError>
    ensures { OnOk result (string_bytes out.new ≡ string_bytes out.old ++ longer_text held size) }
{
    writeln!(
        out,
        "the file has {held} bytes; those from byte {size} on are not shown"
    )
}

fn add_cut(out: &mut String, image: &Image<'_>) -> Result<(), AllocError>
    ensures { OnOk result (string_bytes out.new ≡ string_bytes out.old
        ++ cut_text image.now.is_medium image.now.geometry.now image.now.held) }
{
    let held = image.held;
    write!(out, "the image ends at byte {held}, in ")?;
    add_end_place(out, image)?;
    out.push_str("; what is behind it is shown as erased\n")
}

#[tactic(auto, using(std::proofs::lemmas::Bool::Decides::nat_tests))]
fn add_end_place(out: &mut String, image: &Image<'_>) -> Result<(), AllocError>
    ensures { OnOk result (string_bytes out.new ≡ string_bytes out.old
        ++ end_place image.now.is_medium image.now.geometry.now image.now.held) }
{
    match image.last_slot() {
        Some(slot) => write!(out, "slot {slot}"),
        None => out.push_str("its first sector"),
    }
}

// Where most heads stand.
fn add_guess(out: &mut String, geometry: &Geometry) -> Result<(), AllocError>
    ensures { OnOk result (string_bytes out.new ≡ string_bytes out.old ++ guess_text geometry.now) }
{
    out.push_str("heads stand where ")?;
    add_division(out, geometry)?;
    out.push_str(" begin: ")?;
    add_options(out, geometry)?;
    out.push('\n')
}

// The options by which they do.
fn add_options(out: &mut String, geometry: &Geometry) -> Result<(), AllocError>
    ensures { OnOk result (string_bytes out.new ≡ string_bytes out.old ++ options_text geometry.now) }
{
    let Geometry {
        sector,
        per_slot,
        slots,
        ..
    } = *geometry;
    write!(
        out,
        "--sector={sector} --per-slot={per_slot} --slots={slots}"
    )
}
