// The picture of the slots.
ghost use Rattle.std.specs.Prelude.{◌≡◌, ◌++◌, OnOk, string_bytes};
ghost use Rattle.apei_look.specs.SlotTexts.{legend_text, letter_text, of_slots, picture_text, row_start, row_text, slot_letter};

use crate::image::Image;
use crate::kind::letter;
use image_survey::SlotKind;
use std::alloc::AllocError;

// How many slots stand in a row.
const ROW: u32 = 64;

/// The picture: a letter for each slot, so many to a row, which begins with the number of its first slot.
pub fn add_picture(out: &mut String, image: &Image<'_>) -> Result<(), AllocError>
    ensures { OnOk result (string_bytes out.new ≡ string_bytes out.old
        ++ picture_text image.now.geometry.now.slot_size image.now.geometry.now.slots image.now.bytes.now) }
{
    add_letters(out, image)?;
    out.push_str("\n\n")
}

fn add_letters(out: &mut String, image: &Image<'_>) -> Result<(), AllocError>
    ensures { OnOk result (string_bytes out.new ≡ string_bytes out.old ++ of_slots (slot_letter
        image.now.geometry.now.slot_size image.now.geometry.now.slots image.now.bytes.now) image.now.geometry.now.slots) }
{
    for slot in 0..image.geometry.slots as u32 {
        add_letter(out, slot, image.view(slot).kind)?;
    }
    Ok(())
}

// The letter of a slot, behind the beginning of its row where it is the first of one.
fn add_letter(out: &mut String, slot: u32, kind: SlotKind) -> Result<(), AllocError>
    ensures { OnOk result (string_bytes out.new ≡ string_bytes out.old ++ letter_text slot kind) }
{
    add_row(out, slot)?;
    out.push(letter(kind))
}

fn add_row(out: &mut String, slot: u32) -> Result<(), AllocError>
    ensures { OnOk result (string_bytes out.new ≡ string_bytes out.old ++ row_text slot) }
{
    if slot % ROW == 0 {
        add_row_start(out, slot)
    } else {
        Ok(())
    }
}

fn add_row_start(out: &mut String, slot: u32) -> Result<(), AllocError>
    ensures { OnOk result (string_bytes out.new ≡ string_bytes out.old ++ row_start slot) }
{
    write!(out, "\n{slot:>5} ")
}

/// What the letters mean.
pub fn add_legend(out: &mut String) -> Result<(), AllocError>
    ensures { OnOk result (string_bytes out.new ≡ string_bytes out.old ++ legend_text) }
{
    out.push_str(
        "R first slot of a record  + further slot of a record  2 second copy  o orphan\n",
    )?;
    out.push_str("w being filled or erased  k killed  . erased  ? unknown\n\n")?;
    Ok(())
}
