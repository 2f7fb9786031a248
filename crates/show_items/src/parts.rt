// The parts of the machine that sections name.
ghost use Rattle.std.specs.Prelude.{◌≡◌, ◌++◌, ◌∷◌, [], List, Option, Some, None, option_map, length, IfOk, OnOk};
ghost use Rattle.apei_bytes.specs.Guid.{guid_text};
ghost use Rattle.field_lines.specs.Sections.{kind_in, section_kinds};
ghost use Rattle.field_lines.specs.Texts.{escaped, escaped_lines, shown_byte};
ghost use Rattle.show_items.specs.Beginnings.{IfStopped};
ghost use Rattle.show_items.specs.Blocks.{AreBlockParts, ArePartsBehind};
ghost use Rattle.show_items.specs.Groups.{head_of};
ghost use Rattle.show_items.specs.Items.{smbios_of};
ghost use Rattle.show_items.specs.Parts.{ArePartsOf, IsNamed, array_text, begin_text, card_text, device_text, dotted, maker_text, module_text, naming_of, number_told, part_group, part_groups, part_head, part_json, part_lines, part_text, size_text, slot_text, socket_text, text_told, value_text};
ghost use Rattle.show_items.specs.Records.{ArePartsFrom, AreRecordParts};
ghost use Rattle.show_items.specs.Sheets.{AddsGroups, GroupsBegun};
ghost use Rattle.show_items.specs.Stops.{HasStop};
ghost use Rattle.show_findings.specs.Places.{seen_number};
ghost use Rattle.show_items.specs.declared.parts.Part.{Part as PartIs};

use crate::groups::{Group, add_members, add_place, add_title};
use crate::pages::{Pages, Stop};
use crate::sheet::{Form, Sheet};
use crate::text::{add, add_number_of};
use apei_bytes::{Guid, guid_at};
use field_lines::{SectionKind, add_decimal, section_kind};
use machine_parts::{Card, MemoryArray, Module, Naming, Slot, card_of, module_of, slot_of};
use show_findings::{data_entry_at, section_at, seen_u16};
use smbios::MemoryDevice;
use std::alloc::{AllocError, Global};

/// A part that a section names: the section's number, where its body begins in the item, and what the structures of the SMBIOS say.
#[derive(Clone, Copy)]
pub(crate) struct Part<'a> {
    pub index: u64,
    pub base: u64,
    pub named: Named<'a>,
}

/// What the structures say of a part.
#[derive(Clone, Copy)]
pub(crate) enum Named<'a> {
    /// A module, and the card that it is on.
    Memory(Module<'a>, Card),
    Slot(Slot<'a>),
}

/// The parts that the sections of a record name.
pub(crate) fn record_parts<'a>(sheet: &Sheet<'a>, bytes: &[u8]) -> Result<Vec<Part<'a>>, AllocError>
    ensures { IfOk result (λ parts. AreRecordParts (smbios_of sheet.now.manner) bytes.now parts.items) }
{
    match sheet.smbios() {
        Some(table) => parts_of_sections(sheet.alloc(), table, bytes),
        None => Ok(Vec::new(sheet.alloc())),
    }
}

fn parts_of_sections<'a>(
    alloc: Global,
    table: &'a [u8],
    bytes: &[u8],
) -> Result<Vec<Part<'a>>, AllocError>
    ensures { IfOk result (λ parts. ArePartsFrom table.now bytes.now (seen_number bytes.now 10 2) 0 parts.items) }
{
    let mut parts = Vec::new(alloc);
    for index in 0..seen_u16(bytes, 10) {
        let Some(section) = section_at(bytes, index) else {
            return Ok(parts);
        };
        let kind = guid_at(section.descriptor, 16);
        let base = section.body_at as u64;
        add_part_of(
            &mut parts,
            table,
            &kind,
            u64::from(index),
            base,
            section.body,
        )?;
    }
    Ok(parts)
}

/// The parts that the sections of a block name.
pub(crate) fn block_parts<'a>(sheet: &Sheet<'a>, bytes: &[u8]) -> Result<Vec<Part<'a>>, AllocError>
    ensures { IfOk result (λ parts. AreBlockParts (smbios_of sheet.now.manner) bytes.now parts.items) }
{
    match sheet.smbios() {
        Some(table) => parts_of_entries(sheet.alloc(), table, bytes),
        None => Ok(Vec::new(sheet.alloc())),
    }
}

fn parts_of_entries<'a>(
    alloc: Global,
    table: &'a [u8],
    bytes: &[u8],
) -> Result<Vec<Part<'a>>, AllocError>
    ensures { IfOk result (λ parts. ArePartsBehind table.now bytes.now (length bytes.now) 0 20 parts.items) }
{
    let mut parts = Vec::new(alloc);
    let mut at = 20;
    let mut index: u64 = 0;
    while let Some(entry) = data_entry_at(bytes, at) {
        let kind = guid_at(entry.head, 0);
        add_part_of(
            &mut parts,
            table,
            &kind,
            index,
            entry.body_at as u64,
            entry.body,
        )?;
        at = entry.next;
        index += 1;
    }
    Ok(parts)
}

// Adds the part that a section of a type names, whose body begins at a place of its item.
fn add_part_of<'a>(
    parts: &mut Vec<Part<'a>>,
    table: &'a [u8],
    kind: &Guid,
    index: u64,
    base: u64,
    body: &[u8],
) -> Result<(), AllocError>
    ensures { OnOk result ((some : List PartIs) × ArePartsOf kind.now table.now body.now index base some
        × (parts.new.items ≡ parts.old.items ++ some)) }
{
    let Some(naming) = naming_of(section_kind(kind)) else {
        return Ok(());
    };
    parts.push(Part {
        index,
        base,
        named: named_by(table, naming, body),
    })?;
    Ok(())
}

// The types of sections that name a part.
fn naming_of(kind: Option<SectionKind>) -> Option<Naming>
    ensures { result ≡ naming_of kind }
{
    match kind {
        Some(SectionKind::MemoryError) => Some(Naming::Memory),
        Some(SectionKind::MemoryError2) => Some(Naming::Memory2),
        Some(SectionKind::PciExpress) => Some(Naming::PciExpress),
        _ => None,
    }
}

// What a section names.
fn named_by<'a>(table: &'a [u8], naming: Naming, body: &[u8]) -> Named<'a>
    ensures { IsNamed table.now naming body.now result }
{
    match naming {
        Naming::Memory | Naming::Memory2 => Named::Memory(
            module_of(table, naming, body),
            card_of(table, naming, body),
        ),
        Naming::PciExpress => Named::Slot(slot_of(table, naming, body)),
    }
}

/// Adds a group for each part.
pub(crate) fn add_parts<P: Pages>(
    sheet: &mut Sheet<'_>,
    pages: &mut P,
    parts: &[Part<'_>],
) -> Result<(), Stop>
    ensures groups { OnOk result (AddsGroups (part_groups parts.now) (P.written pages.old) (P.written pages.new)
        sheet.old sheet.new) }
    ensures cause { HasStop (P.failures pages.old) (P.failures pages.new) result }
    ensures stopped { IfStopped result (GroupsBegun (part_groups parts.now)
        (P.written pages.old) (P.written pages.new) sheet.old) }
{
    for part in parts {
        sheet.add_part(part)?;
        sheet.turn(pages)?;
    }
    Ok(())
}

impl Sheet<'_> {
    fn add_part(&mut self, part: &Part<'_>) -> Result<(), AllocError>
        ensures { OnOk result (AddsGroups (part_group part.now ∷ []) (Some []) (Some []) self.old self.new) }
    {
        let group = Group {
            name: "part",
            index: Some(part.index),
            kind: None,
            base: part.base,
        };
        match self.form() {
            Form::Brief => Ok(()),
            Form::Text => {
                let places = self.has_places();
                add_part_lines(&mut self.out, places, &group, &part.named)
            }
            Form::Json => {
                self.begin_group()?;
                add_part_object(&mut self.out, &group, &part.named)
            }
        }
    }
}

fn add_part_lines(
    out: &mut Vec<u8>,
    places: bool,
    group: &Group,
    named: &Named<'_>,
) -> Result<(), AllocError>
    ensures { OnOk result (out.new.items ≡ out.old.items ++ part_lines places (head_of group.now) named.now) }
{
    let writer = Writer {
        is_json: false,
        places,
        base: group.base,
    };
    add_title(out, group)?;
    writer.add_named(out, named)
}

fn add_part_object(out: &mut Vec<u8>, group: &Group, named: &Named<'_>) -> Result<(), AllocError>
    ensures { OnOk result (out.new.items ≡ out.old.items ++ part_json (head_of group.now) named.now) }
{
    let writer = Writer {
        is_json: true,
        places: false,
        base: group.base,
    };
    add_members(out, group)?;
    writer.add_named(out, named)?;
    add(out, "}")
}

/// How what is told of a part is written.
#[derive(Clone, Copy)]
struct Writer {
    is_json: bool,
    places: bool,
    base: u64,
}

impl Writer {
    // Adds what is told of a part.
    fn add_named(&self, out: &mut Vec<u8>, named: &Named<'_>) -> Result<(), AllocError>
        ensures { OnOk result (out.new.items ≡ out.old.items ++ part_text self.now named.now) }
    {
        match named {
            Named::Memory(one, card) => {
                self.add_module(out, one)?;
                self.add_card(out, card)
            }
            Named::Slot(slot) => self.add_slot(out, slot),
        }
    }

    fn add_module(&self, out: &mut Vec<u8>, one: &Module<'_>) -> Result<(), AllocError>
        ensures { OnOk result (out.new.items ≡ out.old.items ++ module_text self.now one.now) }
    {
        match one {
            Module::Unnamed => self.add_words(out, "module", "the section has no module handle"),
            Module::Absent(_) => {
                self.add_words(out, "module", "no memory device has this module handle")
            }
            Module::Found(device) => self.add_device(out, device),
        }
    }

    fn add_device(&self, out: &mut Vec<u8>, device: &MemoryDevice<'_>) -> Result<(), AllocError>
        ensures { OnOk result (out.new.items ≡ out.old.items ++ device_text self.now device.now) }
    {
        self.add_socket(out, device)?;
        self.add_maker(out, device)?;
        self.add_size(out, device)
    }

    fn add_socket(&self, out: &mut Vec<u8>, device: &MemoryDevice<'_>) -> Result<(), AllocError>
        ensures { OnOk result (out.new.items ≡ out.old.items ++ socket_text self.now device.now) }
    {
        self.add_text(out, "device locator", device.locator)?;
        self.add_text(out, "bank locator", device.bank)
    }

    fn add_maker(&self, out: &mut Vec<u8>, device: &MemoryDevice<'_>) -> Result<(), AllocError>
        ensures { OnOk result (out.new.items ≡ out.old.items ++ maker_text self.now device.now) }
    {
        self.add_text(out, "manufacturer", device.maker)?;
        self.add_text(out, "serial number", device.serial)?;
        self.add_text(out, "part number", device.part_number)
    }

    fn add_size(&self, out: &mut Vec<u8>, device: &MemoryDevice<'_>) -> Result<(), AllocError>
        ensures { OnOk result (out.new.items ≡ out.old.items ++ size_text self.now device.now) }
    {
        self.add_number(out, "size in KiB", device.size)?;
        self.add_number(out, "speed in MT/s", device.speed.map(u64::from))
    }

    fn add_card(&self, out: &mut Vec<u8>, card: &Card) -> Result<(), AllocError>
        ensures { OnOk result (out.new.items ≡ out.old.items ++ card_text self.now card.now) }
    {
        match card {
            Card::Unnamed => Ok(()),
            Card::Absent(_) => self.add_words(out, "card", "no memory array has this card handle"),
            Card::Found(array) => self.add_array(out, array),
        }
    }

    fn add_array(&self, out: &mut Vec<u8>, array: &MemoryArray) -> Result<(), AllocError>
        ensures { OnOk result (out.new.items ≡ out.old.items ++ array_text self.now array.now) }
    {
        self.add_number(out, "memory array location", array.location.map(u64::from))?;
        self.add_number(out, "memory array sockets", array.devices.map(u64::from))
    }

    fn add_slot(&self, out: &mut Vec<u8>, slot: &Slot<'_>) -> Result<(), AllocError>
        ensures { OnOk result (out.new.items ≡ out.old.items ++ slot_text self.now slot.now) }
    {
        match *slot {
            Slot::Unnamed => self.add_words(out, "slot", "the section has no slot number"),
            Slot::Absent(_) => self.add_words(out, "slot", "no system slot has this number"),
            Slot::Found(label) => self.add_text(out, "slot designation", label),
        }
    }

    fn add_words(&self, out: &mut Vec<u8>, name: &str, words: &str) -> Result<(), AllocError>
        ensures { OnOk result (out.new.items ≡ out.old.items ++ text_told self.now name.now (Some words.now)) }
    {
        self.add_text(out, name, Some(words.as_bytes()))
    }

    // Adds a text, where there is one.
    fn add_text(&self, out: &mut Vec<u8>, name: &str, text: Option<&[u8]>) -> Result<(), AllocError>
        ensures { OnOk result (out.new.items ≡ out.old.items ++ text_told self.now name.now (option_map (λ it. it.now) text.entry)) }
    {
        let Some(text) = text else {
            return Ok(());
        };
        self.begin(out, name)?;
        self.add_value(out, text)
    }

    fn add_value(&self, out: &mut Vec<u8>, text: &[u8]) -> Result<(), AllocError>
        ensures { OnOk result (out.new.items ≡ out.old.items ++ value_text self.now text.now) }
    {
        if self.is_json {
            add(out, "\"")?;
            add_escaped(out, text)?;
            return add(out, "\"");
        }
        add_dotted(out, text)?;
        add(out, "\n")
    }

    // Adds a number, where there is one.
    fn add_number(
        &self,
        out: &mut Vec<u8>,
        name: &str,
        number: Option<u64>,
    ) -> Result<(), AllocError>
        ensures { OnOk result (out.new.items ≡ out.old.items ++ number_told self.now name.now number) }
    {
        let Some(number) = number else {
            return Ok(());
        };
        self.begin(out, name)?;
        add_decimal(number, out)?;
        if self.is_json {
            return Ok(());
        }
        add(out, "\n")
    }

    // What stands before a value.
    fn begin(&self, out: &mut Vec<u8>, name: &str) -> Result<(), AllocError>
        ensures { OnOk result (out.new.items ≡ out.old.items ++ begin_text self.now name.now) }
    {
        if self.is_json {
            add(out, ",\"")?;
            add(out, name)?;
            return add(out, "\":");
        }
        add_place(out, self.places, self.base)?;
        add(out, name)?;
        add(out, ": ")
    }
}

// Adds a text with a dot for each byte that can't be printed.
fn add_dotted(out: &mut Vec<u8>, mut text: &[u8]) -> Result<(), AllocError>
    ensures { OnOk result (out.new.items ≡ out.old.items ++ dotted text.entry.now) }
{
    while let [byte, rest @ ..] = text {
        out.push(shown_byte(*byte))?;
        text = rest;
    }
    Ok(())
}

fn shown_byte(byte: u8) -> u8
    ensures { result ≡ shown_byte byte }
{
    if byte < 32 || byte > 126 { b'.' } else { byte }
}

// Adds a text as it stands in a JSON string, a byte by its number where it can't stand for itself.
fn add_escaped(out: &mut Vec<u8>, mut text: &[u8]) -> Result<(), AllocError>
    ensures { OnOk result (out.new.items ≡ out.old.items ++ escaped_lines text.entry.now) }
{
    while let [byte, rest @ ..] = text {
        add_byte(out, *byte)?;
        text = rest;
    }
    Ok(())
}

fn add_byte(out: &mut Vec<u8>, byte: u8) -> Result<(), AllocError>
    ensures { OnOk result (out.new.items ≡ out.old.items ++ escaped byte) }
{
    if byte < 32 || byte > 126 || byte == b'"' || byte == b'\\' {
        return add_number_of(out, byte);
    }
    out.extend_from_slice(&[byte])
}
