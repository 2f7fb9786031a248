// The sheet on which the items of a file are shown.
ghost use Rattle.std.specs.Prelude.{◌≡◌, ◌++◌, [], true, false, nat_lt, is_some, length, codes, None, OnErr, OnOk, option_map};
ghost use Rattle.show_items.specs.Groups.{comma};
ghost use Rattle.show_items.specs.Items.{bad_json, end_as, fault_json, fault_text, extent_json, file_json, gap, heading_json, heading_of, kind_json, path_before, smbios_of};
ghost use Rattle.show_items.specs.Sheets.{AddsGroups, AddsText, BeginsItem, EndsItem, GroupsBegun, KeepsItem};
ghost use Rattle.show_items.specs.Stops.{HasStop};
ghost use Rattle.show_items.specs.Texts.{bold, colored};

use crate::pages::{Pages, Stop};
use crate::text::{add, add_number, add_quoted};
use field_lines::add_decimal;
use show_findings::Fault;
use std::alloc::{AllocError, Global};

/// In which form an item is shown.
#[derive(Clone, Copy, Debug, PartialEq, Eq)]
pub enum Form {
    /// A sentence, and each field below it.
    Text,
    /// The sentence alone.
    Brief,
    /// A JSON object on one line.
    Json,
}

/// How items are shown.
#[derive(Clone, Copy, Debug, PartialEq, Eq)]
pub struct Manner<'a> {
    pub form: Form,
    /// Whether the place of each field stands before it.
    pub places: bool,
    pub colored: bool,
    /// Whether the path stands before the items of each file.
    pub named: bool,
    /// The structures of the machine's SMBIOS, where they are known: they name the parts that sections are about.
    pub smbios: Option<&'a [u8]>,
}

/// An item: its word, where it begins in its file, where that is known, and its bytes.
#[derive(Clone, Copy)]
pub(crate) struct Item<'a> {
    pub kind: &'static str,
    pub at: Option<u64>,
    pub bytes: &'a [u8],
}

// How many bytes a page has at least.
const PAGE: usize = 1 << 16;

// How a text is coloured, and how that ends.
const BOLD: &str = "\x1b[1m";

const RED: &str = "\x1b[31m";

const PLAIN: &str = "\x1b[0m";

/// What is shown of a file, as far as it isn't written yet.
#[derive(Drop)]
pub struct Sheet<'a> {
    alloc: Global,
    path: &'a str,
    manner: Manner<'a>,
    pub(crate) out: Vec<u8>,
    items: u64,
    has_groups: bool,
    has_bad: bool,
}

impl<'a> Sheet<'a> {
    /// The empty sheet of a file.
    pub fn new(alloc: Global, path: &'a str, manner: Manner<'a>) -> Sheet<'a>
        ensures path { result.path.now ≡ path.now }
        ensures manner { result.manner ≡ manner.entry }
        ensures blank { result.out.items ≡ [] }
        ensures none { result.items ≡ 0 }
        ensures ungrouped { result.has_groups ≡ false }
        ensures sound { result.has_bad ≡ false }
    {
        Sheet {
            alloc,
            path,
            manner,
            out: Vec::new(alloc),
            items: 0,
            has_groups: false,
            has_bad: false,
        }
    }

    /// Whether an item was bad so far.
    pub fn has_bad(&self) -> bool
        ensures { result ≡ self.now.has_bad }
    {
        self.has_bad
    }

    /// Whether an item was shown so far.
    pub(crate) fn has_items(&self) -> bool
        ensures { result ≡ nat_lt 0 self.now.items }
    {
        self.items > 0
    }

    pub(crate) fn alloc(&self) -> Global {
        self.alloc
    }

    /// The structures of the SMBIOS, where they are known and parts are shown.
    pub(crate) fn smbios(&self) -> Option<&'a [u8]>
        ensures { option_map (λ it. it.now) result ≡ smbios_of self.now.manner }
    {
        match self.manner.form {
            Form::Brief => None,
            Form::Text | Form::Json => self.manner.smbios,
        }
    }

    pub(crate) fn form(&self) -> Form
        ensures { result ≡ self.now.manner.form }
    {
        self.manner.form
    }

    pub(crate) fn has_places(&self) -> bool
        ensures { result ≡ self.now.manner.places }
    {
        self.manner.places
    }

    /// Begins an item with its sentence.
    pub(crate) fn begin(&mut self, item: &Item<'_>, sentence: &str) -> Result<(), AllocError>
        ensures { OnOk result (BeginsItem (heading_of item.now sentence.now) self.old self.new) }
    {
        self.has_groups = false;
        match self.manner.form {
            Form::Text => self.begin_text(sentence),
            Form::Brief => self.begin_brief(sentence),
            Form::Json => self.begin_json(item, sentence),
        }
    }

    /// Begins the object of a group. A comma stands before each but the first.
    pub(crate) fn begin_group(&mut self) -> Result<(), AllocError>
        ensures text { OnOk result (self.new.out.items ≡ self.old.out.items ++ comma self.old.has_groups) }
        ensures begun { OnOk result (self.new.has_groups ≡ true) }
        ensures same { OnOk result (KeepsItem self.old self.new) }
    {
        if self.has_groups {
            add(&mut self.out, ",")?;
        }
        self.has_groups = true;
        Ok(())
    }

    fn begin_text(&mut self, sentence: &str) -> Result<(), AllocError>
        ensures { OnOk result (AddsText (gap self.old.items ++ colored self.old.manner.colored bold sentence.now
            ++ codes "\n") self.old self.new) }
    {
        self.add_gap()?;
        self.add_colored(BOLD, sentence)?;
        add(&mut self.out, "\n")
    }

    fn begin_brief(&mut self, sentence: &str) -> Result<(), AllocError>
        ensures { OnOk result (AddsText (path_before self.old.manner.named self.old.path.now
            ++ colored self.old.manner.colored bold sentence.now) self.old self.new) }
    {
        self.add_path()?;
        self.add_colored(BOLD, sentence)
    }

    // An empty line before each item but the first.
    fn add_gap(&mut self) -> Result<(), AllocError>
        ensures { OnOk result (AddsText (gap self.old.items) self.old self.new) }
    {
        if self.items == 0 {
            return Ok(());
        }
        add(&mut self.out, "\n")
    }

    // The path before an item, where there are several files.
    fn add_path(&mut self) -> Result<(), AllocError>
        ensures { OnOk result (AddsText (path_before self.old.manner.named self.old.path.now) self.old self.new) }
    {
        if !self.manner.named {
            return Ok(());
        }
        add(&mut self.out, self.path)?;
        add(&mut self.out, ": ")
    }

    fn begin_json(&mut self, item: &Item<'_>, sentence: &str) -> Result<(), AllocError>
        ensures { OnOk result (AddsText (heading_json self.old.path.now self.old.items
            (heading_of item.now sentence.now)) self.old self.new) }
    {
        let out = &mut self.out;
        add_file(out, self.path, self.items)?;
        add_extent(out, item)?;
        add_kind(out, item.kind, sentence)
    }

    fn add_colored(&mut self, color: &str, text: &str) -> Result<(), AllocError>
        ensures { OnOk result (AddsText (colored self.old.manner.colored color.now text.now) self.old self.new) }
    {
        if !self.manner.colored {
            return add(&mut self.out, text);
        }
        add(&mut self.out, color)?;
        add(&mut self.out, text)?;
        add(&mut self.out, PLAIN)
    }

    /// Ends an item with its fault. One with a fault is bad.
    pub(crate) fn end(&mut self, fault: &Option<Fault>) -> Result<(), AllocError>
        ensures { OnOk result (EndsItem fault.now (is_some fault.now) self.old self.new) }
    {
        self.end_with(fault, fault.is_some())
    }

    /// Ends an item that is none of what is known, and so is bad.
    pub(crate) fn end_as_bad(&mut self) -> Result<(), AllocError>
        ensures { OnOk result (EndsItem None true self.old self.new) }
    {
        self.end_with(&None, true)
    }

    /// Ends an item with its fault, and says whether it is bad.
    pub(crate) fn end_with(&mut self, fault: &Option<Fault>, is_bad: bool) -> Result<(), AllocError>
        ensures { OnOk result (EndsItem fault.now is_bad self.old self.new) }
    {
        self.has_bad = is_bad || self.has_bad;
        self.items = self.items.saturating_add(1);
        match self.manner.form {
            Form::Text => self.end_text(fault),
            Form::Brief => self.end_brief(fault),
            Form::Json => self.end_json(fault),
        }
    }

    fn end_text(&mut self, fault: &Option<Fault>) -> Result<(), AllocError>
        ensures { OnOk result (AddsText (end_as Form.Text self.old.manner fault.now) self.old self.new) }
    {
        let Some(fault) = fault else {
            return Ok(());
        };
        add(&mut self.out, "  ")?;
        self.add_fault(fault)?;
        add(&mut self.out, "\n")
    }

    fn end_brief(&mut self, fault: &Option<Fault>) -> Result<(), AllocError>
        ensures { OnOk result (AddsText (end_as Form.Brief self.old.manner fault.now) self.old self.new) }
    {
        if let Some(fault) = fault {
            add(&mut self.out, " - ")?;
            self.add_fault(fault)?;
        }
        add(&mut self.out, "\n")
    }

    // The place of a fault and its words.
    fn add_fault(&mut self, fault: &Fault) -> Result<(), AllocError>
        ensures { OnOk result (AddsText (fault_text self.old.manner fault.now) self.old self.new) }
    {
        self.add_colored(RED, "bad")?;
        add(&mut self.out, " at ")?;
        add_decimal(fault.at, &mut self.out)?;
        add(&mut self.out, ": ")?;
        add(&mut self.out, fault.says.as_str())
    }

    fn end_json(&mut self, fault: &Option<Fault>) -> Result<(), AllocError>
        ensures { OnOk result (AddsText (end_as Form.Json self.old.manner fault.now) self.old self.new) }
    {
        match fault {
            Some(fault) => add_bad_end(&mut self.out, fault),
            None => add(&mut self.out, "],\"bad\":null}\n"),
        }
    }

    /// Writes what is on the sheet, once it is a page.
    pub(crate) fn turn<P: Pages>(&mut self, pages: &mut P) -> Result<(), Stop>
        ensures turned { OnOk result (AddsGroups [] (P.written pages.old) (P.written pages.new) self.old self.new) }
        ensures cause { HasStop (P.failures pages.old) (P.failures pages.new) result }
        ensures stopped { OnErr result (GroupsBegun [] (P.written pages.old) (P.written pages.new) self.old) }
    {
        if self.out.len() < PAGE {
            return Ok(());
        }
        self.finish(pages)
    }

    /// Writes what is on the sheet.
    pub fn finish<P: Pages>(&mut self, pages: &mut P) -> Result<(), Stop>
        ensures written { OnOk result (AddsGroups [] (P.written pages.old) (P.written pages.new) self.old self.new) }
        ensures left { OnOk result (self.new.out.items ≡ []) }
        ensures cause { HasStop (P.failures pages.old) (P.failures pages.new) result }
        ensures stopped { OnErr result (GroupsBegun [] (P.written pages.old) (P.written pages.new) self.old) }
    {
        pages.write(&self.out)?;
        self.out.clear();
        Ok(())
    }
}

// The file, and how many items of it stand before.
fn add_file(out: &mut Vec<u8>, path: &str, count: u64) -> Result<(), AllocError>
    ensures { OnOk result (out.new.items ≡ out.old.items ++ file_json path.now count) }
{
    add(out, "{\"file\":")?;
    add_quoted(out, path)?;
    add(out, ",\"item\":")?;
    add_decimal(count, out)
}

// Where an item stands, and how many bytes it has.
fn add_extent(out: &mut Vec<u8>, item: &Item<'_>) -> Result<(), AllocError>
    ensures { OnOk result (out.new.items ≡ out.old.items ++ extent_json item.now.at (length item.now.bytes.now)) }
{
    add(out, ",\"at\":")?;
    add_number(out, item.at)?;
    add(out, ",\"bytes\":")?;
    add_decimal(item.bytes.len() as u64, out)
}

// The word of an item and its sentence.
fn add_kind(out: &mut Vec<u8>, kind: &str, sentence: &str) -> Result<(), AllocError>
    ensures { OnOk result (out.new.items ≡ out.old.items ++ kind_json kind.now sentence.now) }
{
    add(out, ",\"kind\":")?;
    add_quoted(out, kind)?;
    add(out, ",\"summary\":")?;
    add_quoted(out, sentence)?;
    add(out, ",\"groups\":[")
}

// How the object of a bad item ends.
fn add_bad_end(out: &mut Vec<u8>, fault: &Fault) -> Result<(), AllocError>
    ensures { OnOk result (out.new.items ≡ out.old.items ++ bad_json fault.now) }
{
    add(out, "],\"bad\":")?;
    add_fault_object(out, fault)?;
    add(out, "}\n")
}

fn add_fault_object(out: &mut Vec<u8>, fault: &Fault) -> Result<(), AllocError>
    ensures { OnOk result (out.new.items ≡ out.old.items ++ fault_json fault.now) }
{
    add(out, "{\"offset\":")?;
    add_decimal(fault.at, out)?;
    add(out, ",\"says\":")?;
    add_quoted(out, fault.says.as_str())?;
    add(out, "}")
}
