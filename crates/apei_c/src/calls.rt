// The calls on a port, each with its status.
ghost use Rattle.std.specs.Prelude.{◌≡◌};
ghost use Rattle.apei_c.specs.Numbers.{window_of, width_of, addresses_of};
ghost use Rattle.apei_c.specs.Buffers.{told_change};
ghost use Rattle.apei_c.specs.Devices.{access_of, ReadsNumber, WritesNumber, GetsBytes, PutsBytes, Restarts, TellsChange, MakesChange, TellsTable, TellsRangeSize, TellsImage, MovesTo, HandsDue, number_of_kind};

use crate::buffers::fill;
use crate::numbers::{addresses_of, width_of, window_of};
use crate::status::Status;
use crate::structs::{MediumChange, WindowAddresses};
use apei_space::get_part;
use erst_port::{Due, Kind, Port};

pub fn read(port: &Port, window: u32, offset: u64, size: u32, value: &mut u64) -> Status
    ensures { ReadsNumber (access_of (window_of window) (width_of size) offset) port.now value.old result value.new }
{
    let Some(window) = window_of(window) else {
        return Status::Window;
    };
    let Some(width) = width_of(size) else {
        return Status::Access;
    };
    match port.read(window, offset, width) {
        Ok(number) => {
            *value = number;
            Status::Done
        }
        Err(error) => Status::of_access(Err(error)),
    }
}

pub fn write(port: &mut Port, window: u32, offset: u64, size: u32, value: u64) -> Status
    ensures { WritesNumber (access_of (window_of window) (width_of size) offset) value port.old result port.new }
{
    let Some(window) = window_of(window) else {
        return Status::Window;
    };
    let Some(width) = width_of(size) else {
        return Status::Access;
    };
    Status::of_access(port.write(window, offset, width, value))
}

pub fn get(port: &Port, offset: u64, bytes: &mut [u8]) -> Status
    ensures { GetsBytes offset bytes.old port.now result bytes.new }
{
    Status::of_access(port.get(offset, bytes))
}

pub fn put(port: &mut Port, offset: u64, bytes: &[u8]) -> Status
    ensures { PutsBytes offset bytes.now port.old result port.new }
{
    Status::of_access(port.put(offset, bytes))
}

pub fn reset(port: &mut Port) -> Status
    ensures { Restarts port.old result port.new }
{
    Status::of_access(port.reset())
}

pub fn done(port: &mut Port) -> Status
    ensures { MakesChange port.old result port.new }
{
    match port.note_made() {
        Ok(()) => Status::Done,
        Err(_) => Status::Nothing,
    }
}

fn number_of_kind(kind: Kind) -> u32
    ensures { result ≡ number_of_kind kind }
{
    match kind {
        Kind::Program => 0,
        Kind::Erase => 1,
    }
}

fn hand_out(due: &Due<'_>, bytes: &mut [u8]) -> bool
    ensures { HandsDue due.now.kind due.now.bytes.now bytes.old result bytes.new }
{
    match due.kind {
        Kind::Program => fill(bytes, due.bytes),
        Kind::Erase => true,
    }
}

pub fn change(port: &Port, change: &mut MediumChange, bytes: &mut [u8]) -> Status
    ensures { TellsChange port.now (told_change change.old bytes.old) result (told_change change.new bytes.new) }
{
    let Some(due) = port.next_due() else {
        return Status::Nothing;
    };
    if due.bytes.len() > u32::MAX as usize {
        return Status::Short;
    }
    if !hand_out(&due, bytes) {
        return Status::Short;
    }
    *change = MediumChange {
        offset: due.at as u64,
        length: due.bytes.len() as u32,
        kind: number_of_kind(due.kind),
    };
    Status::Done
}

pub fn table(port: &Port, table: &mut [u8], size: &mut u64) -> Status
    ensures { TellsTable table.old port.now result table.new size.new }
{
    let found = port.table();
    *size = found.len() as u64;
    if fill(table, found) {
        Status::Done
    } else {
        Status::Short
    }
}

pub fn range_size(port: &Port, size: &mut u64) -> Status
    ensures { TellsRangeSize port.now result size.new }
{
    *size = port.range_len() as u64;
    Status::Done
}

pub fn image(port: &Port, offset: u64, bytes: &mut [u8]) -> Status
    ensures { TellsImage offset bytes.old port.now result bytes.new }
{
    let origin = port.origin() as u64;
    let image = port.image();
    if offset < origin {
        return Status::Access;
    }
    let at = offset - origin;
    let len = image.len() as u64;
    if at > len || bytes.len() as u64 > len - at {
        return Status::Access;
    }
    get_part(image, at as usize, bytes);
    Status::Done
}

pub fn move_to(port: &mut Port, addresses: &WindowAddresses) -> Status
    ensures { MovesTo (addresses_of addresses.now) port.old result port.new }
{
    match port.move_to(addresses_of(addresses)) {
        Ok(()) => Status::Done,
        Err(_) => Status::Addresses,
    }
}
