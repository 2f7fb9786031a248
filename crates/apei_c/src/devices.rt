// The calls on a device.
ghost use Rattle.std.specs.Prelude.{◌≡◌};
ghost use Rattle.apei_c.specs.Numbers.{window_of, width_of, addresses_of};
ghost use Rattle.apei_c.specs.Buffers.{told_change};
ghost use Rattle.apei_c.specs.Handles.{OnPort, LooksAt};
ghost use Rattle.apei_c.specs.Devices.{access_of, ReadsNumber, WritesNumber, GetsBytes, PutsBytes, Restarts, TellsChange, MakesChange, TellsTable, TellsRangeSize, TellsImage, MovesTo};

use crate::calls;
use crate::handle::Handle;
use crate::status::Status;
use crate::structs::{MediumChange, WindowAddresses};

/// Reads a number of a window.
#[unsafe(no_mangle)]
pub extern "C" fn apei_c_erst_read(
    erst: &mut Handle,
    window: u32,
    offset: u64,
    size: u32,
    value: &mut u64,
) -> u32
    ensures { LooksAt erst.old.owner.port result erst.new.owner.port
        (value.new ≡ value.old)
        (λ port status. ReadsNumber (access_of (window_of window) (width_of size) offset) port value.old status value.new) }
{
    let Some(port) = erst.port() else {
        return Status::Closed.number();
    };
    calls::read(port, window, offset, size, value).number()
}

/// Writes a number of a window.
#[unsafe(no_mangle)]
pub extern "C" fn apei_c_erst_write(
    erst: &mut Handle,
    window: u32,
    offset: u64,
    size: u32,
    value: u64,
) -> u32
    ensures { OnPort erst.old.owner.port result erst.new.owner.port
        (WritesNumber (access_of (window_of window) (width_of size) offset) value) }
{
    let Some(port) = erst.port() else {
        return Status::Closed.number();
    };
    calls::write(port, window, offset, size, value).number()
}

/// Reads bytes of the log range.
#[unsafe(no_mangle)]
pub extern "C" fn apei_c_erst_get(erst: &mut Handle, offset: u64, bytes: &mut [u8]) -> u32
    ensures { LooksAt erst.old.owner.port result erst.new.owner.port
        (bytes.new ≡ bytes.old)
        (λ port status. GetsBytes offset bytes.old port status bytes.new) }
{
    let Some(port) = erst.port() else {
        return Status::Closed.number();
    };
    calls::get(port, offset, bytes).number()
}

/// Writes bytes of the log range.
#[unsafe(no_mangle)]
pub extern "C" fn apei_c_erst_put(erst: &mut Handle, offset: u64, bytes: &[u8]) -> u32
    ensures { OnPort erst.old.owner.port result erst.new.owner.port (PutsBytes offset bytes.now) }
{
    let Some(port) = erst.port() else {
        return Status::Closed.number();
    };
    calls::put(port, offset, bytes).number()
}

/// The change that the medium has to make next, with the bytes that it programs.
#[unsafe(no_mangle)]
pub extern "C" fn apei_c_erst_change(
    erst: &mut Handle,
    change: &mut MediumChange,
    bytes: &mut [u8],
) -> u32
    ensures { LooksAt erst.old.owner.port result erst.new.owner.port
        ((change.new ≡ change.old) × (bytes.new ≡ bytes.old))
        (λ port status. TellsChange port (told_change change.old bytes.old) status (told_change change.new bytes.new)) }
{
    let Some(port) = erst.port() else {
        return Status::Closed.number();
    };
    calls::change(port, change, bytes).number()
}

/// Says that the medium has made it.
#[unsafe(no_mangle)]
pub extern "C" fn apei_c_erst_done(erst: &mut Handle) -> u32
    ensures { OnPort erst.old.owner.port result erst.new.owner.port MakesChange }
{
    let Some(port) = erst.port() else {
        return Status::Closed.number();
    };
    calls::done(port).number()
}

/// Restarts the device.
#[unsafe(no_mangle)]
pub extern "C" fn apei_c_erst_reset(erst: &mut Handle) -> u32
    ensures { OnPort erst.old.owner.port result erst.new.owner.port Restarts }
{
    let Some(port) = erst.port() else {
        return Status::Closed.number();
    };
    calls::reset(port).number()
}

/// The table for the addresses of the windows.
#[unsafe(no_mangle)]
pub extern "C" fn apei_c_erst_table(erst: &mut Handle, table: &mut [u8], size: &mut u64) -> u32
    ensures { LooksAt erst.old.owner.port result erst.new.owner.port
        ((table.new ≡ table.old) × (size.new ≡ size.old))
        (λ port status. TellsTable table.old port status table.new size.new) }
{
    let Some(port) = erst.port() else {
        return Status::Closed.number();
    };
    calls::table(port, table, size).number()
}

/// The size of the log range.
#[unsafe(no_mangle)]
pub extern "C" fn apei_c_erst_range_size(erst: &mut Handle, size: &mut u64) -> u32
    ensures { LooksAt erst.old.owner.port result erst.new.owner.port
        (size.new ≡ size.old)
        (λ port status. TellsRangeSize port status size.new) }
{
    let Some(port) = erst.port() else {
        return Status::Closed.number();
    };
    calls::range_size(port, size).number()
}

/// Bytes of the flash, by their places in the medium.
#[unsafe(no_mangle)]
pub extern "C" fn apei_c_erst_image(erst: &mut Handle, offset: u64, bytes: &mut [u8]) -> u32
    ensures { LooksAt erst.old.owner.port result erst.new.owner.port
        (bytes.new ≡ bytes.old)
        (λ port status. TellsImage offset bytes.old port status bytes.new) }
{
    let Some(port) = erst.port() else {
        return Status::Closed.number();
    };
    calls::image(port, offset, bytes).number()
}

/// Lets the windows begin at other addresses.
#[unsafe(no_mangle)]
pub extern "C" fn apei_c_erst_move(erst: &mut Handle, addresses: &WindowAddresses) -> u32
    ensures { OnPort erst.old.owner.port result erst.new.owner.port (MovesTo (addresses_of addresses.now)) }
{
    let Some(port) = erst.port() else {
        return Status::Closed.number();
    };
    calls::move_to(port, addresses).number()
}
