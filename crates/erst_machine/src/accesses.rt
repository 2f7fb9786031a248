// The accesses of the machine's areas, at a place that is found.
ghost use Rattle.std.specs.Prelude.{◌≡◌, ℕ, ◌+◌, ◌-◌, ◌/◌, ◌^◌, ◌<◌, ◌≤◌, List, true, length, Some, None, IfOk, MatchResult};
ghost use Rattle.apei_tables.specs.Access.{bits};
ghost use Rattle.ghes_ack.specs.Handovers.{HandoverState};
ghost use Rattle.erst_device.specs.DeviceState.{DeviceState};
ghost use Rattle.erst_machine.specs.Areas.{size_of, is_plain, IsPlaced};
ghost use Rattle.erst_machine.specs.Memories.{memory_of, HasSizes};
ghost use Rattle.erst_machine.specs.MachineState.{state_of, reach_in};
ghost use Rattle.erst_machine.specs.Allowed.{register_read, number_read, write_of, RegisterWritten, NumberWritten, bytes_read, bytes_stored, copy_fault, copy_of};

use crate::areas::{Area, Location, Register, register_at};
use crate::contents::Contents;
use apei_space::SpaceFault;
use apei_tables::Width;
use erst_device::Device;
use flash_model::Flash;

fn read_register<F: Flash>(
    device: &Device<F>,
    register: Register,
    at: u64,
    width: Width,
) -> Result<u64, SpaceFault>
    requires { register ≡ Register.Value → width ≡ Width.B64 }
    ensures value { (contents : Contents) (handover : HandoverState) (waited : ℕ)
        → result ≡ register_read register (state_of device.now contents handover waited) at width }
    ensures small { IfOk result (λ value. value < 2 ^ bits width) }
{
    match register {
        Register::Action => Ok(0),
        Register::Value => Ok(device.value()),
        Register::NoRegister => Err(SpaceFault::BadAccess { at, width }),
    }
}

fn read_area<F: Flash>(
    device: &Device<F>,
    contents: &Contents,
    area: Area,
    start: usize,
    at: u64,
    width: Width,
) -> Result<u64, SpaceFault>
    requires { (reach : ℕ) × HasSizes reach (memory_of contents.now) × (start + bits width / 8 ≤ size_of reach area) }
    ensures value { (handover : HandoverState) (waited : ℕ)
        → result ≡ number_read (Location.Inside area start) (state_of device.now contents.now handover waited) at width }
    ensures small { IfOk result (λ value. value < 2 ^ bits width) }
{
    match area {
        Area::Device => read_register(device, register_at(start, width), at, width),
        _ => Ok(contents.number(area, start, width)),
    }
}

/// A read of a number.
pub fn read_number<F: Flash>(
    device: &Device<F>,
    contents: &Contents,
    location: Location,
    at: u64,
    width: Width,
) -> Result<u64, SpaceFault>
    requires { (reach : ℕ) × HasSizes reach (memory_of contents.now) × IsPlaced reach (bits width / 8) location }
    ensures value { (handover : HandoverState) (waited : ℕ)
        → result ≡ number_read location (state_of device.now contents.now handover waited) at width }
    ensures small { IfOk result (λ value. value < 2 ^ bits width) }
{
    match location {
        Location::Inside(area, start) => read_area(device, contents, area, start, at, width),
        Location::Beyond(_, address) | Location::Nowhere(address) => {
            Err(SpaceFault::Unmapped { at: address })
        }
    }
}

fn write_register<F: Flash>(
    device: &mut Device<F>,
    contents: &mut Contents,
    register: Register,
    at: u64,
    width: Width,
    value: u64,
) -> Result<(), SpaceFault>
    requires { length contents.old.range.items ≡ reach_in device.old }
    ensures { (handover : HandoverState) (waited : ℕ)
        → RegisterWritten F.tells register (state_of device.old contents.old handover waited)
        (write_of at width value result) (state_of device.new contents.new handover waited) }
{
    match register {
        Register::Action => {
            contents.range_written = true;
            device.action((value % (1 << 32)) as u32, &mut contents.range);
            Ok(())
        }
        Register::Value => {
            device.set_value(value);
            Ok(())
        }
        Register::NoRegister => Err(SpaceFault::BadAccess { at, width }),
    }
}

fn write_area<F: Flash>(
    device: &mut Device<F>,
    contents: &mut Contents,
    area: Area,
    start: usize,
    at: u64,
    width: Width,
    value: u64,
) -> Result<(), SpaceFault>
    requires sizes { HasSizes (reach_in device.old) (memory_of contents.old) }
    requires placed { start + bits width / 8 ≤ size_of (reach_in device.old) area }
    ensures { (handover : HandoverState) (waited : ℕ)
        → NumberWritten F.tells (Location.Inside area start) (state_of device.old contents.old handover waited)
        (write_of at width value result) (state_of device.new contents.new handover waited) }
{
    match area {
        Area::Device => write_register(
            device,
            contents,
            register_at(start, width),
            at,
            width,
            value,
        ),
        Area::Handover | Area::BootErrors => Err(SpaceFault::BadAccess { at, width }),
        Area::Scratch | Area::LogRange | Area::Ports => {
            contents.put_number(area, start, width, value);
            Ok(())
        }
    }
}

/// A write of a number.
pub fn write_number<F: Flash>(
    device: &mut Device<F>,
    contents: &mut Contents,
    location: Location,
    at: u64,
    width: Width,
    value: u64,
) -> Result<(), SpaceFault>
    requires sizes { HasSizes (reach_in device.old) (memory_of contents.old) }
    requires placed { IsPlaced (reach_in device.old) (bits width / 8) location }
    ensures { (handover : HandoverState) (waited : ℕ)
        → NumberWritten F.tells location (state_of device.old contents.old handover waited)
        (write_of at width value result) (state_of device.new contents.new handover waited) }
{
    match location {
        Location::Inside(area, start) => write_area(
            device, contents, area, start, at, width, value,
        ),
        Location::Beyond(_, address) | Location::Nowhere(address) => {
            Err(SpaceFault::Unmapped { at: address })
        }
    }
}

fn read_area_bytes(
    contents: &Contents,
    area: Area,
    start: usize,
    at: u64,
    out: &mut [u8],
) -> Result<(), SpaceFault>
    requires { (reach : ℕ) × HasSizes reach (memory_of contents.now) × (start + length out.old ≤ size_of reach area) }
    ensures { (device : DeviceState) (handover : HandoverState) (waited : ℕ)
        → let outcome = bytes_read (Location.Inside area start) (state_of device contents.now handover waited) at out.old
        in (result ≡ outcome.0) × (out.new ≡ outcome.1) }
{
    match area {
        Area::Device => Err(SpaceFault::BadAccess {
            at,
            width: Width::B8,
        }),
        _ => {
            contents.part(area, start, out);
            Ok(())
        }
    }
}

/// A read of bytes.
pub fn read_bytes(
    contents: &Contents,
    location: Location,
    at: u64,
    out: &mut [u8],
) -> Result<(), SpaceFault>
    requires { (reach : ℕ) × HasSizes reach (memory_of contents.now) × IsPlaced reach (length out.old) location }
    ensures { (device : DeviceState) (handover : HandoverState) (waited : ℕ)
        → let outcome = bytes_read location (state_of device contents.now handover waited) at out.old
        in (result ≡ outcome.0) × (out.new ≡ outcome.1) }
{
    match location {
        Location::Inside(area, start) => read_area_bytes(contents, area, start, at, out),
        Location::Beyond(_, address) | Location::Nowhere(address) => {
            Err(SpaceFault::Unmapped { at: address })
        }
    }
}

fn write_area_bytes(
    contents: &mut Contents,
    area: Area,
    start: usize,
    at: u64,
    bytes: &[u8],
) -> Result<(), SpaceFault>
    requires { (reach : ℕ) × HasSizes reach (memory_of contents.old) × (start + length bytes.now ≤ size_of reach area) }
    ensures { (device : DeviceState) (handover : HandoverState) (waited : ℕ)
        → let outcome = bytes_stored (Location.Inside area start) (state_of device contents.old handover waited) at bytes.now
        in (result ≡ outcome.0) × (state_of device contents.new handover waited ≡ outcome.1) }
{
    match area {
        Area::Device | Area::Handover | Area::BootErrors => Err(SpaceFault::BadAccess {
            at,
            width: Width::B8,
        }),
        Area::Scratch | Area::LogRange | Area::Ports => {
            contents.put_part(area, start, bytes);
            Ok(())
        }
    }
}

/// A write of bytes.
pub fn write_bytes(
    contents: &mut Contents,
    location: Location,
    at: u64,
    bytes: &[u8],
) -> Result<(), SpaceFault>
    requires { (reach : ℕ) × HasSizes reach (memory_of contents.old) × IsPlaced reach (length bytes.now) location }
    ensures { (device : DeviceState) (handover : HandoverState) (waited : ℕ)
        → let outcome = bytes_stored location (state_of device contents.old handover waited) at bytes.now
        in (result ≡ outcome.0) × (state_of device contents.new handover waited ≡ outcome.1) }
{
    match location {
        Location::Inside(area, start) => write_area_bytes(contents, area, start, at, bytes),
        Location::Beyond(_, address) | Location::Nowhere(address) => {
            Err(SpaceFault::Unmapped { at: address })
        }
    }
}

/// The place of a copy's source or target in plain memory.
#[inline(always)]
fn plain_place(location: Location, at: u64) -> Result<(Area, usize), SpaceFault>
    ensures { MatchResult result (λ place. (copy_fault location at ≡ None)
        × (location ≡ Location.Inside place.0 place.1) × (is_plain place.0 ≡ true))
        (λ fault. copy_fault location at ≡ Some fault) }
{
    match location {
        Location::Inside(area, start) => {
            if area.is_plain() {
                Ok((area, start))
            } else {
                Err(SpaceFault::NotMemory { at })
            }
        }
        Location::Beyond(area, address) => {
            if area.is_plain() {
                Err(SpaceFault::Unmapped { at: address })
            } else {
                Err(SpaceFault::NotMemory { at })
            }
        }
        Location::Nowhere(address) => Err(SpaceFault::Unmapped { at: address }),
    }
}

/// A copy of `n` bytes.
#[inline(always)]
pub fn copy_bytes(
    contents: &mut Contents,
    source: Location,
    target: Location,
    from: u64,
    to: u64,
    n: usize,
) -> Result<(), SpaceFault>
    requires { (reach : ℕ) × HasSizes reach (memory_of contents.old) × IsPlaced reach n source
        × IsPlaced reach n target }
    ensures { (device : DeviceState) (handover : HandoverState) (waited : ℕ)
        → let outcome = copy_of source target (state_of device contents.old handover waited) from to n
        in (result ≡ outcome.0) × (state_of device contents.new handover waited ≡ outcome.1) }
{
    let (source, start) = plain_place(source, from)?;
    let (target, place) = plain_place(target, to)?;
    contents.copy(source, start, target, place, n);
    Ok(())
}
