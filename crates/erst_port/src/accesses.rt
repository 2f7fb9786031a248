// The accesses of a port.
ghost use Rattle.std.specs.Prelude.{◌≡◌, ◌<◌, ◌≤◌, ◌^◌, length, IfOk};
ghost use Rattle.apei_tables.specs.Access.{bits};
ghost use Rattle.erst_port.specs.Places.{range_location, location_of};
ghost use Rattle.erst_port.specs.Accesses.{number_read, NumberWritten, ActionWritten, bytes_read, bytes_stored, Resets};

use crate::acting::{act, reset};
use crate::errors::PortError;
use crate::port::Port;
use crate::windows::{Location, Window, location_of, range_location};
use apei_space::{get_number, get_part, put_number, put_part};
use apei_tables::Width;

const HALF: u64 = 1 << 32;

impl Port {
    /// The number at an offset of a window.
    pub fn read(&self, window: Window, offset: u64, width: Width) -> Result<u64, PortError>
        ensures value { result ≡ number_read (location_of window (length self.now.range) offset width) self.now width }
        ensures small { IfOk result (λ value. value < 2 ^ bits width) }
    {
        match location_of(window, self.range.len(), offset, width) {
            Location::Action => Ok(0),
            Location::Value => Ok(self.device.value()),
            Location::LowHalf => Ok(self.device.value() % HALF),
            Location::HighHalf => Ok(self.device.value() / HALF),
            Location::Bytes(start) => Ok(get_number(&self.range, start, width)),
            Location::Nowhere => Err(PortError::BadAccess),
        }
    }

    /// Writes a number at an offset of a window. A code that is written to ACTION makes at most one change of the flash. While a
    /// change is due, ACTION takes none.
    pub fn write(
        &mut self,
        window: Window,
        offset: u64,
        width: Width,
        value: u64,
    ) -> Result<(), PortError>
        ensures { NumberWritten (location_of window (length self.old.range) offset width) self.old width value result
            self.new }
    {
        match location_of(window, self.range.len(), offset, width) {
            Location::Action => self.act((value % HALF) as u32),
            Location::Value => {
                self.device.set_value(value);
                Ok(())
            }
            Location::LowHalf => {
                self.device.set_value(value % HALF);
                Ok(())
            }
            Location::HighHalf => {
                let low = self.device.value() % HALF;
                self.device.set_value(HALF * (value % HALF) + low);
                Ok(())
            }
            Location::Bytes(start) => {
                put_number(&mut self.range, start, width, value);
                Ok(())
            }
            Location::Nowhere => Err(PortError::BadAccess),
        }
    }

    // Carries out the action of a code.
    #[inline(never)]
    pub(crate) fn act(&mut self, code: u32) -> Result<(), PortError>
        ensures { ActionWritten self.old code result self.new }
    {
        if self.is_due() {
            return Err(PortError::Due);
        }
        act(
            &mut self.device,
            &mut self.range,
            self.addresses.range,
            code,
        );
        Ok(())
    }

    /// Reads bytes of the log range, from an offset on.
    pub fn get(&self, offset: u64, out: &mut [u8]) -> Result<(), PortError>
        ensures answer { result ≡ (bytes_read (range_location (length self.now.range) offset (length out.old))
            self.now out.old).0 }
        ensures bytes { out.new ≡ (bytes_read (range_location (length self.now.range) offset (length out.old))
            self.now out.old).1 }
    {
        match range_location(self.range.len(), offset, out.len()) {
            Location::Bytes(start) => {
                get_part(&self.range, start, out);
                Ok(())
            }
            _ => Err(PortError::BadAccess),
        }
    }

    /// Writes bytes of the log range, from an offset on.
    pub fn put(&mut self, offset: u64, bytes: &[u8]) -> Result<(), PortError>
        ensures answer { result ≡ (bytes_stored (range_location (length self.old.range) offset (length bytes.now))
            self.old bytes.now).0 }
        ensures port { self.new ≡ (bytes_stored (range_location (length self.old.range) offset (length bytes.now))
            self.old bytes.now).1 }
    {
        match range_location(self.range.len(), offset, bytes.len()) {
            Location::Bytes(start) => {
                put_part(&mut self.range, start, bytes);
                Ok(())
            }
            _ => Err(PortError::BadAccess),
        }
    }

    /// Restarts the device: nothing is begun then, and all registers are 0. It makes no change, but that it may end a second copy, by one
    /// change. While a change is due it does nothing.
    pub fn reset(&mut self) -> Result<(), PortError>
        ensures { Resets self.old result self.new }
    {
        if self.is_due() {
            return Err(PortError::Due);
        }
        match reset(&mut self.device) {
            Ok(()) => Ok(()),
            Err(_) => Err(PortError::Flash),
        }
    }
}
