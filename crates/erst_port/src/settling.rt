// An execution that is ended without its client.
ghost use Rattle.std.specs.Prelude.{◌≡◌, true, false};
ghost use Rattle.erst_device.specs.DeviceState.{IsStill, IsRunning};
ghost use Rattle.erst_port.specs.Settling.{Polls, Settles};

use crate::errors::PortError;
use crate::port::Port;
use erst_device::Running;
use erst_entries::Action;

impl Port {
    /// Has the execution that runs go on, as one poll of the client would (CHECK_BUSY_STATUS, ACPI 6.4, section 18.5.1.1): whether one ran. A
    /// change may be due after it. VALUE stays, so the client sees of it no more than that its next poll finds the execution further on, or
    /// ended.
    pub fn settle(&mut self) -> Result<bool, PortError>
        ensures { Settles self.old result self.new }
    {
        if self.is_due() {
            return Err(PortError::Due);
        }
        if !self.runs() {
            return Ok(false);
        }
        self.poll()?;
        Ok(true)
    }

    // Whether an execution runs.
    fn runs(&self) -> bool
        ensures runs { result ≡ true → IsRunning self.now.device }
        ensures still { result ≡ false → IsStill self.now.device }
    {
        let registers = self.device.registers();
        match registers.running {
            Running::Nothing => false,
            _ => true,
        }
    }

    // CHECK_BUSY_STATUS, with VALUE as it was.
    fn poll(&mut self) -> Result<(), PortError>
        ensures { Polls self.old result self.new }
    {
        let value = self.device.value();
        self.act(u32::from(Action::CheckBusyStatus.code()))?;
        self.device.set_value(value);
        Ok(())
    }
}
