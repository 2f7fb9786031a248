// What holds of every port. The functions do nothing, and their clauses say it.
ghost use Rattle.erst_entries.specs.Tables.{IsErst};
ghost use Rattle.erst_port.specs.LastCount.{FailsLast};
ghost use Rattle.erst_port.specs.PortState.{flash_of};
ghost use Rattle.erst_port.specs.PortTables.{port_erst};

use crate::port::Port;

impl Port {
    /// Its flash has failed nothing as long as one more change can be counted.
    pub fn fails_last(&self)
        ensures { FailsLast (flash_of self.now) }
    {
        self.device.store().flash().fails_last()
    }

    /// Its table is an Error Record Serialization Table (ACPI 6.4, section 18.5.1), wherever its windows stand: the checksum counts, and each
    /// entry names the registers of these windows.
    pub fn table_is_erst(&self)
        ensures { IsErst (port_erst self.now.addresses.registers) self.now.table }
    {
        let _ = &self.table;
    }
}
