// Other addresses of a port.
ghost use Rattle.erst_port.specs.Moves.{Moves};

use crate::errors::BadAddresses;
use crate::port::Port;
use crate::table::put_table;
use crate::windows::Addresses;

impl Port {
    /// Lets the windows begin at other addresses, as when those of a PCI device are moved: the table is another then. It takes no memory.
    pub fn move_to(&mut self, addresses: Addresses) -> Result<(), BadAddresses>
        ensures { Moves self.old addresses result self.new }
    {
        if !addresses.are_apart(self.range.len() as u64) {
            return Err(BadAddresses);
        }
        put_table(&mut self.table, addresses.registers);
        self.addresses = addresses;
        Ok(())
    }
}
