// The windows of a handover without a read acknowledgement.
ghost use Rattle.std.specs.Prelude.{◌≡◌};
ghost use Rattle.ghes_ack.specs.Windows.{HasAddressed, with_address_at};
ghost use Rattle.ghes_hub.specs.Plain.{plain_started};

use apei_space::{Ram, Space};
use apei_tables::{Place, Width};
use ghes_ack::{BlockWindow, HasWindow, MayWrite, MustLook, begin};

/// The 8 bytes at `status` hold the address of the block's window.
#[derive(Clone, Copy)]
pub struct PlainMap {
    pub status: u64,
    pub window: BlockWindow,
}

impl HasWindow for PlainMap {
    ghost window_of = { λ map. map.window };

    #[inline(always)]
    fn window(&self) -> BlockWindow {
        self.window
    }
}

impl PlainMap {
    /// Begins a handover: writes the block's address, and sets the block status to 0.
    pub fn begin(&self, ram: &mut Ram) -> (MayWrite, MustLook)
        requires { HasAddressed self.now.status self.now.window ram.old }
        ensures { ram.new ≡ plain_started self.now ram.old }
    {
        self.write_address(ram);
        begin(self, ram)
    }

    /// Writes the block's address.
    fn write_address(&self, ram: &mut Ram)
        ensures { ram.new ≡ with_address_at self.now.status self.now.window ram.old }
    {
        let _ = ram.write(Place::Memory(self.status), Width::B64, self.window.block);
    }
}
