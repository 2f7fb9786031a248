// The port.
ghost use Rattle.std.specs.Prelude.{◌≡◌, length};
ghost use Rattle.flash_model.specs.Layouts.{layout_of};
ghost use Rattle.erst_port.specs.PortState.{flash_of};

use crate::MirrorFlash;
use crate::parts::Made;
use crate::windows::Addresses;
use erst_device::Device;
use flash_model::Geometry;
use std::marker::Model;

/// An error record device over a flash in memory, its log range and its table, and how much of the flash's changes the medium has made.
#[derive(Drop)]
pub struct Port {
    pub(crate) device: Device<MirrorFlash>,
    pub(crate) range: Vec<u8>,
    pub(crate) table: Vec<u8>,
    pub(crate) addresses: Addresses,
    pub(crate) origin: usize,
    pub(crate) made: Made,
}

impl Model for Port {
    ghost use Rattle.erst_port.specs.PortState.{PortState, IsPort, state_of};

    ghost Value = { PortState };

    ghost view = { λ port. state_of port.device port.range.items port.table.items port.addresses port.origin port.made };

    ghost invariant = { λ port. IsPort (state_of port.device port.range.items port.table.items port.addresses port.origin port.made) };
}

impl Port {
    /// The Error Record Serialization Table for the port's addresses.
    pub fn table(&self) -> &[u8]
        ensures { result.now ≡ self.now.table }
    {
        &self.table
    }

    /// Where the windows begin.
    pub fn addresses(&self) -> Addresses
        ensures { result ≡ self.now.addresses }
    {
        self.addresses
    }

    /// The bytes of the log range: those of the longest record.
    pub fn range_len(&self) -> usize
        ensures { result ≡ length self.now.range }
    {
        self.range.len()
    }

    /// How many bytes of the medium stand before the flash.
    pub fn origin(&self) -> usize
        ensures { result ≡ self.now.origin }
    {
        self.origin
    }

    /// How the store divides its flash.
    pub fn geometry(&self) -> Geometry
        ensures { layout_of result ≡ self.now.device.store.layout }
    {
        *self.device.store().geometry()
    }

    /// The bytes of the flash as they stand after every change.
    pub fn image(&self) -> &[u8]
        ensures { result.now ≡ (flash_of self.now).told.image }
    {
        self.device.store().flash().image()
    }
}
