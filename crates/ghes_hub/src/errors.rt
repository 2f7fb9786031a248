// Why a hub is not opened.
ghost use Rattle.std.specs.Prelude.{◌≡◌};
ghost use Rattle.ghes_hub.specs.declared.errors.HubError.TheVariants.{Memory as WantOfMemory};

use apei_bytes::OutOfMemory;
use apei_notify::Listener;
use std::alloc::AllocError;

/// The first reason that applies. Sources are counted from 0 in table order, those of other types left out.
#[derive(Clone, Copy, Debug, PartialEq, Eq)]
pub enum HubError {
    /// There is no generic source.
    NoSource,
    /// There are more than 16.
    Many { found: u64 },
    /// The length of a source's block is below 20 or above 4,096.
    BlockLen { index: u64, len: u64 },
    /// The register of the block's address isn't 64 bits of memory at offset 0.
    Status { index: u64 },
    /// The acknowledge register is none, or no bit of its mask lies in its access, or one lies outside.
    Ack { index: u64 },
    /// Bytes of the source overlap others, or the last one stands too high.
    Clash { index: u64 },
    /// There was no memory.
    Memory,
}

impl From<AllocError> for HubError {
    ghost from_gives = { λ _ error. error ≡ WantOfMemory };

    fn from(_: AllocError) -> Self {
        HubError::Memory
    }
}

impl From<OutOfMemory> for HubError {
    ghost from_gives = { λ _ error. error ≡ WantOfMemory };

    fn from(_: OutOfMemory) -> Self {
        HubError::Memory
    }
}

/// A hub that is not opened, and the listeners in their order.
#[derive(Drop)]
pub struct HubRefused {
    pub why: HubError,
    pub listeners: Vec<Box<dyn Listener>>,
}
