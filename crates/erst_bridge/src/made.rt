// What turns did.
use crate::BridgeEvent;
use ghes_ack::Event;

/// What a turn did, of the firmware or of the bridge.
#[derive(Clone, Copy, Debug, PartialEq, Eq)]
pub enum SideTurn {
    Firmware(Event),
    Bridge(BridgeEvent),
}

/// A turn, and how many changes of the flash were made when it ended.
#[derive(Clone, Copy, Debug, PartialEq, Eq)]
pub struct MadeTurn {
    pub turn: SideTurn,
    pub step: u64,
}
