// The bridge.
ghost use Rattle.std.specs.Prelude.{◌≡◌, ◌≢◌, ◌≤◌, ◌<◌, ◌↔◌, ◌-◌, ◌^◌, ℕ, List, length, take, drop, IfOk, IsTrue};
ghost use Rattle.erst_bridge.specs.BridgedRecord.{bridged};
ghost use Rattle.erst_bridge.specs.declared.stages.BridgeStage.TheVariants.{Holding as IsHolding};
ghost use Rattle.erst_bridge.specs.Bridges.{Off, Awaits, Holds, station_rules, asker_of, Bridges, state_of, HasRecord, after_reader, after_offer, IsStored};
ghost use Rattle.erst_bridge.specs.Causes.{OfEvent};

use crate::events::BridgeEvent;
use crate::record::make_record;
use crate::stages::BridgeStage;
use apei_bytes::OutOfMemory;
use erst_client::Client;
use erst_interp::Budget;
use ghes_ack::{Event, Station};
use record_slots::RecordId;
use std::alloc::Global;
use std::marker::Model;

/// The bytes of the record of the longest block.
const LONGEST: usize = 4296;

/// Makes the turns of a station's reader, and has a client store each block that the reader takes before the reader goes on.
///
/// While it is on, the reader is to make no other turn, and is to be idle at the first one: see `a_bridge_stays_in_step`.
#[derive(Drop)]
pub struct Bridge {
    stage: BridgeStage,
    /// The identifier of the block that is held, or else of the next one that is taken.
    id: u64,
    /// How many bytes the record of the held block has.
    size: usize,
    bytes: Vec<u8>,
}

impl Model for Bridge {
    ghost use Rattle.std.specs.Prelude.{◌≡◌, ◌≤◌, take, vec_len};
    ghost use Rattle.erst_bridge.specs.Bridges.{BridgeState, state_of, HasRecord};

    ghost Value = { BridgeState };

    ghost view = { λ b. state_of b.stage b.id (take b.size b.bytes.items) };

    ghost invariant = { λ b. (vec_len b.bytes ≡ 4296) × (b.size ≤ 4296) × HasRecord b.stage b.id (take b.size b.bytes.items) };
}

impl Bridge {
    /// A bridge that is off, with room for the record of the longest block. No other call takes memory.
    pub fn new(alloc: Global) -> Result<Bridge, OutOfMemory>
        ensures { IfOk result (λ bridge. bridge ≡ Off) }
    {
        Ok(Bridge {
            stage: BridgeStage::Closed,
            id: 0,
            size: 0,
            bytes: vec![in alloc; 0u8; LONGEST]?,
        })
    }

    /// Turns it on: the first block that is stored gets this identifier, and each further one the next.
    pub fn enter(&mut self, first: RecordId)
        requires { self.old ≡ Off }
        ensures { self.new ≡ Awaits first }
    {
        self.stage = BridgeStage::Awaiting;
        self.id = first.get();
    }

    /// Turns it off. A block that it holds is let go.
    pub fn leave(&mut self)
        ensures { self.new ≡ Off }
    {
        self.stage = BridgeStage::Closed;
    }

    /// Whether it is on.
    pub fn is_on(&self) -> bool
        ensures { IsTrue result ↔ (self.now ≢ Off) }
    {
        self.stage != BridgeStage::Closed
    }

    /// One turn: of the reader, or, while a block is held, a write of its record by the client. `Kept` leaves the block held, so that
    /// the next turn tries again under the same identifier; `Out` makes no access at all.
    pub fn turn<S: Station>(
        &mut self,
        client: &mut Client,
        budget: &mut Budget,
        station: &mut S,
    ) -> BridgeEvent
        requires { self.old ≢ Off }
        ensures bridges { Bridges (station_rules S.state S.allows S.reads S.last) (asker_of client.old budget.old)
            station.old self.old result (record { bridge = self.new; left = budget.new; station = station.new }) }
        ensures on { self.new ≢ Off }
        ensures client { client.new ≡ client.old }
        // A fault of the device is the reason of `Kept` only where the space's count of faults rose.
        ensures cause { OfEvent (S.faults (S.state station.old)) (S.faults (S.state station.new)) result }
    {
        match self.stage {
            BridgeStage::Holding => {
                let event = offer(&self.bytes[..self.size], self.id, client, budget, station);
                settle(&event, &mut self.stage, &mut self.id);
                event
            }
            _ => {
                let event = turn_reader(
                    &mut self.stage,
                    self.id,
                    &mut self.size,
                    &mut self.bytes,
                    station,
                );
                BridgeEvent::Line(event)
            }
        }
    }
}

/// A turn of the reader. The record of a block that it takes is made, and held.
fn turn_reader<S: Station>(
    stage: &mut BridgeStage,
    id: u64,
    size: &mut usize,
    bytes: &mut [u8],
    station: &mut S,
) -> Event
    requires room { length bytes.old ≡ 4296 }
    requires within { size.old ≤ 4296 }
    requires named { 0 < id }
    requires has { HasRecord stage.old id (take size.old bytes.old) }
    ensures reads { S.reads station.old result station.new }
    ensures state { state_of stage.new id (take size.new bytes.new) ≡ after_reader result id (S.last station.new)
        (state_of stage.old id (take size.old bytes.old)) }
    ensures within { size.new ≤ 4296 }
    ensures has { HasRecord stage.new id (take size.new bytes.new) }
{
    let event = station.reader_turn();
    match event {
        Event::Took => {
            *size = make_record(bytes, station.taken(), id);
            *stage = BridgeStage::Holding;
        }
        Event::Ack => *stage = BridgeStage::Awaiting,
        _ => {}
    }
    event
}

/// Has a client write the record of a held block, where there is an identifier for it.
fn offer<S: Station>(
    bytes: &[u8],
    id: u64,
    client: &mut Client,
    budget: &mut Budget,
    station: &mut S,
) -> BridgeEvent
    requires { 0 < id }
    ensures bridges { (block : List ℕ) → bytes.now ≡ bridged block id
        → Bridges (station_rules S.state S.allows S.reads S.last) (asker_of client.old budget.old)
        station.old (Holds id block) result (record { bridge = after_offer result id block; left = budget.new; station = station.new }) }
    ensures client { client.new ≡ client.old }
    ensures cause { OfEvent (S.faults (S.state station.old)) (S.faults (S.state station.new)) result }
{
    let Some(name) = RecordId::new(id) else {
        return BridgeEvent::Out;
    };
    match client.write(bytes, budget, station) {
        Ok(()) => BridgeEvent::Stored { id: name },
        Err(error) => BridgeEvent::Kept(error),
    }
}

/// What a try to store the held block leaves: only behind one that stored it the reader goes on, and the identifier is used up.
fn settle(event: &BridgeEvent, stage: &mut BridgeStage, id: &mut u64)
    requires holding { stage.old ≡ IsHolding }
    requires spare { IsStored event.now → id.old < 2 ^ 64 - 1 }
    ensures state { (bytes : List ℕ) → state_of stage.new id.new bytes ≡ after_offer event.now id.old (drop 200 bytes) }
    ensures has { (bytes : List ℕ) → HasRecord stage.old id.old bytes → HasRecord stage.new id.new bytes }
{
    match *event {
        BridgeEvent::Stored { .. } => {
            *stage = BridgeStage::Releasing;
            *id += 1;
        }
        BridgeEvent::Kept(_) => {}
        BridgeEvent::Out => {}
        BridgeEvent::Line(_) => {}
    }
}
