// Demands as C sees them.
ghost use Rattle.std.specs.Prelude.{◌≡◌};
ghost use Rattle.apei_c.specs.ClientCalls.{bytes_in, register_demand, access_demand, demand_of, order_of, answer_of, range_of};

use crate::client_structs::{ClientDemand, ClientRange};
use apei_space::SpaceFault;
use apei_tables::{Place, Width};
use erst_client::FoundRange;
use erst_interp::Demand;
use erst_session::{Order, WorkDemand};

fn bytes_in(width: Width) -> u64
    ensures { result ≡ bytes_in width }
{
    match width {
        Width::B8 => 1,
        Width::B16 => 2,
        Width::B32 => 4,
        Width::B64 => 8,
    }
}

fn register_demand(place: Place, width: Width, value: u64, kind: u32) -> ClientDemand
    ensures { result ≡ register_demand place width value kind }
{
    let (address, space) = match place {
        Place::Memory(at) => (at, 0),
        Place::Io(at) => (at, 1),
    };
    ClientDemand {
        address,
        value,
        length: bytes_in(width),
        kind,
        space,
    }
}

fn memory_demand(address: u64, value: u64, length: u64, kind: u32) -> ClientDemand
    ensures { result ≡ record { address = address; value = value; length = length; kind = kind; space = 0 } }
{
    ClientDemand {
        address,
        value,
        length,
        kind,
        space: 0,
    }
}

fn access_demand(demand: Demand) -> ClientDemand
    ensures { result ≡ access_demand demand }
{
    match demand {
        Demand::Load { place, width } => register_demand(place, width, 0, 0),
        Demand::Store {
            place,
            width,
            value,
        } => register_demand(place, width, value, 1),
        Demand::Pause { micros } => memory_demand(0, micros, 0, 2),
        Demand::Move {
            source,
            target,
            len,
        } => memory_demand(source, target, u64::from(len), 3),
    }
}

/// A demand as C sees it.
pub fn demand_of(demand: WorkDemand) -> ClientDemand
    ensures { result ≡ demand_of demand }
{
    match demand {
        WorkDemand::Access(demand) => access_demand(demand),
        WorkDemand::PutRecord { address } => memory_demand(address, 0, 0, 4),
        WorkDemand::PutMark { address } => memory_demand(address, 0x5245, 2, 5),
        WorkDemand::TakeLength { address } => memory_demand(address, 0, 4, 6),
        WorkDemand::TakeRecord { address, len } => memory_demand(address, 0, len, 7),
    }
}

/// The command of a number.
pub fn order_of(number: u32, id: u64, room: u64) -> Option<Order>
    ensures { result ≡ order_of number id room }
{
    match number {
        0 => Some(Order::Read {
            id,
            room: room as usize,
        }),
        1 => Some(Order::Clear(id)),
        2 => Some(Order::Dummy),
        3 => Some(Order::Count),
        4 => Some(Order::Next),
        5 => Some(Order::List),
        _ => None,
    }
}

/// The answer that C tells.
pub fn answer_of(failed: bool, value: u64) -> Result<u64, SpaceFault>
    ensures { result ≡ answer_of failed value }
{
    if failed {
        Err(SpaceFault::Device)
    } else {
        Ok(value)
    }
}

/// A range as C sees it.
pub fn range_of(found: FoundRange) -> ClientRange
    ensures { result ≡ range_of found }
{
    let (greatest, nominal) = match found.timings {
        Some(times) => times,
        None => (0, 0),
    };
    ClientRange {
        address: found.address,
        length: found.len,
        greatest,
        nominal,
    }
}
