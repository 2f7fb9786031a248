// What a session wants done.
ghost use Rattle.std.specs.Prelude.{◌≡◌};
ghost use Rattle.erst_session.specs.Demands.{of_access, of_write, of_read};

use erst_client::{ReadDemand, WriteDemand};
use erst_interp::Demand;

/// What a session wants done next.
#[derive(Clone, Copy)]
pub enum WorkDemand {
    Access(Demand),
    /// The record's bytes are to be written at this address.
    PutRecord { address: u64 },
    /// The two bytes "ER" are to be written at this address.
    PutMark { address: u64 },
    /// The four bytes at this address are to be read. They are a number, least byte first, and it is the answer.
    TakeLength { address: u64 },
    /// So many bytes at this address are to be read into the start of the buffer.
    TakeRecord { address: u64, len: u64 },
}

pub fn of_access(demand: Option<Demand>) -> Option<WorkDemand>
    ensures { result ≡ of_access demand }
{
    match demand {
        Some(demand) => Some(WorkDemand::Access(demand)),
        None => None,
    }
}

pub fn of_write(demand: Option<WriteDemand>) -> Option<WorkDemand>
    ensures { result ≡ of_write demand }
{
    match demand {
        Some(WriteDemand::PutRecord { address }) => Some(WorkDemand::PutRecord { address }),
        Some(WriteDemand::PutMark { address }) => Some(WorkDemand::PutMark { address }),
        Some(WriteDemand::Access(demand)) => Some(WorkDemand::Access(demand)),
        None => None,
    }
}

pub fn of_read(demand: Option<ReadDemand>) -> Option<WorkDemand>
    ensures { result ≡ of_read demand }
{
    match demand {
        Some(ReadDemand::TakeLength { address }) => Some(WorkDemand::TakeLength { address }),
        Some(ReadDemand::TakeRecord { address, len }) => {
            Some(WorkDemand::TakeRecord { address, len })
        }
        Some(ReadDemand::Access(demand)) => Some(WorkDemand::Access(demand)),
        None => None,
    }
}
