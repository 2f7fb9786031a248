// The statuses of error sources and of a boot error region.
ghost use Rattle.std.specs.Prelude.{◌≡◌};
ghost use Rattle.apei_c.specs.SourceStatuses.{status_of_sources, index_told, status_of_block, status_of_submitting, status_of_laying, status_of_outcome};

use crate::status::Status;
use ghes_ack::SubmitError as BlockFault;
use ghes_port::{BootError, OpenError, Outcome, SubmitError};

impl Status {
    /// That of sources that are not served.
    pub fn of_sources(error: OpenError) -> Status
        ensures { result ≡ status_of_sources error }
    {
        match error {
            OpenError::Count { found: _ } => Status::Count,
            OpenError::Reserved { index: _ } => Status::Reserved,
            OpenError::Preallocation { index: _ } => Status::Preallocation,
            OpenError::Notification { index: _ } => Status::Notification,
            OpenError::Length { index: _ } => Status::Length,
            OpenError::Places { index: _ } => Status::Places,
            OpenError::AddressRegister { index: _, why: _ } => Status::AddressRegister,
            OpenError::Address { index: _ } => Status::Address,
            OpenError::AckRegister { index: _, why: _ } => Status::AckRegister,
            OpenError::Mask { index: _ } => Status::Mask,
            OpenError::Zero { index: _ } => Status::Zero,
            OpenError::Alignment { index: _ } => Status::Alignment,
            OpenError::Late { index: _ } => Status::Late,
            OpenError::Clash { index: _ } => Status::Clash,
            OpenError::Id { index: _ } => Status::Identifier,
            OpenError::Memory => Status::Memory,
        }
    }

    fn of_block(fault: BlockFault) -> Status
        ensures { result ≡ status_of_block fault }
    {
        match fault {
            BlockFault::Long { len: _ } => Status::Long,
            BlockFault::Malformed(_) => Status::Block,
            BlockFault::Trailing { bytes: _ } => Status::Block,
            BlockFault::Full => Status::Full,
        }
    }

    /// That of a block that is not taken over.
    pub fn of_submitting(error: SubmitError) -> Status
        ensures { result ≡ status_of_submitting error }
    {
        match error {
            SubmitError::Bad(fault) => Status::of_block(fault),
            SubmitError::Full => Status::Full,
        }
    }

    /// That of a region that there is not, or of a block that is not laid.
    pub fn of_laying(error: BootError) -> Status
        ensures { result ≡ status_of_laying error }
    {
        match error {
            BootError::Place => Status::Region,
            BootError::Busy => Status::Busy,
            BootError::Bad(fault) => Status::of_block(fault),
            BootError::Memory => Status::Memory,
        }
    }

    /// That of an access that was made.
    pub fn of_outcome(outcome: Outcome) -> Status
        ensures { result ≡ status_of_outcome outcome }
    {
        match outcome {
            Outcome::Nothing => Status::Nothing,
            Outcome::Done => Status::Done,
            Outcome::Waits => Status::Waits,
        }
    }
}

/// Tells the number of the source that is the reason, if one is.
pub fn tell_index(error: OpenError, index: &mut u64)
    ensures { index.new ≡ index_told error index.old }
{
    match error {
        OpenError::Count { found: _ } | OpenError::Memory => {}
        OpenError::Reserved { index: at }
        | OpenError::Preallocation { index: at }
        | OpenError::Notification { index: at }
        | OpenError::Length { index: at }
        | OpenError::Places { index: at }
        | OpenError::AddressRegister { index: at, why: _ }
        | OpenError::Address { index: at }
        | OpenError::AckRegister { index: at, why: _ }
        | OpenError::Mask { index: at }
        | OpenError::Zero { index: at }
        | OpenError::Alignment { index: at }
        | OpenError::Late { index: at }
        | OpenError::Clash { index: at }
        | OpenError::Id { index: at } => *index = u64::from(at),
    }
}
