// The statuses of a client.
ghost use Rattle.std.specs.Prelude.{◌≡◌};
ghost use Rattle.apei_c.specs.ClientStatuses.{status_of_session, status_of_work, status_of_attach, status_of_client, status_of_stop, status_of_begun, status_of_table};

use crate::status::Status;
use erst_client::{AttachError, ClientError};
use erst_entries::ErstError;
use erst_interp::RunStop;
use erst_session::{SessionError, WorkError};

impl Status {
    /// That of bytes that are no table.
    pub fn of_table(error: ErstError) -> Status
        ensures { result ≡ status_of_table error }
    {
        match error {
            ErstError::Table(_)
            | ErstError::HeaderSize { found: _ }
            | ErstError::Count {
                found: _,
                length: _,
            } => Status::Table,
            ErstError::Memory => Status::Memory,
        }
    }

    /// That of a call that a session refuses.
    pub fn of_session(error: SessionError) -> Status
        ensures { result ≡ status_of_session error }
    {
        match error {
            SessionError::Unattached => Status::Unattached,
            SessionError::Busy => Status::Busy,
            SessionError::Short => Status::Short,
        }
    }

    /// That of a call on a session.
    pub fn of_begun(answer: Result<(), SessionError>) -> Status
        ensures { result ≡ status_of_begun answer }
    {
        match answer {
            Ok(()) => Status::Done,
            Err(error) => Status::of_session(error),
        }
    }

    /// That of a command that was refused.
    pub fn of_work(error: WorkError) -> Status
        ensures { result ≡ status_of_work error }
    {
        match error {
            WorkError::Attach(error) => Status::of_attach(error),
            WorkError::Client(error) => Status::of_client(error),
            WorkError::NoMore => Status::Nothing,
            WorkError::Full => Status::ListFull,
        }
    }

    fn of_attach(error: AttachError) -> Status
        ensures { result ≡ status_of_attach error }
    {
        match error {
            AttachError::Stopped(stop) => Status::of_stop(stop),
            AttachError::NonVolatile { found: _ } => Status::NonVolatile,
            AttachError::NoRange { len: _ } => Status::NoRange,
        }
    }

    fn of_stop(stop: RunStop) -> Status
        ensures { result ≡ status_of_stop stop }
    {
        match stop {
            RunStop::Budget => Status::Steps,
            RunStop::NoAction { code: _ } => Status::NoAction,
            RunStop::Space { index: _, fault: _ } => Status::Fault,
            RunStop::Register { index: _, why: _ }
            | RunStop::UnknownInstruction { index: _, code: _ }
            | RunStop::Goto { index: _, to: _ }
            | RunStop::MoveTooLong { index: _, len: _ } => Status::Program,
        }
    }

    fn of_client(error: ClientError) -> Status
        ensures { result ≡ status_of_client error }
    {
        match error {
            ClientError::NoSpace => Status::NoSpace,
            ClientError::Hardware => Status::Hardware,
            ClientError::Failed => Status::Failed,
            ClientError::Empty => Status::Empty,
            ClientError::NotFound => Status::NotFound,
            ClientError::Frame(_) => Status::Frame,
            ClientError::TooLong { len: _, range: _ } => Status::TooLong,
            ClientError::SmallBuffer { need: _ } => Status::SmallBuffer,
            ClientError::BadLength { found: _ } => Status::BadLength,
            ClientError::Status { found: _ } => Status::Unknown,
            ClientError::Stopped(stop) => Status::of_stop(stop),
            ClientError::Trailing { bytes: _ } => Status::Trailing,
            ClientError::Range(_) => Status::Fault,
            ClientError::Late { waited: _ } => Status::TooLate,
        }
    }
}
