// Why a session refuses a call, and why a command was refused.
use erst_client::{AttachError, ClientError};

/// Why a session refuses a call. It has changed nothing then.
#[derive(Clone, Copy, Debug, PartialEq, Eq)]
pub enum SessionError {
    /// It has not attached to the firmware, or not yet.
    Unattached,
    /// A command is under way.
    Busy,
    /// More identifiers were listed than the buffer has room for.
    Short,
}

/// Why a command was refused.
#[derive(Clone, Copy, Debug, PartialEq, Eq)]
pub enum WorkError {
    Attach(AttachError),
    Client(ClientError),
    /// There is no identifier behind the firmware's cursor.
    NoMore,
    /// The buffer has no room for one identifier more.
    Full,
}
