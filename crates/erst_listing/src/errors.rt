// Why a listing was refused.
use erst_client::ClientError;

/// Why a listing was refused.
#[derive(Clone, Copy, Debug, PartialEq, Eq)]
pub enum ListError {
    /// One identifier more was told than the buffer has room for.
    Full,
    /// GET_RECORD_IDENTIFIER was refused.
    Refused(ClientError),
}
