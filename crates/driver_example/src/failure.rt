// Why the program ends early.
use flash_model::BadGeometry;
use record_store::StoreError;
use std::alloc::AllocError;
use std::io;

/// Why the program ends early.
#[derive(Clone, Copy, Debug, PartialEq, Eq)]
pub enum Failure {
    /// The geometry is outside its limits.
    Geometry,
    /// The store was refused, or refused a command.
    Store,
    /// A record is shorter or longer than the store takes.
    Length,
    /// There was no memory.
    Memory,
    /// The output could not be written.
    Output,
}

impl From<BadGeometry> for Failure {
    fn from(_: BadGeometry) -> Self {
        Failure::Geometry
    }
}

impl From<StoreError> for Failure {
    fn from(_: StoreError) -> Self {
        Failure::Store
    }
}

impl From<AllocError> for Failure {
    fn from(_: AllocError) -> Self {
        Failure::Memory
    }
}

impl From<io::Error> for Failure {
    fn from(_: io::Error) -> Self {
        Failure::Output
    }
}
