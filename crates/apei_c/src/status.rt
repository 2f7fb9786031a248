// What a call answers.
ghost use Rattle.std.specs.Prelude.{◌≡◌};
ghost use Rattle.apei_c.specs.Statuses.{number_of, status_of_access, status_of_opening};

use erst_port::{OpenError, PortError};

/// The status of a call, by the header's numbers.
#[derive(Clone, Copy, Debug, PartialEq, Eq)]
pub enum Status {
    Done = 0,
    Closed = 2,
    Open = 3,
    Window = 4,
    Access = 5,
    Due = 6,
    Nothing = 7,
    Short = 8,
    Busy = 9,
    Flash = 10,
    Memory = 11,
    Geometry = 12,
    Foreign = 13,
    Version = 14,
    Size = 15,
    Addresses = 16,
    Bad = 17,
    Unsaved = 18,
    SavedVersion = 19,
    SavedFlash = 20,
    Source = 32,
    Count = 33,
    SourceType = 34,
    Reserved = 35,
    Preallocation = 36,
    Notification = 37,
    Length = 38,
    Places = 39,
    AddressRegister = 40,
    Address = 41,
    AckRegister = 42,
    Mask = 43,
    Zero = 44,
    Alignment = 45,
    Late = 46,
    Clash = 47,
    Identifier = 48,
    Full = 49,
    Long = 50,
    Block = 51,
    Waits = 52,
    Choice = 53,
    Region = 54,
    Table = 64,
    Unattached = 65,
    NonVolatile = 66,
    NoRange = 67,
    NoSpace = 68,
    Hardware = 69,
    Failed = 70,
    Empty = 71,
    NotFound = 72,
    Frame = 73,
    TooLong = 74,
    SmallBuffer = 75,
    BadLength = 76,
    Unknown = 77,
    Trailing = 78,
    TooLate = 79,
    Steps = 80,
    NoAction = 81,
    Fault = 82,
    Program = 83,
    ListFull = 84,
}

impl Status {
    /// Its number.
    pub fn number(self) -> u32
        ensures { result ≡ number_of self }
    {
        self as u32
    }

    /// That of an access.
    pub fn of_access(answer: Result<(), PortError>) -> Status
        ensures { result ≡ status_of_access answer }
    {
        match answer {
            Ok(()) => Status::Done,
            Err(PortError::BadAccess) => Status::Access,
            Err(PortError::Due) => Status::Due,
            Err(PortError::Flash) => Status::Flash,
        }
    }

    /// That of a refused opening.
    pub fn of_opening(error: OpenError) -> Status
        ensures { result ≡ status_of_opening error }
    {
        match error {
            OpenError::Foreign => Status::Foreign,
            OpenError::Version { found: _ } => Status::Version,
            OpenError::Size {
                found: _,
                wanted: _,
            } => Status::Size,
            OpenError::Addresses => Status::Addresses,
            OpenError::Memory => Status::Memory,
        }
    }
}
