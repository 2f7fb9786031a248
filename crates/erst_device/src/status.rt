// Command statuses.
ghost use Rattle.std.specs.Prelude.{◌≡◌};

use record_store::StoreError;

/// What GET_COMMAND_STATUS tells of the last execution (ACPI 6.4, section 18.5.1).
#[derive(Clone, Copy, Debug, PartialEq, Eq)]
pub enum CommandStatus {
    Success,
    NotEnoughSpace,
    HardwareNotAvailable,
    Failed,
    RecordStoreEmpty,
    RecordNotFound,
}

impl CommandStatus {
    ghost use Rattle.erst_device.specs.Statuses.{number_of};

    /// Its number.
    pub fn number(self) -> u64
        ensures { result ≡ number_of self }
    {
        match self {
            CommandStatus::Success => 0,
            CommandStatus::NotEnoughSpace => 1,
            CommandStatus::HardwareNotAvailable => 2,
            CommandStatus::Failed => 3,
            CommandStatus::RecordStoreEmpty => 4,
            CommandStatus::RecordNotFound => 5,
        }
    }
}

impl From<StoreError> for CommandStatus {
    ghost use Rattle.erst_device.specs.Statuses.{status_of};

    ghost from_gives = { λ error status. status ≡ status_of error };

    fn from(error: StoreError) -> Self {
        match error {
            StoreError::NoSpace { .. } => CommandStatus::NotEnoughSpace,
            StoreError::Flash => CommandStatus::HardwareNotAvailable,
            StoreError::LastGeneration { .. } | StoreError::Small { .. } => CommandStatus::Failed,
            StoreError::Empty => CommandStatus::RecordStoreEmpty,
            StoreError::NotFound => CommandStatus::RecordNotFound,
        }
    }
}
