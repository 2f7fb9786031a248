// The serialization actions by name.
ghost use Rattle.std.specs.Prelude.{◌≡◌, Some};
ghost use Rattle.erst_entries.specs.Actions.{action_name, action_of, code_of};

/// A serialization action (ACPI 6.4, section 18.5.1.1).
#[derive(Clone, Copy, Debug, PartialEq, Eq)]
pub enum Action {
    BeginWriteOperation,
    BeginReadOperation,
    BeginClearOperation,
    EndOperation,
    SetRecordOffset,
    ExecuteOperation,
    CheckBusyStatus,
    GetCommandStatus,
    GetRecordIdentifier,
    SetRecordIdentifier,
    GetRecordCount,
    BeginDummyWriteOperation,
    GetErrorLogAddressRange,
    GetErrorLogAddressRangeLength,
    GetErrorLogAddressRangeAttributes,
    GetExecuteOperationTimings,
}

impl Action {
    /// The action of a code, `None` where ACPI defines none.
    pub fn of(code: u64) -> Option<Action>
        ensures { result ≡ action_of code }
    {
        Some(match code {
            0x0 => Action::BeginWriteOperation,
            0x1 => Action::BeginReadOperation,
            0x2 => Action::BeginClearOperation,
            0x3 => Action::EndOperation,
            0x4 => Action::SetRecordOffset,
            0x5 => Action::ExecuteOperation,
            0x6 => Action::CheckBusyStatus,
            0x7 => Action::GetCommandStatus,
            0x8 => Action::GetRecordIdentifier,
            0x9 => Action::SetRecordIdentifier,
            0xa => Action::GetRecordCount,
            0xb => Action::BeginDummyWriteOperation,
            0xd => Action::GetErrorLogAddressRange,
            0xe => Action::GetErrorLogAddressRangeLength,
            0xf => Action::GetErrorLogAddressRangeAttributes,
            0x10 => Action::GetExecuteOperationTimings,
            _ => return None,
        })
    }

    /// Its code.
    pub fn code(self) -> u8
        ensures value { result ≡ code_of self }
        ensures back { action_of result ≡ Some self }
    {
        match self {
            Action::BeginWriteOperation => 0x0,
            Action::BeginReadOperation => 0x1,
            Action::BeginClearOperation => 0x2,
            Action::EndOperation => 0x3,
            Action::SetRecordOffset => 0x4,
            Action::ExecuteOperation => 0x5,
            Action::CheckBusyStatus => 0x6,
            Action::GetCommandStatus => 0x7,
            Action::GetRecordIdentifier => 0x8,
            Action::SetRecordIdentifier => 0x9,
            Action::GetRecordCount => 0xa,
            Action::BeginDummyWriteOperation => 0xb,
            Action::GetErrorLogAddressRange => 0xd,
            Action::GetErrorLogAddressRangeLength => 0xe,
            Action::GetErrorLogAddressRangeAttributes => 0xf,
            Action::GetExecuteOperationTimings => 0x10,
        }
    }

    /// Its name, as ACPI writes it.
    pub fn name(self) -> &'static str
        ensures { result.now ≡ action_name self }
    {
        match self {
            Action::BeginWriteOperation => "BEGIN_WRITE_OPERATION",
            Action::BeginReadOperation => "BEGIN_READ_OPERATION",
            Action::BeginClearOperation => "BEGIN_CLEAR_OPERATION",
            Action::EndOperation => "END_OPERATION",
            Action::SetRecordOffset => "SET_RECORD_OFFSET",
            Action::ExecuteOperation => "EXECUTE_OPERATION",
            Action::CheckBusyStatus => "CHECK_BUSY_STATUS",
            Action::GetCommandStatus => "GET_COMMAND_STATUS",
            Action::GetRecordIdentifier => "GET_RECORD_IDENTIFIER",
            Action::SetRecordIdentifier => "SET_RECORD_IDENTIFIER",
            Action::GetRecordCount => "GET_RECORD_COUNT",
            Action::BeginDummyWriteOperation => "BEGIN_DUMMY_WRITE_OPERATION",
            Action::GetErrorLogAddressRange => "GET_ERROR_LOG_ADDRESS_RANGE",
            Action::GetErrorLogAddressRangeLength => "GET_ERROR_LOG_ADDRESS_RANGE_LENGTH",
            Action::GetErrorLogAddressRangeAttributes => "GET_ERROR_LOG_ADDRESS_RANGE_ATTRIBUTES",
            Action::GetExecuteOperationTimings => "GET_EXECUTE_OPERATION_TIMINGS",
        }
    }
}
