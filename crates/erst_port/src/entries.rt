// The entries of the table, over registers at an address.
ghost use Rattle.std.specs.Prelude.{◌≡◌, ◌+◌, ◌<◌, ◌^◌};
ghost use Rattle.erst_port.specs.PortTables.{action_at, value_at, carries_out, gives, asks_for_one, takes, port_entries};

use apei_tables::Gas;
use erst_entries::{Action, Entry, Instruction};
use erst_machine::entries::{entry_of, register_of};

fn action_at(registers: u64) -> Gas
    ensures { result ≡ action_at registers }
{
    register_of(32, 3, registers)
}

fn value_at(registers: u64) -> Gas
    requires { registers + 8 < 2 ^ 64 }
    ensures { result ≡ value_at registers }
{
    register_of(64, 4, registers + 8)
}

/// The entry that carries out an action.
fn carries_out(registers: u64, action: Action) -> Entry
    ensures { result ≡ carries_out registers action }
{
    let code = u64::from(action.code());
    let all = u64::from(u32::MAX);
    entry_of(
        action,
        Instruction::WriteRegisterValue,
        action_at(registers),
        code,
        all,
    )
}

/// The entry that gives an action its number, in VALUE.
fn gives(registers: u64, action: Action) -> Entry
    requires { registers + 8 < 2 ^ 64 }
    ensures { result ≡ gives registers action }
{
    entry_of(
        action,
        Instruction::WriteRegister,
        value_at(registers),
        0,
        u64::MAX,
    )
}

/// The entry that asks whether an action left 1 in VALUE.
fn asks_for_one(registers: u64, action: Action) -> Entry
    requires { registers + 8 < 2 ^ 64 }
    ensures { result ≡ asks_for_one registers action }
{
    entry_of(
        action,
        Instruction::ReadRegisterValue,
        value_at(registers),
        1,
        u64::MAX,
    )
}

/// The entry that takes the number that an action left in VALUE, under a mask.
fn takes(registers: u64, action: Action, mask: u64) -> Entry
    requires { registers + 8 < 2 ^ 64 }
    ensures { result ≡ takes registers action mask }
{
    entry_of(
        action,
        Instruction::ReadRegister,
        value_at(registers),
        0,
        mask,
    )
}

/// The entries, in the order of their actions.
#[tactic(auto, unfolding(crate::specs::PortTables::port_entries))]
pub fn port_entries(registers: u64) -> [Entry; 26]
    requires { registers + 8 < 2 ^ 64 }
    ensures { result ≡ port_entries registers }
{
    [
        carries_out(registers, Action::BeginWriteOperation),
        carries_out(registers, Action::BeginReadOperation),
        carries_out(registers, Action::BeginClearOperation),
        carries_out(registers, Action::EndOperation),
        gives(registers, Action::SetRecordOffset),
        carries_out(registers, Action::SetRecordOffset),
        carries_out(registers, Action::ExecuteOperation),
        carries_out(registers, Action::CheckBusyStatus),
        asks_for_one(registers, Action::CheckBusyStatus),
        carries_out(registers, Action::GetCommandStatus),
        takes(registers, Action::GetCommandStatus, 0xff),
        carries_out(registers, Action::GetRecordIdentifier),
        takes(registers, Action::GetRecordIdentifier, u64::MAX),
        gives(registers, Action::SetRecordIdentifier),
        carries_out(registers, Action::SetRecordIdentifier),
        carries_out(registers, Action::GetRecordCount),
        takes(registers, Action::GetRecordCount, u64::from(u32::MAX)),
        carries_out(registers, Action::BeginDummyWriteOperation),
        carries_out(registers, Action::GetErrorLogAddressRange),
        takes(registers, Action::GetErrorLogAddressRange, u64::MAX),
        carries_out(registers, Action::GetErrorLogAddressRangeLength),
        takes(registers, Action::GetErrorLogAddressRangeLength, u64::MAX),
        carries_out(registers, Action::GetErrorLogAddressRangeAttributes),
        takes(
            registers,
            Action::GetErrorLogAddressRangeAttributes,
            u64::MAX,
        ),
        carries_out(registers, Action::GetExecuteOperationTimings),
        takes(registers, Action::GetExecuteOperationTimings, u64::MAX),
    ]
}
