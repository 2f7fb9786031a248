// Instruction entries over the device's registers, and those of the machine's own table.
ghost use Rattle.std.specs.Prelude.{◌≡◌, ℕ, Some};
ghost use Rattle.erst_entries.specs.Instructions.{instruction_of};
ghost use Rattle.erst_entries.specs.Actions.{plain_entry};
ghost use Rattle.erst_machine.specs.declared.areas.Area.TheVariants.{Device};
ghost use Rattle.erst_machine.specs.Areas.{base_of};
ghost use Rattle.erst_machine.specs.OwnTables.{register_of, value_register, act, give, is_one, answer, tell, told_actions, own_entries};

use crate::areas::{ACTION, VALUE};
use apei_tables::Gas;
use erst_entries::{Action, Entry, Instruction};

/// A register of so many bits in memory. The access size code is 3 for 32 bits and 4 for 64.
pub fn register_of(width: u8, access: u8, address: u64) -> Gas
    ensures { result ≡ register_of width access address }
{
    Gas {
        space: 0,
        width,
        offset: 0,
        access,
        address,
    }
}

fn action_register() -> Gas
    ensures { result ≡ register_of 32 3 (base_of Device) }
{
    register_of(32, 3, ACTION)
}

fn value_register() -> Gas
    ensures { result ≡ value_register }
{
    register_of(64, 4, VALUE)
}

/// An entry of an action that replaces the whole register.
pub fn entry_of(
    action: Action,
    instruction: Instruction,
    region: Gas,
    value: u64,
    mask: u64,
) -> Entry
    ensures { (code : ℕ) → instruction_of code ≡ Some instruction → result ≡ plain_entry action code region value mask }
{
    Entry {
        action: action.code(),
        code: instruction.code(),
        flags: 0,
        spare: 0,
        region,
        value,
        mask,
    }
}

/// The entry that carries out an action: its code goes to ACTION (WRITE_REGISTER_VALUE).
pub fn act(action: Action) -> Entry
    ensures { result ≡ act action }
{
    entry_of(
        action,
        Instruction::WriteRegisterValue,
        action_register(),
        u64::from(action.code()),
        u64::from(u32::MAX),
    )
}

/// The one that gives an action its value, in VALUE (WRITE_REGISTER).
pub fn give(action: Action) -> Entry
    ensures { result ≡ give action }
{
    entry_of(
        action,
        Instruction::WriteRegister,
        value_register(),
        0,
        u64::MAX,
    )
}

/// The one that asks whether an action left 1 in VALUE (READ_REGISTER_VALUE).
pub fn is_one(action: Action) -> Entry
    ensures { result ≡ is_one action }
{
    entry_of(
        action,
        Instruction::ReadRegisterValue,
        value_register(),
        1,
        u64::MAX,
    )
}

/// The one that reads what an action left in VALUE, under a mask (READ_REGISTER).
pub fn answer(action: Action, mask: u64) -> Entry
    ensures { result ≡ answer action mask }
{
    entry_of(action, Instruction::ReadRegister, value_register(), 0, mask)
}

/// The entries, in the order of their actions.
#[tactic(auto, unfolding(crate::specs::OwnTables::own_entries))]
pub(crate) fn own_entries() -> [Entry; 26]
    ensures { result ≡ own_entries }
{
    [
        act(Action::BeginWriteOperation),
        act(Action::BeginReadOperation),
        act(Action::BeginClearOperation),
        act(Action::EndOperation),
        give(Action::SetRecordOffset),
        act(Action::SetRecordOffset),
        act(Action::ExecuteOperation),
        act(Action::CheckBusyStatus),
        is_one(Action::CheckBusyStatus),
        act(Action::GetCommandStatus),
        answer(Action::GetCommandStatus, 0xff),
        act(Action::GetRecordIdentifier),
        answer(Action::GetRecordIdentifier, u64::MAX),
        give(Action::SetRecordIdentifier),
        act(Action::SetRecordIdentifier),
        act(Action::GetRecordCount),
        answer(Action::GetRecordCount, u64::from(u32::MAX)),
        act(Action::BeginDummyWriteOperation),
        act(Action::GetErrorLogAddressRange),
        answer(Action::GetErrorLogAddressRange, u64::MAX),
        act(Action::GetErrorLogAddressRangeLength),
        answer(Action::GetErrorLogAddressRangeLength, u64::MAX),
        act(Action::GetErrorLogAddressRangeAttributes),
        answer(Action::GetErrorLogAddressRangeAttributes, u64::MAX),
        act(Action::GetExecuteOperationTimings),
        answer(Action::GetExecuteOperationTimings, u64::MAX),
    ]
}

/// The last of them, those of the actions that each of the machine's tables tells alike.
pub fn told_entries() -> [Entry; 2]
    ensures { result ≡ tell told_actions }
{
    [
        act(Action::GetExecuteOperationTimings),
        answer(Action::GetExecuteOperationTimings, u64::MAX),
    ]
}
