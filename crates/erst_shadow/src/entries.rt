// The instruction entries of the table: the moves, and what stands before, between and behind them.
ghost use Rattle.std.specs.Prelude.{◌≡◌, ℕ, Some};
ghost use Rattle.erst_entries.specs.Instructions.{instruction_of};
ghost use Rattle.erst_machine.specs.OwnTables.{register_of};
ghost use Rattle.erst_entries.specs.Actions.{plain_entry};
ghost use Rattle.erst_shadow.specs.MoveEntries.{move_entries};
ghost use Rattle.erst_shadow.specs.ShadowTables.{entries_before, entries_between, entries_behind};

use erst_entries::{Action, Entry, Instruction};
use erst_machine::SCRATCH;
use erst_machine::entries::{act, answer, entry_of, give, is_one, register_of};

/// The registers of a move, behind the record.
const OFFSET: u64 = 0x1f80;

const SOURCE: u64 = 0x1f88;

const TARGET: u64 = 0x1f90;

const LENGTH: u64 = 0x1f98;

/// Puts a number into a register of a move.
fn put_number(action: Action, address: u64, value: u64) -> Entry
    ensures { result ≡ plain_entry action 0x3 (register_of 64 4 address) value 18446744073709551615 }
{
    entry_of(
        action,
        Instruction::WriteRegisterValue,
        register_of(64, 4, address),
        value,
        u64::MAX,
    )
}

/// Uses a whole register of a move.
fn use_register(action: Action, instruction: Instruction, address: u64) -> Entry
    ensures { (code : ℕ) → instruction_of code ≡ Some instruction
        → result ≡ plain_entry action code (register_of 64 4 address) 0 18446744073709551615 }
{
    entry_of(
        action,
        instruction,
        register_of(64, 4, address),
        0,
        u64::MAX,
    )
}

/// What moves so many bytes, a multiple of 128, from one address to another.
#[tactic(auto, unfolding(crate::specs::MoveEntries::move_entries))]
pub fn move_entries(action: Action, from: u64, target: u64, size: u64) -> [Entry; 13]
    ensures { result ≡ move_entries action from target size }
{
    [
        put_number(action, SOURCE, from),
        put_number(action, TARGET, target),
        put_number(action, LENGTH, 128),
        put_number(action, OFFSET, 0),
        use_register(action, Instruction::SetSourceBase, SOURCE),
        use_register(action, Instruction::SetTargetBase, TARGET),
        use_register(action, Instruction::LoadVar2, LENGTH),
        use_register(action, Instruction::MoveData, OFFSET),
        use_register(action, Instruction::LoadVar1, OFFSET),
        entry_of(action, Instruction::Add, register_of(0, 0, 0), 0, 0),
        use_register(action, Instruction::StoreVar1, OFFSET),
        entry_of(
            action,
            Instruction::SkipNextIfTrue,
            register_of(64, 4, OFFSET),
            size,
            u64::MAX,
        ),
        entry_of(action, Instruction::Goto, register_of(0, 0, 0), 7, 0),
    ]
}

/// The entries before the two moves.
pub fn entries_before() -> [Entry; 6]
    ensures { result ≡ entries_before }
{
    [
        act(Action::BeginWriteOperation),
        act(Action::BeginReadOperation),
        act(Action::BeginClearOperation),
        act(Action::EndOperation),
        give(Action::SetRecordOffset),
        act(Action::SetRecordOffset),
    ]
}

/// Those between them.
pub fn entries_between() -> [Entry; 3]
    ensures { result ≡ entries_between }
{
    [
        act(Action::ExecuteOperation),
        act(Action::CheckBusyStatus),
        is_one(Action::CheckBusyStatus),
    ]
}

/// And those behind them.
pub fn entries_behind(size: u64) -> [Entry; 15]
    ensures { result ≡ entries_behind size }
{
    [
        act(Action::GetCommandStatus),
        answer(Action::GetCommandStatus, 0xff),
        act(Action::GetRecordIdentifier),
        answer(Action::GetRecordIdentifier, u64::MAX),
        give(Action::SetRecordIdentifier),
        act(Action::SetRecordIdentifier),
        act(Action::GetRecordCount),
        answer(Action::GetRecordCount, u64::from(u32::MAX)),
        act(Action::BeginDummyWriteOperation),
        put_number(Action::GetErrorLogAddressRange, SOURCE, SCRATCH),
        use_register(
            Action::GetErrorLogAddressRange,
            Instruction::ReadRegister,
            SOURCE,
        ),
        put_number(Action::GetErrorLogAddressRangeLength, LENGTH, size),
        use_register(
            Action::GetErrorLogAddressRangeLength,
            Instruction::ReadRegister,
            LENGTH,
        ),
        put_number(Action::GetErrorLogAddressRangeAttributes, OFFSET, 0),
        use_register(
            Action::GetErrorLogAddressRangeAttributes,
            Instruction::ReadRegister,
            OFFSET,
        ),
    ]
}
