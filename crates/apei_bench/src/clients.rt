// A client over plain memory, by a table of the machine's shape.
use crate::tables::{add, blank, entry};
use apei_space::{Ram, Space, Window};
use apei_tables::{Place, Width};
use erst_client::Client;
use erst_entries::{Action, Entry, ErstTable, Instruction};
use erst_interp::Budget;
use std::alloc::Global;

// The registers of the device that the table is written for: the action, and the value.
const ACTION: u64 = 0x1000;

const VALUE: u64 = 0x1008;

// What the value register tells as the client attaches: address, length and attributes of its range at once.
const RANGE: u64 = 0x1000;

// The programs: those that only name their action, those that write the value first, and those that read it then.
const ACTS: [Action; 6] = [
    Action::BeginWriteOperation,
    Action::BeginReadOperation,
    Action::BeginClearOperation,
    Action::EndOperation,
    Action::ExecuteOperation,
    Action::BeginDummyWriteOperation,
];

const WRITES: [Action; 2] = [Action::SetRecordOffset, Action::SetRecordIdentifier];

const READS: [Action; 8] = [
    Action::CheckBusyStatus,
    Action::GetCommandStatus,
    Action::GetRecordIdentifier,
    Action::GetRecordCount,
    Action::GetErrorLogAddressRange,
    Action::GetErrorLogAddressRangeLength,
    Action::GetErrorLogAddressRangeAttributes,
    Action::GetExecuteOperationTimings,
];

fn register(action: Action, instruction: Instruction, address: u64) -> Entry {
    entry(action, instruction, address, u64::from(action.code()))
}

fn act(action: Action) -> Entry {
    register(action, Instruction::WriteRegisterValue, ACTION)
}

fn table(alloc: Global) -> Option<ErstTable> {
    let mut table = blank(alloc);
    for action in ACTS {
        add(&mut table, act(action))?;
    }
    for action in WRITES {
        add(
            &mut table,
            register(action, Instruction::WriteRegister, VALUE),
        )?;
        add(&mut table, act(action))?;
    }
    for action in READS {
        add(&mut table, act(action))?;
        add(
            &mut table,
            register(action, Instruction::ReadRegister, VALUE),
        )?;
    }
    Some(table)
}

/// Goes through so many dummy writes, of eight steps each. It answers how many were well.
pub fn write_dummies(alloc: Global, times: u64) -> Option<u64> {
    let windows = [Window {
        place: Place::Memory(ACTION),
        len: 0x2000,
    }];
    let mut ram = Ram::new(alloc, &windows).ok()?;
    ram.write(Place::Memory(VALUE), Width::B64, RANGE).ok()?;
    let mut client = Client::attach(table(alloc)?, &mut Budget::new(64), &mut ram).ok()?;
    let mut done = 0u64;
    for _ in 0..times {
        let mut budget = Budget::new(client.enough());
        client.dummy(&mut budget, &mut ram).ok()?;
        done = done.wrapping_add(1);
    }
    Some(done)
}
