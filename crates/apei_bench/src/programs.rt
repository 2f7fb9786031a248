// Register programs over plain memory.
use crate::tables::{add, blank, entry};
use apei_space::{Ram, Space, Window};
use apei_tables::{Place, Width};
use erst_entries::{Action, Entry, ErstTable, Instruction, Program};
use erst_interp::{Budget, RunStop, run};
use std::alloc::Global;

// The place of the memory, and those of what is copied from and to.
const MEMORY: u64 = 0x1000;

const SOURCE: u64 = 0x10000;

const TARGET: u64 = 0x20000;

const LENGTH: u64 = 65536;

// The action that the entries have: one that needs a program.
fn action() -> u8 {
    Action::GetRecordIdentifier.code()
}

// An entry on a register of memory.
fn register(instruction: Instruction, address: u64) -> Entry {
    entry(Action::GetRecordIdentifier, instruction, address, 0)
}

fn memory(alloc: Global) -> Option<Ram> {
    let windows = [Window {
        place: Place::Memory(MEMORY),
        len: 0x30000,
    }];
    Ram::new(alloc, &windows).ok()
}

/// A program that goes round for so many steps. It answers the steps that are left.
pub fn go_round(alloc: Global, steps: u64) -> Option<u64> {
    let entries = [register(Instruction::Goto, MEMORY)];
    let mut ram = memory(alloc)?;
    let mut budget = Budget::new(steps);
    match run(&Program::of(&entries, action()), 0, &mut budget, &mut ram) {
        Err(RunStop::Budget) => Some(budget.left()),
        _ => None,
    }
}

/// The program of one of two actions that alternate in a table of `pairs` entries each. Each goes on at the next, and the last
/// at the first, for so many steps. It answers the steps that are left.
pub fn go_round_table(alloc: Global, pairs: u64, steps: u64) -> Option<u64> {
    let table = alternating(alloc, pairs)?;
    let mut ram = memory(alloc)?;
    let mut budget = Budget::new(steps);
    match run(&table.program(action()), 0, &mut budget, &mut ram) {
        Err(RunStop::Budget) => Some(budget.left()),
        _ => None,
    }
}

fn alternating(alloc: Global, pairs: u64) -> Option<ErstTable> {
    let mut table = blank(alloc);
    for index in 0..pairs {
        let next = if index + 1 < pairs { index + 1 } else { 0 };
        let mut round = register(Instruction::Goto, MEMORY);
        round.value = next;
        add(&mut table, round)?;
        round.action = Action::GetRecordCount.code();
        add(&mut table, round)?;
    }
    table.finish();
    Some(table)
}

/// A program that copies 65,536 bytes, so many times. It answers how often it was done.
pub fn move_bytes(alloc: Global, times: u64) -> Option<u64> {
    let entries = [
        register(Instruction::SetSourceBase, MEMORY),
        register(Instruction::SetTargetBase, MEMORY + 8),
        register(Instruction::LoadVar2, MEMORY + 16),
        register(Instruction::MoveData, MEMORY + 24),
    ];
    let mut ram = memory(alloc)?;
    ram.write(Place::Memory(MEMORY), Width::B64, SOURCE).ok()?;
    ram.write(Place::Memory(MEMORY + 8), Width::B64, TARGET)
        .ok()?;
    ram.write(Place::Memory(MEMORY + 16), Width::B64, LENGTH)
        .ok()?;
    let program = Program::of(&entries, action());
    let mut done = 0u64;
    for _ in 0..times {
        let mut budget = Budget::new(2000);
        if run(&program, 0, &mut budget, &mut ram).is_err() {
            return None;
        }
        done = done.wrapping_add(1);
    }
    Some(done)
}
