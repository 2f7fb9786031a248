// One instruction, access by access.
ghost use Rattle.std.specs.Prelude.{◌≡◌, ◌<◌, ◌^◌, true};
ghost use Rattle.erst_interp.specs.Continuing.{Begins, gone, first_access, storing, resumed, heard, located, refused, is_near, is_sound};

use crate::budgets::Budget;
use crate::configurations::{Configuration, Task};
use crate::states::{Awaited, Progress};
use crate::stops::RunStop;
use crate::works::{Access, FieldUse, Work};
use apei_space::SpaceFault;
use apei_tables::Register;
use erst_entries::Instruction;

/// The flag of a store that keeps the register's other bits.
const PRESERVE_REGISTER: u8 = 1;

/// The longest MOVE_DATA, in bytes.
const MOVE_LIMIT: u64 = 65_536;

/// How an instruction begins, whose first step was taken from the budget.
#[tactic(auto, using(crate::proofs::Rules::beginnings))]
#[inline(always)]
pub fn begun(task: &Task) -> Progress
    requires { task.now.at.place < 2 ^ 63 }
    ensures begins { Begins task.now result }
    ensures sound { is_sound result ≡ true }
{
    let index = task.at.place as u64;
    let Some(instruction) = Instruction::of(task.entry.code) else {
        let code = u64::from(task.entry.code);
        return Progress::Stopped(RunStop::UnknownInstruction { index, code });
    };
    match Work::of(instruction, task) {
        Work::GoOn(next) => Progress::Done(next),
        Work::GoTo(to) => gone(to, task),
        Work::WaitFor(micros) => Progress::Awaits(Awaited::Stall(micros)),
        Work::OnRegister(access) => match task.entry.region.check() {
            Ok(register) => Progress::Awaits(first_access(access, register, task)),
            Err(why) => Progress::Stopped(RunStop::Register { index, why }),
        },
    }
}

/// GOTO.
#[inline(always)]
fn gone(to: u64, task: &Task) -> Progress
    requires { task.now.at.place < 2 ^ 63 }
    ensures gone { result ≡ gone task.now to }
    ensures sound { is_sound result ≡ true }
{
    if to < task.len as u64 {
        Progress::Done(Configuration {
            place: to as usize,
            ..task.at.next()
        })
    } else {
        let index = task.at.place as u64;
        Progress::Stopped(RunStop::Goto { index, to })
    }
}

/// The first access of the work on a register.
#[tactic(auto, using(std::proofs::lemmas::Bool::Decides::nat_tests))]
#[inline(always)]
fn first_access(access: Access, register: Register, task: &Task) -> Awaited
    requires { register.offset < 64 }
    ensures first { result ≡ first_access task.now register access }
    ensures near { is_near result ≡ true }
{
    match access {
        Access::Field(FieldUse::Take(how)) => Awaited::Taken(register, how),
        Access::Field(FieldUse::Change(how)) => Awaited::Changed(register, how),
        Access::Store(value) => storing(register, value, task),
        Access::Compare => {
            if task.at.stalling {
                Awaited::Delay(register)
            } else {
                Awaited::Compared(register)
            }
        }
        Access::Copy => Awaited::Offset(register),
    }
}

/// The first access of a store, which keeps the register's other bits where the entry says so.
#[tactic(auto, using(std::proofs::lemmas::Bool::Decides::nat_tests))]
#[inline(always)]
fn storing(register: Register, value: u64, task: &Task) -> Awaited
    requires { register.offset < 64 }
    ensures first { result ≡ storing task.now register value }
    ensures near { is_near result ≡ true }
{
    if task.entry.flags & PRESERVE_REGISTER == 0 {
        Awaited::Written(register, register.stored(value, task.entry.mask))
    } else {
        Awaited::Kept(register, value)
    }
}

/// How an instruction goes on once its access was answered.
#[inline(always)]
pub fn resumed(
    task: &Task,
    awaited: &Awaited,
    budget: &mut Budget,
    answer: Result<u64, SpaceFault>,
) -> Progress
    requires place { task.now.at.place < 2 ^ 63 }
    requires near { is_near awaited.now ≡ true }
    ensures progress { result ≡ (resumed task.now awaited.now budget.old answer).0 }
    ensures left { budget.new ≡ (resumed task.now awaited.now budget.old answer).1 }
    ensures sound { is_sound result ≡ true }
{
    match answer {
        Ok(number) => heard(task, awaited, budget, number),
        Err(fault) => refused(task, awaited, fault),
    }
}

/// How it goes on after an access that was made.
#[tactic(auto, using(std::proofs::lemmas::Bool::Decides::nat_tests))]
#[inline(always)]
fn heard(task: &Task, awaited: &Awaited, budget: &mut Budget, number: u64) -> Progress
    requires place { task.now.at.place < 2 ^ 63 }
    requires near { is_near awaited.now ≡ true }
    ensures progress { result ≡ (heard task.now awaited.now budget.old number).0 }
    ensures left { budget.new ≡ (heard task.now awaited.now budget.old number).1 }
    ensures sound { is_sound result ≡ true }
{
    match *awaited {
        Awaited::Stall(_) => Progress::Done(task.at.next()),
        Awaited::Delay(register) => Progress::Awaits(Awaited::Compared(register)),
        Awaited::Compared(register) => {
            let field = register.field(number, task.entry.mask);
            Progress::Done(task.at.compared(field == task.entry.value))
        }
        Awaited::Taken(register, how) => {
            let field = register.field(number, task.entry.mask);
            Progress::Done(how.taken(task, field))
        }
        Awaited::Changed(register, how) => {
            let field = register.field(number, task.entry.mask);
            let value = how.changed(task, field);
            Progress::Awaits(storing(register, value, task))
        }
        Awaited::Kept(register, value) => {
            let merged = register.merged(number, value, task.entry.mask);
            Progress::Awaits(Awaited::Written(register, merged))
        }
        Awaited::Written(_, _) => Progress::Done(task.at.next()),
        Awaited::Offset(register) => {
            let field = register.field(number, task.entry.mask);
            located(task, field, budget)
        }
        Awaited::Copied { .. } => Progress::Done(task.at.next()),
    }
}

/// MOVE_DATA once its field was read: its length is checked and paid before a byte moves.
#[inline(always)]
fn located(task: &Task, field: u64, budget: &mut Budget) -> Progress
    ensures progress { result ≡ (located task.now budget.old field).0 }
    ensures left { budget.new ≡ (located task.now budget.old field).1 }
    ensures sound { is_sound result ≡ true }
{
    let index = task.at.place as u64;
    let len = task.at.var2;
    if len > MOVE_LIMIT {
        return Progress::Stopped(RunStop::MoveTooLong { index, len });
    }
    if !budget.take((len + 63) / 64) {
        return Progress::Stopped(RunStop::Budget);
    }
    Progress::Awaits(Awaited::Copied {
        source: task.at.source.wrapping_add(field),
        target: task.at.target.wrapping_add(field),
        len: len as u32,
    })
}

/// How it goes on after an access that was refused. A wait can't be.
#[inline(always)]
fn refused(task: &Task, awaited: &Awaited, fault: SpaceFault) -> Progress
    requires place { task.now.at.place < 2 ^ 63 }
    requires near { is_near awaited.now ≡ true }
    ensures progress { result ≡ refused task.now awaited.now fault }
    ensures sound { is_sound result ≡ true }
{
    match *awaited {
        Awaited::Stall(_) => Progress::Done(task.at.next()),
        Awaited::Delay(register) => Progress::Awaits(Awaited::Compared(register)),
        _ => {
            let index = task.at.place as u64;
            Progress::Stopped(RunStop::Space { index, fault })
        }
    }
}
