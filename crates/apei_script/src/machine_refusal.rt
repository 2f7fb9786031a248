// What a machine, or a client of it, refuses.
ghost use Rattle.std.specs.Prelude.{◌≡◌, ◌+◌, ◌≤◌, ◌++◌, length};
ghost use Rattle.apei_script.specs.RunWords.{words_of_fault, words_of_stop};
ghost use Rattle.apei_script.specs.ClientWords.{words_of_attach, words_of_client};
ghost use Rattle.apei_script.specs.MachineWords.{words_of_refusal};

use apei_space::SpaceFault;
use erst_client::{AttachError, ClientError};
use erst_interp::RunStop;
use script_lines::LineText;
use script_text::Refusal;

/// Why a machine, or a client of it, does not do what a line asks.
#[derive(Clone, Copy)]
pub enum MachineRefusal {
    /// The client refuses a command.
    Client(ClientError),
    /// No client attaches to the table.
    Attach(AttachError),
    /// An action's program stops.
    Program(RunStop),
    /// Memory can't be read.
    Space(SpaceFault),
}

impl Refusal for MachineRefusal {
    ghost words = { words_of_refusal };

    ghost most_before = { 62 };

    fn add_to(&self, text: &mut LineText) {
        match self {
            MachineRefusal::Client(why) => add_client(why, text),
            MachineRefusal::Attach(why) => add_attach(why, text),
            MachineRefusal::Program(why) => add_stop(why, text),
            MachineRefusal::Space(why) => add_fault(why, text),
        }
    }
}

/// The words of a command that is refused.
fn add_client(why: &ClientError, text: &mut LineText)
    requires room { length text.old ≤ 62 }
    ensures words { text.new ≡ text.old ++ words_of_client why.now }
    ensures short { length text.new ≤ length text.old + 66 }
{
    match why {
        ClientError::NoSpace => text.add(b"no-space"),
        ClientError::Hardware => text.add(b"hardware"),
        ClientError::Failed => text.add(b"failed"),
        ClientError::Empty => text.add(b"empty"),
        ClientError::NotFound => text.add(b"not-found"),
        ClientError::Frame(why) => {
            text.add(b"frame ");
            why.add_to(text);
        }
        ClientError::TooLong { len, range } => text.add_two(b"too-long ", *len, *range),
        ClientError::SmallBuffer { need } => text.add_one(b"small ", *need),
        ClientError::BadLength { found } => text.add_one(b"bad-length ", *found),
        ClientError::Status { found } => text.add_one(b"status ", *found),
        ClientError::Stopped(why) => {
            text.add(b"stopped ");
            add_stop(why, text);
        }
        ClientError::Trailing { bytes } => text.add_one(b"trailing ", *bytes),
        ClientError::Range(fault) => {
            text.add(b"range ");
            add_fault(fault, text);
        }
        ClientError::Late { waited } => text.add_one(b"late ", *waited),
    }
}

/// The words of a table that no client attaches to.
fn add_attach(why: &AttachError, text: &mut LineText)
    requires room { length text.old ≤ 62 }
    ensures words { text.new ≡ text.old ++ words_of_attach why.now }
    ensures short { length text.new ≤ length text.old + 66 }
{
    match why {
        AttachError::Stopped(why) => {
            text.add(b"stopped ");
            add_stop(why, text);
        }
        AttachError::NonVolatile { found } => text.add_one(b"non-volatile ", *found),
        AttachError::NoRange { len } => text.add_one(b"no-range ", *len),
    }
}

/// The words of a program that stops.
fn add_stop(why: &RunStop, text: &mut LineText)
    requires room { length text.old ≤ 70 }
    ensures words { text.new ≡ text.old ++ words_of_stop why.now }
    ensures short { length text.new ≤ length text.old + 58 }
{
    match why {
        RunStop::Budget => text.add(b"budget"),
        RunStop::Register { index, why: _ } => text.add_one(b"register ", *index),
        RunStop::UnknownInstruction { index, code } => text.add_two(b"unknown ", *index, *code),
        RunStop::Goto { index, to } => text.add_two(b"goto ", *index, *to),
        RunStop::MoveTooLong { index, len } => text.add_two(b"move ", *index, *len),
        RunStop::NoAction { code } => text.add_one(b"no-action ", *code),
        RunStop::Space { index, fault } => {
            text.add_one(b"space ", *index);
            text.add(b" ");
            add_fault(fault, text);
        }
    }
}

/// The words of an access that fails.
fn add_fault(why: &SpaceFault, text: &mut LineText)
    requires room { length text.old ≤ 97 }
    ensures words { text.new ≡ text.old ++ words_of_fault why.now }
    ensures short { length text.new ≤ length text.old + 31 }
{
    match why {
        SpaceFault::Unmapped { at } => text.add_one(b"unmapped ", *at),
        SpaceFault::BadAccess { at, width: _ } => text.add_one(b"access ", *at),
        SpaceFault::NotMemory { at } => text.add_one(b"not-memory ", *at),
        SpaceFault::Device => text.add(b"device"),
    }
}
