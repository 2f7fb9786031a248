// The stages of a command, and what follows on each run of a program.
ghost use Rattle.std.specs.Prelude.{◌≡◌, true};
ghost use Rattle.erst_client.specs.Sequences.{judged};
ghost use Rattle.erst_client.specs.Stages.{identifier, request_of, next_part, request_for, heard, stopped, turned, busy, is_bounded};

use crate::errors::ClientError;
use crate::requests::Request;
use erst_entries::Action;
use erst_interp::RunStop;

/// A command whose programs end with END_OPERATION.
#[derive(Clone, Copy)]
pub enum Command {
    Write,
    /// Of the record of this identifier.
    Read(u64),
    /// Of the record of this identifier.
    Clear(u64),
    Dummy,
}

/// A request of a command.
#[derive(Clone, Copy)]
pub enum Part {
    Begin,
    Offset,
    Identifier,
    Execute,
}

/// How far a command has come.
#[derive(Clone, Copy)]
pub enum Stage {
    /// The program of a request runs.
    Requesting(Part),
    /// CHECK_BUSY_STATUS runs, after waits of so many microseconds.
    Checking(u64),
    /// The firmware is busy. After the wait that comes, so many microseconds were waited.
    Waiting(u64),
    /// GET_COMMAND_STATUS runs.
    Judging,
    /// END_OPERATION runs.
    Ending(Result<(), ClientError>),
    Done(Result<(), ClientError>),
}

/// How long a client waits before it asks again whether the firmware is busy, in microseconds.
pub const PAUSE: u64 = 10;

/// An action that isn't given a value.
fn plain(action: Action) -> Request
    ensures { result ≡ record { action = action; given = 0 } }
{
    Request { action, given: 0 }
}

/// The request of a part.
fn request_of(command: Command, part: Part) -> Request
    ensures { result ≡ request_of command part }
{
    match part {
        Part::Begin => match command {
            Command::Write => plain(Action::BeginWriteOperation),
            Command::Read(_) => plain(Action::BeginReadOperation),
            Command::Clear(_) => plain(Action::BeginClearOperation),
            Command::Dummy => plain(Action::BeginDummyWriteOperation),
        },
        Part::Offset => plain(Action::SetRecordOffset),
        Part::Identifier => Request {
            action: Action::SetRecordIdentifier,
            given: identifier(command),
        },
        Part::Execute => plain(Action::ExecuteOperation),
    }
}

/// The identifier that a command names, or 0.
fn identifier(command: Command) -> u64
    ensures { result ≡ identifier command }
{
    match command {
        Command::Write => 0,
        Command::Read(id) => id,
        Command::Clear(id) => id,
        Command::Dummy => 0,
    }
}

/// The part after one.
fn next_part(command: Command, part: Part) -> Option<Part>
    ensures { result ≡ next_part command part }
{
    match part {
        Part::Begin => match command {
            Command::Clear(_) => Some(Part::Identifier),
            _ => Some(Part::Offset),
        },
        Part::Offset => match command {
            Command::Read(_) => Some(Part::Identifier),
            _ => Some(Part::Execute),
        },
        Part::Identifier => Some(Part::Execute),
        Part::Execute => None,
    }
}

/// The program that a stage runs, if it runs one.
pub fn request_for(command: Command, stage: Stage) -> Option<Request>
    ensures { result ≡ request_for command stage }
{
    match stage {
        Stage::Requesting(part) => Some(request_of(command, part)),
        Stage::Checking(_) => Some(plain(Action::CheckBusyStatus)),
        Stage::Waiting(_) => None,
        Stage::Judging => Some(plain(Action::GetCommandStatus)),
        Stage::Ending(_) => Some(plain(Action::EndOperation)),
        Stage::Done(_) => None,
    }
}

/// The stage after a run.
pub fn turned(
    command: Command,
    timings: Option<(u32, u32)>,
    stage: Stage,
    answer: Result<u64, RunStop>,
) -> Stage
    requires { is_bounded stage ≡ true }
    ensures stage { result ≡ turned command timings stage answer }
    ensures bounded { is_bounded result ≡ true }
{
    match answer {
        Ok(number) => heard(command, timings, stage, number),
        Err(stop) => stopped(stage, stop),
    }
}

/// The stage after a run that answered.
fn heard(command: Command, timings: Option<(u32, u32)>, stage: Stage, number: u64) -> Stage
    requires { is_bounded stage ≡ true }
    ensures stage { result ≡ heard command timings stage number }
    ensures bounded { is_bounded result ≡ true }
{
    match stage {
        Stage::Requesting(part) => match next_part(command, part) {
            Some(next) => Stage::Requesting(next),
            None => Stage::Checking(0),
        },
        Stage::Checking(waited) => {
            if number == 0 {
                Stage::Judging
            } else {
                busy(timings, waited)
            }
        }
        Stage::Judging => Stage::Ending(judge(number)),
        Stage::Ending(outcome) => Stage::Done(outcome),
        _ => stage,
    }
}

/// The stage of a firmware that is busy: a client that knows its timings is late after the greatest time.
#[tactic(auto, using(std::proofs::lemmas::Bool::Decides::nat_tests))]
fn busy(timings: Option<(u32, u32)>, waited: u64) -> Stage
    requires { is_bounded (Stage.Checking waited) ≡ true }
    ensures stage { result ≡ busy timings waited }
    ensures bounded { is_bounded result ≡ true }
{
    let Some((greatest, _)) = timings else {
        return Stage::Waiting(waited);
    };
    if waited + PAUSE <= u64::from(greatest) {
        Stage::Waiting(waited + PAUSE)
    } else {
        Stage::Ending(Err(ClientError::Late { waited }))
    }
}

/// The stage after a run that stopped: END_OPERATION runs all the same.
fn stopped(stage: Stage, stop: RunStop) -> Stage
    requires { is_bounded stage ≡ true }
    ensures stage { result ≡ stopped stage stop }
    ensures bounded { is_bounded result ≡ true }
{
    match stage {
        Stage::Waiting(_) => stage,
        Stage::Ending(Err(error)) => Stage::Done(Err(error)),
        Stage::Ending(Ok(())) => Stage::Done(Err(ClientError::Stopped(stop))),
        Stage::Done(_) => stage,
        _ => Stage::Ending(Err(ClientError::Stopped(stop))),
    }
}

/// What a command status says.
fn judge(status: u64) -> Result<(), ClientError>
    ensures { result ≡ judged status }
{
    match status {
        0 => Ok(()),
        1 => Err(ClientError::NoSpace),
        2 => Err(ClientError::Hardware),
        3 => Err(ClientError::Failed),
        4 => Err(ClientError::Empty),
        5 => Err(ClientError::NotFound),
        found => Err(ClientError::Status { found }),
    }
}
