// C's calls on a client.
ghost use Rattle.std.specs.Prelude.{◌≡◌, IfOk, IfErr, OnOk};
ghost use Rattle.apei_c.specs.Holding.{OnHeld, LooksAtHeld, GetsHeld, LosesHeld};
ghost use Rattle.apei_c.specs.ClientCalls.{IsSessionOver, RefusesTable, BeginsWriting, BeginsOrder, TellsDemand, TakesAnswer, TellsResult, TellsRange, order_of, answer_of, is_failed};

use crate::client_demands::{answer_of, demand_of, order_of, range_of};
use crate::client_handle::ClientHandle;
use crate::client_structs::{ClientDemand, ClientRange};
use crate::status::Status;
use erst_entries::ErstTable;
use erst_session::Session;
use std::alloc::Global;

fn opened(alloc: Global, table: &[u8]) -> Result<Box<Session>, Status>
    ensures opened { IfOk result (λ session. IsSessionOver table.now session.value) }
    ensures refused { IfErr result (RefusesTable table.now) }
{
    match ErstTable::decode(alloc, table) {
        Ok((found, _)) => match Box::new(alloc, Session::open(found)) {
            Ok(session) => Ok(session),
            Err(_) => Err(Status::Memory),
        },
        Err(error) => Err(Status::of_table(error)),
    }
}

fn write(session: &mut Session, bytes: &[u8]) -> Status
    ensures { BeginsWriting bytes.now session.old result session.new }
{
    Status::of_begun(session.begin_write(bytes))
}

fn begin(session: &mut Session, command: u32, id: u64, room: u64, ids: &mut [u64]) -> Status
    ensures { BeginsOrder (order_of command id room) session.old ids.old result session.new ids.new }
{
    let Some(order) = order_of(command, id, room) else {
        return Status::Choice;
    };
    Status::of_begun(session.begin(order, ids))
}

fn tell_demand(session: &Session, demand: &mut ClientDemand) -> Status
    ensures { TellsDemand session.now demand.old result demand.new }
{
    match session.demand() {
        Some(found) => {
            *demand = demand_of(found);
            Status::Done
        }
        None => Status::Nothing,
    }
}

fn answer(session: &mut Session, failed: bool, value: u64, ids: &mut [u64]) -> Status
    ensures { TakesAnswer (answer_of failed value) session.old ids.old result session.new ids.new }
{
    Status::of_begun(session.answer(answer_of(failed, value), ids))
}

fn tell_result(session: &Session, value: &mut u64) -> Status
    ensures { TellsResult session.now value.old result value.new }
{
    match session.result() {
        Some(Ok(found)) => {
            *value = found;
            Status::Done
        }
        Some(Err(error)) => Status::of_work(error),
        None => Status::Busy,
    }
}

fn tell_range(session: &Session, range: &mut ClientRange) -> Status
    ensures { TellsRange session.now range.old result range.new }
{
    match session.range() {
        Some(found) => {
            *range = range_of(found);
            Status::Done
        }
        None => Status::Unattached,
    }
}

/// Opens a client over a table, and begins to attach.
#[unsafe(no_mangle)]
pub extern "C" fn apei_c_client_open(alloc: Global, client: &mut ClientHandle, table: &[u8]) -> u32
    ensures { GetsHeld (client.new.owner.session ≡ client.old.owner.session) (IsSessionOver table.now) (RefusesTable table.now)
        client.old.owner.session result client.new.owner.session }
{
    if client.is_open {
        return Status::Open.number();
    }
    match opened(alloc, table) {
        Ok(session) => {
            client.put(session);
            Status::Done.number()
        }
        Err(status) => status.number(),
    }
}

/// Closes it, and frees its memory.
#[unsafe(no_mangle)]
pub extern "C" fn apei_c_client_close(alloc: Global, client: &mut ClientHandle) -> u32
    ensures { LosesHeld client.old.owner.session result client.new.owner.session }
{
    match client.take(alloc) {
        Some(session) => {
            drop(session);
            Status::Done.number()
        }
        None => Status::Closed.number(),
    }
}

/// Begins to write a record, whose bytes stay with the caller.
#[unsafe(no_mangle)]
pub extern "C" fn apei_c_client_write(client: &mut ClientHandle, bytes: &[u8]) -> u32
    ensures { OnHeld client.old.owner.session result client.new.owner.session (BeginsWriting bytes.now) }
{
    let Some(session) = client.session() else {
        return Status::Closed.number();
    };
    write(session, bytes).number()
}

/// Begins another command. A listing may put identifiers into the buffer.
#[unsafe(no_mangle)]
pub extern "C" fn apei_c_client_begin(
    client: &mut ClientHandle,
    command: u32,
    id: u64,
    room: u64,
    ids: &mut [u64],
) -> u32
    ensures { OnHeld client.old.owner.session result client.new.owner.session
        (λ old status new. BeginsOrder (order_of command id room) old ids.old status new ids.new) }
{
    let Some(session) = client.session() else {
        return Status::Closed.number();
    };
    begin(session, command, id, room, ids).number()
}

/// What is to be done next.
#[unsafe(no_mangle)]
pub extern "C" fn apei_c_client_demand(client: &mut ClientHandle, demand: &mut ClientDemand) -> u32
    ensures { LooksAtHeld client.old.owner.session result client.new.owner.session (demand.new ≡ demand.old)
        (λ session status. TellsDemand session demand.old status demand.new) }
{
    let Some(session) = client.session() else {
        return Status::Closed.number();
    };
    tell_demand(session, demand).number()
}

/// Says that it was done, with the number that was read, or that it failed. A listing puts its identifiers into the buffer.
#[unsafe(no_mangle)]
pub extern "C" fn apei_c_client_answer(
    client: &mut ClientHandle,
    failed: u32,
    value: u64,
    ids: &mut [u64],
) -> u32
    ensures { OnHeld client.old.owner.session result client.new.owner.session
        (λ old status new. TakesAnswer (answer_of (is_failed failed) value) old ids.old status new ids.new) }
{
    let Some(session) = client.session() else {
        return Status::Closed.number();
    };
    answer(session, failed != 0, value, ids).number()
}

/// The command's answer, once it has ended.
#[unsafe(no_mangle)]
pub extern "C" fn apei_c_client_result(client: &mut ClientHandle, value: &mut u64) -> u32
    ensures { LooksAtHeld client.old.owner.session result client.new.owner.session (value.new ≡ value.old)
        (λ session status. TellsResult session value.old status value.new) }
{
    let Some(session) = client.session() else {
        return Status::Closed.number();
    };
    tell_result(session, value).number()
}

/// The error log address range, and the times of a command.
#[unsafe(no_mangle)]
pub extern "C" fn apei_c_client_range(client: &mut ClientHandle, range: &mut ClientRange) -> u32
    ensures { LooksAtHeld client.old.owner.session result client.new.owner.session (range.new ≡ range.old)
        (λ session status. TellsRange session range.old status range.new) }
{
    let Some(session) = client.session() else {
        return Status::Closed.number();
    };
    tell_range(session, range).number()
}
