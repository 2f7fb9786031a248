// A client: a firmware's table, and what it says of itself.
ghost use Rattle.std.specs.Prelude.{◌≡◌, Option};
ghost use Rattle.apei_space.specs.Accesses.{Reaches};
ghost use Rattle.erst_interp.specs.Moments.{Between, moment};
ghost use Rattle.erst_client.specs.Timings.{enough_steps};
ghost use Rattle.erst_client.specs.Sequences.{Sequence, clear_requests, dummy_requests};
ghost use Rattle.erst_client.specs.Commands.{ClientState, Writes, ReadsInto, Counts, Names};
ghost use Rattle.erst_client.specs.Attaching.{Attaches};
ghost use Rattle.erst_client.specs.Causes.{HasDeviceCause, HasAttachCause};

use crate::attaching::{FoundRange, find};
use crate::commands::{
    clear_record, count_records, next_identifier, read_record, write_dummy, write_record,
};
use crate::errors::{AttachError, ClientError};
use apei_space::Space;
use erst_entries::ErstTable;
use erst_interp::Budget;
use std::marker::Model;

/// An operating system's client of a firmware. Its commands run the programs of the firmware's table on a space, under a
/// budget of steps, and take no memory.
#[derive(Drop)]
pub struct Client {
    table: ErstTable,
    found: FoundRange,
}

impl Model for Client {
    ghost use Rattle.erst_client.specs.Commands.{ClientState};
    ghost use Rattle.erst_client.specs.Attaching.{client_with};

    ghost Value = { ClientState };

    ghost view = { λ c. client_with c.table c.found };
}

impl Client {
    /// Attaches to a firmware by its table: GET_ERROR_LOG_ADDRESS_RANGE, its length, its attributes, and
    /// GET_EXECUTE_OPERATION_TIMINGS where the table has entries for it. The refusals are tried in the order of
    /// `AttachError`, once all of them were run.
    pub fn attach<S: Space>(
        table: ErstTable,
        budget: &mut Budget,
        space: &mut S,
    ) -> Result<Client, AttachError>
        ensures attaches { Between (Attaches S.allows table) (moment budget.old (S.state space.old)) result
            (moment budget.new (S.state space.new)) }
        ensures reaches { Reaches S.allows (S.state space.old) (S.state space.new) }
        ensures cause { HasAttachCause (S.faults (S.state space.old)) (S.faults (S.state space.new)) result }
    {
        match find(&table, budget, space) {
            Ok(found) => Ok(Client { table, found }),
            Err(error) => Err(error),
        }
    }

    /// The firmware's table.
    pub fn table(&self) -> &ErstTable
        ensures { result.now ≡ self.now.table }
    {
        &self.table
    }

    /// The greatest and the nominal time of an operation in microseconds; `None` where the table has no entries for
    /// GET_EXECUTE_OPERATION_TIMINGS.
    pub fn timings(&self) -> Option<(u32, u32)>
        ensures { result ≡ self.now.timings }
    {
        self.found.timings
    }

    /// A budget of steps for one command, by the greatest time that the firmware names.
    pub fn enough(&self) -> u64
        ensures { result ≡ enough_steps self.now.timings }
    {
        match self.found.timings {
            Some((greatest, _)) => (1024 + 8 * (u64::from(greatest) / 10 + 2)).min(1_048_576),
            None => 65_536,
        }
    }

    /// Writes an error record, marked as one in persistent storage.
    pub fn write<S: Space>(
        &mut self,
        bytes: &[u8],
        budget: &mut Budget,
        space: &mut S,
    ) -> Result<(), ClientError>
        ensures writes { Between (Writes S.allows self.old bytes.now) (moment budget.old (S.state space.old)) result
            (moment budget.new (S.state space.new)) }
        ensures reaches { Reaches S.allows (S.state space.old) (S.state space.new) }
        ensures cause { HasDeviceCause (S.faults (S.state space.old)) (S.faults (S.state space.new)) result }
        ensures kept { self.new ≡ self.old }
    {
        write_record(&self.table, self.found, bytes, budget, space)
    }

    /// Reads the record of an identifier into `out`, and answers how many bytes it has. After `SmallBuffer` the firmware
    /// has read it all the same.
    pub fn read<S: Space>(
        &mut self,
        id: u64,
        out: &mut [u8],
        budget: &mut Budget,
        space: &mut S,
    ) -> Result<usize, ClientError>
        ensures reads { Between (ReadsInto S.allows self.old id out.old) (moment budget.old (S.state space.old))
            (result, out.new) (moment budget.new (S.state space.new)) }
        ensures reaches { Reaches S.allows (S.state space.old) (S.state space.new) }
        ensures cause { HasDeviceCause (S.faults (S.state space.old)) (S.faults (S.state space.new)) result }
        ensures kept { self.new ≡ self.old }
    {
        read_record(&self.table, self.found, id, out, budget, space)
    }

    /// Clears the record of an identifier.
    pub fn clear<S: Space>(
        &mut self,
        id: u64,
        budget: &mut Budget,
        space: &mut S,
    ) -> Result<(), ClientError>
        ensures clears { Between (Sequence S.allows self.old.table.entries self.old.timings (clear_requests id))
            (moment budget.old (S.state space.old)) result (moment budget.new (S.state space.new)) }
        ensures reaches { Reaches S.allows (S.state space.old) (S.state space.new) }
        ensures cause { HasDeviceCause (S.faults (S.state space.old)) (S.faults (S.state space.new)) result }
        ensures kept { self.new ≡ self.old }
    {
        clear_record(&self.table, self.found, id, budget, space)
    }

    /// Goes through a write that stores nothing.
    pub fn dummy<S: Space>(&mut self, budget: &mut Budget, space: &mut S) -> Result<(), ClientError>
        ensures dummy { Between (Sequence S.allows self.old.table.entries self.old.timings dummy_requests)
            (moment budget.old (S.state space.old)) result (moment budget.new (S.state space.new)) }
        ensures reaches { Reaches S.allows (S.state space.old) (S.state space.new) }
        ensures cause { HasDeviceCause (S.faults (S.state space.old)) (S.faults (S.state space.new)) result }
        ensures kept { self.new ≡ self.old }
    {
        write_dummy(&self.table, self.found, budget, space)
    }

    /// Asks how many records are stored.
    pub fn count<S: Space>(
        &mut self,
        budget: &mut Budget,
        space: &mut S,
    ) -> Result<u64, ClientError>
        ensures counts { Between (Counts S.allows self.old.table.entries) (moment budget.old (S.state space.old)) result
            (moment budget.new (S.state space.new)) }
        ensures reaches { Reaches S.allows (S.state space.old) (S.state space.new) }
        ensures cause { HasDeviceCause (S.faults (S.state space.old)) (S.faults (S.state space.new)) result }
        ensures kept { self.new ≡ self.old }
    {
        count_records(&self.table, budget, space)
    }

    /// Asks for the identifier at the firmware's cursor, `None` where there is none.
    pub fn next<S: Space>(
        &mut self,
        budget: &mut Budget,
        space: &mut S,
    ) -> Result<Option<u64>, ClientError>
        ensures names { Between (Names S.allows self.old.table.entries) (moment budget.old (S.state space.old)) result
            (moment budget.new (S.state space.new)) }
        ensures reaches { Reaches S.allows (S.state space.old) (S.state space.new) }
        ensures cause { HasDeviceCause (S.faults (S.state space.old)) (S.faults (S.state space.new)) result }
        ensures kept { self.new ≡ self.old }
    {
        next_identifier(&self.table, budget, space)
    }
}
