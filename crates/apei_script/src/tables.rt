// Lines that say whose table is used.
ghost use Rattle.std.specs.Prelude.{◌≡◌, ◌≤◌, length, OnOk, IfErr};
ghost use Rattle.script_lines.specs.declared.lengths.TheConstants.{LONGEST_LINE};
ghost use Rattle.script_lines.specs.Parts.{IsPairs};
ghost use Rattle.script_text.specs.ScriptGrammar.{table, own_table, shadow_table};
ghost use Rattle.apei_script.specs.Plays.{Stops};
ghost use Rattle.apei_script.specs.Sessions.{state_of, MakesReply};

use crate::machine_refusal::MachineRefusal;
use crate::player::PlayStop;
use crate::refusals::{refuse, refuse_behind};
use crate::reply::put_number;
use crate::session::Session;
use erst_client::Client;
use erst_entries::{ErstError, ErstTable};
use erst_interp::Budget;
use erst_shadow::shadow_table;
use flash_model::Flash;
use script_text::decode_line;

/// The steps that attaching to a table is given.
pub const ATTACH_STEPS: u64 = 64;

impl<F: Flash> Session<F> {
    /// Attaches a client to the table that the bytes of a line begin with: it takes the place of the one that a line gave before. Where it is
    /// refused that one stays.
    pub fn give_table(&mut self, hex: &[u8]) -> Result<(), PlayStop>
        requires pairs { IsPairs hex.now }
        requires fits { length hex.now ≤ LONGEST_LINE }
        ensures made { OnOk result (MakesReply F.tells (state_of self.old) (table hex.now)
            (state_of self.new) self.new.buffers.reply) }
        ensures stopped { IfErr result (λ stop. Stops F.tells (state_of self.old) (table hex.now)
            (state_of self.new) stop) }
    {
        let len = decode_line(hex, &mut self.buffers.bytes);
        let table = match ErstTable::decode(self.alloc, &self.buffers.bytes[..len]) {
            Ok((table, _)) => table,
            Err(ErstError::Memory) => return Err(PlayStop::Memory),
            Err(error) => {
                refuse_behind(&mut self.buffers.reply, b"table ", &error);
                return Ok(());
            }
        };
        let entries = table.len() as u64;
        match Client::attach(table, &mut Budget::new(ATTACH_STEPS), &mut self.machine) {
            Ok(client) => {
                self.other = Some(client);
                put_number(&mut self.buffers.reply, b"table ", entries);
            }
            Err(error) => refuse(&mut self.buffers.reply, &MachineRefusal::Attach(error)),
        }
        Ok(())
    }

    /// Attaches a client to the machine's table whose own programs move the record: it takes the place of the one that a line gave before.
    pub fn use_shadow_table(&mut self) -> Result<(), PlayStop>
        ensures made { OnOk result (MakesReply F.tells (state_of self.old) shadow_table (state_of self.new)
            self.new.buffers.reply) }
        ensures stopped { IfErr result (λ stop. Stops F.tells (state_of self.old) shadow_table (state_of self.new)
            stop) }
    {
        self.machine.stands();
        let Ok(table) = shadow_table(self.alloc, self.machine.reach()) else {
            return Err(PlayStop::Memory);
        };
        let entries = table.len() as u64;
        match Client::attach(table, &mut Budget::new(ATTACH_STEPS), &mut self.machine) {
            Ok(client) => {
                self.other = Some(client);
                put_number(&mut self.buffers.reply, b"table ", entries);
                Ok(())
            }
            Err(_) => unreachable!(),
        }
    }

    /// From here on the client that was attached first is in use again.
    pub fn use_own_table(&mut self)
        ensures { MakesReply F.tells (state_of self.old) own_table (state_of self.new) self.new.buffers.reply }
    {
        self.other = None;
        let entries = self.own.table().len() as u64;
        put_number(&mut self.buffers.reply, b"table ", entries);
    }
}
