// Where lines of one reply are carried out.
ghost use Rattle.std.specs.Prelude.{◌≡◌, true, OnOk, IfErr};
ghost use Rattle.script_text.specs.ScriptGrammar.{reset, power};
ghost use Rattle.script_text.specs.ScriptText.{line_of};
ghost use Rattle.apei_script.specs.Plays.{IsPlayable, has_one_reply, Stops};
ghost use Rattle.apei_script.specs.Sessions.{state_of, MakesReply};

use crate::buffers::Buffers;
use crate::player::PlayStop;
use crate::reply::put_number;
use erst_bridge::Bridge;
use erst_client::Client;
use erst_machine::Machine;
use flash_model::Flash;
use script_text::ScriptLine;
use std::alloc::Global;

/// The machine, its clients, and the memory in which lines are carried out, all of it taken once but for that of tables.
pub struct Session<F: Flash> {
    pub machine: Machine<F>,
    pub own: Client,
    /// The client of a table that a line gave.
    pub other: Option<Client>,
    /// The steps that each line is given; `None` for as many as are enough.
    pub steps: Option<u64>,
    pub bridge: Bridge,
    pub buffers: Buffers,
    pub alloc: Global,
}

impl<F: Flash> Session<F> {
    /// Carries out a line of one reply, and makes that but for the step behind it.
    pub fn carry_out(&mut self, line: &ScriptLine<'_>) -> Result<(), PlayStop>
        requires playable { IsPlayable (line_of line.now) }
        requires one { has_one_reply (line_of line.now) ≡ true }
        ensures made { OnOk result (MakesReply F.tells (state_of self.old) (line_of line.now)
            (state_of self.new) self.new.buffers.reply) }
        ensures stopped { IfErr result (λ stop. Stops F.tells (state_of self.old) (line_of line.now)
            (state_of self.new) stop) }
    {
        match line {
            ScriptLine::Table { hex } => self.give_table(hex),
            ScriptLine::TableOwn => {
                self.use_own_table();
                Ok(())
            }
            ScriptLine::TableShadow => self.use_shadow_table(),
            ScriptLine::Error { hex } => {
                self.give_block(hex);
                Ok(())
            }
            ScriptLine::Fatal { hex } => {
                self.lay_block(hex);
                Ok(())
            }
            ScriptLine::Peek { at, len } => {
                self.show_bytes(*at, *len);
                Ok(())
            }
            ScriptLine::Bridge { id } => {
                self.enter_bridge(*id);
                Ok(())
            }
            ScriptLine::Reset => self.reset(),
            ScriptLine::Power => self.power(),
            line => {
                self.ask(line);
                Ok(())
            }
        }
    }

    /// Restarts the machine.
    fn reset(&mut self) -> Result<(), PlayStop>
        ensures made { OnOk result (MakesReply F.tells (state_of self.old) reset (state_of self.new)
            self.new.buffers.reply) }
        ensures stopped { IfErr result (λ stop. Stops F.tells (state_of self.old) reset (state_of self.new) stop) }
    {
        let Ok(records) = self.machine.warm() else {
            return Err(PlayStop::FlashFault);
        };
        self.other = None;
        self.bridge.leave();
        put_number(&mut self.buffers.reply, b"reset ", u64::from(records));
        Ok(())
    }

    /// Ends a loss of power.
    fn power(&mut self) -> Result<(), PlayStop>
        ensures made { OnOk result (MakesReply F.tells (state_of self.old) power (state_of self.new)
            self.new.buffers.reply) }
        ensures stopped { IfErr result (λ stop. Stops F.tells (state_of self.old) power (state_of self.new) stop) }
    {
        let Ok(records) = self.machine.power() else {
            return Err(PlayStop::FlashFault);
        };
        self.other = None;
        self.bridge.leave();
        put_number(&mut self.buffers.reply, b"power ", u64::from(records));
        Ok(())
    }
}
