// The player.
ghost use Rattle.std.specs.Prelude.{◌≡◌, ◌≢◌, ◌≤◌, [], length, true, Ok, Err, OnOk, OnErr, IfOk, IfErr, None};
ghost use Rattle.apei_script.specs.Bridged.{changes_in};
ghost use Rattle.hex.specs.Hex.{encode_lower};
ghost use Rattle.base_model.specs.Faults.{Rose, HasCause};
ghost use Rattle.script_lines.specs.Streams.{stream_of};
ghost use Rattle.script_text.specs.ScriptGrammar.{write, clear, count, next, turns as turns_of};
ghost use Rattle.script_text.specs.ScriptText.{line_of};
ghost use Rattle.apei_notify.specs.Chains.{members_of};
ghost use Rattle.apei_script.specs.declared.player.PlayStop.TheVariants.{SinkFault as TheSinkFault};
ghost use Rattle.erst_bridge.specs.Bridges.{Off};
ghost use Rattle.erst_machine.specs.MachineState.{IsMachine};
ghost use Rattle.erst_machine.specs.Shown.{changes_of};
ghost use Rattle.apei_script.specs.Plays.{IsPlayable, Stops, has_one_reply};
ghost use Rattle.apei_script.specs.Words.{words_of_write, words_of_clear, words_of_count, words_of_next};
ghost use Rattle.apei_script.specs.Sessions.{state_of, CommandPlayed, ReadPlayed, LineAnswered, AnswersWrite, AnswersClear, AnswersCount, AnswersNext};
ghost use Rattle.apei_script.specs.Played.{IsPlayed, IsUnwritten};

use crate::bridged::bridged_turns;
use crate::buffers::Buffers;
use crate::events::{list_blocks, say_heard, turns};
use crate::reply::end_line;
use crate::session::Session;
use apei_bytes::{OutOfMemory, Sink, SinkFault, write_all};
use apei_notify::{Chain, Listener};
use erst_bridge::Bridge;
use erst_client::{Client, ClientError};
use erst_machine::Machine;
use flash_model::Flash;
use script_text::ScriptLine;
use std::alloc::Global;

/// Why a line was not played to its end. The player may only be taken apart then.
#[derive(Clone, Copy, Debug, PartialEq, Eq)]
pub enum PlayStop {
    /// The sink refused a reply.
    SinkFault,
    /// The flash failed in a reset, or when power came back.
    FlashFault,
    /// There was no memory for a table.
    Memory,
}

impl From<SinkFault> for PlayStop {
    ghost from_gives = { λ _ stop. stop ≡ TheSinkFault };

    fn from(_: SinkFault) -> Self {
        PlayStop::SinkFault
    }
}

/// Plays lines on a machine, by a client of it, and tells listeners of the errors that the operating system takes. It may not be dropped:
/// `into_parts` spends it.
pub struct Player<F: Flash> {
    session: Session<F>,
    chain: Chain,
}

/// What a player that is not made gives back.
pub struct PlayerRefused<F: Flash> {
    pub machine: Machine<F>,
    pub own: Client,
    pub chain: Chain,
}

impl<F: Flash> Player<F> {
    /// A player whose lines each have so many steps, or as many as are enough by the timings of the client in use. It takes all the memory
    /// that it will have, but for that of tables.
    pub fn new(
        alloc: Global,
        machine: Machine<F>,
        own: Client,
        chain: Chain,
        steps: Option<u64>,
    ) -> Result<Player<F>, PlayerRefused<F>>
        ensures state { IfOk result (λ player. state_of player.session
            ≡ record { machine = machine; own = own; other = None; steps = steps; bridge = Off }) }
        ensures listeners { IfOk result (λ player. members_of player.chain ≡ members_of chain) }
        ensures reply { IfOk result (λ player. player.session.buffers.reply ≡ []) }
        ensures machine_back { IfErr result (λ refused. (refused.machine ≡ machine) × (refused.own ≡ own)) }
        ensures listeners_back { IfErr result (λ refused. members_of refused.chain ≡ members_of chain) }
    {
        let Ok((buffers, bridge)) = take_memory(alloc) else {
            return Err(PlayerRefused {
                machine,
                own,
                chain,
            });
        };
        let session = Session {
            machine,
            own,
            other: None,
            steps,
            bridge,
            buffers,
            alloc,
        };
        Ok(Player { session, chain })
    }

    /// Plays one line, and writes its replies.
    pub fn play<O: Sink>(&mut self, line: &ScriptLine<'_>, out: &mut O) -> Result<(), PlayStop>
        requires { IsPlayable (line_of line.now) }
        ensures played { OnOk result (IsPlayed hearing F.tells
            (stream_of O.tells (O.written out.old) (O.written out.new)) self.old (line_of line.now) self.new) }
        ensures unwritten { result ≡ Err PlayStop.SinkFault → IsUnwritten hearing F.tells
            (stream_of O.tells (O.written out.old) (O.written out.new)) self.old (line_of line.now) self.new }
        ensures stopped { IfErr result (λ stop. stop ≢ PlayStop.SinkFault
            → (Stops F.tells (state_of self.old.session) (line_of line.now) (state_of self.new.session) stop
            × (members_of self.new.chain ≡ members_of self.old.chain)) × (out.new ≡ out.old)) }
        ensures fault { result ≡ Err PlayStop.SinkFault → Rose (O.faults out.old) (O.faults out.new) }
        ensures no_fault { result ≢ Err PlayStop.SinkFault → O.faults out.new ≡ O.faults out.old }
    {
        match line {
            ScriptLine::Blank => {}
            ScriptLine::Turns { letters } => self.make_turns(letters, out)?,
            ScriptLine::Bert => list_blocks(&mut self.session, out)?,
            ScriptLine::Heard => say_heard(&mut self.session, &self.chain, out)?,
            line => {
                self.answer(line)?;
                write_all(out, self.reply())?;
            }
        }
        Ok(())
    }

    /// Makes the turns of a line: while the bridge is on, those of the reader are the bridge's.
    fn make_turns<O: Sink>(&mut self, letters: &[u8], out: &mut O) -> Result<(), SinkFault>
        requires { length letters.now ≤ 4096 }
        ensures played { OnOk result (IsPlayed hearing F.tells
            (stream_of O.tells (O.written out.old) (O.written out.new)) self.old (turns_of letters.now) self.new) }
        ensures unwritten { OnErr result (IsUnwritten hearing F.tells
            (stream_of O.tells (O.written out.old) (O.written out.new)) self.old (turns_of letters.now) self.new) }
        ensures cause { HasCause (O.faults out.old) (O.faults out.new) result }
    {
        if self.session.bridge.is_on() {
            bridged_turns(&mut self.session, &mut self.chain, letters, out)
        } else {
            turns(&mut self.session, &mut self.chain, letters, out)
        }
    }

    /// Writes an error record by the client in use. This and the next four play the line of a command without its text: the words of
    /// its reply are those of what they answer.
    pub fn write(&mut self, bytes: &[u8]) -> Result<(), ClientError>
        requires playable { IsPlayable (write (encode_lower bytes.now)) }
        ensures played { CommandPlayed F.tells (state_of self.old.session) (write (encode_lower bytes.now))
            (state_of self.new.session) (words_of_write bytes.now result) }
        ensures answers { AnswersWrite F.tells (state_of self.old.session) bytes.now result
            (state_of self.new.session) }
        ensures listeners { members_of self.new.chain ≡ members_of self.old.chain }
    {
        self.session.write(bytes)
    }

    /// Reads the record of an identifier, and answers how many bytes it has.
    pub fn read(&mut self, id: u64) -> Result<usize, ClientError>
        ensures played { ReadPlayed F.tells (state_of self.old.session) id result (state_of self.new.session) }
        ensures listeners { members_of self.new.chain ≡ members_of self.old.chain }
    {
        self.session.read(id)
    }

    /// Clears the record of an identifier.
    pub fn clear(&mut self, id: u64) -> Result<(), ClientError>
        ensures played { CommandPlayed F.tells (state_of self.old.session) (clear id) (state_of self.new.session)
            (words_of_clear id result) }
        ensures answers { AnswersClear F.tells (state_of self.old.session) id result (state_of self.new.session) }
        ensures listeners { members_of self.new.chain ≡ members_of self.old.chain }
    {
        self.session.clear(id)
    }

    /// Asks how many records are stored.
    pub fn count(&mut self) -> Result<u64, ClientError>
        ensures played { CommandPlayed F.tells (state_of self.old.session) count (state_of self.new.session)
            (words_of_count result) }
        ensures answers { AnswersCount F.tells (state_of self.old.session) result (state_of self.new.session) }
        ensures listeners { members_of self.new.chain ≡ members_of self.old.chain }
    {
        self.session.count()
    }

    /// Asks for the next identifier, `None` where there is none.
    pub fn next(&mut self) -> Result<Option<u64>, ClientError>
        ensures played { CommandPlayed F.tells (state_of self.old.session) next (state_of self.new.session)
            (words_of_next result) }
        ensures answers { AnswersNext F.tells (state_of self.old.session) result (state_of self.new.session) }
        ensures listeners { members_of self.new.chain ≡ members_of self.old.chain }
    {
        self.session.next()
    }

    /// Plays a line of one reply that the listeners have no part in, and keeps the reply, which `reply` shows.
    fn answer(&mut self, line: &ScriptLine<'_>) -> Result<(), PlayStop>
        requires playable { IsPlayable (line_of line.now) }
        requires one { has_one_reply (line_of line.now) ≡ true }
        ensures answered { OnOk result (LineAnswered F.tells (state_of self.old.session) (line_of line.now)
            (state_of self.new.session) self.new.session.buffers.reply) }
        ensures stopped { IfErr result (Stops F.tells (state_of self.old.session) (line_of line.now)
            (state_of self.new.session)) }
        ensures listeners { members_of self.new.chain ≡ members_of self.old.chain }
    {
        self.session.machine.stands();
        self.session.carry_out(line)?;
        end_line(
            &mut self.session.buffers.reply,
            self.session.machine.steps(),
        );
        Ok(())
    }

    /// What is true of every player: it does nothing.
    pub fn stands(&self)
        ensures machine { IsMachine (state_of self.now.session).machine }

        // The step behind each reply counts the changes that the flash tells.
        ensures counted { F.tells → changes_of (state_of self.now.session).machine
            ≡ changes_in (state_of self.now.session).machine }
    {
        self.session.machine.stands();
    }

    /// The reply that `answer` made last, right behind it; of a player that has played no line yet nothing.
    fn reply(&self) -> &[u8]
        ensures { result.now ≡ self.now.session.buffers.reply }
    {
        self.session.buffers.reply.text()
    }

    /// How many changes of the flash were made so far: the step behind a reply.
    pub fn steps(&self) -> u64
        ensures { result ≡ changes_in (state_of self.now.session).machine }
    {
        self.session.machine.steps()
    }

    /// Takes the player apart.
    pub fn into_parts(self) -> (Machine<F>, Chain)
        ensures machine { result.0 ≡ self.session.machine }
        ensures listeners { members_of result.1 ≡ members_of self.chain }
    {
        let Player { session, chain } = self;
        let Session {
            machine,
            own: _,
            other: _,
            steps: _,
            bridge: _,
            buffers: _,
            alloc: _,
        } = session;
        (machine, chain)
    }
}

/// The memory of a player: that in which lines are carried out, and that of the bridge, which is off.
fn take_memory(alloc: Global) -> Result<(Buffers, Bridge), OutOfMemory>
    ensures reply { IfOk result (λ memory. memory.0.reply ≡ []) }
    ensures off { IfOk result (λ memory. memory.1 ≡ Off) }
{
    Ok((Buffers::new(alloc)?, Bridge::new(alloc)?))
}
