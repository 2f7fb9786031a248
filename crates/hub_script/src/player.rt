// The player of a script of several error sources.
ghost use Rattle.std.specs.Prelude.{◌≡◌, ◌≢◌, ⊤, ◌+◌, ◌<◌, ◌≤◌, ℕ, List, length, Ok, Err, None, OnOk, OnErr, IfOk, IfErr};
ghost use Rattle.base_model.specs.Faults.{Rose, HasCause};
ghost use Rattle.script_lines.specs.Columns.{BreaksAt};
ghost use Rattle.script_lines.specs.Parts.{IsPairs};
ghost use Rattle.script_lines.specs.declared.lengths.TheConstants.{LONGEST_LINE};
ghost use Rattle.hub_script.specs.declared.player.HubStop.TheVariants.{SinkFault as TheSinkFault};
ghost use Rattle.hub_script.specs.HubGrammar.{IsLine, IsValid, text_of, hest, error, turns, heard, removal};
ghost use Rattle.hub_script.specs.HubText.{IsWritten, line_of};
ghost use Rattle.hub_script.specs.Turns.{AreTurns};
ghost use Rattle.script_lines.specs.Streams.{stream_of};
ghost use Rattle.ghes_hub.specs.Refusals.{IsRefusal};
ghost use Rattle.hub_script.specs.Stages.{Waiting, members_in};
ghost use Rattle.hub_script.specs.Lines.{PlaysLine, PlaysUnwritten, TextIs, BringsTable, IsTable};
ghost use Rattle.hub_script.specs.Made.{stage_of, MakesReply, OpensFor};

use crate::heard::show_heard;
use crate::hub_line::HubLine;
use crate::refusals::HubRefusal;
use crate::reply::{end_line, refuse, write_refusal};
use crate::session::Session;
use crate::turns::{are_named, take_turns};
use apei_bytes::{OutOfMemory, Sink, SinkFault, write_all};
use apei_notify::Listener;
use ghes_hub::{Hub, HubError, HubRefused};
use hest_sources::{Hest, HestError};
use script_text::decode_line;
use std::alloc::Global;
use std::mem::replace;

/// Why a line was not played to its end. The player may only be taken apart then.
#[derive(Clone, Copy, Debug, PartialEq, Eq)]
pub enum HubStop {
    /// The text is no line: no line begins with its bytes up to this column, from 1.
    BadLine { column: u32 },
    /// The sink refused a reply.
    SinkFault,
    /// There was no memory for a table or its hub. A line that gives a table while a hub is open takes none.
    Memory,
}

impl From<SinkFault> for HubStop {
    ghost from_gives = { λ _ stop. stop ≡ TheSinkFault };

    fn from(_: SinkFault) -> Self {
        HubStop::SinkFault
    }
}

/// Plays the lines of a script on a hub, which one of them opens. It may not be dropped: `into_members` spends it.
pub struct HubPlayer {
    hub: Option<Hub>,
    /// Those that wait for a hub.
    listeners: Vec<Box<dyn Listener>>,
    session: Session,
    alloc: Global,
}

impl HubPlayer {
    /// A player without a hub. It takes all the memory that it will have, but for that of a table and its hub.
    pub fn new(
        alloc: Global,
        listeners: Vec<Box<dyn Listener>>,
    ) -> Result<HubPlayer, Vec<Box<dyn Listener>>>
        ensures stage { IfOk result (λ player. stage_of player ≡ Waiting listeners.items) }
        ensures back { IfErr result (λ refused. refused.items ≡ listeners.items) }
    {
        let Ok(session) = Session::new(alloc) else {
            return Err(listeners);
        };
        Ok(HubPlayer {
            hub: None,
            listeners,
            session,
            alloc,
        })
    }

    /// Plays the line that a text is, and writes its replies.
    pub fn play<O: Sink>(&mut self, line: &[u8], out: &mut O) -> Result<(), HubStop>
        requires { length line.now ≤ LONGEST_LINE }
        ensures played { OnOk result (TextIs line.now (λ asked. PlaysLine hearing
            (stream_of O.tells (O.written out.old) (O.written out.new))
            (stage_of self.old) asked (stage_of self.new))) }
        ensures unwritten { result ≡ Err HubStop.SinkFault
            → TextIs line.now (λ asked. PlaysUnwritten hearing
            (stream_of O.tells (O.written out.old) (O.written out.new))
            (stage_of self.old) asked (stage_of self.new)) }
        ensures bad { (column : ℕ) → result ≡ Err (HubStop.BadLine column) → BreaksAt IsLine line.now column }
        ensures memory { result ≡ Err HubStop.Memory
            → (hex : List ℕ) × IsWritten line.now (hest hex) × BringsTable hex }
        ensures waits { result ≡ Err HubStop.Memory → self.old.hub ≡ None }
        ensures stopped { IfErr result (λ stop. stop ≢ HubStop.SinkFault → (stage_of self.new ≡ stage_of self.old)
            × (out.new ≡ out.old)) }
        ensures fault { result ≡ Err HubStop.SinkFault → Rose (O.faults out.old) (O.faults out.new) }
        ensures no_fault { result ≢ Err HubStop.SinkFault → O.faults out.new ≡ O.faults out.old }
    {
        match HubLine::parse(line) {
            Ok(line) => self.play_line(line, out),
            Err(column) => Err(HubStop::BadLine { column }),
        }
    }

    /// Plays a line.
    fn play_line<O: Sink>(&mut self, line: HubLine<'_>, out: &mut O) -> Result<(), HubStop>
        requires valid { IsValid (line_of line) }
        requires fits { length (text_of (line_of line)) ≤ LONGEST_LINE }
        ensures played { OnOk result (PlaysLine hearing (stream_of O.tells (O.written out.old) (O.written out.new))
            (stage_of self.old) (line_of line.entry) (stage_of self.new)) }
        ensures unwritten { result ≡ Err HubStop.SinkFault
            → PlaysUnwritten hearing (stream_of O.tells (O.written out.old) (O.written out.new))
            (stage_of self.old) (line_of line.entry) (stage_of self.new) }
        ensures bad { (column : ℕ) → result ≢ Err (HubStop.BadLine column) }
        ensures memory { result ≡ Err HubStop.Memory → IsTable line.entry }
        ensures waits { result ≡ Err HubStop.Memory → self.old.hub ≡ None }
        ensures stopped { IfErr result (λ stop. stop ≢ HubStop.SinkFault → (stage_of self.new ≡ stage_of self.old)
            × (out.new ≡ out.old)) }
        ensures fault { result ≡ Err HubStop.SinkFault → Rose (O.faults out.old) (O.faults out.new) }
        ensures no_fault { result ≢ Err HubStop.SinkFault → O.faults out.new ≡ O.faults out.old }
    {
        match line {
            HubLine::Blank => Ok(()),
            HubLine::Hest { hex } => {
                let Ok(()) = self.open(hex) else {
                    return Err(HubStop::Memory);
                };
                Ok(write_all(out, self.session.reply.text())?)
            }
            HubLine::Error { source, hex } => {
                self.submit(source, hex);
                Ok(write_all(out, self.session.reply.text())?)
            }
            HubLine::Turns { pairs } => Ok(self.turn(pairs, out)?),
            HubLine::Heard { source } => Ok(self.tell_heard(source, out)?),
            HubLine::Drop { source, at } => {
                self.remove(source, at);
                Ok(write_all(out, self.session.reply.text())?)
            }
        }
    }

    /// Opens a hub for the table that the bytes of a line begin with.
    fn open(&mut self, hex: &[u8]) -> Result<(), OutOfMemory>
        requires pairs { IsPairs hex.now }
        requires fits { length hex.now ≤ LONGEST_LINE }
        ensures made { OnOk result (MakesReply hearing (stage_of self.old) (hest hex.now)
            (stage_of self.new) self.new.session.reply) }
        ensures memory { OnErr result (BringsTable hex.now) }
        ensures waits { OnErr result (self.old.hub ≡ None) }
        ensures stays { OnErr result (stage_of self.new ≡ stage_of self.old) }
    {
        if self.hub.is_some() {
            refuse(&mut self.session.reply, &HubRefusal::Open);
            return Ok(());
        }
        let len = decode_line(hex, &mut self.session.bytes);
        match Hest::decode(self.alloc, &self.session.bytes[..len]) {
            Ok((table, _)) => self.serve(&table),
            Err(HestError::Memory) => Err(OutOfMemory),
            Err(why) => {
                refuse(&mut self.session.reply, &HubRefusal::Table(why));
                Ok(())
            }
        }
    }

    /// Serves the sources of a table, with the listeners that wait.
    fn serve(&mut self, table: &Hest) -> Result<(), OutOfMemory>
        requires { self.old.hub ≡ None }
        ensures made { OnOk result (OpensFor self.old.listeners.items table.now (stage_of self.new)
            self.new.session.reply) }
        ensures memory { OnErr result (IsRefusal table.now HubError.Memory) }
        ensures stays { OnErr result (stage_of self.new ≡ stage_of self.old) }
    {
        let listeners = replace(&mut self.listeners, Vec::new(self.alloc));
        match Hub::open(self.alloc, table, listeners) {
            Ok(hub) => {
                self.session.reply.begin(b"hub ");
                self.session.reply.add_number(u64::from(hub.sources()));
                end_line(&mut self.session.reply);
                put(&mut self.hub, hub);
                Ok(())
            }
            Err(HubRefused { why, listeners }) => {
                self.listeners = listeners;
                match why {
                    HubError::Memory => Err(OutOfMemory),
                    why => {
                        refuse(&mut self.session.reply, &HubRefusal::Hub(why));
                        Ok(())
                    }
                }
            }
        }
    }

    /// Hands the block of a line to the firmware of a source.
    fn submit(&mut self, source: u64, hex: &[u8])
        requires pairs { IsPairs hex.now }
        requires fits { length hex.now ≤ LONGEST_LINE }
        ensures { MakesReply hearing (stage_of self.old) (error source hex.now)
            (stage_of self.new) self.new.session.reply }
    {
        let Some(hub) = &mut self.hub else {
            refuse(&mut self.session.reply, &HubRefusal::NoHub);
            return;
        };
        if source >= u64::from(hub.sources()) {
            refuse(&mut self.session.reply, &HubRefusal::Nobody);
            return;
        }
        let len = decode_line(hex, &mut self.session.bytes);
        match hub.submit(source as u32, &self.session.bytes[..len]) {
            Ok(waiting) => {
                self.session.reply.begin(b"queued ");
                self.session.reply.add_number(u64::from(waiting));
                end_line(&mut self.session.reply);
            }
            Err(why) => refuse(&mut self.session.reply, &HubRefusal::Submit(why)),
        }
    }

    /// Makes turns.
    fn turn<O: Sink>(&mut self, pairs: &[u8], out: &mut O) -> Result<(), SinkFault>
        requires { AreTurns pairs.now }
        ensures played { OnOk result (PlaysLine hearing (stream_of O.tells (O.written out.old) (O.written out.new))
            (stage_of self.old) (turns pairs.now) (stage_of self.new)) }
        ensures unwritten { OnErr result
            (PlaysUnwritten hearing (stream_of O.tells (O.written out.old) (O.written out.new))
            (stage_of self.old) (turns pairs.now) (stage_of self.new)) }
        ensures cause { HasCause (O.faults out.old) (O.faults out.new) result }
    {
        let Some(hub) = &mut self.hub else {
            return write_refusal(&mut self.session.reply, &HubRefusal::NoHub, out);
        };
        if !are_named(hub, pairs) {
            return write_refusal(&mut self.session.reply, &HubRefusal::Nobody, out);
        }
        take_turns(hub, pairs, &mut self.session, out)
    }

    /// Tells how often the listeners of a source have heard.
    fn tell_heard<O: Sink>(&mut self, source: u64, out: &mut O) -> Result<(), SinkFault>
        ensures played { OnOk result (PlaysLine hearing (stream_of O.tells (O.written out.old) (O.written out.new))
            (stage_of self.old) (heard source) (stage_of self.new)) }
        ensures unwritten { OnErr result
            (PlaysUnwritten hearing (stream_of O.tells (O.written out.old) (O.written out.new))
            (stage_of self.old) (heard source) (stage_of self.new)) }
        ensures cause { HasCause (O.faults out.old) (O.faults out.new) result }
    {
        let Some(hub) = &self.hub else {
            return write_refusal(&mut self.session.reply, &HubRefusal::NoHub, out);
        };
        if source >= u64::from(hub.sources()) {
            return write_refusal(&mut self.session.reply, &HubRefusal::Nobody, out);
        }
        show_heard(hub, source as u32, &mut self.session.reply, out)
    }

    /// Drops a listener of a source.
    fn remove(&mut self, source: u64, at: u64)
        ensures { MakesReply hearing (stage_of self.old) (removal source at)
            (stage_of self.new) self.new.session.reply }
    {
        let Some(hub) = &mut self.hub else {
            refuse(&mut self.session.reply, &HubRefusal::NoHub);
            return;
        };
        let sources = u64::from(hub.sources());
        if source >= sources {
            refuse(&mut self.session.reply, &HubRefusal::Nobody);
            return;
        }
        let listeners = u64::from(hub.listeners(source as u32));
        if at >= listeners {
            refuse(&mut self.session.reply, &HubRefusal::Nobody);
            return;
        }
        hub.remove(source as u32, at as u32);
        self.session.reply.begin(b"dropped ");
        self.session.reply.add_number(source);
        self.session.reply.add(b" ");
        self.session.reply.add_number(at);
        end_line(&mut self.session.reply);
    }

    /// The listeners that are left: source by source where a hub was opened, and else in their order.
    pub fn into_members(self) -> Vec<Box<dyn Listener>>
        requires { ⊤ }
        ensures { result.items ≡ members_in (stage_of self) }
    {
        let HubPlayer {
            hub,
            listeners,
            session: _,
            alloc: _,
        } = self;
        match hub {
            Some(hub) => hub.into_members(),
            None => listeners,
        }
    }
}

/// Puts a hub to its empty place.
fn put(place: &mut Option<Hub>, hub: Hub)
    requires { place.old ≡ None }
    ensures { place.new ≡ Some hub }
{
    match place.replace(hub) {
        None => {}
        Some(_old) => unreachable!(),
    }
}
