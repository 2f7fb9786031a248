// The calls of a hub.
ghost use Rattle.std.specs.Prelude.{◌≡◌, ◌-◌, ◌^◌, ◌<◌, ◌≤◌, true, min, length, IfOk, OnOk, OnErr, MatchResult, IfSome, Some, None, slice_get};
ghost use Rattle.ghes_hub.specs.Chains.{in_order};
ghost use Rattle.ghes_hub.specs.Hubs.{HubTurns, HubSubmits, HubRemoves, last_in, sources_in};
ghost use Rattle.ghes_hub.specs.OneSource.{waiting_of, refusal_of};
ghost use Rattle.ghes_hub.specs.Runs.{takes};
ghost use Rattle.ghes_hub.specs.Seen.{seen};

use crate::deals::gather;
use crate::hub::Hub;
use apei_bytes::get_u32;
use apei_notify::Listener;
use ghes_ack::{Event, Side, SubmitError};

/// The offset of the severity in an error status block (ACPI 6.4, table 18.11).
const SEVERITY: usize = 16;

impl Hub {
    /// How many sources there are.
    pub fn sources(&self) -> u32
        ensures { result ≡ sources_in (seen self.now) }
    {
        self.chains.len() as u32
    }

    /// Hands a block to the firmware of a source, and answers how many wait there then.
    pub fn submit(&mut self, source: u32, block: &[u8]) -> Result<u32, SubmitError>
        requires { source < sources_in (seen self.old) }
        ensures submitted { OnOk result (HubSubmits source block.now (seen self.old) (seen self.new)) }
        ensures number { IfOk result (λ waiting. IfSome (slice_get (seen self.new).sources.list source)
            (λ handover. waiting ≡ length (waiting_of handover))) }
        ensures exact { IfSome (slice_get (seen self.old).sources.list source)
            (λ handover. MatchResult result (λ _. refusal_of handover block.now ≡ None)
            (λ error. refusal_of handover block.now ≡ Some error)) }
        ensures refused { OnErr result (seen self.new ≡ seen self.old) }
    {
        self.sources.submit(source as usize, block)
    }

    /// One turn of a side of a source. The listeners of the source are told of a block when it is taken.
    pub fn turn(&mut self, source: u32, side: Side) -> Event
        requires { source < sources_in (seen self.old) }
        ensures turned { HubTurns hearing source side result (seen self.old) (seen self.new) }
        // A block that was taken has a head.
        ensures took { takes result ≡ true → 20 ≤ length (last_in (seen self.new).sources source) }
    {
        let at = source as usize;
        let event = self.sources.turn(at, side);
        if is_taking(event) {
            let block = self.sources.taken(at);
            self.chains[at].tell(get_u32(block, SEVERITY), block);
        }
        event
    }

    /// The block that a source took last, empty where it took none.
    pub fn taken(&self, source: u32) -> &[u8]
        requires { source < sources_in (seen self.now) }
        ensures { result.now ≡ last_in (seen self.now).sources source }
    {
        self.sources.taken(source as usize)
    }

    /// How many listeners a source has, held at 2^32 - 1.
    pub fn listeners(&self, source: u32) -> u32
        requires { source < sources_in (seen self.now) }
        ensures { IfSome (slice_get (seen self.now).chains source) (λ members. result ≡ min (length members)
            (2 ^ 32 - 1)) }
    {
        u32::try_from(self.chains[source as usize].len()).unwrap_or(u32::MAX)
    }

    /// How often a listener of a source has heard of an error.
    pub fn heard(&self, source: u32, at: u32) -> u64
        requires source { source < sources_in (seen self.now) }
        requires at { IfSome (slice_get (seen self.now).chains source) (λ members. at < length members) }
        ensures { IfSome (slice_get (seen self.now).chains source) (λ members. IfSome (slice_get members at)
            (λ b. result ≡ (hearing b).count)) }
    {
        self.chains[source as usize].heard(at as usize)
    }

    /// Drops a listener of a source.
    pub fn remove(&mut self, source: u32, at: u32)
        requires source { source < sources_in (seen self.old) }
        requires at { IfSome (slice_get (seen self.old).chains source) (λ members. at < length members) }
        ensures { HubRemoves source at (seen self.old) (seen self.new) }
    {
        self.chains[source as usize].remove(at as usize);
    }

    /// The listeners that are left, source by source.
    pub fn into_members(self) -> Vec<Box<dyn Listener>>
        ensures { result.items ≡ in_order (seen self).chains }
    {
        let Hub {
            sources,
            chains,
            mut members,
        } = self;
        sources.end();
        gather(chains, &mut members);
        members
    }
}

/// Whether the reader took a block.
fn is_taking(event: Event) -> bool
    ensures { result ≡ takes event }
{
    matches!(event, Event::Took)
}
