// A space with a handover behind it.
ghost use Rattle.std.specs.Prelude.{◌≡◌, ◌≤◌, ℕ, List, length};
ghost use Rattle.apei_space.specs.Accesses.{Reaches};
ghost use Rattle.ghes_ack.specs.declared.events.Side.TheVariants.{Reader as OfReader};
ghost use Rattle.ghes_ack.specs.declared.events.Event.{Event as TurnEvent};
ghost use Rattle.ghes_ack.specs.declared.events.Event.TheVariants.{Took as HasTaken};
ghost use Rattle.ghes_ack.specs.Machine.{Machine, turned, last_taken, is_idle};

use crate::events::Event;
use apei_space::Space;

/// A space whose firmware hands blocks of at most 4,096 bytes over. Its accesses leave the handover as it is.
pub trait Station: Space {
    /// The states of the handover machine that a state of the space stands for: there is always one.
    ghost stands: { Self → Machine → Type 0 };

    /// The changes that were made to what keeps the records.
    ghost changes: { Self → ℕ };

    /// A turn of the reader: before, its event, after.
    ghost reads: { Self → TurnEvent → Self → Type 0 };

    /// The block taken last, empty where none was.
    ghost last: { Self → List ℕ };

    /// A turn of the reader.
    fn reader_turn(&mut self) -> Event
        ensures some { (m : Machine) × stands self.old m }
        ensures reads { reads self.old result self.new };

    /// The block taken last, empty where none was.
    fn taken(&self) -> &[u8]
        ensures some { (m : Machine) × stands self.now m }
        ensures last { result.now ≡ last self.now }
        ensures short { length result.now ≤ 4096 };

    /// Whether the reader neither reads a block nor has still to acknowledge one.
    fn reader_idle(&self) -> bool
        ensures some { (m : Machine) × stands self.now m }
        ensures idle { (m : Machine) → stands self.now m → result ≡ is_idle m.situation };

    /// The changes so far.
    fn steps(&self) -> u64
        ensures { result ≡ changes self.now };

    /// A turn of the reader is one of the handover machine, from each state of it that the space stood for.
    ghost one_turn: { (old new : Self) (event : TurnEvent) (m : Machine) → reads old event new → stands old m
        → (event ≡ (turned OfReader m).0) × stands new (turned OfReader m).1 };

    /// A block that was taken has a block's head.
    ghost whole: { (old new : Self) → reads old HasTaken new → 20 ≤ length (last new) };

    /// The block taken last is the handover machine's.
    ghost taken_last: { (space : Self) (m : Machine) → stands space m → last space ≡ last_taken m };

    /// A turn of the reader leaves what keeps the records.
    ghost unchanged: { (old new : Self) (event : TurnEvent) → reads old event new → changes new ≡ changes old };

    /// Accesses leave the handover.
    ghost apart: { (old new : Self) (m : Machine) → Reaches Self.allows (Self.state old) (Self.state new) → stands old m → stands new m };
}
