// The hub.
ghost use Rattle.std.specs.Prelude.{◌≡◌, ◌≤◌, length, vec_capacity, [], map};
ghost use Rattle.apei_notify.specs.Chains.{members_of};
ghost use Rattle.ghes_hub.specs.Chains.{in_order};

mod calls;
mod open;

use crate::sources::Sources;
use apei_notify::{Chain, Listener};

/// Every generic error source of a table over one memory, each with its own listeners. It may not be dropped: `into_members`
/// spends it.
pub struct Hub {
    sources: Sources,
    chains: Vec<Chain>,
    /// Room for the listeners of all chains.
    members: Vec<Box<dyn Listener>>,
    ghost one_each: { length chains.items ≡ length sources.list },
    ghost few: { length chains.items ≤ 16 },
    ghost empty: { members.items ≡ [] },
    ghost room: { length (in_order (map members_of chains.items)) ≤ vec_capacity members },
}
