// Listeners that are dealt out to chains, and gathered again.
ghost use Rattle.std.specs.Prelude.{◌≡◌, ◌<◌, ◌≤◌, ◌+◌, ◌++◌, length, IfOk, vec_len, vec_capacity, [], map};
ghost use Rattle.apei_notify.specs.Chains.{members_of};
ghost use Rattle.ghes_hub.specs.Chains.{in_order};
ghost use Rattle.ghes_hub.specs.Deals.{AreDealt, AreEmpty};

use apei_bytes::OutOfMemory;
use apei_notify::{Chain, Listener};
use std::alloc::Global;

/// So many empty lists, each with room for so many listeners.
pub fn empty_lists(
    alloc: Global,
    count: usize,
    many: usize,
) -> Result<Vec<Vec<Box<dyn Listener>>>, OutOfMemory>
    ensures { IfOk result (λ lists. AreEmpty count many lists.items) }
{
    let mut lists = Vec::with_capacity(alloc, count)?;
    while lists.len() < count {
        lists.push_reserved(Vec::with_capacity(alloc, many)?);
    }
    Ok(lists)
}

/// Deals listeners out to lists in turn.
pub fn deal(lists: &mut Vec<Vec<Box<dyn Listener>>>, listeners: Vec<Box<dyn Listener>>)
    requires some { 0 < length lists.old.items }
    requires empty { AreEmpty (length lists.old.items) (length listeners.items) lists.old.items }
    ensures { AreDealt (length lists.old.items) (length listeners.items) listeners.items [] lists.new.items }
{
    let count = lists.len();
    let mut number: usize = 0;
    for listener in listeners {
        let at = number % count;
        lists[at].push_reserved(listener);
        number += 1;
    }
}

/// A chain of each list.
pub fn chains(lists: Vec<Vec<Box<dyn Listener>>>, chains: &mut Vec<Chain>)
    requires none { chains.old.items ≡ [] }
    requires room { length lists.items ≤ vec_capacity chains.old }
    ensures { map members_of chains.new.items ≡ map (λ list. list.items) lists.items }
{
    for list in lists {
        chains.push_reserved(Chain::new(list));
    }
}

/// Puts the members of chains behind others, chain by chain.
pub fn gather(chains: Vec<Chain>, members: &mut Vec<Box<dyn Listener>>)
    requires room { vec_len members.old + length (in_order (map members_of chains.items)) ≤ vec_capacity members.old }
    ensures { members.new.items ≡ members.old.items ++ in_order (map members_of chains.items) }
{
    for chain in chains {
        for member in chain.into_members() {
            members.push_reserved(member);
        }
    }
}
