// The opening of a hub.
ghost use Rattle.std.specs.Prelude.{◌≡◌, ◌≤◌, [], length, IfOk, IfErr, MatchResult, None, vec_capacity};
ghost use Rattle.ghes_hub.specs.Deals.{AreEmpty};
ghost use Rattle.ghes_hub.specs.Opens.{IsOpened, IsReady};
ghost use Rattle.ghes_hub.specs.Seen.{seen};
ghost use Rattle.ghes_hub.specs.Refusals.{hub_refusal, IsRefusal};

use crate::deals::{chains, deal, empty_lists};
use crate::errors::{HubError, HubRefused};
use crate::hub::Hub;
use crate::joins::join_all;
use crate::plans::{count, plan};
use crate::sources::Sources;
use apei_bytes::OutOfMemory;
use apei_notify::{Chain, Listener};
use apei_space::Ram;
use hest_sources::{Hest, HestSource};
use std::alloc::Global;

/// The sources of a table over a memory of their own.
fn sources_of(alloc: Global, sources: &[HestSource]) -> Result<Sources, HubError>
    ensures opened { IfOk result (IsReady sources.now) }
    ensures exact { MatchResult result (λ _. hub_refusal sources.now ≡ None) (IsRefusal sources.now) }
{
    let found = count(sources);
    if found == 0 {
        return Err(HubError::NoSource);
    }
    if found > 16 {
        return Err(HubError::Many {
            found: found as u64,
        });
    }
    let mut layouts = Vec::with_capacity(alloc, 16)?;
    let mut ranges = Vec::with_capacity(alloc, 48)?;
    plan(sources, &mut layouts, &mut ranges)?;
    let windows = join_all(alloc, &ranges)?;
    let ram = Ram::new(alloc, &windows)?;
    Ok(Sources::begin(alloc, &layouts, ram)?)
}

/// A hub without listeners, and lists for them.
struct Ready {
    sources: Sources,
    lists: Vec<Vec<Box<dyn Listener>>>,
    chains: Vec<Chain>,
    members: Vec<Box<dyn Listener>>,
}

/// All the memory of a hub.
fn prepare(alloc: Global, sources: &[HestSource], many: usize) -> Result<Ready, HubError>
    ensures opened { IfOk result (λ ready. IsReady sources.now ready.sources) }
    ensures lists { IfOk result (λ ready. AreEmpty (length ready.sources.list) many ready.lists.items) }
    ensures chains { IfOk result (λ ready. ready.chains.items ≡ []) }
    ensures chains_room { IfOk result (λ ready. length ready.sources.list ≤ vec_capacity ready.chains) }
    ensures members { IfOk result (λ ready. ready.members.items ≡ []) }
    ensures members_room { IfOk result (λ ready. many ≤ vec_capacity ready.members) }
    ensures exact { MatchResult result (λ _. hub_refusal sources.now ≡ None) (IsRefusal sources.now) }
{
    let opened = sources_of(alloc, sources)?;
    match lists_for(alloc, opened.len(), many) {
        Ok((lists, chains, members)) => Ok(Ready {
            sources: opened,
            lists,
            chains,
            members,
        }),
        Err(_) => {
            opened.end();
            Err(HubError::Memory)
        }
    }
}

/// Lists and chains for so many sources, and room for so many listeners.
fn lists_for(
    alloc: Global,
    count: usize,
    many: usize,
) -> Result<
    (
        Vec<Vec<Box<dyn Listener>>>,
        Vec<Chain>,
        Vec<Box<dyn Listener>>,
    ),
    OutOfMemory,
>
    ensures lists { IfOk result (λ ready. AreEmpty count many ready.0.items) }
    ensures chains { IfOk result (λ ready. ready.1.items ≡ []) }
    ensures chains_room { IfOk result (λ ready. count ≤ vec_capacity ready.1) }
    ensures members { IfOk result (λ ready. ready.2.items ≡ []) }
    ensures members_room { IfOk result (λ ready. many ≤ vec_capacity ready.2) }
{
    let lists = empty_lists(alloc, count, many)?;
    let chains = Vec::with_capacity(alloc, count)?;
    let members = Vec::with_capacity(alloc, many)?;
    Ok((lists, chains, members))
}

impl Hub {
    /// Serves every generic source of a table, the listeners dealt out to them in turn. All memory is taken before a listener is moved.
    pub fn open(
        alloc: Global,
        hest: &Hest,
        listeners: Vec<Box<dyn Listener>>,
    ) -> Result<Hub, HubRefused>
        ensures opened { IfOk result (λ hub. IsOpened hest.now listeners.items (seen hub)) }
        ensures exact { MatchResult result (λ _. hub_refusal hest.now ≡ None)
            (λ refused. IsRefusal hest.now refused.why) }
        ensures back { IfErr result (λ refused. refused.listeners.items ≡ listeners.items) }
    {
        match prepare(alloc, hest.sources(), listeners.len()) {
            Err(why) => Err(HubRefused { why, listeners }),
            Ok(ready) => {
                let Ready {
                    sources,
                    mut lists,
                    chains: mut members_of,
                    members,
                } = ready;
                deal(&mut lists, listeners);
                chains(lists, &mut members_of);
                Ok(Hub {
                    sources,
                    chains: members_of,
                    members,
                })
            }
        }
    }
}
