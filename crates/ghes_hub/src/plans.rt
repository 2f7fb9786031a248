// The layouts of a table's sources.
ghost use Rattle.std.specs.Prelude.{◌≡◌, ◌⊎◌, ◌++◌, ◌∷◌, OnOk, IfOk, IfErr, ◌<◌, ◌≤◌, ◌+◌, ◌*◌, [], List, true, false, length, Some, None, MatchResult, vec_len, vec_capacity};
ghost use Rattle.hest_sources.specs.declared.sources.HestSource.{HestSource as AnySource};
ghost use Rattle.ghes_hub.specs.Layouts.{layout_windows};
ghost use Rattle.ghes_hub.specs.Refusals.{generics, layout_of, layouts_from, clashes, source_refusal, sources_refusal, all_windows};

use crate::checks::check;
use crate::clashes::put_all;
use crate::errors::HubError;
use crate::layouts::Layout;
use crate::plain::PlainMap;
use apei_space::Window;
use ghes_ack::{BlockWindow, HandoverMap};
use hest_sources::{Ghes, HestSource};

/// Where the block of the first source lies, and how far behind it each further one.
const BLOCKS: u64 = 0x1000_0000;

const STRIDE: u64 = 0x1_0000;

/// How many generic sources there are.
pub fn count(sources: &[HestSource]) -> usize
    ensures { result ≡ length (generics sources.now) }
{
    let mut found: usize = 0;
    let mut at: usize = 0;
    while let Some(source) = sources.get(at) {
        found += one_if_generic(source);
        at += 1;
    }
    found
}

fn one_if_generic(source: &HestSource) -> usize
    ensures { result ≡ length (generics (source.now ∷ [])) }
{
    match source {
        HestSource::Ghes(_) => 1,
        HestSource::Other {
            kind: _,
            at: _,
            len: _,
        } => 0,
    }
}

/// Lays the generic sources of a table out, at most 16.
pub fn plan(
    sources: &[HestSource],
    layouts: &mut Vec<Layout>,
    windows: &mut Vec<Window>,
) -> Result<(), HubError>
    requires few { length (generics sources.now) ≤ 16 }
    requires no_layouts { layouts.old.items ≡ [] }
    requires no_windows { windows.old.items ≡ [] }
    requires places { 16 ≤ vec_capacity layouts.old }
    requires room { 48 ≤ vec_capacity windows.old }
    ensures exact { MatchResult result (λ _. sources_refusal [] 0 (generics sources.now) ≡ None)
        (λ error. sources_refusal [] 0 (generics sources.now) ≡ Some error) }
    ensures planned { OnOk result (layouts.new.items ≡ layouts_from 0 (generics sources.now)) }
    ensures windows { OnOk result (windows.new.items ≡ all_windows layouts.new.items) }
{
    let mut at: usize = 0;
    while let Some(source) = sources.get(at) {
        plan_one(source, layouts, windows)?;
        at += 1;
    }
    Ok(())
}

/// Lays the next source out, if it is a generic one.
fn plan_one(
    source: &HestSource,
    layouts: &mut Vec<Layout>,
    windows: &mut Vec<Window>,
) -> Result<(), HubError>
    requires few { vec_len layouts.old + length (generics (source.now ∷ [])) ≤ 16 }
    requires places { vec_len layouts.old + length (generics (source.now ∷ [])) ≤ vec_capacity layouts.old }
    requires room { vec_len windows.old + 3 * length (generics (source.now ∷ [])) ≤ vec_capacity windows.old }
    ensures exact { (rest : List AnySource)
        → MatchResult result (λ _. sources_refusal windows.old.items (vec_len layouts.old)
        (generics (source.now ∷ rest)) ≡ sources_refusal windows.new.items (vec_len layouts.new) (generics rest))
        (λ error. sources_refusal windows.old.items (vec_len layouts.old) (generics (source.now ∷ rest))
        ≡ Some error) }
    ensures planned { OnOk result ((rest : List AnySource) → layouts.new.items ++ layouts_from (vec_len layouts.new)
        (generics rest) ≡ layouts.old.items ++ layouts_from (vec_len layouts.old) (generics (source.now ∷ rest))) }
    ensures windows { OnOk result (windows.old.items ≡ all_windows layouts.old.items
        → windows.new.items ≡ all_windows layouts.new.items) }
    ensures count { OnOk result (vec_len layouts.new ≡ vec_len layouts.old + length (generics (source.now ∷ []))) }
    ensures len { vec_len windows.new ≤ vec_len windows.old + 3 * length (generics (source.now ∷ [])) }
    ensures layouts_room { vec_capacity layouts.new ≡ vec_capacity layouts.old }
    ensures windows_room { vec_capacity windows.new ≡ vec_capacity windows.old }
{
    match source {
        HestSource::Other {
            kind: _,
            at: _,
            len: _,
        } => Ok(()),
        HestSource::Ghes(ghes) => {
            let layout = lay(layouts.len(), ghes, windows)?;
            layouts.push_reserved(layout);
            Ok(())
        }
    }
}

/// The layout of a source behind those of others, whose windows are there.
fn lay(index: usize, source: &Ghes, windows: &mut Vec<Window>) -> Result<Layout, HubError>
    requires few { index < 16 }
    requires room { vec_len windows.old + 3 ≤ vec_capacity windows.old }
    ensures laid { IfOk result (λ layout. (source_refusal index source.now ≡ None)
        × (clashes windows.old.items (layout_windows (layout_of index source.now)) ≡ false)
        × (layout ≡ layout_of index source.now) × (windows.new.items ≡ windows.old.items ++ layout_windows layout)) }
    ensures refused { IfErr result (λ error. (source_refusal index source.now ≡ Some error)
        ⊎ ((source_refusal index source.now ≡ None)
        × (clashes windows.old.items (layout_windows (layout_of index source.now)) ≡ true)
        × (error ≡ HubError.Clash index))) }
    ensures len { vec_len windows.new ≤ vec_len windows.old + 3 }
    ensures room { vec_capacity windows.new ≡ vec_capacity windows.old }
{
    check(index, source)?;
    let layout = layout_of(index, source);
    if put_all(&layout, windows) {
        return Err(HubError::Clash {
            index: index as u64,
        });
    }
    Ok(layout)
}

/// Where the parts of a source lie.
fn layout_of(index: usize, source: &Ghes) -> Layout
    requires few { index < 16 }
    requires checked { source_refusal index source.now ≡ None }
    ensures { result ≡ layout_of index source.now }
{
    let block = BLOCKS + STRIDE * index as u64;
    if let Some(ack) = &source.ack {
        if let Ok(register) = ack.register.check() {
            return Layout::Acknowledged(HandoverMap {
                status: source.status.address,
                ack: register,
                preserve: ack.preserve,
                write: ack.write,
                block,
                len: source.block_len,
            });
        }
    }
    let len = source.block_len;
    Layout::Plain(PlainMap {
        status: source.status.address,
        window: BlockWindow { block, len },
    })
}
