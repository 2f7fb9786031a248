// The sources of C's numbers.
ghost use Rattle.std.specs.Prelude.{◌≡◌, ◌⊎◌, length, OnOk, IfOk, IfErr, MatchResult, Some, None};
ghost use Rattle.apei_c.specs.SourceSetups.{gas_of, ack_of, ghes_of, setup_of, setups_of, untyped};

use crate::source_structs::{RegisterNumbers, SourceNumbers};
use apei_tables::Gas;
use ghes_port::Setup;
use hest_sources::{Ack, Ghes};
use std::alloc::{AllocError, Global};

fn gas_of(numbers: &RegisterNumbers) -> Gas
    ensures { result ≡ gas_of numbers.now }
{
    Gas {
        space: numbers.space,
        width: numbers.width,
        offset: numbers.offset,
        access: numbers.access,
        address: numbers.address,
    }
}

/// The acknowledge register, where the source has one.
fn ack_of(numbers: &SourceNumbers) -> Option<Ack>
    ensures { result ≡ ack_of numbers.now }
{
    if numbers.kind != 10 {
        return None;
    }
    Some(Ack {
        register: gas_of(&numbers.ack),
        preserve: numbers.preserve,
        write: numbers.write,
    })
}

fn ghes_of(numbers: &SourceNumbers) -> Ghes
    ensures { result ≡ ghes_of numbers.now }
{
    Ghes {
        id: numbers.id,
        related: numbers.related,
        flags: numbers.flags,
        enabled: numbers.enabled,
        records: numbers.records,
        sections: numbers.sections,
        raw: numbers.raw,
        status: gas_of(&numbers.address),
        notify: numbers.notification,
        block_len: numbers.length,
        ack: ack_of(numbers),
    }
}

fn setup_of(numbers: &SourceNumbers) -> Setup
    ensures { result ≡ setup_of numbers.now }
{
    Setup {
        source: ghes_of(numbers),
        block: numbers.block,
        places: numbers.places,
    }
}

/// Whether each source is of type 9 or 10; if not, the first that is of neither.
pub fn check_types(numbers: &[SourceNumbers]) -> Result<(), usize>
    ensures { MatchResult result (λ _. untyped 0 numbers.now ≡ None) (λ index. untyped 0 numbers.now ≡ Some index) }
{
    let mut index: usize = 0;
    while let Some(one) = numbers.get(index) {
        if one.kind != 9 && one.kind != 10 {
            return Err(index);
        }
        index += 1;
    }
    Ok(())
}

pub fn setups_of(alloc: Global, numbers: &[SourceNumbers]) -> Result<Vec<Setup>, AllocError>
    ensures { IfOk result (λ setups. setups.items ≡ setups_of numbers.now) }
{
    let mut setups = Vec::with_capacity(alloc, numbers.len())?;
    for one in numbers {
        setups.push_reserved(setup_of(one));
    }
    Ok(setups)
}
