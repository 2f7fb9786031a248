// The registers of a source, by its structure.
ghost use Rattle.std.specs.Prelude.{◌≡◌, ◌<◌, ◌*◌, ◌^◌, nat_lt, IfOk, MatchResult, Some, None};
ghost use Rattle.apei_tables.specs.Check.{register_of};
ghost use Rattle.ghes_port.specs.Sound.{HasBits};
ghost use Rattle.ghes_port.specs.Machine.{address_number};
ghost use Rattle.apei_tables.specs.Access.{bits};
ghost use Rattle.ghes_port.specs.Setups.{moved_up, ack_by, ack_of, map_of, lies_within, address_fault, ack_fault, register_fault};

use crate::errors::OpenError;
use crate::maps::{AckRegister, SourceMap};
use crate::setups::Setup;
use crate::writes::ones;
use apei_tables::Register;
use hest_sources::Ack;

/// A mask moved up to a register's field; bits past bit 63 are lost.
fn moved_up(mask: u64, register: &Register) -> u64
    requires { register.now.offset < 64 }
    ensures { result ≡ moved_up mask register.now }
{
    mask << register.offset
}

/// Whether a number that is moved up to a register's field has no bit outside the register's access.
fn lies_within(number: u64, register: &Register) -> bool
    requires { register.now.offset < 64 }
    ensures { result ≡ lies_within number register.now }
{
    u128::from(number) << u32::from(register.offset) <= u128::from(ones(register.access))
}

/// Whether a number has at most so many bits.
fn has_at_most(number: u64, width: u8) -> bool
    ensures { result ≡ nat_lt number (2 ^ width) }
{
    width >= 64 || number >> width == 0
}

/// The register of the block's address.
fn address_register(index: u32, setup: &Setup) -> Result<Register, OpenError>
    ensures exact { MatchResult result (λ _. address_fault index setup.now ≡ None)
        (λ error. address_fault index setup.now ≡ Some error) }
    ensures found { IfOk result (λ register. register ≡ register_of setup.now.source.status) }
    ensures offset { IfOk result (λ register. register.offset < 64) }
    ensures fits { IfOk result (λ register. setup.now.block * 2 ^ register.offset < 2 ^ bits register.access) }
{
    let gas = &setup.source.status;
    match gas.check() {
        Err(why) => Err(OpenError::AddressRegister { index, why }),
        Ok(register) => {
            if has_at_most(setup.block, gas.width) {
                Ok(register)
            } else {
                Err(OpenError::Address { index })
            }
        }
    }
}

/// The acknowledge register, if there is one.
fn ack_register(index: u32, ack: &Option<Ack>) -> Result<Option<AckRegister>, OpenError>
    ensures exact { MatchResult result (λ _. ack_fault index ack.now ≡ None)
        (λ error. ack_fault index ack.now ≡ Some error) }
    ensures found { IfOk result (λ found. found ≡ ack_of ack.now) }
    ensures bits { IfOk result (λ found. HasBits found) }
{
    match ack {
        None => Ok(None),
        Some(ack) => {
            let found = ack_by(index, ack)?;
            Ok(Some(found))
        }
    }
}

fn ack_by(index: u32, ack: &Ack) -> Result<AckRegister, OpenError>
    ensures exact { MatchResult result (λ _. ack_fault index (Some ack.now) ≡ None)
        (λ error. ack_fault index (Some ack.now) ≡ Some error) }
    ensures found { IfOk result (λ found. found ≡ ack_by ack.now (register_of ack.now.register)) }
    ensures bits { IfOk result (λ found. HasBits (Some found)) }
{
    match ack.register.check() {
        Err(why) => Err(OpenError::AckRegister { index, why }),
        Ok(register) => {
            if ack.write == 0 || !lies_within(ack.write, &register) {
                return Err(OpenError::Mask { index });
            }
            Ok(AckRegister {
                place: register.place,
                access: register.access,
                keep: moved_up(ack.preserve, &register),
                set: moved_up(ack.write, &register),
            })
        }
    }
}

/// Where a source lies.
pub(crate) fn map_of(index: u32, setup: &Setup) -> Result<SourceMap, OpenError>
    ensures exact { MatchResult result (λ _. register_fault index setup.now ≡ None)
        (λ error. register_fault index setup.now ≡ Some error) }
    ensures found { IfOk result (λ map. map ≡ map_of setup.now) }
    ensures offset { IfOk result (λ map. map.address.offset < 64) }
    ensures fits { IfOk result (λ map. address_number map < 2 ^ bits map.address.access) }
    ensures bits { IfOk result (λ map. HasBits map.ack) }
{
    let address = address_register(index, setup)?;
    let ack = ack_register(index, &setup.source.ack)?;
    Ok(SourceMap {
        address,
        block: setup.block,
        len: setup.source.block_len,
        ack,
    })
}
