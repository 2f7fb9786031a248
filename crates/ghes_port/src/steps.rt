// What a source does after each access.
ghost use Rattle.std.specs.Prelude.{◌≡◌, ℕ, List, ◌<◌, ◌^◌, length};
ghost use Rattle.ghes_port.specs.Machine.{frees, addressed, filled, piece_at, piece_done, stage_after};
ghost use Rattle.ghes_port.specs.Sound.{IsPassing};

use crate::maps::{AckRegister, SourceMap};
use crate::stages::Stage;

/// The bytes of a piece.
const PIECE: usize = 64;

/// Whether the guest has acknowledged.
pub(crate) fn frees(ack: &Option<AckRegister>, value: u64) -> bool
    ensures { result ≡ frees ack.now value }
{
    match ack {
        Some(ack) => value & ack.set == ack.set,
        None => value % (1 << 32) == 0,
    }
}

/// The stage after the address.
fn addressed(ack: &Option<AckRegister>) -> Stage
    ensures { result ≡ addressed ack.now }
{
    match ack {
        Some(_) => Stage::ReadFirst,
        None => Stage::Fill { piece: 0 },
    }
}

/// The stage after the last piece.
fn filled(ack: &Option<AckRegister>) -> Stage
    ensures { result ≡ filled ack.now }
{
    match ack {
        Some(_) => Stage::ReadAck,
        None => Stage::Show,
    }
}

/// The stage after a piece.
pub(crate) fn piece_done(map: &SourceMap, block: &[u8], piece: u32) -> Stage
    requires begins { piece_at piece < length block.now }
    requires short { length block.now < 2 ^ 32 }
    ensures { result ≡ piece_done map.now block.now piece }
{
    if 4 + PIECE * (piece as usize + 1) < block.len() {
        return Stage::Fill { piece: piece + 1 };
    }
    filled(&map.ack)
}

/// The stage after one in which no block is filled or waited for.
pub(crate) fn next_stage(map: &SourceMap, stage: Stage, value: u64) -> Stage
    requires { IsPassing stage }
    ensures { (queue : List (List ℕ)) → result ≡ stage_after map.now queue stage value }
{
    match stage {
        Stage::Hide => Stage::TellAddress,
        Stage::TellAddress => addressed(&map.ack),
        Stage::ReadFirst => Stage::SetAck { read: value },
        Stage::SetAck { read: _ } => Stage::Fill { piece: 0 },
        Stage::ReadAck => Stage::ClearAck { read: value },
        Stage::ClearAck { read: _ } => Stage::Show,
        Stage::Show => Stage::Notify,
        Stage::Notify | Stage::Await => Stage::Await,
        Stage::Fill { piece } => Stage::Fill { piece },
    }
}
