// Why a block is not taken over.
ghost use Rattle.std.specs.Prelude.{◌≡◌, ◌<◌, OnOk, MatchResult, Some, None};
ghost use Rattle.ghes_ack.specs.Machine.{Fits};
ghost use Rattle.ghes_ack.specs.Submissions.{refusal_of};

use crate::WAITING;
use ghes_block::{Block, BlockError};

/// Why a block is refused, the first reason that applies.
#[derive(Clone, Copy, Debug, PartialEq, Eq)]
pub enum SubmitError {
    /// So many bytes are more than the window has.
    Long { len: u64 },
    /// It is no error status block.
    Malformed(BlockError),
    /// So many bytes follow the block.
    Trailing { bytes: u64 },
    /// 64 blocks wait.
    Full,
}

/// Whether a window of so many bytes takes a block, where so many blocks wait.
pub fn check_block(block: &[u8], window: u32, waiting: usize) -> Result<(), SubmitError>
    ensures exact { MatchResult result (λ _. refusal_of window block.now waiting ≡ None)
        (λ error. refusal_of window block.now waiting ≡ Some error) }
    ensures fits { OnOk result (Fits window block.now) }
    ensures room { OnOk result (waiting < 64) }
{
    let len = block.len() as u64;
    if len > u64::from(window) {
        return Err(SubmitError::Long { len });
    }
    match Block::decode(block) {
        Err(error) => return Err(SubmitError::Malformed(error)),
        Ok((_, size)) => {
            if size < block.len() {
                let bytes = (block.len() - size) as u64;
                return Err(SubmitError::Trailing { bytes });
            }
        }
    }
    if waiting >= WAITING {
        return Err(SubmitError::Full);
    }
    Ok(())
}
