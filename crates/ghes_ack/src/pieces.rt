// The pieces of a block: 64 bytes each, the last one shorter.
ghost use Rattle.std.specs.Prelude.{◌≡◌, length, min};
ghost use Rattle.base_model.specs.Bytes.{part};
ghost use Rattle.ghes_ack.specs.Pieces.{hidden};

/// The bytes of a piece.
pub const PIECE: usize = 64;

/// Copies the first piece of a block, its status word as 0.
pub fn copy_hidden(block: &[u8], out: &mut [u8])
    requires { length out.old ≡ min (length block.now) 64 }
    ensures { out.new ≡ part (hidden block.now) 0 64 }
{
    let end = out.len();
    out.copy_from_slice(&block[..end]);
    out[..end.min(4)].fill(0);
}
