// Buffers of the caller.
ghost use Rattle.std.specs.Prelude.{◌≡◌};
ghost use Rattle.apei_c.specs.Buffers.{Fills};

use apei_space::put_part;

/// Puts bytes at the front of a buffer, if it has room for them, and says whether it has.
pub fn fill(buffer: &mut [u8], bytes: &[u8]) -> bool
    ensures { Fills bytes.now buffer.old result buffer.new }
{
    if buffer.len() < bytes.len() {
        return false;
    }
    put_part(buffer, 0, bytes);
    true
}
