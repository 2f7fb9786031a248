// Ranges of bytes that stand for a flash.
ghost use Rattle.std.specs.Prelude.{◌≡◌, ◌+◌, ◌≤◌, length, replicate};
ghost use Rattle.base_model.specs.Bytes.{part, put_at};

/// The bytes of a range.
pub fn copy_range(image: &[u8], at: usize, buf: &mut [u8])
    requires { at + length buf.old ≤ length image.now }
    ensures { buf.new ≡ part image.now at (length buf.old) }
{
    buf.copy_from_slice(&image[at..at + buf.len()]);
}

/// Puts bytes in the place of those of a range.
pub fn put_range(image: &mut [u8], at: usize, bytes: &[u8])
    requires { at + length bytes.now ≤ length image.old }
    ensures { image.new ≡ put_at image.old at bytes.now }
{
    image[at..at + bytes.len()].copy_from_slice(bytes);
}

/// Fills a range with one byte.
pub fn fill_range(image: &mut [u8], at: usize, len: usize, byte: u8)
    requires { at + len ≤ length image.old }
    ensures { image.new ≡ put_at image.old at (replicate len byte) }
{
    image[at..at + len].fill(byte);
}
