// Sums of words of 32 bits.
ghost use Rattle.std.specs.Prelude.{◌≡◌, ◌*◌, ◌%◌, ◌^◌, ◌≤◌, length};
ghost use Rattle.image_survey.specs.Checksums.{word_sum};

use apei_bytes::get_u32;

/// What the first words of 32 bits add to, modulo 2^32.
pub fn word_sum(bytes: &[u8], words: usize) -> u32
    requires { 4 * words ≤ length bytes.now }
    ensures { result ≡ word_sum words bytes.now % 2 ^ 32 }
{
    let mut sum: u32 = 0;
    for word in 0..words {
        sum = sum.wrapping_add(get_u32(bytes, 4 * word));
    }
    sum
}
