// What bytes begin with, and what they add to.
ghost use Rattle.std.specs.Prelude.{◌≡◌, ◌%◌, length, nat_eq, sum};
ghost use Rattle.std.specs.List.{starts_with};

/// Whether the bytes begin with these `N`.
pub fn begins_with<const N: usize>(bytes: &[u8], prefix: &[u8; N]) -> bool
    ensures value { result ≡ starts_with nat_eq bytes.now prefix.now }
    ensures size { length prefix.now ≡ N }
{
    bytes.starts_with(prefix)
}

/// What the bytes add to, modulo 256.
pub fn sum_of(bytes: &[u8]) -> u8
    ensures { result ≡ sum bytes.now % 256 }
{
    let mut total: u8 = 0;
    for byte in bytes {
        total = total.wrapping_add(*byte);
    }
    total
}
