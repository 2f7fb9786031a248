// The checksum of a table.
ghost use Rattle.std.specs.Prelude.{◌≡◌, ◌≤◌, ◌%◌, length, sum};
ghost use Rattle.base_model.specs.Bytes.{SameOutside};

use crate::bytes::sum_of;

/// Sets the checksum byte of a table, so that all its bytes add to 0 modulo 256 (ACPI 6.4, section 5.2.6).
pub fn seal(table: &mut [u8])
    requires { 36 ≤ length table.old }
    ensures sum { sum table.new % 256 ≡ 0 }
    ensures others { SameOutside 9 1 table.old table.new }
{
    table[9] = 0;
    table[9] = sum_of(table).wrapping_neg();
}
