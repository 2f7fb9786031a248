// The mark of a record in persistent storage.
ghost use Rattle.std.specs.Prelude.{◌≡◌, ◌≤◌, length, codes};
ghost use Rattle.base_model.specs.Bytes.{put_at};

use apei_bytes::write_array;

/// Marks a record as one that the firmware's store holds: "ER" in its persistence information (UEFI 2.8, N.2.1).
pub fn stamp(bytes: &mut [u8])
    requires { 110 ≤ length bytes.old }
    ensures { bytes.new ≡ put_at bytes.old 108 (codes "ER") }
{
    write_array(bytes, 108, b"ER");
}
