// Where a flash stands in its file.
ghost use Rattle.std.specs.Prelude.{◌≡◌, ◌*◌, ◌≤◌, length, drop};
ghost use Rattle.apei_look.specs.Places.{flash_at, file_size};

use flash_model::Geometry;

/// The byte of a file at which the flash begins: behind the first sector of a medium, and else at once.
pub fn flash_at(geometry: &Geometry, is_medium: bool) -> u64
    ensures at { result ≡ flash_at is_medium geometry.now }
    ensures near { result ≤ geometry.now.sector }
{
    if is_medium { geometry.sector() } else { 0 }
}

/// The bytes of a file that is whole.
pub fn file_size(geometry: &Geometry, is_medium: bool) -> u64
    ensures { result ≡ file_size is_medium geometry.now }
{
    flash_at(geometry, is_medium) + geometry.size()
}

/// The flash of a file that is whole.
pub fn flash_of<'a>(file: &'a [u8], geometry: &Geometry, is_medium: bool) -> &'a [u8]
    requires { length file.now ≡ file_size is_medium geometry.now }
    ensures flash { result.now ≡ drop (flash_at is_medium geometry.now) file.now }
    ensures sized { length result.now ≡ geometry.now.slot_size * geometry.now.slots }
{
    &file[flash_at(geometry, is_medium) as usize..]
}
