// The image of a flash.
ghost use Rattle.std.specs.Prelude.{◌≡◌, ◌*◌, length, IfOk};
ghost use Rattle.image_survey.specs.Copies.{IsAnswer, LeavesAlone};

use flash_model::{Flash, Geometry, erased};
use record_slots::ScanError;
use std::alloc::Global;

/// All bytes of a flash, by one read of it.
pub fn read_image<F: Flash>(
    alloc: Global,
    flash: &mut F,
    geometry: &Geometry,
) -> Result<Vec<u8>, ScanError>
    ensures answer { IsAnswer geometry.now (F.state flash.old) (F.state flash.new) result }
    ensures alone { LeavesAlone F.tells (F.state flash.old) (F.state flash.new) }
    ensures image { IfOk result (λ image. F.tells → image.items ≡ (F.state flash.old).told.image) }
    ensures sized { IfOk result (λ image. length image.items ≡ geometry.now.slot_size * geometry.now.slots) }
{
    let found = flash.size();
    let sector = u64::from(flash.sector_size());
    if found != geometry.size() || sector != geometry.sector {
        return Err(ScanError::Size { found, sector });
    }
    let mut image = erased(alloc, geometry)?;
    flash.read(0, &mut image)?;
    Ok(image)
}
