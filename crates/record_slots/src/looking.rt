// The first pass of a scan: the look at every slot, which changes nothing.
ghost use Rattle.std.specs.Prelude.{◌≡◌, ◌*◌, ◌≤◌, [], length, OnOk, vec_capacity};
ghost use Rattle.base_model.specs.Flash.{OnlyReads};
ghost use Rattle.record_model.specs.Records.{slot_at};
ghost use Rattle.record_slots.specs.Slots.{Fits};
ghost use Rattle.record_slots.specs.Looks.{AreSeen};

use crate::found::Look;
use crate::look;
use flash_model::{Flash, FlashFailed, Geometry};

/// Keeps the head and the tail mark of every slot, by two reads of each.
pub fn look_at_slots<F: Flash>(
    looks: &mut Vec<Look>,
    flash: &mut F,
    geometry: &Geometry,
) -> Result<(), FlashFailed>
    requires fits { Fits geometry.now (F.state flash.old) }
    requires none { looks.old.items ≡ [] }
    requires room { geometry.now.slots ≤ vec_capacity looks.old }

    ensures seen { OnOk result (F.tells → AreSeen (slot_at geometry.now.slot_size (F.state flash.old).told.image)
        geometry.now.slots looks.new.items) }
    ensures looked { OnOk result (length looks.new.items ≡ geometry.now.slots) }
    ensures capacity { vec_capacity looks.new ≡ vec_capacity looks.old }
    ensures stays { OnlyReads F.tells (2 * geometry.now.slots) (F.state flash.old) (F.state flash.new) result }
{
    for slot in 0..geometry.slots as u32 {
        let (head, tail) = look(flash, geometry, slot)?;
        looks.push_reserved(Look { head, tail });
    }
    Ok(())
}
