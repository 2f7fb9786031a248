// What is wrong with an item that a standard has.
ghost use Rattle.std.specs.Prelude.{IfOk};
ghost use Rattle.show_items.specs.Judged.{IsFinding};

use crate::sheet::Sheet;
use item_parts::Item;
use show_findings::{Fault, fault_of};
use std::alloc::AllocError;

/// The first fault of an item; none where it is as its standard says.
#[tactic(auto, unfolding(crate::specs::Judged::IsFinding))]
pub(crate) fn fault_in(
    sheet: &Sheet<'_>,
    item: Item,
    bytes: &[u8],
) -> Result<Option<Fault>, AllocError>
    ensures { IfOk result (IsFinding item bytes.now) }
{
    fault_of(sheet.alloc(), item, bytes)
}
