// A Boot Error Record Table, which has no parts.
ghost use Rattle.std.specs.Prelude.{IfOk, IfErr};
ghost use Rattle.item_parts.specs.Items.{BertParts, Counts, Tells, FindsCount, FindsPart, IsFault};

use crate::faults::ItemError;
use crate::items::Item;
use crate::parts::Part;
use ghes_block::Bert;

/// No parts, where the bytes begin with such a table.
pub fn count(bytes: &[u8]) -> Result<u32, ItemError>
    ensures found { IfOk result (Counts BertParts bytes.now) }
    ensures only { FindsCount BertParts bytes.now result }
    ensures refused { IfErr result (IsFault Item.Bert bytes.now) }
{
    match Bert::decode(bytes) {
        Ok((_bert, _size)) => Ok(0),
        Err(error) => Err(ItemError::Bert(error)),
    }
}

/// No part, where the bytes begin with such a table.
pub fn part(bytes: &[u8], index: u32) -> Result<Option<Part>, ItemError>
    ensures found { IfOk result (Tells BertParts bytes.now index) }
    ensures only { FindsPart BertParts bytes.now index result }
    ensures refused { IfErr result (IsFault Item.Bert bytes.now) }
{
    match Bert::decode(bytes) {
        Ok((_bert, _size)) => Ok(None),
        Err(error) => Err(ItemError::Bert(error)),
    }
}
