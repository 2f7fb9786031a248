// The law on a script that is read line by line: the function does nothing, and its clause is the law.
ghost use Rattle.script_lines.specs.Reads.{AreReadInOrder};

use apei_bytes::Source;

/// What is read line by line from the start of a script on are its lines, one after another; and each call of `advance` says where
/// among them it stands.
pub fn lines_are_read_in_order<I: Source>()
    ensures { AreReadInOrder I.tells }
{}
