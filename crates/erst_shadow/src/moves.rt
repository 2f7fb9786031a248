// A law on moves: the function does nothing, and its clause is the law.
ghost use Rattle.erst_shadow.specs.PlainMoves.{Places, HoldsMove, MoveRun, IsMoveRun, CopiesOrStops};

/// A run of a move over plain memory copies exactly so many pieces of 128 bytes, by 8 steps a piece and 6 more, and changes no byte
/// but those of the target and of its four registers; or its steps run out within it.
pub fn a_move_copies()
    ensures { (run : MoveRun) (at : Places) → HoldsMove run.first run.move at → IsMoveRun run → CopiesOrStops run at }
{}
