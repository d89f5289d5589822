//! The laws of walks. The functions take and answer nothing: their contracts are the laws.

ghost use Rattle.c_program.specs.Tree.{Program};
ghost use Rattle.c_interpreter.specs.Walk.{EachWalkEnds, WalksOnce};

/// A list of thread numbers leads to one end, with one output.
pub fn walks_once()
    ensures { (P : Program) → WalksOnce P }
{}

/// Each list of thread numbers leads to an end.
pub fn each_walk_ends()
    ensures { (P : Program) → EachWalkEnds P }
{}
