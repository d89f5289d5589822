//! Lowered code as planned blocks: their runs are steps of its thread, and so are its acts.
#![tactic(auto)]

ghost use Rattle.block_refine.specs.Acts.{WordsPrint};
ghost use Rattle.block_refine.specs.Routines.{CodeFollows, BlocksAreSteps};
ghost use Rattle.block_refine.specs.RoutineActs.{ActsAreSteps, ReturnsAreSteps};

/// The code of each function that threads run.
pub fn refined_code()
    // The code of a function, planned in blocks, does in the sense of the theory of planned hardware what a thread does that
    // begins with the function.
    ensures code_follows { CodeFollows }
    // So the run of a block is a number of steps of its thread, none of them an act.
    ensures blocks_are_steps { BlocksAreSteps }
    // An act of the code is the next step of its thread, where that is not undefined.
    ensures acts_are_steps { ActsAreSteps }
    // Main's return ends the program and leaves all other threads, the globals, mutexes and barriers as they are.
    ensures returns_are_steps { ReturnsAreSteps }
    // What a printf prints of its operands its format prints of their words of 64 bits.
    ensures words_print { WordsPrint }
{}
