//! A net of threads at work, a slot at a time.
//! `rt plant`: of 91 wrong bodies in 25 functions 38 are refused, 2 by the premise of a callee alone, 3 answer the same and 48 could not be judged.
#![tactic(auto)]

pub mod changing;
pub mod members;
pub mod need;
pub mod opening;
pub mod running;
pub mod same;
pub mod slot;
pub mod taking;

ghost use Rattle.slot_sim.specs.Laws.{AloneFits, NeedIsTold, NeedsMove, MovesByTrial, TakenIsSame, ClosedGoes};
ghost use Rattle.slot_sim.specs.Same.{RegistersTold, RegistersShown, WordsTold, WordsShown};

/// What the slot calls rest on.
pub fn slot_laws()
    // The choice of one thread alone fits; `need` is told once, and is the same in states that are the same; and one cycle tells
    // whether a thread moves.
    ensures alone_fits { AloneFits }
    ensures need_is_told { NeedIsTold }
    ensures needs_move { NeedsMove }
    ensures moves_by_trial { MovesByTrial }
    // What is taken over from a slot is all that was missing, and closed cycles of a thread go in one state as they go in another
    // with the same slot.
    ensures taken_is_same { TakenIsSame }
    ensures closed_goes { ClosedGoes }
    // The numbers are found to be the same exactly where those of all registers are, and the words exactly where all of them are.
    ensures registers_told { RegistersTold }
    ensures registers_shown { RegistersShown }
    ensures words_told { WordsTold }
    ensures words_shown { WordsShown }
{}
