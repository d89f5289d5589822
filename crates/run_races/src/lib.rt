//! One run of a program that shows all its interleavings: a run to main's return in which any two steps of two threads that depend
//! on one another are ordered by happens-before. Each function takes and answers nothing: its contract is the law.
#![tactic(auto)]

ghost use Rattle.run_races.specs.Clean.{CleanIsGood, CleanEnds, OrderedPrintsOnce};

/// A resolved program with such a run is good.
pub fn clean_is_good()
    ensures { CleanIsGood }
{}

/// Each of its interleavings, carried on, comes to main's return, within as many steps as the run has: none deadlocks.
pub fn clean_ends()
    ensures { CleanEnds }
{}

/// Where the prints are ordered so too, each interleaving that comes to main's return prints what the run prints.
pub fn ordered_prints_once()
    ensures { OrderedPrintsOnce }
{}
