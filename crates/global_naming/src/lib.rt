//! How many hardware threads name each global of a program.
#![tactic(auto)]

ghost use Rattle.global_naming.specs.Naming.{NoMoreThanThreads};

pub mod names;
pub mod naming;

/// No more hardware threads name a global than there are.
pub fn no_more_than_threads()
    ensures { NoMoreThanThreads }
{}
