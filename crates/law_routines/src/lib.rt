//! The codes of all functions that threads run, by right plans, are what the machine of a program of T threads is built of.
#![tactic(auto)]

ghost use Rattle.law_routines.specs.Planned.{PlansAreSmall};
ghost use Rattle.law_routines.specs.Plans.{RoutinesAreCoded, RoutinesAreCode};

/// Typed codes by right plans.
pub fn routine_plans()
    // The number of states of a block has 64 bits.
    ensures plans_are_small { PlansAreSmall }
    // The codes of all functions that threads run do what their threads do, with room in each chain for a wake.
    ensures routines_are_coded { RoutinesAreCoded }
    // Each is code as the machine needs it.
    ensures routines_are_code { RoutinesAreCode }
{}
