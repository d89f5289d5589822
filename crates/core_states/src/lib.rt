//! The states of the cores that acts ask: a mutex, a barrier, the table of thread ids; when a request may be granted, and
//! what a grant does.
#![tactic(auto)]

ghost use Rattle.core_states.specs.Laws.{RunnersStay, PassersStay, WaitersCount};

/// What grants leave, and what the bits of a barrier count.
pub fn grants_keep()
    // A grant to another thread leaves what a thread is told that may go on or that runs.
    ensures runners_stay { RunnersStay }
    ensures passers_stay { PassersStay }
    // The bits of a barrier count its waiters.
    ensures waiters_count { WaitersCount }
{}
