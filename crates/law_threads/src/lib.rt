//! The threads of a program around their blocks: a request that a core grants is the step of its act, and one that may not be is blocked; they wait,
//! wake and act as the theory of planned hardware asks. Below that the cores that acts ask, as that theory has them, and that
//! they stand for the state of the program.
#![tactic(auto)]

ghost use Rattle.law_threads.specs.ActLaws.{AllRequestsAreSteps};
ghost use Rattle.law_threads.specs.CoreLaws.{RunnersStay, PassersStay, WaitersCount};
ghost use Rattle.law_threads.specs.Laws.{StandsAwake, FitsThreads, MarksThreads, WhatBlocks};

/// Threads around their blocks.
pub fn planned_threads()
    // Where the core that an act asks may grant it, the act is the next step of its thread, and the cores after the grant stand
    // for the state after the step; where it may not, the step is blocked.
    ensures requests_are_steps { AllRequestsAreSteps }
    // A thread at the start of a stage runs, and waits nowhere.
    ensures starts_awake { (P : _) (codes : _) (N : _) (T : _) (spreads : _) (chain : _) → StandsAwake P codes N T spreads chain }
    // Acts, waits and wakes of threads are what the theory of planned hardware asks for.
    ensures threads_fit { (P : _) (codes : _) (N : _) (T : _) (spreads : _) (chain : _) → FitsThreads P codes N T spreads chain }
    // The slot of thread 0 marks the end of the program.
    ensures end_is_marked { (P : _) (codes : _) (N : _) (T : _) (spreads : _) (chain : _) → MarksThreads P codes N T spreads chain }
    // A thread that asks nothing that may be granted, and does not wake, is blocked.
    ensures what_blocks { (P : _) (codes : _) (N : _) (T : _) (spreads : _) (chain : _) → WhatBlocks P codes N T spreads chain }
    // A grant to another thread leaves what a thread is told that runs, or that waits at no barrier.
    ensures runners_stay { RunnersStay }
    ensures passers_stay { PassersStay }
    // The bits of a barrier's core count the threads that wait there.
    ensures waiters_count { WaitersCount }
{}
