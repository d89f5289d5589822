//! One thread of the machine in one cycle, from the promise of its module alone; and one cycle of the machine of a program of T threads: it is a cycle
//! of the net of planned threads that the theory knows.
#![tactic(auto)]

ghost use Rattle.law_cycle.specs.Bodies.{BodiesFit};
ghost use Rattle.law_cycle.specs.Laws.{BuiltAreThreads, ThreadsAreDone, EachSteps, NetGoes, WhoWins, EachTurns};
ghost use Rattle.law_cycle.specs.Clock.{NetIsClocked};
ghost use Rattle.law_cycle.specs.Cycle.{BuiltFits, NetCycles, NetStarts};
ghost use Rattle.law_cycle.specs.OneThread.{ThreadStarts, ThreadMoves, Beats, ThreadAsks};
ghost use Rattle.law_cycle.specs.Stays.{WhoStays, GrantedAccesses, StillReading};
ghost use Rattle.law_cycle.specs.Steps.{ThreadSteps, ThreadIsDone};

/// One cycle of one thread, and of the machine of all.
pub fn machine_cycles()
    // Whatever a thread hears, its next reading stands at a next slot, and the move is one of a few; the beat turns where the slot
    // moves.
    ensures thread_starts { ThreadStarts }
    ensures thread_moves { ThreadMoves }
    ensures beats { Beats }
    // It asks the bank of each access that is still to be granted, the core of its act, and nobody else.
    ensures thread_asks { ThreadAsks }
    // An enabled thread that keeps its beat, or its registers, keeps its slot and is stuck; and the accesses that it makes are at
    // banks that grant it.
    ensures who_stays { WhoStays }
    ensures granted_accesses { GrantedAccesses }
    ensures still_reading { StillReading }
    // From a state of its module that stands at a slot it steps to one that stands at the next; and it is done where it rests.
    ensures thread_steps { ThreadSteps }
    ensures thread_is_done { ThreadIsDone }
    // Each thread of what is built is a thread of the machine, makes a step of its own by what it hears of the cores, and is done
    // where it rests; its module hears and asks each core in its widths.
    ensures bodies_fit { BodiesFit }
    ensures built_are_threads { BuiltAreThreads }
    ensures each_steps { EachSteps }
    ensures threads_are_done { ThreadsAreDone }
    // The code of what is built is what the theory asks for: its blocks are steps, and acts, waits and wakes fit.
    ensures built_fits { BuiltFits }
    // All threads move at once, and the banks hold the memory with all their accesses.
    ensures net_goes { NetGoes }
    // Whoever is granted a core is enabled and asks it: a bank from within a block, another core at an act.
    ensures who_wins { WhoWins }
    // Each core stays, or is granted to one thread, which may be granted, and changes as the theory says.
    ensures each_turns { EachTurns }
    // Each choice leads to a next state of the machine by a cycle that the theory knows: who moves turns the beat, who does not
    // keeps the slot, and where a request waits, one is answered.
    ensures net_cycles { NetCycles }
    // Each cycle is a chain of moves of no thread where no slot changes; and where a cycle that counts moves nobody, no thread of
    // a good program can take a step.
    ensures net_is_clocked { NetIsClocked }
    // The machine's first state shows the first slots, the first memory and the first cores.
    ensures net_starts { NetStarts }
{}
