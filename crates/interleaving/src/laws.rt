// The laws of interleavings. The function takes and answers nothing: its contract is the laws.

ghost use Rattle.std.specs.Prelude.{ℕ, List, Bool};
ghost use Rattle.interleaving.specs.Memory.{Memory};
ghost use Rattle.interleaving.specs.Source.{Source};
ghost use Rattle.interleaving.specs.Threaded.{IsThreaded};
ghost use Rattle.interleaving.specs.FirstConflict.{FirstConflict};
ghost use Rattle.interleaving.specs.Commutation.{RunsCommute};
ghost use Rattle.interleaving.specs.AnyOrder.{MayComeFirst};
ghost use Rattle.interleaving.specs.Hardware.{Hardware};
ghost use Rattle.interleaving.specs.Cycle.{OrderInCycle};
ghost use Rattle.interleaving.specs.Run.{RunsFollowOne};
ghost use Rattle.interleaving.specs.Headline.{Refinement, LagIsKept, MovesArePaid, EndIsMarked, RunsAsOne};

/// Hardware of a threaded source whose cores have numbers.
pub trait HardwareOfCores {
    ghost Value: { Type 0 };

    ghost Local: { Type 0 };

    ghost State: { Type 0 };

    ghost Slot: { Type 0 };

    ghost Core: { Type 0 };

    /// The program.
    ghost source: { Source Value Local State };

    /// What runs it.
    ghost hardware: { Hardware Value Local State Slot (ℕ → Core) };
}

/// A machine under choices, and a relation between an interleaving, the machine and the cycles that have counted.
pub trait RelatedMachine {
    ghost Machine: { Type 0 };

    ghost Choice: { Type 0 };

    ghost cycle: { Machine → Choice → Machine };

    ghost counts: { Machine → Choice → Bool };

    ghost still: { Machine → Choice → Type 0 };

    ghost Related: { List ℕ → Machine → ℕ → Type 0 };
}

/// A program, and a machine that runs it by blocks.
pub trait Refined {
    ghost refinement: { Refinement };
}

/// Threads that interleave, hardware of theirs in one cycle and in many, and what a refinement of a good program shows.
pub fn interleavings<Value, Local, State, H: HardwareOfCores, M: RelatedMachine, R: Refined>()
    // First conflict: where two threads, each by itself, would touch one place that one of them writes, a race of the two is
    // reachable. Of every program of threads.
    ensures first_conflict { (P : Source Value Local State) → IsThreaded P → FirstConflict P }
    // Commutation: runs of two threads that are apart may be merged in any way, and all merges leave the same.
    ensures runs_commute { (P : Source Value Local State) → IsThreaded P → RunsCommute P }
    // An access that is apart from those before it may come first, with the same values read and the same effect.
    ensures any_order { (m : Memory Value) → MayComeFirst m }
    // Order in a cycle: a cycle in which each bank and each core is granted to at most one thread is a chain of the threads'
    // moves by thread number.
    ensures order_in_cycle { OrderInCycle H.source H.hardware }
    // One interleaving: what each cycle keeps, with some steps appended to the interleaving, every run follows along one list
    // of thread numbers, whatever the choices.
    ensures runs_follow_one { RunsFollowOne M.cycle M.counts M.still M.Related }
    // The lag: in a good program a turn or an act of one thread keeps the hardware where an interleaving leads, but for what
    // the blocks in flight have done so far; and nothing that one of these blocks writes is touched by another.
    ensures keeps_lag { LagIsKept R.refinement }
    // Progress by a count: in a good program each move of a chain is paid for, by what the slots had left or by a step.
    ensures pays_for_moves { MovesArePaid R.refinement }
    // Done: where thread 0 tells by itself that the program is ended, and its slot marks that, the mark stands exactly where
    // the interleaving is ended.
    ensures done_where_ended { EndIsMarked R.refinement }
    // The headline's second sentence: every run of the machine of a good program shows one interleaving.
    ensures runs_as_one { RunsAsOne R.refinement }
{}
