// The laws of pipelined loops. Each function takes and answers nothing: its contract is the law.

ghost use Rattle.std.specs.Prelude.{ℕ, ℤ};
ghost use Rattle.interleaving.specs.Source.{Source};
ghost use Rattle.planned_loop.specs.Next.{LoopMoves};
ghost use Rattle.planned_loop.specs.Rest.{LoopRests};
ghost use Rattle.planned_loop.specs.Time.{LoopKeepsTime};
ghost use Rattle.planned_loop.specs.Runs.{LoopRuns, LoopIsShort};
ghost use Rattle.planned_loop.specs.Law.{BlocksIterate, LoopBegins, LoopGoesOn, LoopEnds, TableKeepsLoop};

/// The runs of a block, one after another, are the iterations of a loop.
pub fn blocks_iterate()
    ensures { BlocksIterate }
{}

/// A loop at its first state holds what the law asks for.
pub fn loop_begins()
    ensures { LoopBegins }
{}

/// Each state of a pipelined loop leads to the next one.
pub fn loop_goes_on()
    ensures { LoopGoesOn }
{}

/// The last state of a round leads to the next round, or the loop is over with what its iterations give.
pub fn loop_ends()
    ensures { LoopEnds }
{}

/// Starts that meet the table of a loop give a plan by which it keeps to its iterations.
pub fn table_keeps_loop()
    ensures { TableKeepsLoop }
{}

/// One cycle of a pipelined loop as a function of the slot is one of the relation, so there always is one.
pub fn loop_moves()
    ensures { LoopMoves }
{}

/// Iteration j of a pipelined loop, while no comparison failed, begins j times the interval after iteration 0.
pub fn loop_keeps_time()
    ensures { LoopKeepsTime }
{}

/// A program of threads, and what may be said of local states as an iteration begins, and behind the loop.
pub trait Threaded {
    ghost Local: { Type 0 };

    ghost State: { Type 0 };

    ghost source: { Source ℤ Local State };

    ghost Starts: { ℕ → Local → Type 0 };

    ghost Exits: { ℕ → Local → Type 0 };
}

/// A thread in a pipelined loop rests at the local state that begins its oldest iteration, and with each cycle takes no step, or all steps of the
/// iterations that end; these pay for the cycles.
pub fn loop_rests<P: Threaded>()
    ensures { LoopRests P.source P.Starts P.Exits }
{}

/// A thread has the steps of a pipelined loop's iterations behind it one iteration after another, and is out of the loop where C is.
pub fn loop_runs<P: Threaded>()
    ensures { LoopRuns P.source P.Starts P.Exits }
{}

/// The stages of a pipelined loop take at most an interval more than one iteration.
pub fn loop_is_short()
    ensures { LoopIsShort }
{}
