// The laws of planned blocks, and of hardware that runs them. The function takes and answers nothing: its contract is the laws.

ghost use Rattle.std.specs.Prelude.{◌≡◌, ℕ, ◌<◌, ◌≤◌, ◌+◌, ℤ, Bool};
ghost use Rattle.interleaving.specs.Memory.{Location, Memory};
ghost use Rattle.interleaving.specs.Source.{Source};
ghost use Rattle.planned_block.specs.Block.{Block, size, IsOrdered};
ghost use Rattle.planned_block.specs.Plan.{Plan, KeepsOrders};
ghost use Rattle.planned_block.specs.Table.{MeetsTable, IsPacked, HasRows, latencies_before, sequential};
ghost use Rattle.planned_block.specs.Slot.{Slot, AreBanks};
ghost use Rattle.planned_block.specs.Advance.{Advances, wires, advance};
ghost use Rattle.planned_block.specs.Closed.{IsClosedAlone};
ghost use Rattle.planned_block.specs.Example.{RunReadsAndWrites, StallsTwice, SequentialRows};
ghost use Rattle.planned_block.specs.Law.{BlockKeepsToRun};
ghost use Rattle.planned_block.specs.Hardware.{PlannedThreads};
ghost use Rattle.planned_block.specs.Net.{IsChain, SomebodyMoves, MovesChange};
ghost use Rattle.planned_block.specs.Following.{AtStage, FollowersAreLowered};
ghost use Rattle.planned_block.specs.Headline.{BlocksArePlanned, PlannedProgram, PlannedRunsAsOne};

/// A program of threads, what its reachable memories meet, and what it is for a thread to be at an act of its code.
pub trait Followed {
    ghost Local: { Type 0 };

    ghost State: { Type 0 };

    ghost source: { Source ℤ Local State };

    ghost Typed: { Memory ℤ → Type 0 };

    ghost AtAct: { AtStage Local → Local → ℕ → ℕ → (ℕ → ℤ) → Memory ℤ → Type 0 };
}

/// Planned threads, and what runs them.
pub trait Planned {
    ghost threads: { PlannedThreads };
}

/// A threaded program of planned blocks, and the machine that runs it.
pub trait PlannedMachine {
    ghost program: { PlannedProgram };
}

/// Planned blocks by themselves, in hardware that runs threads, and in the machine of a whole program.
pub fn planned_blocks<F: Followed, P: Planned, M: PlannedMachine>()
    // For any list of cycles: with any stalls, and grants in any order, a planned block makes only accesses of its run and
    // ends with its effect, provided that meanwhile nobody else writes what the run touches.
    ensures block_cycles { (bank : Location → ℕ) (b : Block) (p : Plan) → AreBanks bank → KeepsOrders b p → BlockKeepsToRun bank b p }
    // A plan whose starts meet the table of constraints, and whose registers are packed, keeps the orders of the block.
    ensures orders_kept { (b : Block) (p : Plan) → IsOrdered b → MeetsTable b p → IsPacked b p → KeepsOrders b p }
    // Registers that are the rows of a packing of the values' intervals are packed.
    ensures rows_pack { (b : Block) (p : Plan) (row : ℕ → ℕ) → HasRows b p row → IsPacked b p }
    // The sequential plan of every block meets the table, is packed and keeps the orders. It has at least one state, and at
    // most the sum of the latencies and one.
    ensures sequential_meets { (b : Block) → IsOrdered b → MeetsTable b (sequential b) }
    ensures sequential_packed { (b : Block) → IsPacked b (sequential b) }
    ensures sequential_keeps { (b : Block) → IsOrdered b → KeepsOrders b (sequential b) }
    ensures sequential_some { (b : Block) → 0 < (sequential b).states }
    ensures sequential_short { (b : Block) → (sequential b).states ≤ latencies_before b (size b) + 1 }
    // One cycle of an enabled thread as a function is one of the relation, so there always is one.
    ensures advance_advances { (bank : Location → ℕ) (b : Block) (p : Plan) → AreBanks bank → KeepsOrders b p →
        (q : Slot) (m : Memory ℤ) (grant : ℕ → Bool) → q.state < p.states → Advances bank b p q m grant (wires bank b p q) (advance bank b p q m grant) }
    // In a state that asks no core and takes no word, the next slot is told by the slot alone.
    ensures closed_alone { (bank : Location → ℕ) (b : Block) (p : Plan) → KeepsOrders b p → IsClosedAlone bank b p }
    // A small block worked out by the definitions: `a = g; g = a + 1`, with two stalls; and the sequential plan of `a = g`.
    ensures small_run { RunReadsAndWrites }
    ensures small_stalls { StallsTwice }
    ensures small_rows { SequentialRows }
    // Code that follows its thread, block after block, is lowered code: its slots change at most 64 times (the weight and 1)
    // times for each step.
    ensures followers_are_lowered { FollowersAreLowered F.source F.Typed F.AtAct }
    // Hardware of planned blocks is an instance of the hardware of the theory of interleavings.
    ensures blocks_are_planned { BlocksArePlanned P.threads }
    // A cycle of a net of planned threads, in which each bank and each core is granted to at most one thread, is a chain of
    // the threads' moves by thread number.
    ensures cycle_is_chain { IsChain P.threads }
    // Where each request that waits lets some request be granted, an enabled thread in a block makes some thread move.
    ensures somebody_moves { SomebodyMoves P.threads }
    // Each move of a thread in a block changes its slot.
    ensures moves_change { MovesChange P.threads }
    // Every run of the machine of a good program of planned blocks shows one interleaving.
    ensures planned_runs { PlannedRunsAsOne M.program }
{}
