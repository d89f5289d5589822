// Laws of barriers. The function takes and answers nothing: its contract is the laws.

ghost use Rattle.barrier_cores.specs.Laws.{BarriersWait, FullClears, OthersStay, WaitSetsOwn};

/// What a granted request does to the bits of a barrier.
pub fn waits()
    ensures others_stay { OthersStay }
    ensures full_clears { FullClears }
    ensures wait_sets_own { WaitSetsOwn }
    // Each reading shows a count and bits, and nothing is offered to who asks nothing.
    ensures barriers_wait { BarriersWait }
{}
