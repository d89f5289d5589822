//! Programs that are good, and one that is not. The function takes and answers nothing: its contract is the laws.

ghost use Rattle.thread_semantics.specs.Races.{IsGood};
ghost use Rattle.good_programs.specs.Samples.{first, guarded, phased, racing};

/// Some programs are good, and others are not.
pub fn samples_are_good()
    // A program of one thread that computes, prints and returns is good.
    ensures first_is_good { IsGood first }
    // So is one of two threads that add to a global under a mutex.
    ensures guarded_is_good { IsGood guarded }
    // So is one of two threads that add to a global one after the other, parted by a barrier.
    ensures phased_is_good { IsGood phased }
    // The same program without mutex and barrier is not good.
    ensures racing_is_not_good { IsGood racing → ⊥ }
{}
