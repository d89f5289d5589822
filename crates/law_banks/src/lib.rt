//! The banks of a program of T threads as one memory.
#![tactic(auto)]

ghost use Rattle.law_banks.specs.Memory.{HoldsAfter};
ghost use Rattle.law_banks.specs.Cycle.{BankChanges};
ghost use Rattle.law_banks.specs.Partition.{PartitionIsBanked, StartHolds, WordsFit};
ghost use Rattle.law_banks.specs.Laws.{StoppedIsSilent, BankMoves, MemoryHasAll, PlacesAreOwned, AnsweredIsOwned};

/// The banks hold one memory, from cycle to cycle.
pub fn banks_are_memory()
    // What each bank does in a cycle keeps what all hold.
    ensures holds_after { HoldsAfter }
    // In a cycle in which threads ask and each bank grants one of them, the memory has the accesses of the granted threads.
    ensures bank_changes { BankChanges }
    // A thread whose open operations ask nothing asks no bank.
    ensures stopped_is_silent { StoppedIsSilent }
    // A bank's machine moves as the cycle of the banks says.
    ensures bank_moves { BankMoves }
    // The memory has the accesses of all threads, and each place those of the owner of its bank.
    ensures memory_has_all { MemoryHasAll }
    ensures places_are_owned { PlacesAreOwned }
    ensures answered_is_owned { AnsweredIsOwned }
    // The banks of a partition are such, and hold the memory of the start.
    ensures partition_is_banked { PartitionIsBanked }
    ensures start_holds { StartHolds }
    ensures words_fit { WordsFit }
{}
