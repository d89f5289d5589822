// The laws of leaf modules, and of where cores are asked. The function takes and answers nothing: its contract is the laws.

ghost use Rattle.leaf_machine.specs.Settled.{EarlyIsDecided, StateSettles};
ghost use Rattle.leaf_machine.specs.Leaves.{LeafIsThread, LeafKeepsSlots, LeafIsDone};
ghost use Rattle.leaf_machine.specs.Example.{ExampleIsLeaf};
ghost use Rattle.leaf_machine.specs.Ports.{PartsStand};

/// What holds of a leaf module.
pub fn leaves_are_threads()
    // The state and the inputs that are not late decide each signal that is not late, and every state settles.
    ensures early_is_decided { EarlyIsDecided }
    ensures state_settles { StateSettles }
    // A module with a thread's ports, whose asks no answer of a core reaches and whose need the slot alone tells, is that of a thread.
    // There are such modules: one that asks while it is enabled, until it is granted.
    ensures leaf_is_thread { LeafIsThread }
    ensures example_is_leaf { ExampleIsLeaf }
    // Its steps lead from states to states, each through a reading that the module obeys; and where the slot tells whether the thread
    // is done, every such reading does.
    ensures leaf_keeps_slots { LeafKeepsSlots }
    ensures leaf_is_done { LeafIsDone }
    // Number j of what core k is asked stands where `ask_place` says, among those of all cores.
    ensures parts_stand { PartsStand }
{}
