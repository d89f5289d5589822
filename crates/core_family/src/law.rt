// What holds of each core of the family.

ghost use Rattle.core_family.specs.Laws.{EachFits, EachKeepsFitting, EachWaits, LastPrints, OthersAreSilent};

/// What each core does alike.
pub fn each_core()
    // Each reading shows a state of a core, and a core offers nothing to who asks nothing.
    ensures each_waits { EachWaits }
    // A thread has a port for each part of an ask, and for each number that a core tells it.
    ensures each_fits { EachFits }
    // Where the printer is the last of the cores, no other one prints, and the module of no other one writes.
    ensures last_prints { LastPrints }
    ensures others_are_silent { OthersAreSilent }
    // What a core tells fits its port, from the start on, where what it is asked fits its own.
    ensures each_keeps_fitting { EachKeepsFitting }
{}
