//! The law of the whole: the machine of a program of T threads, and so the net that is wired of its parts, follows the program; its text is good
//! Verilog of it, and its net is threaded. The function takes and answers nothing: its contract is the laws.
#![tactic(auto)]

ghost use Rattle.law_net.specs.Alike.{EndsAsTop, RunsAsTop, WritesAsTop};
ghost use Rattle.law_net.specs.Follows.{MachineFollows, MachineFollowsFrom};
ghost use Rattle.law_net.specs.Found.{RoundIsFound};
ghost use Rattle.law_net.specs.From.{NetFollowsFrom};
ghost use Rattle.law_net.specs.Good.{LaidTablesAreGood, PlacedTablesAreLaid, ThreadsStand};
ghost use Rattle.law_net.specs.Granted.{NetOfTableGrants};
ghost use Rattle.law_net.specs.Holding.{ArbitersHoldNothing, TopsHoldNothing};
ghost use Rattle.law_net.specs.Parts.{PartsAreGood};
ghost use Rattle.law_net.specs.Prefs.{PrefsAreCounted};
ghost use Rattle.law_net.specs.Rounded.{RoundsStand};
ghost use Rattle.law_net.specs.Served.{CoresOfTableAreServed};
ghost use Rattle.law_net.specs.Start.{ThreadsArePlanned, ThreadsStart};
ghost use Rattle.law_net.specs.Stepped.{StepsAsRound};
ghost use Rattle.law_net.specs.Tables.{LaidTablesAreWhole};
ghost use Rattle.law_net.specs.Texts.{TextsAreGood, TextsAreNets};
ghost use Rattle.law_net.specs.Threaded.{NetOfTableIsThreaded};
ghost use Rattle.law_net.specs.Whole.{NetFollows};
ghost use Rattle.law_net.specs.Wired.{TablesAreWhole, WiredFollow};

/// What is built of a good program follows it, as a machine, as a net and as a text.
pub fn net_follows_program()
    // Before the first cycle the cores stand for the state at the start, and each thread rests; and all threads of a program are
    // hardware of planned blocks, as the theory of interleavings asks for.
    ensures threads_start { (P : _) (codes : _) (N : _) (T : _) (spreads : _) (chain : _) → ThreadsStart P codes N T spreads chain }
    ensures threads_are_planned { (P : _) (codes : _) (N : _) (T : _) (spreads : _) (chain : _) → ThreadsArePlanned P codes N T spreads chain }
    // Under every list of choices one interleaving has printed what the machine has printed, is ended where it is done, has taken
    // steps by a count of cycles, and in the end has the globals of the banks.
    ensures machine_follows { MachineFollows }
    ensures machine_follows_from { MachineFollowsFrom }
    // The net that is wired of a program's parts has exactly one settled valuation in each state for each choice, and a run for
    // every list of choices; and if the program is good, the net follows one interleaving of it under each of them.
    ensures net_follows { NetFollows }
    ensures net_follows_from { NetFollowsFrom }
    // What is wired of a table of a program's parts is such a net.
    ensures tables_are_whole { TablesAreWhole }
    ensures wired_follow { WiredFollow }
    // After n cycles of `top_rr` the `top` in it is where n cycles of `top` under the choices of the rounds lead, and each run under
    // these choices is one in `top_rr`; they write the same, and then show the same `done`. So it is with `done` where all threads
    // are enabled and each arbiter prefers thread 0, if the net settles in one way and what `done` shows hangs on no choice.
    ensures runs_as_top { RunsAsTop }
    ensures writes_as_top { WritesAsTop }
    ensures ends_as_top { EndsAsTop }
    // `top_rr` is found by its name; the inputs of a net of threads that the simulator counts as prefs are `pref_0`, `pref_1` and so
    // on, one for each arbiter; what `hls step` answers, which runs `top` under the choices of the rounds until it is done, `top_rr`
    // does.
    ensures round_is_found { RoundIsFound }
    ensures prefs_are_counted { PrefsAreCounted }
    ensures steps_as_round { StepsAsRound }
    // So in a net that is wired of sound modules it stands beside `top`, has the output `done`, and writes and shows what `top` does
    // under these choices.
    ensures rounds_stand { RoundsStand }
    // An arbiter has no register and no memory, and neither has the outermost module.
    ensures arbiters_hold_nothing { ArbitersHoldNothing }
    ensures tops_hold_nothing { TopsHoldNothing }
    // The net that is wired of a whole table is threaded, where each thread's module keeps to itself in closed cycles. In every cycle
    // a thread that needs no core is granted nowhere, and a core changes only where it grants a thread, whose slot then changes; and
    // each change of a slot toggles its beat.
    ensures net_of_table_is_threaded { NetOfTableIsThreaded }
    ensures net_of_table_grants { NetOfTableGrants }
    // Its cores stand in the order of the table, each the instance of its name, and `arbiter_k` of core k is connected to the input
    // `pref_k`.
    ensures cores_of_table_are_served { CoresOfTableAreServed }
    // The table that is laid out for a program's parts is whole: its cores stand once and have names of their own, and the printer
    // alone writes; the threads stand at the places of the layout, and a table whose cores are at their places is laid out so.
    ensures laid_tables_are_whole { LaidTablesAreWhole }
    ensures threads_stand { ThreadsStand }
    ensures placed_tables_are_laid { PlacedTablesAreLaid }
    // The text that is written of the net of a whole table reads as that net, and is good Verilog of a program of as many threads,
    // where the net follows it. So the text of the net of a program's parts is good Verilog of it, for any number of threads, and
    // reads as that net.
    ensures texts_are_nets { TextsAreNets }
    ensures texts_are_good { TextsAreGood }
    ensures laid_tables_are_good { LaidTablesAreGood }
    // The text that is written of a program's modules and cores is good Verilog of the program, and reads as a threaded net: where
    // each thread function has its code, by a right plan, and a module that runs it beside the program's cores. No name in it is a
    // reserved word, each is declared before it is used, and the cores are served in their order.
    ensures parts_are_good { PartsAreGood }
{}
