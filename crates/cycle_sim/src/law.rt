// Laws of nets that can be opened. The function takes and answers nothing: its contract is the laws.

ghost use Rattle.cycle_sim.specs.Right.{RightOfSound, OnePrinterOfSound, OpenableOfSound, ThreadsOfSound};
ghost use Rattle.cycle_sim.specs.Once.{SettlesAlike, CycleOnce, CycleAlike, RunsOnce, ShowsOnce};

/// What holds of nets that are sound, and of nets that can be opened.
pub fn sound_nets_run_once()
    // In a sound netlist each width fits, one instance at most has a `$write`, and there are as many threads as the signal `en` of its
    // outermost module has bits. It can be opened where that module has an output `done` of one bit and where its inputs `pref_k` have
    // 4 bits or more.
    ensures right_of_sound { RightOfSound }
    ensures one_printer_of_sound { OnePrinterOfSound }
    ensures threads_of_sound { ThreadsOfSound }
    ensures openable_of_sound { OpenableOfSound }
    // A choice settles a state in one way, so a cycle has one next state and one output, and so have runs; `done` shows one bit.
    ensures settles_alike { SettlesAlike }
    ensures cycle_once { CycleOnce }
    ensures cycle_alike { CycleAlike }
    ensures runs_once { RunsOnce }
    ensures shows_once { ShowsOnce }
{}
