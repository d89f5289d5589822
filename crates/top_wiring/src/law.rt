// Laws of nets that are wired so. The function takes and answers nothing: its contract is the laws.

ghost use Rattle.std.specs.Prelude.{ℕ, length};
ghost use Rattle.circuit.specs.Machines.{CoreMachine, ThreadMachine};
ghost use Rattle.circuit.specs.Wiring.{NetPlaces};
ghost use Rattle.top_parts.specs.declared.layout.Layout.{Layout};
ghost use Rattle.top_wiring.specs.Found.{TopsAreFound};
ghost use Rattle.top_wiring.specs.Leaves.{NetsHaveStages, NetsSettle};
ghost use Rattle.top_wiring.specs.Machine.{IsOneMachine};
ghost use Rattle.top_wiring.specs.Sound.{NetsAreSound};

/// Threads and cores by their numbers, and where their modules have what for a layout.
pub trait Machines {
    ghost threads: { ℕ → ThreadMachine };

    ghost cores: { ℕ → CoreMachine };

    ghost places: { (layout : Layout) → NetPlaces (length layout.threads) (length layout.cores) threads cores };
}

/// What holds of a net that is wired so.
pub fn nets_are_machines<M: Machines>()
    // Where the modules keep their promises as threads, cores and arbiters, `top` is the machine of its threads and cores: each
    // cycle is one step of all of them.
    ensures is_one_machine { IsOneMachine M.threads M.cores M.places }
    // `top`, its inputs, the slots of the threads and `done` are found by their names.
    ensures tops_are_found { TopsAreFound }
    // Where no module puts out what depends on its grants, the signals can be put in stages, so that none depends on itself, and
    // each state has exactly one settled valuation for each choice.
    ensures nets_have_stages { NetsHaveStages }
    ensures settles_once { NetsSettle }
    // Where the modules are sound, of which one alone writes, in one instance, the net is sound, so that its text is a well-formed
    // net.
    ensures nets_are_sound { NetsAreSound }
{}
