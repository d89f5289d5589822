// A slot on which closed cycles run outside the lock.

ghost use Rattle.std.specs.Prelude.{◌≡◌, ◌<◌, ◌≤◌, IfOk};
ghost use Rattle.sim_layout.specs.Running.{IsSameNet};
ghost use Rattle.grant_journal.specs.Boards.{Frame, IsSlotOf, HasSlotOf, RunsClosed};

use journal_laws::copy_run::run_closed;
use slot_sim::running::SlotSim;
use std::alloc::AllocError;
use std::marker::{Brand, Model, PhantomData};

/// Which net a board runs, with so many threads and at most so many entries, and how its simulators are laid out. Each run picks it.
pub trait Case {
    ghost use Rattle.std.specs.Prelude.{ℕ, List};
    ghost use Rattle.netlist.specs.declared.netlist.Module.{Module};
    ghost use Rattle.sim_layout.specs.Running.{Running};

    ghost modules: { List Module };

    ghost threads: { ℕ };

    ghost most: { ℕ };

    ghost layout: { Running };
}

impl Case for Brand {
    ghost use Rattle.std.specs.Prelude.{[]};
    ghost use Rattle.sim_layout.specs.Running.{running};

    ghost modules = { [] };

    ghost threads = { 0 };

    ghost most = { 0 };

    ghost layout = { running [] [] [] [] [] [] 0 0 };
}

/// A thread, and a simulator of the net in which its slot counts. Contracts see both.
#[derive(Drop)]
pub struct Local<'a, J: Case> {
    sim: SlotSim<'a>,
    thread: usize,
    of: PhantomData<J>,
}

impl<'a, J: Case> Model for Local<'a, J> {
    ghost use Rattle.grant_journal.specs.Boards.{Held, Holds};

    ghost Value = { Held };

    ghost view = { λ l. record { thread = l.thread; run = l.sim } };

    ghost invariant = { λ l. Holds J.modules J.threads J.layout l.thread l.sim };
}

impl<'a, J: Case> Local<'a, J> {
    /// One that holds the slot of thread 0 as it is in a simulator of the net.
    pub fn open(first: &SlotSim<'a>) -> Result<Self, AllocError>
        requires frame { Frame J.modules J.threads J.layout }
        requires net { IsSameNet J.layout first.now }
        ensures { IfOk result (λ l. IsSlotOf J.modules J.threads 0 first.now l) }
    {
        Ok(Local {
            sim: first.copy()?,
            thread: 0,
            of: PhantomData,
        })
    }

    /// Copies the slot of another.
    pub fn set(&mut self, from: &Local<'a, J>)
        ensures { HasSlotOf J.modules J.threads from.now self.new }
    {
        self.thread = from.thread;
        self.sim.copy_slot_from(from.thread, &from.sim);
    }

    /// Copies the slot of a thread as it is in a simulator of the net.
    pub fn hold(&mut self, thread: usize, sim: &SlotSim<'a>)
        requires thread { thread < J.threads }
        requires net { IsSameNet J.layout sim.now }
        ensures { IsSlotOf J.modules J.threads thread sim.now self.new }
    {
        self.thread = thread;
        self.sim.copy_slot_from(thread, sim);
    }

    /// The simulator, in which the slot of the thread counts.
    pub fn sim(&self) -> &SlotSim<'a>
        ensures run { result.now ≡ self.now.run }
        ensures net { IsSameNet J.layout self.now.run }
    {
        &self.sim
    }

    /// Does closed cycles until the next one is open or `most` are done, and says how many.
    pub fn closed(&mut self, most: u32) -> u32
        ensures most { result ≤ most }
        ensures run { RunsClosed J.modules J.threads most self.old result self.new }
    {
        run_closed(&mut self.sim, self.thread, most)
    }
}
