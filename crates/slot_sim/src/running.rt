// A simulator that knows where each thread stands.

ghost use Rattle.std.specs.Prelude.{◌≡◌, ℕ, ◌<◌, ◌≤◌, List, [], IfOk, IfErr, OnOk, OnErr, MatchBool};
ghost use Rattle.verilog_meaning.specs.Threads.{alone, all_enabled};
ghost use Rattle.sim_layout.specs.Rounds.{threads_of};
ghost use Rattle.sim_layout.specs.Running.{Stands, choice_of, Fits, IsSameNet, IsSameState, IsCycleOf, Prints, TellsDone};
ghost use Rattle.cycle_sim.specs.Opened.{IsOpenable, IsOpened, IsCause};
ghost use Rattle.slot_sim.specs.Slots.{IsThreadedIn, TellsNeed, Moving, Opening, IsSameSlotOf, IsTaken, IsSlot, AreSlots, AreCopied};

use crate::changing::changes_parts;
use crate::need::tells_need;
use crate::same::same_parts;
use crate::slot::Slot;
use crate::taking::take_parts;
use cycle_sim::sim::{OpenError, Sim};
use hls_io::Bytes;
use netlist::netlist::Module;
use std::alloc::{AllocError, Global};
use std::marker::Model;

/// A simulator of a net of threads, with where each of them stands. Contracts see the simulator.
pub struct SlotSim<'a> {
    sim: Sim<'a>,
    slots: Vec<Slot>,
    alloc: Global,
}

// A drop that is written here is proved here; a derived one is proved again in each crate that drops the type.

impl Drop for SlotSim<'_> {
    fn drop(self) {
        let SlotSim {
            sim: _,
            slots: _,
            alloc: _,
        } = self;
    }
}

impl<'a> Model for SlotSim<'a> {
    ghost use Rattle.sim_layout.specs.Running.{Running};
    ghost use Rattle.slot_sim.specs.Slots.{AreSlots};

    ghost Value = { Running };

    ghost view = { λ s. s.sim };

    ghost invariant = { λ s. AreSlots s.sim.modules s.sim.parts s.slots.items };
}

/// Where each of the threads stands.
fn slots_of(alloc: Global, sim: &Sim, threads: usize) -> Result<Vec<Slot>, AllocError>
    requires few { threads ≤ 64 }
    requires threads { threads ≡ threads_of sim.now.modules }
    requires threaded { IsThreadedIn sim.now.modules threads }
    ensures { IfOk result (λ slots. AreSlots sim.now.modules sim.now.parts slots.items) }
{
    let mut slots = Vec::new(alloc);
    for thread in 0..threads {
        slots.push(Slot::open(alloc, sim, thread)?)?;
    }
    Ok(slots)
}

fn copied_slots(alloc: Global, slots: &[Slot]) -> Result<Vec<Slot>, AllocError>
    ensures { IfOk result (λ copies. AreCopied slots.now copies.items) }
{
    let mut copies = Vec::with_capacity(alloc, slots.len())?;
    for number in 0..slots.len() {
        copies.push(slots[number].copy(alloc)?)?;
    }
    Ok(copies)
}

/// Where a thread stands. The choice of it alone fits.
#[tactic(auto, using(crate::proofs::ThreadsStand::slot_here))]
fn slot_of<'s>(sim: &Sim, slots: &'s [Slot], thread: usize) -> &'s Slot
    requires thread { thread < threads_of sim.now.modules }
    requires slots { AreSlots sim.now.modules sim.now.parts slots.now }
    ensures slot { IsSlot thread sim.now.modules sim.now.parts result.now }
    ensures fits { Fits sim.now (choice_of result.now.alone) }
    ensures stands { Stands sim.now }
{
    let _ = sim.parts();
    &slots[thread]
}

impl<'a> SlotSim<'a> {
    /// A simulator of a net of threads in its initial state. There is one exactly where no signal depends on itself.
    pub fn open(alloc: Global, modules: &'a [Module], threads: usize) -> Result<Self, OpenError>
        requires openable { IsOpenable modules.now }
        requires few { threads ≤ 64 }
        requires threads { threads ≡ threads_of modules.now }
        requires threaded { IsThreadedIn modules.now threads }
        ensures ok { IfOk result (IsOpened modules.entry.now) }
        ensures cause { IfErr result (IsCause modules.entry.now) }
    {
        let sim = Sim::open(alloc, modules)?;
        let slots = slots_of(alloc, &sim, threads)?;
        Ok(SlotSim { sim, slots, alloc })
    }

    /// A simulator of the same net in the same state.
    pub fn copy(&self) -> Result<SlotSim<'a>, AllocError>
        ensures { IfOk result (λ s. s ≡ self.now) }
    {
        Ok(SlotSim {
            sim: self.sim.copy()?,
            slots: copied_slots(self.alloc, self.slots.as_slice())?,
            alloc: self.alloc,
        })
    }

    /// How many threads there are.
    pub fn threads(&self) -> usize
        ensures threads { result ≡ threads_of self.now.modules }
        ensures stands { Stands self.now }
    {
        let _ = self.sim.parts();
        self.slots.len()
    }

    /// Whether the next cycle of a thread alone is open. The state stays.
    pub fn need(&mut self, thread: usize) -> bool
        requires { thread < threads_of self.old.modules }
        ensures net { IsSameNet self.old self.new }
        ensures need { TellsNeed (threads_of self.old.modules) thread self.old result }
        ensures state { IsSameState self.old self.new }
    {
        let slot = slot_of(&self.sim, self.slots.as_slice(), thread);
        tells_need(&mut self.sim, &slot.alone, slot.need)
    }

    /// Whether a thread's slot is the same in another simulator of the net.
    pub fn same_slot(&self, thread: usize, other: &SlotSim<'a>) -> bool
        requires thread { thread < threads_of self.now.modules }
        requires net { IsSameNet self.now other.now }
        ensures { MatchBool result (IsSameSlotOf (threads_of self.now.modules) thread self.now other.now) (IsSameSlotOf (threads_of self.now.modules) thread self.now other.now → ⊥) }
    {
        let slot = slot_of(&self.sim, self.slots.as_slice(), thread);
        same_parts(&self.sim, &other.sim, slot.members.as_slice())
    }

    /// Takes over a thread's slot from another simulator of the net. All else stays.
    pub fn copy_slot_from(&mut self, thread: usize, other: &SlotSim<'a>)
        requires thread { thread < threads_of self.old.modules }
        requires net { IsSameNet self.old other.now }
        ensures { IsTaken (threads_of self.old.modules) thread self.old other.now self.new }
    {
        let slot = slot_of(&self.sim, self.slots.as_slice(), thread);
        take_parts(&mut self.sim, &other.sim, slot.members.as_slice());
    }

    /// Whether the next cycle of a thread alone changes its slot. The state stays.
    pub fn moves(&mut self, thread: usize) -> bool
        requires thread { thread < threads_of self.old.modules }
        requires threaded { IsThreadedIn self.old.modules (threads_of self.old.modules) }
        ensures net { IsSameNet self.old self.new }
        ensures moves { MatchBool result (Moving (threads_of self.old.modules) thread self.old) (Moving (threads_of self.old.modules) thread self.old → ⊥) }
        ensures state { IsSameState self.old self.new }
    {
        let slot = slot_of(&self.sim, self.slots.as_slice(), thread);
        if !tells_need(&mut self.sim, &slot.alone, slot.need) {
            return true;
        }
        changes_parts(&self.sim, slot.members.as_slice())
    }

    /// Whether the next cycle of a thread alone is open and changes its slot. The state stays.
    pub fn opens(&mut self, thread: usize) -> bool
        requires thread { thread < threads_of self.old.modules }
        requires threaded { IsThreadedIn self.old.modules (threads_of self.old.modules) }
        ensures net { IsSameNet self.old self.new }
        ensures opens { MatchBool result (Opening (threads_of self.old.modules) thread self.old) (Opening (threads_of self.old.modules) thread self.old → ⊥) }
        ensures state { IsSameState self.old self.new }
    {
        let slot = slot_of(&self.sim, self.slots.as_slice(), thread);
        if !tells_need(&mut self.sim, &slot.alone, slot.need) {
            return false;
        }
        changes_parts(&self.sim, slot.members.as_slice())
    }

    /// One cycle of a thread alone. What it writes is appended to `out`. Memory is wanting only where it writes something; at `Err`
    /// neither `out` nor the state is changed.
    pub fn cycle(&mut self, thread: usize, out: &mut Bytes) -> Result<(), AllocError>
        requires { thread < threads_of self.old.modules }
        ensures net { IsSameNet self.old self.new }
        ensures ok { OnOk result (IsCycleOf (alone thread) self.old self.new out.old out.new) }
        ensures prints { OnErr result (Prints (alone thread) self.old) }
        ensures bytes { OnErr result (out.new ≡ out.old) }
        ensures state { OnErr result (IsSameState self.old self.new) }
    {
        let slot = slot_of(&self.sim, self.slots.as_slice(), thread);
        self.sim.cycle(&slot.alone, out)
    }

    /// One cycle of a thread alone, of which what it writes is dropped.
    pub fn pass(&mut self, thread: usize)
        requires { thread < threads_of self.old.modules }
        ensures net { IsSameNet self.old self.new }
        ensures cycle { (out : List ℕ) × IsCycleOf (alone thread) self.old self.new [] out }
    {
        let slot = slot_of(&self.sim, self.slots.as_slice(), thread);
        self.sim.pass(&slot.alone);
    }

    /// Whether done is shown. The state stays.
    pub fn done(&mut self) -> bool
        ensures net { IsSameNet self.old self.new }
        ensures done { TellsDone (all_enabled (threads_of self.old.modules) []) self.old result }
        ensures state { IsSameState self.old self.new }
    {
        self.sim.done()
    }
}
