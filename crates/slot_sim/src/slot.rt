// Where a thread stands in a simulator.

ghost use Rattle.std.specs.Prelude.{◌≡◌, ◌<◌, IsTrue, false, IfOk, codes, slice_get};
ghost use Rattle.std.specs.Str.{bytes_eq};
ghost use Rattle.verilog_meaning.specs.Names.{numbered};
ghost use Rattle.verilog_meaning.specs.Threads.{alone};
ghost use Rattle.sim_values.specs.Stands.{kind_of};
ghost use Rattle.sim_layout.specs.Running.{choice_of};
ghost use Rattle.slot_sim.specs.Slots.{HasThreadOf, IsNeedNumber, LacksNeed, IsSlot, IsSlotCopy, place_named};

use crate::members::{children_at, members_of};
use cycle_sim::sim::Sim;
use netlist::netlist::{Instance, Signal};
use sim_layout::wires::{base_at, further, module_signals};
use sim_values::edge::{Part, kind_at_root};
use sim_values::settle::Choice;
use sim_values::tree::module_instances;
use sqlite_items::{Items, at};
use std::alloc::{AllocError, Global};
use verilog_tree::name::Identifier;

/// Of a thread the places of the parts in its slot, that of its output `need`, and the choice of it alone.
pub struct Slot {
    pub members: Vec<usize>,
    pub need: usize,
    pub alone: Choice,
}

// A drop that is written here is proved here; a derived one is proved again in each crate that drops the type.

impl Drop for Slot {
    fn drop(self) {
        let Slot {
            members: _,
            need: _,
            alone: _,
        } = self;
    }
}

/// The name of a thread's instance.
fn thread_name(alloc: Global, thread: usize) -> Result<Identifier, AllocError>
    ensures { IfOk result (λ name. name ≡ numbered (codes "t") thread) }
{
    Identifier::from_text(alloc, "t")?.with_number(alloc, thread as u64)
}

fn is_named(instance: &Instance, name: &Identifier) -> bool
    ensures { result ≡ bytes_eq name.now instance.now.name }
{
    name.as_str() == instance.name.as_str()
}

/// The number of the first instance of a name, and how many there are where none has it.
fn instance_number(instances: &[Instance], name: &Identifier) -> usize
    ensures { result ≡ place_named name.now instances.now }
{
    for number in 0..instances.len() {
        if is_named(&instances[number], name) {
            return number;
        }
    }
    instances.len()
}

fn is_need(signal: &Signal) -> bool
    ensures named { IsTrue result → signal.now.name ≡ codes "need" }
    ensures other { result ≡ false → signal.now.name ≡ codes "need" → ⊥ }
{
    signal.name.as_str() == "need"
}

/// The number of the output `need`, where there is one.
fn need_number(signals: &[Signal]) -> usize
    requires { LacksNeed signals.now → ⊥ }
    ensures { IsNeedNumber signals.now result }
{
    for number in 0..signals.len() {
        if is_need(&signals[number]) {
            return number;
        }
    }
    unreachable!()
}

fn kind_at(parts: &[Part], place: usize) -> usize
    ensures { result ≡ kind_of (slice_get parts.now place) }
{
    match at(parts, place) {
        Some(part) => part.module,
        None => 0,
    }
}

/// The choice of one thread alone, in which each arbiter prefers thread 0.
fn alone_choice(alloc: Global, thread: usize) -> Choice
    requires { thread < 64 }
    ensures { choice_of result ≡ alone thread }
{
    Choice {
        en: 1 << thread,
        prefs: Items::new(alloc),
    }
}

impl Slot {
    /// Where a thread stands in a simulator.
    pub fn open(alloc: Global, sim: &Sim, thread: usize) -> Result<Slot, AllocError>
        requires few { thread < 64 }
        requires has { HasThreadOf sim.now.modules thread }
        ensures slot { IfOk result (IsSlot thread sim.now.modules sim.now.parts) }
    {
        let name = thread_name(alloc, thread)?;
        let parts = sim.parts();
        let modules = sim.modules();
        let instances = module_instances(modules, kind_at_root(parts));
        let first = further(children_at(parts, 0), instance_number(instances, &name))?;
        let signals = module_signals(modules, kind_at(parts, first));
        let need = further(base_at(parts, first), need_number(signals))?;
        let members = members_of(alloc, sim, first)?;
        Ok(Slot {
            members,
            need,
            alone: alone_choice(alloc, thread),
        })
    }

    /// The same thread of a simulator that is laid out in the same way.
    pub fn copy(&self, alloc: Global) -> Result<Slot, AllocError>
        ensures { IfOk result (λ slot. IsSlotCopy self.now slot) }
    {
        Ok(Slot {
            members: self.members.as_slice().to_vec(alloc)?,
            need: self.need,
            alone: Choice {
                en: self.alone.en,
                prefs: Items::new(alloc),
            },
        })
    }
}
