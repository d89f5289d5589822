// What registers hold next: chains of wires, with a link for each stage that speaks of them.

ghost use Rattle.std.specs.Prelude.{◌≡◌, map, IfOk, OnOk};
ghost use Rattle.block_ir.specs.declared.code.ThreadCode.{ThreadCode};
ghost use Rattle.block_datapath.specs.declared.registers.Held.{Held};
ghost use Rattle.block_datapath.specs.declared.registers.Registers.{Registers};
ghost use Rattle.block_datapath.specs.Wired.{CanRead};
ghost use Rattle.operator_wires.specs.Built.{Base, IsEarlier};
ghost use Rattle.thread_slots.specs.Wired.{AreSlots, AreLinked, KeepsLinks};
ghost use Rattle.thread_slots.specs.Links.{LeadsTo, WaitsAt, Begins};

use block_datapath::registers::{Held, Registers};
use operator_wires::wires::Wires;
use sqlite_items::Items;
use std::alloc::{AllocError, Global};

/// The last links so far.
#[derive(Drop)]
pub struct Chains {
    /// The stage that follows, if the state is left.
    pub stage: usize,
    /// What each variable holds next, if the state is left.
    pub variables: Items<usize>,
    /// What each register for values holds next, if the state is left.
    pub kept: Items<usize>,
    /// Whether this state is the last one of its stage.
    pub is_last: usize,
    /// Whether this state is not left in this cycle, for it waits.
    pub waits: usize,
}

impl Chains {
    /// Each register keeps what it holds, and nothing is waited for.
    pub fn begin(wires: &mut Wires, registers: &Registers) -> Result<Chains, AllocError>
        ensures begins { IfOk result (Begins wires.old.signals wires.new.signals registers.now) }
        ensures wired { IfOk result (λ chains. (base : Base) (code : ThreadCode) → AreSlots base wires.old.signals code registers.now
            → CanRead base code registers.now → KeepsLinks base wires.old.signals wires.new.signals code registers.now chains) }
    {
        let variables = places(wires.alloc, registers.variables.as_slice())?;
        let kept = places(wires.alloc, registers.kept.as_slice())?;
        let is_last = wires.constant(1, 0)?;
        let waits = wires.constant(1, 0)?;
        Ok(Chains {
            stage: registers.stage.register,
            variables,
            kept,
            is_last,
            waits,
        })
    }

    /// Where the condition holds, which is in the last state of a stage, the stage that a signal shows follows.
    pub fn lead(
        &mut self,
        wires: &mut Wires,
        registers: &Registers,
        last: usize,
        target: usize,
    ) -> Result<(), AllocError>
        ensures leads { OnOk result (LeadsTo wires.old.signals wires.new.signals self.old self.new last target) }
        ensures wired { OnOk result ((base : Base) (code : ThreadCode) → AreLinked base wires.old.signals code registers.now self.old
            → IsEarlier wires.old.signals base last 1 → IsEarlier wires.old.signals base target registers.now.stage.width
            → KeepsLinks base wires.old.signals wires.new.signals code registers.now self.new) }
    {
        let is_last = wires.either(self.is_last, last)?;
        let stage = wires.choice(registers.stage.width, last, target, self.stage)?;
        self.is_last = is_last;
        self.stage = stage;
        Ok(())
    }

    /// Where the condition holds the thread waits, and the state is not left.
    pub fn wait(&mut self, wires: &mut Wires, condition: usize) -> Result<(), AllocError>
        ensures waits { OnOk result (WaitsAt wires.old.signals wires.new.signals self.old self.new condition) }
        ensures wired { OnOk result ((base : Base) (code : ThreadCode) (registers : Registers) → AreLinked base wires.old.signals code registers self.old
            → IsEarlier wires.old.signals base condition 1 → KeepsLinks base wires.old.signals wires.new.signals code registers self.new) }
    {
        let waits = wires.either(self.waits, condition)?;
        self.waits = waits;
        Ok(())
    }
}

/// Where these registers stand.
pub fn places(alloc: Global, registers: &[Held]) -> Result<Items<usize>, AllocError>
    ensures { IfOk result (λ places. places ≡ map (λ (h : Held). h.register) registers.now) }
{
    let mut places = Items::new(alloc);
    for held in registers {
        places.push(held.register)?;
    }
    Ok(places)
}
