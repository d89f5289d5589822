// A block in the making.

ghost use Rattle.std.specs.Prelude.{◌≡◌, ◌↔◌, ◌+◌, ◌^◌, ◌<◌, ℕ, suc, [], ◌∷◌, ◌++◌, length, slice_get, slice_set, IsTrue, IfOk, IfErr, OnOk};
ghost use Rattle.code_blocks.specs.Needs as operands;
ghost use Rattle.code_blocks.specs.Evaluating as evaluating;
ghost use Rattle.code_blocks.specs.Closing as closing;
ghost use Rattle.code_blocks.specs.Room.{IsFull};

use crate::fault::{LoweringFault, number_of};
use crate::operands::{copy_of, plain};
use block_ir::block::{Block, Final, Next, Operation};
use block_ir::operand::{Operand, Source};
use hls_ints::CType;
use sqlite_items::Items;
use std::alloc::{AllocError, Global};
use std::mem;

/// The operations of a block so far, what the variables that it has changed hold by now, and how many steps of the
/// program it does.
#[derive(Drop)]
pub struct OpenBlock {
    operations: Items<Operation>,
    /// For each variable its value, where the block has changed it.
    current: Items<Option<Operand>>,
    /// The variables that it has changed, each once.
    changed: Items<u32>,
    steps: u32,
}

impl OpenBlock {
    /// A block with no operations, in code with so many variables.
    pub fn new(alloc: Global, variables: usize) -> Result<OpenBlock, AllocError>
        ensures { IfOk result (λ b. closing.IsFresh variables b) }
    {
        let mut current = Items::new(alloc);
        for done in 0..variables {
            current.push(None)?;
        }
        Ok(OpenBlock {
            operations: Items::new(alloc),
            current,
            changed: Items::new(alloc),
            steps: 0,
        })
    }

    /// Whether it does no step yet.
    pub fn is_empty(&self) -> bool
        ensures { IsTrue result ↔ (self.now.steps ≡ 0) }
    {
        self.steps == 0
    }

    /// Counts one more step of the program.
    pub fn step(&mut self) -> Result<(), LoweringFault>
        ensures after { OnOk result (self.new ≡ record self.old { steps = suc self.old.steps }) }
        ensures full { IfErr result (IsFull (self.old.steps + 1)) }
    {
        if self.steps == u32::MAX {
            return Err(LoweringFault::TooLarge);
        }
        self.steps += 1;
        Ok(())
    }

    /// One more operation; the answer is its value, of that type.
    pub fn put(
        &mut self,
        alloc: Global,
        operation: Operation,
        ty: CType,
    ) -> Result<Operand, LoweringFault>
        ensures block { IfOk result (λ _. self.new ≡ evaluating.with_more self.old (operation ∷ [])) }
        ensures value { IfOk result (λ a. a ≡ operands.plain (Source.Value (length self.old.operations) ty)) }
        ensures few { IfOk result (λ _. length self.new.operations < 2 ^ 32) }
        ensures full { IfErr result (IsFull (length self.old.operations + 1)) }
    {
        let number = number_of(self.operations.len())?;
        self.operations.push(operation)?;
        Ok(plain(alloc, Source::Value(number, ty)))
    }

    /// What a variable of that type holds by now.
    pub fn variable(&self, alloc: Global, variable: u32, ty: CType) -> Result<Operand, AllocError>
        ensures { IfOk result (λ a. a ≡ evaluating.current_operand (slice_get self.now.current variable) variable ty) }
    {
        match self.current.get(variable as usize) {
            None => Ok(plain(alloc, Source::Variable(variable, ty))),
            Some(held) => match held {
                None => Ok(plain(alloc, Source::Variable(variable, ty))),
                Some(value) => copy_of(alloc, value),
            },
        }
    }

    /// Whether the block has changed the variable.
    fn is_changed(&self, variable: u32) -> bool
        ensures { IsTrue result ↔ ((o : Operand) × (slice_get self.now.current variable ≡ Some (Some o))) }
    {
        match self.current.get(variable as usize) {
            None => false,
            Some(held) => held.is_some(),
        }
    }

    /// The variable is among those noted.
    #[tactic(auto, using(crate::proofs::Finals::among_last, crate::proofs::Finals::among_left))]
    fn note(&mut self, variable: u32) -> Result<(), AllocError>
        ensures same { OnOk result (self.new ≡ record self.old { changed = self.new.changed }) }
        ensures kept { OnOk result ((x : ℕ) → closing.IsAmong self.old.changed x → closing.IsAmong self.new.changed x) }
        ensures noted { OnOk result (closing.HasNoted self.old → closing.IsAmong self.new.changed variable) }
    {
        if !self.is_changed(variable) {
            self.changed.push(variable)?;
        }
        Ok(())
    }

    /// A variable holds this from now on.
    #[tactic(auto, using(crate::proofs::Finals::covers_set))]
    pub fn set(&mut self, variable: u32, value: Operand) -> Result<(), AllocError>
        ensures current { OnOk result (self.new.current ≡ slice_set self.old.current variable (Some value)) }
        ensures operations { OnOk result (self.new.operations ≡ self.old.operations) }
        ensures steps { OnOk result (self.new.steps ≡ self.old.steps) }
        ensures noted { OnOk result (closing.HasNoted self.old → closing.HasNoted self.new) }
    {
        self.note(variable)?;
        let at = variable as usize;
        if at < self.current.len() {
            self.current.set(at, Some(value));
        }
        Ok(())
    }

    /// What the block leaves in a variable, where it has changed it.
    fn push_final(
        &self,
        alloc: Global,
        finals: &mut Items<Final>,
        variable: u32,
    ) -> Result<(), AllocError>
        ensures { OnOk result (finals.new ≡ finals.old ++ closing.final_at (slice_get self.now.current variable) variable) }
    {
        match self.current.get(variable as usize) {
            None => Ok(()),
            Some(held) => match held {
                None => Ok(()),
                Some(value) => {
                    let value = copy_of(alloc, value)?;
                    finals.push(Final { variable, value })
                }
            },
        }
    }

    /// What the changed variables hold at the end.
    fn finals(&self, alloc: Global) -> Result<Items<Final>, AllocError>
        ensures { IfOk result (λ finals. finals ≡ closing.finals_of self.now.current self.now.changed) }
    {
        let mut finals = Items::new(alloc);
        for variable in self.changed.as_slice() {
            self.push_final(alloc, &mut finals, *variable)?;
        }
        Ok(finals)
    }

    /// The variable holds what the block found.
    fn unset(&mut self, variable: u32)
        ensures { self.new ≡ record self.old { current = slice_set self.old.current variable None } }
    {
        let at = variable as usize;
        if at < self.current.len() {
            self.current.set(at, None);
        }
    }

    /// No variable is changed any more.
    #[tactic(auto, using(crate::proofs::Finals::cleared_all, crate::proofs::Finals::cleared_none, crate::proofs::Finals::cleared_next))]
    fn clear(&mut self, alloc: Global)
        ensures same { self.new ≡ record self.old { changed = []; current = self.new.current } }
        ensures size { length self.new.current ≡ length self.old.current }
        ensures unchanged { closing.HasNoted self.old → closing.IsUnchanged self.new.current }
    {
        let changed = mem::replace(&mut self.changed, Items::new(alloc));
        for variable in changed.as_slice() {
            self.unset(*variable);
        }
    }

    /// The block, which leads there. What is left has no operations again.
    #[tactic(auto, using(crate::proofs::Finals::closes_at))]
    pub fn close(&mut self, alloc: Global, next: Next) -> Result<Block, AllocError>
        ensures block { IfOk result (λ b. closing.Closes self.old next b) }
        ensures operations { OnOk result (self.new.operations ≡ []) }
        ensures left { OnOk result (closing.HasNoted self.old → closing.IsFresh (length self.old.current) self.new) }
    {
        let finals = self.finals(alloc)?;
        self.clear(alloc);
        let operations = mem::replace(&mut self.operations, Items::new(alloc));
        let steps = mem::replace(&mut self.steps, 0);
        Ok(Block {
            operations,
            finals,
            next,
            steps,
        })
    }
}
