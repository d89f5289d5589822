// Blocks that follow one another alone are put in one, chain after chain.

ghost use Rattle.std.specs.Prelude.{◌≡◌, ℕ, ◌<◌, ◌≤◌, Some, None, slice_get, slice_set, IfOk, OnOk, IfSome};
ghost use Rattle.c_program.specs.Tree.{Program as GhostProgram};
ghost use Rattle.block_ir.specs.declared.code.Stage.TheVariants as stage;
ghost use Rattle.code_following.specs.Following.{IsLowered};
ghost use Rattle.code_following.specs.Idle.{idle_count};
ghost use Rattle.code_following.specs.Typed.{most_operations, IsTypedCode};
ghost use Rattle.code_merge.specs.Kept.{Keeps};
ghost use Rattle.code_merge.specs.Maximal.{IsMaximal, IsMaximalAt, AreCounted, Follows};
ghost use Rattle.code_merge.specs.Steps as steps;
ghost use Rattle.code_merge.specs.Used as used;

use crate::follow::{block_at, counts, fit, is_once, jump_of};
use crate::joining::{hold, join_next};
use block_ir::block::{Block, Next};
use block_ir::code::{Stage, ThreadCode};
use code_blocks::open_block::OpenBlock;
use sqlite_items::Items;
use std::alloc::{AllocError, Global};
use std::mem;

/// Code whose blocks are being merged, chain after chain.
#[derive(Drop)]
struct Merger {
    stages: Vec<Stage>,
    /// In how many ways each stage but the first is led to, up to two.
    counts: Items<usize>,
    /// What the chain in the making leaves in variables.
    held: OpenBlock,
    /// The greatest number of operations of a merged block.
    most: usize,
}

fn empty(alloc: Global) -> Stage
    ensures { result ≡ used.empty }
{
    Stage::Run(Block {
        operations: Items::new(alloc),
        finals: Items::new(alloc),
        next: Next::Jump(0),
        steps: 1,
    })
}

impl Merger {
    /// The block that may stand behind this one.
    fn follower(&self, first: usize) -> Option<usize>
        ensures some { IfSome result (λ m. Follows self.now.most self.now.stages.items self.now.counts first m) }
        ensures none { result ≡ None → steps.IsLast self.now.most self.now.stages.items self.now.counts first }
    {
        let block = block_at(self.stages.as_slice(), first)?;
        let second = jump_of(&block.next)?;
        let next = block_at(self.stages.as_slice(), second)?;
        let apart = second != 0 && second != first;
        if apart && is_once(self.counts.as_slice(), second) && fit(block, next, self.most) {
            Some(second)
        } else {
            None
        }
    }

    /// The block at a stage, in whose place one without operations is left.
    fn take(&mut self, alloc: Global, at: usize) -> Block
        requires { steps.IsBlock self.old at }
        ensures block { slice_get self.old.stages.items at ≡ Some (stage.Run result) }
        ensures stages { self.new.stages.items ≡ slice_set self.old.stages.items at used.empty }
        ensures counts { self.new.counts ≡ self.old.counts }
        ensures held { self.new.held ≡ self.old.held }
        ensures most { self.new.most ≡ self.old.most }
    {
        match mem::replace(&mut self.stages[at], empty(alloc)) {
            Stage::Run(block) => block,
            Stage::Act { .. } => unreachable!(),
        }
    }

    /// Variables hold what the block leaves in them.
    fn begin(&mut self, alloc: Global, first: usize) -> Result<(), AllocError>
        requires { steps.IsReady self.old }
        ensures { OnOk result (steps.Begins self.old self.new first) }
    {
        match block_at(self.stages.as_slice(), first) {
            None => Ok(()),
            Some(block) => hold(alloc, &mut self.held, block.finals.as_slice()),
        }
    }

    /// The block that follows another one alone becomes a part of it.
    fn join(&mut self, alloc: Global, first: usize, second: usize) -> Result<(), AllocError>
        requires { Follows self.old.most self.old.stages.items self.old.counts first second }
        ensures { OnOk result (steps.JoinsBlocks self.old self.new first second) }
    {
        let next = self.take(alloc, second);
        let mut block = self.take(alloc, first);
        join_next(alloc, &mut self.held, &mut block, &next)?;
        self.stages[first] = Stage::Run(block);
        self.counts.set(second, 0);
        Ok(())
    }

    /// The block sets each variable once, and nothing is held any more.
    fn finish(&mut self, alloc: Global, first: usize) -> Result<(), AllocError>
        requires { steps.IsBlock self.old first }
        ensures { OnOk result (steps.HoldsAt self.old first → steps.Tidies self.old self.new first) }
    {
        let left = self.held.close(alloc, Next::Jump(0))?;
        let mut block = self.take(alloc, first);
        block.finals = left.finals;
        self.stages[first] = Stage::Run(block);
        Ok(())
    }

    /// The blocks that follow one another alone from this one on become one.
    fn extend(&mut self, alloc: Global, first: usize) -> Result<(), AllocError>
        requires { steps.IsReady self.old }
        ensures { OnOk result (steps.Extends self.old self.new first) }
    {
        match self.follower(first) {
            None => Ok(()),
            Some(_) => {
                self.begin(alloc, first)?;
                self.grow(alloc, first)
            }
        }
    }

    /// The rest of the chain.
    fn grow(&mut self, alloc: Global, first: usize) -> Result<(), AllocError>
        requires counted { AreCounted self.old.stages.items self.old.counts }
        requires holds { steps.HoldsAt self.old first }
        requires block { steps.IsBlock self.old first }
        ensures { OnOk result (steps.Extends self.old self.new first) }
    {
        while let Some(second) = self.follower(first) {
            self.join(alloc, first, second)?;
        }
        self.finish(alloc, first)
    }

    /// For each stage whether it may stand behind another one.
    fn followers(&self, alloc: Global) -> Result<Items<bool>, AllocError> {
        let mut followers = Items::from_vec(vec![in alloc; false; self.stages.len()]?);
        for first in 0..self.stages.len() {
            if let Some(second) = self.follower(first) {
                if second < followers.len() {
                    followers.set(second, true);
                }
            }
        }
        Ok(followers)
    }

    /// A chain that begins where no block may stand behind another one.
    fn extend_head(
        &mut self,
        alloc: Global,
        followers: &[bool],
        first: usize,
    ) -> Result<(), AllocError>
        requires { steps.IsReady self.old }
        ensures { OnOk result (steps.Merges self.old self.new × steps.IsReady self.new) }
    {
        if first < followers.len() && followers[first] {
            return Ok(());
        }
        self.extend(alloc, first)
    }

    /// The chains that begin where no block may stand behind another one: so each operation is copied once.
    fn extend_heads(&mut self, alloc: Global) -> Result<(), AllocError>
        requires { steps.IsReady self.old }
        ensures { OnOk result (steps.Merges self.old self.new × steps.IsReady self.new) }
    {
        let followers = self.followers(alloc)?;
        for first in 0..self.stages.len() {
            self.extend_head(alloc, followers.as_slice(), first)?;
        }
        Ok(())
    }

    /// All chains.
    fn extend_all(&mut self, alloc: Global) -> Result<(), AllocError>
        requires { steps.IsReady self.old }
        ensures { OnOk result (steps.Merges self.old self.new × ((l : ℕ) → IsMaximalAt self.old.most self.new.stages.items l)) }
    {
        let count = self.stages.as_slice().len();
        for first in 0..count {
            self.extend(alloc, first)?;
        }
        Ok(())
    }
}

/// The same stages, to be taken out and put back one by one.
fn into_vec(alloc: Global, stages: Items<Stage>) -> Result<Vec<Stage>, AllocError>
    ensures { IfOk result (λ v. v.items ≡ stages) }
{
    let mut rest = stages;
    let mut last_first = Vec::new(alloc);
    while let Some(stage) = rest.pop() {
        last_first.push(stage)?;
    }
    last_first.reverse();
    Ok(last_first)
}

fn merged(
    alloc: Global,
    stages: Items<Stage>,
    variables: usize,
    most: usize,
) -> Result<Items<Stage>, AllocError>
    ensures keeps { IfOk result (Keeps most variables stages) }
    ensures maximal { IfOk result (λ new. (l : ℕ) → IsMaximalAt most new l) }
{
    let counts = counts(alloc, stages.as_slice())?;
    let held = OpenBlock::new(alloc, variables)?;
    let stages = into_vec(alloc, stages)?;
    let mut merger = Merger {
        stages,
        counts,
        held,
        most,
    };
    merger.extend_heads(alloc)?;
    merger.extend_all(alloc)?;
    let Merger { stages, .. } = merger;
    Ok(Items::from_vec(stages))
}

/// Code that does the same, where each block has behind it, in one, the blocks that nothing else leads to after it, as long as it
/// has at most so many operations. Of a block that is a part of another one a block without operations is left.
///
/// The only error is want of memory.
pub fn merge(alloc: Global, code: ThreadCode, most: usize) -> Result<ThreadCode, AllocError>
    ensures typed { IfOk result (λ c. (P : GhostProgram) (f : ℕ) → most ≤ most_operations P code.stages → IsTypedCode P f code → IsTypedCode P f c) }
    ensures lowered { IfOk result (λ c. (P : GhostProgram) (f : ℕ) → most ≤ most_operations P code.stages → IsTypedCode P f code → IsLowered P f code → IsLowered P f c) }
    ensures idle { IfOk result (λ c. (P : GhostProgram) (f : ℕ) → most ≤ most_operations P code.stages → IsTypedCode P f code → idle_count c.stages ≡ idle_count code.stages) }
    ensures maximal { IfOk result (IsMaximal most) }
    ensures argument { IfOk result (λ c. c.argument ≡ code.argument) }
    ensures names { IfOk result (λ c. c.names ≡ code.names) }
{
    let ThreadCode {
        argument,
        variables,
        names,
        arrays,
        stages,
    } = code;
    let stages = merged(alloc, stages, variables.len(), most)?;
    Ok(ThreadCode {
        argument,
        variables,
        names,
        arrays,
        stages,
    })
}
