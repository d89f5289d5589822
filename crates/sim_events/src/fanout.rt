// Which steps read or give a word.

ghost use Rattle.std.specs.Prelude.{◌≡◌, ℕ, ◌<◌, Some, length, slice_get, IfOk, OnOk};
ghost use Rattle.verilog_meaning.specs.Threads.{IsOneOf};
ghost use Rattle.sim_values.specs.declared.settle.Step as settle_step;
ghost use Rattle.sim_values.specs.Order.{reads};
ghost use Rattle.sim_layout.specs.Waits.{IsWaiting};
ghost use Rattle.sim_events.specs.Events.{Touches, IsFanout};

use netlist::netlist::Module;
use sim_layout::operands::operand_at;
use sim_layout::waits::{Waits, no_waits, wait_for, wake};
use sim_values::settle::{Feed, Step};
use std::alloc::{AllocError, Global};

/// The numbers of the steps that read or give each word: those of word w stand in `steps` from place `starts[w]` up to `starts[w + 1]`.
pub struct Fanout {
    pub starts: Vec<usize>,
    pub steps: Vec<usize>,
}

// A drop that is written here is proved here; a derived one is proved again in each crate that drops the type.

impl Drop for Fanout {
    fn drop(self) {
        let Fanout {
            starts: _,
            steps: _,
        } = self;
    }
}

/// The step of a number.
pub(crate) fn step_at(steps: &[Step], number: usize) -> &Step
    requires { number < length steps.now }
    ensures { slice_get steps.now number ≡ Some result.now }
{
    &steps[number]
}

/// A step stands in the chain of each word that its feed reads.
fn touch_reads(
    touched: &mut Waits,
    modules: &[Module],
    number: usize,
    feed: Feed,
) -> Result<(), AllocError>
    ensures long { OnOk result (length touched.new.last.items ≡ length touched.old.last.items) }
    ensures keeps { OnOk result ((w k : ℕ) → IsWaiting touched.old.last.items touched.old.chain.items w k → IsWaiting touched.new.last.items touched.new.chain.items w k) }
    ensures reads { OnOk result ((y : ℕ) → IsOneOf y (reads modules.now feed) → y < length touched.old.last.items → IsWaiting touched.new.last.items touched.new.chain.items y number) }
{
    let _words = touched.last.len();
    for index in 0..usize::MAX {
        match operand_at(modules, feed, index) {
            Some(word) => wait_for(touched, number, word)?,
            None => return Ok(()),
        }
    }
    Err(AllocError)
}

/// Of each word the chain of the steps that read or give it.
fn touches(
    alloc: Global,
    modules: &[Module],
    steps: &[Step],
    words: usize,
) -> Result<Waits, AllocError>
    ensures { IfOk result (λ t. (k y : ℕ) (s : settle_step.Step) → slice_get steps.now k ≡ Some s → Touches modules.now s y → y < words → IsWaiting t.last.items t.chain.items y k) }
{
    let mut touched = no_waits(alloc, words)?;
    for number in 0..steps.len() {
        let step = step_at(steps, number);
        wait_for(&mut touched, number, step.target)?;
        touch_reads(&mut touched, modules, number, step.feed)?;
    }
    Ok(touched)
}

/// The steps that read or give each of so many words.
pub fn fanout_of(
    alloc: Global,
    modules: &[Module],
    steps: &[Step],
    words: usize,
) -> Result<Fanout, AllocError>
    ensures { IfOk result (λ f. IsFanout modules.now steps.now words f.starts.items f.steps.items) }
{
    let touched = touches(alloc, modules, steps, words)?;
    let mut starts = Vec::new(alloc);
    let mut listed = Vec::new(alloc);
    starts.push(0)?;
    for word in 0..words {
        wake(&touched, word, &mut listed)?;
        starts.push(listed.len())?;
    }
    Ok(Fanout {
        starts,
        steps: listed,
    })
}

impl Fanout {
    /// The same.
    pub fn copy(&self, alloc: Global) -> Result<Fanout, AllocError>
        ensures starts { IfOk result (λ f. f.starts.items ≡ self.now.starts.items) }
        ensures steps { IfOk result (λ f. f.steps.items ≡ self.now.steps.items) }
    {
        Ok(Fanout {
            starts: self.starts.as_slice().to_vec(alloc)?,
            steps: self.steps.as_slice().to_vec(alloc)?,
        })
    }
}
