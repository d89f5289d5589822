// The fan-in cone of a word: the steps that its number hangs on, which are settled by themselves where nothing else is asked for.

ghost use Rattle.std.specs.Prelude.{◌≡◌, ℕ, ◌<◌, ◌⊎◌, false, List, length, slice_index_or, IfOk, OnOk};
ghost use Rattle.netlist.specs.declared.netlist.Module as net_module;
ghost use Rattle.verilog_meaning.specs.Threads.{IsOneOf};
ghost use Rattle.sim_values.specs.declared.settle.Step as settle_step;
ghost use Rattle.sim_values.specs.Flat.{AreNarrow, stepped, settled};
ghost use Rattle.sim_values.specs.Order.{reads, IsMarked};
ghost use Rattle.sim_layout.specs.Running.{choice_of};
ghost use Rattle.sim_events.specs.Cones.{AreClosed, IsCone};
ghost use Rattle.sim_events.specs.Events.{AreFlagged, AreOrdered, IsKeeping, flat_at};

use crate::fanout::{Fanout, step_at};
use crate::pending::{Pending, is_marked, is_other, put, set_mark};
use netlist::netlist::Module;
use sim_layout::operands::operand_at;
use sim_values::settle::{Choice, Feed, Step, feed_number};
use sim_values::value::Now;
use std::alloc::{AllocError, Global};

/// Marks the words that a feed reads.
fn mark_reads(marks: &mut Vec<bool>, modules: &[Module], feed: Feed) -> Result<(), AllocError>
    ensures long { OnOk result (length marks.new.items ≡ length marks.old.items) }
    ensures reads { OnOk result ((y : ℕ) → IsOneOf y (reads modules.now feed) → y < length marks.old.items → IsMarked marks.new.items y) }
    ensures keeps { OnOk result ((y : ℕ) → IsMarked marks.old.items y → IsMarked marks.new.items y) }
    ensures only { OnOk result ((y : ℕ) → IsMarked marks.new.items y → IsMarked marks.old.items y ⊎ IsOneOf y (reads modules.now feed)) }
{
    let _words = marks.len();
    for index in 0..usize::MAX {
        match operand_at(modules, feed, index) {
            Some(word) => set_mark(marks, word, true),
            None => return Ok(()),
        }
    }
    Err(AllocError)
}

/// Marks the words that a step reads, where the word that it gives is marked.
fn mark_operands(marks: &mut Vec<bool>, modules: &[Module], step: &Step) -> Result<(), AllocError>
    ensures long { OnOk result (length marks.new.items ≡ length marks.old.items) }
    ensures closed { OnOk result (IsMarked marks.old.items step.now.target → (y : ℕ) → IsOneOf y (reads modules.now step.now.feed) → y < length marks.old.items → IsMarked marks.new.items y) }
    ensures keeps { OnOk result ((y : ℕ) → IsMarked marks.old.items y → IsMarked marks.new.items y) }
    ensures only { OnOk result ((y : ℕ) → IsMarked marks.new.items y → IsMarked marks.old.items y ⊎ IsOneOf y (reads modules.now step.now.feed)) }
    ensures stays { OnOk result (slice_index_or marks.old.items step.now.target false ≡ false → marks.new.items ≡ marks.old.items) }
{
    if !is_marked(marks.as_slice(), step.target) {
        return Ok(());
    }
    mark_reads(marks, modules, step.feed)
}

/// Marks the words that one of so many hangs on, itself among them: from the last step on, since a step reads no word that a later one gives.
fn cone_marks(
    alloc: Global,
    modules: &[Module],
    steps: &[Step],
    words: usize,
    word: usize,
) -> Result<Vec<bool>, AllocError>
    requires { AreOrdered modules.now steps.now words }
    ensures long { IfOk result (λ marks. length marks.items ≡ words) }
    ensures closed { IfOk result (λ marks. AreClosed modules.now marks.items steps.now) }
    ensures has { IfOk result (λ marks. word < words → IsMarked marks.items word) }
{
    let mut marks = vec![in alloc; false; words]?;
    set_mark(&mut marks, word, true);
    for behind in 0..steps.len() {
        let step = step_at(steps, steps.len() - 1 - behind);
        mark_operands(&mut marks, modules, step)?;
    }
    Ok(marks)
}

/// The steps that the number of one of so many words hangs on, in their order.
pub fn cone(
    alloc: Global,
    modules: &[Module],
    steps: &[Step],
    words: usize,
    word: usize,
) -> Result<Vec<Step>, AllocError>
    requires { AreOrdered modules.now steps.now words }
    ensures { IfOk result (λ cone. IsCone modules.now steps.now words word cone.items) }
{
    let marks = cone_marks(alloc, modules, steps, words, word)?;
    let mut cone = Vec::new(alloc);
    for step in steps {
        if is_marked(marks.as_slice(), step.target) {
            cone.push(*step)?;
        }
    }
    Ok(cone)
}

/// Takes one step.
fn settle_step(
    modules: &[Module],
    step: &Step,
    choice: &Choice,
    numbers: &mut [u64],
    words: &[u64],
    starts: &[u64],
    fanout: &Fanout,
    pending: &mut Pending,
)
    requires narrow { AreNarrow modules.now }
    requires flagged { AreFlagged pending.old.steps.items pending.old.blocks.items }
    ensures numbers { numbers.new ≡ stepped modules.now (choice_of choice.now) (flat_at numbers.old words.now starts.now) step.now }
    ensures keeping { (all : List net_module.Module) (steps : List settle_step.Step) → IsKeeping all steps fanout.now.starts.items fanout.now.steps.items numbers.old pending.old.steps.items
        → IsKeeping all steps fanout.now.starts.items fanout.now.steps.items numbers.new pending.new.steps.items }
    ensures flagged { AreFlagged pending.new.steps.items pending.new.blocks.items }
{
    let now = Now {
        numbers: &*numbers,
        words,
        starts,
    };
    let given = feed_number(modules, choice, &now, step.feed);
    if is_other(numbers, step.target, given) {
        put(fanout, numbers, pending, step.target, given);
    }
}

/// Takes the steps of a cone, one after the other. Those that read or give a word which changes are pending from now on.
pub fn settle_cone(
    modules: &[Module],
    cone: &[Step],
    choice: &Choice,
    numbers: &mut [u64],
    words: &[u64],
    starts: &[u64],
    fanout: &Fanout,
    pending: &mut Pending,
)
    requires narrow { AreNarrow modules.now }
    requires flagged { AreFlagged pending.old.steps.items pending.old.blocks.items }
    ensures numbers { numbers.new ≡ settled modules.now (choice_of choice.now) (flat_at numbers.old words.now starts.now) cone.now }
    ensures keeping { (all : List net_module.Module) (steps : List settle_step.Step) → IsKeeping all steps fanout.now.starts.items fanout.now.steps.items numbers.old pending.old.steps.items
        → IsKeeping all steps fanout.now.starts.items fanout.now.steps.items numbers.new pending.new.steps.items }
    ensures flagged { AreFlagged pending.new.steps.items pending.new.blocks.items }
{
    for step in cone {
        settle_step(
            modules, step, choice, numbers, words, starts, fanout, pending,
        );
    }
}
