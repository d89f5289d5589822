// The words that may depend on themselves, found by ranks.

ghost use Rattle.std.specs.Prelude.{◌≡◌, ℕ, ◌<◌, length, slice_index, IfOk, IsTrue, MatchOption, ⊤};
ghost use Rattle.sim_values.specs.Order.{reads, IsClear};
ghost use Rattle.sim_layout.specs.Ranks.{AreUpTo, IsRanked, AreRanked, AreSuspects};

use crate::components::ranks;
use crate::operands::operand_at;
use netlist::netlist::Module;
use sim_values::settle::{Feed, Step};
use std::alloc::{AllocError, Global};

/// A rank that none of the words that a feed reads has a higher one than: where there are any, the highest of theirs. None: one of them has no rank.
fn highest(ranks: &[usize], modules: &[Module], feed: Feed) -> Option<usize>
    ensures { MatchOption result ⊤ (λ most. AreUpTo ranks.now most (reads modules.now feed)) }
{
    let mut most = 0;
    for index in 0..usize::MAX {
        match operand_at(modules, feed, index) {
            Some(word) if word < ranks.len() => most = most.max(ranks[word]),
            Some(_) => return None,
            None => return Some(most),
        }
    }
    None
}

/// Whether a step reads nothing of a higher rank than its target's. Its target is suspect where it reads something of the same.
fn suspect(modules: &[Module], ranks: &[usize], wire: Step, suspects: &mut [bool]) -> bool
    ensures ranked { IsTrue result → IsRanked modules.now ranks.now suspects.new wire }
    ensures long { length suspects.new ≡ length suspects.old }
    ensures keeps { (k : ℕ) → IsClear suspects.new k → IsClear suspects.old k }
{
    if wire.target >= suspects.len() {
        return false;
    }
    let Some(most) = highest(ranks, modules, wire.feed) else {
        return false;
    };
    let own = ranks.get(wire.target).copied().unwrap_or(0);
    if most >= own {
        suspects[wire.target] = true;
    }
    most <= own
}

/// Whether each step reads nothing of a higher rank than its target's. Marks the targets of those that read something of the same.
fn all_suspects(modules: &[Module], wires: &[Step], ranks: &[usize], suspects: &mut [bool]) -> bool
    ensures ranked { IsTrue result → AreRanked modules.now wires.now ranks.now suspects.new (length wires.now) }
    ensures long { length suspects.new ≡ length suspects.old }
{
    for number in 0..wires.len() {
        if !suspect(modules, ranks, wires[number], suspects) {
            return false;
        }
    }
    true
}

/// Marks, of so many words, all that depend on themselves. A word that is marked beyond these is looked into and found without a loop.
#[tactic(auto, using(crate::proofs::WordRanks::suspects_ranked, crate::proofs::WordRanks::suspects_all))]
pub fn suspects(
    alloc: Global,
    modules: &[Module],
    wires: &[Step],
    words: usize,
) -> Result<Vec<bool>, AllocError>
    ensures long { IfOk result (λ suspects. length suspects.items ≡ words) }
    ensures marked { IfOk result (λ suspects. AreSuspects modules.now wires.now suspects.items) }
{
    let ranks = ranks(alloc, modules, wires, words)?;
    let mut suspects = vec![in alloc; false; words]?;
    if all_suspects(modules, wires, ranks.as_slice(), suspects.as_mut_slice()) {
        return Ok(suspects);
    }
    // The ranks are such that this is never reached. Were it, the answer is still right, and is found slowly.
    Ok(vec![in alloc; true; words]?)
}
