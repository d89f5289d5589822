// Whether two simulators hold the same in one instance.

ghost use Rattle.std.specs.Prelude.{◌≡◌, ℕ, ◌+◌, ◌^◌, ◌<◌, length, slice_get, slice_index, nat_eq, true, false};
ghost use Rattle.sim_layout.specs.Placed.{is_register};
ghost use Rattle.slot_sim.specs.Same.{registers_same, words_same, memories_same, part_same_at, parts_same};
ghost use Rattle.sim_layout.specs.Running.{flat};

use cycle_sim::sim::Sim;
use netlist::netlist::{Memory, Signal, Source};
use sqlite_items::at;

fn holds(source: &Source) -> bool
    ensures { result ≡ is_register source.now }
{
    match source {
        Source::Register(_) => true,
        Source::Input | Source::Assigned(_) | Source::Port { .. } => false,
    }
}

/// Whether two simulators have the same numbers at the registers among signals that start at a place.
pub fn same_registers(left: &Sim, right: &Sim, base: usize, signals: &[Signal]) -> bool
    requires { (x : ℕ) → x < length signals.now → base + x < 2 ^ 64 }
    ensures { result ≡ registers_same left.now.numbers right.now.numbers base signals.now }
{
    for number in 0..signals.len() {
        if holds(&signals[number].source)
            && left.number(base + number) != right.number(base + number)
        {
            return false;
        }
    }
    true
}

fn differs(left: &Sim, right: &Sim, first: usize, memory: usize, word: u64) -> bool
    ensures apart { result ≡ true → nat_eq (slice_index left.now.words (slice_index left.now.starts (first + memory) + word))
        (slice_index right.now.words (slice_index right.now.starts (first + memory) + word)) ≡ false }
    ensures alike { result ≡ false → nat_eq (slice_index left.now.words (slice_index left.now.starts (first + memory) + word))
        (slice_index right.now.words (slice_index right.now.starts (first + memory) + word)) ≡ true }
{
    left.word_of(first, memory, word) != right.word_of(first, memory, word)
}

/// Whether two simulators have the same words in the memory of a number, from the place `first` of all memories on.
pub fn same_words(left: &Sim, right: &Sim, first: usize, memory: usize, stored: &[u64]) -> bool
    ensures { result ≡ words_same left.now.words right.now.words (slice_index left.now.starts (first + memory)) (slice_index right.now.starts (first + memory)) stored.now }
{
    for number in 0..stored.len() {
        if differs(left, right, first, memory, number as u64) {
            return false;
        }
    }
    true
}

/// Whether two simulators have the same words in memories that stand one behind the other.
pub fn same_memories(left: &Sim, right: &Sim, first: usize, memories: &[Memory]) -> bool
    ensures { result ≡ memories_same (flat left.now) (flat right.now) first memories.now }
{
    for number in 0..memories.len() {
        if !same_words(
            left,
            right,
            first,
            number,
            memories[number].initial.as_slice(),
        ) {
            return false;
        }
    }
    true
}

/// Whether two simulators hold the same in the part at a place.
fn same_part(left: &Sim, right: &Sim, place: usize) -> bool
    ensures { result ≡ part_same_at left.now.modules (flat left.now) (flat right.now) (slice_get left.now.parts place) }
{
    if let Some(part) = at(left.parts(), place) {
        if let Some(module) = at(left.modules(), part.module) {
            return same_registers(left, right, part.spot.base, module.signals.as_slice())
                && same_memories(left, right, part.spot.memories, module.memories.as_slice());
        }
    }
    true
}

/// Whether two simulators hold the same in the parts at some places.
pub fn same_parts(left: &Sim, right: &Sim, places: &[usize]) -> bool
    ensures { result ≡ parts_same left.now.modules left.now.parts (flat left.now) (flat right.now) places.now }
{
    for place in places {
        if !same_part(left, right, *place) {
            return false;
        }
    }
    true
}
