// What one simulator takes over from another.

ghost use Rattle.std.specs.Prelude.{◌≡◌, ℕ, ◌+◌, ◌^◌, ◌<◌, length, slice_get, slice_index};
ghost use Rattle.sim_layout.specs.Running.{Running, Stands, IsSameNet};
ghost use Rattle.slot_sim.specs.Taking.{taken, taken_memories, taken_numbers_at, taken_words_at, taken_numbers, taken_words, with_state};

use cycle_sim::sim::Sim;
use netlist::netlist::{Memory, Signal};
use sqlite_items::at;

/// Takes over the numbers of signals that start at a place.
#[tactic(auto, using(crate::proofs::Takes::number_fits, crate::proofs::Takes::put_same_net))]
fn take_numbers(sim: &mut Sim, other: &Sim, base: usize, signals: &[Signal])
    requires net { IsSameNet sim.old other.now }
    requires stands { Stands other.now }
    requires room { base + length signals.now < 2 ^ 64 }
    ensures { sim.new ≡ with_state sim.old (taken other.now.numbers sim.old.numbers base signals.now) sim.old.words }
{
    for number in 0..signals.len() {
        let word = other.number(base + number);
        sim.put_number(base + number, word);
    }
}

/// Takes over the words of the memory of a number.
#[tactic(auto, using(crate::proofs::Takes::word_fits, crate::proofs::Takes::put_same_net))]
fn take_words(sim: &mut Sim, other: &Sim, first: usize, memory: usize, stored: &[u64])
    requires net { IsSameNet sim.old other.now }
    requires stands { Stands other.now }
    ensures { sim.new ≡ with_state sim.old sim.old.numbers (taken other.now.words sim.old.words (slice_index other.now.starts (first + memory)) stored.now) }
{
    for number in 0..stored.len() {
        let word = other.word_of(first, memory, number as u64);
        sim.put_word(first, memory, number as u64, word);
    }
}

/// Takes over the words of memories that stand one behind the other.
fn take_memories(sim: &mut Sim, other: &Sim, first: usize, memories: &[Memory])
    requires net { IsSameNet sim.old other.now }
    requires stands { Stands other.now }
    ensures { sim.new ≡ with_state sim.old sim.old.numbers (taken_memories other.now.words sim.old.words other.now.starts first memories.now) }
{
    for number in 0..memories.len() {
        take_words(
            sim,
            other,
            first,
            number,
            memories[number].initial.as_slice(),
        );
    }
}

/// Takes over the numbers and the words of a part.
#[tactic(auto, using(crate::proofs::Rooms::part_room, crate::proofs::Takes::put_same_net))]
fn take_part(sim: &mut Sim, other: &Sim, place: usize)
    requires net { IsSameNet sim.old other.now }
    ensures { sim.new ≡ with_state sim.old (taken_numbers_at other.now.modules other.now.numbers sim.old.numbers (slice_get other.now.parts place))
        (taken_words_at other.now.modules other.now.words sim.old.words other.now.starts (slice_get other.now.parts place)) }
{
    if let Some(part) = at(other.parts(), place) {
        if let Some(module) = at(other.modules(), part.module) {
            take_numbers(sim, other, part.spot.base, module.signals.as_slice());
            take_memories(sim, other, part.spot.memories, module.memories.as_slice());
        }
    }
}

/// Takes over the numbers and the words of the parts at some places.
#[tactic(auto, using(crate::proofs::Takes::put_same_net))]
pub fn take_parts(sim: &mut Sim, other: &Sim, places: &[usize])
    requires { IsSameNet sim.old other.now }
    ensures { sim.new ≡ with_state sim.old (taken_numbers other.now.modules other.now.parts other.now.numbers sim.old.numbers places.now)
        (taken_words other.now.modules other.now.parts other.now.starts other.now.words sim.old.words places.now) }
{
    for place in places {
        take_part(sim, other, *place);
    }
}
