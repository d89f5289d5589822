// The clock edge: all statements read the numbers before it, and of several to one place the last prevails.

ghost use Rattle.std.specs.Prelude.{◌≡◌, ℕ, ◌+◌, ◌∷◌, [], slice_index, slice_set, slice_get};
ghost use Rattle.circuit.specs.Readings.{is_on};
ghost use Rattle.sim_values.specs.Flat.{Flat, flat_of, reading, stored_word, act_number, act_word, acted_numbers, acted_words};
ghost use Rattle.sim_values.specs.Flat.{all_numbers, all_words, part_words, actions_of};
ghost use Rattle.sim_values.specs.Stands.{kind_of, spot_of, spot_at};

use crate::settle::set_item;
use crate::value::{Now, Spot, memory_size, number_at};
use netlist::netlist::{Action, Effect, Module};
use sqlite_items::at;

/// An instance: the number of its module, where it stands, and the number of its first instance.
#[derive(Clone, Copy)]
pub struct Part {
    pub module: usize,
    pub spot: Spot,
    pub children: usize,
}

/// The module of the outermost instance, whose part stands first.
pub fn kind_at_root(parts: &[Part]) -> usize
    ensures { result ≡ kind_of (slice_get parts.now 0) }
{
    match at(parts, 0) {
        Some(part) => part.module,
        None => 0,
    }
}

fn spot_in(parts: &[Part], place: usize) -> Spot
    ensures { result ≡ spot_of (slice_get parts.now place) }
{
    match at(parts, place) {
        Some(part) => part.spot,
        None => Spot {
            base: 0,
            memories: 0,
        },
    }
}

/// Where an instance in the outermost one stands.
pub fn inner_spot(parts: &[Part], instance: usize) -> Spot
    ensures { result ≡ spot_at parts.now (instance ∷ []) }
{
    let children = match at(parts, 0) {
        Some(part) => part.children,
        None => 0,
    };
    match children.checked_add(instance) {
        Some(place) => spot_in(parts, place),
        None => Spot {
            base: 0,
            memories: 0,
        },
    }
}

/// Whether conditions hold in the instance at a spot.
pub fn conditions_hold(spot: Spot, now: &Now, conditions: &[usize]) -> bool
    ensures { result ≡ is_on (reading spot (flat_of now.now)) conditions.now }
{
    for condition in conditions {
        if number_at(now.numbers, spot.base, *condition) == 0 {
            return false;
        }
    }
    true
}

/// Changes the word that stands so far behind a place.
fn set_number_at(numbers: &mut [u64], base: usize, signal: usize, number: u64)
    ensures { numbers.new ≡ slice_set numbers.old (base + signal) number }
{
    if let Some(place) = base.checked_add(signal) {
        set_item(numbers, place, number);
    }
}

/// Changes the word of a number in a memory that starts at a place, where there is one.
pub fn set_word_at(words: &mut [u64], start: u64, number: u64, word: u64)
    ensures { words.new ≡ slice_set words.old (start + number) word }
{
    if let Some(place) = start.checked_add(number) {
        if place < words.len() as u64 {
            words[place as usize] = word;
        }
    }
}

fn act_numbers(spot: Spot, now: &Now, next: &mut [u64], action: &Action)
    ensures { next.new ≡ act_number spot (flat_of now.now) next.old action.now }
{
    if !conditions_hold(spot, now, action.conditions.as_slice()) {
        return;
    }
    if let Effect::Set { register, source } = &action.effect {
        set_number_at(
            next,
            spot.base,
            *register,
            number_at(now.numbers, spot.base, *source),
        );
    }
}

fn part_numbers(spot: Spot, now: &Now, next: &mut [u64], actions: &[Action])
    ensures { next.new ≡ acted_numbers spot (flat_of now.now) next.old actions.now }
{
    for action in actions {
        act_numbers(spot, now, next, action);
    }
}

fn module_actions(modules: &[Module], number: usize) -> &[Action]
    ensures { result.now ≡ actions_of (slice_get modules.now number) }
{
    match at(modules, number) {
        Some(module) => module.actions.as_slice(),
        None => &[],
    }
}

/// What the edge leaves in the registers of all instances.
pub fn edge_numbers(modules: &[Module], parts: &[Part], now: &Now, next: &mut [u64])
    ensures { next.new ≡ all_numbers modules.now (flat_of now.now) next.old parts.now }
{
    for part in parts {
        part_numbers(part.spot, now, next, module_actions(modules, part.module));
    }
}

fn store(
    module: &Module,
    spot: Spot,
    now: &[u64],
    words: &mut [u64],
    starts: &[u64],
    effect: &Effect,
)
    ensures { words.new ≡ stored_word module.now spot (record { numbers = now.now; words = words.old; starts = starts.now }) effect.now }
{
    if let Effect::Store {
        memory,
        address,
        source,
    } = effect
    {
        let number = number_at(now, spot.base, *address);
        if number < memory_size(module, *memory) {
            let start = number_at(starts, spot.memories, *memory);
            set_word_at(words, start, number, number_at(now, spot.base, *source));
        }
    }
}

fn act_words(
    module: &Module,
    spot: Spot,
    now: &[u64],
    words: &mut [u64],
    starts: &[u64],
    action: &Action,
)
    ensures { words.new ≡ act_word module.now spot (record { numbers = now.now; words = words.old; starts = starts.now }) action.now }
{
    let held = Now {
        numbers: now,
        words: &*words,
        starts,
    };
    if conditions_hold(spot, &held, action.conditions.as_slice()) {
        store(module, spot, now, words, starts, &action.effect);
    }
}

fn module_words(module: &Module, spot: Spot, now: &[u64], words: &mut [u64], starts: &[u64])
    ensures { words.new ≡ acted_words module.now spot (record { numbers = now.now; words = words.old; starts = starts.now }) module.now.actions }
{
    for action in module.actions.as_slice() {
        act_words(module, spot, now, words, starts, action);
    }
}

fn part_store(modules: &[Module], part: Part, now: &[u64], words: &mut [u64], starts: &[u64])
    ensures { words.new ≡ part_words part (record { numbers = now.now; words = words.old; starts = starts.now }) (slice_get modules.now part.module) }
{
    if let Some(module) = at(modules, part.module) {
        module_words(module, part.spot, now, words, starts);
    }
}

/// What the edge leaves in the memories of all instances.
pub fn edge_words(
    modules: &[Module],
    parts: &[Part],
    now: &[u64],
    words: &mut [u64],
    starts: &[u64],
)
    ensures { words.new ≡ all_words modules.now (record { numbers = now.now; words = words.old; starts = starts.now }) parts.now }
{
    for part in parts {
        part_store(modules, *part, now, words, starts);
    }
}
