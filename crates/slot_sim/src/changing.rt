// Whether the edge changes what an instance holds.

ghost use Rattle.std.specs.Prelude.{◌≡◌, ◌+◌, ◌^◌, ◌<◌, length, if◌then◌else◌, slice_get, slice_index, Some};
ghost use Rattle.verilog_meaning.specs.Readings.{is_on, set_by, stored_by, register_after, word_after};
ghost use Rattle.sim_values.specs.Flat.{reading};
ghost use Rattle.sim_layout.specs.Running.{flat};
ghost use Rattle.slot_sim.specs.Changing.{leaves_other, changes, part_changes_at, parts_change};

use cycle_sim::sim::Sim;
use netlist::netlist::{Action, Effect, Module};
use sim_values::value::{Spot, memory_size};
use sqlite_items::at;

/// The number of a signal of the instance whose signals start at a place.
fn number_in(sim: &Sim, base: usize, signal: usize) -> u64
    requires { length sim.now.numbers < 2 ^ 64 }
    ensures { result ≡ slice_index sim.now.numbers (base + signal) }
{
    match base.checked_add(signal) {
        Some(place) => sim.number(place),
        None => 0,
    }
}

/// Whether conditions hold in the instance at a spot.
fn all_hold(sim: &Sim, spot: Spot, conditions: &[usize]) -> bool
    requires { length sim.now.numbers < 2 ^ 64 }
    ensures { result ≡ is_on (reading spot (flat sim.now)) conditions.now }
{
    for condition in conditions {
        if number_in(sim, spot.base, *condition) == 0 {
            return false;
        }
    }
    true
}

/// The number that an action leaves in a register that held one.
fn set_register(sim: &Sim, spot: Spot, action: &Action, register: usize, held: u64) -> u64
    requires { length sim.now.numbers < 2 ^ 64 }
    ensures { result ≡ (if is_on (reading spot (flat sim.now)) action.now.conditions then set_by (reading spot (flat sim.now)) action.now.effect register held else held) }
{
    match &action.effect {
        Effect::Set {
            register: target,
            source,
        } if *target == register && all_hold(sim, spot, action.conditions.as_slice()) => {
            number_in(sim, spot.base, *source)
        }
        _ => held,
    }
}

/// The number that actions leave in a register that held one.
fn register_left(sim: &Sim, spot: Spot, actions: &[Action], register: usize, held: u64) -> u64
    requires { length sim.now.numbers < 2 ^ 64 }
    ensures { result ≡ register_after (reading spot (flat sim.now)) actions.now register held }
{
    let mut left = held;
    for action in actions {
        left = set_register(sim, spot, action, register, left);
    }
    left
}

/// The word that an action leaves in a place of a memory that held one.
fn set_word(sim: &Sim, spot: Spot, action: &Action, memory: usize, number: u64, held: u64) -> u64
    requires { length sim.now.numbers < 2 ^ 64 }
    ensures { result ≡ (if is_on (reading spot (flat sim.now)) action.now.conditions then stored_by (reading spot (flat sim.now)) action.now.effect memory number held else held) }
{
    match &action.effect {
        Effect::Store {
            memory: target,
            address,
            source,
        } if *target == memory
            && number_in(sim, spot.base, *address) == number
            && all_hold(sim, spot, action.conditions.as_slice()) => {
            number_in(sim, spot.base, *source)
        }
        _ => held,
    }
}

/// The word that actions leave in a place of a memory that held one.
fn word_left(
    sim: &Sim,
    spot: Spot,
    actions: &[Action],
    memory: usize,
    number: u64,
    held: u64,
) -> u64
    requires { length sim.now.numbers < 2 ^ 64 }
    ensures { result ≡ word_after (reading spot (flat sim.now)) actions.now memory number held }
{
    let mut left = held;
    for action in actions {
        left = set_word(sim, spot, action, memory, number, left);
    }
    left
}

/// Whether a statement that is carried out has the edge leave another number or word than is held, where these actions come behind it.
fn leaves_another(
    sim: &Sim,
    spot: Spot,
    module: &Module,
    effect: &Effect,
    behind: &[Action],
) -> bool
    requires { length sim.now.numbers < 2 ^ 64 }
    ensures { result ≡ leaves_other module.now (reading spot (flat sim.now)) effect.now behind.now }
{
    match effect {
        Effect::Set { register, source } => {
            let held = number_in(sim, spot.base, *register);
            let next = number_in(sim, spot.base, *source);
            next != held && register_left(sim, spot, behind, *register, next) != held
        }
        Effect::Store {
            memory,
            address,
            source,
        } => {
            let number = number_in(sim, spot.base, *address);
            let next = number_in(sim, spot.base, *source);
            number < memory_size(module, *memory)
                && word_left(sim, spot, behind, *memory, number, next)
                    != sim.word_of(spot.memories, *memory, number)
        }
        Effect::Write { .. } => false,
    }
}

/// Whether the edge changes an instance of a module.
fn changes_in(sim: &Sim, spot: Spot, module: &Module) -> bool
    requires { length sim.now.numbers < 2 ^ 64 }
    ensures { result ≡ changes module.now (reading spot (flat sim.now)) module.now.actions }
{
    let actions = module.actions.as_slice();
    for number in 0..actions.len() {
        let action = &actions[number];
        if all_hold(sim, spot, action.conditions.as_slice())
            && leaves_another(sim, spot, module, &action.effect, &actions[number + 1..])
        {
            return true;
        }
    }
    false
}

/// Whether the edge changes the part at a place.
fn changes_part(sim: &Sim, place: usize) -> bool
    ensures { result ≡ part_changes_at sim.now.modules (flat sim.now) (slice_get sim.now.parts place) }
{
    if let Some(part) = at(sim.parts(), place) {
        if let Some(module) = at(sim.modules(), part.module) {
            return changes_in(sim, part.spot, module);
        }
    }
    false
}

/// Whether the edge changes one of the parts at some places.
pub fn changes_parts(sim: &Sim, places: &[usize]) -> bool
    ensures { result ≡ parts_change sim.now.modules sim.now.parts (flat sim.now) places.now }
{
    for place in places {
        if changes_part(sim, *place) {
            return true;
        }
    }
    false
}
