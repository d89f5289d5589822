// The banks of a global, and the place of an element in them.

ghost use Rattle.std.specs.Prelude.{◌≡◌, slice_get};
ghost use Rattle.global_banks.specs.Banks as banks;

use crate::names::{is_decimal, is_rest, rest_of};
use itoa::Buffer;
use netlist::netlist::{Instance, Memory, Module};
use sqlite_items::at;

/// A word of a memory of an instance of the outermost module.
#[derive(Clone, Copy)]
pub struct Location {
    pub instance: usize,
    pub memory: usize,
    pub word: u64,
}

fn memory_place(memories: &[Memory], global: &[u8], digits: &[u8]) -> usize
    ensures { result ≡ banks.memory_place global.now digits.now memories.now }
{
    for number in 0..memories.len() {
        let name = memories[number].name.as_str().as_bytes();
        if is_rest("bank_".as_bytes(), global, name, digits) {
            return number;
        }
    }
    memories.len()
}

fn instance_place(instances: &[Instance], global: &[u8], digits: &[u8]) -> usize
    ensures { result ≡ banks.instance_place global.now digits.now instances.now }
{
    for number in 0..instances.len() {
        let name = instances[number].name.as_str().as_bytes();
        if is_rest("u_".as_bytes(), global, name, digits) {
            return number;
        }
    }
    instances.len()
}

fn memories_of(modules: &[Module], number: usize) -> &[Memory]
    ensures { result.now ≡ banks.memories_of (slice_get modules.now number) }
{
    match at(modules, number) {
        Some(module) => module.memories.as_slice(),
        None => &[],
    }
}

fn is_bank(modules: &[Module], global: &[u8], instance: &Instance) -> bool
    ensures { result ≡ banks.is_bank modules.now global.now instance.now }
{
    match rest_of("u_".as_bytes(), global, instance.name.as_str().as_bytes()) {
        Some(digits) => {
            let memories = memories_of(modules, instance.of);
            is_decimal(digits) && memory_place(memories, global, digits) < memories.len()
        }
        None => false,
    }
}

fn bank_count(modules: &[Module], global: &[u8], instances: &[Instance]) -> u64
    ensures { result ≡ banks.bank_count modules.now global.now instances.now }
{
    let mut count = 0;
    for instance in instances {
        if is_bank(modules, global, instance) {
            count += 1;
        }
    }
    count
}

fn kind_of(instances: &[Instance], place: usize, other: usize) -> usize
    ensures { result ≡ banks.kind_of (slice_get instances.now place) other }
{
    match at(instances, place) {
        Some(instance) => instance.of,
        None => other,
    }
}

fn in_bank(
    modules: &[Module],
    instances: &[Instance],
    global: &[u8],
    digits: &[u8],
    word: u64,
) -> Option<Location>
    ensures { result ≡ banks.in_bank modules.now instances.now global.now digits.now word }
{
    let instance = instance_place(instances, global, digits);
    let memories = memories_of(modules, kind_of(instances, instance, modules.len()));
    let memory = memory_place(memories, global, digits);
    match at(memories, memory) {
        Some(found) if word < found.initial.len() as u64 => Some(Location {
            instance,
            memory,
            word,
        }),
        Some(_) | None => None,
    }
}

/// The word that an element of a global stands in. None exactly where no bank has it. It takes no memory.
pub fn locate(modules: &[Module], top: &Module, global: &str, element: u64) -> Option<Location>
    ensures { result ≡ banks.location modules.now top.now global.now element }
{
    let instances = top.instances.as_slice();
    let count = bank_count(modules, global.as_bytes(), instances);
    if count == 0 {
        return None;
    }
    let mut buffer = Buffer::new();
    let digits = buffer.format(element % count).as_bytes();
    in_bank(
        modules,
        instances,
        global.as_bytes(),
        digits,
        element / count,
    )
}
