// How many numbers a net has whose modules stand in one another, before room for any of them is taken.

ghost use Rattle.std.specs.Prelude.{◌≡◌, ◌+◌, sum_by, slice_index, IfOk};
ghost use Rattle.sim_values.specs.Sizes as spec;

use netlist::netlist::{Instance, Memory, Module};
use std::alloc::{AllocError, Global};

/// The sum, which stops at the greatest number.
fn plus(a: usize, b: usize) -> usize
    ensures { result ≡ spec.capped (a + b) }
{
    a.saturating_add(b)
}

/// How many words the memories of a module have.
fn word_count(memories: &[Memory]) -> usize
    ensures { result ≡ spec.capped (sum_by spec.words memories.now) }
{
    let mut total = 0;
    for memory in memories {
        total = plus(total, memory.initial.len());
    }
    total
}

/// The size of the module of a number, 0 where there is none.
pub fn size_at(sizes: &[usize], number: usize) -> usize
    ensures { result ≡ slice_index sizes.now number }
{
    match sizes.get(number) {
        Some(size) => *size,
        None => 0,
    }
}

/// How many numbers the instances of a module have, where these are the sizes of the modules before it.
fn inner_size(instances: &[Instance], sizes: &[usize]) -> usize
    ensures { result ≡ spec.capped (sum_by (spec.size_in sizes.now) instances.now) }
{
    let mut total = 0;
    for instance in instances {
        total = plus(total, size_at(sizes, instance.of));
    }
    total
}

/// The size of a module: one for itself, its signals, the words of its memories, and the sizes of its instances.
fn size_of(module: &Module, sizes: &[usize]) -> usize
    ensures { result ≡ spec.module_size sizes.now module.now }
{
    let own = plus(module.signals.len(), word_count(module.memories.as_slice()));
    let inner = inner_size(module.instances.as_slice(), sizes);
    plus(1, plus(own, inner))
}

/// The size of each module of a net, in which the modules of a module's instances stand before it.
pub fn module_sizes(alloc: Global, modules: &[Module]) -> Result<Vec<usize>, AllocError>
    ensures { IfOk result (λ sizes. sizes.items ≡ spec.sizes_of modules.now) }
{
    let mut sizes = Vec::new(alloc);
    for module in modules {
        sizes.push(size_of(module, &sizes))?;
    }
    Ok(sizes)
}
