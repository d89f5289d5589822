// Where the words of each instance stand, and what is in them at the start.

ghost use Rattle.std.specs.Prelude.{◌≡◌, ◌++◌, ◌∷◌, [], length, slice_get, IfOk, OnOk};
ghost use Rattle.verilog_meaning.specs.Readings.{initial_number};
ghost use Rattle.sim_layout.specs.Placed.{is_register, numbers_in, frees_in, starts_in, words_in, numbers_of, frees_of, starts_of, words_of, IsPlaced};

use netlist::netlist::{Memory, Module, Signal, Source};
use sim_values::edge::Part;
use sim_values::tree::Tree;
use sim_values::value::Spot;
use sqlite_items::at;
use std::alloc::{AllocError, Global};

/// The instances with their places, and the words of their signals and memories. Those of registers are marked as free.
#[derive(Drop)]
pub struct Placed {
    pub parts: Vec<Part>,
    pub numbers: Vec<u64>,
    pub free: Vec<bool>,
    pub words: Vec<u64>,
    pub starts: Vec<u64>,
}

fn initial_of(source: &Source) -> u64
    ensures { result ≡ initial_number source.now }
{
    match source {
        Source::Register(number) => *number,
        Source::Input | Source::Assigned(_) | Source::Port { .. } => 0,
    }
}

fn is_free(source: &Source) -> bool
    ensures { result ≡ is_register source.now }
{
    matches!(source, Source::Register(_))
}

fn push_signals(
    numbers: &mut Vec<u64>,
    free: &mut Vec<bool>,
    signals: &[Signal],
) -> Result<(), AllocError>
    ensures numbers { OnOk result (numbers.new.items ≡ numbers.old.items ++ numbers_in signals.now) }
    ensures free { OnOk result (free.new.items ≡ free.old.items ++ frees_in signals.now) }
{
    for signal in signals {
        numbers.push(initial_of(&signal.source))?;
        free.push(is_free(&signal.source))?;
    }
    Ok(())
}

fn push_memories(
    starts: &mut Vec<u64>,
    words: &mut Vec<u64>,
    memories: &[Memory],
) -> Result<(), AllocError>
    ensures starts { OnOk result (starts.new.items ≡ starts.old.items ++ starts_in (length words.old.items) memories.now) }
    ensures words { OnOk result (words.new.items ≡ words.old.items ++ words_in memories.now) }
{
    for memory in memories {
        starts.push(words.len() as u64)?;
        words.extend_from_slice(memory.initial.as_slice())?;
    }
    Ok(())
}

fn push_words(placed: &mut Placed, modules: &[Module], kind: usize) -> Result<(), AllocError>
    ensures parts { OnOk result (placed.new.parts.items ≡ placed.old.parts.items) }
    ensures numbers { OnOk result (placed.new.numbers.items ≡ placed.old.numbers.items ++ numbers_of (slice_get modules.now kind)) }
    ensures free { OnOk result (placed.new.free.items ≡ placed.old.free.items ++ frees_of (slice_get modules.now kind)) }
    ensures words { OnOk result (placed.new.words.items ≡ placed.old.words.items ++ words_of (slice_get modules.now kind)) }
    ensures starts { OnOk result (placed.new.starts.items ≡ placed.old.starts.items ++ starts_of (length placed.old.words.items) (slice_get modules.now kind)) }
{
    let Some(module) = at(modules, kind) else {
        return Ok(());
    };
    push_signals(
        &mut placed.numbers,
        &mut placed.free,
        module.signals.as_slice(),
    )?;
    push_memories(
        &mut placed.starts,
        &mut placed.words,
        module.memories.as_slice(),
    )
}

/// Puts an instance behind the others.
fn push_part(
    placed: &mut Placed,
    modules: &[Module],
    kind: usize,
    children: usize,
) -> Result<(), AllocError>
    ensures parts { OnOk result (placed.new.parts.items ≡ placed.old.parts.items
        ++ record { «module» = kind; spot = record { base = length placed.old.numbers.items; memories = length placed.old.starts.items }; children = children } ∷ []) }
    ensures numbers { OnOk result (placed.new.numbers.items ≡ placed.old.numbers.items ++ numbers_of (slice_get modules.now kind)) }
    ensures free { OnOk result (placed.new.free.items ≡ placed.old.free.items ++ frees_of (slice_get modules.now kind)) }
    ensures words { OnOk result (placed.new.words.items ≡ placed.old.words.items ++ words_of (slice_get modules.now kind)) }
    ensures starts { OnOk result (placed.new.starts.items ≡ placed.old.starts.items ++ starts_of (length placed.old.words.items) (slice_get modules.now kind)) }
{
    let spot = Spot {
        base: placed.numbers.len(),
        memories: placed.starts.len(),
    };
    placed.parts.push(Part {
        module: kind,
        spot,
        children,
    })?;
    push_words(placed, modules, kind)
}

/// Places the instances of a tree one behind the other.
#[tactic(auto, using(crate::proofs::PlacedInstances::placed_none))]
pub fn place(alloc: Global, modules: &[Module], tree: &Tree) -> Result<Placed, AllocError>
    requires { length tree.now.children.items ≡ length tree.now.kinds.items }
    ensures placed { IfOk result (λ p. IsPlaced modules.now tree.now.kinds.items tree.now.children.items p.parts.items p.numbers.items p.free.items p.words.items p.starts.items) }
    ensures whole { IfOk result (λ p. length p.parts.items ≡ length tree.now.kinds.items) }
{
    let mut placed = Placed {
        parts: Vec::new(alloc),
        numbers: Vec::new(alloc),
        free: Vec::new(alloc),
        words: Vec::new(alloc),
        starts: Vec::new(alloc),
    };
    for number in 0..tree.kinds.len() {
        push_part(
            &mut placed,
            modules,
            tree.kinds[number],
            tree.children[number],
        )?;
    }
    Ok(placed)
}
