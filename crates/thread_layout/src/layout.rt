// The module of a thread, put together of its parts.

ghost use Rattle.std.specs.Prelude.{◌≡◌, ◌≤◌, ◌^◌, ℕ, [], map, length, replicate, IfOk, OnOk};
ghost use Rattle.netlist.specs.declared.netlist.Source.TheVariants as source;
ghost use Rattle.block_ir.specs.declared.plan.Planned.{Planned as PlannedCode};
ghost use Rattle.block_datapath.specs.declared.registers.Held.{Held as HeldOf};
ghost use Rattle.thread_requests.specs.Early.{LaysEarlyWired};
ghost use Rattle.thread_slots.specs.Slots.{LaysAll};
ghost use Rattle.thread_slots.specs.Wired.{Behind, IsInnerInput, IsSlotRegister};
ghost use Rattle.thread_slots.specs.Services.{services, news_widths};
ghost use Rattle.thread_layout.specs.Memories.{memory_for, memories_from};
ghost use Rattle.thread_states.specs.Actions.{actions_of};
ghost use Rattle.thread_layout.specs.Modules.{LaysInside, Closes, IsModule, caller_of};
ghost use Rattle.thread_layout.specs.Parts.{LaysPorts, LaysGround, LaysSlotOf, LaysHeard, LaysWalk, inside_of};

use crate::telling::lay_told;
use block_datapath::registers::{Held, Registers};
use block_ir::code::{Array, ThreadCode};
use block_ir::plan::Planned;
use hls_ints::CType;
use netlist::netlist::{Action, Memory, Module};
use operator_wires::wires::{Role, Wires};
use sqlite_items::{Boxed, Items};
use std::alloc::{AllocError, Global};
use thread_asks::asking::Caller;
use thread_requests::early::{Early, lay_early, word_widths};
use thread_requests::outputs::lay_outputs;
use thread_slots::chains::{Chains, places};
use thread_slots::hearing::hear;
use thread_slots::inputs::{Inputs, lay_inputs, lay_words, told_widths};
use thread_slots::shape::{Served, Shape};
use thread_slots::slots::{kept_widths, lay_all, lay_registers};
use thread_slots::stores::Store;
use thread_slots::told::Told;
use thread_states::actions::actions;
use thread_states::control::{Edge, control};
use thread_states::resting::take_end;
use thread_states::stages::take_stages;
use unit_datapath::units::lay_units;
use verilog_tree::name::Identifier;

/// The module of a thread: what is inside of it, the output ports, and what an edge does.
pub fn assembled(
    alloc: Global,
    shape: &Shape,
    code: &ThreadCode,
    planned: &Planned,
) -> Result<Module, AllocError>
    ensures { IfOk result (IsModule shape.now code.now planned.now) }
{
    let mut wires = Wires::new(alloc);
    let inside = lay_inside(&mut wires, shape, code, planned)?;
    closed(alloc, wires, shape, code, inside.get())
}

/// The module whose inside is laid: with outputs, and what an edge does.
fn closed(
    alloc: Global,
    wires: Wires,
    shape: &Shape,
    code: &ThreadCode,
    inside: &Inside,
) -> Result<Module, AllocError>
    ensures { IfOk result (λ m. (planned : PlannedCode) → LaysInside shape.now code.now planned [] wires.signals inside.now → IsModule shape.now code.now planned m) }
{
    let mut wires = wires;
    let actions = {
        let edge = close(&mut wires, shape, inside)?;
        edge_actions(alloc, inside, &edge)?
    };
    let memories = memories(alloc, code.arrays.as_slice())?;
    let name = shape.name.clone()?;
    Ok(Module {
        name,
        signals: wires.signals,
        memories,
        actions,
        instances: Items::new(alloc),
    })
}

/// What an edge does in the module with this inside.
fn edge_actions(alloc: Global, inside: &Inside, edge: &Edge) -> Result<Items<Action>, AllocError>
    ensures { IfOk result (λ actions. actions ≡ actions_of inside.now.slot inside.now.chains inside.now.granted inside.now.stores edge.now) }
{
    let stores = inside.stores.as_slice();
    let granted = inside.granted.as_slice();
    actions(alloc, &inside.slot, &inside.chains, granted, stores, edge)
}

/// The inside of a module, between its inputs and what an edge does.
#[derive(Drop)]
pub struct Inside {
    pub inputs: Inputs,
    /// What is heard of the cores that acts ask.
    pub news: Items<Held>,
    /// The registers, what is heard of banks, and the results of shared units.
    pub slot: Registers,
    /// Of each global whether its access has been granted in this state.
    pub granted: Items<Held>,
    pub early: Early,
    pub chains: Chains,
    pub stores: Items<Store>,
}

/// The inputs.
#[derive(Drop)]
pub struct Ports {
    pub inputs: Inputs,
    /// The word that each bank tells.
    pub words: Items<Held>,
    /// What the cores tell that acts ask.
    pub news: Items<Held>,
}

/// Inputs and registers.
#[derive(Drop)]
pub struct Ground {
    pub inputs: Inputs,
    /// What the cores tell that acts ask.
    pub news: Items<Held>,
    pub slot: Registers,
    /// Of each global whether its access has been granted in this state.
    pub granted: Items<Held>,
}

/// What all stages lead to.
#[derive(Drop)]
pub struct Walked {
    pub chains: Chains,
    pub stores: Items<Store>,
}

fn lay_inside(
    wires: &mut Wires,
    shape: &Shape,
    code: &ThreadCode,
    planned: &Planned,
) -> Result<Boxed<Inside>, AllocError>
    ensures { IfOk result (LaysInside shape.now code.now planned.now wires.old.signals wires.new.signals) }
{
    let mut ground = lay_ground(wires, shape, code, planned)?;
    let early = lay_asked(wires, shape, code, planned, &ground)?;
    let asks = early.get();
    let told = ground.news.as_slice();
    let news = lay_heard(wires, &mut ground.slot, told, code, planned, asks.need)?;
    let named = asks.barriers.as_slice();
    let own = news.as_slice();
    let acts = lay_told(wires, shape.served, named, own)?;
    let walked = walk(wires, shape, &ground.slot, code, planned, acts, asks.lost)?;
    Boxed::new(wires.alloc, put_together(ground, early, news, walked))
}

fn put_together(ground: Ground, early: Boxed<Early>, news: Items<Held>, walked: Walked) -> Inside
    ensures { result ≡ inside_of ground early news walked }
{
    Inside {
        inputs: ground.inputs,
        news,
        slot: ground.slot,
        granted: ground.granted,
        early: early.into_inner(),
        chains: walked.chains,
        stores: walked.stores,
    }
}

/// Inputs and registers. What banks tell is not heard yet, and there are no units.
fn lay_ground(
    wires: &mut Wires,
    shape: &Shape,
    code: &ThreadCode,
    planned: &Planned,
) -> Result<Ground, AllocError>
    ensures { IfOk result (LaysGround shape.now code.now planned.now wires.old.signals wires.new.signals) }
{
    let Ports {
        inputs,
        words,
        news,
    } = lay_ports(wires, shape)?;
    let slot = lay_slot(wires, shape, code, planned, words)?;
    let granted = lay_granted(wires, shape.globals.len())?;
    Ok(Ground {
        inputs,
        news,
        slot,
        granted,
    })
}

/// The clock, the enable, the grants of all cores, and what they tell.
fn lay_ports(wires: &mut Wires, shape: &Shape) -> Result<Ports, AllocError>
    ensures { IfOk result (LaysPorts shape.now wires.old.signals wires.new.signals) }
{
    let globals = shape.globals.as_slice();
    let others = act_count(wires.alloc, shape.served)?;
    let widths = word_widths(wires.alloc, shape.spreads.as_slice(), globals)?;
    let inputs = lay_inputs(wires, widths.len(), others)?;
    let words = lay_words(wires, widths.as_slice())?;
    let news = lay_news(wires, shape.served)?;
    Ok(Ports {
        inputs,
        words,
        news,
    })
}

/// How many cores there are that acts ask.
fn act_count(alloc: Global, served: Served) -> Result<usize, AllocError>
    ensures { IfOk result (λ count. count ≡ length (services served)) }
{
    let services = served.services(alloc)?;
    Ok(services.len())
}

fn lay_news(wires: &mut Wires, served: Served) -> Result<Items<Held>, AllocError>
    ensures lays { IfOk result (LaysAll source.Input wires.old.signals wires.new.signals (news_widths served) (length (news_widths served))) }
    ensures wired { IfOk result (λ news. Behind IsInnerInput wires.old.signals wires.new.signals) }
{
    let widths = told_widths(wires.alloc, served)?;
    lay_words(wires, widths.as_slice())
}

/// The registers of the slot, which read these words.
fn lay_slot(
    wires: &mut Wires,
    shape: &Shape,
    code: &ThreadCode,
    planned: &Planned,
    words: Items<Held>,
) -> Result<Registers, AllocError>
    ensures { IfOk result (LaysSlotOf shape.now code.now planned.now words wires.old.signals wires.new.signals) }
{
    let globals = shape.globals.as_slice();
    let kept = kept_widths(wires.alloc, code, planned, globals)?;
    let own = Items::from_slice(wires.alloc, shape.spreads.as_slice())?;
    let main = shape.is_main;
    lay_registers(wires, code, planned, main, kept.as_slice(), words, own)
}

/// What is heard of banks where a core is needed takes the place of the inputs on which they tell it; and the units. Answers
/// what is heard of the other cores, on inputs of their own.
fn lay_heard(
    wires: &mut Wires,
    slot: &mut Registers,
    told: &[Held],
    code: &ThreadCode,
    planned: &Planned,
    need: usize,
) -> Result<Items<Held>, AllocError>
    ensures { IfOk result (LaysHeard code.now planned.now need told.now wires.old.signals wires.new.signals slot.old slot.new) }
{
    let heard = hear(wires, need, slot.words.as_slice())?;
    let news = hear(wires, need, told)?;
    let units = lay_units(wires, slot, code, planned)?;
    slot.words = heard;
    slot.units = units;
    Ok(news)
}

/// A register of one bit for each global.
fn lay_granted(wires: &mut Wires, globals: usize) -> Result<Items<Held>, AllocError>
    ensures lays { IfOk result (LaysAll (source.Register 0) wires.old.signals wires.new.signals (replicate globals 1) globals) }
    ensures wired { IfOk result (λ granted. (inputs : ℕ) → Behind (IsSlotRegister inputs) wires.old.signals wires.new.signals) }
{
    let ones = bit_widths(wires.alloc, globals)?;
    lay_all(wires, Role::Granted, ones.as_slice())
}

fn bit_widths(alloc: Global, count: usize) -> Result<Items<u64>, AllocError>
    ensures { IfOk result (λ widths. widths ≡ replicate count 1) }
{
    Ok(Items::from_vec(vec![in alloc; 1; count]?))
}

fn lay_asked(
    wires: &mut Wires,
    shape: &Shape,
    code: &ThreadCode,
    planned: &Planned,
    ground: &Ground,
) -> Result<Boxed<Early>, AllocError>
    ensures { IfOk result (LaysEarlyWired shape.now.globals code.now ground.now.slot (map (λ (h : HeldOf). h.register) ground.now.granted)
        (caller_of shape.now) planned.now wires.old.signals wires.new.signals) }
{
    let marks = places(wires.alloc, ground.granted.as_slice())?;
    let globals = shape.globals.as_slice();
    let caller = Caller {
        is_main: shape.is_main,
        served: shape.served,
    };
    let early = lay_early(
        wires,
        &ground.slot,
        marks.as_slice(),
        code,
        globals,
        caller,
        planned,
    )?;
    Boxed::new(wires.alloc, early)
}

/// The wires of all stages and of the rest, where nothing is stored before. Where a core is asked that is not there the thread
/// waits.
fn walk(
    wires: &mut Wires,
    shape: &Shape,
    registers: &Registers,
    code: &ThreadCode,
    planned: &Planned,
    told: Told,
    lost: usize,
) -> Result<Walked, AllocError>
    ensures { IfOk result (LaysWalk shape.now.globals shape.now.is_main code.now registers.now planned.now told lost wires.old.signals wires.new.signals) }
{
    let mut chains = Chains::begin(wires, registers)?;
    let mut stores = Items::new(wires.alloc);
    take_stages(
        wires,
        registers,
        &mut chains,
        &mut stores,
        code,
        shape.globals.as_slice(),
        planned,
        told,
    )?;
    take_end(wires, registers, &mut chains, code, shape.is_main, told)?;
    chains.wait(wires, lost)?;
    Ok(Walked { chains, stores })
}

/// When a state is left, and the output ports.
fn close(wires: &mut Wires, shape: &Shape, inside: &Inside) -> Result<Edge, AllocError>
    ensures { IfOk result (Closes shape.now inside.now wires.old.signals wires.new.signals) }
{
    let slot = &inside.slot;
    let early = &inside.early;
    let marks = places(wires.alloc, inside.granted.as_slice())?;
    let opens = early.opens.as_slice();
    let edge = control(
        wires,
        slot,
        &inside.inputs,
        &inside.chains,
        opens,
        marks.as_slice(),
    )?;
    lay_outputs(
        wires,
        shape.served,
        slot.words.as_slice(),
        edge.asks.as_slice(),
        &early.requests,
        early.need,
        early.done,
    )?;
    Ok(edge)
}

/// A memory for each local array.
fn memories(alloc: Global, arrays: &[Array]) -> Result<Items<Memory>, AllocError>
    ensures memories { IfOk result (λ memories. memories ≡ memories_from 0 arrays.now) }
    ensures few { IfOk result (λ memories. length arrays.now ≤ 2 ^ 64) }
{
    let mut memories = Items::new(alloc);
    for (number, array) in arrays.iter().enumerate() {
        let memory = memory(alloc, number as u64, *array)?;
        memories.push(memory)?;
    }
    Ok(memories)
}

fn memory(alloc: Global, number: u64, array: Array) -> Result<Memory, AllocError>
    ensures { IfOk result (λ memory. memory ≡ memory_for number array) }
{
    let stem = Identifier::from_text(alloc, "array")?;
    let name = stem.with_number(alloc, number)?;
    let initial = zeros(alloc, array.length)?;
    Ok(Memory {
        name,
        width: u64::from(array.ty.bits()),
        initial,
    })
}

fn zeros(alloc: Global, length: u64) -> Result<Items<u64>, AllocError>
    ensures { IfOk result (λ zeros. zeros ≡ replicate length 0) }
{
    let mut zeros = Items::new(alloc);
    for _ in 0..length {
        zeros.push(0)?;
    }
    Ok(zeros)
}
