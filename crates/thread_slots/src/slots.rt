// The registers of a slot, and how wide they are.

ghost use Rattle.std.specs.Prelude.{◌≡◌, ℕ, ◌+◌, ◌^◌, ◌<◌, ◌≤◌, false, [], map, length, slice_get, string_bytes, Some, IfOk, if◌then◌else◌};
ghost use Rattle.hls_ints.specs.Types.{width_of as type_width};
ghost use Rattle.block_datapath.specs.View.{register_at};
ghost use Rattle.block_ir.specs.declared.plan.BlockPlan.{BlockPlan};
ghost use Rattle.block_ir.specs.declared.plan.StagePlan.TheVariants as planned;
ghost use Rattle.netlist.specs.declared.netlist.Source.TheVariants as source;
ghost use Rattle.operator_wires.specs.Built.{is_single};
ghost use Rattle.thread_slots.specs.Wired.{Behind, AreFit, IsSlotRegister};
ghost use Rattle.thread_slots.specs.Naming.{register_name, LaysNamed, AreNamed};
ghost use Rattle.thread_slots.specs.Slots.{LaysRegister, LaysAll, LaysSlot, Widens, HasRoomAt, KeepsOperations, WidensStage, AreKeptWidths};

use crate::names::register_name;
use bank_partition::banks::Spread;
use block_datapath::operations::{register_of, value_type};
use block_datapath::registers::{Held, Registers};
use block_ir::block::{Block, Operation};
use block_ir::code::{Stage, ThreadCode};
use block_ir::plan::{BlockPlan, Planned, StagePlan};
use hls_ints::CType;
use netlist::netlist::{Signal, Source};
use operator_wires::wires::{Role, Wires};
use sqlite_items::Items;
use std::alloc::{AllocError, Global};

/// The least width, from 1 on, in which a number can be written.
fn width_of(number: u64) -> u64
    ensures room { number < 2 ^ result }
    ensures low { 1 ≤ result }
    ensures high { result ≤ 64 }
{
    for width in 1..64u32 {
        if number >> width == 0 {
            return u64::from(width);
        }
    }
    64
}

/// The greatest number of states of a stage.
fn most_states(stages: &[StagePlan]) -> u64
    ensures { (l : ℕ) (p : BlockPlan) → slice_get stages.now l ≡ Some (planned.Run p) → p.states ≤ result }
{
    let mut most = 1;
    for stage in stages {
        if let StagePlan::Run(block) = stage {
            most = block.states.max(most);
        }
    }
    most
}

/// The registers of a slot, which reads these inputs of banks, and has no units yet. Main begins at the first stage, and another thread past the last one.
pub fn lay_registers(
    wires: &mut Wires,
    code: &ThreadCode,
    planned: &Planned,
    is_main: bool,
    kept_widths: &[u64],
    words: Items<Held>,
    spreads: Items<Spread>,
) -> Result<Registers, AllocError>
    ensures slot { IfOk result (LaysSlot code.now planned.now (if is_main then 0 else length code.now.stages) kept_widths.now words spreads wires.old.signals wires.new.signals) }
    ensures long { IfOk result (λ registers. length wires.new.signals ≡ length wires.old.signals + 3 + length code.now.variables + length kept_widths.now) }
    ensures units { IfOk result (λ registers. registers.units ≡ []) }
    ensures wired { IfOk result (λ registers. AreFit kept_widths.now → Behind (IsSlotRegister (length wires.old.signals)) wires.old.signals wires.new.signals) }
{
    let end = code.stages.len() as u64;
    // The greatest number of a stage: of so many, the rest, and a meeting of each.
    let most = end.checked_add(end).ok_or(AllocError)?;
    let width = width_of(most);
    let first = first_stage(is_main, end);
    let stage = lay_register(wires, Role::Stage, width, first)?;
    let states = most_states(planned.stages.as_slice());
    let state_width = state_width(states);
    let state = lay_register(wires, Role::State, state_width, 0)?;
    let beat = wires.register(Role::Beat, 1, 0)?;
    let widths = variable_widths(wires.alloc, code.variables.as_slice())?;
    let variables = lay_variables(wires, widths.as_slice(), &code.names)?;
    let kept = lay_all(wires, Role::Kept, kept_widths)?;
    let units = Items::new(wires.alloc);
    Ok(Registers {
        stage,
        state,
        beat,
        variables,
        kept,
        words,
        spreads,
        units,
    })
}

/// A width for the numbers of so many states.
fn state_width(states: u64) -> u64
    ensures room { states ≤ 2 ^ result }
    ensures fits { states < 2 ^ 64 }
    ensures low { 1 ≤ result }
    ensures high { result ≤ 64 }
{
    width_of(states.saturating_sub(1))
}

fn first_stage(is_main: bool, end: u64) -> u64
    ensures { result ≡ (if is_main then 0 else end) }
{
    if is_main { 0 } else { end }
}

fn lay_register(wires: &mut Wires, role: Role, width: u64, initial: u64) -> Result<Held, AllocError>
    ensures lays { IfOk result (LaysRegister wires.old.signals wires.new.signals width initial) }
    ensures wired { IfOk result (λ held. (inputs : ℕ) → is_single role ≡ false → initial < 2 ^ width → 1 ≤ width → width ≤ 64 →
        Behind (IsSlotRegister inputs) wires.old.signals wires.new.signals) }
{
    let register = wires.register(role, width, initial)?;
    Ok(Held { register, width })
}

/// A register for each width, which begins with 0.
pub fn lay_all(wires: &mut Wires, role: Role, widths: &[u64]) -> Result<Items<Held>, AllocError>
    ensures lays { IfOk result (LaysAll (source.Register 0) wires.old.signals wires.new.signals widths.now (length widths.now)) }
    ensures wired { IfOk result (λ registers. (inputs : ℕ) → is_single role ≡ false → AreFit widths.now → Behind (IsSlotRegister inputs) wires.old.signals wires.new.signals) }
{
    let mut registers = Items::new(wires.alloc);
    for width in widths {
        let held = lay_register(wires, role, *width, 0)?;
        registers.push(held)?;
    }
    Ok(registers)
}

/// A register for the value of each variable, named after the C local that it is.
fn lay_variables(
    wires: &mut Wires,
    widths: &[u64],
    names: &Items<String>,
) -> Result<Items<Held>, AllocError>
    ensures lays { IfOk result (LaysAll (source.Register 0) wires.old.signals wires.new.signals widths.now (length widths.now)) }
    ensures named { IfOk result (λ registers. AreNamed wires.new.signals (length wires.old.signals) (map string_bytes names.now) (length widths.now)) }
    ensures wired { IfOk result (λ registers. (inputs : ℕ) → AreFit widths.now → Behind (IsSlotRegister inputs) wires.old.signals wires.new.signals) }
{
    let mut registers = Items::new(wires.alloc);
    for (number, width) in widths.iter().enumerate() {
        let held = lay_variable(wires, names, number, *width)?;
        registers.push(held)?;
    }
    Ok(registers)
}

fn lay_variable(
    wires: &mut Wires,
    names: &Items<String>,
    number: usize,
    width: u64,
) -> Result<Held, AllocError>
    ensures { IfOk result (LaysNamed wires.old.signals wires.new.signals (register_name (map string_bytes names.now) number (length wires.old.signals)) width) }
{
    let register = wires.signals.len();
    let name = register_name(wires.alloc, names, number, register)?;
    wires.signals.push(Signal {
        name,
        width,
        is_output: false,
        source: Source::Register(0),
    })?;
    Ok(Held { register, width })
}

fn variable_widths(alloc: Global, types: &[CType]) -> Result<Items<u64>, AllocError>
    ensures { IfOk result (λ widths. widths ≡ map type_width types.now) }
{
    let mut widths = Items::new(alloc);
    for ty in types {
        widths.push(u64::from(ty.bits()))?;
    }
    Ok(widths)
}

// ---- registers for values

/// The width of each register for values: that of the widest value which it keeps, and at least 1.
pub fn kept_widths(
    alloc: Global,
    code: &ThreadCode,
    planned: &Planned,
    globals: &[CType],
) -> Result<Items<u64>, AllocError>
    ensures widths { IfOk result (AreKeptWidths globals.now code.now planned.now (length code.now.stages)) }
    ensures fit { IfOk result AreFit }
{
    let mut widths = Items::from_vec(vec![in alloc; 1; planned.registers as usize]?);
    for (number, stage) in code.stages.as_slice().iter().enumerate() {
        widen_stage(&mut widths, code, globals, planned, number, stage);
    }
    Ok(widths)
}

fn widen_stage(
    widths: &mut Items<u64>,
    code: &ThreadCode,
    globals: &[CType],
    planned: &Planned,
    number: usize,
    stage: &Stage,
)
    ensures room { WidensStage globals.now code.now stage.now (slice_get planned.now.stages number) widths.old widths.new }
    ensures fit { AreFit widths.old → AreFit widths.new }
{
    match stage {
        Stage::Run(block) => match planned.stages.get(number) {
            Some(StagePlan::Run(plan)) => widen(widths, code, globals, block, plan),
            _ => {}
        },
        Stage::Act { .. } => {}
    }
}

fn widen(
    widths: &mut Items<u64>,
    code: &ThreadCode,
    globals: &[CType],
    block: &Block,
    plan: &BlockPlan,
)
    ensures room { KeepsOperations globals.now code.now block.now plan.now widths.old widths.new (length block.now.operations) }
    ensures fit { AreFit widths.old → AreFit widths.new }
{
    for (number, operation) in block.operations.as_slice().iter().enumerate() {
        let width = u64::from(value_type(operation, code, globals).bits());
        widen_value(widths, plan, number, width);
    }
}

fn widen_value(widths: &mut Items<u64>, plan: &BlockPlan, number: usize, width: u64)
    ensures more { Widens widths.old widths.new }
    ensures room { (x : ℕ) → register_at plan.now.registers number ≡ Some x → HasRoomAt widths.new x width }
    ensures fit { width ≤ 64 → AreFit widths.old → AreFit widths.new }
{
    if let Some(register) = register_of(plan, number) {
        let register = register as usize;
        if let Some(old) = widths.get(register).copied() {
            widths.set(register, width.max(old));
        }
    }
}
