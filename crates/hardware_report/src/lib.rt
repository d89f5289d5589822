//! The report of a program's hardware: its globals, the plans of its thread functions, and its net, line by line.
#![tactic(auto)]

ghost use Rattle.std.specs.Prelude.{◌≡◌, ◌≤◌, ◌++◌, map, IfOk, OnOk};
ghost use Rattle.std.specs.List.{flat_map, list_any};
ghost use Rattle.c_program.specs.Plain.{global_of, program_of};
ghost use Rattle.c_program.specs.Weight.{thread_count};
ghost use Rattle.hardware_report.specs.Report as spec;
ghost use Rattle.plan_report.specs.Words.{numbered};

use block_ir::block::Operation;
use block_ir::code::{Stage, ThreadCode};
use c_program::threads::thread_count;
use c_program::tree::{GlobalVariable, Program};
use hls_io::Bytes;
use net_report::{put_named, put_net};
use netlist::netlist::Netlist;
use plan_report::{put_code, put_number, put_type};
use program_plans::PlannedFunction;
use std::alloc::{AllocError, Global};

/// Appends a global.
fn put_global(out: &mut Bytes, k: usize, global: &GlobalVariable) -> Result<(), AllocError>
    ensures { OnOk result (out.new ≡ out.old ++ spec.global_line k (global_of global.now)) }
{
    out.put(b"global")?;
    put_number(out, k as u64)?;
    put_number(out, global.length)?;
    put_type(out, global.ty)?;
    put_named(out, global.name.as_str())
}

/// Whether an operation reads or writes a global.
fn names_global(global: usize, operation: &Operation) -> bool
    ensures { result ≡ spec.names_global global operation.now }
{
    match operation {
        Operation::ReadGlobal { global: other, .. }
        | Operation::WriteGlobal { global: other, .. } => *other as usize == global,
        Operation::Unary { .. }
        | Operation::Binary { .. }
        | Operation::ReadArray { .. }
        | Operation::WriteArray { .. } => false,
    }
}

fn any_names_global(global: usize, operations: &[Operation]) -> bool
    ensures { result ≡ list_any (spec.names_global global) operations.now }
{
    operations
        .iter()
        .any(|operation| names_global(global, operation))
}

fn stage_names(global: usize, stage: &Stage) -> bool
    ensures { result ≡ spec.stage_names global stage.now }
{
    match stage {
        Stage::Run(block) => any_names_global(global, block.operations.as_slice()),
        Stage::Act { .. } => false,
    }
}

fn any_stage_names(global: usize, stages: &[Stage]) -> bool
    ensures { result ≡ list_any (spec.stage_names global) stages.now }
{
    stages.iter().any(|stage| stage_names(global, stage))
}

/// Whether a thread function asks for the words of a global.
fn asks(global: usize, code: &ThreadCode) -> bool
    ensures { result ≡ spec.asks global code.now }
{
    any_stage_names(global, code.stages.as_slice())
}

fn put_ask(out: &mut Bytes, global: usize, planned: &PlannedFunction) -> Result<(), AllocError>
    ensures { OnOk result (out.new ≡ out.old ++ spec.asks_line global planned.now) }
{
    if !asks(global, &planned.code) {
        return Ok(());
    }
    out.put(b"asks")?;
    put_number(out, global as u64)?;
    put_named(out, planned.name.as_str())
}

/// Appends the functions that ask for a global.
fn put_asks(out: &mut Bytes, global: usize, plans: &[PlannedFunction]) -> Result<(), AllocError>
    ensures { OnOk result (out.new ≡ out.old ++ flat_map (spec.asks_line global) plans.now) }
{
    for planned in plans {
        put_ask(out, global, planned)?;
    }
    Ok(())
}

fn put_asked(
    out: &mut Bytes,
    plans: &[PlannedFunction],
    k: usize,
    global: &GlobalVariable,
) -> Result<(), AllocError>
    ensures { OnOk result (out.new ≡ out.old ++ spec.global_lines plans.now k (global_of global.now)) }
{
    put_global(out, k, global)?;
    put_asks(out, k, plans)
}

fn put_globals(
    out: &mut Bytes,
    plans: &[PlannedFunction],
    globals: &[GlobalVariable],
) -> Result<(), AllocError>
    ensures { OnOk result (out.new ≡ out.old ++ numbered (spec.global_lines plans.now) 0 (map global_of globals.now)) }
{
    for (k, global) in globals.iter().enumerate() {
        put_asked(out, plans, k, global)?;
    }
    Ok(())
}

/// Appends a thread function.
fn put_function(alloc: Global, out: &mut Bytes, planned: &PlannedFunction) -> Result<(), AllocError>
    ensures { OnOk result (out.new ≡ out.old ++ spec.function_lines planned.now) }
{
    out.put(b"function")?;
    put_named(out, planned.name.as_str())?;
    put_code(alloc, out, &planned.code, &planned.plan)
}

fn put_functions(
    alloc: Global,
    out: &mut Bytes,
    plans: &[PlannedFunction],
) -> Result<(), AllocError>
    ensures { OnOk result (out.new ≡ out.old ++ flat_map spec.function_lines plans.now) }
{
    for planned in plans {
        put_function(alloc, out, planned)?;
    }
    Ok(())
}

/// The report of a program's hardware, by its net and the plans of its thread functions. The only error is want of memory.
pub fn report(
    alloc: Global,
    program: &Program,
    net: &Netlist,
    plans: &[PlannedFunction],
) -> Result<Bytes, AllocError>
    requires { thread_count (program_of program.now) ≤ 64 }
    ensures { IfOk result (λ text. text ≡ spec.report_of (program_of program.now) net.now plans.now) }
{
    let mut text = Bytes::new(alloc);
    put_globals(&mut text, plans, program.globals.as_slice())?;
    put_functions(alloc, &mut text, plans)?;
    put_net(&mut text, thread_count(program) as usize, net)?;
    Ok(text)
}
