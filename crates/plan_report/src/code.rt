//! The lines of the code of a thread.

ghost use Rattle.std.specs.Prelude.{◌≡◌, ◌++◌, OnOk, map, string_bytes};
ghost use Rattle.std.specs.List.{flat_map};
ghost use Rattle.plan_report.specs.Code as spec;
ghost use Rattle.plan_report.specs.Operations.{planned_lines};
ghost use Rattle.plan_report.specs.Words.{numbered};

use crate::acts::put_act;
use crate::operations::{put_operand, put_operand_words, put_planned};
use crate::words::{put_fact, put_number, put_pair, put_triple, put_type, put_word};
use block_ir::block::{Block, Final, Next, Operation};
use block_ir::code::{Array, Stage, ThreadCode};
use block_ir::plan::{BlockPlan, Planned, StagePlan};
use hls_ints::CType;
use hls_io::Bytes;
use op_graph::node::{Node, nodes};
use std::alloc::{AllocError, Global};

fn put_operations(
    out: &mut Bytes,
    nodes: &[Node],
    plan: &BlockPlan,
    operations: &[Operation],
) -> Result<(), AllocError>
    ensures { OnOk result (out.new ≡ out.old ++ numbered (planned_lines nodes.now plan.now) 0 operations.now) }
{
    for (k, operation) in operations.iter().enumerate() {
        put_planned(out, nodes, plan, k, operation)?;
    }
    Ok(())
}

/// Appends what a variable holds after its block.
fn put_final(out: &mut Bytes, last: &Final) -> Result<(), AllocError>
    ensures { OnOk result (out.new ≡ out.old ++ spec.final_line last.now) }
{
    out.put(b"final")?;
    put_number(out, last.variable as u64)?;
    put_operand_words(out, &last.value)
}

fn put_finals(out: &mut Bytes, finals: &[Final]) -> Result<(), AllocError>
    ensures { OnOk result (out.new ≡ out.old ++ flat_map spec.final_line finals.now) }
{
    for last in finals {
        put_final(out, last)?;
    }
    Ok(())
}

/// Appends where a block leads.
fn put_next(out: &mut Bytes, next: &Next) -> Result<(), AllocError>
    ensures { OnOk result (out.new ≡ out.old ++ spec.next_lines next.now) }
{
    match next {
        Next::Jump(target) => put_fact(out, b"jump", *target as u64),
        Next::Branch {
            test,
            nonzero,
            zero,
        } => {
            put_pair(out, b"branch", *nonzero as u64, *zero as u64)?;
            put_operand(out, b"test", test)
        }
    }
}

/// Appends a block with its plan.
fn put_block(
    alloc: Global,
    out: &mut Bytes,
    k: usize,
    block: &Block,
    plan: &BlockPlan,
) -> Result<(), AllocError>
    ensures { OnOk result (out.new ≡ out.old ++ spec.block_lines k block.now plan.now) }
{
    let nodes = nodes(alloc, block.operations.as_slice())?;
    put_triple(out, b"block", k as u64, plan.states, block.steps as u64)?;
    put_operations(out, nodes.as_slice(), plan, block.operations.as_slice())?;
    put_finals(out, block.finals.as_slice())?;
    put_next(out, &block.next)
}

/// Appends a stage by its plan.
fn put_stage(
    alloc: Global,
    out: &mut Bytes,
    k: usize,
    stage: &Stage,
    plan: &StagePlan,
) -> Result<(), AllocError>
    ensures { OnOk result (out.new ≡ out.old ++ spec.stage_lines k stage.now plan.now) }
{
    match stage {
        Stage::Run(block) => match plan {
            StagePlan::Run(plan) => put_block(alloc, out, k, block, plan),
            StagePlan::Act => Ok(()),
        },
        Stage::Act { act, next } => {
            put_pair(out, b"act", k as u64, *next as u64)?;
            put_act(out, act)
        }
    }
}

/// Appends a stage whose plan is one of a list.
fn put_stage_at(
    alloc: Global,
    out: &mut Bytes,
    plans: &[StagePlan],
    k: usize,
    stage: &Stage,
) -> Result<(), AllocError>
    ensures { OnOk result (out.new ≡ out.old ++ spec.stage_at plans.now k stage.now) }
{
    match plans.get(k) {
        Some(plan) => put_stage(alloc, out, k, stage, plan),
        None => Ok(()),
    }
}

fn put_stages(
    alloc: Global,
    out: &mut Bytes,
    plans: &[StagePlan],
    stages: &[Stage],
) -> Result<(), AllocError>
    ensures { OnOk result (out.new ≡ out.old ++ numbered (spec.stage_at plans.now) 0 stages.now) }
{
    for (k, stage) in stages.iter().enumerate() {
        put_stage_at(alloc, out, plans, k, stage)?;
    }
    Ok(())
}

/// The name of a variable, empty where it has none.
fn name_at(names: &[String], k: usize) -> &[u8]
    ensures { result.now ≡ spec.name_at (map string_bytes names.now) k }
{
    match names.get(k) {
        Some(name) => name.as_bytes(),
        None => b"",
    }
}

/// Appends a name, or `-` where it is empty.
fn put_name(out: &mut Bytes, name: &[u8]) -> Result<(), AllocError>
    ensures { OnOk result (out.new ≡ out.old ++ spec.name_word name.now) }
{
    if name.is_empty() {
        return put_word(out, b"-");
    }
    put_word(out, name)
}

fn put_variable(out: &mut Bytes, k: usize, ty: CType, name: &[u8]) -> Result<(), AllocError>
    ensures { OnOk result (out.new ≡ out.old ++ spec.variable_line k ty name.now) }
{
    out.put(b"variable")?;
    put_number(out, k as u64)?;
    put_type(out, ty)?;
    put_name(out, name)?;
    out.push(b'\n')
}

fn put_variables(out: &mut Bytes, names: &[String], types: &[CType]) -> Result<(), AllocError>
    ensures { OnOk result (out.new ≡ out.old ++ numbered (spec.variable_at (map string_bytes names.now)) 0 types.now) }
{
    for (k, ty) in types.iter().enumerate() {
        put_variable(out, k, *ty, name_at(names, k))?;
    }
    Ok(())
}

fn put_array(out: &mut Bytes, k: usize, array: Array) -> Result<(), AllocError>
    ensures { OnOk result (out.new ≡ out.old ++ spec.array_line k array) }
{
    out.put(b"array")?;
    put_number(out, k as u64)?;
    put_number(out, array.length)?;
    put_type(out, array.ty)?;
    out.push(b'\n')
}

fn put_arrays(out: &mut Bytes, arrays: &[Array]) -> Result<(), AllocError>
    ensures { OnOk result (out.new ≡ out.old ++ numbered spec.array_line 0 arrays.now) }
{
    for (k, array) in arrays.iter().enumerate() {
        put_array(out, k, *array)?;
    }
    Ok(())
}

fn put_argument(out: &mut Bytes, argument: Option<u32>) -> Result<(), AllocError>
    ensures { OnOk result (out.new ≡ out.old ++ spec.argument_line argument) }
{
    match argument {
        Some(variable) => put_fact(out, b"argument", variable as u64),
        None => Ok(()),
    }
}

/// Appends the report of a code by its plan. The only error is want of memory.
pub fn put_code(
    alloc: Global,
    out: &mut Bytes,
    code: &ThreadCode,
    plan: &Planned,
) -> Result<(), AllocError>
    ensures { OnOk result (out.new ≡ out.old ++ spec.code_lines code.now plan.now) }
{
    put_fact(out, b"registers", plan.registers as u64)?;
    put_argument(out, code.argument)?;
    put_variables(out, code.names.as_slice(), code.variables.as_slice())?;
    put_arrays(out, code.arrays.as_slice())?;
    put_stages(alloc, out, plan.stages.as_slice(), code.stages.as_slice())
}
