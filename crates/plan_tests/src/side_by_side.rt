// Plans of several codes, made side by side.
use crate::small::Place::{Local, Value};
use crate::small::Small::Binary;
use crate::small::{Small, code};
use block_ir::code::ThreadCode;
use block_ir::plan::{Planned, StagePlan};
use c_program::tree::BinaryOperator::Multiply;
use fsm_plan::{plan, plan_all};
use std::alloc::{AllocError, Global};
use std::process::Abort;
use std::test::Fail;

const FIRST: Small = Binary(Multiply, Local, Local);

const SECOND: Small = Binary(Multiply, Value(0), Value(0));

const THIRD: Small = Binary(Multiply, Value(1), Value(1));

const FOURTH: Small = Binary(Multiply, Value(2), Value(2));

const FIFTH: Small = Binary(Multiply, Value(3), Value(3));

/// Squares, each of the one before it.
const SQUARES: [&[Small]; 5] = [
    &[FIRST, SECOND, THIRD],
    &[],
    &[FIRST],
    &[FIRST, SECOND],
    &[FIRST, SECOND, THIRD, FOURTH, FIFTH],
];

fn codes(alloc: Global) -> Result<Vec<ThreadCode>, AllocError> {
    let mut codes = Vec::new(alloc);
    for list in &SQUARES {
        codes.push(code(alloc, list, None)?)?;
    }
    Ok(codes)
}

fn starts(planned: &Planned) -> &[u64] {
    match planned.stages.get(0) {
        Some(StagePlan::Run(block)) => block.starts.as_slice(),
        _ => &[],
    }
}

/// Whether each code has the plan that it has alone.
fn are_alone(alloc: Global, codes: &[ThreadCode], plans: &[Planned]) -> Result<bool, AllocError> {
    for (code, planned) in codes.iter().zip(plans) {
        let alone = plan(alloc, code)?;
        if starts(planned) != starts(&alone) || planned.registers != alone.registers {
            return Ok(false);
        }
    }
    Ok(plans.len() == codes.len())
}

#[test]
fn plans_each_code(rt: HostRuntime) -> Result<(), Fail> {
    let codes = codes(rt.alloc())?;
    for jobs in [0, 1, 2, 3, 16] {
        let plans = plan_all(&rt, rt.alloc(), codes.as_slice(), jobs)?;
        let are_alone = are_alone(rt.alloc(), codes.as_slice(), plans.as_slice())?;
        if !are_alone {
            rt.panic(jobs);
        }
    }
    Ok(())
}
