// Plans of small blocks, whose starts and ends are worked by hand from the table of constraints.
use crate::small::Place::{Local, Value};
use crate::small::Small::{Binary, ReadGlobal, WriteGlobal};
use crate::small::{PRODUCTS, Small, code};
use block_ir::plan::{Planned, StagePlan};
use c_program::tree::BinaryOperator::{Add, Divide, Multiply};
use fsm_plan::plan;
use std::alloc::{AllocError, Global};
use std::process::Abort;
use std::test::Fail;

/// `x = a + b + c + d;`: of the three sums the last one waits a state.
const SUMS: [Small; 3] = [
    Binary(Add, Local, Local),
    Binary(Add, Value(0), Local),
    Binary(Add, Value(1), Local),
];

/// `x = (a + b) * c / d;`
const QUOTIENT: [Small; 3] = [
    Binary(Add, Local, Local),
    Binary(Multiply, Value(0), Local),
    Binary(Divide, Value(1), Local),
];

/// `x = g;`: the word is taken in the state after the request's.
const READ: [Small; 1] = [ReadGlobal(0)];

/// `x = g + 1; g = x;`
const WRITTEN: [Small; 3] = [
    ReadGlobal(0),
    Binary(Add, Value(0), Local),
    WriteGlobal(0, Value(1)),
];

/// The C text of a block, its operations, the one whose value variable 0 has in the end, and its plan.
struct Case {
    text: &'static str,
    operations: &'static [Small],
    last: u32,
    starts: &'static [u64],
    states: u64,
    units: &'static [u32],
    registers: &'static [Option<u32>],
    register_count: u32,
}

const CASES: [Case; 5] = [
    Case {
        text: "x = a + b + c + d;",
        operations: &SUMS,
        last: 2,
        starts: &[0, 0, 1],
        states: 2,
        units: &[0, 0, 0],
        registers: &[None, Some(0), None],
        register_count: 1,
    },
    Case {
        text: "x = (a + b) * c / d;",
        operations: &QUOTIENT,
        last: 2,
        starts: &[0, 1, 3],
        states: 11,
        units: &[0, 0, 0],
        registers: &[Some(0), Some(0), None],
        register_count: 1,
    },
    Case {
        text: "x = (a * b + c * d) * e;",
        operations: &PRODUCTS,
        last: 3,
        starts: &[0, 0, 2, 3],
        states: 5,
        units: &[0, 1, 0, 0],
        registers: &[Some(0), Some(1), Some(0), None],
        register_count: 2,
    },
    Case {
        text: "x = g;",
        operations: &READ,
        last: 0,
        starts: &[0],
        states: 2,
        units: &[0],
        registers: &[None],
        register_count: 0,
    },
    Case {
        text: "x = g + 1; g = x;",
        operations: &WRITTEN,
        last: 1,
        starts: &[0, 2, 3],
        states: 4,
        units: &[0, 0, 0],
        registers: &[Some(0), Some(0), None],
        register_count: 1,
    },
];

fn planned(alloc: Global, case: &Case) -> Result<Planned, AllocError> {
    let code = code(alloc, case.operations, Some(case.last))?;
    plan(alloc, &code)
}

/// Whether it is the plan of the block and of the return behind it.
fn is_planned(planned: &Planned, case: &Case) -> bool {
    match planned.stages.as_slice() {
        [StagePlan::Run(run), end] if matches!(end, StagePlan::Act) => {
            run.starts.as_slice() == case.starts
                && run.states == case.states
                && run.units.as_slice() == case.units
                && run.registers.as_slice() == case.registers
                && planned.registers == case.register_count
        }
        _ => false,
    }
}

#[test]
fn plans(rt: HostRuntime) -> Result<(), Fail> {
    for case in &CASES {
        let planned = planned(rt.alloc(), case)?;
        if !is_planned(&planned, case) {
            rt.panic(case.text);
        }
    }
    Ok(())
}
