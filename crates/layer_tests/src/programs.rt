// The plans of a program of three threads.
use crate::lowering::{Shape, is_code};
use block_ir::plan::StagePlan;
use c_profile::accept;
use program_plans::{PlannedFunction, plan_functions};
use std::alloc::Global;
use std::test::Fail;
use std::thread::Threads;

/// Main, which stands last, first creates the thread whose function stands second.
fn text() -> &'static str {
    "pthread_t t; pthread_t u; int x; void *late(void *p){return NULL;} void *early(void *q){x = (int)(long)q; return NULL;} \
    int main(void){pthread_create(&t, NULL, early, (void *)(long)3); pthread_create(&u, NULL, late, NULL); pthread_join(t, NULL); pthread_join(u, NULL); return 0;}"
}

/// The name of a thread function, the widths of its variables, and its stages.
type Row = (&'static str, &'static [u32], &'static [Shape]);

/// Main comes first, then the others in the order of their definitions. Operands of an act are evaluated by a step of their own,
/// but a return's are not.
const PLANNED: [Row; 3] = [
    (
        "main",
        &[64, 64],
        &[
            [1, 1, 1],
            [2, 2, 0],
            [3, 3, 1],
            [4, 4, 0],
            [5, 5, 1],
            [6, 6, 0],
            [7, 7, 1],
            [8, 8, 0],
            [0, 0, 0],
        ],
    ),
    ("late", &[64, 64, 64], &[[0, 0, 0]]),
    ("early", &[64, 64, 64], &[[1, 1, 1], [0, 0, 0]]),
];

fn rows() -> &'static [Row] {
    &PLANNED
}

/// Whether there is the plan of a block where a stage does steps, and else that of an act.
fn has_plans(plans: &[StagePlan], shapes: &[Shape]) -> bool {
    for index in 0..plans.len() {
        let is_block = matches!(&plans[index], StagePlan::Run(_));
        match shapes.get(index) {
            Some(shape) if is_block == (shape[2] > 0) => {}
            _ => return false,
        }
    }
    plans.len() == shapes.len()
}

fn is_planned(planned: &PlannedFunction, number: usize, row: &Row) -> bool {
    planned.name.as_str() == row.0
        && is_code(&planned.code, number, row.1, row.2)
        && has_plans(planned.plan.stages.as_slice(), row.2)
}

fn are_planned(planned: &[PlannedFunction], rows: &[Row]) -> bool {
    for number in 0..planned.len() {
        match rows.get(number) {
            Some(row) if is_planned(&planned[number], number, row) => {}
            _ => return false,
        }
    }
    planned.len() == rows.len()
}

/// Whether so many threads plan the functions as they are in the table.
fn plans_all<R: Threads + Sync>(rt: &R, alloc: Global, jobs: u32) -> Result<bool, Fail> {
    let accepted = accept(alloc, text().as_bytes())?;
    let planned = plan_functions(
        rt,
        alloc,
        &accepted.program,
        &accepted.functions,
        accepted.weight,
        jobs,
    )?;
    Ok(are_planned(planned.as_slice(), rows()))
}

#[test]
fn plans_each_thread_function(rt: HostRuntime) -> Result<(), Fail> {
    assert!(rt; plans_all(&rt, rt.alloc(), 1)?);
    assert!(rt; plans_all(&rt, rt.alloc(), 2)?);
    Ok(())
}
