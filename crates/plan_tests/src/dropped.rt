// Stages that are dropped.
use crate::small::Place::Local;
use crate::small::Small::Binary;
use crate::small::{Small, block, with_stages};
use block_ir::block::Next;
use block_ir::code::{Stage, ThreadCode};
use c_program::tree::BinaryOperator::Add;
use code_merge::drop_empty;
use sqlite_items::Items;
use std::alloc::{AllocError, Global};
use std::process::Abort;
use std::test::Fail;

const SUM: [Small; 1] = [Binary(Add, Local, Local)];

/// A block as whether it has an operation, and where it leads.
type Row = (bool, usize);

/// A code, and what is left of it: a block that became a part of the first one is dropped; nothing is dropped; so is one of two
/// that are empty, as a way leads to the other; an empty first stage, a loop on itself and a block that does something stay.
const ROWS: [(&[Row], &[Row]); 5] = [
    (&[(true, 2), (false, 0), (true, 0)], &[(true, 1), (true, 0)]),
    (&[(true, 1), (true, 0)], &[(true, 1), (true, 0)]),
    (
        &[(true, 3), (false, 0), (false, 0), (true, 1)],
        &[(true, 2), (false, 0), (true, 1)],
    ),
    (&[(false, 0), (false, 0)], &[(false, 0)]),
    (
        &[(true, 0), (false, 0), (false, 2), (true, 0)],
        &[(true, 0), (false, 1), (true, 0)],
    ),
];

fn code(alloc: Global, rows: &[Row]) -> Result<ThreadCode, AllocError> {
    let mut stages = Items::new(alloc);
    for (busy, next) in rows {
        let list: &[Small] = if *busy { &SUM } else { &[] };
        let mut block = block(alloc, list, None)?;
        block.next = Next::Jump(*next);
        stages.push(Stage::Run(block))?;
    }
    with_stages(alloc, stages)
}

fn is_row(stage: &Stage, busy: bool, next: usize) -> bool {
    match stage {
        Stage::Run(block) => {
            block.operations.is_empty() != busy
                && matches!(block.next, Next::Jump(stage) if stage == next)
        }
        Stage::Act { .. } => false,
    }
}

fn are_rows(stages: &[Stage], rows: &[Row]) -> bool {
    for (stage, (busy, next)) in stages.iter().zip(rows) {
        if !is_row(stage, *busy, *next) {
            return false;
        }
    }
    stages.len() == rows.len()
}

/// Whether just these rows are left of a code.
fn are_left(alloc: Global, before: &[Row], after: &[Row]) -> Result<bool, AllocError> {
    let code = drop_empty(alloc, code(alloc, before)?)?;
    Ok(are_rows(code.stages.as_slice(), after))
}

#[test]
fn drops_empty_stages(rt: HostRuntime) -> Result<(), Fail> {
    for (before, after) in &ROWS {
        let are_left = are_left(rt.alloc(), before, after)?;
        if !are_left {
            rt.panic(before.len());
        }
    }
    Ok(())
}
