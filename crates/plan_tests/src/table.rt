// Constraints of small blocks.
use crate::small::Place::{Local, Value};
use crate::small::Small::{Binary, ReadArray, ReadGlobal, WriteArray, WriteGlobal};
use crate::small::{Small, operations};
use c_program::tree::BinaryOperator::{Add, Divide, Multiply};
use op_graph::node::nodes;
use op_graph::{constraints, reduced_constraints};
use schedule_sdc::Constraint;
use std::alloc::{AllocError, Global};
use std::process::Abort;
use std::test::Fail;

/// `a + b + c + d`: of three sums two may be handed on in one state.
const SUMS: [Small; 3] = [
    Binary(Add, Local, Local),
    Binary(Add, Value(0), Local),
    Binary(Add, Value(1), Local),
];

/// `a * b / c`: a quotient waits for a product.
const PRODUCTS: [Small; 2] = [
    Binary(Multiply, Local, Local),
    Binary(Divide, Value(0), Local),
];

/// Two reads, a write and a read of one array: the table has a row for each two accesses one of which writes; the reduced
/// list has the last write before each, and the first one after each read.
const ACCESSES: [Small; 4] = [ReadArray(0), ReadArray(0), WriteArray(0), ReadArray(0)];

/// A read, a write and a read of one global, and a read of another one: the write waits until the word read before it is
/// taken, and two globals are in no order.
const GLOBALS: [Small; 4] = [
    ReadGlobal(0),
    WriteGlobal(0, Local),
    ReadGlobal(0),
    ReadGlobal(1),
];

/// A constraint as where it is from, where it leads, and its gap.
type Row = (usize, usize, i64);

/// A block, whether its list is the reduced one or the table, and the rows of that.
type Case = (&'static [Small], bool, &'static [Row]);

const CASES: [Case; 6] = [
    (
        &SUMS,
        false,
        &[
            (0, 1, 0),
            (1, 2, 0),
            (0, 2, 1),
            (0, 3, 1),
            (1, 3, 1),
            (2, 3, 1),
        ],
    ),
    (&PRODUCTS, false, &[(0, 1, 2), (0, 2, 2), (1, 2, 8)]),
    (
        &ACCESSES,
        false,
        &[
            (0, 2, 1),
            (1, 2, 1),
            (2, 3, 1),
            (0, 4, 1),
            (1, 4, 1),
            (2, 4, 1),
            (3, 4, 1),
        ],
    ),
    (
        &GLOBALS,
        false,
        &[
            (0, 1, 2),
            (0, 2, 2),
            (1, 2, 1),
            (0, 4, 2),
            (1, 4, 1),
            (2, 4, 2),
            (3, 4, 2),
        ],
    ),
    (
        &ACCESSES,
        true,
        &[
            (2, 3, 1),
            (1, 2, 1),
            (0, 2, 1),
            (0, 4, 1),
            (1, 4, 1),
            (2, 4, 1),
            (3, 4, 1),
        ],
    ),
    (
        &GLOBALS,
        true,
        &[
            (0, 1, 2),
            (1, 2, 1),
            (0, 4, 2),
            (1, 4, 1),
            (2, 4, 2),
            (3, 4, 2),
        ],
    ),
];

fn listed(alloc: Global, list: &[Small], is_reduced: bool) -> Result<Vec<Constraint>, AllocError> {
    let operations = operations(alloc, list)?;
    let graph = nodes(alloc, operations.as_slice())?;
    if is_reduced {
        reduced_constraints(alloc, graph.as_slice())
    } else {
        constraints(alloc, graph.as_slice())
    }
}

fn are_rows(list: &[Constraint], rows: &[Row]) -> bool {
    for (constraint, (from, to, gap)) in list.iter().zip(rows) {
        if constraint.from != *from || constraint.to != *to || constraint.gap != *gap {
            return false;
        }
    }
    list.len() == rows.len()
}

#[test]
fn tables(rt: HostRuntime) -> Result<(), Fail> {
    for (list, is_reduced, rows) in &CASES {
        let listed = listed(rt.alloc(), list, *is_reduced)?;
        if !are_rows(listed.as_slice(), rows) {
            rt.panic(rows.len());
        }
    }
    Ok(())
}
