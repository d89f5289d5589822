// Schedules of pipelined loops: the least intervals and starts, and loops that have none.
ghost use Rattle.std.specs.Prelude.{◌≡◌};
ghost use Rattle.op_graph.specs.Graph.{UseEarlier};
ghost use Rattle.loop_pipeline.specs.Table.{AreCarried};
ghost use Rattle.loop_plans.specs.Listed.{carried_use};

use loop_pipeline::table::Carried;
use loop_pipeline::{Pipelined, pipeline};
use op_graph::node::{Kind, Node};
use std::test::Fail;

const SIMPLE: Node = Node {
    kind: Kind::Simple,
    left: None,
    right: None,
};

const PRODUCT: Node = Node {
    kind: Kind::Multiply { width: 32 },
    left: None,
    right: None,
};

const QUOTIENT: Kind = Kind::Divide {
    width: 32,
    signed: true,
};

const READ: Kind = Kind::Array {
    object: 0,
    writes: false,
};

const WRITE: Kind = Kind::Array {
    object: 0,
    writes: true,
};

/// `for (i = 0; i < 8; i++) a[i] = i * i;`: `<`, `*`, the write, `+`.
const SQUARES: [Node; 4] = [
    SIMPLE,
    PRODUCT,
    Node {
        kind: WRITE,
        left: None,
        right: Some(1),
    },
    SIMPLE,
];

/// `for (i = 1; i < 64; i++) a[i] = a[i] + a[i - 1];`: `<`, the read, `-`, the read, `+`, the write, `+`.
const SUMS: [Node; 7] = [
    SIMPLE,
    Node {
        kind: READ,
        left: None,
        right: None,
    },
    SIMPLE,
    Node {
        kind: READ,
        left: Some(2),
        right: None,
    },
    Node {
        kind: Kind::Simple,
        left: Some(1),
        right: Some(3),
    },
    Node {
        kind: WRITE,
        left: None,
        right: Some(4),
    },
    SIMPLE,
];

/// `for (i = 0; i < 8; i++) s = i / s / s / s / s / s / s / s / s / s;`, but for the counter: nine quotients, each of the one before.
const QUOTIENTS: [Node; 10] = [
    SIMPLE,
    Node {
        kind: QUOTIENT,
        left: None,
        right: None,
    },
    Node {
        kind: QUOTIENT,
        left: Some(1),
        right: None,
    },
    Node {
        kind: QUOTIENT,
        left: Some(2),
        right: None,
    },
    Node {
        kind: QUOTIENT,
        left: Some(3),
        right: None,
    },
    Node {
        kind: QUOTIENT,
        left: Some(4),
        right: None,
    },
    Node {
        kind: QUOTIENT,
        left: Some(5),
        right: None,
    },
    Node {
        kind: QUOTIENT,
        left: Some(6),
        right: None,
    },
    Node {
        kind: QUOTIENT,
        left: Some(7),
        right: None,
    },
    Node {
        kind: QUOTIENT,
        left: Some(8),
        right: None,
    },
];

/// What the next iteration uses.
fn handed(from: usize, to: usize) -> Carried
    ensures { result ≡ carried_use from to 1 }
{
    Carried { from, to, turns: 1 }
}

fn is_scheduled(answer: Pipelined, interval: u32, depth: u64, starts: &[u64]) -> bool {
    match answer {
        Pipelined::Pipelined {
            interval: found,
            starts: list,
            depth: end,
        } => found == interval && end == depth && list.as_slice() == starts,
        Pipelined::Unfit(_) => false,
    }
}

/// Whether the walk has so many places and ends where it began.
fn walks_round(answer: Pipelined, places: usize) -> bool {
    match answer {
        Pipelined::Pipelined { .. } => false,
        Pipelined::Unfit(walk) => walk.len() == places && walk.first() == walk.last(),
    }
}

/// The counter lets an iteration begin each second state. A product takes two states before it is written.
#[test]
fn squares_are_scheduled(rt: HostRuntime) -> Result<(), Fail> {
    let uses = [
        handed(3, 0),
        handed(3, 1),
        handed(3, 1),
        handed(3, 2),
        handed(3, 3),
    ];
    let answer = pipeline(rt.alloc(), &SQUARES, 0, &uses, 1)?;
    assert!(rt; is_scheduled(answer, 2, 4, &[0, 1, 3, 1]));
    Ok(())
}

/// From the read of what the iteration before has written it takes three states to the write. Nothing begins earlier than asked.
#[test]
fn sums_are_scheduled(rt: HostRuntime) -> Result<(), Fail> {
    let uses = [
        handed(6, 0),
        handed(6, 1),
        handed(6, 2),
        handed(6, 5),
        handed(6, 6),
    ];
    let answer = pipeline(rt.alloc(), &SUMS, 0, &uses, 1)?;
    assert!(rt; is_scheduled(answer, 3, 5, &[0, 2, 1, 2, 3, 4, 1]));
    let later = pipeline(rt.alloc(), &SUMS, 0, &uses, 16)?;
    assert!(rt; is_scheduled(later, 16, 5, &[0, 1, 1, 2, 3, 4, 1]));
    Ok(())
}

/// Nine quotients take 72 states from one iteration to the next: no interval up to 64 will do.
#[test]
fn quotients_are_not_scheduled(rt: HostRuntime) -> Result<(), Fail> {
    let uses = [handed(9, 1)];
    let answer = pipeline(rt.alloc(), &QUOTIENTS, 0, &uses, 1)?;
    assert!(rt; walks_round(answer, 10));
    Ok(())
}
