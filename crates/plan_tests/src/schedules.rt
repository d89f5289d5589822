// Starts of small systems of difference constraints.
use schedule_sdc::{Constraint, Solved, solve};
use std::test::Fail;

/// Whether place 1 waits for place 0, and place 2 for place 1, no longer than they have to.
fn are_least(solved: Solved) -> bool {
    match solved {
        Solved::Starts(starts) => matches!(starts.as_slice(), [0, 2, 10]),
        Solved::Cyclic(_) => false,
    }
}

/// Whether the walk round places 0 and 1 is shown, from either of them.
fn is_cycle(solved: Solved) -> bool {
    match solved {
        Solved::Starts(_) => false,
        Solved::Cyclic(walk) => matches!(walk.as_slice(), [0, 1, 0] | [1, 0, 1]),
    }
}

/// A list that leads forward has starts. No start of 0 is above itself: a cycle of a positive sum is shown.
#[test]
fn systems_are_solved(rt: HostRuntime) -> Result<(), Fail> {
    let forward = [
        Constraint {
            from: 0,
            to: 1,
            gap: 2,
        },
        Constraint {
            from: 1,
            to: 2,
            gap: 8,
        },
    ];
    let solved = solve(rt.alloc(), 3, &forward)?;
    assert!(rt; are_least(solved));
    let round = [
        Constraint {
            from: 0,
            to: 1,
            gap: 1,
        },
        Constraint {
            from: 1,
            to: 0,
            gap: 0,
        },
    ];
    let solved = solve(rt.alloc(), 2, &round)?;
    assert!(rt; is_cycle(solved));
    Ok(())
}
