// A call of each command.

use crate::call::{Asked, Row, SURE, each, is_right};
use crate::programs::{COUNTING, MAIN, RACING, tripled, tripled_report};
use crate::sims::CLIMBING;
use std::test::Fail;

const COMMANDS: [Row; 15] = [
    (
        MAIN,
        Asked::Build,
        0,
        "module ",
        "hls: built, 1 threads, weight 2, ",
    ),
    ("int x;", Asked::Build, 1, "", "hls: refused E14: no main\n"),
    (
        COUNTING,
        Asked::Step { cycles: 11_520 },
        0,
        "1\n2\n3\n",
        "hls: done, ",
    ),
    (
        COUNTING,
        Asked::Walk { steps: 1_000_000 },
        0,
        "1\n2\n3\n",
        "hls: ended, 16 steps\n",
    ),
    (COUNTING, Asked::Run, 0, "1\n2\n3\n", "hls: done, "),
    (
        "//@ 5 0 -\nint main(void){return 0;}",
        Asked::Replay,
        8,
        "",
        "hls: bad entry 0\n",
    ),
    (
        COUNTING,
        Asked::Check,
        0,
        "",
        "hls: disciplined, 0 globals\n",
    ),
    (RACING, Asked::Check, 12, "", "hls: doubt at byte 37: n\n"),
    (
        COUNTING,
        Asked::CheckRun { steps: 16 },
        0,
        "",
        "hls: good, 16 steps, one output\n",
    ),
    (
        RACING,
        Asked::CheckRun { steps: 100 },
        13,
        "0*2\n",
        "hls: race at bytes 108 and 37: n\n",
    ),
    (
        "int main(void){int z = 0; int x = 1 / z; return x;}",
        Asked::CheckRun { steps: 100 },
        14,
        "0,0\n",
        "hls: undefined at byte 30: divisor\n",
    ),
    (
        COUNTING,
        Asked::CheckRun { steps: 15 },
        15,
        "",
        "hls: unknown, 15 steps: too few steps\n",
    ),
    (
        CLIMBING,
        Asked::Sim { cycles: 2 },
        0,
        "",
        "hls: done, 2 cycles\n",
    ),
    (
        "",
        Asked::Gen { cycles: 1_000_000 },
        0,
        "4\n7\n11\n",
        "hls: generated, done, 660 bytes of C, ",
    ),
    (
        "",
        Asked::Gen { cycles: 0 },
        9,
        "",
        "hls: generated, not done, 660 bytes of C, ",
    ),
];

fn command_rows() -> &'static [Row] {
    &COMMANDS
}

#[test]
fn answers_each_command(rt: HostRuntime) -> Result<(), Fail> {
    each(&rt, rt.alloc(), command_rows())?;
    Ok(())
}

#[test]
fn reports_what_a_text_is_made_of(rt: HostRuntime) -> Result<(), Fail> {
    let (alloc, text, report) = (rt.alloc(), tripled().as_bytes(), tripled_report());
    let line = "hls: reported, 1892 bytes\n";
    let is_right = is_right(&rt, alloc, text, Asked::Report, &SURE, 0, report, line)?;
    assert!(rt; is_right);
    Ok(())
}
