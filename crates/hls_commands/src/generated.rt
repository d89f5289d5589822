// Programs made from a number.
ghost use Rattle.std.specs.Prelude.{◌≡◌, ◌≤◌, IfOk, IfErr};
ghost use Rattle.c_program.specs.Plain.{program_of};
ghost use Rattle.hls_commands.specs.Answers.{IsGenerated};
ghost use Rattle.hls_commands.specs.Inside.{IsMade, due_of};
ghost use Rattle.hls_commands.specs.declared.commands.Stop.TheVariants.{Memory};

use crate::answer::{Answer, Line, Out};
use crate::commands::{Stop, ran_as, run_status};
use hls_compile::{CompileError, Compiled, compile};
use hls_gen::program;
use hls_status::lines::generated_line;
use sqlite_items::Items;
use std::alloc::{AllocError, Global};
use std::thread::Threads;

/// How long a text that was made is, and what it compiles to.
struct Made {
    c_bytes: usize,
    built: Compiled,
}

/// Makes the text of a seed, of so many threads beside main and so many lines, and compiles it: it is never refused.
fn make<R: Threads + Sync>(
    rt: &R,
    alloc: Global,
    seed: u32,
    threads: u32,
    size: u32,
) -> Result<Made, AllocError>
    requires some { 1 ≤ threads }
    requires most { threads ≤ 63 }
    requires few { size ≤ 1000 }
    ensures { IfOk result (λ m. IsMade seed threads size m.c_bytes (program_of m.built.program) m.built.weight m.built.net m.built.text) }
{
    let text = program(alloc, seed, threads, size)?;
    match compile(rt, alloc, text.as_slice(), 1) {
        Ok(built) => Ok(Made {
            c_bytes: text.len(),
            built,
        }),
        Err(CompileError::Memory) => Err(AllocError),
        Err(CompileError::Refused(_)) => unreachable!(),
    }
}

/// Makes the program of a seed, of so many threads beside main and so many lines, and runs its Verilog for so many cycles at most.
pub fn generate<R: Threads + Sync>(
    rt: &R,
    alloc: Global,
    seed: u32,
    threads: u32,
    size: u32,
    cycles: u32,
) -> Result<Answer, Stop>
    requires some { 1 ≤ threads }
    requires most { threads ≤ 63 }
    requires few { size ≤ 1000 }
    ensures ok { IfOk result (λ a. IsGenerated seed threads size cycles (due_of a) a.status) }
    ensures stop { IfErr result (λ e. e ≡ Memory) }
{
    let Made { c_bytes, built } = make(rt, alloc, seed, threads, size)?;
    let ran = ran_as(alloc, &built, cycles, false)?;
    let line = generated_line(alloc, ran.is_done, c_bytes, built.text.len(), ran.cycles)?;
    Ok(Answer {
        status: run_status(&ran),
        text: built.text,
        journal: Items::new(alloc),
        out: Out::Printed(ran.printed),
        line: Line::Made(line),
    })
}
