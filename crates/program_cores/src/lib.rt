//! The cores of a program's hardware: the banks of its globals, its mutexes and barriers, the core of its thread ids, and a
//! printer of its printf calls.
//! `rt plant`: all 16 wrong bodies in 6 functions are refused.
#![tactic(auto)]

mod banks;
mod objects;
mod sites;

ghost use Rattle.std.specs.Prelude.{◌≡◌, ◌≤◌, None, IfOk};
ghost use Rattle.c_limits.specs.Counts.{first_passed};
ghost use Rattle.c_program.specs.Plain.{program_of};
ghost use Rattle.c_program.specs.Resolved.{IsResolved};
ghost use Rattle.c_program.specs.Weight.{thread_count};
ghost use Rattle.program_cores.specs.Banks.{IsPartedProgram};
ghost use Rattle.program_cores.specs.Cores.{AreCoresOf};
ghost use Rattle.program_cores.specs.Sites.{printer_shape};

use bank_partition::banks::Banks;
use c_program::threads::thread_count;
use c_program::tree::Program;
use core_family::cores::Cores;
use printer_cores::printer;
pub use sites::PRINT_VALUES;
use std::alloc::{AllocError, Global};

fn count_of(program: &Program) -> usize
    requires { thread_count (program_of program.now) ≤ 64 }
    ensures { result ≡ thread_count (program_of program.now) }
{
    thread_count(program) as usize
}

/// How many hardware threads a program within the limits has.
pub fn threads_of(program: &Program) -> usize
    requires { first_passed (program_of program.now) ≡ None }
    ensures { result ≡ thread_count (program_of program.now) }
{
    count_of(program)
}

/// The printer of a program: a site for each printf call of the text.
fn printer_shape(
    alloc: Global,
    program: &Program,
    threads: usize,
) -> Result<printer::Shape, AllocError>
    ensures { IfOk result (λ shape. shape ≡ printer_shape threads (program_of program.now)) }
{
    Ok(printer::Shape {
        threads,
        values: PRINT_VALUES,
        sites: sites::print_sites(alloc, program)?,
    })
}

/// The cores of a resolved program within the limits, with these banks of its globals.
pub fn wanted(alloc: Global, program: &Program, banks: &Banks) -> Result<Cores, AllocError>
    requires resolved { IsResolved (program_of program.now) }
    requires limits { first_passed (program_of program.now) ≡ None }
    requires parted { IsPartedProgram (program_of program.now) banks.now }
    ensures { IfOk result (AreCoresOf (program_of program.now) banks.now.spreads.items) }
{
    let threads = threads_of(program);
    let shapes = banks::bank_shapes(alloc, threads, banks.banks.as_slice())?;
    let mutexes = objects::mutex_shapes(alloc, threads, program.mutexes.as_slice())?;
    let printer = printer_shape(alloc, program, threads)?;
    let barriers = objects::barrier_count(program);
    Ok(Cores {
        threads,
        banks: shapes,
        mutexes,
        barriers,
        thread_ids: threads > 1,
        printer,
    })
}
