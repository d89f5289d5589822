// The hardware of a program.

ghost use Rattle.std.specs.Prelude.{◌≡◌, None, IfOk};
ghost use Rattle.c_limits.specs.Counts.{first_passed};
ghost use Rattle.c_program.specs.Plain.{program_of};
ghost use Rattle.c_program.specs.Resolved.{IsResolved};
ghost use Rattle.c_program.specs.Weight.{thread_functions};
ghost use Rattle.program_bodies.specs.Parts.{IsGoodText};
ghost use Rattle.program_bodies.specs.Plans.{ArePlanned};
ghost use Rattle.hls_compile.specs.Banks.{AreBanksOf};
ghost use Rattle.hls_compile.specs.Plans.{RunPlanned};
ghost use Rattle.hls_compile.specs.Served.{core_names};

use bank_partition::banks::{Banks, partition};
use c_program::tree::Program;
use global_naming::naming::naming_threads;
use net_emitter::{Written, verilog};
use program_bodies::{PlannedFunction, modules};
use program_cores::wanted;
use program_modules::module_numbers;
use sqlite_items::Items;
use std::alloc::{AllocError, Global};

/// The banks of the globals, by the numbers of hardware threads that name them.
fn banks(alloc: Global, program: &Program) -> Result<Banks, AllocError>
    requires resolved { IsResolved (program_of program.now) }
    requires limits { first_passed (program_of program.now) ≡ None }
    ensures { IfOk result (AreBanksOf (program_of program.now)) }
{
    let threads = naming_threads(alloc, program)?;
    let banks = partition(alloc, program, threads.as_slice())?;
    Ok(banks)
}

/// The net of a resolved program within the limits, by its thread functions and the plans of these, and its Verilog.
pub fn written(
    alloc: Global,
    program: &Program,
    functions: &[usize],
    plans: &[PlannedFunction],
) -> Result<Written, AllocError>
    requires resolved { IsResolved (program_of program.now) }
    requires limits { first_passed (program_of program.now) ≡ None }
    requires threads { functions.now ≡ thread_functions (program_of program.now) }
    requires planned { ArePlanned (program_of program.now) plans.now }
    ensures good { IfOk result (λ w. IsGoodText (program_of program.now) (core_names (program_of program.now)) w.net w.text) }
    ensures run { IfOk result (λ w. RunPlanned (program_of program.now) w.net plans.now) }
{
    let banks = banks(alloc, program)?;
    let wanted = wanted(alloc, program, &banks)?;
    let modules = modules(alloc, program, banks.spreads.as_slice(), &wanted, plans)?;
    let numbers = module_numbers(alloc, program, functions)?;
    verilog(alloc, numbers, modules, &wanted)
}
