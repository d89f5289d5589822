// The modules of all threads of a program.

ghost use Rattle.std.specs.Prelude.{◌≡◌, ◌+◌, true, false, None, IfOk, codes, length, map, string_bytes};
ghost use Rattle.hls_ints.specs.Residues.{bit_of};
ghost use Rattle.c_limits.specs.Counts.{first_passed};
ghost use Rattle.c_program.specs.Plain.{program_of};
ghost use Rattle.c_program.specs.Resolved.{IsResolved};
ghost use Rattle.c_program.specs.Weight.{thread_functions};
ghost use Rattle.verilog_tree.specs.Spelling.{all_pass, is_name_byte};
ghost use Rattle.law_banks.specs.Partition.{globals_of};
ghost use Rattle.law_net.specs.Cores.{AreCoresOf};
ghost use Rattle.law_net.specs.Parts.{AreBodies, no_code};
ghost use Rattle.program_plans.specs.Plans.{ArePlanned, routine_of};
ghost use Rattle.program_bodies.specs.Bodies.{IsLaid, served_by, shape_of};
ghost use Rattle.program_bodies.specs.Modules.{AreLaid, bodies_of};
ghost use Rattle.program_modules.specs.Numbers.{has_idle, module_name};

use bank_partition::banks::Spread;
use block_ir::code::ThreadCode;
use block_ir::plan::Planned;
use c_program::tree::Program;
use core_family::cores::Cores;
use fsm_datapath::module::module;
use hls_ints::CType;
use netlist::netlist::Module;
use program_modules::has_idle;
use program_plans::PlannedFunction;
use program_plans::law::planned_are_routines;
use sqlite_items::Items;
use std::alloc::{AllocError, Global};
use thread_slots::shape::{PrinterPort, Served, Shape};
use verilog_tree::name::Identifier;

/// The width of a printf site's number, in bits.
const SITE_WIDTH: u64 = 16;

/// The types of the elements of the globals.
fn global_types(alloc: Global, program: &Program) -> Result<Items<CType>, AllocError>
    ensures { IfOk result (λ types. types ≡ globals_of (program_of program.now)) }
{
    let mut types = Items::new(alloc);
    let globals = program.globals.as_slice();
    for global in globals {
        types.push(global.ty)?;
    }
    Ok(types)
}

/// The cores that acts ask.
fn served(wanted: &Cores) -> Served
    ensures { result ≡ served_by wanted.now }
{
    Served {
        mutexes: wanted.mutexes.len(),
        barriers: wanted.barriers as usize,
        thread_ids: wanted.thread_ids,
        printer: PrinterPort {
            site_width: SITE_WIDTH,
            values: wanted.printer.values,
        },
    }
}

/// What surrounds the module of a thread: its name, and the program's cores.
fn shape(
    alloc: Global,
    program: &Program,
    spreads: &[Spread],
    wanted: &Cores,
    is_main: bool,
    name: Identifier,
) -> Result<Shape, AllocError>
    ensures { IfOk result (λ shape. shape ≡ shape_of (program_of program.now) spreads.now wanted.now is_main name) }
{
    Ok(Shape {
        name,
        is_main,
        globals: global_types(alloc, program)?,
        spreads: Items::from_slice(alloc, spreads)?,
        served: served(wanted),
    })
}

/// The name of the module of the threads that run the function of this name.
fn module_name(alloc: Global, function: &str) -> Result<Identifier, AllocError>
    requires { all_pass is_name_byte function.now ≡ true }
    ensures { IfOk result (λ name. name ≡ module_name function.now) }
{
    let stem = Identifier::from_text(alloc, "fn")?;
    let name = stem.with_suffix(function)?;
    Ok(name)
}

/// The module of the threads that run a function.
fn routine_module(
    alloc: Global,
    program: &Program,
    spreads: &[Spread],
    wanted: &Cores,
    is_main: bool,
    planned: &PlannedFunction,
) -> Result<Module, AllocError>
    requires { all_pass is_name_byte (string_bytes planned.now.name) ≡ true }
    ensures { IfOk result (IsLaid
        (shape_of (program_of program.now) spreads.now wanted.now is_main (module_name (string_bytes planned.now.name))) (routine_of planned.now)) }
{
    let name = module_name(alloc, planned.name.as_str())?;
    let shape = shape(alloc, program, spreads, wanted, is_main, name)?;
    let made = module(alloc, &shape, &planned.code, &planned.plan)?;
    Ok(made)
}

/// What surrounds the module of threads without a function.
fn idle_shape(
    alloc: Global,
    program: &Program,
    spreads: &[Spread],
    wanted: &Cores,
) -> Result<Shape, AllocError>
    ensures { IfOk result (λ shape. shape ≡ shape_of (program_of program.now) spreads.now wanted.now false (codes "idle")) }
{
    let name = Identifier::from_text(alloc, "idle")?;
    let shape = shape(alloc, program, spreads, wanted, false, name)?;
    Ok(shape)
}

/// The module of threads without a function, whose code has no stage.
fn idle_module(
    alloc: Global,
    program: &Program,
    spreads: &[Spread],
    wanted: &Cores,
) -> Result<Module, AllocError>
    ensures { IfOk result (IsLaid (shape_of (program_of program.now) spreads.now wanted.now false (codes "idle")) no_code) }
{
    let shape = idle_shape(alloc, program, spreads, wanted)?;
    let code = ThreadCode {
        argument: None,
        variables: Items::new(alloc),
        names: Items::new(alloc),
        arrays: Items::new(alloc),
        stages: Items::new(alloc),
    };
    let plan = Planned {
        stages: Items::new(alloc),
        registers: 0,
    };
    let made = module(alloc, &shape, &code, &plan)?;
    Ok(made)
}

/// A module for each thread function, in their order.
fn routine_modules(
    alloc: Global,
    program: &Program,
    spreads: &[Spread],
    wanted: &Cores,
    plans: &[PlannedFunction],
) -> Result<Items<Module>, AllocError>
    requires resolved { IsResolved (program_of program.now) }
    requires planned { ArePlanned (program_of program.now) plans.now }
    ensures { IfOk result (AreLaid (program_of program.now) spreads.now wanted.now (map routine_of plans.now) (length (thread_functions (program_of program.now)))) }
{
    let mut modules: Items<Module> = Items::new(alloc);
    for (k, planned) in plans.iter().enumerate() {
        let made = routine_module(alloc, program, spreads, wanted, k == 0, planned)?;
        modules.push(made)?;
    }
    Ok(modules)
}

/// A module for each thread function of a resolved program within the limits, in their order, beside these cores; and behind
/// them one for threads without a function, where there are such.
pub fn modules(
    alloc: Global,
    program: &Program,
    spreads: &[Spread],
    wanted: &Cores,
    plans: &[PlannedFunction],
) -> Result<Items<Module>, AllocError>
    requires resolved { IsResolved (program_of program.now) }
    requires limits { first_passed (program_of program.now) ≡ None }
    requires cores { AreCoresOf (program_of program.now) spreads.now wanted.now }
    requires planned { ArePlanned (program_of program.now) plans.now }
    ensures laid { IfOk result (AreLaid (program_of program.now) spreads.now wanted.now (map routine_of plans.now)
        (length (thread_functions (program_of program.now)) + bit_of (has_idle (program_of program.now)))) }
    ensures bodies { IfOk result (λ modules. AreBodies (program_of program.now) spreads.now wanted.now (map routine_of plans.now)
        (bodies_of (program_of program.now) spreads.now wanted.now (map routine_of plans.now) modules) modules) }
{
    planned_are_routines();
    let mut modules = routine_modules(alloc, program, spreads, wanted, plans)?;
    if !has_idle(program) {
        return Ok(modules);
    }
    let idle = idle_module(alloc, program, spreads, wanted)?;
    modules.push(idle)?;
    Ok(modules)
}
