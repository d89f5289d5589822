// What is counted of a program: the functions that threads run, its weight, and the first count that is above its limit.

ghost use Rattle.std.specs.Prelude.{◌≡◌, ◌+◌, ◌++◌, IfOk, length, sum_by, map, filter, nat_lt};
ghost use Rattle.std.specs.Option.{option_or};
ghost use Rattle.c_program.specs.Plain.{program_of, statement_of, function_of, global_of};
ghost use Rattle.c_program.specs.Limits.{thread_ids, mutex_elements, barrier_elements, global_elements, greatest, longest_local, longest_array, print_count, print_sites};
ghost use Rattle.c_program.specs.Counting.{capped, number_at, IsTable};
ghost use Rattle.c_program.specs.Weight.{own_weight, thread_functions, weight};
ghost use Rattle.c_limits.specs.Counts.{length_of, over, over_objects, over_data, over_each, over_inlined, in_order, first_passed};

use crate::limit::{Limit, Passed};
use c_program::threads::{thread_functions, total};
use c_program::tree::{
    BarrierObject, Function, GlobalVariable, MutexObject, Program, Statement, ThreadObject,
};
use c_program::weight::{Amount, MOST, inlined_amounts};
use std::alloc::{AllocError, Global};

/// The limit, where the count is above it.
#[tactic(auto, unfolding(crate::specs::Counts::over))]
fn over(limit: Limit, count: u128) -> Option<Passed>
    ensures { result ≡ over limit count }
{
    if count > u128::from(limit.most()) {
        Some(Passed { limit, count })
    } else {
        None
    }
}

fn thread_ids(threads: &[ThreadObject]) -> u128
    ensures { result ≡ sum_by (λ object. object.length) threads.now }
{
    let mut total = 0u128;
    for object in threads {
        total += u128::from(object.length);
    }
    total
}

fn mutex_elements(mutexes: &[MutexObject]) -> u128
    ensures { result ≡ sum_by (λ object. object.length) mutexes.now }
{
    let mut total = 0u128;
    for object in mutexes {
        total += u128::from(object.length);
    }
    total
}

fn barrier_elements(barriers: &[BarrierObject]) -> u128
    ensures { result ≡ sum_by (λ object. object.length) barriers.now }
{
    let mut total = 0u128;
    for object in barriers {
        total += u128::from(object.length);
    }
    total
}

fn global_elements(globals: &[GlobalVariable]) -> u128
    ensures { result ≡ sum_by (λ g. g.length) (map global_of globals.now) }
{
    let mut total = 0u128;
    for global in globals {
        total += u128::from(global.length);
    }
    total
}

#[tactic(auto, unfolding(crate::specs::Counts::length_of))]
fn length_of(global: &GlobalVariable) -> u64
    ensures { result ≡ length_of (global_of global.now) }
{
    global.length
}

fn longest_global(globals: &[GlobalVariable]) -> u64
    ensures { result ≡ greatest length_of (map global_of globals.now) }
{
    let mut longest = 0;
    for global in globals {
        longest = length_of(global).max(longest);
    }
    longest
}

fn longest_local(function: &Function) -> u64
    ensures { result ≡ longest_local (function_of function.now) }
{
    let mut longest = 0;
    for local in &function.locals {
        longest = local.length.max(longest);
    }
    longest
}

fn longest_local_of_all(functions: &[Function]) -> u64
    ensures { result ≡ greatest longest_local (map function_of functions.now) }
{
    let mut longest = 0;
    for function in functions {
        longest = longest_local(function).max(longest);
    }
    longest
}

/// The sum, which stops at 1,000,000.
fn plus(a: u32, b: u32) -> u32
    ensures { result ≡ capped (a + b) }
{
    a.saturating_add(b).min(MOST)
}

/// How many printf calls the statement has; it stops at 1,000,000.
fn print_count(statement: &Statement) -> u32
    ensures { result ≡ capped (print_count (statement_of statement.now)) }
{
    match statement {
        Statement::Print(_, _, _) => 1,
        Statement::Sequence(first, rest) => plus(print_count(first), print_count(rest)),
        Statement::Block(body)
        | Statement::While(_, body)
        | Statement::DoWhile(body, _)
        | Statement::Switch(_, _, _, body) => print_count(body),
        Statement::If(_, consequent, alternative) => {
            plus(print_count(consequent), print_count(alternative))
        }
        Statement::For(first, _, last, body) => plus(
            print_count(first),
            plus(print_count(last), print_count(body)),
        ),
        _ => 0,
    }
}

/// How many printf calls the functions have; it stops at 1,000,000.
fn print_sites(functions: &[Function]) -> u32
    ensures { result ≡ capped (sum_by (λ f. print_count f.body) (map function_of functions.now)) }
{
    let mut total = 0;
    for function in functions {
        total = plus(total, print_count(&function.body));
    }
    total
}

/// The first that is there.
fn first_of(a: Option<Passed>, b: Option<Passed>) -> Option<Passed>
    ensures { result ≡ option_or a b }
{
    match a {
        Some(passed) => Some(passed),
        None => b,
    }
}

/// The first of the functions whose amount is above the limit.
fn over_each(limit: Limit, table: &[u32], functions: &[usize]) -> Option<Passed>
    ensures { result ≡ over_each limit (number_at table.now) functions.now }
{
    match functions {
        [] => None,
        [f, rest @ ..] => {
            let amount = table.get(*f).copied().unwrap_or(0);
            let passed = over(limit, u128::from(amount));
            first_of(passed, over_each(limit, table, rest))
        }
    }
}

/// The first count of the program's objects that is above its limit.
fn over_objects(program: &Program) -> Option<Passed>
    ensures { result ≡ over_objects (program_of program.now) }
{
    let functions = over(Limit::Functions, program.functions.as_slice().len() as u128);
    let threads = over(Limit::ThreadIds, thread_ids(&program.threads));
    let mutexes = over(Limit::MutexElements, mutex_elements(&program.mutexes));
    let barriers = over(Limit::BarrierElements, barrier_elements(&program.barriers));
    first_of(functions, first_of(threads, first_of(mutexes, barriers)))
}

/// The first count of the program's integers and printf calls that is above its limit.
fn over_data(program: &Program) -> Option<Passed>
    ensures { result ≡ over_data (program_of program.now) }
{
    let longest = longest_global(&program.globals).max(longest_local_of_all(&program.functions));
    let arrays = over(Limit::OneArray, u128::from(longest));
    let globals = over(Limit::GlobalElements, global_elements(&program.globals));
    let sites = over(
        Limit::PrintSites,
        u128::from(print_sites(&program.functions)),
    );
    first_of(arrays, first_of(globals, sites))
}

fn push_below(bound: usize, functions: &[usize], ordered: &mut Vec<usize>) -> Result<(), AllocError>
    ensures { IfOk result (λ _. ordered.new.items ≡ ordered.old.items ++ filter (λ f. nat_lt f bound) functions.now) }
{
    for f in functions {
        if *f < bound {
            ordered.push(*f)?;
        }
    }
    Ok(())
}

fn push_above(bound: usize, functions: &[usize], ordered: &mut Vec<usize>) -> Result<(), AllocError>
    ensures { IfOk result (λ _. ordered.new.items ≡ ordered.old.items ++ filter (λ f. nat_lt bound f) functions.now) }
{
    for f in functions {
        if bound < *f {
            ordered.push(*f)?;
        }
    }
    Ok(())
}

/// Main among the start routines, in order of definition.
fn in_order(alloc: Global, main: usize, functions: &[usize]) -> Result<Vec<usize>, AllocError>
    ensures { IfOk result (λ v. v.items ≡ in_order main functions.now) }
{
    let mut ordered = Vec::new(alloc);
    push_below(main, functions, &mut ordered)?;
    ordered.push(main)?;
    push_above(main, functions, &mut ordered)?;
    Ok(ordered)
}

/// The first of the thread functions, in order of definition, that is above a limit with all that is inlined in it.
fn over_inlined(
    alloc: Global,
    program: &Program,
    threads: &[usize],
    weights: &[u32],
) -> Result<Option<Passed>, AllocError>
    requires threads { threads.now ≡ thread_functions (program_of program.now) }
    requires weights { let P = program_of program.now in IsTable own_weight P.functions (length P.functions) weights.now }
    ensures { IfOk result (λ passed. passed ≡ over_inlined (program_of program.now)) }
{
    let functions = in_order(alloc, program.main as usize, threads)?;
    let elements = inlined_amounts(alloc, program, Amount::LocalElements)?;
    let of_elements = over_each(Limit::LocalElements, &elements, &functions);
    Ok(first_of(of_elements, over_each(Limit::Weight, weights, &functions)))
}

/// What is counted of a program before it is compiled.
#[derive(Drop)]
pub struct Measures {
    /// The functions that threads run: main, and each start routine that a create names, in the order of their definitions.
    pub functions: Vec<usize>,
    /// The weight, which bounds the cycles between two steps of the program. It stops at 1,000,000.
    pub weight: u32,
    /// The first count, in the order of the limits, that is above its limit. Of several thread functions that are above one,
    /// the first in order of definition is told.
    pub first_passed: Option<Passed>,
}

/// The measures of a program. The only error is want of memory.
pub fn measure(alloc: Global, program: &Program) -> Result<Measures, AllocError>
    ensures functions { IfOk result (λ m. m.functions.items ≡ thread_functions (program_of program.now)) }
    ensures weight { IfOk result (λ m. m.weight ≡ capped (weight (program_of program.now))) }
    ensures passed { IfOk result (λ m. m.first_passed ≡ first_passed (program_of program.now)) }
{
    let functions = thread_functions(alloc, program)?;
    let weights = inlined_amounts(alloc, program, Amount::Weight)?;
    let inlined = over_inlined(alloc, program, &functions, &weights)?;
    let first_passed = first_of(over_objects(program), first_of(over_data(program), inlined));
    let weight = total(&weights, &functions);
    Ok(Measures {
        functions,
        weight,
        first_passed,
    })
}
