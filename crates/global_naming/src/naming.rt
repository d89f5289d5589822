// How many hardware threads name each global.
ghost use Rattle.std.specs.Prelude.{◌≡◌, [], ◌∷◌, ◌+◌, ◌++◌, ◌≤◌, length, map, sum_by, slice_get, IfOk};
ghost use Rattle.c_program.specs.Plain.{function_of, program_of};
ghost use Rattle.c_program.specs.Calls.{calls_of, IsAcyclic};
ghost use Rattle.c_program.specs.Counting.{capped};
ghost use Rattle.c_program.specs.Weight.{thread_count};
ghost use Rattle.c_call_graph.specs.Reaching.{IsReach};
ghost use Rattle.global_naming.specs.declared.naming.Runner.{Runner};
ghost use Rattle.global_naming.specs.Naming.{statement_globals, AreCounts};
ghost use Rattle.global_naming.specs.Tables.{call_from, calls_from, with_names, named_to, share, runner_of, all_runners};

use crate::names::push_globals;
use c_call_graph::{Call, Reach, reach_of};
use c_program::tree::{Function, Program};
use c_program::weight::{MOST, push_calls};
use std::alloc::{AllocError, Global};

/// Appends the calls of the function of a number.
fn push_calls_from(
    alloc: Global,
    caller: u32,
    function: &Function,
    calls: &mut Vec<Call>,
) -> Result<(), AllocError>
    ensures { IfOk result (λ _. calls.new.items ≡ calls.old.items ++ map (call_from caller) (calls_of (function_of function.now).body)) }
{
    let mut callees = Vec::new(alloc);
    push_calls(&function.body, &mut callees)?;
    for callee in &callees {
        calls.push(Call {
            caller,
            callee: *callee,
        })?;
    }
    Ok(())
}

/// Which functions run where a function does.
fn reach(alloc: Global, program: &Program) -> Result<Reach, AllocError>
    requires functions { length (program_of program.now).functions ≤ 4294967295 }
    ensures { IfOk result (λ r. let P = program_of program.now in IsReach (length P.functions) (calls_from P.functions) r.rows) }
{
    let mut calls = Vec::new(alloc);
    for (caller, function) in program.functions.iter().enumerate() {
        push_calls_from(alloc, caller as u32, function, &mut calls)?;
    }
    reach_of(alloc, program.functions.len(), &calls)
}

/// Marks the global of a number.
#[tactic(auto, using(crate::proofs::Marks::set_beyond))]
fn mark(marks: &mut Vec<bool>, global: u32)
    ensures { marks.new.items ≡ with_names (global ∷ []) marks.old.items }
{
    let global = global as usize;
    if global < marks.len() {
        marks[global] = true;
    }
}

/// Marks the globals that a function names.
fn mark_globals(alloc: Global, function: &Function, marks: &mut Vec<bool>) -> Result<(), AllocError>
    ensures { IfOk result (λ _. marks.new.items ≡ with_names (statement_globals (function_of function.now).body) marks.old.items) }
{
    let mut names = Vec::new(alloc);
    push_globals(&function.body, &mut names)?;
    for global in &names {
        mark(marks, *global);
    }
    Ok(())
}

/// For each global whether this function names it, or one that runs where it does.
fn named(
    alloc: Global,
    program: &Program,
    reach: &Reach,
    function: u32,
) -> Result<Vec<bool>, AllocError>
    ensures { IfOk result (λ v. let P = program_of program.now in v.items ≡ named_to P reach.now.rows function (length P.functions)) }
{
    let mut marks = vec![in alloc; false; program.globals.len()]?;
    for (callee, code) in program.functions.iter().enumerate() {
        if reach.leads(function as usize, callee) {
            mark_globals(alloc, code, &mut marks)?;
        }
    }
    Ok(marks)
}

/// So many hardware threads that run one function, and for each global whether they name it.
#[derive(Drop)]
struct Runner {
    threads: u64,
    named: Vec<bool>,
}

fn runners(alloc: Global, program: &Program, reach: &Reach) -> Result<Vec<Runner>, AllocError>
    ensures { IfOk result (λ v. let P = program_of program.now in map runner_of v.items ≡ all_runners P reach.now.rows) }
{
    let mut runners = Vec::new(alloc);
    let named_by_main = named(alloc, program, reach, program.main)?;
    runners.push(Runner {
        threads: 1,
        named: named_by_main,
    })?;
    for object in &program.threads {
        if let Some(routine) = object.routine {
            let named = named(alloc, program, reach, routine)?;
            runners.push(Runner {
                threads: object.length,
                named,
            })?;
        }
    }
    Ok(runners)
}

impl Runner {
    /// How many of its threads name the global.
    fn share(&self, global: usize) -> u64
        ensures { result ≡ share global (runner_of self.now) }
    {
        match self.named.get(global) {
            Some(true) => self.threads,
            _ => 0,
        }
    }
}

/// How many threads name the global, at most 1,000,000.
fn count(runners: &[Runner], global: usize) -> u64
    ensures { result ≡ capped (sum_by (share global) (map runner_of runners.now)) }
{
    let mut total: u64 = 0;
    for runner in runners {
        total = total
            .saturating_add(runner.share(global))
            .min(u64::from(MOST));
    }
    total
}

/// How many hardware threads name each global, in order of declaration, of a program of at most 1,000,000 threads and
/// 4,294,967,295 functions in which no call leads back to its caller.
pub fn naming_threads(alloc: Global, program: &Program) -> Result<Vec<u64>, AllocError>
    requires acyclic { IsAcyclic (program_of program.now).functions }
    requires functions { length (program_of program.now).functions ≤ 4294967295 }
    requires threads { thread_count (program_of program.now) ≤ 1000000 }
    ensures { IfOk result (λ v. AreCounts (program_of program.now) v.items) }
{
    let reach = reach(alloc, program)?;
    let runners = runners(alloc, program, &reach)?;
    let mut counts = Vec::new(alloc);
    for global in 0..program.globals.len() {
        counts.push(count(&runners, global))?;
    }
    Ok(counts)
}
