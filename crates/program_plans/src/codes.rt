// The codes of thread functions.

ghost use Rattle.std.specs.Prelude.{◌≡◌, ◌≤◌, Contains, None, IfOk};
ghost use Rattle.c_limits.specs.Counts.{first_passed};
ghost use Rattle.c_program.specs.Counting.{capped};
ghost use Rattle.c_program.specs.Plain.{program_of};
ghost use Rattle.c_program.specs.Resolved.{IsResolved};
ghost use Rattle.c_program.specs.Weight.{thread_functions, weight as weight_of};
ghost use Rattle.code_following.specs.Idle.{idle_stage, idle_count, operation_limit};
ghost use Rattle.code_following.specs.Typed.{IsThreadCode};
ghost use Rattle.code_merge.specs.Maximal.{IsMaximal};
ghost use Rattle.program_plans.specs.Steps.{AreCodes};

use block_ir::code::{Stage, ThreadCode};
use c_program::tree::Program;
use code_blocks::fault::LoweringFault;
use code_merge::{drop_empty, merge};
use ir_lower::functions::lower_function;
use sqlite_items::Items;
use std::alloc::{AllocError, Global};

/// The code of a thread function, as it is lowered.
fn lowered(alloc: Global, program: &Program, function: usize) -> Result<ThreadCode, AllocError>
    requires resolved { IsResolved (program_of program.now) }
    requires limits { first_passed (program_of program.now) ≡ None }
    requires runs { Contains (thread_functions (program_of program.now)) function }
    ensures { IfOk result (IsThreadCode (program_of program.now) function) }
{
    match lower_function(alloc, program, function) {
        Ok(code) => Ok(code),
        Err(LoweringFault::Memory) => Err(AllocError),
        // (within the limits no code is too large)
        Err(LoweringFault::TooLarge) => unreachable!(),
    }
}

/// 1 for a block without steps, 0 for any other stage.
fn idle(stage: &Stage) -> usize
    ensures value { result ≡ idle_stage stage.now }
    ensures one { result ≤ 1 }
{
    match stage {
        Stage::Run(block) if block.steps == 0 => 1,
        _ => 0,
    }
}

/// How many of the stages are blocks without steps.
fn count_idle(stages: &[Stage]) -> usize
    ensures { result ≡ idle_count stages.now }
{
    let mut count = 0;
    for stage in stages {
        count += idle(stage);
    }
    count
}

/// The most operations of a block of these stages, in a program of this weight.
fn most_operations(stages: &[Stage], weight: u32) -> usize
    ensures { result ≡ operation_limit weight stages.now }
{
    2 * (2 * weight as usize).saturating_sub(count_idle(stages))
}

/// The code of a thread function of a program of this weight, with maximal blocks: they have at most four operations for each unit
/// of the weight, but two fewer for each block without steps. What merging leaves of blocks that have become parts of others is dropped.
fn code(
    alloc: Global,
    program: &Program,
    function: usize,
    weight: u32,
) -> Result<ThreadCode, AllocError>
    requires resolved { IsResolved (program_of program.now) }
    requires limits { first_passed (program_of program.now) ≡ None }
    requires runs { Contains (thread_functions (program_of program.now)) function }
    requires weight { weight ≡ capped (weight_of (program_of program.now)) }
    ensures code { IfOk result (IsThreadCode (program_of program.now) function) }
    ensures maximal { IfOk result (λ c. IsMaximal (operation_limit weight c.stages) c) }
{
    let code = lowered(alloc, program, function)?;
    let most = most_operations(code.stages.as_slice(), weight);
    let merged = merge(alloc, code, most)?;
    drop_empty(alloc, merged)
}

/// The codes of the thread functions of a program of this weight, in their order, with maximal blocks.
pub fn codes(
    alloc: Global,
    program: &Program,
    functions: &[usize],
    weight: u32,
) -> Result<Items<ThreadCode>, AllocError>
    requires resolved { IsResolved (program_of program.now) }
    requires limits { first_passed (program_of program.now) ≡ None }
    requires threads { functions.now ≡ thread_functions (program_of program.now) }
    requires weight { weight ≡ capped (weight_of (program_of program.now)) }
    ensures { IfOk result (AreCodes (program_of program.now) functions.now) }
{
    let mut codes = Items::new(alloc);
    for function in functions {
        let code = code(alloc, program, *function, weight)?;
        codes.push(code)?;
    }
    Ok(codes)
}
