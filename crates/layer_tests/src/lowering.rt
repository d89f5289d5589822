// Small texts and the codes of their thread functions.
ghost use Rattle.std.specs.Prelude.{◌≡◌, IfOk};
ghost use Rattle.c_program.specs.Plain.{program_of};
ghost use Rattle.c_program.specs.Resolved.{IsResolved};
ghost use Rattle.c_program.specs.Weight.{thread_functions};

use block_ir::block::Next;
use block_ir::code::{Act, Stage, ThreadCode};
use c_profile::{Accepted, ProfileError, accept};
use c_program::threads::thread_functions;
use c_program::tree::Program;
use hls_ints::CType;
use ir_lower::functions::lower_function;
use sqlite_items::Items;
use std::alloc::{AllocError, Global};
use std::process::Abort;
use std::test::Fail;

/// Where a stage leads, the second label of a branch too, and its steps. An act has 0, and a return leads to 0.
pub(crate) type Shape = [usize; 3];

/// A thread function of a text, and its code.
struct Lowered {
    text: &'static str,
    /// How many thread functions the text has.
    functions: usize,
    /// The number of this one; main is 0.
    number: usize,
    /// The widths of the variables, which are signed: of each function the scalar locals and what keeps values, and behind them the
    /// words that hold the values of a printf, the operands of a pthread call or what is switched, as many as any function needs.
    widths: &'static [u32],
    shapes: &'static [Shape],
}

/// A thread that main creates and joins.
const CREATING: &str =
    "pthread_t t; void *w(void *arg){return NULL;} int main(void){pthread_create(&t, NULL, w, NULL); pthread_join(t, NULL); return 0;}";

const LOWERED: [Lowered; 9] = [
    // the declarator, both assignments and the values of the printf are one block
    Lowered {
        text: "int main(void){int x; x = 6; x = x * 7; printf(\"%d\", x); return 0;}",
        functions: 1,
        number: 0,
        widths: &[32, 64],
        shapes: &[[1, 1, 4], [2, 2, 0], [0, 0, 0]],
    },
    // the blocks of the declarator and the first assignment, of the head, of the if, of the printf with its act, and of the
    // last part
    Lowered {
        text: "int main(void){int x; for (x = 1; x < 4; x = x + 1){if (x < 3) continue; printf(\"%d\", x);}}",
        functions: 1,
        number: 0,
        widths: &[32, 64],
        shapes: &[
            [1, 1, 2],
            [2, 6, 1],
            [5, 3, 1],
            [4, 4, 1],
            [5, 5, 0],
            [1, 1, 1],
            [0, 0, 0],
        ],
    },
    // the steps that pass the argument and return are in one block; the next stores the value
    Lowered {
        text: "int f(int x){return x * 7;} int main(void){int x; x = f(6); return 0;}",
        functions: 1,
        number: 0,
        widths: &[32, 32, 64],
        shapes: &[[1, 1, 3], [2, 2, 1], [0, 0, 0]],
    },
    // the step that evaluates the operands of each call, and its act
    Lowered {
        text: CREATING,
        functions: 2,
        number: 0,
        widths: &[64, 64],
        shapes: &[[1, 1, 1], [2, 2, 0], [3, 3, 1], [4, 4, 0], [0, 0, 0]],
    },
    // the start routine returns at once, and has its argument in its only local
    Lowered {
        text: CREATING,
        functions: 2,
        number: 1,
        widths: &[64, 64, 64],
        shapes: &[[0, 0, 0]],
    },
    // the block of the switch has the comparison with the first case, and one that takes no step that with the second
    Lowered {
        text: "int main(void){int x = 2; switch (x) {case 1: x = 5; break; case 2: x = 6;} return 0;}",
        functions: 1,
        number: 0,
        widths: &[32, 64],
        shapes: &[[2, 1, 2], [3, 4, 0], [4, 4, 1], [4, 4, 1], [0, 0, 0]],
    },
    // the operand, each choice, and the assignment of what is kept
    Lowered {
        text: "int main(void){int x = 1; x = x ? 2 : 3; return 0;}",
        functions: 1,
        number: 0,
        widths: &[32, 64],
        shapes: &[[1, 2, 2], [3, 3, 1], [3, 3, 1], [4, 4, 1], [0, 0, 0]],
    },
    // the operand that decides keeps the truth, and no block does so besides
    Lowered {
        text: "int main(void){int x = 1; x = x && x; return 0;}",
        functions: 1,
        number: 0,
        widths: &[32, 64],
        shapes: &[[1, 2, 2], [2, 2, 1], [3, 3, 1], [0, 0, 0]],
    },
    // each call ends a block by its return; what main returns is not computed
    Lowered {
        text: "int f(int x){return x * 7;} int main(void){return f(2) + f(3);}",
        functions: 1,
        number: 0,
        widths: &[32, 64, 64],
        shapes: &[[1, 1, 2], [2, 2, 2], [0, 0, 0]],
    },
];

fn rows() -> &'static [Lowered] {
    &LOWERED
}

fn shape(stage: &Stage) -> Shape {
    match stage {
        Stage::Run(block) => match &block.next {
            Next::Jump(to) => [*to, *to, block.steps as usize],
            Next::Branch {
                test: _,
                nonzero,
                zero,
            } => [*nonzero, *zero, block.steps as usize],
        },
        Stage::Act { act, next } => match act {
            Act::Return => [0, 0, 0],
            _ => [*next, *next, 0],
        },
    }
}

fn has_shapes(stages: &[Stage], wanted: &[Shape]) -> bool {
    for index in 0..stages.len() {
        match wanted.get(index) {
            Some(wanted) if shape(&stages[index]).as_slice() == wanted.as_slice() => {}
            _ => return false,
        }
    }
    stages.len() == wanted.len()
}

fn has_widths(types: &[CType], wanted: &[u32]) -> bool {
    for index in 0..types.len() {
        let ty = types[index];
        match wanted.get(index) {
            Some(width) if ty.bits() == *width && ty.is_signed() => {}
            _ => return false,
        }
    }
    types.len() == wanted.len()
}

/// Whether the code of that number has these variables and stages. That of main has no argument, and that of each other
/// thread function has it in the first variable.
pub(crate) fn is_code(code: &ThreadCode, number: usize, widths: &[u32], shapes: &[Shape]) -> bool {
    let argument = if number == 0 { None } else { Some(0) };
    code.argument == argument
        && has_widths(code.variables.as_slice(), widths)
        && has_shapes(code.stages.as_slice(), shapes)
}

/// The program of a text.
fn resolved(alloc: Global, text: &[u8]) -> Result<Accepted, ProfileError>
    ensures { IfOk result (λ a. IsResolved (program_of a.program)) }
{
    let accepted = accept(alloc, text)?;
    Ok(accepted)
}

/// The codes of these thread functions.
fn lower_each(
    alloc: Global,
    program: &Program,
    functions: &[usize],
) -> Result<Items<ThreadCode>, Fail>
    requires resolved { IsResolved (program_of program.now) }
    requires threads { functions.now ≡ thread_functions (program_of program.now) }
{
    let mut codes = Items::new(alloc);
    for function in functions {
        codes.push(lower_function(alloc, program, *function)?)?;
    }
    Ok(codes)
}

/// The codes of the thread functions of a text, that of main first.
fn codes_of(alloc: Global, text: &[u8]) -> Result<Items<ThreadCode>, Fail> {
    let accepted = resolved(alloc, text)?;
    let functions = thread_functions(alloc, &accepted.program)?;
    lower_each(alloc, &accepted.program, &functions)
}

fn is_lowered(alloc: Global, row: &Lowered) -> Result<bool, Fail> {
    let codes = codes_of(alloc, row.text.as_bytes())?;
    Ok(match codes.get(row.number) {
        Some(code) => {
            codes.len() == row.functions && is_code(code, row.number, row.widths, row.shapes)
        }
        None => false,
    })
}

#[test]
fn lowers_each_text(rt: HostRuntime) -> Result<(), Fail> {
    for row in rows() {
        if !is_lowered(rt.alloc(), row)? {
            rt.panic(row.text);
        }
    }
    Ok(())
}

/// `x = 6;` so many times.
fn long(alloc: Global, count: u32) -> Result<Vec<u8>, AllocError> {
    let mut text = b"int main(void){int x;".to_vec(alloc)?;
    for _ in 0..count {
        text.extend_from_slice(b"x = 6;")?;
    }
    text.extend_from_slice(b"}")?;
    Ok(text)
}

/// Whether a long body is one block and a return.
fn is_one_block(alloc: Global) -> Result<bool, Fail> {
    let text = long(alloc, 4000)?;
    let codes = codes_of(alloc, text.as_slice())?;
    Ok(match codes.get(0) {
        Some(code) => is_code(code, 0, &[32], &[[1, 1, 4001], [0, 0, 0]]),
        None => false,
    })
}

/// No stack is exhausted.
#[test]
fn lowers_a_long_body(rt: HostRuntime) -> Result<(), Fail> {
    assert!(rt; is_one_block(rt.alloc())?);
    Ok(())
}
