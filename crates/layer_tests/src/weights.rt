// Texts whose weights are known, and the type of an operator.
use c_limits::bound;
use c_profile::accept;
use c_program::threads::{thread_count, thread_functions, weight};
use c_program::tree::{BinaryOperator, Expression, Program, Storage};
use c_program::types::expression_type;
use c_program::weight::{Amount, inlined_amounts};
use hls_ints::CType;
use std::alloc::{AllocError, Global};
use std::process::Abort;
use std::test::Fail;

/// A text and what is counted of its program.
struct Counted {
    text: &'static str,
    /// Of each function the weight, with what it calls.
    weights: &'static [u32],
    /// Of each function the elements of its locals, with those of what it calls.
    locals: &'static [u32],
    /// Main and the start routines, in the order of their definitions behind main.
    routines: &'static [usize],
    /// The sum of the weights of these.
    weight: u32,
    /// Main and the elements of the thread objects.
    threads: u128,
    /// 64 times the weight and 1.
    bound: u32,
}

const COUNTED: [Counted; 5] = [
    // f weighs 1, and 1 each for its return and its operator; w 1, and 1 for its return; main 1, and 1 each for the declarator,
    // the argument, the create and its index, and what f weighs; each has a parameter or a local, and main also that of f
    Counted {
        text: "pthread_t t[3]; int f(int x){return x < 1;} void *w(void *arg){return NULL;} int main(void){int x = f(x); pthread_create(&t[0], NULL, w, NULL);}",
        weights: &[3, 2, 8],
        locals: &[1, 1, 2],
        routines: &[2, 1],
        weight: 10,
        threads: 4,
        bound: 704,
    },
    Counted {
        text: "int main(void){int x = 6; x = x * 7; printf(\"%d\\n\", x); return 0;}",
        weights: &[6],
        locals: &[1],
        routines: &[0],
        weight: 6,
        threads: 1,
        bound: 448,
    },
    Counted {
        text: "int main(void){int i; for (i = 1; i < 4; i++) printf(\"%d\\n\", i); return 0;}",
        weights: &[9],
        locals: &[1],
        routines: &[0],
        weight: 9,
        threads: 1,
        bound: 640,
    },
    // f weighs 1, and 1 for its return; main 1, and 1 each for the declarator, the return, &&, ||, ?: and three indices, and four
    // times what f weighs
    Counted {
        text: "int f(void){return 1;} int a[2][2][2] = {{{1}, {2, 3}}}; int main(void){int x = f() && (f() ? f() : 2); return a[x][0][f() || 0];}",
        weights: &[2, 17],
        locals: &[0, 1],
        routines: &[1],
        weight: 17,
        threads: 1,
        bound: 1152,
    },
    // main weighs 1, and 1 each for both switches, the three labels, the empty statement, the break and the return
    Counted {
        text: "int main(void){switch (1) {} switch (2) {case 1: case 2: ; default: break;} return 0;}",
        weights: &[9],
        locals: &[0],
        routines: &[0],
        weight: 9,
        threads: 1,
        bound: 640,
    },
];

fn rows() -> &'static [Counted] {
    &COUNTED
}

fn has_amounts(
    alloc: Global,
    program: &Program,
    of: Amount,
    wanted: &[u32],
) -> Result<bool, AllocError> {
    let amounts = inlined_amounts(alloc, program, of)?;
    Ok(amounts.as_slice() == wanted)
}

fn has_routines(alloc: Global, program: &Program, wanted: &[usize]) -> Result<bool, AllocError> {
    let functions = thread_functions(alloc, program)?;
    Ok(functions.as_slice() == wanted)
}

fn has_counts(alloc: Global, program: &Program, wanted: &Counted) -> Result<bool, AllocError> {
    Ok(
        thread_count(program) == wanted.threads
            && weight(alloc, program)? == wanted.weight
            && bound(alloc, program)? == wanted.bound
            && has_amounts(alloc, program, Amount::Weight, wanted.weights)?
            && has_amounts(alloc, program, Amount::LocalElements, wanted.locals)?
            && has_routines(alloc, program, wanted.routines)?,
    )
}

fn is_counted(alloc: Global, row: &Counted) -> Result<bool, Fail> {
    let accepted = accept(alloc, row.text.as_bytes())?;
    let has_counts = has_counts(alloc, &accepted.program, row)?;
    Ok(has_counts)
}

#[test]
fn counts_each_text(rt: HostRuntime) -> Result<(), Fail> {
    for row in rows() {
        if !is_counted(rt.alloc(), row)? {
            rt.panic(row.text);
        }
    }
    Ok(())
}

/// The type of `x < 1`, of an int x.
fn type_of_comparison(alloc: Global) -> Result<CType, AllocError> {
    let x = Box::new(
        alloc,
        Expression::Variable(Storage::Automatic, 0, CType::INT),
    )?;
    let one = Box::new(alloc, Expression::Constant(CType::INT, 1))?;
    let below = Expression::Binary(BinaryOperator::Less, CType::INT, x, one);
    Ok(expression_type(&below))
}

#[test]
fn has_the_type_of_an_operator(rt: HostRuntime) -> Result<(), Fail> {
    assert!(rt; type_of_comparison(rt.alloc())? == CType::INT);
    Ok(())
}
