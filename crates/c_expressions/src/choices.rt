// Conditionals and conditions by their parts (C99 6.5.13 to 6.5.15).

ghost use Rattle.std.specs.Prelude.{◌≡◌, IfOk};
ghost use Rattle.std.specs.List.{list_all};
ghost use Rattle.c_program.specs.Plain.{boxed_statement_of, expression_of};
ghost use Rattle.c_tree.specs.declared.expression.Term.{out-Term};
ghost use Rattle.c_expressions.specs.Chosen.{chosen_of};
ghost use Rattle.c_expressions.specs.Cuts.{cut, cuts_of};
ghost use Rattle.c_expressions.specs.Expressions as spec;

use crate::cuts::Cuts;
use crate::sequences::behind_cuts;
use c_program::tree as resolved;
use c_program::types::expression_type;
use c_tree::{BinaryOperator, Term};
use hls_ints::{CType, usual};
use std::alloc::{AllocError, Global};

/// An operand of a conditional.
#[derive(Drop)]
pub struct Chosen {
    /// Of its first byte.
    pub offset: u32,
    /// Its cuts.
    pub before: Vec<Box<resolved::Statement>>,
    /// What is left of it.
    pub rest: Box<resolved::Expression>,
}

impl Chosen {
    /// The operand whose first byte is at the place, with its cuts and what is left of it.
    pub fn new(
        alloc: Global,
        offset: u32,
        cuts: Cuts,
        rest: resolved::Expression,
    ) -> Result<Chosen, AllocError>
        ensures { IfOk result (λ x. chosen_of x ≡ spec.chosen offset (cut (cuts_of cuts) (expression_of rest))) }
    {
        let rest = Box::new(alloc, rest)?;
        Ok(Chosen {
            offset,
            before: cuts.before,
            rest,
        })
    }
}

/// An operand of a condition, whose first byte is at the place.
pub fn test(
    alloc: Global,
    offset: u32,
    cuts: Cuts,
    rest: resolved::Expression,
) -> Result<Box<resolved::Statement>, AllocError>
    ensures { IfOk result (λ s. boxed_statement_of s ≡ spec.test (spec.chosen offset (cut (cuts_of cuts) (expression_of rest)))) }
{
    let rest = Box::new(alloc, rest)?;
    behind_cuts(alloc, cuts.before, resolved::Statement::Test(offset, rest))
}

/// An operand that is chosen, converted to the type and kept.
fn keep(
    alloc: Global,
    slot: u32,
    ty: CType,
    operand: Chosen,
) -> Result<Box<resolved::Statement>, AllocError>
    ensures { IfOk result (λ s. boxed_statement_of s ≡ spec.keep slot ty (chosen_of operand)) }
{
    let last = resolved::Statement::Keep(operand.offset, slot, ty, operand.rest);
    behind_cuts(alloc, operand.before, last)
}

/// A conditional that begins at the place, whose value the local keeps, as an operand of the next one.
pub fn conditional(
    alloc: Global,
    slot: u32,
    offset: u32,
    condition: Box<resolved::Statement>,
    first: Chosen,
    second: Chosen,
) -> Result<Chosen, AllocError>
    ensures { IfOk result (λ c. chosen_of c ≡ spec.conditional slot offset (boxed_statement_of condition) (chosen_of first) (chosen_of second)) }
{
    let ty = usual(expression_type(&first.rest), expression_type(&second.rest));
    let first = keep(alloc, slot, ty, first)?;
    let second = keep(alloc, slot, ty, second)?;
    let whole = resolved::Statement::If(condition, first, second).boxed(alloc)?;
    let rest = Box::new(alloc, resolved::Expression::Kept(slot, ty))?;
    let mut before = Vec::new(alloc);
    before.push(whole)?;
    Ok(Chosen {
        offset,
        before,
        rest,
    })
}

fn is_short_circuit(operator: BinaryOperator) -> bool
    ensures { result ≡ spec.is_short_circuit operator }
{
    matches!(
        operator,
        BinaryOperator::LogicalOr | BinaryOperator::LogicalAnd
    )
}

/// Whether the operators are short circuits.
pub fn are_short_circuits(terms: &[Term]) -> bool
    ensures { result ≡ list_all (λ t. spec.is_short_circuit (out-Term t).operator) terms.now }
{
    terms.iter().all(|term| is_short_circuit(term.operator))
}

/// A short circuit between two conditions.
pub fn joined(
    alloc: Global,
    operator: BinaryOperator,
    first: Box<resolved::Statement>,
    second: Box<resolved::Statement>,
) -> Result<Box<resolved::Statement>, AllocError>
    ensures { IfOk result (λ c. boxed_statement_of c ≡ spec.joined operator (boxed_statement_of first) (boxed_statement_of second)) }
{
    match operator {
        BinaryOperator::LogicalOr => resolved::Statement::Either(first, second).boxed(alloc),
        _ => resolved::Statement::Both(first, second).boxed(alloc),
    }
}
