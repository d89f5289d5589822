// Statements one after another.

ghost use Rattle.std.specs.Prelude.{◌≡◌, map, IfOk};
ghost use Rattle.c_program.specs.Plain.{boxed_statement_of, statement_of};
ghost use Rattle.c_expressions.specs.Sequences as spec;

use c_program::tree as resolved;
use std::alloc::{AllocError, Global};

/// Some statements with one that waits for its neighbour.
#[derive(Drop)]
struct Joined {
    done: Vec<Box<resolved::Statement>>,
    waiting: Option<Box<resolved::Statement>>,
}

impl Joined {
    ghost use Rattle.c_expressions.specs.Joined.{joined_of};

    /// The next statement joins the one that waits, or waits.
    fn add(self, alloc: Global, next: Box<resolved::Statement>) -> Result<Joined, AllocError>
        ensures { IfOk result (λ j. joined_of j ≡ spec.with_next (joined_of self) (boxed_statement_of next)) }
    {
        let Joined { mut done, waiting } = self;
        match waiting {
            None => Ok(Joined {
                done,
                waiting: Some(next),
            }),
            Some(first) => {
                let both = resolved::Statement::Sequence(first, next).boxed(alloc)?;
                done.push(both)?;
                Ok(Joined {
                    done,
                    waiting: None,
                })
            }
        }
    }

    fn finish(self) -> Result<Vec<Box<resolved::Statement>>, AllocError>
        ensures { IfOk result (λ v. map boxed_statement_of v.items ≡ spec.all_joined (joined_of self)) }
    {
        let Joined { mut done, waiting } = self;
        match waiting {
            None => Ok(done),
            Some(last) => {
                done.push(last)?;
                Ok(done)
            }
        }
    }
}

/// Each two neighbours joined, if there are two.
fn halved(
    alloc: Global,
    steps: Vec<Box<resolved::Statement>>,
) -> Result<Vec<Box<resolved::Statement>>, AllocError>
    ensures { IfOk result (λ v. map boxed_statement_of v.items ≡ spec.halved (map boxed_statement_of steps.items)) }
{
    if steps.len() <= 1 {
        return Ok(steps);
    }
    let mut joined = Joined {
        done: Vec::new(alloc),
        waiting: None,
    };
    for step in steps {
        joined = joined.add(alloc, step)?;
    }
    joined.finish()
}

/// The statement of a list of one, and none of an empty list.
fn only(
    alloc: Global,
    mut steps: Vec<Box<resolved::Statement>>,
) -> Result<Box<resolved::Statement>, AllocError>
    ensures { IfOk result (λ s. boxed_statement_of s ≡ spec.only (map boxed_statement_of steps.items)) }
{
    match steps.pop() {
        Some(last) => Ok(last),
        None => resolved::Statement::Done.boxed(alloc),
    }
}

/// The statements one after another. Neighbours are joined, and those joined, until one is left: so a program is not
/// much deeper than its text is nested.
#[tactic(auto, unfolding(crate::specs::Sequences::sequence))]
pub fn sequence(
    alloc: Global,
    steps: Vec<Box<resolved::Statement>>,
) -> Result<Box<resolved::Statement>, AllocError>
    ensures { IfOk result (λ s. boxed_statement_of s ≡ spec.sequence (map boxed_statement_of steps.items)) }
{
    let rounds = steps.len();
    let mut left = steps;
    for _round in 0..rounds {
        left = halved(alloc, left)?;
    }
    only(alloc, left)
}

/// A statement behind the cuts of its values, if there are any.
pub fn behind_cuts(
    alloc: Global,
    before: Vec<Box<resolved::Statement>>,
    last: resolved::Statement,
) -> Result<Box<resolved::Statement>, AllocError>
    ensures { IfOk result (λ s. boxed_statement_of s ≡ spec.behind_cuts (map boxed_statement_of before.items) (statement_of last)) }
{
    let last = last.boxed(alloc)?;
    if before.is_empty() {
        return Ok(last);
    }
    let mut steps = before;
    steps.push(last)?;
    sequence(alloc, steps)
}
