// The new numbers of stages.

ghost use Rattle.std.specs.Prelude.{◌≡◌, IfOk};
ghost use Rattle.code_merge.specs.Dropping as steps;
ghost use Rattle.code_merge.specs.Used as spec;

use block_ir::block::{Block, Next};
use block_ir::code::Stage;
use sqlite_items::Items;
use std::alloc::{AllocError, Global};

/// For each old stage its new number, and how many new ones there are.
#[derive(Drop)]
pub struct Numbers {
    pub of: Items<usize>,
    pub count: usize,
}

pub fn numbers_of(alloc: Global, used: &[bool]) -> Result<Numbers, AllocError>
    ensures { IfOk result (steps.AreNumbers used.now) }
{
    let mut of = Items::new(alloc);
    let mut count = 0;
    for used in used {
        of.push(count)?;
        if *used {
            count += 1;
        }
    }
    Ok(Numbers { of, count })
}

impl Numbers {
    fn number(&self, stage: usize) -> usize
        ensures { result ≡ steps.number_in self.now stage }
    {
        match self.of.get(stage) {
            Some(number) => *number,
            None => self.count,
        }
    }

    fn renumber_next(&self, next: Next) -> Next
        ensures { result ≡ spec.next_renumbered (steps.number_in self.now) next }
    {
        match next {
            Next::Jump(stage) => Next::Jump(self.number(stage)),
            Next::Branch {
                test,
                nonzero,
                zero,
            } => Next::Branch {
                test,
                nonzero: self.number(nonzero),
                zero: self.number(zero),
            },
        }
    }

    /// The stage, which leads to the new numbers.
    pub fn renumber(&self, stage: Stage) -> Stage
        ensures { result ≡ spec.renumbered (steps.number_in self.now) stage }
    {
        match stage {
            Stage::Act { act, next } => Stage::Act {
                act,
                next: self.number(next),
            },
            Stage::Run(block) => {
                let Block {
                    operations,
                    finals,
                    next,
                    steps,
                } = block;
                Stage::Run(Block {
                    operations,
                    finals,
                    next: self.renumber_next(next),
                    steps,
                })
            }
        }
    }
}
