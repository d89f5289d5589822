// The values that are used at a block's end.
ghost use Rattle.std.specs.Prelude.{◌≡◌, ◌||◌, length, IfOk};
ghost use Rattle.register_binding.specs.Used.{AreUsedAtEnd, IsMarked, is_value, any_final, next_uses};

use block_ir::block::{Block, Final, Next};
use block_ir::operand::{Operand, Source};
use std::alloc::{AllocError, Global};

/// For each operation of a block whether its value is used at the block's end: by what a variable gets, or by the branch.
/// The only error is want of memory.
pub fn used_at_end(alloc: Global, block: &Block) -> Result<Vec<bool>, AllocError>
    ensures { IfOk result (λ used. AreUsedAtEnd block.now used.items) }
{
    let mut used = vec![in alloc; false; block.operations.len()]?;
    mark_finals(&mut used, block.finals.as_slice());
    mark_next(&mut used, &block.next);
    Ok(used)
}

fn mark_finals(used: &mut Vec<bool>, finals: &[Final])
    ensures { IsMarked (any_final finals.now) used.old.items used.new.items }
{
    for finish in finals {
        mark(used, &finish.value);
    }
}

fn mark_next(used: &mut Vec<bool>, next: &Next)
    ensures { IsMarked (next_uses next.now) used.old.items used.new.items }
{
    match next {
        Next::Jump(_) => {}
        Next::Branch { test, .. } => mark(used, test),
    }
}

// Marks the value that an operand is, if it is that of an operation of the block.
fn mark(used: &mut Vec<bool>, operand: &Operand)
    ensures { IsMarked (is_value operand.now.source) used.old.items used.new.items }
{
    match operand.source {
        Source::Constant(_, _) => {}
        Source::Variable(_, _) => {}
        Source::Value(number, _) => {
            let number = number as usize;
            let end = used.len();
            if number < end {
                used[number] = true;
            }
        }
    }
}
