// How long operations work.

ghost use Rattle.std.specs.Prelude.{◌≡◌, ◌≤◌, suc, ℤ};
ghost use Rattle.planned_block.specs.Plan.{further_states};
ghost use Rattle.thread_promise.specs.View.{operation_view, binary_kind};

use block_ir::block::Operation;
use c_program::tree::BinaryOperator;

/// In how many states an operation works after its first one: 7 for a quotient or a remainder, 1 for a product and for a
/// read of a global, and 0 for all else.
pub fn further_states(operation: &Operation) -> u64
    ensures value { result ≡ further_states (operation_view operation.now).kind }
    ensures most { result ≤ 7 }
{
    match operation {
        Operation::Binary { operator, .. } => further_states_of_operator(*operator),
        Operation::ReadGlobal { .. } => 1,
        _ => 0,
    }
}

fn further_states_of_operator(operator: BinaryOperator) -> u64
    ensures value { (f : ℤ → ℤ → ℤ) → result ≡ further_states (binary_kind operator f) }
    ensures most { result ≤ 7 }
{
    match operator {
        BinaryOperator::Multiply => 1,
        BinaryOperator::Divide => 7,
        BinaryOperator::Remainder => 7,
        _ => 0,
    }
}
