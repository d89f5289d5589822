// How many printf calls statements have, and how many words they need.

ghost use Rattle.std.specs.Prelude.{◌≡◌, ◌+◌, map, IfOk, IfErr};
ghost use Rattle.c_program.specs.Plain.{function_of, statement_of, thread_call_of};
ghost use Rattle.c_program.specs.Limits.{print_count};
ghost use Rattle.code_blocks.specs.Room.{IsFull};
ghost use Rattle.code_storage.specs.Values as values;

use c_program::tree::{Function, Statement, ThreadCall};
use code_blocks::fault::LoweringFault;

/// The sum, and `TooLarge` where it has no number of 32 bits.
pub fn sum_of(a: u32, b: u32) -> Result<u32, LoweringFault>
    ensures sum { IfOk result (λ n. n ≡ a + b) }
    ensures full { IfErr result (IsFull (a + b)) }
{
    a.checked_add(b).ok_or(LoweringFault::TooLarge)
}

/// The printf calls of a statement in the text come to those before it.
pub(crate) fn count_prints(statement: &Statement, before: u32) -> Result<u32, LoweringFault>
    ensures count { IfOk result (λ n. n ≡ before + print_count (statement_of statement.now)) }
    ensures full { IfErr result (IsFull (before + print_count (statement_of statement.now))) }
{
    let mut count = before;
    let mut rest = statement;
    while let Statement::Sequence(first, next) = rest {
        count = count_prints(first, count)?;
        rest = next;
    }
    match rest {
        Statement::Block(body) | Statement::While(_, body) | Statement::DoWhile(body, _) => {
            count_prints(body, count)
        }
        Statement::If(_, consequent, alternative) => {
            count_prints(alternative, count_prints(consequent, count)?)
        }
        Statement::For(first, _, last, body) => {
            let head = count_prints(last, count_prints(first, count)?)?;
            count_prints(body, head)
        }
        Statement::Switch(_, _, _, body) => count_prints(body, count),
        Statement::Print(_, _, _) => sum_of(count, 1),
        _ => Ok(count),
    }
}

/// How many printf calls a statement has in the text.
pub fn print_count(statement: &Statement) -> Result<u32, LoweringFault>
    ensures count { IfOk result (λ n. n ≡ print_count (statement_of statement.now)) }
    ensures full { IfErr result (IsFull (print_count (statement_of statement.now))) }
{
    count_prints(statement, 0)
}

/// The operands of a pthread call: the number of an object, and the argument of a create or the count of a barrier.
fn operand_count(call: &ThreadCall) -> usize
    ensures { result ≡ values.operand_count (thread_call_of call.now) }
{
    match call {
        ThreadCall::Create(_, _, _) | ThreadCall::BarrierInit(_, _) => 2,
        _ => 1,
    }
}

/// The most values that a printf of the statement has, or operands a pthread call, or 1 for a switch.
pub fn most_values(statement: &Statement) -> usize
    ensures { result ≡ values.most_values (statement_of statement.now) }
{
    let mut most = 0;
    let mut rest = statement;
    while let Statement::Sequence(first, next) = rest {
        most = most_values(first).max(most);
        rest = next;
    }
    let last = match rest {
        Statement::Block(body) | Statement::While(_, body) | Statement::DoWhile(body, _) => {
            most_values(body)
        }
        Statement::If(_, consequent, alternative) => {
            most_values(consequent).max(most_values(alternative))
        }
        Statement::For(first, _, last, body) => {
            let head = most_values(first).max(most_values(last));
            head.max(most_values(body))
        }
        Statement::Print(_, _, arguments) => arguments.len(),
        Statement::Switch(_, _, _, body) => most_values(body).max(1),
        Statement::Thread(_, call) => operand_count(call),
        _ => 0,
    };
    last.max(most)
}

/// The most that a function needs.
pub fn all_values(functions: &[Function]) -> usize
    ensures { result ≡ values.all_values (map function_of functions.now) }
{
    let [function, rest @ ..] = functions else {
        return 0;
    };
    most_values(&function.body).max(all_values(rest))
}
