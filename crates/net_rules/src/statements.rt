// The rules of statements and of initial constants.

ghost use Rattle.std.specs.Prelude.{◌≡◌};
ghost use Rattle.verilog_tree.specs.Rules as rule;

use crate::expressions::{has_width, is_constant, is_signal};
use crate::format::values_in;
use crate::kinds::{has_word, memory_width, register_width};
use crate::names::Scope;
use verilog_tree::tree::{InitialConstant, Statement, WriteArgument};

fn arguments_right(scope: &Scope, arguments: &[WriteArgument]) -> bool
    ensures { result ≡ rule.all_right (rule.argument_right scope.now) arguments.now }
{
    for argument in arguments {
        match argument {
            WriteArgument::Unsigned(name) | WriteArgument::Signed(name) => {
                if !is_signal(scope, name) {
                    return false;
                }
            }
        }
    }
    true
}

#[cycle(right)]
#[tactic(auto, using(crate::proofs::Cases::right_set, crate::proofs::Cases::right_store, crate::proofs::Cases::right_write, crate::proofs::Cases::right_if))]
fn statement_right(scope: &Scope, statement: &Statement) -> bool
    ensures { result ≡ rule.statement_right scope.now statement.now }
{
    match statement {
        Statement::Set { register, source } => {
            has_width(scope, source, register_width(scope.kind(register)))
        }
        Statement::Store {
            memory,
            address,
            source,
        } => {
            is_signal(scope, address) && has_width(scope, source, memory_width(scope.kind(memory)))
        }
        Statement::If { condition, body } => {
            has_width(scope, condition, 1) && statements_right(scope, body.as_slice())
        }
        Statement::Write { text, arguments } => match values_in(text.as_str().as_bytes()) {
            None => false,
            Some(values) => {
                values == arguments.len() && arguments_right(scope, arguments.as_slice())
            }
        },
    }
}

/// Whether the names in the statements are of their kinds, and the widths agree.
#[cycle(right)]
pub fn statements_right(scope: &Scope, statements: &[Statement]) -> bool
    ensures { result ≡ rule.all_right (rule.statement_right scope.now) statements.now }
{
    for statement in statements {
        if !statement_right(scope, statement) {
            return false;
        }
    }
    true
}

fn constant_right(scope: &Scope, constant: &InitialConstant) -> bool
    ensures { result ≡ rule.initial_constant_right scope.now constant.now }
{
    let kind = scope.kind(&constant.name);
    match constant.word {
        None => {
            let wide = register_width(kind);
            wide > 0 && is_constant(constant.value, wide)
        }
        Some(word) => {
            let wide = memory_width(kind);
            wide > 0 && has_word(kind, word) && is_constant(constant.value, wide)
        }
    }
}

/// Whether each constant is for a register, or a word inside a memory, and of its width.
pub fn constants_right(scope: &Scope, constants: &[InitialConstant]) -> bool
    ensures { result ≡ rule.all_right (rule.initial_constant_right scope.now) constants.now }
{
    for constant in constants {
        if !constant_right(scope, constant) {
            return false;
        }
    }
    true
}
