// How many tokens the parts of a net have.

ghost use Rattle.std.specs.Prelude.{◌≡◌, ◌+◌, length, IfOk};
ghost use Rattle.verilog_tree.specs.Grammar as g;
ghost use Rattle.verilog_reader.specs.Before.{port_and_comma};

use std::alloc::AllocError;
use verilog_tree::tree::{Expression, InitialConstant, Item, Port, Statement, WriteArgument};

/// The sum, or want of memory where it does not fit, which comes of no text that fits.
pub(crate) fn sum(a: usize, b: usize) -> Result<usize, AllocError>
    ensures { IfOk result (λ n. n ≡ a + b) }
{
    a.checked_add(b).ok_or(AllocError)
}

fn of_range(high: Option<u64>) -> usize
    ensures { result ≡ length (g.range high) }
{
    match high {
        None => 0,
        Some(_) => 5,
    }
}

#[tactic(auto, using(crate::proofs::TokenCounts::concatenation_length))]
fn of_expression(value: &Expression) -> Result<usize, AllocError>
    ensures { IfOk result (λ n. n ≡ length (g.expression value.now)) }
{
    match value {
        Expression::Copy(_) => Ok(1),
        Expression::BitwiseNot(_) => Ok(2),
        Expression::Constant(_) | Expression::Binary { .. } => Ok(3),
        Expression::BitSelect { .. } => Ok(4),
        Expression::Conditional { .. } => Ok(5),
        Expression::PartSelect { .. } | Expression::ArithmeticShiftRight { .. } => Ok(6),
        Expression::SignedLess { .. } => Ok(9),
        Expression::Division { .. } => Ok(15),
        Expression::MemoryRead { .. } => Ok(16),
        Expression::SignedDivision { .. } => Ok(21),
        Expression::Concatenation(parts) => {
            let names = parts.len();
            sum(2, sum(names, names.saturating_sub(1))?)
        }
        Expression::Replication { .. } => Ok(6),
    }
}

/// The tokens of a port and a comma.
#[tactic(auto, using(crate::proofs::TokenCounts::port_length))]
fn of_port(port: &Port) -> usize
    ensures { result ≡ length (port_and_comma port.now) }
{
    4 + of_range(port.high)
}

/// The tokens of these ports, with a comma behind each.
pub(crate) fn of_ports(ports: &[Port]) -> Result<usize, AllocError>
    ensures { IfOk result (λ n. n ≡ length (g.all port_and_comma ports.now)) }
{
    let mut count = 0;
    for port in ports {
        count = sum(count, of_port(port))?;
    }
    Ok(count)
}

fn of_argument(argument: &WriteArgument) -> usize
    ensures { result ≡ length (g.argument argument.now) }
{
    match argument {
        WriteArgument::Unsigned(_) => 1,
        WriteArgument::Signed(_) => 4,
    }
}

fn of_arguments(arguments: &[WriteArgument]) -> Result<usize, AllocError>
    ensures { IfOk result (λ n. n ≡ length (g.more g.argument arguments.now)) }
{
    let mut count = 0;
    for argument in arguments {
        count = sum(count, 1 + of_argument(argument))?;
    }
    Ok(count)
}

#[cycle(counts)]
#[tactic(auto, using(crate::proofs::TokenCounts::set_length, crate::proofs::TokenCounts::store_length, crate::proofs::TokenCounts::if_length, crate::proofs::TokenCounts::write_length))]
fn of_statement(statement: &Statement) -> Result<usize, AllocError>
    ensures { IfOk result (λ n. n ≡ length (g.statement statement.now)) }
{
    match statement {
        Statement::Set { .. } => Ok(4),
        Statement::Store { .. } => Ok(7),
        Statement::If { condition: _, body } => sum(6, of_statements(body.as_slice())?),
        Statement::Write { text: _, arguments } => sum(5, of_arguments(arguments.as_slice())?),
    }
}

#[cycle(counts)]
fn of_statements(statements: &[Statement]) -> Result<usize, AllocError>
    ensures { IfOk result (λ n. n ≡ length (g.all g.statement statements.now)) }
{
    let mut count = 0;
    for statement in statements {
        count = sum(count, of_statement(statement)?)?;
    }
    Ok(count)
}

#[tactic(auto, using(crate::proofs::TokenCounts::initial_length))]
fn of_initial(constant: &InitialConstant) -> usize
    ensures { result ≡ length (g.initial_constant constant.now) }
{
    match constant.word {
        None => 6,
        Some(_) => 9,
    }
}

fn of_initials(constants: &[InitialConstant]) -> Result<usize, AllocError>
    ensures { IfOk result (λ n. n ≡ length (g.all g.initial_constant constants.now)) }
{
    let mut count = 0;
    for constant in constants {
        count = sum(count, of_initial(constant))?;
    }
    Ok(count)
}

#[tactic(auto, using(crate::proofs::TokenCounts::item_lengths))]
fn of_item(item: &Item) -> Result<usize, AllocError>
    ensures { IfOk result (λ n. n ≡ length (g.item item.now)) }
{
    match item {
        Item::Wire(x) => Ok(3 + of_range(x.high)),
        Item::Register(x) => Ok(3 + of_range(x.high)),
        Item::Memory(_) => Ok(13),
        Item::Assign(x) => sum(4, of_expression(&x.value)?),
        Item::Initial(x) => sum(3, of_initials(x.constants.as_slice())?),
        Item::Always(x) => sum(8, of_statements(x.body.as_slice())?),
        Item::Instance(x) => {
            // Each connection has five tokens, and there are commas between them.
            let connections = x.connections.len().checked_mul(6).ok_or(AllocError)?;
            sum(5, connections.saturating_sub(1))
        }
    }
}

/// The tokens of these items.
pub(crate) fn of_items(items: &[Item]) -> Result<usize, AllocError>
    ensures { IfOk result (λ n. n ≡ length (g.all g.item items.now)) }
{
    let mut count = 0;
    for item in items {
        count = sum(count, of_item(item)?)?;
    }
    Ok(count)
}
