// Ranges, constants and the right sides of assigns.

ghost use Rattle.grammar.specs.Steps.{Steps};
ghost use Rattle.verilog_rules.specs.Reading as spec;

use crate::cursor::Cursor;
use grammar::Fault;
use sqlite_items::Items;
use std::alloc::Global;
use verilog_rules::sign::Sign;
use verilog_tree::name::Identifier;
use verilog_tree::token::Mark;
use verilog_tree::tree::{Constant, Expression};

/// Reads `[high:0]` where a bracket is next, and gives `high`.
#[tactic(auto, unfolding(verilog_rules::specs::Reading::read_optional_range, verilog_rules::specs::Reading::read_range))]
pub fn optional_range(cursor: &mut Cursor<'_>) -> Result<Option<u64>, Fault>
    ensures { Steps (spec.read_optional_range cursor.old) result cursor.new }
{
    if !cursor.takes_mark(Mark::OpenSquare) {
        return Ok(None);
    }
    let high = cursor.number()?;
    cursor.mark(Mark::Colon)?;
    cursor.expect(Sign::Zero)?;
    cursor.mark(Mark::CloseSquare)?;
    Ok(Some(high))
}

/// Reads a sized decimal constant, as `8'd255`.
#[tactic(auto, unfolding(verilog_rules::specs::Reading::read_constant))]
pub fn constant(cursor: &mut Cursor<'_>) -> Result<Constant, Fault>
    ensures { Steps (spec.read_constant cursor.old) result cursor.new }
{
    let width = cursor.number()?;
    cursor.mark(Mark::Decimal)?;
    let value = cursor.number()?;
    Ok(Constant { width, value })
}

/// `$signed(name)`
#[tactic(auto, unfolding(verilog_rules::specs::Reading::read_signed))]
pub fn signed(cursor: &mut Cursor<'_>) -> Result<Identifier, Fault>
    ensures { Steps (spec.read_signed cursor.old) result cursor.new }
{
    cursor.mark(Mark::Signed)?;
    cursor.mark(Mark::OpenRound)?;
    let name = cursor.name()?;
    cursor.mark(Mark::CloseRound)?;
    Ok(name)
}

#[tactic(auto, unfolding(verilog_rules::specs::Reading::read_select, verilog_rules::specs::Reading::read_bit_end, verilog_rules::specs::Reading::read_part_end))]
fn select(cursor: &mut Cursor<'_>, of: Identifier) -> Result<Expression, Fault>
    ensures { Steps (spec.read_select of cursor.old) result cursor.new }
{
    cursor.mark(Mark::OpenSquare)?;
    let high = cursor.number()?;
    if cursor.takes_mark(Mark::CloseSquare) {
        return Ok(Expression::BitSelect { of, bit: high });
    }
    cursor.mark(Mark::Colon)?;
    let low = cursor.number()?;
    cursor.mark(Mark::CloseSquare)?;
    Ok(Expression::PartSelect { of, high, low })
}

#[tactic(auto, unfolding(verilog_rules::specs::Reading::read_named, verilog_rules::specs::Reading::read_behind_name, verilog_rules::specs::Reading::read_binary, verilog_rules::specs::Reading::read_conditional))]
fn named(cursor: &mut Cursor<'_>) -> Result<Expression, Fault>
    ensures { Steps (spec.read_named cursor.old) result cursor.new }
{
    let name = cursor.name()?;
    if cursor.sees_operator() {
        let operator = cursor.operator()?;
        let right = cursor.name()?;
        Ok(Expression::Binary {
            operator,
            left: name,
            right,
        })
    } else if cursor.takes_mark(Mark::Question) {
        let if_true = cursor.name()?;
        cursor.mark(Mark::Colon)?;
        let if_false = cursor.name()?;
        Ok(Expression::Conditional {
            condition: name,
            if_true,
            if_false,
        })
    } else if cursor.sees_mark(Mark::OpenSquare) {
        select(cursor, name)
    } else {
        Ok(Expression::Copy(name))
    }
}

#[tactic(auto, unfolding(verilog_rules::specs::Reading::read_of_signed, verilog_rules::specs::Reading::read_signed_less, verilog_rules::specs::Reading::read_arithmetic_shift))]
fn of_signed(cursor: &mut Cursor<'_>) -> Result<Expression, Fault>
    ensures { Steps (spec.read_of_signed cursor.old) result cursor.new }
{
    let left = signed(cursor)?;
    if cursor.takes_mark(Mark::Less) {
        let right = signed(cursor)?;
        return Ok(Expression::SignedLess { left, right });
    }
    cursor.mark(Mark::ArithmeticShiftRight)?;
    let right = cursor.name()?;
    Ok(Expression::ArithmeticShiftRight { left, right })
}

/// A guarded division from the base of its guarded constant on.
#[tactic(auto, unfolding(verilog_rules::specs::Reading::read_division_end))]
fn division_end(
    cursor: &mut Cursor<'_>,
    tested: Identifier,
    zero: Constant,
    width: u64,
) -> Result<Expression, Fault>
    ensures { Steps (spec.read_division_end tested zero width cursor.old) result cursor.new }
{
    cursor.mark(Mark::Decimal)?;
    let value = cursor.number()?;
    cursor.mark(Mark::Colon)?;
    let left = cursor.name()?;
    let operator = cursor.division()?;
    let right = cursor.name()?;
    Ok(Expression::Division {
        tested,
        zero,
        guarded: Constant { width, value },
        operator,
        left,
        right,
    })
}

/// The same of signed names.
#[tactic(auto, unfolding(verilog_rules::specs::Reading::read_signed_division_end))]
fn signed_division_end(
    cursor: &mut Cursor<'_>,
    tested: Identifier,
    zero: Constant,
    width: u64,
) -> Result<Expression, Fault>
    ensures { Steps (spec.read_signed_division_end tested zero width cursor.old) result cursor.new }
{
    cursor.mark(Mark::SignedDecimal)?;
    let value = cursor.number()?;
    cursor.mark(Mark::Colon)?;
    let left = signed(cursor)?;
    let operator = cursor.division()?;
    let right = signed(cursor)?;
    Ok(Expression::SignedDivision {
        tested,
        zero,
        guarded: Constant { width, value },
        operator,
        left,
        right,
    })
}

/// The constant of a guard, `)` and `?`.
#[tactic(auto, unfolding(verilog_rules::specs::Reading::read_bound))]
fn bound(cursor: &mut Cursor<'_>) -> Result<Constant, Fault>
    ensures { Steps (spec.read_bound cursor.old) result cursor.new }
{
    let bound = constant(cursor)?;
    cursor.mark(Mark::CloseRound)?;
    cursor.mark(Mark::Question)?;
    Ok(bound)
}

#[tactic(auto, unfolding(verilog_rules::specs::Reading::read_guarded_division))]
fn guarded_division(cursor: &mut Cursor<'_>, tested: Identifier) -> Result<Expression, Fault>
    ensures { Steps (spec.read_guarded_division tested cursor.old) result cursor.new }
{
    cursor.mark(Mark::EqualEqual)?;
    let zero = bound(cursor)?;
    let width = cursor.number()?;
    if cursor.sees_mark(Mark::Decimal) {
        division_end(cursor, tested, zero, width)
    } else {
        signed_division_end(cursor, tested, zero, width)
    }
}

#[tactic(auto, unfolding(verilog_rules::specs::Reading::read_guarded_read))]
fn guarded_read(cursor: &mut Cursor<'_>, tested: Identifier) -> Result<Expression, Fault>
    ensures { Steps (spec.read_guarded_read tested cursor.old) result cursor.new }
{
    cursor.mark(Mark::Less)?;
    let bound = bound(cursor)?;
    let memory = cursor.name()?;
    cursor.mark(Mark::OpenSquare)?;
    let address = cursor.name()?;
    cursor.mark(Mark::CloseSquare)?;
    cursor.mark(Mark::Colon)?;
    let guarded = constant(cursor)?;
    Ok(Expression::MemoryRead {
        tested,
        bound,
        memory,
        address,
        guarded,
    })
}

#[tactic(auto, unfolding(verilog_rules::specs::Reading::read_guarded))]
fn guarded(cursor: &mut Cursor<'_>) -> Result<Expression, Fault>
    ensures { Steps (spec.read_guarded cursor.old) result cursor.new }
{
    cursor.mark(Mark::OpenRound)?;
    let tested = cursor.name()?;
    if cursor.sees_mark(Mark::EqualEqual) {
        guarded_division(cursor, tested)
    } else {
        guarded_read(cursor, tested)
    }
}

/// The names behind the first one.
fn more_names(
    alloc: Global,
    cursor: &mut Cursor<'_>,
    first: Identifier,
) -> Result<Items<Identifier>, Fault>
    ensures { Steps (spec.read_more spec.read_name first cursor.old) result cursor.new }
{
    let mut found = Items::new(alloc);
    found.push(first)?;
    for _turn in 0..cursor.left() {
        if !cursor.takes_mark(Mark::Comma) {
            return Ok(found);
        }
        found.push(cursor.name()?)?;
    }
    Ok(found)
}

#[tactic(auto, unfolding(verilog_rules::specs::Reading::read_braced, verilog_rules::specs::Reading::read_concatenation, verilog_rules::specs::Reading::read_listed, verilog_rules::specs::Reading::read_replication))]
fn braced(alloc: Global, cursor: &mut Cursor<'_>) -> Result<Expression, Fault>
    ensures { Steps (spec.read_braced cursor.old) result cursor.new }
{
    cursor.mark(Mark::OpenCurly)?;
    if cursor.sees_name() {
        let first = cursor.name()?;
        let parts = more_names(alloc, cursor, first)?;
        cursor.mark(Mark::CloseCurly)?;
        return Ok(Expression::Concatenation(parts));
    }
    let count = cursor.number()?;
    cursor.mark(Mark::OpenCurly)?;
    let of = cursor.name()?;
    cursor.mark(Mark::CloseCurly)?;
    cursor.mark(Mark::CloseCurly)?;
    Ok(Expression::Replication { count, of })
}

/// The right side of an assign.
#[tactic(auto, unfolding(verilog_rules::specs::Reading::read_expression, verilog_rules::specs::Reading::read_constant_expression, verilog_rules::specs::Reading::read_bitwise_not))]
pub fn expression(alloc: Global, cursor: &mut Cursor<'_>) -> Result<Expression, Fault>
    ensures { Steps (spec.read_expression cursor.old) result cursor.new }
{
    if cursor.sees_name() {
        named(cursor)
    } else if cursor.sees_number() {
        let constant = constant(cursor)?;
        Ok(Expression::Constant(constant))
    } else if cursor.takes_mark(Mark::Tilde) {
        let of = cursor.name()?;
        Ok(Expression::BitwiseNot(of))
    } else if cursor.sees_mark(Mark::Signed) {
        of_signed(cursor)
    } else if cursor.sees_mark(Mark::OpenRound) {
        guarded(cursor)
    } else {
        braced(alloc, cursor)
    }
}
