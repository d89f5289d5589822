// The right side of an assign.

ghost use Rattle.std.specs.Prelude.{◌≡◌, ◌++◌, OnOk};
ghost use Rattle.verilog_tree.specs.Grammar as g;
ghost use Rattle.verilog_tree.specs.declared.token.Mark.TheVariants as m;
ghost use Rattle.verilog_text.specs.Layout.{put_all, AllTokens};

use crate::text::{Piece, Text};
use std::alloc::AllocError;
use verilog_tree::name::Identifier;
use verilog_tree::token::Mark;
use verilog_tree::tree::{BinaryOperator, Constant, DivisionOperator, Expression};

/// `width'd value`
pub fn constant(out: &mut Text, constant: Constant) -> Result<(), AllocError>
    ensures text { OnOk result (out.new ≡ put_all out.old (g.constant constant)) }
    ensures tokens { OnOk result (AllTokens (g.constant constant)) }
{
    out.phrase(&[
        Piece::Number(constant.width),
        Piece::Mark(Mark::Decimal),
        Piece::Number(constant.value),
    ])
}

/// `$signed(name)`
pub fn signed(out: &mut Text, name: &Identifier) -> Result<(), AllocError>
    ensures text { OnOk result (out.new ≡ put_all out.old (g.signed name.now)) }
    ensures tokens { OnOk result (AllTokens (g.signed name.now)) }
{
    out.phrase(&[
        Piece::Mark(Mark::Signed),
        Piece::Mark(Mark::OpenRound),
        Piece::Name(name),
        Piece::Mark(Mark::CloseRound),
    ])
}

fn operator_mark(operator: BinaryOperator) -> Mark
    ensures { result ≡ g.operator_mark operator }
{
    match operator {
        BinaryOperator::Add => Mark::Plus,
        BinaryOperator::Subtract => Mark::Minus,
        BinaryOperator::Multiply => Mark::Star,
        BinaryOperator::And => Mark::And,
        BinaryOperator::Or => Mark::Or,
        BinaryOperator::Xor => Mark::Xor,
        BinaryOperator::Equal => Mark::EqualEqual,
        BinaryOperator::Less => Mark::Less,
        BinaryOperator::ShiftLeft => Mark::ShiftLeft,
        BinaryOperator::ShiftRight => Mark::ShiftRight,
    }
}

fn division_mark(operator: DivisionOperator) -> Mark
    ensures { result ≡ g.division_mark operator }
{
    match operator {
        DivisionOperator::Quotient => Mark::Slash,
        DivisionOperator::Remainder => Mark::Percent,
    }
}

/// `(name by limit) ?`
fn guard(out: &mut Text, name: &Identifier, by: Mark, limit: Constant) -> Result<(), AllocError>
    ensures text { OnOk result (out.new ≡ put_all out.old (g.guard name.now by limit)) }
    ensures tokens { OnOk result (AllTokens (g.guard name.now by limit)) }
{
    out.phrase(&[
        Piece::Mark(Mark::OpenRound),
        Piece::Name(name),
        Piece::Mark(by),
        Piece::Number(limit.width),
        Piece::Mark(Mark::Decimal),
        Piece::Number(limit.value),
        Piece::Mark(Mark::CloseRound),
        Piece::Mark(Mark::Question),
    ])
}

fn binary<'p>(
    out: &mut Text,
    left: &'p Identifier,
    by: Mark,
    right: &'p Identifier,
) -> Result<(), AllocError>
    ensures text { OnOk result (out.new ≡ put_all out.old (g.name left.now ++ g.mark by ++ g.name right.now)) }
    ensures tokens { OnOk result (AllTokens (g.name left.now ++ g.mark by ++ g.name right.now)) }
{
    out.phrase(&[Piece::Name(left), Piece::Mark(by), Piece::Name(right)])
}

fn signed_binary<'p>(
    out: &mut Text,
    left: &'p Identifier,
    by: Mark,
    right: &'p Identifier,
) -> Result<(), AllocError>
    ensures text { OnOk result (out.new ≡ put_all out.old (g.signed left.now ++ g.mark by ++ g.signed right.now)) }
    ensures tokens { OnOk result (AllTokens (g.signed left.now ++ g.mark by ++ g.signed right.now)) }
{
    out.phrase(&[
        Piece::Mark(Mark::Signed),
        Piece::Mark(Mark::OpenRound),
        Piece::Name(left),
        Piece::Mark(Mark::CloseRound),
        Piece::Mark(by),
        Piece::Mark(Mark::Signed),
        Piece::Mark(Mark::OpenRound),
        Piece::Name(right),
        Piece::Mark(Mark::CloseRound),
    ])
}

fn conditional<'p>(
    out: &mut Text,
    condition: &'p Identifier,
    if_true: &'p Identifier,
    if_false: &'p Identifier,
) -> Result<(), AllocError>
    ensures text { OnOk result (out.new ≡ put_all out.old (g.name condition.now ++ g.mark m.Question ++ g.name if_true.now ++ g.mark m.Colon ++ g.name if_false.now)) }
    ensures tokens { OnOk result (AllTokens (g.name condition.now ++ g.mark m.Question ++ g.name if_true.now ++ g.mark m.Colon ++ g.name if_false.now)) }
{
    out.phrase(&[
        Piece::Name(condition),
        Piece::Mark(Mark::Question),
        Piece::Name(if_true),
        Piece::Mark(Mark::Colon),
        Piece::Name(if_false),
    ])
}

/// What a division is where its divisor is not zero, behind its value where it is.
fn division<'p>(
    out: &mut Text,
    guarded: Constant,
    operator: DivisionOperator,
    left: &'p Identifier,
    right: &'p Identifier,
) -> Result<(), AllocError>
    ensures text { OnOk result (out.new ≡ put_all out.old (g.constant guarded ++ g.mark m.Colon ++ g.name left.now ++ g.mark (g.division_mark operator) ++ g.name right.now)) }
    ensures tokens { OnOk result (AllTokens (g.constant guarded ++ g.mark m.Colon ++ g.name left.now ++ g.mark (g.division_mark operator) ++ g.name right.now)) }
{
    out.phrase(&[
        Piece::Number(guarded.width),
        Piece::Mark(Mark::Decimal),
        Piece::Number(guarded.value),
        Piece::Mark(Mark::Colon),
        Piece::Name(left),
        Piece::Mark(division_mark(operator)),
        Piece::Name(right),
    ])
}

#[tactic(auto, using(crate::proofs::LaidTokens::put_all_append, crate::proofs::LaidTokens::all_tokens_append))]
fn signed_division<'p>(
    out: &mut Text,
    guarded: Constant,
    operator: DivisionOperator,
    left: &'p Identifier,
    right: &'p Identifier,
) -> Result<(), AllocError>
    ensures text { OnOk result (out.new ≡ put_all out.old (g.signed_constant guarded ++ g.mark m.Colon ++ g.signed left.now ++ g.mark (g.division_mark operator) ++ g.signed right.now)) }
    ensures tokens { OnOk result (AllTokens (g.signed_constant guarded ++ g.mark m.Colon ++ g.signed left.now ++ g.mark (g.division_mark operator) ++ g.signed right.now)) }
{
    out.phrase(&[
        Piece::Number(guarded.width),
        Piece::Mark(Mark::SignedDecimal),
        Piece::Number(guarded.value),
        Piece::Mark(Mark::Colon),
    ])?;
    signed_binary(out, left, division_mark(operator), right)
}

fn memory_read<'p>(
    out: &mut Text,
    memory: &'p Identifier,
    address: &'p Identifier,
    guarded: Constant,
) -> Result<(), AllocError>
    ensures text { OnOk result (out.new ≡ put_all out.old (g.name memory.now ++ g.mark m.OpenSquare ++ g.name address.now ++ g.mark m.CloseSquare ++ g.mark m.Colon ++ g.constant guarded)) }
    ensures tokens { OnOk result (AllTokens (g.name memory.now ++ g.mark m.OpenSquare ++ g.name address.now ++ g.mark m.CloseSquare ++ g.mark m.Colon ++ g.constant guarded)) }
{
    out.phrase(&[
        Piece::Name(memory),
        Piece::Mark(Mark::OpenSquare),
        Piece::Name(address),
        Piece::Mark(Mark::CloseSquare),
        Piece::Mark(Mark::Colon),
        Piece::Number(guarded.width),
        Piece::Mark(Mark::Decimal),
        Piece::Number(guarded.value),
    ])
}

fn bit_select(out: &mut Text, of: &Identifier, bit: u64) -> Result<(), AllocError>
    ensures text { OnOk result (out.new ≡ put_all out.old (g.name of.now ++ g.mark m.OpenSquare ++ g.number bit ++ g.mark m.CloseSquare)) }
    ensures tokens { OnOk result (AllTokens (g.name of.now ++ g.mark m.OpenSquare ++ g.number bit ++ g.mark m.CloseSquare)) }
{
    out.phrase(&[
        Piece::Name(of),
        Piece::Mark(Mark::OpenSquare),
        Piece::Number(bit),
        Piece::Mark(Mark::CloseSquare),
    ])
}

fn part_select(out: &mut Text, of: &Identifier, high: u64, low: u64) -> Result<(), AllocError>
    ensures text { OnOk result (out.new ≡ put_all out.old (g.name of.now ++ g.mark m.OpenSquare ++ g.number high ++ g.mark m.Colon ++ g.number low ++ g.mark m.CloseSquare)) }
    ensures tokens { OnOk result (AllTokens (g.name of.now ++ g.mark m.OpenSquare ++ g.number high ++ g.mark m.Colon ++ g.number low ++ g.mark m.CloseSquare)) }
{
    out.phrase(&[
        Piece::Name(of),
        Piece::Mark(Mark::OpenSquare),
        Piece::Number(high),
        Piece::Mark(Mark::Colon),
        Piece::Number(low),
        Piece::Mark(Mark::CloseSquare),
    ])
}

#[tactic(auto, using(crate::proofs::LaidTokens::put_all_append, crate::proofs::LaidTokens::all_tokens_append))]
fn names(out: &mut Text, names: &[Identifier]) -> Result<(), AllocError>
    ensures text { OnOk result (out.new ≡ put_all out.old (g.commas g.name names.now)) }
    ensures tokens { OnOk result (AllTokens (g.commas g.name names.now)) }
{
    let [first, rest @ ..] = names else {
        return Ok(());
    };
    out.name(first)?;
    for name in rest {
        out.mark(Mark::Comma)?;
        out.name(name)?;
    }
    Ok(())
}

#[tactic(auto, using(crate::proofs::LaidTokens::put_all_append, crate::proofs::LaidTokens::all_tokens_append))]
fn concatenation(out: &mut Text, parts: &[Identifier]) -> Result<(), AllocError>
    ensures text { OnOk result (out.new ≡ put_all out.old (g.mark m.OpenCurly ++ g.commas g.name parts.now ++ g.mark m.CloseCurly)) }
    ensures tokens { OnOk result (AllTokens (g.mark m.OpenCurly ++ g.commas g.name parts.now ++ g.mark m.CloseCurly)) }
{
    out.mark(Mark::OpenCurly)?;
    names(out, parts)?;
    out.mark(Mark::CloseCurly)
}

fn replication(out: &mut Text, count: u64, of: &Identifier) -> Result<(), AllocError>
    ensures text { OnOk result (out.new ≡ put_all out.old (g.mark m.OpenCurly ++ g.number count ++ g.mark m.OpenCurly ++ g.name of.now ++ g.mark m.CloseCurly ++ g.mark m.CloseCurly)) }
    ensures tokens { OnOk result (AllTokens (g.mark m.OpenCurly ++ g.number count ++ g.mark m.OpenCurly ++ g.name of.now ++ g.mark m.CloseCurly ++ g.mark m.CloseCurly)) }
{
    out.phrase(&[
        Piece::Mark(Mark::OpenCurly),
        Piece::Number(count),
        Piece::Mark(Mark::OpenCurly),
        Piece::Name(of),
        Piece::Mark(Mark::CloseCurly),
        Piece::Mark(Mark::CloseCurly),
    ])
}

#[tactic(auto, using(crate::proofs::LaidTokens::put_all_append, crate::proofs::LaidTokens::all_tokens_append))]
pub fn expression(out: &mut Text, expression: &Expression) -> Result<(), AllocError>
    ensures text { OnOk result (out.new ≡ put_all out.old (g.expression expression.now)) }
    ensures tokens { OnOk result (AllTokens (g.expression expression.now)) }
{
    match expression {
        Expression::Copy(of) => out.name(of),
        Expression::Constant(value) => constant(out, *value),
        Expression::BitwiseNot(of) => { out.phrase(&[Piece::Mark(Mark::Tilde), Piece::Name(of)]) }
        Expression::Binary {
            operator,
            left,
            right,
        } => binary(out, left, operator_mark(*operator), right),
        Expression::SignedLess { left, right } => signed_binary(out, left, Mark::Less, right),
        Expression::ArithmeticShiftRight { left, right } => {
            out.phrase(&[
                Piece::Mark(Mark::Signed),
                Piece::Mark(Mark::OpenRound),
                Piece::Name(left),
                Piece::Mark(Mark::CloseRound),
                Piece::Mark(Mark::ArithmeticShiftRight),
                Piece::Name(right),
            ])
        }
        Expression::Conditional {
            condition,
            if_true,
            if_false,
        } => conditional(out, condition, if_true, if_false),
        Expression::Division {
            tested,
            zero,
            guarded,
            operator,
            left,
            right,
        } => {
            guard(out, tested, Mark::EqualEqual, *zero)?;
            division(out, *guarded, *operator, left, right)
        }
        Expression::SignedDivision {
            tested,
            zero,
            guarded,
            operator,
            left,
            right,
        } => {
            guard(out, tested, Mark::EqualEqual, *zero)?;
            signed_division(out, *guarded, *operator, left, right)
        }
        Expression::MemoryRead {
            tested,
            bound,
            memory,
            address,
            guarded,
        } => {
            guard(out, tested, Mark::Less, *bound)?;
            memory_read(out, memory, address, *guarded)
        }
        Expression::BitSelect { of, bit } => bit_select(out, of, *bit),
        Expression::PartSelect { of, high, low } => part_select(out, of, *high, *low),
        Expression::Concatenation(parts) => concatenation(out, parts.as_slice()),
        Expression::Replication { count, of } => replication(out, *count, of),
    }
}
