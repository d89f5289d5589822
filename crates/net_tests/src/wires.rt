// Wires of a small expression.
use crate::small::name_at;
use c_program::tree::{BinaryOperator, UnaryOperator};
use hls_ints::CType;
use netlist::netlist::{Signal, Source, Value};
use operator_wires::operators::{binary_type, unary_type};
use operator_wires::wires::{Role, Wires};
use operator_wires::words::Word;
use sqlite_items::Items;
use std::alloc::AllocError;
use std::test::Fail;
use verilog_tree::tree::BinaryOperator as Gate;

/// `-x < 7` for an int x.
fn compare(wires: &mut Wires) -> Result<Word, AllocError> {
    let x = wires.register(Role::Variable, 32, 5)?;
    let x = Word::of_type(x, CType::INT);
    let minus = wires.unary(UnaryOperator::Minus, CType::INT, x)?;
    let seven = wires.constant_word(CType::INT, 7)?;
    wires.binary_word(BinaryOperator::Less, CType::INT, minus, seven)
}

fn has_outputs(signals: &[Signal]) -> bool {
    for signal in signals {
        if signal.is_output {
            return true;
        }
    }
    false
}

/// Whether the comparison is of the type int, and has no output among its wires.
fn compares(wires: &mut Wires) -> Result<bool, AllocError> {
    let clock = wires.input(Role::Clock, 1)?;
    let less = compare(wires)?;
    Ok(
        clock == 0
            && less.width == 32
            && less.signed
            && name_at(&wires.signals, 1) == "variable_1"
            && !has_outputs(wires.signals.as_slice()),
    )
}

#[test]
fn test_of_a_variable(rt: HostRuntime) -> Result<(), Fail> {
    let mut wires = Wires::new(rt.alloc());
    let holds = compares(&mut wires)?;
    assert!(rt; holds);
    Ok(())
}

#[test]
fn types(rt: HostRuntime) {
    assert!(rt; unary_type(UnaryOperator::Not, CType::LONG) == CType::INT);
    assert!(rt; binary_type(BinaryOperator::Add, CType::LONG) == CType::LONG);
}

/// Bits side by side, and bits chosen.
fn choose(wires: &mut Wires) -> Result<usize, AllocError> {
    let enable = wires.input(Role::Enable, 1)?;
    let turned = wires.not(1, enable)?;
    let both = wires.both(enable, turned)?;
    let either = wires.either(enable, both)?;
    let pair = wires.beside(2, either, both)?;
    let is_two = wires.is_number(2, pair, 2)?;
    wires.choice(1, is_two, enable, turned)
}

/// The truth of eight bits, as a long, compared with zero.
fn zero_test(wires: &mut Wires, wide: usize) -> Result<usize, AllocError> {
    let word = wires.truth(wide)?;
    let long = wires.converted(word, CType::LONG)?;
    wires.is_zero(long)
}

/// Whether a copy of the double of eight bits is signal 18, and the constant behind it signal 19.
fn copies_out(wires: &mut Wires, wide: usize) -> Result<bool, AllocError> {
    let sum = wires.binary(8, Gate::Add, wide, wide)?;
    let copy = wires.wire(8, Value::Copy(sum))?;
    let ten = wires.constant(8, 10)?;
    Ok(copy == 18 && ten == 19)
}

/// Whether signal 20 is the output `done`, a copy of that signal.
fn is_done(signals: &Items<Signal>, of: usize) -> bool {
    matches!(
        signals.get(20),
        Some(Signal { name, is_output: true, source: Source::Assigned(Value::Copy(copied)), .. })
            if name.as_str() == "done" && *copied == of
    )
}

/// Whether a chosen bit is tested and doubled, and the test told by the output `done`, signal 20.
fn has_gates(wires: &mut Wires) -> Result<bool, AllocError> {
    let bit = choose(wires)?;
    let wide = wires.resized(bit, 1, 8, false)?;
    let is_zero = zero_test(wires, wide)?;
    let copies = copies_out(wires, wide)?;
    let done = wires.output(Role::Done, 1, is_zero)?;
    Ok(copies && done == 20 && is_done(&wires.signals, is_zero))
}

#[test]
fn gates(rt: HostRuntime) -> Result<(), Fail> {
    let mut wires = Wires::new(rt.alloc());
    let holds = has_gates(&mut wires)?;
    assert!(rt; holds);
    Ok(())
}
