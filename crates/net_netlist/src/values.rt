// Right sides, over the places of the names in them.

ghost use Rattle.std.specs.Prelude.{◌≡◌, map, IfOk};
ghost use Rattle.netlist.specs.NetlistOf as spec;
ghost use Rattle.netlist.specs.declared.netlist.Value.TheVariants as v;

use net_names::places::Places;
use netlist::netlist::Value;
use sqlite_items::Items;
use std::alloc::{AllocError, Global};
use verilog_tree::name::Identifier;
use verilog_tree::tree::Expression;

/// The places of names, one after another.
fn places_of(
    alloc: Global,
    signals: &Places<'_>,
    names: &[Identifier],
) -> Result<Items<usize>, AllocError>
    ensures { IfOk result (λ places. places ≡ map (spec.place signals.now) names.now) }
{
    let mut places = Items::new(alloc);
    for name in names {
        places.push(signals.of_name(name))?;
    }
    Ok(places)
}

/// Bits `low` to `high` of the name.
fn select(signals: &Places<'_>, of: &Identifier, high: u64, low: u64) -> Value
    ensures { result ≡ v.Select (spec.place signals.now of.now) high low }
{
    Value::Select {
        of: signals.of_name(of),
        high,
        low,
    }
}

/// The right side in a module whose signals and memories have these names.
pub fn value(
    alloc: Global,
    signals: &Places<'_>,
    memories: &Places<'_>,
    right: &Expression,
) -> Result<Value, AllocError>
    ensures { IfOk result (λ r. r ≡ spec.value signals.now memories.now right.now) }
{
    match right {
        Expression::Copy(of) => Ok(Value::Copy(signals.of_name(of))),
        Expression::Constant(constant) => Ok(Value::Constant(constant.value)),
        Expression::BitwiseNot(of) => Ok(Value::BitwiseNot(signals.of_name(of))),
        Expression::Binary {
            operator,
            left,
            right,
        } => Ok(Value::Binary {
            operator: *operator,
            left: signals.of_name(left),
            right: signals.of_name(right),
        }),
        Expression::SignedLess { left, right } => Ok(Value::SignedLess {
            left: signals.of_name(left),
            right: signals.of_name(right),
        }),
        Expression::ArithmeticShiftRight { left, right } => Ok(Value::ArithmeticShiftRight {
            left: signals.of_name(left),
            right: signals.of_name(right),
        }),
        Expression::Conditional {
            condition,
            if_true,
            if_false,
        } => Ok(Value::Conditional {
            condition: signals.of_name(condition),
            if_true: signals.of_name(if_true),
            if_false: signals.of_name(if_false),
        }),
        Expression::Division {
            operator,
            left,
            right,
            ..
        } => Ok(Value::Division {
            operator: *operator,
            left: signals.of_name(left),
            right: signals.of_name(right),
        }),
        Expression::SignedDivision {
            operator,
            left,
            right,
            ..
        } => Ok(Value::SignedDivision {
            operator: *operator,
            left: signals.of_name(left),
            right: signals.of_name(right),
        }),
        Expression::MemoryRead {
            memory,
            address,
            ..
        } => Ok(Value::MemoryRead {
            memory: memories.of_name(memory),
            address: signals.of_name(address),
        }),
        Expression::BitSelect { of, bit } => Ok(select(signals, of, *bit, *bit)),
        Expression::PartSelect { of, high, low } => Ok(select(signals, of, *high, *low)),
        Expression::Concatenation(parts) => {
            let parts = places_of(alloc, signals, parts.as_slice())?;
            Ok(Value::Concatenation(parts))
        }
        Expression::Replication { count, of } => Ok(Value::Replication {
            count: *count,
            of: signals.of_name(of),
        }),
    }
}
