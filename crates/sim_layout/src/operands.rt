// The words that a feed reads, one by one.

ghost use Rattle.std.specs.Prelude.{◌≡◌, ◌+◌, map, slice_get};
ghost use Rattle.verilog_meaning.specs.Threads.{operands};
ghost use Rattle.sim_values.specs.Order.{reads, module_reads};
ghost use Rattle.sim_layout.specs.Ranks.{operand};

use netlist::netlist::{Module, Source, Value};
use sim_values::settle::Feed;
use sqlite_items::at;

fn among(base: usize, signals: &[usize], index: usize) -> Option<usize>
    ensures { result ≡ operand (map (λ y. base + y) signals.now) index }
{
    match at(signals, index) {
        Some(signal) => Some(base.saturating_add(*signal)),
        None => None,
    }
}

fn value_operand(base: usize, value: &Value, index: usize) -> Option<usize>
    ensures { result ≡ operand (map (λ y. base + y) (operands value.now)) index }
{
    match value {
        Value::Constant(_) => None,
        Value::Copy(of)
        | Value::BitwiseNot(of)
        | Value::Select { of, .. }
        | Value::Replication { of, .. } => among(base, &[*of], index),
        Value::MemoryRead { address, .. } => among(base, &[*address], index),
        Value::Binary { left, right, .. }
        | Value::SignedLess { left, right }
        | Value::ArithmeticShiftRight { left, right }
        | Value::Division { left, right, .. }
        | Value::SignedDivision { left, right, .. } => among(base, &[*left, *right], index),
        Value::Conditional {
            condition,
            if_true,
            if_false,
        } => among(base, &[*condition, *if_true, *if_false], index),
        Value::Concatenation(parts) => among(base, parts.as_slice(), index),
    }
}

fn computed_operand(
    base: usize,
    modules: &[Module],
    number: usize,
    signal: usize,
    index: usize,
) -> Option<usize>
    ensures { result ≡ operand (module_reads base signal (slice_get modules.now number)) index }
{
    let module = at(modules, number)?;
    let found = at(module.signals.as_slice(), signal)?;
    match &found.source {
        Source::Assigned(value) => value_operand(base, value, index),
        Source::Input | Source::Register(_) | Source::Port { .. } => None,
    }
}

/// The word of an index, from 0 on, among those that a feed reads. None: it reads no more.
pub fn operand_at(modules: &[Module], feed: Feed, index: usize) -> Option<usize>
    ensures { result ≡ operand (reads modules.now feed) index }
{
    match feed {
        Feed::Zero | Feed::Enables | Feed::Preferred(_) => None,
        Feed::Copied(from) => among(0, &[from], index),
        Feed::Computed {
            module,
            signal,
            spot,
        } => computed_operand(spot.base, modules, module, signal, index),
    }
}
