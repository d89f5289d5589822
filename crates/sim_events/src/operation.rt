// Steps as operations: what a right side reads stands in one row, by places, so that a step is taken without a look at the tree of its module.

ghost use Rattle.std.specs.Prelude.{◌≡◌, ◌<◌, Some, length, slice_get, IfOk};
ghost use Rattle.netlist.specs.declared.netlist.Signal.{Signal};
ghost use Rattle.sim_values.specs.Flat.{IsNarrow, IsNarrowSource, AreNarrow, flat_of};
ghost use Rattle.sim_layout.specs.Running.{choice_of};
ghost use Rattle.sim_events.specs.Operations.{place as place_of, value_operation as value_operation_of, signal_operation as signal_operation_of, module_operation as module_operation_of};
ghost use Rattle.sim_events.specs.Operations.{operation_of, row_of, result_of, IsNarrowOperation, AreRows};

use crate::steady::is_steady;
use hls_ints::{v_not, v_sar, v_sless};
use netlist::netlist::{Module, Source, Value};
use sim_values::operators::{binary, divided, selected, signed_divided};
use sim_values::settle::{Choice, Feed, Step, feed_number};
use sim_values::value::{Now, Spot, item_at, memory_size, number_at, width_at, word_at};
use sqlite_items::at;
use std::alloc::{AllocError, Global};
use verilog_tree::tree::{BinaryOperator, DivisionOperator};

/// What a step gives, from the words at places. Widths are those of the left operand, 1 to 64.
#[derive(Clone, Copy)]
pub enum Operation {
    Constant(u64),
    Enables,
    Preferred(usize),
    /// The word that a port is connected to.
    Connected(usize),
    Copy(usize),
    Not {
        width: u32,
        of: usize,
    },
    Binary {
        operator: BinaryOperator,
        width: u32,
        left: usize,
        right: usize,
    },
    SignedLess {
        width: u32,
        left: usize,
        right: usize,
    },
    ArithmeticShiftRight {
        width: u32,
        left: usize,
        right: usize,
    },
    Conditional {
        condition: usize,
        if_true: usize,
        if_false: usize,
    },
    Divided {
        operator: DivisionOperator,
        width: u32,
        left: usize,
        right: usize,
    },
    SignedDivided {
        operator: DivisionOperator,
        width: u32,
        left: usize,
        right: usize,
    },
    /// A word of the memory that starts at word `start` of all memories and has `size` words.
    MemoryRead {
        start: u64,
        size: u64,
        address: usize,
    },
    Select {
        of: usize,
        high: u64,
        low: u64,
    },
    /// A concatenation or a replication, which stands in the tree.
    Joined,
}

/// A step: the place of the word that it gives, whether it hangs on a choice or on a memory, and what it gives.
#[derive(Clone, Copy)]
pub struct Row {
    pub target: usize,
    pub moving: bool,
    pub operation: Operation,
}

/// The place so far behind another.
pub(crate) fn place(base: usize, signal: usize) -> usize
    ensures { result ≡ place_of base signal }
{
    base.saturating_add(signal)
}

fn value_operation(module: &Module, spot: Spot, starts: &[u64], value: &Value) -> Operation
    requires { IsNarrow module.now value.now }
    ensures { result ≡ value_operation_of module.now spot starts.now value.now }
{
    match value {
        Value::Copy(of) => Operation::Copy(place(spot.base, *of)),
        Value::Constant(number) => Operation::Constant(*number),
        Value::BitwiseNot(of) => Operation::Not {
            width: width_at(module, *of),
            of: place(spot.base, *of),
        },
        Value::Binary {
            operator,
            left,
            right,
        } => Operation::Binary {
            operator: *operator,
            width: width_at(module, *left),
            left: place(spot.base, *left),
            right: place(spot.base, *right),
        },
        Value::SignedLess { left, right } => Operation::SignedLess {
            width: width_at(module, *left),
            left: place(spot.base, *left),
            right: place(spot.base, *right),
        },
        Value::ArithmeticShiftRight { left, right } => Operation::ArithmeticShiftRight {
            width: width_at(module, *left),
            left: place(spot.base, *left),
            right: place(spot.base, *right),
        },
        Value::Conditional {
            condition,
            if_true,
            if_false,
        } => Operation::Conditional {
            condition: place(spot.base, *condition),
            if_true: place(spot.base, *if_true),
            if_false: place(spot.base, *if_false),
        },
        Value::Division {
            operator,
            left,
            right,
        } => Operation::Divided {
            operator: *operator,
            width: width_at(module, *left),
            left: place(spot.base, *left),
            right: place(spot.base, *right),
        },
        Value::SignedDivision {
            operator,
            left,
            right,
        } => Operation::SignedDivided {
            operator: *operator,
            width: width_at(module, *left),
            left: place(spot.base, *left),
            right: place(spot.base, *right),
        },
        Value::MemoryRead { memory, address } => Operation::MemoryRead {
            start: number_at(starts, spot.memories, *memory),
            size: memory_size(module, *memory),
            address: place(spot.base, *address),
        },
        Value::Select { of, high, low } => Operation::Select {
            of: place(spot.base, *of),
            high: *high,
            low: *low,
        },
        Value::Concatenation(_) | Value::Replication { .. } => Operation::Joined,
    }
}

fn signal_operation(module: &Module, spot: Spot, starts: &[u64], signal: usize) -> Operation
    requires { (s : Signal) → slice_get module.now.signals signal ≡ Some s → IsNarrowSource module.now s.source }
    ensures { result ≡ signal_operation_of module.now spot starts.now (slice_get module.now.signals signal) }
{
    match at(module.signals.as_slice(), signal) {
        Some(found) => match &found.source {
            Source::Assigned(value) => value_operation(module, spot, starts, value),
            Source::Input | Source::Register(_) | Source::Port { .. } => Operation::Constant(0),
        },
        None => Operation::Constant(0),
    }
}

fn module_operation(
    modules: &[Module],
    number: usize,
    spot: Spot,
    starts: &[u64],
    signal: usize,
) -> Operation
    requires { AreNarrow modules.now }
    ensures { result ≡ module_operation_of spot starts.now signal (slice_get modules.now number) }
{
    match at(modules, number) {
        Some(module) => signal_operation(module, spot, starts, signal),
        None => Operation::Constant(0),
    }
}

fn operation_at(modules: &[Module], starts: &[u64], feed: Feed) -> Operation
    requires { AreNarrow modules.now }
    ensures { result ≡ operation_of modules.now starts.now feed }
{
    match feed {
        Feed::Zero => Operation::Constant(0),
        Feed::Enables => Operation::Enables,
        Feed::Preferred(number) => Operation::Preferred(number),
        Feed::Copied(from) => Operation::Connected(from),
        Feed::Computed {
            module,
            signal,
            spot,
        } => module_operation(modules, module, spot, starts, signal),
    }
}

/// A row for each step of a net whose memories start at these words.
pub fn rows_of(
    alloc: Global,
    modules: &[Module],
    starts: &[u64],
    steps: &[Step],
) -> Result<Vec<Row>, AllocError>
    requires { AreNarrow modules.now }
    ensures { IfOk result (λ rows. AreRows modules.now starts.now steps.now rows.items) }
{
    let mut rows = Vec::with_capacity(alloc, steps.len())?;
    for step in steps {
        rows.push(Row {
            target: step.target,
            moving: !is_steady(modules, step.feed),
            operation: operation_at(modules, starts, step.feed),
        })?;
    }
    Ok(rows)
}

/// The row of a number.
pub(crate) fn row_at(rows: &[Row], number: usize) -> &Row
    requires { number < length rows.now }
    ensures { slice_get rows.now number ≡ Some result.now }
{
    &rows[number]
}

/// What an operation gives, under a choice and in the words of now. One that joins gives what its feed gives.
pub(crate) fn evaluate(
    modules: &[Module],
    choice: &Choice,
    now: &Now,
    feed: &Feed,
    operation: &Operation,
) -> u64
    requires modules { AreNarrow modules.now }
    requires operation { IsNarrowOperation operation.now }
    ensures { result ≡ result_of modules.now (choice_of choice.now) (flat_of now.now) feed.now operation.now }
{
    match operation {
        Operation::Constant(number) => *number,
        Operation::Enables => choice.en,
        Operation::Preferred(number) => item_at(choice.prefs.as_slice(), *number),
        Operation::Connected(of) | Operation::Copy(of) => item_at(now.numbers, *of),
        Operation::Not { width, of } => v_not(*width, item_at(now.numbers, *of)),
        Operation::Binary {
            operator,
            width,
            left,
            right,
        } => {
            let first = item_at(now.numbers, *left);
            binary(*operator, *width, first, item_at(now.numbers, *right))
        }
        Operation::SignedLess { width, left, right } => {
            let first = item_at(now.numbers, *left);
            v_sless(*width, first, item_at(now.numbers, *right))
        }
        Operation::ArithmeticShiftRight { width, left, right } => {
            let first = item_at(now.numbers, *left);
            v_sar(*width, first, item_at(now.numbers, *right))
        }
        Operation::Conditional {
            condition,
            if_true,
            if_false,
        } => {
            if item_at(now.numbers, *condition) == 0 {
                item_at(now.numbers, *if_false)
            } else {
                item_at(now.numbers, *if_true)
            }
        }
        Operation::Divided {
            operator,
            width,
            left,
            right,
        } => {
            let first = item_at(now.numbers, *left);
            divided(*operator, *width, first, item_at(now.numbers, *right))
        }
        Operation::SignedDivided {
            operator,
            width,
            left,
            right,
        } => {
            let first = item_at(now.numbers, *left);
            signed_divided(*operator, *width, first, item_at(now.numbers, *right))
        }
        Operation::MemoryRead {
            start,
            size,
            address,
        } => {
            let word = item_at(now.numbers, *address);
            if word < *size {
                word_at(now.words, *start, word)
            } else {
                0
            }
        }
        Operation::Select { of, high, low } => selected(item_at(now.numbers, *of), *high, *low),
        Operation::Joined => feed_number(modules, choice, now, *feed),
    }
}
