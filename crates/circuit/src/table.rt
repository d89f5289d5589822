// Tables of rows. A row is a signal, one signal for each thread or the like, or chains of them; what a row reads it names by the row that
// it stands in.

ghost use Rattle.std.specs.Prelude.{◌≡◌, ◌+◌, ◌*◌, ◌^◌, ◌<◌, ◌≤◌, [], ◌∷◌, ◌++◌, length, IfOk, OnOk};
ghost use Rattle.circuit.specs.Rows.{EachOf};
ghost use Rattle.circuit.specs.Table.{size_of, row_end, place, operand_at, source_at, is_output, signal_at, signals_from, row_signals, laid, IsSmallForm, IsSmallRow};

use crate::rows::Role;
use netlist::netlist::{Signal, Source, Value};
use sqlite_items::Items;
use std::alloc::{AllocError, Global};
use verilog_tree::tree::BinaryOperator;

/// How many signals a row has, where it is not one for each thread.
#[derive(Clone, Copy)]
pub enum Size {
    /// So many, whatever the number of threads.
    Fixed(u16),
    /// So many for each thread.
    PerThread(u16),
}

impl Size {
    fn of(self, threads: usize) -> usize
        requires few { threads ≤ 64 }
        ensures size { result ≡ size_of threads self }
        ensures low { result ≤ 64 * 2 ^ 16 }
    {
        match self {
            Size::Fixed(count) => count as usize,
            Size::PerThread(count) => threads * count as usize,
        }
    }
}

/// A signal that a row's signal of some number reads, by the number of the row that it stands in.
#[derive(Clone, Copy)]
pub enum Operand {
    /// That of the same number.
    Same(usize),
    /// The only one of its row.
    Only(usize),
    /// The end of a chain.
    Last(usize),
    /// A chain before the step of this number.
    Before(usize),
    /// That of the thread, where so many numbers stand for each.
    Group(usize, u16),
}

impl Operand {
    fn at(self, threads: usize, rows: &[Row], number: usize) -> usize
        requires few { threads ≤ 64 }
        requires short { length rows.now ≤ 64 }
        requires low { number < 2 ^ 32 }
        ensures { result ≡ operand_at threads (place threads rows.now) self number }
    {
        match self {
            Operand::Same(row) | Operand::Before(row) => place(threads, rows, row) + number,
            Operand::Only(row) => place(threads, rows, row),
            Operand::Last(row) => place(threads, rows, row) + threads,
            Operand::Group(row, size) => {
                place(threads, rows, row) + number.checked_div(size as usize).unwrap_or(0)
            }
        }
    }
}

/// What gives a row's signals their numbers.
#[derive(Clone, Copy)]
pub enum Form {
    Input,
    /// A register, with its initial constant.
    Register(u64),
    Constant(u64),
    /// The constants from a first one on.
    Count(u64),
    Copy(Operand),
    /// An output port, which copies a signal.
    Output(Operand),
    Binary(BinaryOperator, Operand, Operand),
    /// The second where the first is not 0, else the third.
    Conditional(Operand, Operand, Operand),
    /// The word of a memory at an address.
    MemoryRead(usize, Operand),
    /// Two signals beside each other, the first with the higher bits.
    Pair(Operand, Operand),
}

impl Form {
    fn is_output(self) -> bool
        ensures { result ≡ is_output self }
    {
        matches!(self, Form::Output(_))
    }

    fn source(
        self,
        alloc: Global,
        threads: usize,
        rows: &[Row],
        number: usize,
    ) -> Result<Source, AllocError>
        requires few { threads ≤ 64 }
        requires short { length rows.now ≤ 64 }
        requires small { IsSmallForm self }
        requires low { number < 2 ^ 32 }
        ensures { IfOk result (λ source. source ≡ source_at threads (place threads rows.now) self number) }
    {
        let value = match self {
            Form::Input => return Ok(Source::Input),
            Form::Register(initial) => return Ok(Source::Register(initial)),
            Form::Constant(constant) => Value::Constant(constant),
            Form::Count(first) => Value::Constant(first + number as u64),
            Form::Copy(of) | Form::Output(of) => Value::Copy(of.at(threads, rows, number)),
            Form::Binary(operator, left, right) => Value::Binary {
                operator,
                left: left.at(threads, rows, number),
                right: right.at(threads, rows, number),
            },
            Form::Conditional(condition, if_true, if_false) => Value::Conditional {
                condition: condition.at(threads, rows, number),
                if_true: if_true.at(threads, rows, number),
                if_false: if_false.at(threads, rows, number),
            },
            Form::MemoryRead(memory, address) => Value::MemoryRead {
                memory,
                address: address.at(threads, rows, number),
            },
            Form::Pair(high, low) => {
                let parts = [
                    high.at(threads, rows, number),
                    low.at(threads, rows, number),
                ];
                Value::Concatenation(Items::from_slice(alloc, &parts)?)
            }
        };
        Ok(Source::Assigned(value))
    }
}

/// Signals of one width in bits, which are for one thing.
#[derive(Clone, Copy)]
pub enum Row {
    One(Role, u64, Form),
    /// One for each thread.
    Each(Role, u64, Form),
    /// As many as the size says.
    Many(Size, Role, u64, Form),
    /// A first one, and then a step for each thread.
    Chain(Role, u64, Form, Form),
    /// So many chains side by side: the first ones of all, and then for each thread a step of each.
    Chains(u16, Role, u64, Form, Form),
}

impl Row {
    /// The place after the row.
    fn end(self, threads: usize, at: usize) -> usize
        requires few { threads ≤ 64 }
        requires low { at < 2 ^ 32 }
        ensures end { result ≡ row_end threads at self }
        ensures near { result ≤ at + 65 * 2 ^ 16 }
    {
        match self {
            Row::One(_, _, _) => at + 1,
            Row::Each(_, _, _) => at + threads,
            Row::Many(size, _, _, _) => at + size.of(threads),
            Row::Chain(_, _, _, _) => at + 1 + threads,
            Row::Chains(count, _, _, _, _) => at + count as usize + threads * count as usize,
        }
    }
}

/// The place of the first signal of a row, by its number.
pub fn place(threads: usize, rows: &[Row], row: usize) -> usize
    requires few { threads ≤ 64 }
    requires short { length rows.now ≤ 64 }
    ensures place { result ≡ place threads rows.now row }
    ensures low { result < 2 ^ 32 }
{
    let mut at = 0;
    for i in 0..row.min(rows.len()) {
        at = rows[i].end(threads, at);
    }
    at
}

/// The signals of a table, from place 0 on.
pub fn lay(alloc: Global, threads: usize, rows: &[Row]) -> Result<Items<Signal>, AllocError>
    requires few { threads ≤ 64 }
    requires short { length rows.now ≤ 64 }
    requires small { EachOf IsSmallRow rows.now }
    ensures { IfOk result (λ signals. signals ≡ laid threads rows.now) }
{
    let mut signals = Items::new(alloc);
    for (i, row) in rows.iter().enumerate() {
        lay_row(alloc, &mut signals, threads, rows, *row)?;
    }
    Ok(signals)
}

/// The signals of a row, behind those that stand there.
fn lay_row(
    alloc: Global,
    signals: &mut Items<Signal>,
    threads: usize,
    rows: &[Row],
    row: Row,
) -> Result<(), AllocError>
    requires few { threads ≤ 64 }
    requires short { length rows.now ≤ 64 }
    requires small { IsSmallRow row }
    ensures { OnOk result (signals.new ≡ signals.old ++ row_signals threads (place threads rows.now) (length signals.old) row) }
{
    match row {
        Row::One(role, width, form) => lay_signal(
            alloc, signals, threads, rows, role, width, form, 0,
        ),
        Row::Each(role, width, form) => lay_each(
            alloc, signals, threads, rows, threads, role, width, form,
        ),
        Row::Many(size, role, width, form) => {
            let count = size.of(threads);
            lay_each(alloc, signals, threads, rows, count, role, width, form)
        }
        Row::Chain(role, width, first, step) => {
            lay_signal(alloc, signals, threads, rows, role, width, first, 0)?;
            lay_each(alloc, signals, threads, rows, threads, role, width, step)
        }
        Row::Chains(count, role, width, first, step) => {
            let chains = count as usize;
            let steps = threads * chains;
            lay_each(alloc, signals, threads, rows, chains, role, width, first)?;
            lay_each(alloc, signals, threads, rows, steps, role, width, step)
        }
    }
}

fn lay_each(
    alloc: Global,
    signals: &mut Items<Signal>,
    threads: usize,
    rows: &[Row],
    count: usize,
    role: Role,
    width: u64,
    form: Form,
) -> Result<(), AllocError>
    requires few { threads ≤ 64 }
    requires short { length rows.now ≤ 64 }
    requires small { IsSmallForm form }
    requires low { count < 2 ^ 32 }
    ensures { OnOk result (signals.new ≡ signals.old ++ signals_from threads (place threads rows.now) (length signals.old) count role width form) }
{
    for number in 0..count {
        lay_signal(alloc, signals, threads, rows, role, width, form, number)?;
    }
    Ok(())
}

fn lay_signal(
    alloc: Global,
    signals: &mut Items<Signal>,
    threads: usize,
    rows: &[Row],
    role: Role,
    width: u64,
    form: Form,
    number: usize,
) -> Result<(), AllocError>
    requires few { threads ≤ 64 }
    requires short { length rows.now ≤ 64 }
    requires small { IsSmallForm form }
    requires low { number < 2 ^ 32 }
    ensures { OnOk result (signals.new ≡ signals.old ++ signal_at threads (place threads rows.now) (length signals.old) role width form number ∷ []) }
{
    let name = role.name(alloc, signals.len())?;
    let source = form.source(alloc, threads, rows, number)?;
    signals.push(Signal {
        name,
        width,
        is_output: form.is_output(),
        source,
    })
}
