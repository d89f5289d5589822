// The module of a barrier.

ghost use Rattle.std.specs.Prelude.{◌≡◌, ◌≤◌, IfOk};
ghost use Rattle.circuit.specs.Table.{laid};
ghost use Rattle.circuit.specs.Modules.{IsLeaf};
ghost use Rattle.circuit.specs.Interfaces.{IsTableModule};
ghost use Rattle.circuit.specs.Machines.{IsCore};
ghost use Rattle.barrier_cores.specs.Barrier.{rows, statements, IsShape, IsBarrier};
ghost use Rattle.barrier_cores.specs.Machine.{barrier_machine, barrier_places, inputs, input_widths, output_widths, is_late};

use circuit::rows::Role::{Argument, Ask, Clock, Grant, Offer, Operation, State, Told, Wire};
use circuit::rows::sets;
use circuit::table::Form::{Binary, Conditional, Constant, Input, Output, Register};
use circuit::table::Operand::{Before, Last, Only, Same};
use circuit::table::Row::{Chain, Each, One};
use circuit::table::{Row, lay, place};
use netlist::netlist::{Action, Module, Signal};
use sqlite_items::Items;
use std::alloc::{AllocError, Global};
use verilog_tree::name::Identifier;
use verilog_tree::tree::BinaryOperator::{Add, And, Equal, Less};

/// A barrier that so many threads ask.
#[derive(Drop)]
pub struct Shape {
    pub threads: usize,
}

/// The core of a barrier of at most 64 threads: a count, and for each thread whether it waits.
///
/// Under a grant an init sets the count and a destroy makes it 0, and then nobody waits. A wait sets the bit of its thread;
/// where as many wait then as the count says, or more, nobody waits any longer. A wait is not eligible while the bit of its
/// thread is set; every other request always is. Without a grant nothing changes.
///
/// Its inputs are `clk`, then for each thread whether it asks, for each the operation (0 init, 1 wait, 2 destroy, 3
/// nothing), for each the count, and for each whether it is granted; its outputs are for each thread whether its request
/// may be granted, and for each whether it waits. The module is laid out soundly, whatever modules stand before it.
pub fn module(alloc: Global, shape: &Shape) -> Result<Module, AllocError>
    requires { IsShape shape.now }
    ensures core { IfOk result (IsCore (barrier_machine shape.now.threads) (barrier_places shape.now.threads) shape.now.threads) }
    ensures leaf { IfOk result (λ m. IsLeaf m (inputs shape.now.threads) (is_late shape.now.threads)) }
    ensures table { IfOk result (IsBarrier shape.now) }
    ensures stands { IfOk result (λ m. IsTableModule m (input_widths shape.now.threads) (output_widths shape.now.threads)) }
{
    table(alloc, shape)
}

fn table(alloc: Global, shape: &Shape) -> Result<Module, AllocError>
    requires { IsShape shape.now }
    ensures { IfOk result (IsBarrier shape.now) }
{
    let name = Identifier::from_text(alloc, "barrier")?;
    let signals = signals(alloc, shape.threads)?;
    let actions = actions(alloc, shape.threads)?;
    Ok(Module {
        name,
        signals,
        memories: Items::new(alloc),
        actions,
        instances: Items::new(alloc),
    })
}

/// Each bit and the count, which stands behind them, take their next numbers.
fn actions(alloc: Global, threads: usize) -> Result<Items<Action>, AllocError>
    requires few { threads ≤ 64 }
    ensures { IfOk result (λ actions. actions ≡ statements threads) }
{
    let rows = rows();
    let waiting = place(threads, &rows, WAITING);
    let next = place(threads, &rows, NEXT);
    sets(alloc, waiting, next, threads + 1)
}

fn signals(alloc: Global, threads: usize) -> Result<Items<Signal>, AllocError>
    requires few { threads ≤ 64 }
    ensures { IfOk result (λ signals. signals ≡ laid threads rows) }
{
    lay(alloc, threads, &rows())
}

// The rows that statements name, by their numbers.
const WAITING: usize = 5;

const NEXT: usize = 30;

/// The table. Chains of wires hand on the operation and the count of the granted thread; a chain of sums says how many wait
/// with it.
fn rows() -> [Row; 34]
    ensures { result ≡ rows }
{
    let asks = 1;
    let operations = 2;
    let counts = 3;
    let grants = 4;
    let count = 6;
    let init = 7;
    let wait = 8;
    let nothing = 9;
    let none = 10;
    let some = 11;
    let nought = 12;
    let unit = 13;
    let waits = 14;
    let bars = 15;
    let may = 16;
    let operation = 17;
    let new_count = 18;
    let bits = 19;
    let ones = 20;
    let sum = 21;
    let short = 22;
    let is_wait = 23;
    let is_nothing = 24;
    let is_init = 25;
    let stays = 26;
    let others = 27;
    let given = 28;
    let fresh = 29;
    [
        One(Clock, 1, Input),
        Each(Ask, 1, Input),
        Each(Operation, 2, Input),
        Each(Argument, 64, Input),
        Each(Grant, 1, Input),
        Each(State, 1, Register(0)),
        One(State, 64, Register(0)),
        One(Wire, 2, Constant(0)),
        One(Wire, 2, Constant(1)),
        One(Wire, 2, Constant(3)),
        One(Wire, 1, Constant(0)),
        One(Wire, 1, Constant(1)),
        One(Wire, 64, Constant(0)),
        One(Wire, 64, Constant(1)),
        Each(Wire, 1, Binary(Equal, Same(operations), Only(wait))),
        Each(Wire, 1, Binary(And, Same(waits), Same(WAITING))),
        Each(Wire, 1, Conditional(Same(bars), Only(none), Same(asks))),
        Chain(
            Wire,
            2,
            Constant(3),
            Conditional(Same(grants), Same(operations), Before(operation)),
        ),
        Chain(
            Wire,
            64,
            Constant(0),
            Conditional(Same(grants), Same(counts), Before(new_count)),
        ),
        Each(
            Wire,
            1,
            Conditional(Same(grants), Only(some), Same(WAITING)),
        ),
        Each(Wire, 64, Conditional(Same(bits), Only(unit), Only(nought))),
        Chain(Wire, 64, Constant(0), Binary(Add, Before(sum), Same(ones))),
        One(Wire, 1, Binary(Less, Last(sum), Only(count))),
        One(Wire, 1, Binary(Equal, Last(operation), Only(wait))),
        One(Wire, 1, Binary(Equal, Last(operation), Only(nothing))),
        One(Wire, 1, Binary(Equal, Last(operation), Only(init))),
        Each(Wire, 1, Conditional(Only(short), Same(bits), Only(none))),
        Each(
            Wire,
            1,
            Conditional(Only(is_nothing), Same(WAITING), Only(none)),
        ),
        One(
            Wire,
            64,
            Conditional(Only(is_init), Last(new_count), Only(nought)),
        ),
        One(
            Wire,
            64,
            Conditional(Only(is_nothing), Only(count), Only(given)),
        ),
        Each(
            Wire,
            1,
            Conditional(Only(is_wait), Same(stays), Same(others)),
        ),
        One(
            Wire,
            64,
            Conditional(Only(is_wait), Only(count), Only(fresh)),
        ),
        Each(Offer, 1, Output(Same(may))),
        Each(Told, 1, Output(Same(WAITING))),
    ]
}
