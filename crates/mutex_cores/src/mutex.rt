// The module of a mutex.

ghost use Rattle.std.specs.Prelude.{◌≡◌, ◌≤◌, IfOk};
ghost use Rattle.circuit.specs.Table.{laid};
ghost use Rattle.circuit.specs.Modules.{IsLeaf};
ghost use Rattle.circuit.specs.Interfaces.{IsTableModule};
ghost use Rattle.circuit.specs.Machines.{IsCore};
ghost use Rattle.mutex_cores.specs.Mutex.{mutex_name, first_word, rows, statements, IsShape, IsMutex};
ghost use Rattle.mutex_cores.specs.Machine.{mutex_machine, mutex_places, inputs, input_widths, output_widths, is_late};

use circuit::rows::Role::{Ask, Clock, Grant, Offer, Operation, State, Wire};
use circuit::rows::sets;
use circuit::table::Form::{Binary, Conditional, Constant, Copy, Count, Input, Output, Register};
use circuit::table::Operand::{Before, Only, Same};
use circuit::table::Row::{Chain, Each, One};
use circuit::table::{Row, lay, place};
use netlist::netlist::{Action, Module, Signal};
use sqlite_items::Items;
use std::alloc::{AllocError, Global};
use verilog_tree::name::Identifier;
use verilog_tree::tree::BinaryOperator::{And, Equal, Less};

/// A mutex that so many threads ask, and whether it is initialised at the start.
#[derive(Clone, Copy)]
pub struct Shape {
    pub threads: usize,
    pub initialised: bool,
}

/// The core of a mutex: at most 64 threads.
///
/// A thread asks for an operation: 0 init, 1 lock, 2 unlock, 3 destroy. A lock is eligible where no thread owns the mutex,
/// all else always. Under a grant of a lock the thread owns the mutex, of a destroy it is unset, and of all else it is free;
/// without a grant nothing changes.
///
/// Its inputs are `clk`, then for each thread whether it asks, for each its operation of 2 bits, and for each whether it is
/// granted; its outputs are for each thread whether its request may be granted. The module is laid out soundly, whatever
/// modules stand before it.
pub fn module(alloc: Global, shape: &Shape) -> Result<Module, AllocError>
    requires { IsShape shape.now }
    ensures core { IfOk result (IsCore (mutex_machine shape.now) (mutex_places shape.now) shape.now.threads) }
    ensures leaf { IfOk result (λ m. IsLeaf m (inputs shape.now) (is_late shape.now)) }
    ensures table { IfOk result (IsMutex shape.now) }
    ensures stands { IfOk result (λ m. IsTableModule m (input_widths shape.now) (output_widths shape.now)) }
{
    table(alloc, shape)
}

fn table(alloc: Global, shape: &Shape) -> Result<Module, AllocError>
    requires { IsShape shape.now }
    ensures { IfOk result (IsMutex shape.now) }
{
    let name = name(alloc, shape.initialised)?;
    let signals = signals(alloc, shape.threads, shape.initialised)?;
    let actions = actions(alloc, shape.threads, shape.initialised)?;
    Ok(Module {
        name,
        signals,
        memories: Items::new(alloc),
        actions,
        instances: Items::new(alloc),
    })
}

fn name(alloc: Global, initialised: bool) -> Result<Identifier, AllocError>
    ensures { IfOk result (λ name. name ≡ mutex_name initialised) }
{
    if initialised {
        Identifier::from_text(alloc, "mutex_1")
    } else {
        Identifier::from_text(alloc, "mutex")
    }
}

/// What the register has at the start.
fn first_word(initialised: bool) -> u64
    ensures { result ≡ first_word initialised }
{
    if initialised { 1 } else { 0 }
}

/// The register takes the number at the end of the chain.
fn actions(alloc: Global, threads: usize, initialised: bool) -> Result<Items<Action>, AllocError>
    requires few { threads ≤ 64 }
    ensures { IfOk result (λ actions. actions ≡ statements threads) }
{
    let rows = rows(initialised);
    let owner = place(threads, &rows, OWNER);
    let chain = place(threads, &rows, CHAIN);
    sets(alloc, owner, chain + threads, 1)
}

fn signals(alloc: Global, threads: usize, initialised: bool) -> Result<Items<Signal>, AllocError>
    requires few { threads ≤ 64 }
    ensures { IfOk result (λ signals. signals ≡ laid threads (rows initialised)) }
{
    lay(alloc, threads, &rows(initialised))
}

// The rows that the statement names, by their numbers.
const OWNER: usize = 4;

const CHAIN: usize = 18;

/// The table. A chain hands on the number that the granted thread's request leaves, else the register's own.
fn rows(initialised: bool) -> [Row; 20]
    ensures { result ≡ rows initialised }
{
    let asks = 1;
    let operations = 2;
    let grants = 3;
    let unset = 5;
    let free = 6;
    let lock = 7;
    let destroy = 8;
    let none = 9;
    let owned = 10;
    let locks = 11;
    let barred = 12;
    let allowed = 13;
    let numbers = 14;
    let destroys = 15;
    let others = 16;
    let values = 17;
    [
        One(Clock, 1, Input),
        Each(Ask, 1, Input),
        Each(Operation, 2, Input),
        Each(Grant, 1, Input),
        One(State, 8, Register(first_word(initialised))),
        One(Wire, 8, Constant(0)),
        One(Wire, 8, Constant(1)),
        One(Wire, 2, Constant(1)),
        One(Wire, 2, Constant(3)),
        One(Wire, 1, Constant(0)),
        One(Wire, 1, Binary(Less, Only(free), Only(OWNER))),
        Each(Wire, 1, Binary(Equal, Same(operations), Only(lock))),
        Each(Wire, 1, Binary(And, Same(locks), Only(owned))),
        Each(Wire, 1, Conditional(Same(barred), Only(none), Same(asks))),
        Each(Wire, 8, Count(2)),
        Each(Wire, 1, Binary(Equal, Same(operations), Only(destroy))),
        Each(
            Wire,
            8,
            Conditional(Same(destroys), Only(unset), Only(free)),
        ),
        Each(
            Wire,
            8,
            Conditional(Same(locks), Same(numbers), Same(others)),
        ),
        Chain(
            Wire,
            8,
            Copy(Only(OWNER)),
            Conditional(Same(grants), Same(values), Before(CHAIN)),
        ),
        Each(Offer, 1, Output(Same(allowed))),
    ]
}
