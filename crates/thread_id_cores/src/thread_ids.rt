// The module of the core of the thread ids.

ghost use Rattle.std.specs.Prelude.{◌≡◌, ◌≤◌, [], ◌∷◌, replicate, IfOk};
ghost use Rattle.circuit.specs.Table.{laid};
ghost use Rattle.circuit.specs.Modules.{IsLeaf};
ghost use Rattle.circuit.specs.Interfaces.{IsTableModule};
ghost use Rattle.circuit.specs.Machines.{IsCore};
ghost use Rattle.thread_id_cores.specs.ThreadIds.{end, status_memory, argument_memory, rows, statements, store_under, IsShape, IsThreadIdsModule};
ghost use Rattle.thread_id_cores.specs.Machine.{thread_ids_machine, thread_ids_places, inputs, input_widths, output_widths, is_late};

use circuit::rows::Role::{Address, Ask, Clock, Data, Grant, Offer, Operation, Told, Wire};
use circuit::table::Form::{Binary, Conditional, Constant, Count, Input, MemoryRead, Output};
use circuit::table::Operand::{Before, Only, Same};
use circuit::table::Row::{Chain, Each, One};
use circuit::table::{Row, lay, place};
use netlist::netlist::{Action, Effect, Memory, Module, Signal};
use sqlite_items::Items;
use std::alloc::{AllocError, Global};
use verilog_tree::name::Identifier;
use verilog_tree::tree::BinaryOperator::Equal;

/// A core of the thread ids that so many threads ask.
#[derive(Drop)]
pub struct Shape {
    pub threads: usize,
}

/// The core of the thread ids, of at least one thread and at most 64.
///
/// Of each id, which is the number of a thread, it keeps whether it is unused, runs or is finished, and the argument of
/// its last create. A create is eligible where its id does not run; under a grant the id runs, with its argument. A join
/// is eligible where its id is finished; under a grant the id is unused. A finish is always eligible; under a grant the
/// thread's own id is finished. Without a grant nothing changes. An id that no thread has is unused, and nothing is kept
/// for it.
///
/// Its inputs are `clk`, then for each thread whether it asks, for each its operation (0 create, 1 join, 2 and 3 finish),
/// for each its id, for each its argument, and for each whether it is granted; its outputs are for each thread whether
/// its request may be granted, for each whether it runs, and for each its argument. The module is laid out soundly,
/// whatever modules stand before it.
pub fn module(alloc: Global, shape: &Shape) -> Result<Module, AllocError>
    requires { IsShape shape.now }
    ensures core { IfOk result (IsCore (thread_ids_machine shape.now) (thread_ids_places shape.now) shape.now.threads) }
    ensures leaf { IfOk result (λ m. IsLeaf m (inputs shape.now) (is_late shape.now)) }
    ensures table { IfOk result (IsThreadIdsModule shape.now) }
    ensures stands { IfOk result (λ m. IsTableModule m (input_widths shape.now) (output_widths shape.now)) }
{
    table(alloc, shape)
}

fn table(alloc: Global, shape: &Shape) -> Result<Module, AllocError>
    requires { IsShape shape.now }
    ensures { IfOk result (IsThreadIdsModule shape.now) }
{
    let signals = signals(alloc, shape.threads)?;
    let memories = memories(alloc, shape.threads)?;
    let actions = actions(alloc, shape.threads)?;
    Ok(Module {
        name: Identifier::from_text(alloc, "forkjoin")?,
        signals,
        memories,
        actions,
        instances: Items::new(alloc),
    })
}

/// The statuses and the arguments, all 0 at first.
fn memories(alloc: Global, threads: usize) -> Result<Items<Memory>, AllocError>
    ensures { IfOk result (λ memories. memories ≡ status_memory threads ∷ argument_memory threads ∷ []) }
{
    let status = Memory {
        name: Identifier::from_text(alloc, "status_0")?,
        width: 2,
        initial: zeros(alloc, threads)?,
    };
    let argument = Memory {
        name: Identifier::from_text(alloc, "argument_0")?,
        width: 64,
        initial: zeros(alloc, threads)?,
    };
    let mut memories = Items::new(alloc);
    memories.push(status)?;
    memories.push(argument)?;
    Ok(memories)
}

fn zeros(alloc: Global, count: usize) -> Result<Items<u64>, AllocError>
    ensures { IfOk result (λ zeros. zeros ≡ replicate count 0) }
{
    Ok(Items::from_vec(vec![in alloc; 0; count]?))
}

fn store_under(
    alloc: Global,
    memory: usize,
    test: usize,
    address: usize,
    source: usize,
) -> Result<Action, AllocError>
    ensures { IfOk result (λ action. action ≡ store_under memory test address source) }
{
    Ok(Action {
        conditions: Items::from_slice(alloc, &[test])?,
        effect: Effect::Store {
            memory,
            address,
            source,
        },
    })
}

/// A grant stores a status, and that of a create the argument too.
fn actions(alloc: Global, threads: usize) -> Result<Items<Action>, AllocError>
    requires few { threads ≤ 64 }
    ensures { IfOk result (λ actions. actions ≡ statements threads) }
{
    let mut actions = Items::new(alloc);
    let target = end_of(threads, TARGET);
    let status = store_under(
        alloc,
        0,
        end_of(threads, GOING),
        target,
        end_of(threads, VALUE),
    )?;
    actions.push(status)?;
    let given = store_under(
        alloc,
        1,
        end_of(threads, CREATE),
        target,
        end_of(threads, ARGUMENT),
    )?;
    actions.push(given)?;
    Ok(actions)
}

/// The place of the end of a chain.
fn end_of(threads: usize, chain: usize) -> usize
    requires few { threads ≤ 64 }
    ensures { result ≡ end threads chain }
{
    place(threads, &rows(), chain) + threads
}

fn signals(alloc: Global, threads: usize) -> Result<Items<Signal>, AllocError>
    requires few { threads ≤ 64 }
    ensures { IfOk result (λ signals. signals ≡ laid threads rows) }
{
    lay(alloc, threads, &rows())
}

// The rows that statements name, by their numbers.
const GOING: usize = 28;

const TARGET: usize = 29;

const VALUE: usize = 30;

const ARGUMENT: usize = 31;

const CREATE: usize = 32;

/// The table. Of each thread wires compare the status of the id that it names and its operation, and choose what it would
/// store; chains of wires hand on that of the granted thread.
fn rows() -> [Row; 36]
    ensures { result ≡ rows }
{
    let asks = 1;
    let operations = 2;
    let ids = 3;
    let arguments = 4;
    let grants = 5;
    let zero_code = 6;
    let one_code = 7;
    let two_code = 8;
    let none = 9;
    let some = 10;
    let statuses = 11;
    let running = 12;
    let finished = 13;
    let creates = 14;
    let joins = 15;
    let may_create = 16;
    let may_join = 17;
    let others = 18;
    let may = 19;
    let numbers = 20;
    let aims = 21;
    let targets = 22;
    let ends = 23;
    let values = 24;
    let own = 25;
    let runs = 26;
    let given = 27;
    [
        One(Clock, 1, Input),
        Each(Ask, 1, Input),
        Each(Operation, 2, Input),
        Each(Address, 64, Input),
        Each(Data, 64, Input),
        Each(Grant, 1, Input),
        One(Wire, 2, Constant(0)),
        One(Wire, 2, Constant(1)),
        One(Wire, 2, Constant(2)),
        One(Wire, 1, Constant(0)),
        One(Wire, 1, Constant(1)),
        Each(Wire, 2, MemoryRead(0, Same(ids))),
        Each(Wire, 1, Binary(Equal, Same(statuses), Only(one_code))),
        Each(Wire, 1, Binary(Equal, Same(statuses), Only(two_code))),
        Each(Wire, 1, Binary(Equal, Same(operations), Only(zero_code))),
        Each(Wire, 1, Binary(Equal, Same(operations), Only(one_code))),
        Each(Wire, 1, Conditional(Same(running), Only(none), Same(asks))),
        Each(Wire, 1, Conditional(Same(finished), Same(asks), Only(none))),
        Each(
            Wire,
            1,
            Conditional(Same(joins), Same(may_join), Same(asks)),
        ),
        Each(
            Wire,
            1,
            Conditional(Same(creates), Same(may_create), Same(others)),
        ),
        Each(Wire, 64, Count(0)),
        Each(Wire, 64, Conditional(Same(joins), Same(ids), Same(numbers))),
        Each(Wire, 64, Conditional(Same(creates), Same(ids), Same(aims))),
        Each(
            Wire,
            2,
            Conditional(Same(joins), Only(zero_code), Only(two_code)),
        ),
        Each(
            Wire,
            2,
            Conditional(Same(creates), Only(one_code), Same(ends)),
        ),
        Each(Wire, 2, MemoryRead(0, Same(numbers))),
        Each(Wire, 1, Binary(Equal, Same(own), Only(one_code))),
        Each(Wire, 64, MemoryRead(1, Same(numbers))),
        Chain(
            Wire,
            1,
            Constant(0),
            Conditional(Same(grants), Only(some), Before(GOING)),
        ),
        Chain(
            Wire,
            64,
            Constant(0),
            Conditional(Same(grants), Same(targets), Before(TARGET)),
        ),
        Chain(
            Wire,
            2,
            Constant(0),
            Conditional(Same(grants), Same(values), Before(VALUE)),
        ),
        Chain(
            Wire,
            64,
            Constant(0),
            Conditional(Same(grants), Same(arguments), Before(ARGUMENT)),
        ),
        Chain(
            Wire,
            1,
            Constant(0),
            Conditional(Same(grants), Same(creates), Before(CREATE)),
        ),
        Each(Offer, 1, Output(Same(may))),
        Each(Told, 1, Output(Same(runs))),
        Each(Told, 64, Output(Same(given))),
    ]
}
