// The module of a bank.

ghost use Rattle.std.specs.Prelude.{◌≡◌, ◌≤◌, [], ◌∷◌, IfOk};
ghost use Rattle.circuit.specs.Table.{laid};
ghost use Rattle.circuit.specs.Modules.{IsLeaf};
ghost use Rattle.circuit.specs.Interfaces.{IsTableModule};
ghost use Rattle.circuit.specs.Machines.{IsCore};
ghost use Rattle.bank_cores.specs.Bank.{bank_name, end, memory_of, rows, statements, store_under, IsShape, IsBank};
ghost use Rattle.bank_cores.specs.Machine.{bank_machine, bank_places, inputs, input_widths, output_widths, is_late};

use crate::name::GlobalName;
use circuit::rows::Role::{Address, Ask, Clock, Data, Grant, Offer, Operation, State, Told, Wire};
use circuit::rows::sets;
use circuit::table::Form::{Binary, Conditional, Constant, Input, MemoryRead, Output, Register};
use circuit::table::Operand::{Before, Last, Only, Same};
use circuit::table::Row::{Chain, Each, One};
use circuit::table::{Row, lay, place};
use netlist::netlist::{Action, Effect, Memory, Module, Signal};
use sqlite_items::Items;
use std::alloc::{AllocError, Global};
use verilog_tree::name::Identifier;
use verilog_tree::tree::BinaryOperator::{And, Equal};

/// A bank that so many threads ask: the name of its global, its number among the banks of that global, the width of an
/// address in bits, the width of a word in bits, and the first value of each word.
#[derive(Drop)]
pub struct Shape {
    pub threads: usize,
    pub name: GlobalName,
    pub number: u64,
    pub address_width: u64,
    pub width: u64,
    pub initial: Items<u64>,
}

/// The core of a bank: at most 64 threads, at least one word and fewer than 2 to the width of an address, which is at
/// most 64; words of 1 to 64 bits, and first values that fit them.
///
/// A request is always eligible. Under a grant a write puts its value into the word of its address, and a read puts that
/// word into a register that is kept for the thread, until the thread's next granted read; without a grant nothing
/// changes. Past the last word 0 is read and nothing is written.
///
/// Its inputs are `clk`, then for each thread whether it asks, for each whether it writes, for each its address, for each
/// its value, and for each whether it is granted; its outputs are for each thread whether its request may be granted, and
/// for each the word that is kept for it. The module is laid out soundly, whatever modules stand before it.
pub fn module(alloc: Global, shape: &Shape) -> Result<Module, AllocError>
    requires { IsShape shape.now }
    ensures core { IfOk result (IsCore (bank_machine shape.now) (bank_places shape.now) shape.now.threads) }
    ensures leaf { IfOk result (λ m. IsLeaf m (inputs shape.now) (is_late shape.now)) }
    ensures table { IfOk result (IsBank shape.now) }
    ensures stands { IfOk result (λ m. IsTableModule m (input_widths shape.now) (output_widths shape.now)) }
{
    table(alloc, shape)
}

fn table(alloc: Global, shape: &Shape) -> Result<Module, AllocError>
    requires { IsShape shape.now }
    ensures { IfOk result (IsBank shape.now) }
{
    let name = name(alloc, shape)?;
    let signals = signals(alloc, shape.threads, shape.address_width, shape.width)?;
    let memories = memories(alloc, shape)?;
    let actions = actions(alloc, shape.threads)?;
    Ok(Module {
        name,
        signals,
        memories,
        actions,
        instances: Items::new(alloc),
    })
}

/// The name of the bank, which its memory has too.
fn name(alloc: Global, shape: &Shape) -> Result<Identifier, AllocError>
    ensures { IfOk result (λ name. name ≡ bank_name shape.now.name shape.now.number) }
{
    let stem = Identifier::from_text(alloc, "bank")?;
    let of_global = stem.with_suffix(shape.name.as_str())?;
    of_global.with_number(alloc, shape.number)
}

fn memories(alloc: Global, shape: &Shape) -> Result<Items<Memory>, AllocError>
    ensures { IfOk result (λ memories. memories ≡ memory_of shape.now ∷ []) }
{
    let name = name(alloc, shape)?;
    let initial = Items::from_slice(alloc, shape.initial.as_slice())?;
    let mut memories = Items::new(alloc);
    memories.push(Memory {
        name,
        width: shape.width,
        initial,
    })?;
    Ok(memories)
}

fn store_under(
    alloc: Global,
    test: usize,
    address: usize,
    source: usize,
) -> Result<Action, AllocError>
    ensures { IfOk result (λ action. action ≡ store_under test address source) }
{
    Ok(Action {
        conditions: Items::from_slice(alloc, &[test])?,
        effect: Effect::Store {
            memory: 0,
            address,
            source,
        },
    })
}

/// Each kept word takes its next one, and the granted thread's value is stored where it writes.
fn actions(alloc: Global, threads: usize) -> Result<Items<Action>, AllocError>
    requires few { threads ≤ 64 }
    ensures { IfOk result (λ actions. actions ≡ statements threads) }
{
    let rows = rows(1, 1);
    let kept = place(threads, &rows, KEPT);
    let next = place(threads, &rows, NEXT);
    let mut actions = sets(alloc, kept, next, threads)?;
    let stores = end_of(threads, STORES);
    let store = store_under(
        alloc,
        stores,
        end_of(threads, ADDRESS),
        end_of(threads, VALUE),
    )?;
    actions.push(store)?;
    Ok(actions)
}

/// The place of the end of a chain.
fn end_of(threads: usize, chain: usize) -> usize
    requires few { threads ≤ 64 }
    ensures { result ≡ end threads chain }
{
    place(threads, &rows(1, 1), chain) + threads
}

fn signals(
    alloc: Global,
    threads: usize,
    address_width: u64,
    width: u64,
) -> Result<Items<Signal>, AllocError>
    requires few { threads ≤ 64 }
    ensures { IfOk result (λ signals. signals ≡ laid threads (rows address_width width)) }
{
    lay(alloc, threads, &rows(address_width, width))
}

// The rows that statements name, by their numbers.
const KEPT: usize = 6;

const ADDRESS: usize = 9;

const VALUE: usize = 10;

const STORES: usize = 11;

const NEXT: usize = 14;

/// The table, for addresses and words of these widths. Chains of wires hand on the address and the value of the granted
/// thread, and whether it writes; a thread whose read is granted takes the word at that address.
fn rows(address_width: u64, width: u64) -> [Row; 17]
    ensures { result ≡ rows address_width width }
{
    let asks = 1;
    let operations = 2;
    let addresses = 3;
    let values = 4;
    let grants = 5;
    let none = 7;
    let reads = 8;
    let word = 12;
    let takes = 13;
    [
        One(Clock, 1, Input),
        Each(Ask, 1, Input),
        Each(Operation, 1, Input),
        Each(Address, address_width, Input),
        Each(Data, width, Input),
        Each(Grant, 1, Input),
        Each(State, width, Register(0)),
        One(Wire, 1, Constant(0)),
        Each(Wire, 1, Binary(Equal, Same(operations), Only(none))),
        Chain(
            Wire,
            address_width,
            Constant(0),
            Conditional(Same(grants), Same(addresses), Before(ADDRESS)),
        ),
        Chain(
            Wire,
            width,
            Constant(0),
            Conditional(Same(grants), Same(values), Before(VALUE)),
        ),
        Chain(
            Wire,
            1,
            Constant(0),
            Conditional(Same(grants), Same(operations), Before(STORES)),
        ),
        One(Wire, width, MemoryRead(0, Last(ADDRESS))),
        Each(Wire, 1, Binary(And, Same(grants), Same(reads))),
        Each(
            Wire,
            width,
            Conditional(Same(takes), Only(word), Same(KEPT)),
        ),
        Each(Offer, 1, Output(Same(asks))),
        Each(Told, width, Output(Same(KEPT))),
    ]
}
