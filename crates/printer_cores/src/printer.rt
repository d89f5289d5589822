// The printer's module.

ghost use Rattle.std.specs.Prelude.{◌≡◌, ◌*◌, ◌^◌, ◌<◌, ◌≤◌, ◌++◌, [], ◌∷◌, IfOk, OnOk};
ghost use Rattle.circuit.specs.Table.{laid};
ghost use Rattle.circuit.specs.Modules.{IsLeaf};
ghost use Rattle.circuit.specs.Interfaces.{IsTableModule};
ghost use Rattle.circuit.specs.Machines.{IsCore};
ghost use Rattle.printer_cores.specs.Format.{IsSite};
ghost use Rattle.printer_cores.specs.Machine.{printer_machine, printer_places, inputs, input_widths, output_widths, is_late};
ghost use Rattle.printer_cores.specs.Rows.{hits};
ghost use Rattle.printer_cores.specs.Printer.{table_of, at, results, write, writes_from, IsShape, IsPrinter};

use crate::format::{Part, arguments, string};
use circuit::rows::Role::{Ask, Clock, Grant, Offer, Site, Value, Wire};
use circuit::table::Form::{Binary, Conditional, Constant, Count, Input, Output};
use circuit::table::Operand::{Before, Group, Last, Only, Same};
use circuit::table::Row::{Chain, Chains, Each, Many, One};
use circuit::table::Size::{Fixed, PerThread};
use circuit::table::{Row, lay, place};
use netlist::netlist::{Action, Effect, Module, Signal};
use sqlite_items::Items;
use std::alloc::{AllocError, Global};
use verilog_tree::name::Identifier;
use verilog_tree::tree::BinaryOperator::{And, Equal};

/// The number of threads, of the values that a thread hands over with a request, and the print sites by their number.
#[derive(Drop)]
pub struct Shape {
    pub threads: usize,
    pub values: usize,
    pub sites: Items<Items<Part>>,
}

/// The printer of a shape: at most 64 threads, 255 values and 65,535 sites, none with more values than the shape has.
///
/// Under a grant it writes the text of the site that the thread asks for, with the thread's values; without a grant it
/// writes nothing. Its inputs are `clk`, then for each thread whether it asks, for each its site, for each its values of
/// 64 bits one after another, and for each whether it is granted; its outputs are for each thread whether its request
/// may be granted. The module is laid out soundly, whatever modules stand before it.
pub fn module(alloc: Global, shape: &Shape) -> Result<Module, AllocError>
    requires { IsShape shape.now }
    ensures core { IfOk result (IsCore (printer_machine shape.now) (printer_places shape.now) shape.now.threads) }
    ensures leaf { IfOk result (λ m. IsLeaf m (inputs shape.now) (is_late shape.now)) }
    ensures table { IfOk result (IsPrinter shape.now) }
    ensures stands { IfOk result (λ m. IsTableModule m (input_widths shape.now) (output_widths shape.now)) }
{
    table(alloc, shape)
}

fn table(alloc: Global, shape: &Shape) -> Result<Module, AllocError>
    requires { IsShape shape.now }
    ensures { IfOk result (IsPrinter shape.now) }
{
    let signals = signals(alloc, shape)?;
    let actions = actions(alloc, shape)?;
    Ok(Module {
        name: Identifier::from_text(alloc, "printer")?,
        signals,
        memories: Items::new(alloc),
        actions,
        instances: Items::new(alloc),
    })
}

/// One `$write` for each site, under the wire that says that it is asked for and granted.
fn actions(alloc: Global, shape: &Shape) -> Result<Items<Action>, AllocError>
    requires { IsShape shape.now }
    ensures { IfOk result (λ actions. actions ≡ writes_from (at shape.now hits) (results shape.now) 0 shape.now.sites) }
{
    let hits = place(shape.threads, &rows(shape), HITS);
    let first = results_place(shape);
    let mut actions = Items::new(alloc);
    for (site, parts) in shape.sites.as_slice().iter().enumerate() {
        push_write(alloc, &mut actions, hits + site, parts.as_slice(), first)?;
    }
    Ok(actions)
}

fn push_write(
    alloc: Global,
    actions: &mut Items<Action>,
    hit: usize,
    parts: &[Part],
    first: usize,
) -> Result<(), AllocError>
    requires right { IsSite 256 parts.now }
    requires small { first < 2 ^ 40 }
    ensures { OnOk result (actions.new ≡ actions.old ++ write hit first parts.now ∷ []) }
{
    let conditions = Items::from_slice(alloc, &[hit])?;
    let text = string(alloc, parts)?;
    let arguments = arguments(alloc, parts, first)?;
    actions.push(Action {
        conditions,
        effect: Effect::Write { text, arguments },
    })
}

/// The number of all values of all threads.
fn products(threads: usize, values: usize) -> usize
    requires few { threads ≤ 64 }
    requires few_values { values < 256 }
    ensures product { result ≡ threads * values }
    ensures small { result < 2 ^ 16 }
{
    threads * values
}

/// The place of the first value of the granted thread.
fn results_place(shape: &Shape) -> usize
    requires { IsShape shape.now }
    ensures place { result ≡ results shape.now }
    ensures low { result < 2 ^ 40 }
{
    place(shape.threads, &rows(shape), VALUE) + products(shape.threads, shape.values)
}

fn signals(alloc: Global, shape: &Shape) -> Result<Items<Signal>, AllocError>
    requires { IsShape shape.now }
    ensures { IfOk result (λ signals. signals ≡ laid shape.now.threads (table_of shape.now)) }
{
    lay(alloc, shape.threads, &rows(shape))
}

// The rows that `$write`s name, by their numbers.
const VALUE: usize = 8;

const HITS: usize = 11;

/// The table. Chains of wires hand on whether a thread is granted, and the site and each value of the granted thread; a site's wire is
/// 1 where a thread is granted and asks for that site.
fn rows(shape: &Shape) -> [Row; 13]
    requires { IsShape shape.now }
    ensures { result ≡ table_of shape.now }
{
    let count = shape.values as u16;
    let of_sites = Fixed(shape.sites.len() as u16);
    let asks = 1;
    let sites = 2;
    let values = 3;
    let grants = 4;
    let one = 5;
    let going = 6;
    let site = 7;
    let numbers = 9;
    let equals = 10;
    [
        One(Clock, 1, Input),
        Each(Ask, 1, Input),
        Each(Site, 16, Input),
        Many(PerThread(count), Value, 64, Input),
        Each(Grant, 1, Input),
        One(Wire, 1, Constant(1)),
        Chain(
            Wire,
            1,
            Constant(0),
            Conditional(Same(grants), Only(one), Before(going)),
        ),
        Chain(
            Wire,
            16,
            Constant(0),
            Conditional(Same(grants), Same(sites), Before(site)),
        ),
        Chains(
            count,
            Wire,
            64,
            Constant(0),
            Conditional(Group(grants, count), Same(values), Before(VALUE)),
        ),
        Many(of_sites, Wire, 16, Count(0)),
        Many(of_sites, Wire, 1, Binary(Equal, Last(site), Same(numbers))),
        Many(of_sites, Wire, 1, Binary(And, Last(going), Same(equals))),
        Each(Offer, 1, Output(Same(asks))),
    ]
}
