// The arbiter's module.

ghost use Rattle.std.specs.Prelude.{◌≡◌, ◌≤◌, IfOk};
ghost use Rattle.circuit.specs.Table.{laid};
ghost use Rattle.circuit.specs.Modules.{IsLeaf};
ghost use Rattle.circuit.specs.Interfaces.{IsTableModule};
ghost use Rattle.circuit.specs.Arbitration.{Arbitrates};
ghost use Rattle.bank_arbiter.specs.Arbiter.{rows, places, inputs, input_widths, output_widths, never, IsArbiter};

use circuit::rows::Role::{Ask, Clock, Grant, Preference, Wire};
use circuit::table::Form::{Binary, Conditional, Constant, Count, Input, Output, Pair};
use circuit::table::Operand::{Before, Last, Only, Same};
use circuit::table::Row::{Chain, Each, One};
use circuit::table::{Row, lay};
use netlist::netlist::{Module, Signal};
use sqlite_items::Items;
use std::alloc::{AllocError, Global};
use verilog_tree::name::Identifier;
use verilog_tree::tree::BinaryOperator::Less;

/// An arbiter of this many threads: it grants the first thread that asks at or after the preferred one, and where there
/// is none the first of all; it grants none exactly where none asks.
///
/// Its inputs are `clk`, the preferred thread of 6 bits and for each thread whether it asks; its outputs are for each
/// thread whether it is granted. The module is laid out soundly, whatever modules stand before it.
pub fn module(alloc: Global, threads: usize) -> Result<Module, AllocError>
    requires few { threads ≤ 64 }
    ensures arbitrates { IfOk result (Arbitrates threads (places threads)) }
    ensures leaf { IfOk result (λ m. IsLeaf m (inputs threads) never) }
    ensures table { IfOk result (IsArbiter threads) }
    ensures stands { IfOk result (λ m. IsTableModule m (input_widths threads) (output_widths threads)) }
{
    table(alloc, threads)
}

fn table(alloc: Global, threads: usize) -> Result<Module, AllocError>
    requires few { threads ≤ 64 }
    ensures { IfOk result (IsArbiter threads) }
{
    Ok(Module {
        name: Identifier::from_text(alloc, "arbiter")?,
        signals: signals(alloc, threads)?,
        memories: Items::new(alloc),
        actions: Items::new(alloc),
        instances: Items::new(alloc),
    })
}

fn signals(alloc: Global, threads: usize) -> Result<Items<Signal>, AllocError>
    requires few { threads ≤ 64 }
    ensures { IfOk result (λ signals. signals ≡ laid threads rows) }
{
    lay(alloc, threads, &rows())
}

/// The table. A thread that asks at or after the preferred one is preferred. Where there is one, the candidates are the preferred
/// threads, else all that ask; the first candidate is granted.
fn rows() -> [Row; 15]
    ensures { result ≡ rows }
{
    let preference = 1;
    let asks = 2;
    let zeros = 3;
    let wide = 4;
    let none = 5;
    let one = 6;
    let numbers = 7;
    let earlier = 8;
    let preferred = 9;
    let any = 10;
    let candidates = 11;
    let taken = 12;
    let chosen = 13;
    [
        One(Clock, 1, Input),
        One(Preference, 6, Input),
        Each(Ask, 1, Input),
        One(Wire, 2, Constant(0)),
        One(Wire, 8, Pair(Only(zeros), Only(preference))),
        One(Wire, 1, Constant(0)),
        One(Wire, 1, Constant(1)),
        Each(Wire, 8, Count(0)),
        Each(Wire, 1, Binary(Less, Same(numbers), Only(wide))),
        Each(Wire, 1, Conditional(Same(earlier), Only(none), Same(asks))),
        Chain(
            Wire,
            1,
            Constant(0),
            Conditional(Same(preferred), Only(one), Before(any)),
        ),
        Each(Wire, 1, Conditional(Last(any), Same(preferred), Same(asks))),
        Chain(
            Wire,
            1,
            Constant(0),
            Conditional(Same(candidates), Only(one), Before(taken)),
        ),
        Each(
            Wire,
            1,
            Conditional(Before(taken), Only(none), Same(candidates)),
        ),
        Each(Grant, 1, Output(Same(chosen))),
    ]
}
