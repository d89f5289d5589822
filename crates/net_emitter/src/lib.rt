//! The text of the net of a table: the modules of threads, the arbiter and the cores that are wanted, wired to one net.
//! `rt plant`: no wrong body that it makes for the 1 function compiles.
#![tactic(auto)]

ghost use Rattle.std.specs.Prelude.{◌≡◌, ◌≤◌, ◌++◌, ◌∷◌, IfOk};
ghost use Rattle.core_places.specs.Tables.{IsArbiterModule};
ghost use Rattle.core_places.specs.Kinds.{HaveModules};
ghost use Rattle.net_emitter.specs.Written.{FitsTable, IsTextOf};

use bank_arbiter::arbiter;
use core_family::cores::Cores;
use core_places::kinds::kinds;
use core_places::layout::layout;
use hls_io::Bytes;
use netlist::netlist::{Module, Netlist};
use netlist_text::text_of;
use sqlite_items::Items;
use std::alloc::{AllocError, Global};
use top_wiring::wire;
use verilog_writer::write;

/// A net, and its text.
#[derive(Drop)]
pub struct Written {
    pub net: Netlist,
    pub text: Bytes,
}

/// The module of the arbiters.
fn arbiter_module(alloc: Global, threads: usize) -> Result<Module, AllocError>
    requires { threads ≤ 64 }
    ensures { IfOk result (IsArbiterModule threads) }
{
    arbiter::module(alloc, threads)
}

/// The modules of threads, the arbiter's, and those of cores, as the layout numbers them.
fn table(
    routines: Items<Module>,
    arbiter: Module,
    kinds: Items<Module>,
) -> Result<Items<Module>, AllocError>
    ensures { IfOk result (λ modules. modules ≡ routines ++ arbiter ∷ kinds) }
{
    let mut modules = routines;
    modules.push(arbiter)?;
    modules.append(kinds)?;
    Ok(modules)
}

/// The net of these threads, each by the number of its module among the modules of threads, and of the cores that are wanted,
/// each behind an arbiter; and its text.
pub fn verilog(
    alloc: Global,
    threads: Items<usize>,
    routines: Items<Module>,
    wanted: &Cores,
) -> Result<Written, AllocError>
    requires cores { HaveModules wanted.now }
    requires fits { FitsTable threads routines wanted.now }
    ensures { IfOk result (λ w. IsTextOf threads routines wanted.now w.net w.text) }
{
    let layout = layout(alloc, threads, routines.len(), wanted)?;
    let arbiter = arbiter_module(alloc, wanted.threads)?;
    let kinds = kinds(alloc, wanted)?;
    let table = table(routines, arbiter, kinds)?;
    let netlist = wire(alloc, table, &layout)?;
    let net = text_of(alloc, &netlist)?;
    let text = write(alloc, &net)?;
    Ok(Written { net: netlist, text })
}
