// The modules `top` and `top_rr`, behind those that they wire.

ghost use Rattle.std.specs.Prelude.{◌≡◌, ◌+◌, ◌-◌, ◌^◌, ◌<◌, ◌≤◌, ◌++◌, length, IfOk};
ghost use Rattle.top_parts.specs.Parts.{parts, ask_widths};
ghost use Rattle.top_parts.specs.Wires.{enables, blocks, starts_from};
ghost use Rattle.top_wiring.specs.Top.{top_signals, instances_of, done_place, all_wires, starts, IsTop, IsSmall};
ghost use Rattle.top_wiring.specs.Wired.{IsWired};
ghost use Rattle.top_wiring.specs.Sound.{AreSound};
ghost use Rattle.top_wiring.specs.Leaves.{AreLeaves, SettlesOnce};
ghost use Rattle.netlist.specs.Sound.{IsSound};

use crate::places::Places;
use crate::round;
use crate::signals::signals;
use netlist::netlist::{Module, Netlist};
use sqlite_items::Items;
use std::alloc::{AllocError, Global};
use top_parts::layout::Layout;
use top_parts::parts::parts;
use top_parts::wires::{Wires, lay_wires};
use verilog_tree::name::Identifier;

/// `top` of these modules.
fn top(alloc: Global, modules: &[Module], layout: &Layout) -> Result<Module, AllocError>
    requires { IsSmall layout.now }
    ensures { IfOk result (IsTop modules.now layout.now) }
{
    let threads = layout.threads.len();
    let cores = layout.cores.len();
    let parts = parts(alloc, layout)?;
    let laid = lay_wires(alloc, modules, parts.as_slice(), threads, 2 + cores)?;
    let Wires { wires, starts } = laid;
    let places = Places {
        parts,
        starts,
        threads,
        cores,
    };
    let done = places.start(0) + places.count(0).saturating_sub(1);
    let signals = signals(alloc, threads, cores, wires.as_slice(), done)?;
    let instances = places.instances(alloc, layout)?;
    Ok(Module {
        name: Identifier::from_text(alloc, "top")?,
        signals,
        memories: Items::new(alloc),
        actions: Items::new(alloc),
        instances,
    })
}

/// The net of these modules: behind them `top`, in which each thread, core and arbiter has an instance, and `top_rr`.
///
/// Where the modules are sound, and one alone writes, in one instance, the net is sound, so that its text is a well-formed
/// net. Where none puts out what depends on its grants, each state of `top` has exactly one settled valuation for each
/// choice. Where they keep their promises as threads, cores and arbiters, `top` is one machine (`law::is_one_machine`).
pub fn wire(alloc: Global, modules: Items<Module>, layout: &Layout) -> Result<Netlist, AllocError>
    requires { IsSmall layout.now }
    ensures wired { IfOk result (IsWired modules layout.now) }
    ensures sound { IfOk result (λ n. AreSound layout.now modules → IsSound n) }
    ensures settles { IfOk result (λ n. (w : IsWired modules layout.now n) → AreLeaves layout.now modules → SettlesOnce n.modules w.top (length layout.now.threads)) }
{
    net(alloc, modules, layout)
}

fn net(alloc: Global, modules: Items<Module>, layout: &Layout) -> Result<Netlist, AllocError>
    requires { IsSmall layout.now }
    ensures { IfOk result (IsWired modules layout.now) }
{
    let mut modules = modules;
    let top = top(alloc, modules.as_slice(), layout)?;
    let number = modules.len();
    let done = top.signals.len().saturating_sub(1);
    let threads = layout.threads.len();
    let round = round::module(alloc, number, threads, layout.cores.len(), done)?;
    modules.push(top)?;
    modules.push(round)?;
    Ok(Netlist { modules })
}
