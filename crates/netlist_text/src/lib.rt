//! A netlist laid out as the tree of a Verilog text, whose netlist it is.
//! `rt plant`: of 47 wrong bodies in 17 functions 46 are refused and 1 answers the same.
#![tactic(auto)]

ghost use Rattle.std.specs.Prelude.{◌≡◌, IfOk, map};
ghost use Rattle.netlist.specs.Laid.{IsLaid};
ghost use Rattle.netlist.specs.NetlistOf.{netlist_of};
ghost use Rattle.netlist.specs.Sound.{IsSound};
ghost use Rattle.netlist_text.specs.LaidOut as laid;
ghost use Rattle.netlist_text.specs.Portable.{HasFreeNames, IsPortable};
ghost use Rattle.verilog_tree.specs.WellFormed.{IsWellFormed};

mod expressions;
mod items;
mod modules;
mod names;
mod statements;

use netlist::netlist::Netlist;
use std::alloc::{AllocError, Global};
use verilog_tree::tree::Net;

/// The text's tree of a netlist: of each module its ports, its wires and registers, its memories, the assigns in order
/// of their targets, one initial block, one always block where there are actions, and the instances.
///
/// A signal of one bit has no range. A place that is none of its module's gets the module's name. The netlist of the
/// tree is the given one where that can be laid out (`IsLaid`), and the tree is a well-formed net where also widths agree,
/// registers are set, the clock is read by nothing and one module alone writes (`IsSound`). Each name is then declared before it
/// is used; and no name is a reserved word where the netlist calls nothing by one.
pub fn text_of(alloc: Global, netlist: &Netlist) -> Result<Net, AllocError>
    ensures form { IfOk result (λ net. net ≡ laid.net_of netlist.now) }
    ensures netlist { IfOk result (λ net. IsLaid netlist.now → netlist_of net ≡ netlist.now) }
    ensures well_formed { IfOk result (λ net. IsSound netlist.now → IsWellFormed net) }
    ensures portable { IfOk result (λ net. IsSound netlist.now → HasFreeNames netlist.now → IsPortable net) }
{
    let modules = modules::text_modules(alloc, netlist.modules.as_slice())?;
    Ok(Net { modules })
}
