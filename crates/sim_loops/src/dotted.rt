// The path of a signal as a text.

ghost use Rattle.std.specs.Prelude.{◌≡◌, ◌∷◌, [], ◌++◌, Some, slice_get, string_bytes, IfOk, OnOk, MatchOption};
ghost use Rattle.netlist.specs.declared.netlist.Module as netlist_module;
ghost use Rattle.verilog_meaning.specs.Cycles.{module_at};
ghost use Rattle.cycle_sim.specs.Opened.{IsOpenable};
ghost use Rattle.sim_loops.specs.First.{IsLoopless};
ghost use Rattle.sim_loops.specs.Dotted as spec;

use crate::find::{Looped, first_looped};
use cycle_sim::net::top_number;
use netlist::netlist::Module;
use sim_layout::wires::module_signals;
use sim_values::tree::module_instances;
use sqlite_items::at;
use std::alloc::{AllocError, Global};

/// Appends the name of an instance of a module and a dot, and gives the number of the instance's module.
fn put_instance(
    text: &mut String,
    modules: &[Module],
    kind: usize,
    instance: usize,
) -> Result<usize, AllocError>
    ensures text { OnOk result (string_bytes text.new ≡ string_bytes text.old ++ spec.instance_name (spec.instance_in (slice_get modules.now kind) instance) ++ 46 ∷ []) }
    ensures kind { IfOk result (λ inner. slice_get modules.now inner ≡ spec.module_of modules.now (spec.instance_in (slice_get modules.now kind) instance)) }
{
    match at(module_instances(modules, kind), instance) {
        Some(instance) => {
            text.push_str(instance.name.as_str())?;
            text.push_str(".")?;
            Ok(instance.of)
        }
        None => {
            text.push_str(".")?;
            Ok(modules.len())
        }
    }
}

/// Appends the names of the instances on a path, the outermost first, each with a dot behind it, and gives the number of the last one's module.
fn put_path(
    text: &mut String,
    modules: &[Module],
    top: usize,
    path: &[usize],
) -> Result<usize, AllocError>
    ensures text { OnOk result ((t : netlist_module.Module) → slice_get modules.now top ≡ Some t
        → string_bytes text.new ≡ string_bytes text.old ++ spec.prefix modules.now t path.now) }
    ensures kind { IfOk result (λ kind. (t : netlist_module.Module) → slice_get modules.now top ≡ Some t → slice_get modules.now kind ≡ module_at modules.now t path.now) }
{
    let mut kind = top;
    for done in 0..path.len() {
        let inner = put_instance(text, modules, kind, path[path.len() - 1 - done])?;
        kind = inner;
    }
    Ok(kind)
}

/// The names of the instances that a signal stands in, the outermost first, and the signal's, with dots between them.
fn dotted(
    alloc: Global,
    modules: &[Module],
    top: usize,
    looped: &Looped,
) -> Result<String, AllocError>
    ensures { IfOk result (λ text. (t : netlist_module.Module) → slice_get modules.now top ≡ Some t
        → string_bytes text ≡ spec.dotted_name modules.now t looped.now.path looped.now.signal) }
{
    let mut text = String::new(alloc);
    let kind = put_path(&mut text, modules, top, looped.path.as_slice())?;
    if let Some(signal) = at(module_signals(modules, kind), looped.signal) {
        text.push_str(signal.name.as_str())?;
    }
    Ok(text)
}

/// The path below `top` of the first signal of a net that depends on itself: in the instance that lies least deep, of these in the first, and there
/// the first. None exactly where no signal does.
pub fn loop_path(alloc: Global, modules: &[Module]) -> Result<Option<String>, AllocError>
    requires { IsOpenable modules.now }
    ensures { IfOk result (λ o. MatchOption o (IsLoopless modules.now) (λ text. spec.IsLoopPath modules.now (string_bytes text))) }
{
    let Some(top) = top_number(modules) else {
        unreachable!();
    };
    match first_looped(alloc, modules, top)? {
        Some(looped) => {
            let path = dotted(alloc, modules, top, &looped)?;
            Ok(Some(path))
        }
        None => Ok(None),
    }
}
