// The ports of the module `top`.

ghost use Rattle.std.specs.Prelude.{◌≡◌, IfOk};
ghost use Rattle.std.specs.Str.{bytes_eq};
ghost use Rattle.verilog_tree.specs.Rules.{has_port};
ghost use Rattle.verilog_reader.specs.Top as top_of;
ghost use Rattle.verilog_reader.specs.Ports as spec;

use net_rules::kinds::{is_clk, is_input, width_of};
use net_rules::names::NameSet;
use sqlite_items::Items;
use std::alloc::{AllocError, Global};
use verilog_tree::name::Identifier;
use verilog_tree::tree::{Module, Net, Port};

/// Whether the module's name is `top`.
pub fn is_top(module: &Module) -> bool
    ensures { result ≡ bytes_eq module.now.name top_of.top }
{
    module.name.as_str() == "top"
}

/// Whether `top` may have the port: `clk`, an output `done` of one bit, an input `en`, or an input of 4 bits or more with
/// one of these names.
fn is_wanted(prefs: &NameSet<'_>, port: &Port) -> bool
    ensures { result ≡ spec.is_wanted prefs.now port.now }
{
    let name = port.name.as_str();
    is_clk(&port.name)
        || (name == "done" && !is_input(port.direction) && width_of(port.high) == 1)
        || (name == "en" && is_input(port.direction))
        || (prefs.contains(&port.name) && is_input(port.direction) && width_of(port.high) >= 4)
}

fn names<'n>(alloc: Global, ports: &'n [Port]) -> Result<NameSet<'n>, AllocError>
    ensures { IfOk result (λ names. spec.AreNames ports.now names) }
{
    let mut names = NameSet::new(alloc);
    for port in ports {
        names.add(&port.name)?;
    }
    Ok(names)
}

/// `pref_0`, `pref_1` and so on up to the first that is none of these names, and that one.
#[tactic(auto, using(crate::proofs::Names::prefs_done, crate::proofs::Names::prefs_more))]
fn pref_names(alloc: Global, names: &NameSet<'_>) -> Result<Items<Identifier>, AllocError>
    ensures { IfOk result (λ prefs. spec.ArePrefs names.now prefs) }
{
    let stem = Identifier::from_text(alloc, "pref")?;
    let mut prefs = Items::new(alloc);
    for number in 0..u64::MAX {
        let name = stem.with_number(alloc, number)?;
        let is_last = !names.contains(&name);
        prefs.push(name)?;
        if is_last {
            return Ok(prefs);
        }
    }
    Err(AllocError)
}

fn set_of<'n>(alloc: Global, names: &'n [Identifier]) -> Result<NameSet<'n>, AllocError>
    ensures { IfOk result (λ set. spec.AreSame names.now set) }
{
    let mut set = NameSet::new(alloc);
    for name in names {
        set.add(name)?;
    }
    Ok(set)
}

fn first_unwanted(prefs: &NameSet<'_>, ports: &[Port]) -> Option<usize>
    ensures { spec.IsFirstUnwanted prefs.now ports.now result }
{
    for number in 0..ports.len() {
        if !is_wanted(prefs, &ports[number]) {
            return Some(number);
        }
    }
    None
}

/// The first port that `top` may not have.
fn unwanted_port(alloc: Global, ports: &[Port]) -> Result<Option<usize>, AllocError>
    ensures { IfOk result (spec.IsUnwanted ports.now) }
{
    let names = names(alloc, ports)?;
    let prefs = pref_names(alloc, &names)?;
    let set = set_of(alloc, prefs.as_slice())?;
    Ok(first_unwanted(&set, ports))
}

/// The first port of a module `top` that it may not have: the module's number and the port's.
pub fn unwanted(alloc: Global, net: &Net) -> Result<Option<(usize, usize)>, AllocError>
    ensures { IfOk result (spec.IsUnwantedOf net.now.modules) }
{
    let modules = net.modules.as_slice();
    for number in 0..modules.len() {
        let module = &modules[number];
        if is_top(module) {
            let found = unwanted_port(alloc, module.ports.as_slice())?;
            match found {
                Some(port) => return Ok(Some((number, port))),
                None => {}
            }
        }
    }
    Ok(None)
}

fn has_port_named(ports: &[Port], name: &str) -> bool
    ensures { result ≡ has_port ports.now name.now }
{
    for port in ports {
        if port.name.as_str() == name {
            return true;
        }
    }
    false
}

/// Whether the module has the ports `clk` and `done`.
pub fn has_ports(module: &Module) -> bool
    ensures { result ≡ spec.has_ports module.now }
{
    let ports = module.ports.as_slice();
    has_port_named(ports, "clk") && has_port_named(ports, "done")
}
