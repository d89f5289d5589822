// A net of one thread and no core.

use crate::small::name_at;
use netlist::netlist::Module;
use sqlite_items::Items;
use std::test::Fail;
use top_wiring::{Group, Layout, wire};

fn is_top(module: &Module) -> bool {
    let signals = &module.signals;
    module.name.as_str() == "top"
        && module.instances.len() == 1
        && name_at(signals, signals.len().saturating_sub(1)) == "done"
}

#[test]
fn one_thread(rt: HostRuntime) -> Result<(), Fail> {
    let alloc = rt.alloc();
    let threads = Items::from_slice(alloc, &[0])?;
    let cores = Items::new(alloc);
    let modules = Items::new(alloc);
    let layout = Layout {
        threads,
        cores,
        arbiter: 0,
    };
    let netlist = wire(alloc, modules, &layout)?;
    let has_top = matches!(netlist.modules.get(0), Some(top) if is_top(top));
    assert!(rt; has_top && netlist.modules.len() == 2);
    Ok(())
}

#[test]
fn groups_are_copied(rt: HostRuntime) {
    let group = Group { count: 2, width: 8 };
    let copy = group;
    assert!(rt; copy.count == group.count && copy.width == group.width);
}
