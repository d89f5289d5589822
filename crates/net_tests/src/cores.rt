// Modules of small cores.

use crate::small::name_at;
use bank_arbiter::arbiter;
use bank_cores::bank;
use bank_cores::name::GlobalName;
use barrier_cores::barrier;
use mutex_cores::mutex;
use netlist::netlist::{Action, Effect, Memory, Module, Signal};
use printer_cores::format::Part;
use printer_cores::printer;
use sqlite_items::Items;
use std::alloc::{AllocError, Global};
use std::process::Abort;
use std::test::Fail;
use thread_id_cores::thread_ids;

/// A bank of two words, of which the second begins as 7.
fn two_words(alloc: Global) -> Result<Module, AllocError> {
    let shape = bank::Shape {
        threads: 2,
        name: GlobalName::from_text(alloc, "x")?,
        number: 1,
        address_width: 2,
        width: 32,
        initial: Items::from_slice(alloc, &[0, 7])?,
    };
    bank::module(alloc, &shape)
}

/// A printer of one site, which has a signed number and a text.
fn one_site(alloc: Global) -> Result<Module, AllocError> {
    let mut parts = Items::new(alloc);
    parts.push(Part::Signed)?;
    parts.push(Part::Text(Items::from_slice(alloc, b"\t100%\n")?))?;
    let mut sites = Items::new(alloc);
    sites.push(parts)?;
    let shape = printer::Shape {
        threads: 1,
        values: 1,
        sites,
    };
    printer::module(alloc, &shape)
}

/// A mutex that is free at the start.
const FREE: mutex::Shape = mutex::Shape {
    threads: 2,
    initialised: true,
};

#[derive(Clone, Copy)]
enum Core {
    Arbiter,
    Bank,
    Printer,
    Mutex,
    Barrier,
    ThreadIds,
}

/// The module of a core for two threads; the printer is for one, and the thread ids are those of three.
fn made(alloc: Global, core: Core) -> Result<Module, AllocError> {
    match core {
        Core::Arbiter => arbiter::module(alloc, 2),
        Core::Bank => two_words(alloc),
        Core::Printer => one_site(alloc),
        Core::Mutex => mutex::module(alloc, &FREE),
        Core::Barrier => barrier::module(alloc, &barrier::Shape { threads: 2 }),
        Core::ThreadIds => thread_ids::module(alloc, &thread_ids::Shape { threads: 3 }),
    }
}

fn ends_with_an_output(signals: &[Signal]) -> bool {
    matches!(signals.last(), Some(last) if last.is_output)
}

/// Whether the first memory is that of the bank.
fn has_words(memories: &[Memory]) -> bool {
    match memories {
        [words, ..] => {
            words.name.as_str() == "bank_x_1" && words.initial.as_slice() == [0, 7].as_slice()
        }
        [] => false,
    }
}

/// Whether the first action writes the site: its percent sign doubled, its tab and newline as escapes.
fn is_written(actions: &[Action]) -> bool {
    match actions {
        [
            Action {
                effect: Effect::Write { text, arguments },
                ..
            },
            ..
        ] => text.as_str() == "%0d\\t100%%\\n" && arguments.len() == 1,
        _ => false,
    }
}

/// Whether the module has the ports, the words and the actions of the core.
fn has_parts(core: Core, module: &Module) -> bool {
    let signals = &module.signals;
    let actions = module.actions.len();
    match core {
        Core::Arbiter => {
            name_at(signals, 0) == "clk"
                && name_at(signals, 3) == "ask_3"
                && ends_with_an_output(signals.as_slice())
        }
        Core::Bank => {
            has_words(module.memories.as_slice())
                && name_at(signals, signals.len().saturating_sub(1)) == "told_33"
                && actions == 3
        }
        Core::Printer => is_written(module.actions.as_slice()),
        Core::Mutex => signals.len() == 33 && actions == 1,
        Core::Barrier => actions == 3,
        Core::ThreadIds => module.memories.len() == 2 && actions == 2,
    }
}

/// The cores and the names of their modules.
const CORES: [(&str, Core); 6] = [
    ("arbiter", Core::Arbiter),
    ("bank_x_1", Core::Bank),
    ("printer", Core::Printer),
    ("mutex_1", Core::Mutex),
    ("barrier", Core::Barrier),
    ("forkjoin", Core::ThreadIds),
];

fn named_cores() -> &'static [(&'static str, Core)] {
    &CORES
}

#[test]
fn cores(rt: HostRuntime) -> Result<(), Fail> {
    for (name, core) in named_cores() {
        let module = made(rt.alloc(), *core)?;
        if module.name.as_str() != *name || !has_parts(*core, &module) {
            rt.panic(*name);
        }
    }
    Ok(())
}
