// What the simulator answers, beside what the definitions say.

ghost use Rattle.cycle_sim.specs.Opened.{IsOpenable};

use crate::nets::{counter, dumped, looped, net_of};
use cycle_sim::run::run;
use cycle_sim::sim::{OpenError, Sim};
use hls_io::Bytes;
use net_registers::listing::Listing;
use net_registers::registers::{register, registers};
use netlist::netlist::Module;
use std::alloc::{AllocError, Global};
use std::process::Abort;
use std::test::Fail;

/// Whether done is shown so, by `done` and behind one cycle in which each arbiter prefers thread 5.
fn shows(sim: &mut Sim<'_>, out: &mut Bytes, is_done: bool) -> Result<bool, AllocError> {
    let all = sim.all_enabled();
    let choice = sim.all_preferring(5)?;
    sim.cycle(&choice, out)?;
    Ok(sim.shows_done(&all) == is_done && sim.done() == is_done)
}

/// Both threads are enabled, `en` is 3, and `pref_0` is 5.
fn takes_its_choice(sim: &mut Sim<'_>, out: &mut Bytes) -> Result<bool, AllocError> {
    let is_new = !sim.done();
    let is_first = shows(sim, out, false)?;
    let is_last = shows(sim, out, true)?;
    Ok(is_new && is_first && is_last && out.as_slice() == b"3,5;3,5;".as_slice())
}

/// A copy runs to its end in two cycles, and leaves its original where it is.
fn goes_its_own_way(sim: &mut Sim<'_>, out: &mut Bytes) -> Result<bool, AllocError> {
    let mut copy = sim.copy()?;
    let cycles = copy.lockstep(20, out)?;
    Ok(cycles == 2 && copy.done() && !sim.done())
}

/// The elements of `x` before the first edge, by their numbers.
const FIRST: [(u64, Option<u64>); 5] = [
    (0, Some(7)),
    (1, Some(9)),
    (2, Some(11)),
    (3, Some(13)),
    (4, None),
];

/// And behind it.
const NEXT: [(u64, Option<u64>); 5] = [
    (0, Some(7)),
    (1, Some(9)),
    (2, Some(1)),
    (3, Some(1)),
    (4, None),
];

fn has_elements(sim: &Sim<'_>, elements: &[(u64, Option<u64>)]) -> bool {
    for (element, word) in elements {
        if sim.global("x", *element) != *word {
            return false;
        }
    }
    true
}

/// Element j is word j / 2 of bank j modulo 2. The first edge makes word 1 of both banks 1.
fn has_banks(sim: &mut Sim<'_>, out: &mut Bytes) -> Result<bool, AllocError> {
    let is_first = has_elements(sim, &FIRST) && sim.global("y", 0) == None;
    let cycles = sim.lockstep(1, out)?;
    Ok(is_first && cycles == 1 && has_elements(sim, &NEXT))
}

/// Two cycles, and no more: in cycle k both threads are enabled, and `pref_0` is k.
fn ends(sim: &mut Sim<'_>, out: &mut Bytes) -> Result<bool, AllocError> {
    let first = sim.lockstep(20, out)?;
    let more = sim.lockstep(20, out)?;
    Ok(first == 2 && more == 0 && out.as_slice() == b"3,0;3,1;".as_slice())
}

/// Whether register 0 has this number, and no other register is there.
fn has_register(sim: &Sim<'_>, listing: &Listing, number: u64) -> bool {
    register(sim, listing, 0) == Some(number) && register(sim, listing, 1).is_none()
}

/// The only register is 0, and 1 behind a cycle.
fn counts(alloc: Global, sim: &mut Sim<'_>, out: &mut Bytes) -> Result<bool, AllocError> {
    let listing = registers(alloc, sim)?;
    let is_new = has_register(sim, &listing, 0);
    let cycles = sim.lockstep(1, out)?;
    Ok(is_new && cycles == 1 && has_register(sim, &listing, 1))
}

#[derive(Clone, Copy)]
enum Case {
    Choice,
    Copy,
    Banks,
    End,
    Register,
}

/// Each case, and what its failure is called.
const CASES: [(&str, Case); 5] = [
    ("a cycle takes its choice", Case::Choice),
    ("a copy leaves its original", Case::Copy),
    ("an element stands in its bank", Case::Banks),
    ("lockstep ends where done is shown", Case::End),
    ("a register has its number", Case::Register),
];

fn cases() -> &'static [(&'static str, Case)] {
    &CASES
}

/// The text of the net that a case is about.
fn text_of(case: Case) -> &'static str {
    match case {
        Case::Choice | Case::Copy | Case::Banks | Case::End => counter(),
        Case::Register => dumped(),
    }
}

fn holds(
    alloc: Global,
    case: Case,
    sim: &mut Sim<'_>,
    out: &mut Bytes,
) -> Result<bool, AllocError> {
    match case {
        Case::Choice => takes_its_choice(sim, out),
        Case::Copy => goes_its_own_way(sim, out),
        Case::Banks => has_banks(sim, out),
        Case::End => ends(sim, out),
        Case::Register => counts(alloc, sim, out),
    }
}

/// Whether a case holds of a simulator of these modules at its start.
fn holds_at_start(alloc: Global, modules: &[Module], case: Case) -> Result<bool, OpenError>
    requires { IsOpenable modules.now }
{
    let mut sim = Sim::open(alloc, modules)?;
    let mut out = Bytes::new(alloc);
    let holds = holds(alloc, case, &mut sim, &mut out)?;
    Ok(holds)
}

#[test]
fn a_simulator_at_its_start(rt: HostRuntime) -> Result<(), Fail> {
    for (name, case) in cases() {
        let net = net_of(rt.alloc(), text_of(*case))?;
        let holds = holds_at_start(rt.alloc(), net.modules.as_slice(), *case)?;
        if !holds {
            rt.panic(*name);
        }
    }
    Ok(())
}

/// `left` and `right` depend on themselves, and `left` stands first: behind `clk` and `ready`.
#[test]
fn a_loop_is_named_by_its_first_signal(rt: HostRuntime) -> Result<(), Fail> {
    let net = net_of(rt.alloc(), looped())?;
    let opened = holds_at_start(rt.alloc(), net.modules.as_slice(), Case::End);
    let is_named = matches!(
        opened,
        Err(OpenError::Loop {
            module: 0,
            signal: 2
        })
    );
    assert!(rt; is_named);
    Ok(())
}

/// The most cycles of a run, how many it has, whether done is shown behind them, and what it writes.
type Row = (u32, u32, bool, &'static str);

const RUNS: [Row; 4] = [
    (0, 0, false, ""),
    (1, 1, false, "3,0;"),
    (2, 2, true, "3,0;3,1;"),
    (20, 2, true, "3,0;3,1;"),
];

fn runs() -> &'static [Row] {
    &RUNS
}

fn is_run(alloc: Global, modules: &[Module], row: &Row) -> Result<bool, OpenError>
    requires { IsOpenable modules.now }
{
    let ran = run(alloc, modules, row.0)?;
    Ok(ran.cycles == row.1 && ran.is_done == row.2 && ran.printed.as_slice() == row.3.as_bytes())
}

#[test]
fn a_run_tells_its_cycles(rt: HostRuntime) -> Result<(), Fail> {
    let net = net_of(rt.alloc(), counter())?;
    for row in runs() {
        let is_run = is_run(rt.alloc(), net.modules.as_slice(), row)?;
        if !is_run {
            rt.panic(row.0);
        }
    }
    Ok(())
}
