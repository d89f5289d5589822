// The outermost module: its number, its output `done`, its threads and its arbiters.

ghost use Rattle.std.specs.Prelude.{◌≡◌, ◌-◌, ◌^◌, ◌≤◌, false, None, MatchOption, IsTrue, codes};
ghost use Rattle.std.specs.Str.{bytes_eq};
ghost use Rattle.verilog_meaning.specs.Names.{top_of};
ghost use Rattle.cycle_sim.specs.Opened.{IsTopNumber, IsDoneNumber, IsDoneSignal, LacksDone};
ghost use Rattle.sim_layout.specs.Rounds as rounds;
ghost use Rattle.sim_layout.specs.Rounds.{enable_width, AreNarrowSignals};

use global_banks::names::{behind, is_decimal};
use netlist::netlist::{Module, Signal, Source};
use verilog_tree::name::Identifier;

fn is_top(module: &Module) -> bool
    ensures { result ≡ bytes_eq (codes "top") module.now.name }
{
    "top" == module.name.as_str()
}

/// The number of the module `top`.
pub fn top_number(modules: &[Module]) -> Option<usize>
    ensures { MatchOption result (top_of modules.now ≡ None) (IsTopNumber modules.now) }
{
    for number in 0..modules.len() {
        if is_top(&modules[number]) {
            return Some(number);
        }
    }
    None
}

fn is_done(signal: &Signal) -> bool
    ensures named { IsTrue result → IsDoneSignal signal.now }
    ensures other { result ≡ false → IsDoneSignal signal.now → ⊥ }
{
    signal.name.as_str() == "done" && signal.is_output && signal.width == 1
}

/// The number of the output `done`, where there is one of one bit.
pub fn done_number(signals: &[Signal]) -> usize
    requires { LacksDone signals.now → ⊥ }
    ensures { IsDoneNumber signals.now result }
{
    for number in 0..signals.len() {
        if is_done(&signals[number]) {
            return number;
        }
    }
    unreachable!()
}

fn is_enable(signal: &Signal) -> bool
    ensures { result ≡ bytes_eq signal.now.name (codes "en") }
{
    signal.name.as_str() == "en"
}

/// So many bits that are set.
fn mask_of(bits: u64) -> u64
    requires { bits ≤ 64 }
    ensures { result ≡ 2 ^ bits - 1 }
{
    ((1u128 << bits) - 1) as u64
}

/// The number that sets all bits of the signal `en`, and 0 where there is none.
pub fn enable_mask(signals: &[Signal]) -> u64
    requires { AreNarrowSignals signals.now }
    ensures { result ≡ 2 ^ enable_width signals.now - 1 }
{
    for signal in signals {
        if is_enable(signal) {
            return mask_of(signal.width);
        }
    }
    0
}

fn is_pref(name: &Identifier) -> bool
    ensures { result ≡ rounds.is_pref name.now }
{
    match behind("pref_".as_bytes(), name.as_str().as_bytes()) {
        Some(digits) => is_decimal(digits),
        None => false,
    }
}

fn is_input(source: &Source) -> bool
    ensures { result ≡ rounds.is_input source.now }
{
    matches!(source, Source::Input)
}

/// How many inputs have a name `pref_k`.
pub fn pref_count(signals: &[Signal]) -> usize
    ensures { result ≡ rounds.pref_count signals.now }
{
    let mut count = 0;
    for signal in signals {
        if is_input(&signal.source) && is_pref(&signal.name) {
            count += 1;
        }
    }
    count
}
