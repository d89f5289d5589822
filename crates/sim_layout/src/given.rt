// What gives the inputs of the outermost module their numbers: the clock is 0, `en` is the mask of the choice, and
// `pref_k` is its preferred thread of arbiter k.

ghost use Rattle.std.specs.Prelude.{◌≡◌, codes, IfOk, OnOk};
ghost use Rattle.verilog_meaning.specs.Names.{numbered};
ghost use Rattle.std.specs.Str.{bytes_eq};
ghost use Rattle.sim_layout.specs.Given.{IsInput, TellsPref, IsPrefOf, IsGivenFor, AreRooted, AreRoots};

use crate::wires::further;
use netlist::netlist::{Signal, Source};
use sim_values::settle::{Feed, Step};
use std::alloc::{AllocError, Global};
use verilog_tree::name::Identifier;

fn is_named(name: &Identifier, text: &str) -> bool
    ensures { result ≡ bytes_eq name.now text.now }
{
    name.as_str() == text
}

/// The number k of a name `pref_k`. Of other names it is any number or none.
fn pref_number(name: &Identifier) -> Option<usize>
    ensures { TellsPref name.now result }
{
    match name.as_str().strip_prefix("pref_") {
        Some(digits) => digits.parse().ok(),
        None => None,
    }
}

/// Whether a name is `pref_k`, for a number k.
fn is_pref(alloc: Global, name: &Identifier, number: usize) -> Result<bool, AllocError>
    ensures { IfOk result (λ b. b ≡ bytes_eq name.now (numbered (codes "pref") number)) }
{
    let stem = Identifier::from_text(alloc, "pref")?;
    let pref = stem.with_number(alloc, number as u64)?;
    Ok(is_named(name, pref.as_str()))
}

/// The number of the arbiter whose preferred thread an input of this name is, among so many.
fn pref_of(alloc: Global, name: &Identifier, prefs: usize) -> Result<Option<usize>, AllocError>
    ensures { IfOk result (λ found. IsPrefOf name.now prefs found) }
{
    let Some(number) = pref_number(name) else {
        return Ok(None);
    };
    if number < prefs && is_pref(alloc, name, number)? {
        Ok(Some(number))
    } else {
        Ok(None)
    }
}

/// What gives an input of this name its number.
#[tactic(auto, using(crate::proofs::Givens::input_en, crate::proofs::Givens::input_pref, crate::proofs::Givens::input_zero))]
fn given(alloc: Global, name: &Identifier, prefs: usize) -> Result<Feed, AllocError>
    ensures { IfOk result (IsInput prefs name.now) }
{
    if is_named(name, "en") {
        return Ok(Feed::Enables);
    }
    match pref_of(alloc, name, prefs)? {
        Some(number) => Ok(Feed::Preferred(number)),
        None => Ok(Feed::Zero),
    }
}

fn push_root(
    alloc: Global,
    wires: &mut Vec<Step>,
    place: usize,
    signal: &Signal,
    prefs: usize,
) -> Result<(), AllocError>
    ensures { OnOk result (IsGivenFor place prefs signal.now.name signal.now.source wires.old.items wires.new.items) }
{
    match &signal.source {
        Source::Input => {
            let feed = given(alloc, &signal.name, prefs)?;
            wires.push(Step {
                target: place,
                feed,
            })?;
            Ok(())
        }
        Source::Register(_) | Source::Assigned(_) | Source::Port { .. } => Ok(()),
    }
}

/// The steps for the inputs of the outermost module, whose words stand from a place on.
pub fn roots(
    alloc: Global,
    base: usize,
    signals: &[Signal],
    prefs: usize,
) -> Result<Vec<Step>, AllocError>
    ensures rooted { IfOk result (λ wires. AreRooted wires.items base prefs signals.now) }
    ensures only { IfOk result (λ wires. AreRoots base prefs signals.now wires.items) }
{
    let mut wires = Vec::new(alloc);
    for signal in 0..signals.len() {
        let place = further(base, signal)?;
        push_root(alloc, &mut wires, place, &signals[signal], prefs)?;
    }
    Ok(wires)
}
