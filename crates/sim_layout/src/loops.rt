// The first signal that depends on itself.

ghost use Rattle.std.specs.Prelude.{◌≡◌, ℕ, ◌+◌, ◌<◌, true, false, length, IfOk, IsTrue, MatchOption, OnOk};
ghost use Rattle.sim_values.specs.Rows.{EachOf};
ghost use Rattle.sim_values.specs.Order.{reads, IsMarked, IsClear, SomeOf};
ghost use Rattle.sim_layout.specs.Leads.{Leads, AreInRoom, IsSearch, IsClosed, AreClosed, AreApart, AreWithin, LoopsNowhere, IsLoopIn, AreLoopless, IsFirstFound, IsFirstSite};
ghost use Rattle.sim_layout.specs.Ranks.{AreSuspects};

use crate::order::is_ready;
use crate::readers::readers;
use crate::suspects::suspects;
use crate::waits::{Waits, wake};
use crate::wires::module_signals;
use netlist::netlist::Module;
use sim_values::edge::Part;
use sim_values::settle::Step;
use std::alloc::{AllocError, Global};

/// A signal by the number of its module and its own.
#[derive(Clone, Copy)]
pub struct Found {
    pub module: usize,
    pub signal: usize,
}

/// A signal of a part, by the part's number and its own.
#[derive(Clone, Copy)]
pub struct Site {
    pub part: usize,
    pub signal: usize,
}

/// Finds that the target of a step leads to the place, where it reads what does. `apart` marks all that is not found.
fn look(
    modules: &[Module],
    wires: &[Step],
    words: usize,
    place: usize,
    number: usize,
    apart: &mut [bool],
) -> bool
    requires number { number < length wires.now }
    requires room { AreInRoom modules.now wires.now words }
    requires long { length apart.old ≡ words }
    requires search { IsSearch modules.now wires.now place apart.old }
    ensures search { IsSearch modules.now wires.now place apart.new }
    ensures same { result ≡ false → apart.new ≡ apart.old }
    ensures closed { result ≡ false → IsClosed modules.now wires.now apart.new number }
{
    let wire = wires[number];
    if wire.target >= apart.len() {
        return false;
    }
    if !apart[wire.target] {
        return false;
    }
    if is_ready(apart, modules, wire.feed) {
        return false;
    }
    apart[wire.target] = false;
    true
}

/// Looks at all steps. Whether one was found.
#[tactic(auto, using(crate::proofs::LeadSearch::closed_more))]
fn look_through(
    modules: &[Module],
    wires: &[Step],
    words: usize,
    place: usize,
    apart: &mut [bool],
) -> bool
    requires room { AreInRoom modules.now wires.now words }
    requires long { length apart.old ≡ words }
    requires search { IsSearch modules.now wires.now place apart.old }
    ensures search { IsSearch modules.now wires.now place apart.new }
    ensures closed { result ≡ false → AreClosed modules.now wires.now apart.new (length wires.now) }
{
    let mut found = false;
    for number in 0..wires.len() {
        if look(modules, wires, words, place, number, apart) {
            found = true;
        }
    }
    found
}

/// Looks at the step of a number. Where its target is found by it, the steps that read that are to be looked at.
fn look_on(
    modules: &[Module],
    wires: &[Step],
    words: usize,
    readers: &Waits,
    place: usize,
    number: usize,
    apart: &mut [bool],
    looks: &mut Vec<usize>,
) -> Result<(), AllocError>
    requires room { AreInRoom modules.now wires.now words }
    requires long { length apart.old ≡ words }
    requires search { IsSearch modules.now wires.now place apart.old }
    ensures search { OnOk result (IsSearch modules.now wires.now place apart.new) }
{
    if number >= wires.len() {
        return Ok(());
    }
    if look(modules, wires, words, place, number, apart) {
        wake(readers, wires[number].target, looks)?;
    }
    Ok(())
}

/// Finds what leads to the place, one after the other: each step that reads what is found is looked at.
fn spread(
    alloc: Global,
    modules: &[Module],
    wires: &[Step],
    words: usize,
    place: usize,
    apart: &mut [bool],
) -> Result<(), AllocError>
    requires room { AreInRoom modules.now wires.now words }
    requires long { length apart.old ≡ words }
    requires search { IsSearch modules.now wires.now place apart.old }
    ensures search { OnOk result (IsSearch modules.now wires.now place apart.new) }
{
    let readers = readers(alloc, modules, wires, words)?;
    let mut looks = Vec::new(alloc);
    wake(&readers, place, &mut looks)?;
    for next in 0..usize::MAX {
        if next >= looks.len() {
            return Ok(());
        }
        let number = looks[next];
        look_on(
            modules, wires, words, &readers, place, number, apart, &mut looks,
        )?;
    }
    Err(AllocError)
}

/// Finds all that leads to the place, where what is not found by then is looked for step by step.
fn search(
    modules: &[Module],
    wires: &[Step],
    words: usize,
    place: usize,
    apart: &mut [bool],
) -> Result<(), AllocError>
    requires room { AreInRoom modules.now wires.now words }
    requires long { length apart.old ≡ words }
    requires search { IsSearch modules.now wires.now place apart.old }
    ensures search { OnOk result (IsSearch modules.now wires.now place apart.new) }
    ensures closed { OnOk result (AreClosed modules.now wires.now apart.new (length wires.now)) }
{
    // Each turn but the last finds a place, of which there are no more than fit in memory.
    for _turn in 0..usize::MAX {
        if !look_through(modules, wires, words, place, apart) {
            return Ok(());
        }
    }
    Err(AllocError)
}

/// Whether a step is one to the place that reads what is found.
fn is_back(modules: &[Module], place: usize, apart: &[bool], wire: Step) -> bool
    ensures target { IsTrue result → wire.target ≡ place }
    ensures found { result ≡ true → SomeOf (IsClear apart.now) (reads modules.now wire.feed) }
    ensures away { result ≡ false → wire.target ≡ place → EachOf (IsMarked apart.now) (reads modules.now wire.feed) }
{
    if wire.target != place {
        return false;
    }
    !is_ready(apart, modules, wire.feed)
}

/// Whether a step to the place reads what is found.
fn is_found(modules: &[Module], wires: &[Step], words: usize, place: usize, apart: &[bool]) -> bool
    requires room { AreInRoom modules.now wires.now words }
    requires long { length apart.now ≡ words }
    requires search { IsSearch modules.now wires.now place apart.now }
    ensures found { result ≡ true → Leads modules.now wires.now place place }
    ensures away { result ≡ false → AreApart modules.now wires.now place apart.now (length wires.now) }
{
    for number in 0..wires.len() {
        if is_back(modules, place, apart, wires[number]) {
            return true;
        }
    }
    false
}

/// Whether the place leads to itself, where it alone is found.
#[tactic(auto, using(crate::proofs::LeadSearch::no_loop_there))]
fn leads_back(
    alloc: Global,
    modules: &[Module],
    wires: &[Step],
    words: usize,
    place: usize,
    apart: &mut [bool],
) -> Result<bool, AllocError>
    requires room { AreInRoom modules.now wires.now words }
    requires long { length apart.old ≡ words }
    requires search { IsSearch modules.now wires.now place apart.old }
    ensures found { IfOk result (λ b. b ≡ true → Leads modules.now wires.now place place) }
    ensures lacks { IfOk result (λ b. b ≡ false → Leads modules.now wires.now place place → ⊥) }
{
    spread(alloc, modules, wires, words, place, apart)?;
    search(modules, wires, words, place, apart)?;
    Ok(is_found(modules, wires, words, place, apart))
}

/// Whether the word at a place, among so many, depends on itself.
#[tactic(auto, using(crate::proofs::LeadSearch::search_none))]
fn is_loop(
    alloc: Global,
    modules: &[Module],
    wires: &[Step],
    words: usize,
    place: usize,
) -> Result<bool, AllocError>
    requires room { AreInRoom modules.now wires.now words }
    requires place { place < words }
    ensures found { IfOk result (λ b. b ≡ true → Leads modules.now wires.now place place) }
    ensures lacks { IfOk result (λ b. b ≡ false → Leads modules.now wires.now place place → ⊥) }
{
    let mut apart = vec![in alloc; true; words]?;
    apart[place] = false;
    leads_back(alloc, modules, wires, words, place, apart.as_mut_slice())
}

/// The first of so many words from a place on that depends on itself, where all that do are marked.
#[tactic(auto, using(crate::proofs::LeadSearch::nowhere_more))]
fn first_from(
    alloc: Global,
    modules: &[Module],
    wires: &[Step],
    suspects: &[bool],
    base: usize,
    signals: usize,
) -> Result<Option<usize>, AllocError>
    requires room { AreInRoom modules.now wires.now (length suspects.now) }
    requires suspects { AreSuspects modules.now wires.now suspects.now }
    requires within { (x : ℕ) → x < signals → base + x < length suspects.now }
    ensures { IfOk result (λ o. MatchOption o (LoopsNowhere modules.now wires.now base signals) (IsLoopIn modules.now wires.now base signals)) }
{
    for signal in 0..signals {
        let place = base + signal;
        if suspects[place] && is_loop(alloc, modules, wires, suspects.len(), place)? {
            return Ok(Some(signal));
        }
    }
    Ok(None)
}

/// The first signal that depends on itself, in the order of the parts, where all that do are marked.
fn first_suspect(
    alloc: Global,
    modules: &[Module],
    parts: &[Part],
    wires: &[Step],
    suspects: &[bool],
) -> Result<Option<Site>, AllocError>
    requires room { AreInRoom modules.now wires.now (length suspects.now) }
    requires suspects { AreSuspects modules.now wires.now suspects.now }
    requires within { AreWithin modules.now parts.now (length suspects.now) }
    ensures { IfOk result (IsFirstSite modules.now wires.now parts.now) }
{
    for number in 0..parts.len() {
        let part = parts[number];
        let signals = module_signals(modules, part.module).len();
        if let Some(signal) = first_from(
            alloc,
            modules,
            wires,
            suspects,
            part.spot.base,
            signals,
        )? {
            return Ok(Some(Site {
                part: number,
                signal,
            }));
        }
    }
    Ok(None)
}

/// The first signal that depends on itself, in the order of the parts, by the number of its part.
pub fn first_site(
    alloc: Global,
    modules: &[Module],
    parts: &[Part],
    wires: &[Step],
    words: usize,
) -> Result<Option<Site>, AllocError>
    requires room { AreInRoom modules.now wires.now words }
    requires within { AreWithin modules.now parts.now words }
    ensures { IfOk result (IsFirstSite modules.now wires.now parts.now) }
{
    let suspects = suspects(alloc, modules, wires, words)?;
    first_suspect(alloc, modules, parts, wires, suspects.as_slice())
}

/// The first signal that depends on itself, in the order of the parts.
pub fn first_loop(
    alloc: Global,
    modules: &[Module],
    parts: &[Part],
    wires: &[Step],
    words: usize,
) -> Result<Option<Found>, AllocError>
    requires room { AreInRoom modules.now wires.now words }
    requires within { AreWithin modules.now parts.now words }
    ensures { IfOk result (λ o. MatchOption o (AreLoopless modules.now wires.now parts.now (length parts.now)) (IsFirstFound modules.now wires.now parts.now)) }
{
    match first_site(alloc, modules, parts, wires, words)? {
        Some(site) => Ok(Some(Found {
            module: parts[site.part].module,
            signal: site.signal,
        })),
        None => Ok(None),
    }
}
