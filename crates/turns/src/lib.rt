//! Lists of turns, by which a user says which thread takes the next steps of a program: `0*11,1*3,2`.
//! `rt plant`: all 4 wrong bodies in 1 function are refused.
#![tactic(auto)]

ghost use Rattle.std.specs.Prelude.{◌≡◌, ◌==◌, map, nat_le, IfOk};
ghost use Rattle.std.specs.List.{slice_split};
ghost use Rattle.turns.specs.Turns.{all_turns, most_steps, number_of, read_number, steps_of, times_of, turn_of, turns_of};

use sqlite_items::Items;
use std::alloc::{AllocError, Global};

/// A thread takes so many steps, one behind the other.
#[derive(Clone, Copy, PartialEq, Eq)]
pub struct Turn {
    pub thread: u32,
    pub steps: u32,
}

/// The most steps of a list.
const MOST_STEPS: u32 = 1_000_000;

/// The number of 32 bits that decimal digits write, behind a plus or not.
fn read_number(text: &str) -> Option<u32>
    ensures { result ≡ read_number text.now }
{
    text.parse().ok()
}

/// The number that 1 to 10 decimal digits write, if it is one of 32 bits.
fn number(text: &str) -> Option<u32>
    ensures { result ≡ number_of text.now }
{
    if text.as_bytes().first() == Some(&b'+') || text.len() > 10 {
        None
    } else {
        read_number(text)
    }
}

/// How often a thread takes a step.
fn times(text: &str) -> Option<u32>
    ensures { result ≡ times_of text.now }
{
    match number(text) {
        Some(n) if 1 <= n && n <= MOST_STEPS => Some(n),
        _ => None,
    }
}

/// An item: `i`, or `i*k`.
fn read_turn(item: &str) -> Option<Turn>
    ensures { result ≡ turn_of item.now }
{
    let (thread, steps) = match item.split_once('*') {
        None => (item, 1),
        Some((thread, steps)) => (thread, times(steps)?),
    };
    Some(Turn {
        thread: number(thread)?,
        steps,
    })
}

fn items(alloc: Global, text: &str) -> Result<Vec<&str>, AllocError>
    ensures { IfOk result (λ v. map (λ x. x.now) v.items ≡ slice_split (λ b. b == 44) text.now) }
{
    text.split(',').collect(alloc)
}

/// Every item, where each is one.
fn all_turns(alloc: Global, items: &[&str]) -> Result<Option<Items<Turn>>, AllocError>
    ensures { IfOk result (λ ts. ts ≡ all_turns (map (λ x. x.now) items.now)) }
{
    let mut turns = Items::new(alloc);
    for item in items {
        match read_turn(*item) {
            Some(next) => turns.push(next)?,
            None => return Ok(None),
        }
    }
    Ok(Some(turns))
}

/// Whether so many turns take few enough steps.
fn are_few(turns: &[Turn]) -> bool
    ensures { result ≡ nat_le (steps_of turns.now) most_steps }
{
    let mut left = MOST_STEPS;
    for turn in turns {
        match left.checked_sub(turn.steps) {
            Some(rest) => left = rest,
            None => return false,
        }
    }
    true
}

/// The turns that a text lists, of at most 1,000,000 steps together; none where it is no such list.
pub fn turns(alloc: Global, text: &str) -> Result<Option<Items<Turn>>, AllocError>
    ensures { IfOk result (λ ts. ts ≡ turns_of text.now) }
{
    let items = items(alloc, text)?;
    let listed = all_turns(alloc, items.as_slice())?;
    Ok(listed.filter(|turns| are_few(turns.as_slice())))
}
