// Ranks for the words of a net, by Tarjan's strongly connected components of the graph in which each step's target leads to what the step reads.
// Nothing is claimed of them here: who uses them checks them.

use crate::operands::operand_at;
use netlist::netlist::Module;
use sim_values::settle::{Feed, Step};
use sqlite_items::at;
use std::alloc::{AllocError, Global};

/// The low of a word that has its rank.
const DONE: usize = usize::MAX;

/// A word whose component is not yet known.
#[derive(Clone, Copy)]
struct Visit {
    word: usize,
    /// The number of the visit, from 1 on.
    number: usize,
    /// How many of the words that its step reads have been looked at.
    looked: usize,
}

/// A walk in depth over the words.
#[derive(Drop)]
struct Walk {
    /// What sets each word.
    feeds: Vec<Feed>,
    /// Of each word the least number of a visit known to be in its component. 0: it is not visited.
    lows: Vec<usize>,
    /// Of each word that is `DONE` its rank, from 1 on.
    ranks: Vec<usize>,
    /// The visits that go on, each from a word that the one before reads.
    visits: Vec<Visit>,
    /// The words that are visited and not done, in the order of their visits.
    open: Vec<usize>,
    /// How many visits there were.
    visited: usize,
    /// How many components are known.
    components: usize,
}

fn set(items: &mut [usize], place: usize, item: usize) {
    if place < items.len() {
        items[place] = item;
    }
}

/// What sets each of so many words.
fn feeds(alloc: Global, wires: &[Step], words: usize) -> Result<Vec<Feed>, AllocError> {
    let mut feeds = vec![in alloc; Feed::Zero; words]?;
    for wire in wires {
        if wire.target < feeds.len() {
            feeds[wire.target] = wire.feed;
        }
    }
    Ok(feeds)
}

/// No word is visited.
fn walk_of(alloc: Global, wires: &[Step], words: usize) -> Result<Walk, AllocError> {
    Ok(Walk {
        feeds: feeds(alloc, wires, words)?,
        lows: vec![in alloc; 0; words]?,
        ranks: vec![in alloc; 0; words]?,
        visits: Vec::new(alloc),
        open: Vec::new(alloc),
        visited: 0,
        components: 0,
    })
}

/// Begins the visit of a word.
fn enter(walk: &mut Walk, word: usize) -> Result<(), AllocError> {
    let number = walk.visited.saturating_add(1);
    walk.visited = number;
    set(walk.lows.as_mut_slice(), word, number);
    walk.open.push(word)?;
    walk.visits.push(Visit {
        word,
        number,
        looked: 0,
    })?;
    Ok(())
}

/// The words that were visited since one, and it, are a component.
fn close(walk: &mut Walk, word: usize) {
    let rank = walk.components.saturating_add(1);
    walk.components = rank;
    for _turn in 0..usize::MAX {
        let Some(member) = walk.open.pop() else {
            return;
        };
        set(walk.ranks.as_mut_slice(), member, rank);
        set(walk.lows.as_mut_slice(), member, DONE);
        if member == word {
            return;
        }
    }
}

/// The low of a word. A word past the last leads nowhere.
fn low_of(walk: &Walk, word: usize) -> usize {
    match at(walk.lows.as_slice(), word) {
        Some(low) => *low,
        None => DONE,
    }
}

/// Looks at a word that the visited one reads, which the stack has lost. Where it is not visited, that is done before it is looked at again.
fn look(walk: &mut Walk, visit: Visit, word: usize) -> Result<(), AllocError> {
    let low = low_of(walk, word);
    if low == 0 {
        walk.visits.push(visit)?;
        return enter(walk, word);
    }
    if low < low_of(walk, visit.word) {
        set(walk.lows.as_mut_slice(), visit.word, low);
    }
    walk.visits.push(Visit {
        word: visit.word,
        number: visit.number,
        looked: visit.looked.saturating_add(1),
    })?;
    Ok(())
}

/// Goes on in a visit, which the stack has lost.
fn go_on(walk: &mut Walk, modules: &[Module], visit: Visit) -> Result<(), AllocError> {
    let feed = match at(walk.feeds.as_slice(), visit.word) {
        Some(feed) => *feed,
        None => Feed::Zero,
    };
    match operand_at(modules, feed, visit.looked) {
        Some(word) => look(walk, visit, word)?,
        None => {
            if low_of(walk, visit.word) == visit.number {
                close(walk, visit.word);
            }
        }
    }
    Ok(())
}

/// Visits a word and all that it leads to, where that is not done.
fn visit_from(walk: &mut Walk, modules: &[Module], word: usize) -> Result<(), AllocError> {
    if low_of(walk, word) != 0 {
        return Ok(());
    }
    enter(walk, word)?;
    // Each word that a step reads is looked at twice at most.
    for _turn in 0..usize::MAX {
        match walk.visits.pop() {
            Some(visit) => go_on(walk, modules, visit)?,
            None => return Ok(()),
        }
    }
    Err(AllocError)
}

/// Ranks for so many words: those that lead to each other share one, and a word's is higher than that of each other that it leads to.
pub fn ranks(
    alloc: Global,
    modules: &[Module],
    wires: &[Step],
    words: usize,
) -> Result<Vec<usize>, AllocError> {
    let mut walk = walk_of(alloc, wires, words)?;
    for word in 0..words {
        visit_from(&mut walk, modules, word)?;
    }
    Ok(walk.ranks)
}
