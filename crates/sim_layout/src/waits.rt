// The steps that wait for words. The clauses say that no wait is lost; a step that is listed beyond them costs one look more.

ghost use Rattle.std.specs.Prelude.{◌≡◌, ℕ, ◌<◌, ◌≤◌, None, Some, length, option_and_then, slice_get, slice_index_or, IfOk, OnOk};
ghost use Rattle.sim_layout.specs.Waits.{IsWaiting, IsListed};

use sqlite_items::at;
use std::alloc::{AllocError, Global};

/// A step that waits for a word, and the number of the wait before it for the same word.
#[derive(Clone, Copy)]
pub struct Wait {
    pub step: usize,
    pub before: Option<usize>,
}

/// The waits of steps for words, and the number of the last one for each word.
#[derive(Drop)]
pub struct Waits {
    pub last: Vec<Option<usize>>,
    pub chain: Vec<Wait>,
}

/// No step waits for any of so many words.
pub fn no_waits(alloc: Global, words: usize) -> Result<Waits, AllocError>
    ensures { IfOk result (λ w. length w.last.items ≡ words) }
{
    Ok(Waits {
        last: vec![in alloc; None; words]?,
        chain: Vec::new(alloc),
    })
}

/// A step waits for a word, and those that wait go on. None waits for a word past the last.
pub fn wait_for(waits: &mut Waits, step: usize, word: usize) -> Result<(), AllocError>
    ensures long { OnOk result (length waits.new.last.items ≡ length waits.old.last.items) }
    ensures waits { OnOk result (word < length waits.old.last.items → IsWaiting waits.new.last.items waits.new.chain.items word step) }
    ensures keeps { OnOk result ((w k : ℕ) → IsWaiting waits.old.last.items waits.old.chain.items w k → IsWaiting waits.new.last.items waits.new.chain.items w k) }
{
    if word < waits.last.len() {
        let number = waits.chain.len();
        let before = last_at(waits.last.as_slice(), word);
        waits.chain.push(Wait { step, before })?;
        waits.last[word] = Some(number);
    }
    Ok(())
}

fn last_at(last: &[Option<usize>], word: usize) -> Option<usize>
    ensures { result ≡ slice_index_or last.now word None }
{
    if word < last.len() { last[word] } else { None }
}

fn wait_at(chain: &[Wait], number: Option<usize>) -> Option<Wait>
    ensures { result ≡ option_and_then (slice_get chain.now) number }
{
    match number {
        Some(number) => at(chain, number).copied(),
        None => None,
    }
}

/// Lists the steps that wait for a word, behind what is listed.
pub fn wake(waits: &Waits, word: usize, looks: &mut Vec<usize>) -> Result<(), AllocError>
    ensures woken { OnOk result ((k : ℕ) → IsWaiting waits.now.last.items waits.now.chain.items word k → IsListed (length looks.old.items) looks.new.items k) }
    ensures keeps { OnOk result ((from k : ℕ) → IsListed from looks.old.items k → IsListed from looks.new.items k) }
    ensures behind { OnOk result ((j k : ℕ) → slice_get looks.old.items j ≡ Some k → slice_get looks.new.items j ≡ Some k) }
{
    let mut next = last_at(waits.last.as_slice(), word);
    // A chain has no more waits than fit in memory.
    for _turn in 0..usize::MAX {
        match wait_at(waits.chain.as_slice(), next) {
            Some(wait) => {
                looks.push(wait.step)?;
                next = wait.before;
            }
            None => return Ok(()),
        }
    }
    Err(AllocError)
}
