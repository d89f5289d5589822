// What the cores of acts tell a thread that waits.

ghost use Rattle.std.specs.Prelude.{◌≡◌, ◌+◌, length, if◌then◌else◌, IfOk};
ghost use Rattle.thread_layout.specs.Telling.{LaysTold, TakesFirst};

use block_datapath::registers::{Held, place_at};
use operator_wires::wires::Wires;
use sqlite_items::Items;
use std::alloc::{AllocError, Global};
use thread_slots::bits::{any_of, both_each};
use thread_slots::chains::places;
use thread_slots::shape::Served;
use thread_slots::told::Told;

/// Whether the thread is barred, whether it runs, and its argument, of what is heard of the cores of acts: of each barrier whether it
/// holds the thread, and where there is a core of the thread ids whether the thread runs, and its argument. A thread is barred by the
/// barrier that is named.
pub fn lay_told(
    wires: &mut Wires,
    served: Served,
    named: &[usize],
    news: &[Held],
) -> Result<Told, AllocError>
    ensures { IfOk result (LaysTold served named.now news.now wires.old.signals wires.new.signals) }
{
    let last = one_more(served.barriers)?;
    let never = wires.constant(1, 0)?;
    let nothing = wires.constant(64, 0)?;
    let heard = places(wires.alloc, news)?;
    let heard = heard.as_slice();
    let holds = first_of(wires.alloc, heard, named.len())?;
    let holds = holds.as_slice();
    let both = both_each(wires, named, holds)?;
    let both = both.as_slice();
    let barred = any_of(wires, never, both)?;
    Ok(Told {
        barred,
        runs: pick(served.thread_ids, place_at(heard, served.barriers), never),
        argument: pick(served.thread_ids, place_at(heard, last), nothing),
    })
}

fn first_of(alloc: Global, places: &[usize], count: usize) -> Result<Items<usize>, AllocError>
    ensures { IfOk result (TakesFirst places.now count) }
{
    let mut first = Items::new(alloc);
    for number in 0..count {
        first.push(place_at(places, number))?;
    }
    Ok(first)
}

fn one_more(count: usize) -> Result<usize, AllocError>
    ensures { IfOk result (λ n. n ≡ count + 1) }
{
    count.checked_add(1).ok_or(AllocError)
}

fn pick(there: bool, place: usize, other: usize) -> usize
    ensures { result ≡ (if there then place else other) }
{
    if there { place } else { other }
}
