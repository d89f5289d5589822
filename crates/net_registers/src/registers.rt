// The registers of a net, and the numbers that they have in a simulator.

ghost use Rattle.std.specs.Prelude.{◌≡◌, ◌<◌, ◌^◌, map, option_map, length, slice_index, slice_get, OnOk, IfOk};
ghost use Rattle.sim_layout.specs.Running.{state_of};
ghost use Rattle.vcd_text.specs.Dump.{AreValues};
ghost use Rattle.net_registers.specs.Heads.{IsListing, number_in};
ghost use Rattle.net_registers.specs.Marks.{registers_of};

use crate::listing::Listing;
use crate::walk::walk;
use cycle_sim::sim::Sim;
use sqlite_items::Items;
use std::alloc::{AllocError, Global};

/// The registers of a simulator's net, and a dump's head that names them.
pub fn registers(alloc: Global, sim: &Sim<'_>) -> Result<Listing, AllocError>
    ensures { IfOk result (IsListing sim.now) }
{
    let mut listing = walk(alloc, sim)?;
    listing.finish()?;
    Ok(listing)
}

/// The numbers at places among a simulator's words.
fn numbers_at(alloc: Global, sim: &Sim<'_>, places: &[usize]) -> Result<Items<u64>, AllocError>
    ensures { IfOk result (λ numbers. numbers ≡ map (slice_index sim.now.numbers) places.now) }
{
    let mut numbers = Items::new(alloc);
    for place in places {
        numbers.push(sim.number(*place))?;
    }
    Ok(numbers)
}

/// The number of each register of a simulator's net.
pub fn numbers(alloc: Global, sim: &Sim<'_>, listing: &Listing) -> Result<Items<u64>, AllocError>
    ensures are { IfOk result (λ numbers. numbers ≡ map (slice_index sim.now.numbers) listing.now.places) }
    ensures fit { IfOk result (λ numbers. IsListing sim.now listing.now → AreValues listing.now.widths numbers) }
{
    let _ = sim.parts();
    let numbers = numbers_at(alloc, sim, listing.places.as_slice())?;
    Ok(numbers)
}

/// The number of the register of a number in a dump, and none exactly where there is no such register. It takes no memory.
pub fn register(sim: &Sim<'_>, listing: &Listing, number: usize) -> Option<u64>
    ensures { (is : IsListing sim.now listing.now) → result ≡ option_map (number_in (state_of sim.now)) (slice_get (registers_of is.marks) number) }
{
    match listing.places.get(number) {
        Some(place) => Some(sim.number(*place)),
        None => None,
    }
}
