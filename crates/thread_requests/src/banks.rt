// What each bank is asked: links are laid for globals, each as if it stood in one bank, and behind them the bank of an
// index is chosen.

ghost use Rattle.std.specs.Prelude.{◌≡◌, ◌≤◌, ◌^◌, length, replicate, slice_get, IfOk, IsTrue};
ghost use Rattle.netlist.specs.declared.netlist.Source.TheVariants as source_of;
ghost use Rattle.netlist.specs.declared.netlist.Value.TheVariants as right_side;
ghost use Rattle.block_datapath.specs.Globals.{IsSmallPower};
ghost use Rattle.thread_requests.specs.Banks.{AreOneEach, AreAddresses, AreWants, AreOwnWants, AreChosen, IsNever, SpreadsRequests};
ghost use Rattle.thread_requests.specs.Early.{copies_of, spread_out};

use bank_partition::banks::Spread;
use block_datapath::registers::place_at;
use block_datapath::requests::{BankRequests, bank_address, bank_bits};
use netlist::netlist::{Source, Value};
use operator_wires::wires::Wires;
use sqlite_items::Items;
use std::alloc::{AllocError, Global};

/// Each of so many globals in one bank, whose number is the global's.
pub fn one_bank_each(alloc: Global, count: usize) -> Result<Items<Spread>, AllocError>
    ensures { IfOk result (AreOneEach count) }
{
    let mut spreads = Items::new(alloc);
    for number in 0..count {
        let own = Spread {
            first: number,
            count: 1,
            length: 1,
        };
        spreads.push(own)?;
    }
    Ok(spreads)
}

/// What each bank is asked, of what is asked of each global as if it stood in one bank: there the address is the index.
pub fn spread_requests(
    wires: &mut Wires,
    spreads: &[Spread],
    whole: &BankRequests,
) -> Result<BankRequests, AllocError>
    ensures { IfOk result (SpreadsRequests spreads.now wires.old.signals wires.new.signals whole.now) }
{
    let indices = whole.addresses.as_slice();
    let words = bank_addresses(wires, spreads, indices)?;
    let wants = bank_wants(wires, spreads, whole.wants.as_slice(), indices)?;
    let writes = spread_places(wires.alloc, spreads, whole.writes.as_slice())?;
    let addresses = spread_places(wires.alloc, spreads, words.as_slice())?;
    let values = spread_places(wires.alloc, spreads, whole.values.as_slice())?;
    Ok(BankRequests {
        wants,
        writes,
        addresses,
        values,
    })
}

/// For each global the address of an index in its bank.
fn bank_addresses(
    wires: &mut Wires,
    spreads: &[Spread],
    indices: &[usize],
) -> Result<Items<usize>, AllocError>
    ensures { IfOk result (AreAddresses spreads.now indices.now wires.old.signals wires.new.signals (length spreads.now)) }
{
    let mut addresses = Items::new(wires.alloc);
    for (number, spread) in spreads.iter().enumerate() {
        let index = place_at(indices, number);
        let address = bank_address(wires, index, bank_bits(spread.count))?;
        addresses.push(address)?;
    }
    Ok(addresses)
}

/// Whether each bank is asked, global by global.
fn bank_wants(
    wires: &mut Wires,
    spreads: &[Spread],
    wants: &[usize],
    indices: &[usize],
) -> Result<Items<usize>, AllocError>
    ensures { IfOk result (AreWants spreads.now wants.now indices.now wires.old.signals wires.new.signals (length spreads.now)) }
{
    let mut all = Items::new(wires.alloc);
    for (number, spread) in spreads.iter().enumerate() {
        let want = place_at(wants, number);
        let index = place_at(indices, number);
        let own = own_wants(wires, want, index, spread.count)?;
        all.append(own)?;
    }
    Ok(all)
}

/// Whether each bank of a global is asked: the global is, and the last bits of the index are the bank's number. Where the
/// global has one bank, or is never asked, there is nothing to choose.
fn own_wants(
    wires: &mut Wires,
    want: usize,
    index: usize,
    count: u64,
) -> Result<Items<usize>, AllocError>
    ensures { IfOk result (AreOwnWants wires.old.signals wires.new.signals want index count) }
{
    let bits = bank_bits(count);
    if bits == 0 {
        equal_places(wires.alloc, want, count)
    } else if is_never(wires, want) {
        equal_places(wires.alloc, want, count)
    } else {
        choose_banks(wires, want, index, bits, count)
    }
}

fn equal_places(alloc: Global, place: usize, count: u64) -> Result<Items<usize>, AllocError>
    ensures { IfOk result (λ places. places ≡ replicate count place) }
{
    Ok(Items::from_vec(vec![in alloc; place; count as usize]?))
}

fn choose_banks(
    wires: &mut Wires,
    want: usize,
    index: usize,
    bits: u64,
    count: u64,
) -> Result<Items<usize>, AllocError>
    requires low { 1 ≤ bits }
    requires high { bits ≤ 3 }
    requires power { IsSmallPower count → 2 ^ bits ≡ count }
    ensures { IfOk result (AreOwnWants wires.old.signals wires.new.signals want index count) }
{
    let last_bits = Value::Select {
        of: index,
        high: bits - 1,
        low: 0,
    };
    let last = wires.wire(bits, last_bits)?;
    let never = wires.constant(1, 0)?;
    choose_each(wires, want, last, never, bits, count)
}

/// For each of the first numbers the one bit where a signal shows it, and else the other.
fn choose_each(
    wires: &mut Wires,
    want: usize,
    last: usize,
    never: usize,
    bits: u64,
    count: u64,
) -> Result<Items<usize>, AllocError>
    ensures { IfOk result (AreChosen wires.old.signals wires.new.signals want last never bits count) }
{
    let mut chosen = Items::new(wires.alloc);
    for number in 0..count {
        let shown = wires.is_number(bits, last, number)?;
        let one = wires.choice(1, shown, want, never)?;
        chosen.push(one)?;
    }
    Ok(chosen)
}

/// Whether a signal is a wire that always shows 0.
fn is_never(wires: &Wires, place: usize) -> bool
    ensures { IsTrue result → IsNever wires.now.signals place }
{
    match wires.signals.as_slice().get(place) {
        Some(signal) => is_zero(&signal.source),
        None => false,
    }
}

fn is_zero(source: &Source) -> bool
    ensures { IsTrue result → source.now ≡ source_of.Assigned (right_side.Constant 0) }
{
    match source {
        Source::Assigned(Value::Constant(number)) => *number == 0,
        _ => false,
    }
}

/// For each bank the place of its global.
pub fn spread_places(
    alloc: Global,
    spreads: &[Spread],
    places: &[usize],
) -> Result<Items<usize>, AllocError>
    ensures { IfOk result (λ all. all ≡ spread_out spreads.now places.now) }
{
    let mut all = Items::new(alloc);
    for (number, spread) in spreads.iter().enumerate() {
        let copies = place_copies(alloc, place_of(places, number), spread.count)?;
        all.append(copies)?;
    }
    Ok(all)
}

fn place_copies(alloc: Global, place: Option<usize>, count: u64) -> Result<Items<usize>, AllocError>
    ensures { IfOk result (λ copies. copies ≡ copies_of count place) }
{
    match place {
        Some(place) => Ok(Items::from_vec(vec![in alloc; place; count as usize]?)),
        None => Ok(Items::new(alloc)),
    }
}

fn place_of(places: &[usize], number: usize) -> Option<usize>
    ensures { result ≡ slice_get places.now number }
{
    places.get(number).copied()
}
