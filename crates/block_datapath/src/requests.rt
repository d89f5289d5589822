// What banks are asked, in wires that read registers alone.

ghost use Rattle.std.specs.Prelude.{◌≡◌, ◌<◌, ◌≤◌, ◌^◌, length, replicate, IfOk, OnOk};
ghost use Rattle.operator_wires.specs.Built.{Base, IsEarlier, Adds};
ghost use Rattle.thread_promise.specs.Globals.{IsSmallPower};
ghost use Rattle.block_datapath.specs.Requests.{
  ShowsZeros,
  AsksNothing,
  AreZeroChains,
  AreEmptyChains,
  TellsBank,
  AddressesBank,
  AsksOne,
  AsksSome,
  AsksBank,
  IsAskAdded,
  AreAsksAdded,
};

use crate::registers::set_next;
use bank_partition::banks::Spread;
use netlist::netlist::Value;
use operator_wires::wires::Wires;
use sqlite_items::Items;
use std::alloc::{AllocError, Global};

/// What each bank is asked, by number: the last links so far.
#[derive(Drop)]
pub struct BankRequests {
    /// Whether this state has an access there.
    pub wants: Items<usize>,
    /// Whether it writes.
    pub writes: Items<usize>,
    /// The address, of 64 bits.
    pub addresses: Items<usize>,
    /// What is written, as wide as the bank's words.
    pub values: Items<usize>,
}

impl BankRequests {
    /// Nothing is asked of banks with words of these widths.
    pub fn begin(wires: &mut Wires, words: &[u64]) -> Result<BankRequests, AllocError>
        ensures shows { IfOk result (AsksNothing wires.old.signals wires.new.signals words.now) }
        ensures wired { IfOk result (AreEmptyChains wires.old.signals wires.new.signals words.now) }
    {
        let count = words.len();
        let bits = equal_widths(wires.alloc, count, 1)?;
        let wide = equal_widths(wires.alloc, count, 64)?;
        let ones = bits.as_slice();
        let longs = wide.as_slice();
        let wants = zeros(wires, ones)?;
        let writes = zeros(wires, ones)?;
        let addresses = zeros(wires, longs)?;
        let values = zeros(wires, words)?;
        Ok(BankRequests {
            wants,
            writes,
            addresses,
            values,
        })
    }
}

/// So many equal widths.
pub fn equal_widths(alloc: Global, count: usize, width: u64) -> Result<Items<u64>, AllocError>
    ensures { IfOk result (λ widths. widths ≡ replicate count width) }
{
    Ok(Items::from_vec(vec![in alloc; width; count]?))
}

/// A zero of each width.
pub fn zeros(wires: &mut Wires, widths: &[u64]) -> Result<Items<usize>, AllocError>
    ensures shows { IfOk result (ShowsZeros wires.old.signals wires.new.signals (length widths.now)) }
    ensures wired { IfOk result (AreZeroChains wires.old.signals wires.new.signals widths.now) }
{
    let mut zeros = Items::new(wires.alloc);
    for width in widths {
        let zero = wires.constant(*width, 0)?;
        zeros.push(zero)?;
    }
    Ok(zeros)
}

/// An access of a global: the bit of the state that makes it, whether it writes, the address in the bank, and what is
/// written.
#[derive(Clone, Copy)]
pub struct BankAccess {
    pub state: usize,
    pub writes: usize,
    pub address: usize,
    pub value: usize,
}

/// How many of the last bits of an index tell the bank, where a global has 1, 2, 4 or 8 banks.
pub fn bank_bits(count: u64) -> u64
    ensures power { IsSmallPower count → 2 ^ result ≡ count }
    ensures high { result ≤ 3 }
{
    match count {
        2 => 1,
        4 => 2,
        8 => 3,
        _ => 0,
    }
}

/// Whether the last bits of an index of 64 bits are a bank's number.
pub fn bank_bit(
    wires: &mut Wires,
    index: usize,
    bits: u64,
    number: u64,
) -> Result<usize, AllocError>
    requires { bits ≤ 3 }
    ensures shows { IfOk result (TellsBank wires.old.signals wires.new.signals index bits number) }
    ensures wired { IfOk result (λ place. (base : Base) → IsEarlier wires.old.signals base index 64 → number < 2 ^ bits
        → Adds base wires.old.signals wires.new.signals 1 place) }
{
    if bits == 0 {
        wires.constant(1, 1)
    } else {
        let last = wires.resized(index, 64, bits, false)?;
        wires.is_number(bits, last, number)
    }
}

/// The other bits of an index of 64 bits: the address in its bank.
pub fn bank_address(wires: &mut Wires, index: usize, bits: u64) -> Result<usize, AllocError>
    requires { bits ≤ 3 }
    ensures shows { IfOk result (AddressesBank wires.old.signals wires.new.signals index bits) }
    ensures wired { IfOk result (λ place. (base : Base) → IsEarlier wires.old.signals base index 64 → Adds base wires.old.signals wires.new.signals 64 place) }
{
    if bits == 0 {
        Ok(index)
    } else {
        let select = Value::Select {
            of: index,
            high: 63,
            low: bits,
        };
        let first = wires.wire(64 - bits, select)?;
        wires.resized(first, 64 - bits, 64, false)
    }
}

/// Where the bit of the state and another one are set a bank is asked.
fn ask_one(
    wires: &mut Wires,
    chains: &mut BankRequests,
    number: usize,
    width: u64,
    access: BankAccess,
    chosen: usize,
) -> Result<(), AllocError>
    ensures shows { OnOk result (AsksOne wires.old.signals wires.new.signals chains.old chains.new number access chosen) }
    ensures wired { OnOk result (IsAskAdded wires.old.signals wires.new.signals number width access chosen chains.old chains.new) }
{
    let here = wires.both(access.state, chosen)?;
    let one = wires.constant(1, 1)?;
    set_next(wires, &mut chains.wants, number, 1, here, one)?;
    set_next(wires, &mut chains.writes, number, 1, here, access.writes)?;
    set_next(
        wires,
        &mut chains.addresses,
        number,
        64,
        here,
        access.address,
    )?;
    set_next(wires, &mut chains.values, number, width, here, access.value)
}

/// Where the bit of the state is set the bank of an index of 64 bits is asked, of words of this width.
pub fn ask_bank(
    wires: &mut Wires,
    chains: &mut BankRequests,
    spread: Spread,
    width: u64,
    index: usize,
    access: BankAccess,
) -> Result<(), AllocError>
    ensures shows { OnOk result (AsksBank wires.old.signals wires.new.signals chains.old chains.new spread index access) }
    ensures wired { OnOk result (AreAsksAdded wires.old.signals wires.new.signals spread width index access chains.old chains.new) }
{
    // The numbers of all banks have to be numbers of 64 bits.
    if spread.count > u64::MAX - spread.first as u64 {
        return Ok(());
    }
    let bits = bank_bits(spread.count);
    for number in 0..spread.count {
        let chosen = bank_bit(wires, index, bits, number)?;
        ask_one(
            wires,
            chains,
            spread.first + number as usize,
            width,
            access,
            chosen,
        )?;
    }
    Ok(())
}
