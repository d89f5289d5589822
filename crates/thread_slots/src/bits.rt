// Lists of bits.

ghost use Rattle.std.specs.Prelude.{◌≡◌, true, length, IfOk};
ghost use Rattle.thread_slots.specs.Bits.{NotOf, BothOf, WithOf, NumberOf, MakesBits, LaysWith, MakesAny, EitherIf, is_in};
ghost use Rattle.thread_slots.specs.Bits.{AddsNots, AddsBoths, AddsWiths, AddsNumbers, AddsAny, EitherAdds};

use bank_partition::banks::Spread;
use operator_wires::wires::Wires;
use sqlite_items::Items;
use std::alloc::AllocError;

/// The complement of each bit.
pub fn not_each(wires: &mut Wires, bits: &[usize]) -> Result<Items<usize>, AllocError>
    ensures shows { IfOk result (λ outs. MakesBits wires.old.signals wires.new.signals (length bits.now) outs (NotOf bits.now)) }
    ensures wired { IfOk result (AddsNots wires.old.signals wires.new.signals bits.now) }
{
    let mut outs = Items::new(wires.alloc);
    for bit in bits {
        let out = wires.not(1, *bit)?;
        outs.push(out)?;
    }
    Ok(outs)
}

/// Of each two bits of a number whether both are set.
pub fn both_each(
    wires: &mut Wires,
    left: &[usize],
    right: &[usize],
) -> Result<Items<usize>, AllocError>
    ensures shows { IfOk result (λ outs. MakesBits wires.old.signals wires.new.signals (length left.now) outs (BothOf left.now right.now)) }
    ensures wired { IfOk result (AddsBoths wires.old.signals wires.new.signals left.now right.now) }
{
    let mut outs = Items::new(wires.alloc);
    for (number, bit) in left.iter().enumerate() {
        let other = right.get(number).copied().unwrap_or(0);
        let out = wires.both(*bit, other)?;
        outs.push(out)?;
    }
    Ok(outs)
}

/// Of each bit whether it is set, and another one.
pub fn both_with(
    wires: &mut Wires,
    bits: &[usize],
    other: usize,
) -> Result<Items<usize>, AllocError>
    ensures shows { IfOk result (λ outs. MakesBits wires.old.signals wires.new.signals (length bits.now) outs (WithOf bits.now other)) }
    ensures laid { IfOk result (LaysWith wires.old.signals wires.new.signals bits.now other (length bits.now)) }
    ensures wired { IfOk result (AddsWiths wires.old.signals wires.new.signals bits.now other) }
{
    let mut outs = Items::new(wires.alloc);
    for bit in bits {
        let out = wires.both(*bit, other)?;
        outs.push(out)?;
    }
    Ok(outs)
}

/// For each of the first numbers whether a signal of 64 bits shows it.
pub fn is_each(wires: &mut Wires, of: usize, count: usize) -> Result<Items<usize>, AllocError>
    ensures shows { IfOk result (λ outs. MakesBits wires.old.signals wires.new.signals count outs (NumberOf of)) }
    ensures wired { IfOk result (AddsNumbers wires.old.signals wires.new.signals of) }
{
    let mut outs = Items::new(wires.alloc);
    for number in 0..count {
        let out = wires.is_number(64, of, number as u64)?;
        outs.push(out)?;
    }
    Ok(outs)
}

/// Whether a first bit or one of these is set.
pub fn any_of(wires: &mut Wires, first: usize, bits: &[usize]) -> Result<usize, AllocError>
    ensures shows { IfOk result (MakesAny wires.old.signals wires.new.signals first bits.now (λ k. true) (length bits.now)) }
    ensures wired { IfOk result (AddsAny wires.old.signals wires.new.signals first bits.now) }
{
    let mut any = first;
    for bit in bits {
        let next = wires.either(any, *bit)?;
        any = next;
    }
    Ok(any)
}

/// Whether a first bit or one of those at the numbers of a spread is set.
pub fn any_within(
    wires: &mut Wires,
    first: usize,
    bits: &[usize],
    spread: Spread,
) -> Result<usize, AllocError>
    ensures shows { IfOk result (MakesAny wires.old.signals wires.new.signals first bits.now (is_in spread) (length bits.now)) }
    ensures wired { IfOk result (AddsAny wires.old.signals wires.new.signals first bits.now) }
{
    let mut any = first;
    for (number, bit) in bits.iter().enumerate() {
        let next = either_within(wires, any, *bit, spread, number)?;
        any = next;
    }
    Ok(any)
}

fn either_within(
    wires: &mut Wires,
    any: usize,
    bit: usize,
    spread: Spread,
    number: usize,
) -> Result<usize, AllocError>
    ensures shows { IfOk result (EitherIf wires.old.signals wires.new.signals any bit (is_in spread number)) }
    ensures wired { IfOk result (EitherAdds wires.old.signals wires.new.signals any bit) }
{
    if is_within(spread, number) {
        wires.either(any, bit)
    } else {
        Ok(any)
    }
}

fn is_within(spread: Spread, number: usize) -> bool
    ensures { result ≡ is_in spread number }
{
    spread.first <= number && ((number - spread.first) as u64) < spread.count
}
