// The value of a right side in one instance.

ghost use Rattle.std.specs.Prelude.{◌≡◌, ◌+◌, slice_index, slice_get};
ghost use Rattle.hls_ints.specs.Words.{word};
ghost use Rattle.circuit.specs.Readings.{width, value as value_of, joined, memory_words};
ghost use Rattle.circuit.specs.Rows.{EachOf};
ghost use Rattle.sim_values.specs.Flat.{flat_of, reading, IsWide, IsNarrow};

use crate::operators::{beside, binary, divided, repeated, selected, signed_divided};
use hls_ints::{v_not, v_sar, v_sless};
use netlist::netlist::{Module, Value};
use sqlite_items::at;

/// Where an instance stands: its signals from word `base` on, its memories from memory `memories` on.
#[derive(Clone, Copy)]
pub struct Spot {
    pub base: usize,
    pub memories: usize,
}

/// The words of all signals, of all memories, and where each memory starts.
#[derive(Clone, Copy)]
pub struct Now<'a> {
    pub numbers: &'a [u64],
    pub words: &'a [u64],
    pub starts: &'a [u64],
}

/// The number at a place, and 0 where there is none.
pub fn item_at(numbers: &[u64], place: usize) -> u64
    ensures { result ≡ slice_index numbers.now place }
{
    match numbers.get(place) {
        Some(number) => *number,
        None => 0,
    }
}

/// The number that stands so far behind a place.
pub fn number_at(numbers: &[u64], base: usize, signal: usize) -> u64
    ensures { result ≡ slice_index numbers.now (base + signal) }
{
    match base.checked_add(signal) {
        Some(place) => item_at(numbers, place),
        None => 0,
    }
}

/// The word of a number in a memory that starts at a place.
pub fn word_at(words: &[u64], start: u64, number: u64) -> u64
    ensures { result ≡ slice_index words.now (start + number) }
{
    match start.checked_add(number) {
        Some(place) if place < words.len() as u64 => words[place as usize],
        _ => 0,
    }
}

/// How many words a memory has.
pub fn memory_size(module: &Module, memory: usize) -> u64
    ensures { result ≡ memory_words (slice_get module.now.memories memory) }
{
    match at(module.memories.as_slice(), memory) {
        Some(found) => found.initial.len() as u64,
        None => 0,
    }
}

/// The width of a signal in bits; 0 where the module has none of this number.
pub fn width_at(module: &Module, signal: usize) -> u32
    requires { IsWide module.now signal }
    ensures { result ≡ width module.now signal }
{
    match at(module.signals.as_slice(), signal) {
        Some(found) => found.width as u32,
        None => 0,
    }
}

fn joined_at(module: &Module, spot: Spot, now: &Now, parts: &[usize]) -> u64
    requires { EachOf (IsWide module.now) parts.now }
    ensures { result ≡ word 64 (joined module.now (reading spot (flat_of now.now)) parts.now 0) }
{
    let mut above = 0;
    for part in parts {
        let number = number_at(now.numbers, spot.base, *part);
        above = beside(above, width_at(module, *part), number);
    }
    above
}

/// The value of a right side in the instance at a spot, modulo 2 to the 64.
pub fn value_at(module: &Module, spot: Spot, now: &Now, value: &Value) -> u64
    requires { IsNarrow module.now value.now }
    ensures { result ≡ word 64 (value_of module.now (reading spot (flat_of now.now)) value.now) }
{
    match value {
        Value::Copy(of) => number_at(now.numbers, spot.base, *of),
        Value::Constant(number) => *number,
        Value::BitwiseNot(of) => {
            let width = width_at(module, *of);
            v_not(width, number_at(now.numbers, spot.base, *of))
        }
        Value::Binary {
            operator,
            left,
            right,
        } => {
            let width = width_at(module, *left);
            let first = number_at(now.numbers, spot.base, *left);
            let second = number_at(now.numbers, spot.base, *right);
            binary(*operator, width, first, second)
        }
        Value::SignedLess { left, right } => {
            let width = width_at(module, *left);
            let first = number_at(now.numbers, spot.base, *left);
            let second = number_at(now.numbers, spot.base, *right);
            v_sless(width, first, second)
        }
        Value::ArithmeticShiftRight { left, right } => {
            let width = width_at(module, *left);
            let first = number_at(now.numbers, spot.base, *left);
            let second = number_at(now.numbers, spot.base, *right);
            v_sar(width, first, second)
        }
        Value::Conditional {
            condition,
            if_true,
            if_false,
        } => {
            if number_at(now.numbers, spot.base, *condition) == 0 {
                number_at(now.numbers, spot.base, *if_false)
            } else {
                number_at(now.numbers, spot.base, *if_true)
            }
        }
        Value::Division {
            operator,
            left,
            right,
        } => {
            let width = width_at(module, *left);
            let first = number_at(now.numbers, spot.base, *left);
            let second = number_at(now.numbers, spot.base, *right);
            divided(*operator, width, first, second)
        }
        Value::SignedDivision {
            operator,
            left,
            right,
        } => {
            let width = width_at(module, *left);
            let first = number_at(now.numbers, spot.base, *left);
            let second = number_at(now.numbers, spot.base, *right);
            signed_divided(*operator, width, first, second)
        }
        Value::MemoryRead { memory, address } => {
            let word = number_at(now.numbers, spot.base, *address);
            if word >= memory_size(module, *memory) {
                return 0;
            }
            word_at(
                now.words,
                number_at(now.starts, spot.memories, *memory),
                word,
            )
        }
        Value::Select { of, high, low } => {
            selected(number_at(now.numbers, spot.base, *of), *high, *low)
        }
        Value::Concatenation(parts) => joined_at(module, spot, now, parts.as_slice()),
        Value::Replication { count, of } => {
            let width = width_at(module, *of);
            repeated(*count, width, number_at(now.numbers, spot.base, *of))
        }
    }
}
