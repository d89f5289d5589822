// How many banks a global has.

ghost use Rattle.std.specs.Prelude.{◌≡◌, ◌<◌};
ghost use Rattle.bank_partition.specs.Counts.{power_from, power_within, bank_count, words_of, IsBankCount};

/// The least power of two from a number on, but at most 8.
fn power_from(number: u64) -> u64
    ensures { result ≡ power_from number }
{
    match number {
        0 | 1 => 1,
        2 => 2,
        3 | 4 => 4,
        _ => 8,
    }
}

/// The greatest power of two up to a number, but at most 8; of 0 it is 1.
fn power_within(number: u64) -> u64
    ensures { result ≡ power_within number }
{
    match number {
        0 | 1 => 1,
        2 | 3 => 2,
        4..=7 => 4,
        _ => 8,
    }
}

/// The number of banks of a global of `length` elements, a scalar being one, that so many hardware threads name: the
/// least power of two that is at least their number, but at most 8 and at most `length`, rounded down to a power of two.
pub fn bank_count(threads: u64, length: u64) -> u64
    ensures count { result ≡ bank_count threads length }
    ensures law { 0 < length → IsBankCount threads length result }
{
    power_within(power_from(threads).min(length))
}

/// How many of `length` elements are in bank `number` of `count`: element j is in bank j modulo `count`.
pub(crate) fn words(count: u64, number: u64, length: u64) -> u64
    requires { number < count }
    ensures { result ≡ words_of count number length }
{
    let rows = length / count;
    if number < length % count {
        rows + 1
    } else {
        rows
    }
}
