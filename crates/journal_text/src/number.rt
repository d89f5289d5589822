// Numbers of a journal.

ghost use Rattle.std.specs.Prelude.{◌≡◌, ℕ, ◌+◌, ◌-◌, ◌*◌, ◌^◌, ◌≤◌, MatchOption, MatchBool};
ghost use Rattle.journal_text.specs.Numbers.{read_on, IsNumber};

use itoa::Buffer;

fn shifted(value: u64, byte: u8) -> Option<u64>
    ensures { MatchOption result (2 ^ 64 ≤ 10 * value + (byte - 48)) (λ n. n ≡ 10 * value + (byte - 48)) }
{
    let digit = byte.saturating_sub(48);
    match value.checked_mul(10) {
        Some(tens) => tens.checked_add(digit as u64),
        None => None,
    }
}

/// The number whose digits these are. Other bytes count as digits too.
fn value_of(text: &[u8]) -> Option<u64>
    ensures { MatchOption result (2 ^ 64 ≤ read_on 0 text.now) (λ n. n ≡ read_on 0 text.now) }
{
    let mut value = 0;
    for number in 0..text.len() {
        match shifted(value, text[number]) {
            Some(next) => value = next,
            None => return None,
        }
    }
    Some(value)
}

fn is_number(text: &[u8], number: u64) -> bool
    ensures { MatchBool result (IsNumber text.now number) (IsNumber text.now number → ⊥) }
{
    let mut buffer = Buffer::new();
    number < 10_000_000_000 && buffer.format(number).as_bytes() == text
}

/// The number that a text is, in decimal without leading zeros and of 1 to 10 digits.
#[tactic(auto, using(crate::proofs::ReadNumbers::number_read))]
pub fn number_of(text: &[u8]) -> Option<u64>
    ensures { MatchOption result ((n : ℕ) → IsNumber text.now n → ⊥) (IsNumber text.now) }
{
    match value_of(text) {
        Some(number) if is_number(text, number) => Some(number),
        Some(_) | None => None,
    }
}
