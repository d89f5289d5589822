// Decimal numbers.

ghost use Rattle.std.specs.Prelude.{◌≡◌, ◌+◌, ◌-◌, ◌*◌, ◌^◌, ◌≤◌, MatchOption};
ghost use Rattle.verilog_tree.specs.Tokens as spec;
ghost use Rattle.verilog_lexer.specs.Runs.{read_on};

use itoa::Buffer;

/// The value of a number behind which this digit stands.
fn shifted(value: u64, digit: u8) -> Option<u64>
    ensures { MatchOption result (2 ^ 64 ≤ 10 * value + (digit - 48)) (λ n. n ≡ 10 * value + (digit - 48)) }
{
    let units = digit.saturating_sub(b'0');
    match value.checked_mul(10) {
        Some(tens) => tens.checked_add(units as u64),
        None => None,
    }
}

/// The number whose digits these are, where it is below 2 to the 64. Other bytes count as digits too.
#[tactic(auto, using(crate::proofs::DigitValue::too_large))]
fn value_of(digits: &[u8]) -> Option<u64>
    ensures { MatchOption result (2 ^ 64 ≤ read_on 0 digits.now) (λ n. n ≡ read_on 0 digits.now) }
{
    let mut value = 0;
    let mut rest = digits;
    while let [digit, more @ ..] = rest {
        match shifted(value, *digit) {
            Some(next) => value = next,
            None => return None,
        }
        rest = more;
    }
    Some(value)
}

/// The number that these digits spell without leading zeros, where it is below 2 to the 64.
#[tactic(auto, using(crate::proofs::DigitValue::written, crate::proofs::DigitValue::differs, crate::proofs::DigitValue::large))]
pub(crate) fn number_of(digits: &[u8]) -> Option<u64>
    ensures { result ≡ spec.number_of digits.now }
{
    let Some(number) = value_of(digits) else {
        return None;
    };
    let mut buffer = Buffer::new();
    if buffer.format(number).as_bytes() == digits {
        Some(number)
    } else {
        None
    }
}
