// Names that are a stem, the name of a global, `_` and a number.

ghost use Rattle.std.specs.Prelude.{◌≡◌, None, Some, MatchOption, codes};
ghost use Rattle.global_banks.specs.Banks.{
  are_digits as digits_of,
  behind as bytes_behind,
  is_decimal as decimal_of,
  is_rest as is_rest_of,
  rest_of as bytes_rest,
};

use sqlite_items::at;

/// What stands behind a stem, where a name begins with it.
pub fn behind<'a>(stem: &[u8], name: &'a [u8]) -> Option<&'a [u8]>
    ensures { MatchOption result (bytes_behind stem.now name.now ≡ None) (λ r. bytes_behind stem.now name.now ≡ Some r.now) }
{
    name.strip_prefix(stem)
}

/// Of a name that is a stem, the name of a global, `_` and more: what more there is.
pub fn rest_of<'a>(stem: &[u8], global: &[u8], name: &'a [u8]) -> Option<&'a [u8]>
    ensures { MatchOption result (bytes_rest stem.now global.now name.now ≡ None) (λ r. bytes_rest stem.now global.now name.now ≡ Some r.now) }
{
    behind("_".as_bytes(), behind(global, behind(stem, name)?)?)
}

/// Whether that is this.
pub fn is_rest(stem: &[u8], global: &[u8], name: &[u8], digits: &[u8]) -> bool
    ensures { result ≡ is_rest_of (bytes_rest stem.now global.now name.now) digits.now }
{
    match rest_of(stem, global, name) {
        Some(rest) => rest == digits,
        None => false,
    }
}

fn are_digits(text: &[u8]) -> bool
    ensures { result ≡ digits_of text.now }
{
    for byte in text {
        if *byte < b'0' || b'9' < *byte {
            return false;
        }
    }
    true
}

/// Whether a text is a number in minimal decimals.
pub fn is_decimal(text: &[u8]) -> bool
    ensures { result ≡ decimal_of text.now }
{
    match at(text, 0) {
        Some(byte) => are_digits(text) && (b'0' < *byte || text.len() == 1),
        None => false,
    }
}
