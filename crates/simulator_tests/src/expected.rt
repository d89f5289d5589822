// One row of a test.

use std::process::Abort;

/// Ends the test where a value is not the expected one.
pub fn expect<T: Copy + PartialEq>(rt: &impl Abort, found: T, expected: T) {
    let is_expected = found == expected;
    assert!(rt; is_expected);
}
