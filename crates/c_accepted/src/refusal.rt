// Why a text is not of the profile.

use c_limits::Passed;
use c_rules::fault::Rule;

/// The first reason, in the order of the profile, why a text is not of it. Offsets are in bytes from the text's begin.
#[derive(Clone, Copy, Debug, PartialEq, Eq)]
pub enum Refusal {
    /// It is longer than 65,536 bytes.
    TooLong,
    /// No token, comment or directive starts here, or it is not closed.
    NoToken { offset: usize },
    /// No sentence goes on with the token here.
    Syntax { offset: usize },
    /// A rule on names, kinds and types is broken here.
    Broken { rule: Rule, offset: usize },
    /// No main is defined.
    NoMain,
    /// A token here is the first to pass a limit.
    LimitAt { passed: Passed, offset: usize },
    /// The program is above a limit.
    Limit(Passed),
}
