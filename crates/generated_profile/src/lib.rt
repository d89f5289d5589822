//! The laws of the text of a generated program: it has a tree, and is accepted as the program that it writes out.
#![tactic(auto)]

ghost use Rattle.generated_profile.specs.Laws.{GeneratedHasTree, GeneratedIsAccepted};

/// The text of at most 63 threads and 1,000 lines has a tree.
pub fn generated_has_tree()
    ensures { GeneratedHasTree }
{}

/// The text of 1 to 63 threads and at most 1,000 lines is accepted. Its program is, statement by statement, the one that the text writes
/// out (`IsGenerated`), and has that many threads beside main.
pub fn generated_is_accepted()
    ensures { GeneratedIsAccepted }
{}
