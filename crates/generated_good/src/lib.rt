//! The law that a generated program is good: a function that takes and answers nothing, whose contract is the law.
#![tactic(auto)]

ghost use Rattle.generated_good.specs.Laws.{GeneratedIsGood};

/// A generated program of 1 to 63 threads beside main is good, whatever lines its workers go through.
pub fn generated_is_good()
    ensures { GeneratedIsGood }
{}
