// Laws that lowering rests on. Each function takes and answers nothing: its contract is the law.
ghost use Rattle.code_storage.specs.Formats.{FormatsArePrinted, FormatsAreListed};

/// The printf calls of a resolved program print bytes that may stand in a text, and at most 4 values each.
#[tactic(auto, using(crate::proofs::Formats::program_prints, crate::proofs::Formats::formats_listed))]
pub fn formats_are_printed()
    ensures printed { FormatsArePrinted }
    ensures listed { FormatsAreListed }
{}
