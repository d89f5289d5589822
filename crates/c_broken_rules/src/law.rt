// The laws of the rules. The function takes and answers nothing: its contract is the laws.

ghost use Rattle.c_rules.specs.declared.fault.Rule.TheVariants as rule;
ghost use Rattle.c_broken_rules.specs.Laws.{FaultsAreBroken, BrokenAreFaults, FaultsAreBrokenOfFew, BrokenAreFaultsOfFew};
ghost use Rattle.c_broken_rules.specs.ThreadLaws.{FaultsAreBrokenAlone, BrokenAloneAreFaults, FaultsAreBrokenOfFewNames, BrokenAreFaultsOfFewNames};

/// The first fault of a text, by each of six rules: a first fault by the rule is at a place where the text breaks it (`.._sound`), and for
/// each place where the text breaks the rule there is a first fault that is none behind it (`.._complete`).
///
/// Unknown names, constants and formats: of every text. Names that are declared twice, labels that stand twice in one switch, and calls
/// that lie on a cycle of calls: of texts that define fewer than 2 ^ 32 functions. Threads: of texts that declare fewer than 2 ^ 32 - 1
/// names at file scope; and of every text (`uses_..`) what the creates of the text do not show together, which is an object of a block,
/// main or a start routine called, a parameter read, or pthread_exit elsewhere.
pub fn rules_are_judged()
    ensures names_sound { FaultsAreBroken rule.Unknown }
    ensures names_complete { BrokenAreFaults rule.Unknown }
    ensures declarations_sound { FaultsAreBrokenOfFew rule.Twice }
    ensures declarations_complete { BrokenAreFaultsOfFew rule.Twice }
    ensures calls_sound { FaultsAreBrokenOfFew rule.Recursive }
    ensures calls_complete { BrokenAreFaultsOfFew rule.Recursive }
    ensures constants_sound { FaultsAreBroken rule.Constant }
    ensures constants_complete { BrokenAreFaults rule.Constant }
    ensures formats_sound { FaultsAreBroken rule.Format }
    ensures formats_complete { BrokenAreFaults rule.Format }
    ensures uses_sound { FaultsAreBrokenAlone }
    ensures uses_complete { BrokenAloneAreFaults }
    ensures threads_sound { FaultsAreBrokenOfFewNames rule.Threads }
    ensures threads_complete { BrokenAreFaultsOfFewNames rule.Threads }
{}
