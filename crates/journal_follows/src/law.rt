// What a run or a replay says of the program, where it is good.

ghost use Rattle.journal_follows.specs.Follows.{JournalsFollow, ReplaysFollow, RunsFollow};

/// Of a good program, what the choices of a legal journal print on its good Verilog is the output of one interleaving, which is ended
/// exactly where done is shown, and deadlocked where no thread can move. What a run or a replay answers is the output of such an
/// interleaving: it is ended exactly under the verdict that done is shown, and deadlocked under the verdict that no thread can move.
pub fn journals_follow()
    ensures journals { JournalsFollow }
    ensures runs { RunsFollow }
    ensures replays { ReplaysFollow }
{}
