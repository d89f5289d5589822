//! What the commands that run hardware say of a good program: `step`, `run`, `replay` and `gen` print what one of its interleavings prints.
#![tactic(auto)]

ghost use Rattle.commands_follow.specs.Shown.{GeneratedShow, ReplaysShow, RunsShow, StepsShow};

/// Where the program is good, what these commands answered is the output of one interleaving.
pub fn commands_follow()
    // `step`: it is ended exactly where done is shown.
    ensures steps { StepsShow }
    // `run`: it is ended exactly under the verdict that done is shown, and deadlocked under the verdict that no thread can move.
    ensures runs { RunsShow }
    // `replay`: the same.
    ensures replays { ReplaysShow }
    // `gen`: as `step`, of a program that is good.
    ensures generated { GeneratedShow }
{}
