ghost use Rattle.std.specs.Prelude.{◌≡◌};
ghost use Rattle.hls_status.specs.Lines.{status_number};

use c_profile::Refusal;
use thread_semantics::{BlockedCause, UndefinedCause};

/// How a walk ended whose steps did not end main. Steps are counted from 0.
#[derive(Clone, Copy, Debug, PartialEq, Eq)]
pub enum WalkEnd {
    /// All listed steps are taken.
    Listed {
        steps: u128,
    },
    /// The step of that index is blocked.
    Blocked {
        index: u128,
        thread: u32,
        cause: BlockedCause,
    },
    /// The step of that index is undefined, by the statement, operand or brace at an offset.
    Undefined {
        index: u128,
        offset: u32,
        cause: UndefinedCause,
    },
}

/// Why one run of a program shows nothing.
#[derive(Clone, Copy, Debug, PartialEq, Eq)]
pub enum UnknownCause {
    /// Main has not returned after as many steps as were asked for.
    TooFewSteps,
    /// Main has not returned, and each thread is blocked.
    Deadlock,
    /// Two acts on one mutex are not ordered.
    MutexLocked,
    /// A wait at a barrier and an earlier act there are not ordered.
    BarrierWaited,
    /// Two steps that depend on one another are not ordered.
    Unordered,
}

/// How a call ended.
#[derive(Debug, PartialEq, Eq, Drop)]
pub enum Status {
    Ok,
    /// The text is not of the profile.
    Refused(Refusal),
    /// The words are not of the command line.
    Usage,
    /// A read failed.
    ReadFault,
    /// A write failed; how many of the due bytes each sink took.
    WriteFault {
        out: usize,
        err: usize,
    },
    Memory,
    /// A run or a replay has as many entries as it may have; done is not shown, and a thread can move.
    Entries,
    /// In a run or a replay done is not shown, and no cycle of one thread changes anything.
    Stuck,
    /// The entry of that index is the first of a replay's journal that is not legal, or misspelt.
    BadEntry {
        index: usize,
    },
    /// Main has not returned in the steps of the walk.
    Walked(WalkEnd),
    /// So many cycles ran, and done is not shown.
    Cycles {
        cycles: u32,
    },
    /// A Verilog text spells no net that a simulator runs: the offset of the first token at which no sentence goes on, else of the first part
    /// that breaks a rule, else of what `top` lacks; or the most bytes that are read, where the text is longer.
    NotNet {
        offset: usize,
    },
    /// A signal of a Verilog text depends on itself: the path of the first, below `top`, with dots between the names.
    Loop {
        signal: String,
    },
    /// A program keeps no lock discipline: the place of the name of the first global that has none, where it is accessed first, and the name. Or
    /// the place of the first call by which a start routine may create or join a thread, and no name.
    Doubt {
        offset: usize,
        name: String,
    },
    /// Some interleaving of a program races at the global of this name: the offsets of the two steps.
    Race {
        first: u32,
        second: u32,
        name: String,
    },
    /// Some interleaving of a program comes to an undefined step, by the statement, operand or brace at an offset.
    UndefinedStep {
        offset: u32,
        cause: UndefinedCause,
    },
    /// One run of a program, of so many steps, shows neither that it is good nor that it isn't.
    Unknown {
        steps: u32,
        cause: UnknownCause,
    },
}

impl Status {
    /// The program's exit status.
    pub fn number(&self) -> u8
        ensures { result ≡ status_number self.now }
    {
        match self {
            Status::Ok => 0,
            Status::Refused(_) => 1,
            Status::Usage => 2,
            Status::ReadFault => 3,
            Status::WriteFault { .. } => 4,
            Status::Memory => 5,
            Status::Entries => 6,
            Status::Stuck => 7,
            Status::BadEntry { .. } => 8,
            Status::Cycles { .. } => 9,
            Status::Walked(_) => 10,
            Status::NotNet { .. } => 11,
            Status::Loop { .. } => 11,
            Status::Doubt { .. } => 12,
            Status::Race { .. } => 13,
            Status::UndefinedStep { .. } => 14,
            Status::Unknown { .. } => 15,
        }
    }
}
