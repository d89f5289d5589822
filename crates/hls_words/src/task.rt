use sqlite_items::Items;
use thiserror::Error;
use turns::Turn;

/// What the program is asked to do.
#[derive(Drop)]
pub enum Task {
    /// Write the Verilog text of the C text; so many threads at most make it.
    Build {
        jobs: u32,
    },
    /// Run the Verilog for so many cycles at most. With `vcd` a value change dump takes the place of what was printed.
    Step {
        cycles: u32,
        vcd: bool,
    },
    /// Run the Verilog by a worker for each thread, for so many entries at most, and list the journal where asked.
    Run {
        entries: u32,
        journal: bool,
    },
    /// Do the journal that the text begins with again.
    Replay,
    /// Take C steps of threads, in these turns.
    Walk(Items<Turn>),
    /// Say whether each global of the program keeps a lock discipline.
    Check,
    /// Say by one run of at most so many steps whether the program is good.
    CheckRun {
        steps: u32,
    },
    /// Read a Verilog text, and run it for so many cycles at most.
    Sim {
        cycles: u32,
    },
    /// Make the program of a seed, of 1 to 63 threads beside main and at most 1,000 lines, and run its Verilog for so many cycles at most.
    Gen {
        seed: u32,
        threads: u32,
        size: u32,
        cycles: u32,
    },
    /// Tell what the Verilog of the C text is made of.
    Report,
}

/// Why the words give no task.
#[derive(Clone, Copy, Debug, Error)]
pub enum WordsError {
    #[error("the words are not of the command line")]
    Usage,
    #[error("out of memory")]
    Mem,
}
