// What the calls of a board answer.

/// Why a run ended.
#[derive(Clone, Copy)]
pub enum Verdict {
    /// `done` is shown.
    Done,
    /// It is not, and no cycle of one thread changes anything.
    Stuck,
    /// Neither, and there are as many entries as there may be.
    Entries,
}

/// What a commit did.
#[derive(Clone, Copy)]
pub enum Answer {
    /// An entry was added.
    Committed,
    /// The thread's slot is no longer as the copy was made.
    Stale,
    /// There was no closed cycle to add, and the thread can't do its open one.
    Waits,
    Ended(Verdict),
}

/// The thread to run next, or why there is none.
#[derive(Clone, Copy)]
pub enum Next {
    Thread(usize),
    Ended(Verdict),
}
