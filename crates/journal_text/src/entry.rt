// Entries of a journal.

/// Closed cycles of one thread, and perhaps an open one.
#[derive(Clone, Copy, PartialEq, Eq)]
pub struct Entry {
    pub thread: u64,
    pub closed: u64,
    pub opened: bool,
}
