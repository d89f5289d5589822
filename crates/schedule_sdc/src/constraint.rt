// Constraints on start times, and what solving them gives.

/// The start of `to` is at least the start of `from` and the gap, which may be negative.
#[derive(Clone, Copy)]
pub struct Constraint {
    /// A place: an operation, or the end of a block, by its number.
    pub from: usize,
    /// Another place, or the same.
    pub to: usize,
    /// In states.
    pub gap: i64,
}

/// What solving a list of constraints gives.
#[derive(Drop)]
pub enum Solved {
    /// The least start of each place.
    Starts(Vec<u64>),
    /// The places of a closed walk, its last place the first again, whose gaps have a positive sum.
    /// No starts meet all of its constraints.
    Cyclic(Vec<usize>),
}
