// Intervals, and what packing them gives.

/// The places from `start` on, `end` left out. One whose start is not below its end has no place.
#[derive(Clone, Copy, PartialEq, Eq)]
pub struct Interval {
    pub start: u64,
    pub end: u64,
}

/// Rows for a list of intervals: intervals that meet have different rows.
#[derive(Drop)]
pub struct Packing {
    /// The row of each interval, by its index in the list.
    pub row: Vec<usize>,
    /// How many rows there are; their numbers are 0 and on.
    pub rows: usize,
    /// The least place where `rows` intervals meet, 0 where there are none.
    pub crowded: u64,
}
