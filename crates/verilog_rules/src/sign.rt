// Tokens with one spelling.

use verilog_tree::token::{Mark, Word};

/// A token that has one spelling where the grammar asks for it.
#[derive(Clone, Copy, PartialEq, Eq)]
pub enum Sign {
    Word(Word),
    Mark(Mark),
    /// The number 0.
    Zero,
    /// The name `clk`.
    Clock,
}
