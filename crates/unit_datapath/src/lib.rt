//! The functional units of a thread: multipliers and dividers that the operations of all its blocks share.
//! `rt plant`: of 67 wrong bodies in 14 functions 59 are refused, 4 answer the same and 4 could not be judged.
#![tactic(auto)]

// Products, quotients and remainders have units, and each kind of them, as multipliers of 32 bits or dividers of 64 bits
// with a sign, its own. The plan of a block gives each operation the number of its unit. No two operations of one kind
// and number are at work in one state, and their operands stand in registers while they work. So a unit is one operator
// behind two multiplexers: chains that begin with the operands of the first operation, and have a link for each later one,
// under "this stage, and a state in which the operation works". Its result is right in each of these states. An operation
// with a constant keeps its number and shares no unit: it has an operator of its own, which a synthesizer can fold.
//
// - kinds: which operations are of a kind, and share its units;
// - counts: how many units of a kind there are, for an operator;
// - words: operands as registers hold them;
// - states: whether an operation is at work;
// - inputs: the chains of the units of a kind;
// - links: a link for each operation, block by block;
// - results, units: the operators, and all kinds.

mod counts;
mod inputs;
mod kinds;
mod links;
mod results;
mod states;
pub mod units;
mod words;
