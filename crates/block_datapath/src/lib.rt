//! The wires of a block of operations in the module of a thread: what each state of its plan shows, keeps and leaves.
//! `rt plant`: all 63 wrong bodies in 38 functions are refused; 58 more were not tried.
#![tactic(auto)]

// A stage has a bit `at`, that it is this stage. Each operation has the wires of its operands, as they are in the one
// state in which they matter (of an operator its last state, of an access its first one), and of its value, right in its
// last state. So each operand is chosen when the module is made: the value of an earlier operation is its wire where that
// one's last state is this state, and else its register; conversions are selects and copies of the sign.
//
// What a register holds next is a chain of conditionals, one link for each place in the code that sets it: under "this
// stage and this state" the value, else what the chain said before.
//
// # How it is proved
//
// Signals are put one behind another, each reads earlier ones, and a place never changes. So what a function that adds
// signals promises is not a layout: it says that the signals grow (`Grows`) and that in every module that begins with
// them, and every reading which that module obeys, the new place has this number (`Gives`), or shows this value of a
// type (`IsWord`). Such promises compose, and hold for all that comes behind. There is one layer for each file:
//
// - operands: in a reading that shows a slot of this stage and state, an operand's word shows `operand_now` of the
//   planned block: an earlier value is on its wire, or alive in its register;
// - operations: the same of each operation's word and the wires of the planned block, by induction over the operations;
// - told: a read of a global takes, in its last state, the word that the bank of its index tells on an input;
// - requests, accesses: what each bank is asked in a state, by wires that read registers alone: what the last access asks
//   that starts in this state and whose index names the bank;
// - states: bits tell the stage and the state;
// - keeping, ending: what a register for values and a variable hold next is the last of the links of its chain whose bit
//   is set, and the stage that follows is the one to which the block leads;
// - leaving_block: in a reading of another stage a block changes nothing, and in one of this stage the variables and the
//   registers for values are what the planned block says when its state is left.
//
// Beside what is shown (`shows`) each function promises how it is put together (`wired`): what it adds is wires, each of
// which reads earlier signals of right widths, and none of the first ones, the inputs; and the words, bits and last links
// that it answers stand, as wide as they say. There the memories are the arrays of the code.
//
// Of accesses past an array's end nothing is said: a step of the source that makes one is undefined. Of arrays that are
// written `thread_slots` speaks.

pub mod accesses;
pub mod ending;
mod keeping;
pub mod leaving_block;
pub mod operands;
pub mod operations;
pub mod registers;
pub mod requests;
pub mod states;
pub mod timing;
mod told;
pub mod units;
