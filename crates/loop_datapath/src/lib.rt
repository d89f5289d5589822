//! The wires of a pipelined loop in the module of a thread: what each state of its rounds shows, keeps and leaves.
#![tactic(auto)]

// In a state of a loop several iterations are under way, each in a stage of its own. What a block's state is for a block, a
// phase of a round is for the iteration in a stage: its operations' values are there on their wires, or in the registers
// of their chains, each of which hands its value on with each round. What is new is where variables come from: the registers
// of variables hold what the iterations that are over have left, and what a later iteration begins with is found by unrolling
// what the iterations between leave, through conversions, from variable to variable.
//
// There is one layer for each file:
//
// - times: in which stage and phase an operation works last, and where its value is found then and later;
// - operands: the word of an operand of the iteration that is so many behind the oldest one, by what is unrolled;
// - rounds: of an operand in each round, a conditional for each round in which it is made of something else;
// - operations: the words of the operations, each after those before it;
// - states: bits of states, phases and rounds;
// - stage_bits: whether an iteration is in each stage, whether another round follows, and whether an iteration ends;
// - chains: what the registers for values hold next;
// - leaving_loop: what a state of the loop leaves.

pub mod chains;
pub mod leaving_loop;
pub mod operands;
pub mod operations;
pub mod rounds;
pub mod stage_bits;
pub mod states;
pub mod times;
