//! The module of a thread, put together of its parts.
//! `rt plant`: all 2 wrong bodies in 2 functions are refused; 3 more were not tried.
#![tactic(auto)]

// Ports. Inputs: `clk`, `en`, for each core that the thread asks whether it grants, the word that each bank tells, for each
// barrier whether it holds the thread, and of the core of the thread ids whether the thread is to run, and its argument.
// Outputs: for each core whether it is asked and for what (its fields), then `need` and `done`. The cores are the banks of the
// globals, in order, the mutexes, the barriers, the core of the thread ids if there is one, and the printer.
//
// Registers, which are the slot. `stage`, the number of the stage, where of n stages number n stands for "main has ended" or
// "the thread has not begun, or is over", and n + 1 + l for "the barrier wait at stage l is granted, and the thread meets
// others"; `state`, the state within the stage; `beat`, turned by every move; one for each variable, as wide as its type; one
// for each register of the plan, as wide as the widest value that it ever keeps (narrower ones stand in its low bits); and one
// bit for each global, which remembers a grant: a plan that keeps the orders has at most one access of a global in a state. A
// local array is a memory.
//
// Wires. A stage has `at`, that it is this stage. A block of operations has the wires that `block_datapath` lays.
//
// What is asked comes first: wires that read registers alone. A bank is open where an access of this state names it and its
// global's bit is not set; the core of an object is open where the act of this stage names it, by the table of acts; each core
// that is open is asked where the thread is enabled.
//
// What banks tell is heard where a core is needed: for each bank a wire shows its word there, and 0 elsewhere. No other wire
// reads an input on which a word is told, so what a cycle does that needs no core hangs on registers alone.
//
// Multipliers and dividers are shared by the operations of all blocks (crate `unit_datapath`): their wires read registers alone,
// and an operation that has a unit takes its result, in place of an operator of its own.
//
// What a register holds next is a chain of conditionals, one link for each place in the code that sets it: under "this
// stage and this state" the value, else what the chain said before. Chains read registers and what is heard, and no
// grant. Grants come in one place only: the state is left where the thread is enabled, waits for nothing, and each request is
// granted, now or before. Registers are set under this condition alone, but for the bits of globals and the beat, which are
// set where some core grants, too.
//
// The first state is that of the initial constants: everything 0, but `stage` of a thread that has to be created.
//
// All of it together is `IsModule`. The slot of a reading: `stage`, `state` and `beat` are its numbers; a variable's register
// shows a value of its type; a register of the plan shows, in its low bits, the value of each operation that is alive there in
// this state, and whatever it likes where none is; a memory's words show the elements of its array; and a global's bit shows
// whether its access in this state has been granted. The proofs here read such slots; those of `fsm_datapath` stand on them.

pub mod layout;
mod telling;
