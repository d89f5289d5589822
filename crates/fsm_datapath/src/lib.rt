//! The module of a thread: a state machine with datapath that runs the thread's code by its plan (`RunsCode`), is a leaf of a net (`IsLeafOf`), and
//! keeps to itself while it needs no core.
//! `rt plant`: no wrong body that it makes for the 1 function compiles.
#![tactic(auto)]

// What it is made of stands in `thread_slots`, `thread_asks`, `thread_requests`, `thread_states` and, put together, in `thread_layout`;
// what is proved here holds of any module that is laid out so (`IsModule`). The promise is made of the code of main, and of that of every other thread
// (`IsServed`). Signals have grades by their places: 0 is what registers alone reach, 1 what the enable reaches, 2 what a grant or a word of a bank
// reaches. Each wire reads earlier signals, of no higher grade; what cores are asked has grade 1.

pub mod module;
