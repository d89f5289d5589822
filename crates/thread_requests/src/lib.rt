//! What the module of a thread asks of cores in a state, by wires that read registers alone, and the output ports.
//! `rt plant`: of 10 wrong bodies in 7 functions 8 are refused and 2 could not be judged; 17 more were not tried.
#![tactic(auto)]

// - banks: what each bank is asked, of what is asked of each global (`SpreadsRequests`);
// - early: which cores are open (`LaysEarly`);
// - needing: where a thread needs a core though none may be asked (`NeedsMore`);
// - outputs: the ports, each a copy (`LaysOutputs`).

pub mod banks;
pub mod early;
pub mod needing;
pub mod outputs;
