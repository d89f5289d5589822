//! What the stages of a thread's code ask of cores, by wires that read registers alone.
#![tactic(auto)]

// - fields: the number of a site, and the values of a printf;
// - asking: in a reading of another stage a stage's links change nothing (`AsksOver`); in a reading of this stage they show what
//   is asked (`AsksStage`): of a block by each bank what the one access asks that names it, and of a printf its site and its
//   values. So, by induction over the stages, all links show what the stage of the reading asks (`AsksAll`);
// - met: at the meeting of a wait, where nothing is asked, the barrier at which the thread meets others (`NamesMet`).

pub mod asking;
mod fields;
pub mod met;
