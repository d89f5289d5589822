//! What the stages of a thread's code do to the chains of its module, when a state is left, and what an edge does.
#![tactic(auto)]

// - acts, stages: in a reading of another stage a stage's links change nothing (`StepsStage`); in a reading of this stage they
//   show what the state leaves (`DoesStage`): of a block what the planned block says, and of an act the stage that follows it.
//   A wait at a barrier has a second number, at which its thread meets the others. So, by induction over the stages, all chains
//   show what the stage of the reading does (`WalksAll`);
// - resting: the rest, where a thread that is created sets out (`EndsAt`);
// - control: when a state is left, and what follows it then (`Controls`);
// - actions: what an edge sets and stores.

pub mod actions;
mod acts;
pub mod control;
pub mod resting;
pub mod stages;
