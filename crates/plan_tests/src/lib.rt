//! Tests of the layers of the planner and of what is laid out by its plans: starts, packed rows, the table of a block, its units and
//! registers, stages that are dropped, the plan of a code, plans side by side, and the module of a thread. They stand in a crate of
//! their own, since a crate with tests is proved twice, and call nothing of the front end, so that little is linked to them.
#![tactic(auto)]

#[cfg(test)]
mod bindings;
#[cfg(test)]
mod dropped;
#[cfg(test)]
mod loops;
#[cfg(test)]
mod packings;
#[cfg(test)]
mod plans;
#[cfg(test)]
mod schedules;
#[cfg(test)]
mod side_by_side;
#[cfg(test)]
mod small;
#[cfg(test)]
mod table;
#[cfg(test)]
mod thread_module;
