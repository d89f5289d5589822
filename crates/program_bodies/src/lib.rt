//! The modules of a program's threads, as they are laid out beside its cores.
//! `rt plant`: of 4 wrong bodies in 3 functions 1 is refused, 1 by the premise of a callee alone and 2 could not be judged.
#![tactic(auto)]

mod threads;

ghost use Rattle.program_bodies.specs.Bodies.{CodesAreServed, LaidAreBodies, LaidMainStays};

pub use program_plans::{PlannedFunction, plan_functions};
pub use threads::modules;

/// A module that is laid out for a thread, with ports for all cores of a program, is what the program's parts ask of it (`bodies`), and main's stays where it
/// has ended (`main`). The typed code of a thread function, by a right plan, is one that `module` lays out beside these cores (`served`).
pub fn laid_are_bodies()
    ensures bodies { LaidAreBodies }
    ensures main { LaidMainStays }
    ensures served { CodesAreServed }
{}
