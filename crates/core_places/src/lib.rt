//! The cores of a program's hardware as a table of modules has them, each with the place of its module and its number.
//! `rt plant`: of 33 wrong bodies in 12 functions 28 are refused, 1 answers the same and 4 could not be judged.
#![tactic(auto)]

pub mod kinds;
pub mod layout;

ghost use Rattle.core_places.specs.Placing.{CoresArePlaced};

/// In a table of these cores and their modules each core has its module, and each module stands once, for some core.
pub fn cores_are_placed()
    ensures { CoresArePlaced }
{}
