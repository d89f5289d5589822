// What is evaluated before a step: calls, conditionals and short circuits, each to a local that keeps its value (C99 6.5.2.2, 6.5.13 to 6.5.15).

ghost use Rattle.std.specs.Prelude.{◌≡◌, map, OnOk};
ghost use Rattle.c_program.specs.Plain.{boxed_statement_of};
ghost use Rattle.c_expressions.specs.Cuts as spec;

use c_program::tree as resolved;
use std::alloc::{AllocError, Global};

/// The cuts of a step so far.
#[derive(Drop)]
pub struct Cuts {
    /// In the order of their evaluation.
    pub before: Vec<Box<resolved::Statement>>,
    /// The number of the first local behind those that keep a value for the step.
    pub next: u32,
}

impl Cuts {
    /// No cut yet, where the locals from that number on are free.
    pub fn free_from(alloc: Global, next: u32) -> Cuts
        ensures { spec.cuts_of result ≡ spec.free_from next }
    {
        Cuts {
            before: Vec::new(alloc),
            next,
        }
    }

    /// One more cut, whose value the local keeps; those behind it are free again.
    pub fn keep(&mut self, slot: u32, cut: Box<resolved::Statement>) -> Result<(), AllocError>
        ensures { OnOk result (spec.cuts_of self.new ≡ spec.keeping slot (boxed_statement_of cut) (spec.cuts_of self.old)) }
    {
        self.before.push(cut)?;
        self.next = slot.saturating_add(1);
        Ok(())
    }

    /// More statements that give one value, which the local keeps; those behind it are free again.
    pub fn keep_all(
        &mut self,
        slot: u32,
        mut statements: Vec<Box<resolved::Statement>>,
    ) -> Result<(), AllocError>
        ensures { OnOk result (spec.cuts_of self.new ≡ spec.keeping_all slot (map boxed_statement_of statements.items) (spec.cuts_of self.old)) }
    {
        self.before.append(&mut statements)?;
        self.next = slot.saturating_add(1);
        Ok(())
    }
}
