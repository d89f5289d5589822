// What the walk over a text finds: the first fault, and what can be judged only once the whole text is seen.

ghost use Rattle.std.specs.Prelude.{◌≡◌, min, OnOk};
ghost use Rattle.c_rules.specs.Findings as spec;

use crate::fault::{Fault, Rule, first};
use sqlite_items::Items;
use std::alloc::{AllocError, Global};

/// A call in a defined function: the numbers of both definitions, and the place of the called name.
#[derive(Clone, Copy)]
pub struct CallSite {
    pub caller: u32,
    pub callee: u32,
    pub offset: usize,
}

/// A create: the number of the thread object, that of the start routine's definition, and the place of its name.
#[derive(Clone, Copy)]
pub struct Creation {
    pub thread: u32,
    pub routine: u32,
    pub offset: usize,
}

/// What is found so far.
pub struct Findings {
    /// The first fault so far.
    pub fault: Option<Fault>,
    /// In the order of the text.
    pub calls: Items<CallSite>,
    pub creations: Items<Creation>,
}

impl Findings {
    /// Nothing is found.
    pub fn new(alloc: Global) -> Findings
        ensures { result ≡ spec.nothing }
    {
        Findings {
            fault: None,
            calls: Items::new(alloc),
            creations: Items::new(alloc),
        }
    }

    /// A rule is broken at the place.
    #[tactic(auto, unfolding(crate::specs::Findings::broken))]
    pub fn add(&mut self, rule: Rule, offset: usize)
        ensures { self.new ≡ spec.broken rule offset self.old }
    {
        self.fault = first(self.fault, Some(Fault { rule, offset }));
    }

    /// A rule is broken at the place, if so.
    pub fn add_if(&mut self, is_broken: bool, rule: Rule, offset: usize)
        ensures { self.new ≡ spec.broken_if is_broken rule offset self.old }
    {
        if is_broken {
            self.add(rule, offset);
        }
    }

    /// The rule, if there is one, is broken at the place.
    pub fn add_any(&mut self, rule: Option<Rule>, offset: usize)
        ensures { self.new ≡ spec.broken_any rule offset self.old }
    {
        if let Some(rule) = rule {
            self.add(rule, offset);
        }
    }

    /// A call of the function with this definition, in that of the caller; a call outside of definitions is not kept.
    pub fn add_call(
        &mut self,
        caller: Option<u32>,
        callee: u32,
        offset: usize,
    ) -> Result<(), AllocError>
        ensures { OnOk result (self.new ≡ spec.called caller callee offset self.old) }
    {
        if let Some(caller) = caller {
            self.calls.push(CallSite {
                caller,
                callee,
                offset,
            })?;
        }
        Ok(())
    }

    /// A create of the thread object by the start routine, whose name stands at the place.
    pub fn add_creation(
        &mut self,
        thread: u32,
        routine: u32,
        offset: usize,
    ) -> Result<(), AllocError>
        ensures { OnOk result (self.new ≡ spec.created thread routine offset self.old) }
    {
        self.creations.push(Creation {
            thread,
            routine,
            offset,
        })
    }
}

/// A place as the program's tree has it.
pub fn place(offset: usize) -> u32
    ensures { result ≡ min offset 0xffff_ffff }
{
    offset.min(0xffff_ffff) as u32
}

// A drop that is written here is proved here; a derived one is proved again in each crate that drops the type.

impl Drop for Findings {
    fn drop(self) {
        let Findings {
            fault: _,
            calls: _,
            creations: _,
        } = self;
    }
}
