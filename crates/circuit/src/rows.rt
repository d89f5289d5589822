// What the signals of tables of rows are for and are called, and registers that follow wires.

ghost use Rattle.std.specs.Prelude.{◌≡◌, ◌^◌, ◌<◌, true, IfOk};
ghost use Rattle.verilog_tree.specs.Spelling.{is_name};
ghost use Rattle.circuit.specs.Rows.{stem_of, name_of, sets};

use netlist::netlist::{Action, Effect};
use sqlite_items::Items;
use std::alloc::{AllocError, Global};
use verilog_tree::name::Identifier;

/// What a signal is for.
#[derive(Clone, Copy)]
pub enum Role {
    /// The input `clk`.
    Clock,
    /// The preferred thread of an arbiter.
    Preference,
    /// Whether a thread asks.
    Ask,
    /// What a thread asks for.
    Operation,
    Address,
    Data,
    Argument,
    /// The number of a print site.
    Site,
    /// A value of a print site.
    Value,
    /// Whether a thread's request may be granted.
    Offer,
    /// Whether a thread's request is granted.
    Grant,
    /// What a core tells a thread.
    Told,
    /// A register.
    State,
    /// Any other wire.
    Wire,
}

impl Role {
    fn stem(self) -> &'static str
        ensures stem { result.now ≡ stem_of self }
        ensures name { is_name result.now ≡ true }
    {
        match self {
            Role::Clock => "clk",
            Role::Preference => "pref",
            Role::Ask => "ask",
            Role::Operation => "operation",
            Role::Address => "address",
            Role::Data => "data",
            Role::Argument => "argument",
            Role::Site => "site",
            Role::Value => "value",
            Role::Offer => "offer",
            Role::Grant => "grant",
            Role::Told => "told",
            Role::State => "state",
            Role::Wire => "w",
        }
    }

    /// The name of the signal at a place: `clk`, else a stem, `_` and the place.
    pub fn name(self, alloc: Global, place: usize) -> Result<Identifier, AllocError>
        ensures { IfOk result (λ name. name ≡ name_of self place) }
    {
        let stem = Identifier::from_text(alloc, self.stem())?;
        match self {
            Role::Clock => Ok(stem),
            _ => stem.with_number(alloc, place as u64),
        }
    }
}

/// One `<=` for each of some registers that stand one after another, from wires that do.
pub fn sets(
    alloc: Global,
    register: usize,
    source: usize,
    count: usize,
) -> Result<Items<Action>, AllocError>
    requires small { register < 2 ^ 32 }
    requires small_source { source < 2 ^ 32 }
    requires few { count < 2 ^ 32 }
    ensures { IfOk result (λ actions. actions ≡ sets register source count) }
{
    let mut actions = Items::new(alloc);
    for number in 0..count {
        actions.push(Action {
            conditions: Items::new(alloc),
            effect: Effect::Set {
                register: register + number,
                source: source + number,
            },
        })?;
    }
    Ok(actions)
}
