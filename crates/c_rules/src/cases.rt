// The values of the cases of a switch (C99 6.8.4.2).

ghost use Rattle.std.specs.Prelude.{◌≡◌, [], IfOk, OnOk};
ghost use Rattle.c_rules.specs.Cases as spec;

use indexmap::IndexSet;
use std::alloc::{AllocError, Global};
use std::marker::Model;

/// The values of the cases of a switch so far.
pub struct CaseValues {
    values: IndexSet<i128>,
}

impl Model for CaseValues {
    ghost use Rattle.std.specs.Prelude.{ℤ, List};

    ghost Value = { List ℤ };

    ghost view = { λ c. c.values.keys };
}

impl CaseValues {
    /// There is none yet.
    pub fn new(alloc: Global) -> CaseValues
        ensures { result ≡ [] }
    {
        CaseValues {
            values: IndexSet::new(alloc),
        }
    }

    /// Notes the value of a case, and says whether it is among them already.
    pub fn note(&mut self, value: i128) -> Result<bool, AllocError>
        ensures stands { IfOk result (λ r. r ≡ spec.stands self.old value) }
        ensures noted { OnOk result (self.new ≡ spec.noted self.old value) }
    {
        let (_, is_new) = self.values.insert_full(value)?;
        Ok(!is_new)
    }
}

// A drop that is written here is proved here; a derived one is proved again in each crate that drops the type.

impl Drop for CaseValues {
    fn drop(self) {
        let CaseValues { values: _ } = self;
    }
}
