// The law of the binding. The function takes and answers nothing: its contract is the law.

ghost use Rattle.unit_binding.specs.Units.{UnitsAgree};

/// A block has at most one binding of units at its starts.
pub fn units_agree()
    ensures { UnitsAgree }
{}
