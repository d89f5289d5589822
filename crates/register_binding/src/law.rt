// The law of the binding. The function takes and answers nothing: its contract is the law.

ghost use Rattle.register_binding.specs.Registers.{RegistersAgree};

/// A block has at most one binding of registers at its starts.
pub fn registers_agree()
    ensures { RegistersAgree }
{}
