// Laws of nets. The function takes and answers nothing: its contract is the laws.

ghost use Rattle.circuit.specs.Nets.{HasSettled, HasSettledGiven, KeepsStates};

/// What holds of a net whose widths fit.
pub fn fitting_nets_settle()
    // Where it has levels, it has a settled valuation of each state for each choice.
    ensures has_settled_given { HasSettledGiven }
    ensures has_settled { HasSettled }
    // The initial constants are a state, and each cycle leads from a state to a state.
    ensures keeps_states { KeepsStates }
{}
