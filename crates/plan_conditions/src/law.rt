// The laws of right plans. The function takes and answers nothing: its contract is the laws.

ghost use Rattle.plan_conditions.specs.Right.{TableGivesRegisters, RightPlansAreThere};

/// Right plans.
pub fn right_plans()
    // By a plan that meets the table of constraints, what takes more than logic works on what registers hold.
    ensures works_from_registers { TableGivesRegisters }
    // A right plan of a code has a right plan for each of its blocks.
    ensures right_plans_are_there { RightPlansAreThere }
{}
