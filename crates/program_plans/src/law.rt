// The law of planned functions. Its function takes and answers nothing: its contract is the law.

ghost use Rattle.program_plans.specs.Plans.{PlannedAreRoutines};

use fsm_plan::law::least_plans;

/// The code and the plan of each planned function are what a machine of the program is built of.
pub fn planned_are_routines()
    ensures { PlannedAreRoutines }
{
    least_plans();
}
