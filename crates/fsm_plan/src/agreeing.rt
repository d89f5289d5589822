// The law of lists of plans. Its function takes and answers nothing: its contract is the law.

ghost use Rattle.fsm_plan.specs.Plans.{AllPlansAgree};

use crate::law::code_plans_agree;

/// Codes each of whose blocks has fewer than 2 ^ 32 operations have at most one list of plans. So two answers of `plan_all`
/// are equal, whatever their numbers of jobs.
pub fn all_plans_agree()
    ensures { AllPlansAgree }
{
    code_plans_agree();
}
