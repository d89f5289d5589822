// The laws of planned blocks. The functions take and answer nothing: their contracts are the laws.

ghost use Rattle.fsm_plan.specs.Law.{OrdersAgree};
ghost use Rattle.fsm_plan.specs.Planned.{PlansAgree, CodePlansAgree, PlanKeepsOrders, PlanIsShort, PlannedIsRight};

use register_binding::law::registers_agree;
use unit_binding::law::units_agree;

/// A block has at most one plan.
pub fn plans_agree()
    ensures { PlansAgree }
{
    units_agree();
    registers_agree();
}

/// A code has at most one plan.
pub fn code_plans_agree()
    ensures { CodePlansAgree }
{
    plans_agree();
}

/// The plan of a block and that of a code, and the orders of operations that meet a block's table.
pub fn least_plans()
    // The plan keeps the orders of every block whose operations use earlier ones.
    ensures plan_keeps_orders { PlanKeepsOrders }
    // The plan of a block has a state, and no more states than its operations take one after another.
    ensures plan_is_short { PlanIsShort }
    // A planned code is what a machine asks for.
    ensures planned_is_right { PlannedIsRight }
    // Every order that meets a block's constraints gives the values of its operations, the accesses of each global in their
    // order, and what each local array holds at the end.
    ensures orders_agree { OrdersAgree }
{}
