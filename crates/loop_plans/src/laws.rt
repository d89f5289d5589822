// The laws of pipelined loops of the code. The function takes and answers nothing: its contract is the laws.

ghost use Rattle.loop_plans.specs.Scheduled.{TablesAgree, PlanKeepsLoop, SchedulesAgree};

use planned_loop::laws::table_keeps_loop;

/// The schedule of a loop that fits keeps its iterations.
pub fn scheduled_loops()
    // Starts that meet the table of a loop's operations meet the table of its plan.
    ensures tables_agree { TablesAgree }
    // The least starts of a loop give a plan that keeps it.
    ensures plan_keeps_loop { PlanKeepsLoop }
    // A loop has one schedule at most.
    ensures schedules_agree { SchedulesAgree }
{
    table_keeps_loop();
}
