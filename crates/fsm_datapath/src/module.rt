// The module of a thread.

ghost use Rattle.std.specs.Prelude.{IfOk};
ghost use Rattle.fsm_datapath.specs.Runs.{ServesCode};
ghost use Rattle.fsm_datapath.specs.SoundLeaf.{IsLeafOfServedCode};
ghost use Rattle.fsm_datapath.specs.Naming.{NamesServedVariables};
ghost use Rattle.fsm_datapath.specs.Routine.{IsRoutineOfServedCode};
ghost use Rattle.fsm_datapath.specs.Steady.{IsSteadyServedCode};

use block_ir::code::ThreadCode;
use block_ir::plan::Planned;
use netlist::netlist::Module;
use std::alloc::{AllocError, Global};
use thread_layout::layout::assembled;
use thread_slots::shape::Shape;

/// The module of a thread: its code, run by its plan.
pub fn module(
    alloc: Global,
    shape: &Shape,
    code: &ThreadCode,
    planned: &Planned,
) -> Result<Module, AllocError>
    ensures serves { IfOk result (ServesCode shape.now code.now planned.now) }
    ensures leaf { IfOk result (IsLeafOfServedCode shape.now code.now planned.now) }
    ensures routine { IfOk result (IsRoutineOfServedCode shape.now code.now planned.now) }
    ensures named { IfOk result (NamesServedVariables shape.now code.now planned.now) }
    ensures steady { IfOk result (IsSteadyServedCode shape.now code.now planned.now) }
{
    assembled(alloc, shape, code, planned)
}
