// The laws of the view. The function takes and answers nothing: its contract is the laws.

ghost use Rattle.std.specs.Prelude.{◌≡◌, length};
ghost use Rattle.block_ir.specs.declared.block.Block.{Block};
ghost use Rattle.planned_block.specs.Block.{size, IsOrdered};
ghost use Rattle.plan_blocks.specs.View.{planned_view};
ghost use Rattle.plan_blocks.specs.Alike.{RunsAlike, IsInOrder};

/// A block of code and its view.
pub fn planned_views()
    // A run of the block and one of its view have the same values, accesses, arrays, globals, variables and next stage.
    ensures view_runs { (b : Block) → RunsAlike b }
    // The view has as many operations, and does as many steps.
    ensures view_size { (b : Block) → size (planned_view b) ≡ length b.operations }
    ensures view_steps { (b : Block) → (planned_view b).steps ≡ b.steps }
    // Where the operations of the block use earlier ones, and its end uses its operations, its view is in order too.
    ensures view_is_ordered { (b : Block) → IsInOrder b → IsOrdered (planned_view b) }
{}
