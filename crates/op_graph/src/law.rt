// The law of the table. The function takes and answers nothing: its contract is the law.

ghost use Rattle.op_graph.specs.Graph.{UseEarlier, time_before};
ghost use Rattle.op_graph.specs.Table.{MeetsTable};
ghost use Rattle.std.specs.Prelude.{List};
ghost use Rattle.op_graph.specs.declared.node.Node.{Node};

/// The operations of every block one after another, each at the sum of the latencies before it, meet the table.
pub fn sequential_meets()
    ensures { (nodes : List Node) → UseEarlier nodes → MeetsTable nodes (time_before nodes) }
{}
