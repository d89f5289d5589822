// The calls of each function.

ghost use Rattle.std.specs.Prelude.{◌≡◌, IfOk};
ghost use Rattle.c_call_graph.specs.Graphs as spec;

use sqlite_items::Items;
use std::alloc::{AllocError, Global};

/// That one function calls another, by their numbers.
#[derive(Clone, Copy)]
pub struct Call {
    pub caller: u32,
    pub callee: u32,
}

/// The functions that one calls, once for each call.
fn callees(alloc: Global, calls: &[Call], function: usize) -> Result<Items<usize>, AllocError>
    ensures { IfOk result (λ l. l ≡ spec.callees calls.now function) }
{
    let mut callees = Items::new(alloc);
    for call in calls {
        if call.caller as usize == function {
            callees.push(call.callee as usize)?;
        }
    }
    Ok(callees)
}

/// For each of so many functions those that it calls.
pub fn table(
    alloc: Global,
    functions: usize,
    calls: &[Call],
) -> Result<Items<Items<usize>>, AllocError>
    ensures { IfOk result (λ t. t ≡ spec.table calls.now functions) }
{
    let mut table = Items::new(alloc);
    for function in 0..functions {
        let row = callees(alloc, calls, function)?;
        table.push(row)?;
    }
    Ok(table)
}
