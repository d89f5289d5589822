// The rule on calls that only the whole text shows: none leads back to its caller.

ghost use Rattle.std.specs.Prelude.{◌≡◌, map, fold, IfOk};
ghost use Rattle.c_call_graph.specs.Reaching.{leads};
ghost use Rattle.c_program.specs.Plain.{function_of};
ghost use Rattle.c_resolution.specs.CallRules as spec;

use c_call_graph::{Call, Reach, reach_of};
use c_program::tree::Function;
use c_rules::fault::{Fault, Rule, first};
use c_rules::findings::{CallSite, Findings};
use sqlite_items::Items;
use std::alloc::{AllocError, Global};

fn calls_of(alloc: Global, sites: &[CallSite]) -> Result<Items<Call>, AllocError>
    ensures { IfOk result (λ calls. calls ≡ map spec.call_of sites.now) }
{
    let mut calls = Items::new(alloc);
    for site in sites {
        calls.push(Call {
            caller: site.caller,
            callee: site.callee,
        })?;
    }
    Ok(calls)
}

/// The first fault, with those of calls that lead back to their caller.
fn with_calls(fault: Option<Fault>, reach: &Reach, calls: &[CallSite]) -> Option<Fault>
    ensures { result ≡ fold (spec.with_call (leads reach.now.rows)) fault calls.now }
{
    let mut fault = fault;
    for call in calls {
        let leads_back = reach.leads(call.callee as usize, call.caller as usize);
        let broken = if leads_back {
            Some(Fault {
                rule: Rule::Recursive,
                offset: call.offset,
            })
        } else {
            None
        };
        fault = first(fault, broken);
    }
    fault
}

/// The first fault, those of calls among them.
pub fn with_call_faults(
    alloc: Global,
    found: &Findings,
    functions: &[Function],
) -> Result<Option<Fault>, AllocError>
    ensures { IfOk result (spec.IsCallFault (map function_of functions.now) found.now) }
{
    let calls = calls_of(alloc, found.calls.as_slice())?;
    let reach = reach_of(alloc, functions.len(), calls.as_slice())?;
    Ok(with_calls(found.fault, &reach, found.calls.as_slice()))
}
