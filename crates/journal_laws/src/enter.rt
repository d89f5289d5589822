// An entry made of closed cycles that were done on a copy.

ghost use Rattle.std.specs.Prelude.{◌≡◌, ◌<◌, ◌≤◌, ◌⊎◌, ◌++◌, List, [], ℕ, length, true, false, IfOk, OnErr, MatchBool, MatchOption};
ghost use Rattle.verilog_meaning.specs.Cycles.{ShowsDone};
ghost use Rattle.verilog_meaning.specs.Threads.{all_enabled};
ghost use Rattle.sim_layout.specs.Rounds.{threads_of};
ghost use Rattle.sim_layout.specs.Running.{state_of, IsSameNet, IsSameState};
ghost use Rattle.slot_sim.specs.Slots.{IsThreadedIn, IsSameSlotOf};
ghost use Rattle.journal_laws.specs.Steps.{OfTop, OpensTo, IsCopyRun, IsEntered, IsWaiting, IsPutIn, IsPutPrinting};

use hls_io::Bytes;
use journal_text::entry::Entry;
use slot_sim::running::SlotSim;
use std::alloc::AllocError;

/// Whether an entry has a cycle.
pub fn has_cycle(closed: u32, opened: bool) -> bool
    ensures { MatchBool result ((0 < closed) ⊎ (opened ≡ true)) ((closed ≡ 0) × (opened ≡ false)) }
{
    closed != 0 || opened
}

/// Puts the slot of a thread in, and does its open cycle where that one is next and changes the slot. Says whether it did. At `Err`,
/// which comes only where that cycle writes something, the slot is as it was.
fn put_in<'a>(
    sim: &mut SlotSim<'a>,
    output: &mut Bytes,
    thread: usize,
    start: &SlotSim<'a>,
    local: &SlotSim<'a>,
) -> Result<bool, AllocError>
    requires thread { thread < threads_of sim.old.modules }
    requires threaded { IsThreadedIn sim.old.modules (threads_of sim.old.modules) }
    requires net { IsSameNet sim.old start.now × IsSameNet sim.old local.now }
    requires start { IsSameSlotOf (threads_of sim.old.modules) thread sim.old start.now }
    ensures net { IsSameNet sim.old sim.new }
    ensures put { IfOk result (IsPutIn thread sim.old local.now sim.new output.old output.new) }
    ensures prints { OnErr result (IsPutPrinting thread sim.old local.now) }
    ensures state { OnErr result (IsSameState sim.old sim.new) }
    ensures bytes { OnErr result (output.new ≡ output.old) }
{
    sim.copy_slot_from(thread, local);
    if !sim.opens(thread) {
        return Ok(false);
    }
    match sim.cycle(thread, output) {
        Ok(()) => Ok(true),
        Err(fault) => {
            sim.copy_slot_from(thread, start);
            Err(fault)
        }
    }
}

/// Puts the slot of a thread in as closed cycles on a copy left it, and does its open cycle where that one is next and changes the slot.
/// The entry of these cycles, or none where there is no cycle. At `Err`, which comes only where the open cycle writes something, the
/// state and the output are as they were.
pub fn enter<'a>(
    sim: &mut SlotSim<'a>,
    output: &mut Bytes,
    thread: usize,
    closed: u32,
    start: &SlotSim<'a>,
    local: &SlotSim<'a>,
) -> Result<Option<Entry>, AllocError>
    requires thread { thread < threads_of sim.old.modules }
    requires threaded { IsThreadedIn sim.old.modules (threads_of sim.old.modules) }
    requires net { IsSameNet sim.old start.now × IsSameNet sim.old local.now }
    requires running { OfTop sim.old (λ modules top count. ShowsDone modules top (state_of sim.old) (all_enabled count []) 0) }
    requires most { closed ≤ 4096 }
    requires start { IsSameSlotOf (threads_of sim.old.modules) thread sim.old start.now }
    requires run { OfTop sim.old (λ modules top count. IsCopyRun modules top count thread closed (state_of start.now) (state_of local.now)) }
    ensures net { IsSameNet sim.old sim.new }
    ensures entered { IfOk result (λ r. MatchOption r
        (OfTop sim.old (λ modules top count. IsWaiting modules top count thread closed (state_of sim.old) (state_of local.now) (state_of sim.new)) × (output.new ≡ output.old))
        (λ e. OfTop sim.old (λ modules top count. (bytes : List ℕ) × (output.new ≡ output.old ++ bytes)
        × IsEntered modules top count thread closed (state_of sim.old) (state_of local.now) (state_of sim.new) bytes e))) }
    ensures prints { OnErr result (OfTop sim.old (λ modules top count. (bytes : List ℕ)
        × OpensTo modules top count thread (state_of sim.old) (state_of local.now) bytes × (0 < length bytes))) }
    ensures state { OnErr result (IsSameState sim.old sim.new) }
    ensures bytes { OnErr result (output.new ≡ output.old) }
{
    let _ = sim.threads();
    let opened = put_in(sim, output, thread, start, local)?;
    if !has_cycle(closed, opened) {
        return Ok(None);
    }
    Ok(Some(Entry {
        thread: thread as u64,
        closed: closed as u64,
        opened,
    }))
}
