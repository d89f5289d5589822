// The cycles of one entry done again.

ghost use Rattle.std.specs.Prelude.{◌≡◌, ◌<◌, IfOk, OnOk, MatchBool, MatchOption};
ghost use Rattle.sim_layout.specs.Rounds.{threads_of};
ghost use Rattle.sim_layout.specs.Running.{state_of, IsSameNet, IsSameState};
ghost use Rattle.slot_sim.specs.Slots.{IsThreadedIn};
ghost use Rattle.journal_laws.specs.Steps.{OfTop};
ghost use Rattle.journal_replay.specs.Replays.{MayStep, AreRedone, CannotRedo, IsEntryRedone, IsNoEntry};

use hls_io::Bytes;
use journal_laws::enter::has_cycle;
use journal_text::entry::Entry;
use slot_sim::running::SlotSim;
use std::alloc::AllocError;

/// Whether the next cycle of a thread alone is open or closed as wanted, changes its slot, and does not begin where done is shown. The
/// state stays.
fn may_step(sim: &mut SlotSim, thread: usize, is_open: bool) -> bool
    requires thread { thread < threads_of sim.old.modules }
    requires threaded { IsThreadedIn sim.old.modules (threads_of sim.old.modules) }
    ensures net { IsSameNet sim.old sim.new }
    ensures may { MatchBool result (MayStep thread is_open sim.old) (MayStep thread is_open sim.old → ⊥) }
    ensures state { IsSameState sim.old sim.new }
{
    let _ = sim.threads();
    if sim.need(thread) != is_open {
        return false;
    }
    if sim.done() {
        return false;
    }
    sim.moves(thread)
}

/// Does so many open or closed cycles of a thread alone again, where it may.
fn redo_steps(
    sim: &mut SlotSim,
    output: &mut Bytes,
    thread: usize,
    count: u64,
    is_open: bool,
) -> Result<bool, AllocError>
    requires thread { thread < threads_of sim.old.modules }
    requires threaded { IsThreadedIn sim.old.modules (threads_of sim.old.modules) }
    ensures net { OnOk result (IsSameNet sim.old sim.new) }
    ensures redone { IfOk result (λ b. MatchBool b
        (OfTop sim.old (λ modules top n. AreRedone modules top n thread is_open count (state_of sim.old) (state_of sim.new) output.old output.new))
        (OfTop sim.old (λ modules top n. CannotRedo modules top n thread is_open count (state_of sim.old)))) }
{
    let _ = sim.threads();
    for _turn in 0..count {
        if !may_step(sim, thread, is_open) {
            return Ok(false);
        }
        sim.cycle(thread, output)?;
    }
    Ok(true)
}

/// Does an entry again, where it is legal, and says how many cycles it has.
pub fn redo(sim: &mut SlotSim, output: &mut Bytes, entry: Entry) -> Result<Option<u64>, AllocError>
    requires threaded { IsThreadedIn sim.old.modules (threads_of sim.old.modules) }
    ensures net { OnOk result (IsSameNet sim.old sim.new) }
    ensures redone { IfOk result (λ r. MatchOption r
        (OfTop sim.old (λ modules top n. IsNoEntry modules top n entry (state_of sim.old)))
        (λ cycles. OfTop sim.old (λ modules top n. IsEntryRedone modules top n entry (state_of sim.old) (state_of sim.new) output.old output.new cycles))) }
{
    if entry.thread >= sim.threads() as u64 {
        return Ok(None);
    }
    if entry.closed > 4096 {
        return Ok(None);
    }
    if !has_cycle(entry.closed as u32, entry.opened) {
        return Ok(None);
    }
    let thread = entry.thread as usize;
    if !redo_steps(sim, output, thread, entry.closed, false)? {
        return Ok(None);
    }
    let open = u64::from(entry.opened);
    if !redo_steps(sim, output, thread, open, true)? {
        return Ok(None);
    }
    Ok(Some(entry.closed + open))
}
