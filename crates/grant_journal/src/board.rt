// What lies under the lock.

ghost use Rattle.std.specs.Prelude.{◌≡◌, ◌<◌, ◌≤◌, ◌+◌, [], ◌∷◌, ◌++◌, length, IfOk, IfSome, IfNone, OnErr};
ghost use Rattle.journal_text.specs.declared.entry.Entry.{Entry};
ghost use Rattle.sim_layout.specs.Running.{IsSameNet};
ghost use Rattle.cycle_sim.specs.Opened.{IsOpened};
ghost use Rattle.journal_laws.specs.Steps.{InTop};
ghost use Rattle.journal_laws.specs.declared.verdict.Next.TheVariants.{Thread};
ghost use Rattle.grant_journal.specs.Boards.{Frame, IsSlotAt, RunsOn, IsGiven, IsPrinting, IsOffered, IsOver, IsFinished};

use crate::local::{Case, Local};
use hls_io::Bytes;
use journal_laws::enter::enter;
use journal_laws::judge::judge;
use journal_laws::verdict::{Answer, Next, Verdict};
use journal_text::entry::Entry;
use slot_sim::running::SlotSim;
use sqlite_items::Items;
use std::alloc::{AllocError, Global};
use std::marker::{Model, PhantomData};

/// A simulator with the journal that led to its state. Contracts see the journal.
#[derive(Drop)]
pub struct Board<'a, J: Case> {
    sim: SlotSim<'a>,
    journal: Vec<Entry>,
    output: Bytes,
    most: usize,
    of: PhantomData<J>,
}

impl<'a, J: Case> Model for Board<'a, J> {
    ghost use Rattle.std.specs.Prelude.{◌≡◌, List, vec_capacity};
    ghost use Rattle.journal_text.specs.declared.entry.Entry.{Entry};
    ghost use Rattle.grant_journal.specs.Boards.{Keeps};

    ghost Value = { List Entry };

    ghost view = { λ b. b.journal.items };

    ghost invariant = { λ b. (b.most ≡ J.most) × Keeps J.modules J.threads J.most J.layout b.sim b.journal.items (vec_capacity b.journal) b.output };
}

impl<'a, J: Case> Board<'a, J> {
    /// A board with room for so many entries, over a simulator of the net in its initial state.
    pub fn open(alloc: Global, first: SlotSim<'a>, entries: usize) -> Result<Self, AllocError>
        requires frame { Frame J.modules J.threads J.layout }
        requires net { IsSameNet J.layout first }
        requires begins { IsOpened J.modules first }
        requires entries { entries ≡ J.most }
        ensures { IfOk result (λ b. b ≡ []) }
    {
        let journal = Vec::with_capacity(alloc, entries)?;
        Ok(Board {
            sim: first,
            journal,
            output: Bytes::new(alloc),
            most: entries,
            of: PhantomData,
        })
    }

    /// The first thread from `prefer` on, cyclically, that can move, or why the run is over.
    pub fn next(&mut self, prefer: usize) -> Next
        requires { prefer ≤ J.threads }
        ensures journal { self.new ≡ self.old }
        ensures next { IsOffered J.modules J.threads J.most self.old prefer result }
    {
        let Board {
            sim,
            journal,
            output: _,
            most,
            of: _,
        } = self;
        judge(sim, prefer, journal.as_slice().len(), *most)
    }

    /// Copies the slot of a thread.
    pub fn copy_slot(&self, thread: usize, local: &mut Local<'a, J>)
        requires { thread < J.threads }
        ensures { IsSlotAt J.modules J.threads self.now thread local.new }
    {
        local.hold(thread, &self.sim);
    }

    /// Adds what a caller did on its copy, where the slot is still as the copy was made. Memory is wanting only where the entry prints;
    /// neither the board nor `local` is changed then.
    #[tactic(none)]
    pub fn commit(
        &mut self,
        thread: usize,
        start: &Local<'a, J>,
        closed: u32,
        local: &mut Local<'a, J>,
    ) -> Result<Answer, AllocError>
        requires thread { thread < J.threads }
        requires run { RunsOn J.modules J.threads thread start.now closed local.old }
        requires most { closed ≤ 4096 }
        ensures given { IfOk result (IsGiven J.modules J.threads J.most thread start.now closed self.old local.old self.new local.new) }
        ensures prints { OnErr result (InTop J.modules (λ top. IsPrinting J.modules top J.threads J.most thread start.now self.old local.old)) }
        ensures journal { OnErr result (self.new ≡ self.old) }
        ensures local { OnErr result (local.new ≡ local.old) }
    {
        let Board {
            sim,
            journal,
            output,
            most,
            of: _,
        } = self;
        if let Next::Ended(verdict) = judge(sim, thread, journal.as_slice().len(), *most) {
            return Ok(Answer::Ended(verdict));
        }
        if !sim.same_slot(thread, start.sim()) {
            local.hold(thread, sim);
            return Ok(Answer::Stale);
        }
        let entered = enter(sim, output, thread, closed, start.sim(), local.sim())?;
        let Some(entry) = entered else {
            return Ok(Answer::Waits);
        };
        journal.push_reserved(entry);
        local.hold(thread, sim);
        Ok(Answer::Committed)
    }

    /// One turn of a thread that has the board alone: an entry more, or the verdict.
    #[tactic(none)]
    pub fn turn(
        &mut self,
        start: &mut Local<'a, J>,
        local: &mut Local<'a, J>,
    ) -> Result<Option<Verdict>, AllocError>
        ensures ended { IfOk result (λ r. IfSome r (λ v. IsOver J.modules J.threads J.most self.old v × (self.new ≡ self.old))) }
        ensures more { IfOk result (λ r. IfNone r (length self.new ≡ length self.old + 1)) }
        ensures added { IfOk result (λ r. IfNone r ((entry : Entry) × (self.new ≡ self.old ++ entry ∷ []))) }
        ensures within { IfOk result (λ r. IfNone r (length self.old < J.most)) }
    {
        let _ = self.sim.threads();
        let thread = match self.next(0) {
            Next::Thread(thread) => thread,
            Next::Ended(verdict) => return Ok(Some(verdict)),
        };
        self.copy_slot(thread, start);
        local.set(start);
        let closed = local.closed(4096);
        match self.commit(thread, start, closed, local)? {
            Answer::Committed => Ok(None),
            Answer::Ended(verdict) => Ok(Some(verdict)),
            Answer::Stale | Answer::Waits => unreachable!(),
        }
    }

    /// What was printed, and the journal.
    pub fn finish(self) -> (Bytes, Items<Entry>)
        ensures journal { result.1 ≡ self.entry }
        ensures finished { IsFinished J.modules J.threads J.most self.entry result.0 }
    {
        let _ = self.sim.threads();
        let Board {
            sim: _,
            journal,
            output,
            most: _,
            of: _,
        } = self;
        (output, Items::from_vec(journal))
    }
}
