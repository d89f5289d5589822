// The simulator.

ghost use Rattle.std.specs.Prelude.{◌≡◌, ◌++◌, ◌-◌, ◌^◌, ◌<◌, ◌+◌, List, [], Some, option_copied, length, replicate, nat_eq, slice_index, slice_get, IfOk, IfErr, OnOk};
ghost use Rattle.std.specs.Prelude.{ℕ, OnErr, IfNone, IfSome, is_ok, if◌then◌else◌};
ghost use Rattle.cycle_sim.specs.declared.sim.OpenError.TheVariants as errors;
ghost use Rattle.sim_values.specs.Order.{IsStuck};
ghost use Rattle.sim_values.specs.Stands.{spot_of};
ghost use Rattle.sim_layout.specs.Wires.{signals_of, AreWires};
ghost use Rattle.cycle_sim.specs.LaidOut.{IsPlacedNet};
ghost use Rattle.cycle_sim.specs.Opened.{IsOpened, IsOpenable, IsReady, IsTopNumber, IsCause};
ghost use Rattle.verilog_meaning.specs.Cycles.{Choice as Choosing};
ghost use Rattle.verilog_meaning.specs.Threads.{all_enabled};
ghost use Rattle.sim_layout.specs.Rounds.{threads_of, prefs_of};
ghost use Rattle.verilog_meaning.specs.Names.{top_of};
ghost use Rattle.cycle_sim.specs.Globals.{global_of, global_word, IsWord};
ghost use Rattle.cycle_sim.specs.Lockstep.{TakesRounds, AreRounds, IsLockstep, IsCutOff};
ghost use Rattle.sim_values.specs.Flat.{Flat, AreNarrow, all_written};
ghost use Rattle.sim_layout.specs.Running.{Running, Stands, running, flat, state_of, choice_of, Fits, IsSettledRun, IsSameNet, IsSameState, IsCycleOf, Prints, TellsDone, advanced};
ghost use Rattle.sim_layout.specs.Print.{IsSomething};
ghost use Rattle.cycle_sim.specs.DoneRun.{IsDoneRun};
ghost use Rattle.cycle_sim.specs.Putting.{FitsAt, with_number, FitsWordAt, with_word};

use crate::net::{done_number, enable_mask, pref_count, top_number};
use global_banks::locate::{Location, locate};
use hls_io::Bytes;
use netlist::netlist::Module;
use sim_events::cone::{cone, settle_cone};
use sim_events::edge::{EdgeRow, edge_rows, pass_edge};
use sim_events::fanout::{Fanout, fanout_of};
use sim_events::operation::{Row, rows_of};
use sim_events::pending::{Pending, all_pending, put, settle_again, take_over};
use sim_layout::given::roots;
use sim_layout::loops::first_loop;
use sim_layout::order::order;
use sim_layout::place::{Placed, place};
use sim_layout::print::put_written;
use sim_layout::wires::{base_at, further, module_signals, push_parts};
use sim_values::edge::{Part, inner_spot, kind_at_root, set_word_at};
use sim_values::settle::{Choice, Step};
use sim_values::tree::tree_of;
use sim_values::value::{Now, item_at, number_at, word_at};
use sqlite_items::{Items, at};
use std::alloc::{AllocError, Global};
use std::marker::Model;
use thiserror::Error;

/// A net at work: one word for each signal of each instance, in which each step gives one signal its number, and the
/// words of all memories side by side. `mask` has a bit for each thread. `rows` has each step as an operation on places, and `edge` what the
/// clock edge does; `cone` has the steps that the output `done` hangs on. A step that is not `pending` holds in `numbers`; those that read or give a word stand in `fanout`.
pub struct Sim<'a> {
    modules: &'a [Module],
    parts: Vec<Part>,
    steps: Vec<Step>,
    rows: Vec<Row>,
    edge: Vec<EdgeRow>,
    cone: Vec<Step>,
    fanout: Fanout,
    pending: Pending,
    numbers: Vec<u64>,
    next: Vec<u64>,
    words: Vec<u64>,
    starts: Vec<u64>,
    prefs: usize,
    done: usize,
    mask: u64,
    alloc: Global,
}

// A drop that is written here is proved here; a derived one is proved again in each crate that drops the type.

impl Drop for Sim<'_> {
    fn drop(self) {
        let Sim {
            modules: _,
            parts: _,
            steps: _,
            rows: _,
            edge: _,
            cone: _,
            fanout: _,
            pending: _,
            numbers: _,
            next: _,
            words: _,
            starts: _,
            prefs: _,
            done: _,
            mask: _,
            alloc: _,
        } = self;
    }
}

impl<'a> Model for Sim<'a> {
    ghost use Rattle.std.specs.Prelude.{◌≡◌, ◌-◌, ◌^◌, length};
    ghost use Rattle.sim_layout.specs.Running.{Running, Stands, running};
    ghost use Rattle.sim_layout.specs.Rounds.{threads_of};
    ghost use Rattle.sim_events.specs.Cones.{IsCone};
    ghost use Rattle.sim_events.specs.Edges.{edge_rows};
    ghost use Rattle.sim_events.specs.Events.{AreFlagged, IsKeeping};
    ghost use Rattle.sim_events.specs.Operations.{AreRows};

    ghost Value = { Running };

    ghost view = { λ s. running s.modules.now s.parts.items s.steps.items s.numbers.items s.words.items s.starts.items s.prefs s.done };

    ghost invariant = { λ s. Stands (running s.modules.now s.parts.items s.steps.items s.numbers.items s.words.items s.starts.items s.prefs s.done)
        × (length s.next.items ≡ length s.numbers.items) × (s.mask ≡ 2 ^ threads_of s.modules.now - 1)
        × IsKeeping s.modules.now s.steps.items s.fanout.starts.items s.fanout.steps.items s.numbers.items s.pending.steps.items
        × AreFlagged s.pending.steps.items s.pending.blocks.items × AreRows s.modules.now s.starts.items s.steps.items s.rows.items
        × (s.edge.items ≡ edge_rows s.modules.now s.starts.items s.parts.items) × IsCone s.modules.now s.steps.items (length s.numbers.items) s.done s.cone.items };
}

impl<'a> Sim<'a> {
    /// Gives each signal its number under a choice. The state stays.
    pub fn settle_under(&mut self, choice: &Choice)
        requires { Fits self.old (choice_of choice.now) }
        ensures { IsSettledRun (choice_of choice.now) self.old self.new }
    {
        settle_again(
            self.modules,
            self.steps.as_slice(),
            self.rows.as_slice(),
            choice,
            self.numbers.as_mut_slice(),
            self.words.as_slice(),
            self.starts.as_slice(),
            &self.fanout,
            &mut self.pending,
        );
    }

    /// Gives the output `done` its number under a choice, and all that it hangs on. The state stays.
    fn settle_done(&mut self, choice: &Choice)
        requires { Fits self.old (choice_of choice.now) }
        ensures { IsDoneRun (choice_of choice.now) self.old self.new }
    {
        settle_cone(
            self.modules,
            self.cone.as_slice(),
            choice,
            self.numbers.as_mut_slice(),
            self.words.as_slice(),
            self.starts.as_slice(),
            &self.fanout,
            &mut self.pending,
        );
    }

    /// Appends what the edge writes. At `Err` nothing is changed, and the edge writes something.
    fn write(&self, out: &mut Bytes) -> Result<(), AllocError>
        ensures prints { OnErr result (IsSomething (all_written self.now.modules (flat self.now) self.now.parts)) }
        ensures bytes { out.new ≡ (if is_ok result then out.old ++ all_written self.now.modules (flat self.now) self.now.parts else out.old) }
    {
        let now = Now {
            numbers: self.numbers.as_slice(),
            words: self.words.as_slice(),
            starts: self.starts.as_slice(),
        };
        put_written(out, self.modules, self.parts.as_slice(), &now)
    }

    /// The edge.
    fn advance(&mut self)
        requires { (c : Choosing) × (before : Running) × IsSettledRun c before self.old }
        ensures { self.new ≡ advanced self.old }
    {
        pass_edge(
            self.edge.as_slice(),
            self.numbers.as_slice(),
            self.next.as_mut_slice(),
            self.words.as_mut_slice(),
        );
        take_over(
            &self.fanout,
            self.numbers.as_mut_slice(),
            &mut self.pending,
            self.next.as_slice(),
        );
    }

    /// One cycle of the net. What it writes is appended to `out`. Memory is wanting only where it writes something; at `Err` neither
    /// `out` nor the state is changed.
    pub fn cycle(&mut self, choice: &Choice, out: &mut Bytes) -> Result<(), AllocError>
        requires { Fits self.old (choice_of choice.now) }
        ensures net { IsSameNet self.old self.new }
        ensures ok { OnOk result (IsCycleOf (choice_of choice.now) self.old self.new out.old out.new) }
        ensures prints { OnErr result (Prints (choice_of choice.now) self.old) }
        ensures bytes { OnErr result (out.new ≡ out.old) }
        ensures state { OnErr result (IsSameState self.old self.new) }
    {
        self.settle_under(choice);
        self.write(out)?;
        self.advance();
        Ok(())
    }

    /// Whether the output `done` is 1 under a choice. The state stays.
    pub fn shows_done(&mut self, choice: &Choice) -> bool
        requires { Fits self.old (choice_of choice.now) }
        ensures net { IsSameNet self.old self.new }
        ensures done { TellsDone (choice_of choice.now) self.old result }
        ensures state { IsSameState self.old self.new }
    {
        self.settle_done(choice);
        self.is_done()
    }

    /// Whether the output `done` is 1 where all threads are enabled and each arbiter prefers thread 0. The state stays.
    pub fn done(&mut self) -> bool
        ensures net { IsSameNet self.old self.new }
        ensures done { TellsDone (all_enabled (threads_of self.old.modules) []) self.old result }
        ensures state { IsSameState self.old self.new }
    {
        let choice = self.all_enabled();
        self.shows_done(&choice)
    }

    /// The choice of all threads, in which each arbiter prefers thread 0.
    pub fn all_enabled(&self) -> Choice
        ensures choice { choice_of result ≡ all_enabled (threads_of self.now.modules) [] }
        ensures takes { TakesRounds self.now }
    {
        Choice {
            en: self.mask,
            prefs: Items::new(self.alloc),
        }
    }

    /// The choice of all threads, in which each arbiter prefers a thread.
    pub fn all_preferring(&self, preferred: u64) -> Result<Choice, AllocError>
        ensures { IfOk result (λ c. choice_of c ≡ all_enabled (threads_of self.now.modules) (replicate self.now.prefs preferred)) }
    {
        let prefs = vec![in self.alloc; preferred; self.prefs]?;
        Ok(Choice {
            en: self.mask,
            prefs: Items::from_vec(prefs),
        })
    }

    /// The outermost module.
    fn top(&self) -> Option<&Module>
        ensures top { option_copied result ≡ top_of self.now.modules }
        ensures stands { Stands self.now }
    {
        at(self.modules, kind_at_root(self.parts.as_slice()))
    }

    fn word(&self, location: Location) -> u64
        ensures { result ≡ global_word (state_of self.now) location }
    {
        let spot = inner_spot(self.parts.as_slice(), location.instance);
        let start = number_at(self.starts.as_slice(), spot.memories, location.memory);
        word_at(self.words.as_slice(), start, location.word)
    }

    /// What `global` answers.
    fn global_word(&self, name: &str, element: u64) -> Option<u64>
        ensures word { result ≡ global_of self.now name.now element }
        ensures stands { Stands self.now }
    {
        let location = locate(self.modules, self.top()?, name, element)?;
        Some(self.word(location))
    }

    /// The bits of element `element` of a global: word `element / K` of its bank `element mod K`, where it has K banks, the instances
    /// `u_NAME_k` of `top` that have a memory `bank_NAME_k`. None exactly where no bank has it. It takes no memory.
    pub fn global(&self, name: &str, element: u64) -> Option<u64>
        ensures word { IfSome result (λ w. IsWord self.now name.now element w) }
        ensures only { IfSome result (λ w. (word : ℕ) → IsWord self.now name.now element word → word ≡ w) }
        ensures none { IfNone result ((word : ℕ) → IsWord self.now name.now element word → ⊥) }
    {
        self.global_word(name, element)
    }

    /// The choices of 16 cycles in lockstep: in that of number k each arbiter prefers thread k.
    #[tactic(auto, using(crate::proofs::Choices::choices_none))]
    fn rounds(&self) -> Result<Vec<Choice>, AllocError>
        ensures { IfOk result (λ choices. AreRounds (threads_of self.now.modules) self.now.prefs 16 choices.items) }
    {
        let mut choices = Vec::with_capacity(self.alloc, 16)?;
        for preferred in 0..16u64 {
            let choice = self.all_preferring(preferred)?;
            choices.push(choice)?;
        }
        Ok(choices)
    }

    /// Runs cycles until done is shown, `cycles` of them at most, and gives their number. In cycle k, from 0, all threads are
    /// enabled, and each arbiter prefers thread k modulo 16. What they write is appended to `out`. At `Err` some whole cycles
    /// have run, and what they wrote stands in `out`.
    pub fn lockstep(&mut self, cycles: u32, out: &mut Bytes) -> Result<u32, AllocError>
        ensures ok { IfOk result (λ n. IsLockstep self.old self.new cycles n out.old out.new) }
        ensures cut { OnErr result (IsCutOff self.old self.new cycles out.old out.new) }
    {
        let all = self.all_enabled();
        let choices = self.rounds()?;
        for number in 0..cycles {
            if self.shows_done(&all) {
                return Ok(number);
            }
            let choice = choice_at(choices.as_slice(), (number % 16) as usize);
            self.cycle(choice, out)?;
        }
        Ok(cycles)
    }

    /// A simulator of the same net in the same state.
    pub fn copy(&self) -> Result<Sim<'a>, AllocError>
        ensures { IfOk result (λ s. s ≡ self.now) }
    {
        Ok(Sim {
            modules: self.modules,
            parts: self.parts.as_slice().to_vec(self.alloc)?,
            steps: self.steps.as_slice().to_vec(self.alloc)?,
            rows: self.rows.as_slice().to_vec(self.alloc)?,
            edge: self.edge.as_slice().to_vec(self.alloc)?,
            cone: self.cone.as_slice().to_vec(self.alloc)?,
            fanout: self.fanout.copy(self.alloc)?,
            pending: self.pending.copy(self.alloc)?,
            numbers: self.numbers.as_slice().to_vec(self.alloc)?,
            next: self.next.as_slice().to_vec(self.alloc)?,
            words: self.words.as_slice().to_vec(self.alloc)?,
            starts: self.starts.as_slice().to_vec(self.alloc)?,
            prefs: self.prefs,
            done: self.done,
            mask: self.mask,
            alloc: self.alloc,
        })
    }

    /// The instances, each before those in it.
    pub fn parts(&self) -> &[Part]
        ensures parts { result.now ≡ self.now.parts }
        ensures stands { Stands self.now }
        ensures room { length self.now.numbers < 2 ^ 64 }
    {
        let _ = self.numbers.len();
        self.parts.as_slice()
    }

    /// The net.
    pub fn modules(&self) -> &'a [Module]
        ensures { result.now ≡ self.now.modules }
    {
        self.modules
    }

    /// The number that stands at a place.
    pub fn number(&self, place: usize) -> u64
        ensures { result ≡ slice_index self.now.numbers place }
    {
        item_at(self.numbers.as_slice(), place)
    }

    /// A word of a memory, which is the one of number `memory` from the place `first` of all memories on.
    pub fn word_of(&self, first: usize, memory: usize, word: u64) -> u64
        ensures { result ≡ slice_index self.now.words (slice_index self.now.starts (first + memory) + word) }
    {
        let start = number_at(self.starts.as_slice(), first, memory);
        word_at(self.words.as_slice(), start, word)
    }

    /// Puts a number at a place.
    pub fn put_number(&mut self, place: usize, number: u64)
        requires { FitsAt self.old place number }
        ensures { self.new ≡ with_number self.old place number }
    {
        put(
            &self.fanout,
            self.numbers.as_mut_slice(),
            &mut self.pending,
            place,
            number,
        );
    }

    /// Puts a number into a word of a memory, which is the one of number `memory` from the place `first` of all memories on.
    pub fn put_word(&mut self, first: usize, memory: usize, word: u64, number: u64)
        requires { FitsWordAt self.old (slice_index self.old.starts (first + memory) + word) number }
        ensures { self.new ≡ with_word self.old (slice_index self.old.starts (first + memory) + word) number }
    {
        let start = number_at(self.starts.as_slice(), first, memory);
        set_word_at(self.words.as_mut_slice(), start, word, number);
    }

    /// One cycle, of which what it writes is dropped. It takes no memory.
    pub fn pass(&mut self, choice: &Choice)
        requires { Fits self.old (choice_of choice.now) }
        ensures net { IsSameNet self.old self.new }
        ensures cycle { (out : List ℕ) × IsCycleOf (choice_of choice.now) self.old self.new [] out }
    {
        self.settle_under(choice);
        self.advance();
    }

    fn is_done(&self) -> bool
        ensures { result ≡ nat_eq (slice_index self.now.numbers self.now.done) 1 }
    {
        item_at(self.numbers.as_slice(), self.done) == 1
    }
}

fn choice_at(choices: &[Choice], number: usize) -> &Choice
    requires { number < length choices.now }
    ensures { slice_get choices.now number ≡ Some result.now }
{
    &choices[number]
}

/// Why a net has no simulator.
#[derive(Clone, Copy, Debug, PartialEq, Eq, Error)]
pub enum OpenError {
    /// The first signal that depends on itself, by the number of its module and its own: in the order of the module's
    /// signals, those of a module before those of its instances.
    #[error("signal {signal} of module {module} depends on itself")]
    Loop { module: usize, signal: usize },
    #[error("out of memory")]
    Memory,
}

impl From<AllocError> for OpenError {
    ghost from_gives = { λ _ e. e ≡ errors.Memory };

    fn from(_error: AllocError) -> Self {
        OpenError::Memory
    }
}

/// The steps of a net in no order, those for the inputs of the outermost module first.
fn wires_of(
    alloc: Global,
    modules: &[Module],
    top: usize,
    parts: &[Part],
    prefs: usize,
) -> Result<Vec<Step>, AllocError>
    ensures { IfOk result (λ wires. AreWires modules.now parts.now (signals_of (slice_get modules.now top)) (spot_of (slice_get parts.now 0)).base prefs wires.items) }
{
    let signals = module_signals(modules, top);
    let mut wires = roots(alloc, base_at(parts, 0), signals, prefs)?;
    push_parts(&mut wires, modules, parts)?;
    Ok(wires)
}

/// The first signal that depends on itself, where no order has all steps.
fn loop_of(alloc: Global, modules: &[Module], placed: &Placed, wires: &[Step]) -> OpenError
    requires laid { IsPlacedNet modules.now placed.now wires.now }
    requires stuck { IsStuck modules.now wires.now placed.now.free.items }
    ensures { IsCause modules.now result }
{
    let words = placed.numbers.len();
    let Ok(found) = first_loop(alloc, modules, placed.parts.as_slice(), wires, words) else {
        return OpenError::Memory;
    };
    match found {
        Some(found) => OpenError::Loop {
            module: found.module,
            signal: found.signal,
        },
        None => unreachable!(),
    }
}

impl<'a> Sim<'a> {
    /// A simulator of a net in its initial state. There is one exactly where no signal depends on itself. Its choices have at most
    /// as many prefs as `top` has inputs `pref_k`.
    pub fn open(alloc: Global, modules: &'a [Module]) -> Result<Self, OpenError>
        requires { IsOpenable modules.now }
        ensures ok { IfOk result (IsOpened modules.entry.now) }
        ensures cause { IfErr result (IsCause modules.entry.now) }
    {
        match top_number(modules) {
            Some(top) => Sim::open_at(alloc, modules, top),
            None => unreachable!(),
        }
    }

    fn open_at(alloc: Global, modules: &'a [Module], top: usize) -> Result<Self, OpenError>
        requires openable { IsOpenable modules.now }
        requires top { IsTopNumber modules.now top }
        ensures ok { IfOk result (IsOpened modules.entry.now) }
        ensures cause { IfErr result (IsCause modules.entry.now) }
    {
        let signals = module_signals(modules, top);
        let prefs = pref_count(signals);
        let mask = enable_mask(signals);
        let done = done_number(signals);
        let tree = tree_of(alloc, modules, top)?;
        let placed = place(alloc, modules, &tree)?;
        let wires = wires_of(alloc, modules, top, placed.parts.as_slice(), prefs)?;
        match order(alloc, modules, wires.as_slice(), placed.free.as_slice())? {
            Some(steps) => Sim::built(alloc, modules, placed, steps, prefs, done, mask),
            None => Err(loop_of(alloc, modules, &placed, wires.as_slice())),
        }
    }

    /// A simulator whose output `done` has this number among the signals of the outermost instance.
    fn built(
        alloc: Global,
        modules: &'a [Module],
        placed: Placed,
        steps: Vec<Step>,
        prefs: usize,
        number: usize,
        mask: u64,
    ) -> Result<Self, OpenError>
        requires ready { IsReady (running modules.now placed.parts.items steps.items placed.numbers.items placed.words.items placed.starts.items prefs
            ((spot_of (slice_get placed.parts.items 0)).base + number)) }
        requires mask { mask ≡ 2 ^ threads_of modules.now - 1 }
        ensures ok { IfOk result (IsOpened modules.entry.now) }
        ensures cause { IfErr result (λ e. e ≡ errors.Memory) }
    {
        let done = further(base_at(placed.parts.as_slice(), 0), number)?;
        let words = placed.numbers.len();
        let fanout = fanout_of(alloc, modules, steps.as_slice(), words)?;
        let rows = rows_of(alloc, modules, placed.starts.as_slice(), steps.as_slice())?;
        let edge = edge_rows(
            alloc,
            modules,
            placed.starts.as_slice(),
            placed.parts.as_slice(),
        )?;
        let cone = cone(alloc, modules, steps.as_slice(), words, done)?;
        let pending = all_pending(alloc, steps.len())?;
        let next = vec![in alloc; 0u64; words]?;
        let Placed {
            parts,
            numbers,
            free: _,
            words,
            starts,
        } = placed;
        Ok(Sim {
            modules,
            parts,
            steps,
            rows,
            edge,
            cone,
            fanout,
            pending,
            numbers,
            next,
            words,
            starts,
            prefs,
            done,
            mask,
            alloc,
        })
    }
}
