// What a thread asks of cores in a state: wires that read registers alone.

ghost use Rattle.std.specs.Prelude.{◌≡◌, List, ◌∷◌, [], ◌++◌, true, length, map, option_map, slice_get, IfOk};
ghost use Rattle.hls_ints.specs.Types.{width_of};
ghost use Rattle.netlist.specs.declared.netlist.Signal.{Signal};
ghost use Rattle.thread_slots.specs.Bits.{MakesAny, AddsAny};
ghost use Rattle.thread_slots.specs.Services.{if_thread_ids};
ghost use Rattle.thread_requests.specs.Early.{BeginsRequests, AsksBanks, OpensBanks, OpensActs, OpensObjects, IsLost, LaysEarlyWired, copies_of, spread_out, wants_of};

use crate::banks::{one_bank_each, spread_places, spread_requests};
use crate::needing::need_stages;
use bank_partition::banks::Spread;
use block_datapath::registers::Registers;
use block_ir::code::ThreadCode;
use block_ir::plan::Planned;
use hls_ints::CType;
use operator_wires::wires::Wires;
use sqlite_items::{Boxed, Items};
use std::alloc::{AllocError, Global};
use thread_asks::asking::{Caller, ask_stages};
use thread_asks::met::name_met;
use thread_slots::bits::{any_of, both_each, both_with, is_each, not_each};
use thread_slots::requests::{Request, Requests};
use thread_slots::shape::Served;

/// What is asked in a state.
#[derive(Drop)]
pub struct Early {
    pub requests: Requests,
    /// Of each core whether it is to be asked: of a bank, that it has not granted yet; then of those that acts ask.
    pub opens: Items<usize>,
    /// Of each barrier whether it is named.
    pub barriers: Items<usize>,
    /// Whether a core is asked that is not there.
    pub lost: usize,
    /// Whether a core is needed: one is asked, or tells a word that is taken, or the thread waits.
    pub need: usize,
    /// Whether the slot is at the end.
    pub done: usize,
}

/// What all stages ask.
#[derive(Drop)]
struct Asked {
    requests: Requests,
    /// Whether the slot is at the end.
    done: usize,
}

/// The cores that acts ask.
#[derive(Drop)]
pub struct Acts {
    /// Of each whether it is to be asked.
    pub opens: Items<usize>,
    /// Of each barrier whether it is named.
    pub barriers: Items<usize>,
}

/// The cores of one kind, one for each object.
#[derive(Drop)]
pub struct Objects {
    /// Of each whether it is named.
    pub names: Items<usize>,
    /// And whether it is to be asked.
    pub opens: Items<usize>,
}

impl Objects {
    fn into_opens(self) -> Items<usize>
        ensures { result ≡ self.opens }
    {
        self.opens
    }
}

/// The wires of what all stages ask. A bit of each global tells whether its access has been granted in this state.
pub fn lay_early(
    wires: &mut Wires,
    registers: &Registers,
    granted: &[usize],
    code: &ThreadCode,
    globals: &[CType],
    caller: Caller,
    planned: &Planned,
) -> Result<Early, AllocError>
    ensures { IfOk result (LaysEarlyWired globals.now code.now registers.now granted.now caller planned.now wires.old.signals wires.new.signals) }
{
    let spreads = registers.spreads.as_slice();
    let asked = ask_all(wires, registers, code, globals, caller, planned)?;
    let all = asked.get();
    let held = need_stages(wires, registers, code, planned, all.done)?;
    let wants = all.requests.banks.wants.as_slice();
    let mut opens = open_banks(wires, spreads, granted, wants)?;
    let Acts {
        opens: others,
        barriers,
    } = open_acts(wires, &all.requests, caller.served)?;
    let lost = lay_lost(wires, &all.requests, others.as_slice())?;
    let need = any_needed(wires, held, &all.requests)?;
    opens.append(others)?;
    let own = asked.into_inner();
    Ok(Early {
        requests: own.requests,
        opens,
        barriers,
        lost,
        need,
        done: own.done,
    })
}

/// What all stages ask, bank by bank, and the end.
fn ask_all(
    wires: &mut Wires,
    registers: &Registers,
    code: &ThreadCode,
    globals: &[CType],
    caller: Caller,
    planned: &Planned,
) -> Result<Boxed<Asked>, AllocError>
    ensures { IfOk result (λ asked. AsksBanks globals.now code.now registers.now caller planned.now wires.old.signals wires.new.signals asked.requests asked.done) }
{
    let mut requests = begin_requests(wires, registers, code, globals, caller.served)?;
    let done = ask_banks(
        wires,
        registers,
        &mut requests,
        code,
        globals,
        caller,
        planned,
    )?;
    Boxed::new(wires.alloc, Asked { requests, done })
}

/// What all stages ask, where nobody is asked before. Answers whether the slot is at the end.
fn ask_banks(
    wires: &mut Wires,
    registers: &Registers,
    requests: &mut Requests,
    code: &ThreadCode,
    globals: &[CType],
    caller: Caller,
    planned: &Planned,
) -> Result<usize, AllocError>
    ensures { IfOk result (λ done. (start : List Signal) → BeginsRequests code.now registers.now caller.served (map width_of globals.now) start wires.old.signals requests.old
        → AsksBanks globals.now code.now registers.now caller planned.now start wires.new.signals requests.new done) }
{
    let whole = one_bank_each(wires.alloc, globals.len())?;
    let done = ask_stages(
        wires,
        registers,
        requests,
        code,
        globals,
        whole.as_slice(),
        caller,
        planned,
    )?;
    let banks = spread_requests(wires, registers.spreads.as_slice(), &requests.banks)?;
    requests.banks = banks;
    Ok(done)
}

/// Nobody is asked, of globals as wide as their types. At the meeting of a wait the barrier is named at which the thread meets
/// others.
fn begin_requests(
    wires: &mut Wires,
    registers: &Registers,
    code: &ThreadCode,
    globals: &[CType],
    served: Served,
) -> Result<Requests, AllocError>
    ensures { IfOk result (BeginsRequests code.now registers.now served (map width_of globals.now) wires.old.signals wires.new.signals) }
{
    let words = global_widths(wires.alloc, globals)?;
    let mut requests = Requests::begin(wires, served, words.as_slice())?;
    let met = name_met(wires, registers, code)?;
    requests.barrier.object = met;
    Ok(requests)
}

/// Of each core that acts ask whether it is to be asked.
fn open_acts(wires: &mut Wires, requests: &Requests, served: Served) -> Result<Acts, AllocError>
    ensures { IfOk result (OpensActs served requests.now wires.old.signals wires.new.signals) }
{
    let mutexes = open_objects(wires, &requests.mutex, served.mutexes)?;
    let Objects {
        names: barriers,
        opens: more,
    } = open_objects(wires, &requests.barrier, served.barriers)?;
    let opens = join_opens(mutexes.into_opens(), more, served.thread_ids, requests)?;
    Ok(Acts { opens, barriers })
}

/// Of each core whether it is to be asked: of the mutexes, the barriers, the core of the thread ids, and the printer.
fn join_opens(
    mutexes: Items<usize>,
    barriers: Items<usize>,
    thread_ids: bool,
    requests: &Requests,
) -> Result<Items<usize>, AllocError>
    ensures { IfOk result (λ opens. opens ≡ mutexes ++ (barriers ++ (if_thread_ids thread_ids (requests.now.thread_ids.wants ∷ []) ++ requests.now.printer.wants ∷ []))) }
{
    let mut opens = mutexes;
    opens.append(barriers)?;
    if thread_ids {
        opens.push(requests.thread_ids.wants)?;
    }
    opens.push(requests.printer.wants)?;
    Ok(opens)
}

/// Of each object whether a request names it, and whether its core is to be asked.
fn open_objects(wires: &mut Wires, request: &Request, count: usize) -> Result<Objects, AllocError>
    ensures { IfOk result (OpensObjects request.now count wires.old.signals wires.new.signals) }
{
    let names = is_each(wires, request.object, count)?;
    let opens = both_with(wires, names.as_slice(), request.wants)?;
    Ok(Objects { names, opens })
}

/// Whether an object is asked, or the core of the thread ids, and none of these cores is to be asked.
fn lay_lost(wires: &mut Wires, requests: &Requests, opens: &[usize]) -> Result<usize, AllocError>
    ensures { IfOk result (IsLost requests.now opens.now wires.old.signals wires.new.signals) }
{
    let objects = wires.either(requests.mutex.wants, requests.barrier.wants)?;
    let wanted = wires.either(objects, requests.thread_ids.wants)?;
    let never = wires.constant(1, 0)?;
    let open = any_of(wires, never, opens)?;
    let shut = wires.not(1, open)?;
    wires.both(wanted, shut)
}

/// For each bank whether it is to be asked: it is wanted, and its global's access has not been granted.
fn open_banks(
    wires: &mut Wires,
    spreads: &[Spread],
    granted: &[usize],
    wants: &[usize],
) -> Result<Items<usize>, AllocError>
    ensures { IfOk result (OpensBanks spreads.now granted.now wants.now wires.old.signals wires.new.signals) }
{
    let marks = spread_places(wires.alloc, spreads, granted)?;
    let free = not_each(wires, marks.as_slice())?;
    both_each(wires, wants, free.as_slice())
}

/// Whether a first bit is set, or a core is wanted.
fn any_needed(wires: &mut Wires, first: usize, requests: &Requests) -> Result<usize, AllocError>
    ensures shows { IfOk result (MakesAny wires.old.signals wires.new.signals first (wants_of requests.now) (λ k. true) (length (wants_of requests.now))) }
    ensures wired { IfOk result (AddsAny wires.old.signals wires.new.signals first (wants_of requests.now)) }
{
    let asked = all_wants(wires.alloc, requests)?;
    any_of(wires, first, asked.as_slice())
}

/// Whether each core is wanted: the banks, then those that acts ask, kind by kind.
fn all_wants(alloc: Global, requests: &Requests) -> Result<Items<usize>, AllocError>
    ensures { IfOk result (λ wants. wants ≡ wants_of requests.now) }
{
    let acts = [
        requests.mutex.wants,
        requests.barrier.wants,
        requests.thread_ids.wants,
        requests.printer.wants,
    ];
    let more = Items::from_slice(alloc, &acts)?;
    let mut wants = Items::from_slice(alloc, requests.banks.wants.as_slice())?;
    wants.append(more)?;
    Ok(wants)
}

fn global_widths(alloc: Global, globals: &[CType]) -> Result<Items<u64>, AllocError>
    ensures { IfOk result (λ widths. widths ≡ map width_of globals.now) }
{
    let mut widths = Items::new(alloc);
    for ty in globals {
        widths.push(u64::from(ty.bits()))?;
    }
    Ok(widths)
}

/// For each bank the width of its words: that of its global's elements.
pub fn word_widths(
    alloc: Global,
    spreads: &[Spread],
    globals: &[CType],
) -> Result<Items<u64>, AllocError>
    ensures { IfOk result (λ widths. widths ≡ spread_out spreads.now (map width_of globals.now)) }
{
    let mut widths = Items::new(alloc);
    for (number, spread) in spreads.iter().enumerate() {
        let copies = width_copies(alloc, type_at(globals, number), spread.count)?;
        widths.append(copies)?;
    }
    Ok(widths)
}

fn width_copies(alloc: Global, ty: Option<CType>, count: u64) -> Result<Items<u64>, AllocError>
    ensures { IfOk result (λ copies. copies ≡ copies_of count (option_map width_of ty)) }
{
    match ty {
        Some(ty) => {
            let width = u64::from(ty.bits());
            Ok(Items::from_vec(vec![in alloc; width; count as usize]?))
        }
        None => Ok(Items::new(alloc)),
    }
}

fn type_at(globals: &[CType], number: usize) -> Option<CType>
    ensures { result ≡ slice_get globals.now number }
{
    globals.get(number).copied()
}
