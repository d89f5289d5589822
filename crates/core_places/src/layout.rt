// The layout of threads and cores.

ghost use Rattle.std.specs.Prelude.{◌≡◌, ◌+◌, ◌^◌, ◌<◌, ◌≤◌, IfOk, length, map};
ghost use Rattle.hls_ints.specs.Residues.{bit_of};
ghost use Rattle.core_family.specs.Family.{port_of};
ghost use Rattle.core_family.specs.View.{kind_of};
ghost use Rattle.core_tables.specs.Fits.{core_of, group, groups_of};
ghost use Rattle.core_tables.specs.Tables.{core_name, laid_core};
ghost use Rattle.core_places.specs.Laying.{layout_of, place_in, places_of};
ghost use Rattle.core_places.specs.Placing.{number_of, placed};

use crate::kinds::{has_free, has_unset};
use core_family::cores::{CoreKind, Cores};
use sqlite_items::Items;
use std::alloc::{AllocError, Global};
use top_wiring::{Core, Group, Layout};
use verilog_tree::name::Identifier;

/// One number of so many bits.
fn group(width: u64) -> Group
    ensures { result ≡ group 1 width }
{
    Group { count: 1, width }
}

/// The name of the instance of a core, by its number among those of its kind.
fn name(alloc: Global, kind: &CoreKind, number: u64) -> Result<Identifier, AllocError>
    ensures { IfOk result (λ name. name ≡ core_name (kind_of kind.now) number) }
{
    match kind {
        CoreKind::Bank(bank) => {
            let stem = Identifier::from_text(alloc, "u")?;
            let of_global = stem.with_suffix(bank.name.as_str())?;
            of_global.with_number(alloc, bank.number)
        }
        CoreKind::Mutex(_) => {
            let stem = Identifier::from_text(alloc, "umutex")?;
            stem.with_number(alloc, number)
        }
        CoreKind::Barrier(_) => {
            let stem = Identifier::from_text(alloc, "ubarrier")?;
            stem.with_number(alloc, number)
        }
        CoreKind::ThreadIds(_) => Identifier::from_text(alloc, "ufork_0"),
        CoreKind::Printer(_) => Identifier::from_text(alloc, "uprinter_0"),
    }
}

/// What a core is asked: whether a thread asks, then of a bank whether it writes, the address and the value, of a mutex the
/// operation, of a barrier the operation and the count, of the thread ids the operation, the id and the argument, and of the
/// printer the site and the values.
fn groups(alloc: Global, kind: &CoreKind) -> Result<Items<Group>, AllocError>
    ensures { IfOk result (λ groups. groups ≡ groups_of (kind_of kind.now)) }
{
    match kind {
        CoreKind::Bank(bank) => {
            Items::from_slice(alloc, &[group(1), group(1), group(64), group(bank.width)])
        }
        CoreKind::Mutex(_) => Items::from_slice(alloc, &[group(1), group(2)]),
        CoreKind::Barrier(_) => Items::from_slice(alloc, &[group(1), group(2), group(64)]),
        CoreKind::ThreadIds(_) => {
            Items::from_slice(alloc, &[group(1), group(2), group(64), group(64)])
        }
        CoreKind::Printer(printer) => {
            let values = Group {
                count: printer.values,
                width: 64,
            };
            Items::from_slice(alloc, &[group(1), group(16), values])
        }
    }
}

/// What a core tells: a bank a word, a barrier whether the thread waits, the thread ids whether it runs, and its argument.
fn told(alloc: Global, kind: &CoreKind) -> Result<Items<u64>, AllocError>
    ensures { IfOk result (λ told. told ≡ (port_of (kind_of kind.now)).told) }
{
    match kind {
        CoreKind::Bank(bank) => Items::from_slice(alloc, &[bank.width]),
        CoreKind::Barrier(_) => Items::from_slice(alloc, &[1]),
        CoreKind::ThreadIds(_) => Items::from_slice(alloc, &[1, 64]),
        _ => Ok(Items::new(alloc)),
    }
}

/// A core whose module has this number.
fn core(alloc: Global, kind: &CoreKind, place: usize, number: u64) -> Result<Core, AllocError>
    ensures { IfOk result (λ core. core ≡ core_of (kind_of kind.now) place (core_name (kind_of kind.now) number)) }
{
    let name = name(alloc, kind, number)?;
    let groups = groups(alloc, kind)?;
    let told = told(alloc, kind)?;
    Ok(Core {
        module: place,
        name,
        groups,
        told,
    })
}

/// Where the modules of cores begin, and the numbers of those of mutexes that are uninitialised at the start, of mutexes that
/// are free then, of barriers, of the thread ids, and of the printer.
#[derive(Clone, Copy)]
struct Places {
    first: usize,
    unset: usize,
    free: usize,
    barrier: usize,
    thread_ids: usize,
    printer: usize,
}

fn bit(b: bool) -> usize
    ensures is { result ≡ bit_of b }
    ensures low { result ≤ 1 }
{
    if b { 1 } else { 0 }
}

fn places_from(first: usize, wanted: &Cores) -> Places
    requires few { first ≤ 65 }
    requires few_banks { length wanted.now.banks < 2 ^ 15 }
    ensures { result ≡ places_of first wanted.now }
{
    let mutexes = wanted.mutexes.as_slice();
    let unset = first + wanted.banks.len();
    let free = unset + bit(has_unset(mutexes));
    let barrier = free + bit(has_free(mutexes));
    let thread_ids = barrier + bit(wanted.barriers > 0);
    let printer = thread_ids + bit(wanted.thread_ids);
    Places {
        first,
        unset,
        free,
        barrier,
        thread_ids,
        printer,
    }
}

impl Places {
    /// The number of the module of this core, which is of this kind.
    fn place(self, core: usize, kind: &CoreKind) -> usize
        requires { self.first + core < 2 ^ 64 }
        ensures { result ≡ place_in self core (kind_of kind.now) }
    {
        match kind {
            CoreKind::Bank(_) => self.first + core,
            CoreKind::Mutex(shape) if shape.initialised => self.free,
            CoreKind::Mutex(_) => self.unset,
            CoreKind::Barrier(_) => self.barrier,
            CoreKind::ThreadIds(_) => self.thread_ids,
            CoreKind::Printer(_) => self.printer,
        }
    }
}

/// The number of this core among those of its kind: of mutexes and barriers from 0 on, else 0.
fn number(wanted: &Cores, core: usize, kind: &CoreKind) -> u64
    ensures { result ≡ number_of wanted.now core (kind_of kind.now) }
{
    let behind_banks = core.saturating_sub(wanted.banks.len());
    match kind {
        CoreKind::Mutex(_) => behind_banks as u64,
        CoreKind::Barrier(_) => behind_banks.saturating_sub(wanted.mutexes.len()) as u64,
        _ => 0,
    }
}

/// The cores that are wanted, in the order of their arbiters, where the modules of cores are numbered from `first` on.
fn laid_cores(alloc: Global, first: usize, wanted: &Cores) -> Result<Items<Core>, AllocError>
    requires few { first ≤ 65 }
    requires few_cores { length (placed wanted.now) < 2 ^ 15 }
    ensures { IfOk result (λ cores. cores ≡ map (laid_core first) (placed wanted.now)) }
{
    let at = places_from(first, wanted);
    let listed = wanted.kinds(alloc)?;
    let kinds = listed.as_slice();
    let mut cores = Items::new(alloc);
    for (k, kind) in kinds.iter().enumerate() {
        let core = core(alloc, kind, at.place(k, kind), number(wanted, k, kind))?;
        cores.push(core)?;
    }
    Ok(cores)
}

/// The layout of these threads, each by the number of its module, and of the cores that are wanted: the modules of threads come
/// first, of which there are at most 64, then that of the arbiter, then those of cores.
pub fn layout(
    alloc: Global,
    threads: Items<usize>,
    routines: usize,
    wanted: &Cores,
) -> Result<Layout, AllocError>
    requires few { routines ≤ 64 }
    requires few_cores { length (placed wanted.now) < 2 ^ 15 }
    ensures { IfOk result (λ layout. layout ≡ layout_of threads routines wanted.now) }
{
    Ok(Layout {
        threads,
        cores: laid_cores(alloc, routines + 1, wanted)?,
        arbiter: routines,
    })
}
