// The modules of cores, each once.

ghost use Rattle.std.specs.Prelude.{◌≡◌, map, IfOk, not};
ghost use Rattle.std.specs.List.{list_any};
ghost use Rattle.core_family.specs.Family.{Mutex, threads_of, IsCoreModule};
ghost use Rattle.core_family.specs.View.{kind_of};
ghost use Rattle.core_places.specs.Kinds.{HaveModules, IsRight};
ghost use Rattle.core_places.specs.Placing.{distinct, AreKinds};

use bank_cores::bank;
use barrier_cores::barrier;
use core_family::cores::{CoreKind, Cores, bank_kinds, push_if};
use mutex_cores::mutex;
use netlist::netlist::Module;
use printer_cores::printer;
use sqlite_items::Items;
use std::alloc::{AllocError, Global};
use thread_id_cores::thread_ids;

/// Whether a mutex is uninitialised at the start.
pub fn has_unset(mutexes: &[mutex::Shape]) -> bool
    ensures { result ≡ list_any (λ m. not m.initialised) mutexes.now }
{
    mutexes.iter().any(|m| !m.initialised)
}

/// Whether a mutex is free at the start.
pub fn has_free(mutexes: &[mutex::Shape]) -> bool
    ensures { result ≡ list_any (λ m. m.initialised) mutexes.now }
{
    mutexes.iter().any(|m| m.initialised)
}

fn mutex_kind<'a>(threads: usize, initialised: bool) -> CoreKind<'a>
    ensures { kind_of result ≡ Mutex (record { threads = threads; initialised = initialised }) }
{
    CoreKind::Mutex(mutex::Shape {
        threads,
        initialised,
    })
}

/// The kinds that are wanted, each once: each bank, the mutex that is uninitialised at the start, the one that is free then,
/// the barrier, the thread ids, and the printer.
fn distinct(alloc: Global, wanted: &Cores) -> Result<Items<CoreKind<'_>>, AllocError>
    ensures { IfOk result (λ kinds. map kind_of kinds ≡ distinct wanted.now) }
{
    let mutexes = wanted.mutexes.as_slice();
    let threads = wanted.threads;
    let mut kinds = bank_kinds(alloc, wanted.banks.as_slice())?;
    push_if(&mut kinds, has_unset(mutexes), mutex_kind(threads, false))?;
    push_if(&mut kinds, has_free(mutexes), mutex_kind(threads, true))?;
    push_if(&mut kinds, wanted.barriers > 0, CoreKind::Barrier(threads))?;
    push_if(&mut kinds, wanted.thread_ids, CoreKind::ThreadIds(threads))?;
    push_if(&mut kinds, true, CoreKind::Printer(&wanted.printer))?;
    Ok(kinds)
}

/// The module of a core.
fn module(alloc: Global, kind: &CoreKind) -> Result<Module, AllocError>
    requires { IsRight (kind_of kind.now) }
    ensures { IfOk result (IsCoreModule (threads_of (kind_of kind.now)) (kind_of kind.now)) }
{
    match kind {
        CoreKind::Bank(shape) => bank::module(alloc, shape),
        CoreKind::Mutex(shape) => mutex::module(alloc, shape),
        CoreKind::Barrier(threads) => barrier::module(alloc, &barrier::Shape { threads: *threads }),
        CoreKind::ThreadIds(threads) => thread_ids::module(
            alloc,
            &thread_ids::Shape { threads: *threads },
        ),
        CoreKind::Printer(shape) => printer::module(alloc, shape),
    }
}

/// The modules of the kinds that are wanted, each once.
pub fn kinds(alloc: Global, wanted: &Cores) -> Result<Items<Module>, AllocError>
    requires { HaveModules wanted.now }
    ensures { IfOk result (AreKinds wanted.now) }
{
    let listed = distinct(alloc, wanted)?;
    let kinds = listed.as_slice();
    let mut modules = Items::new(alloc);
    for kind in kinds {
        let made = module(alloc, kind)?;
        modules.push(made)?;
    }
    Ok(modules)
}
