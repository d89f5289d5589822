// The cores of a program's hardware, kind by kind: banks, mutexes, barriers, the thread ids, the printer.

ghost use Rattle.std.specs.Prelude.{◌≡◌, ◌++◌, map, replicate, IfOk, OnOk};
ghost use Rattle.core_family.specs.Family.{Bank, Mutex};
ghost use Rattle.core_family.specs.Kinds.{barrier, kinds_of, one_if};
ghost use Rattle.core_family.specs.View.{kind_of};

use bank_cores::bank;
use mutex_cores::mutex;
use printer_cores::printer;
use sqlite_items::Items;
use std::alloc::{AllocError, Global};

/// The cores of a program, each for so many threads: a bank and a mutex of each of these shapes, so many barriers, the core
/// of the thread ids or none, and a printer.
#[derive(Drop)]
pub struct Cores {
    pub threads: usize,
    pub banks: Items<bank::Shape>,
    pub mutexes: Items<mutex::Shape>,
    pub barriers: u64,
    /// Whether there is a core of the thread ids.
    pub thread_ids: bool,
    pub printer: printer::Shape,
}

/// The kind of a core, with its shape.
#[derive(Clone, Copy)]
pub enum CoreKind<'a> {
    Bank(&'a bank::Shape),
    Mutex(mutex::Shape),
    /// Of so many threads.
    Barrier(usize),
    /// Of so many threads.
    ThreadIds(usize),
    Printer(&'a printer::Shape),
}

/// Appends a kind where it is wanted.
pub fn push_if<'a>(
    kinds: &mut Items<CoreKind<'a>>,
    wanted: bool,
    kind: CoreKind<'a>,
) -> Result<(), AllocError>
    ensures { OnOk result (map kind_of kinds.new ≡ map kind_of kinds.old ++ one_if wanted (kind_of kind.entry)) }
{
    if wanted {
        kinds.push(kind)?;
    }
    Ok(())
}

/// The banks of these shapes, in their order.
pub fn bank_kinds<'a>(
    alloc: Global,
    banks: &'a [bank::Shape],
) -> Result<Items<CoreKind<'a>>, AllocError>
    ensures { IfOk result (λ kinds. map kind_of kinds ≡ map Bank banks.now) }
{
    let mut kinds = Items::new(alloc);
    for bank in banks {
        kinds.push(CoreKind::Bank(bank))?;
    }
    Ok(kinds)
}

fn push_mutexes<'a>(
    kinds: &mut Items<CoreKind<'a>>,
    mutexes: &[mutex::Shape],
) -> Result<(), AllocError>
    ensures { OnOk result (map kind_of kinds.new ≡ map kind_of kinds.old ++ map Mutex mutexes.now) }
{
    for mutex in mutexes {
        kinds.push(CoreKind::Mutex(*mutex))?;
    }
    Ok(())
}

fn push_barriers<'a>(kinds: &mut Items<CoreKind<'a>>, cores: &Cores) -> Result<(), AllocError>
    ensures { OnOk result (map kind_of kinds.new ≡ map kind_of kinds.old ++ replicate cores.now.barriers (barrier cores.now)) }
{
    for _ in 0..cores.barriers {
        kinds.push(CoreKind::Barrier(cores.threads))?;
    }
    Ok(())
}

impl Cores {
    /// Of each core its kind, in the order of their arbiters.
    pub fn kinds(&self, alloc: Global) -> Result<Items<CoreKind<'_>>, AllocError>
        ensures { IfOk result (λ kinds. map kind_of kinds ≡ kinds_of self.now) }
    {
        let mut kinds = bank_kinds(alloc, self.banks.as_slice())?;
        push_mutexes(&mut kinds, self.mutexes.as_slice())?;
        push_barriers(&mut kinds, self)?;
        push_if(
            &mut kinds,
            self.thread_ids,
            CoreKind::ThreadIds(self.threads),
        )?;
        push_if(&mut kinds, true, CoreKind::Printer(&self.printer))?;
        Ok(kinds)
    }
}
