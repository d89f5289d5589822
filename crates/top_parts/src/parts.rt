// The instances of `top`: their modules, and their output ports.

ghost use Rattle.std.specs.Prelude.{◌≡◌, ◌++◌, replicate, IfOk, OnOk, map};
ghost use Rattle.circuit.specs.Rows.{spread};
ghost use Rattle.top_parts.specs.Parts.{ask_widths, core_outputs, thread_part, core_part, arbiter_part, parts};

use crate::layout::{Core, Layout};
use sqlite_items::Items;
use std::alloc::{AllocError, Global};

/// An instance: the number of its module, and the widths of its output ports.
#[derive(Drop)]
pub struct Part {
    pub of: usize,
    pub outputs: Items<u64>,
}

/// So many of a width.
pub fn push_copies(
    alloc: Global,
    widths: &mut Items<u64>,
    width: u64,
    count: usize,
) -> Result<(), AllocError>
    ensures { OnOk result (widths.new ≡ widths.old ++ replicate count width) }
{
    widths.append(Items::from_vec(vec![in alloc; width; count]?))
}

/// The widths of all numbers that a thread hands to cores.
fn ask_widths(alloc: Global, cores: &[Core]) -> Result<Items<u64>, AllocError>
    ensures { IfOk result (λ widths. widths ≡ ask_widths cores.now) }
{
    let mut widths = Items::new(alloc);
    for core in cores {
        for group in core.groups.as_slice() {
            push_copies(alloc, &mut widths, group.width, group.count)?;
        }
    }
    Ok(widths)
}

fn core_outputs(alloc: Global, threads: usize, core: &Core) -> Result<Items<u64>, AllocError>
    ensures { IfOk result (λ widths. widths ≡ core_outputs threads core.now) }
{
    let mut widths = Items::new(alloc);
    push_copies(alloc, &mut widths, 1, threads)?;
    for width in core.told.as_slice() {
        push_copies(alloc, &mut widths, *width, threads)?;
    }
    Ok(widths)
}

fn push_threads(
    alloc: Global,
    parts: &mut Items<Part>,
    threads: &[usize],
    asks: &[u64],
) -> Result<(), AllocError>
    ensures { OnOk result (parts.new ≡ parts.old ++ map (thread_part asks.now) threads.now) }
{
    for number in threads {
        let mut outputs = Items::from_slice(alloc, asks)?;
        push_copies(alloc, &mut outputs, 1, 2)?;
        parts.push(Part {
            of: *number,
            outputs,
        })?;
    }
    Ok(())
}

fn push_cores(
    alloc: Global,
    parts: &mut Items<Part>,
    threads: usize,
    cores: &[Core],
) -> Result<(), AllocError>
    ensures { OnOk result (parts.new ≡ parts.old ++ map (core_part threads) cores.now) }
{
    for core in cores {
        let outputs = core_outputs(alloc, threads, core)?;
        parts.push(Part {
            of: core.module,
            outputs,
        })?;
    }
    Ok(())
}

fn push_arbiters(
    alloc: Global,
    parts: &mut Items<Part>,
    threads: usize,
    arbiter: usize,
    count: usize,
) -> Result<(), AllocError>
    ensures { OnOk result (parts.new ≡ parts.old ++ spread (arbiter_part threads arbiter) 0 count) }
{
    for _number in 0..count {
        let mut outputs = Items::new(alloc);
        push_copies(alloc, &mut outputs, 1, threads)?;
        parts.push(Part {
            of: arbiter,
            outputs,
        })?;
    }
    Ok(())
}

/// The threads, then the cores, then an arbiter for each core.
pub fn parts(alloc: Global, layout: &Layout) -> Result<Items<Part>, AllocError>
    ensures { IfOk result (λ all. all ≡ parts layout.now) }
{
    let threads = layout.threads.as_slice();
    let cores = layout.cores.as_slice();
    let asks = ask_widths(alloc, cores)?;
    let mut parts = Items::new(alloc);
    push_threads(alloc, &mut parts, threads, asks.as_slice())?;
    push_cores(alloc, &mut parts, threads.len(), cores)?;
    push_arbiters(
        alloc,
        &mut parts,
        threads.len(),
        layout.arbiter,
        cores.len(),
    )?;
    Ok(parts)
}
