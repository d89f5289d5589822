// The input ports.

ghost use Rattle.std.specs.Prelude.{◌≡◌, ◌+◌, ◌++◌, false, length, replicate, IfOk};
ghost use Rattle.netlist.specs.declared.netlist.Source.TheVariants.{Input};
ghost use Rattle.operator_wires.specs.Built.{is_single};
ghost use Rattle.thread_slots.specs.Inputs.{LaysInputs};
ghost use Rattle.thread_slots.specs.Services.{news_widths};
ghost use Rattle.thread_slots.specs.Slots.{LaysAll};
ghost use Rattle.thread_slots.specs.Wired.{AreFit, Behind, IsInnerInput};

use crate::chains::places;
use crate::shape::Served;
use block_datapath::registers::Held;
use operator_wires::wires::{Role, Wires};
use sqlite_items::Items;
use std::alloc::{AllocError, Global};

/// The input ports, besides the clock and what cores tell.
#[derive(Drop)]
pub struct Inputs {
    pub enable: usize,
    /// Whether each core grants: the banks, then those that acts ask.
    pub grants: Items<usize>,
}

/// The clock, the enable, and the grants of so many banks and of so many cores that acts ask.
pub fn lay_inputs(wires: &mut Wires, banks: usize, others: usize) -> Result<Inputs, AllocError>
    ensures lays { IfOk result (LaysInputs (banks + others) wires.old.signals wires.new.signals) }
    ensures wired { IfOk result (λ inputs. length wires.old.signals ≡ 0 → Behind IsInnerInput wires.old.signals wires.new.signals) }
{
    wires.input(Role::Clock, 1)?;
    let enable = wires.input(Role::Enable, 1)?;
    let ones = grant_widths(wires.alloc, banks, others)?;
    let held = lay_many(wires, Role::Grant, ones.as_slice())?;
    let grants = places(wires.alloc, held.as_slice())?;
    Ok(Inputs { enable, grants })
}

fn grant_widths(alloc: Global, banks: usize, others: usize) -> Result<Items<u64>, AllocError>
    ensures { IfOk result (λ widths. widths ≡ replicate banks 1 ++ replicate others 1) }
{
    let mut widths = Items::from_vec(vec![in alloc; 1; banks]?);
    let more = Items::from_vec(vec![in alloc; 1; others]?);
    widths.append(more)?;
    Ok(widths)
}

/// The widths of what the cores tell that acts ask: each barrier whether the thread waits, and the core of the thread ids
/// whether the thread runs, and with which argument.
pub fn told_widths(alloc: Global, served: Served) -> Result<Items<u64>, AllocError>
    ensures { IfOk result (λ widths. widths ≡ news_widths served) }
{
    let mut widths = Items::from_vec(vec![in alloc; 1; served.barriers]?);
    if served.thread_ids {
        widths.push(1)?;
        widths.push(64)?;
    }
    Ok(widths)
}

/// What cores tell, of these widths.
pub fn lay_words(wires: &mut Wires, widths: &[u64]) -> Result<Items<Held>, AllocError>
    ensures lays { IfOk result (LaysAll Input wires.old.signals wires.new.signals widths.now (length widths.now)) }
    ensures wired { IfOk result (λ words. AreFit widths.now → Behind IsInnerInput wires.old.signals wires.new.signals) }
{
    lay_many(wires, Role::Told, widths)
}

fn lay_many(wires: &mut Wires, role: Role, widths: &[u64]) -> Result<Items<Held>, AllocError>
    ensures lays { IfOk result (LaysAll Input wires.old.signals wires.new.signals widths.now (length widths.now)) }
    ensures wired { IfOk result (λ inputs. is_single role ≡ false → AreFit widths.now → Behind IsInnerInput wires.old.signals wires.new.signals) }
{
    let mut inputs = Items::new(wires.alloc);
    for width in widths {
        let register = wires.input(role, *width)?;
        let width = *width;
        inputs.push(Held { register, width })?;
    }
    Ok(inputs)
}
