// The cores of the banks of a program's globals.

ghost use Rattle.std.specs.Prelude.{◌≡◌, map, IfOk};
ghost use Rattle.std.specs.List.{AllByRecursion};
ghost use Rattle.bank_partition.specs.Shapes.{shape_of};
ghost use Rattle.program_cores.specs.Banks.{core_shape, core_shapes, IsNamed};

use bank_cores::bank::Shape;
use bank_cores::name::GlobalName;
use bank_partition::banks::Bank;
use sqlite_items::Items;
use std::alloc::{AllocError, Global};

/// The width of an address in a bank, in bits.
const ADDRESS_WIDTH: u64 = 64;

/// The core of a bank, for so many threads.
fn bank_shape(alloc: Global, threads: usize, bank: &Bank) -> Result<Shape, AllocError>
    requires { IsNamed (shape_of bank.now) }
    ensures { IfOk result (λ core. core ≡ core_shape threads (shape_of bank.now)) }
{
    Ok(Shape {
        threads,
        name: GlobalName::from_text(alloc, bank.name.as_str())?,
        number: bank.number,
        address_width: ADDRESS_WIDTH,
        width: u64::from(bank.width),
        initial: Items::from_slice(alloc, bank.initial.as_slice())?,
    })
}

/// The cores of banks, in their order.
pub fn bank_shapes(
    alloc: Global,
    threads: usize,
    banks: &[Bank],
) -> Result<Items<Shape>, AllocError>
    requires { AllByRecursion (λ b. IsNamed (shape_of b)) banks.now }
    ensures { IfOk result (λ cores. cores ≡ core_shapes threads (map shape_of banks.now)) }
{
    let mut cores: Items<Shape> = Items::new(alloc);
    for bank in banks {
        let core = bank_shape(alloc, threads, bank)?;
        cores.push(core)?;
    }
    Ok(cores)
}
