// A global of six elements that five threads name.

ghost use Rattle.std.specs.Prelude.{IfOk};
ghost use Rattle.bank_partition.specs.Partition.{AreBanks, shapes};

use bank_partition::banks::{Bank, Banks, Element, Place, partition};
use bank_partition::count::bank_count;
use c_profile::accept;
use std::alloc::Global;
use std::test::Fail;

fn text() -> &'static str {
    "int x[6] = {10, 11, -12}; int main(void){return 0;}"
}

fn banks_of_x(alloc: Global) -> Result<Banks, Fail>
    ensures { IfOk result (λ b. AreBanks b.spreads.items (shapes b)) }
{
    let accepted = accept(alloc, text().as_bytes())?;
    let banks = partition(alloc, &accepted.program, &[5])?;
    Ok(banks)
}

/// Whether there is one global, of six elements, the last of which is the second word of the second bank; the third bank
/// has one word.
fn has_last_element(banks: &Banks) -> bool
    requires { AreBanks banks.now.spreads.items (shapes banks.now) }
{
    let Some(spread) = banks.spreads.get(0) else {
        return false;
    };
    let place = Place {
        bank: 1,
        address: 1,
    };
    let last = Element {
        global: 0,
        index: 5,
    };
    banks.spreads.len() == 1
        && spread.length == 6
        && banks.place(0, 5) == place
        && banks.element(1, 1) == Some(last)
        && banks.element(2, 1).is_none()
}

/// Whether it is a bank of x with -12 alone.
fn has_last(bank: &Bank) -> bool {
    bank.name.as_str() == "x" && bank.initial.as_slice() == [4294967284].as_slice()
}

/// Whether there are four banks, of which the third has -12 alone.
fn are_four(banks: &[Bank]) -> bool {
    match banks.get(2) {
        Some(third) => banks.len() == 4 && has_last(third),
        None => false,
    }
}

#[test]
fn six_elements_in_four_banks(rt: HostRuntime) -> Result<(), Fail> {
    assert!(rt; bank_count(5, 6) == 4);
    let banks = banks_of_x(rt.alloc())?;
    assert!(rt; are_four(banks.banks.as_slice()));
    assert!(rt; has_last_element(&banks));
    Ok(())
}
