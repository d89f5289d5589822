// The banks of a program, and where each element is.

ghost use Rattle.std.specs.Prelude.{◌≡◌, ◌+◌, ◌*◌, ◌++◌, ◌<◌, map, Some, slice_get, IfOk, OnOk};
ghost use Rattle.c_program.specs.Plain.{global_of, program_of};
ghost use Rattle.bank_partition.specs.Counts.{words_of};
ghost use Rattle.bank_partition.specs.Shapes.{shape_of, spread, number_at, bank_of, first_value};
ghost use Rattle.bank_partition.specs.Partition.{shapes, IsPartition, IsElement, HasElements, place_of, element_of, AreBanks, AreHeld};

use crate::count::{bank_count, words};
use c_program::tree::{GlobalVariable, Program};
use hls_ints::residue;
use std::alloc::{AllocError, Global};

/// A bank of a global.
pub struct Bank {
    /// The number of the global in order of declaration.
    pub global: usize,
    /// The name of the global.
    pub name: String,
    /// The number of the bank among those of its global, from 0.
    pub number: u64,
    /// How many banks the global has.
    pub count: u64,
    /// How many words the bank has.
    pub words: u64,
    /// The width of a word in bits.
    pub width: u32,
    /// The first value of each word, as bits.
    pub initial: Vec<u64>,
}

/// Where the banks of a global stand among all banks, how many they are, and how many elements the global has.
#[derive(Clone, Copy, Debug, PartialEq, Eq)]
pub struct Spread {
    pub first: usize,
    pub count: u64,
    pub length: u64,
}

/// A word of a bank, by the bank's number among all banks.
#[derive(Clone, Copy, Debug, PartialEq, Eq)]
pub struct Place {
    pub bank: usize,
    pub address: u64,
}

/// An element of a global, by the global's number in order of declaration; a scalar has the element 0.
#[derive(Clone, Copy, Debug, PartialEq, Eq)]
pub struct Element {
    pub global: usize,
    pub index: u64,
}

/// The banks of a program, in order of declaration of their globals, and for each global where its banks stand.
pub struct Banks {
    pub banks: Vec<Bank>,
    pub spreads: Vec<Spread>,
}

/// The number at an index, 0 past the end.
fn at(numbers: &[u64], index: usize) -> u64
    ensures { result ≡ number_at numbers.now index }
{
    numbers.get(index).copied().unwrap_or(0)
}

/// The bits of the first value of an element.
fn first_value(global: &GlobalVariable, index: u64) -> u64
    ensures { result ≡ first_value (global_of global.now) index }
{
    let value = global.initial.get(index as usize).copied().unwrap_or(0);
    residue(global.ty.bits(), value)
}

/// The first values of the words of a bank.
fn first_values(
    alloc: Global,
    global: &GlobalVariable,
    count: u64,
    number: u64,
) -> Result<Vec<u64>, AllocError>
    requires { number < count }
    ensures { IfOk result (λ v. v.items ≡ spread (λ a. first_value (global_of global.now) (a * count + number)) 0 (words_of count number global.now.length)) }
{
    let length = global.length;
    let words = words(count, number, length);
    let mut values = Vec::new(alloc);
    for address in 0..words {
        values.push(first_value(global, address * count + number))?;
    }
    Ok(values)
}

/// Bank `number` of the `count` banks of a global.
fn bank_from(
    alloc: Global,
    variable: usize,
    global: &GlobalVariable,
    count: u64,
    number: u64,
) -> Result<Bank, AllocError>
    requires { number < count }
    ensures { IfOk result (λ b. shape_of b ≡ bank_of variable (global_of global.now) count number) }
{
    Ok(Bank {
        global: variable,
        name: global.name.clone()?,
        number,
        count,
        words: words(count, number, global.length),
        width: global.ty.bits(),
        initial: first_values(alloc, global, count, number)?,
    })
}

/// Appends the banks of a global.
fn push_banks(
    alloc: Global,
    banks: &mut Vec<Bank>,
    variable: usize,
    global: &GlobalVariable,
    count: u64,
) -> Result<(), AllocError>
    ensures { OnOk result (map shape_of banks.new.items ≡ map shape_of banks.old.items ++ spread (bank_of variable (global_of global.now) count) 0 count) }
{
    for number in 0..count {
        let bank = bank_from(alloc, variable, global, count, number)?;
        banks.push(bank)?;
    }
    Ok(())
}

/// The banks of a program; `threads` has for each global how many hardware threads have code that names it, and 0 past
/// its end.
///
/// A global of length N has K banks, which is the least power of two that is at least that number of threads, but at
/// most 8 and at most N, rounded down to a power of two. Element j is word j / K of bank j mod K.
pub fn partition(alloc: Global, program: &Program, threads: &[u64]) -> Result<Banks, AllocError>
    ensures partition { IfOk result (IsPartition (program_of program.now) threads.now) }
    ensures banks { IfOk result (λ b. AreBanks b.spreads.items (shapes b)) }
    ensures elements { IfOk result (λ b. let P = program_of program.now in HasElements P.globals b.spreads.items) }
    ensures held { IfOk result (λ b. AreHeld b.spreads.items (shapes b)) }
{
    let mut banks = Vec::new(alloc);
    let mut spreads = Vec::new(alloc);
    for (variable, global) in program.globals.iter().enumerate() {
        let count = bank_count(at(threads, variable), global.length);
        spreads.push(Spread {
            first: banks.len(),
            count,
            length: global.length,
        })?;
        push_banks(alloc, &mut banks, variable, global, count)?;
    }
    Ok(Banks { banks, spreads })
}

impl Banks {
    /// Where an element is: bank `index` modulo the number of banks of its global, word `index` divided by that number.
    pub fn place(&self, global: usize, index: u64) -> Place
        requires banks { AreBanks self.now.spreads.items (shapes self.now) }
        requires element { IsElement self.now.spreads.items global index }
        ensures place { place_of self.now.spreads.items global index ≡ Some result }
        ensures inverse { element_of (shapes self.now) result.bank result.address ≡ Some (record { global = global; index = index }) }
    {
        let spread = self.spreads[global];
        Place {
            bank: spread.first + (index % spread.count) as usize,
            address: index / spread.count,
        }
    }

    /// The element at a word of a bank; None exactly where there is no such bank, or it has no such word.
    pub fn element(&self, bank: usize, address: u64) -> Option<Element>
        requires banks { AreBanks self.now.spreads.items (shapes self.now) }
        ensures element { result ≡ element_of (shapes self.now) bank address }
        ensures inverse { (e : Element) → result ≡ Some e → place_of self.now.spreads.items e.global e.index ≡ Some (record { bank = bank; address = address }) }
    {
        let holder = self.banks.get(bank)?;
        if address < holder.words {
            Some(Element {
                global: holder.global,
                index: address * holder.count + holder.number,
            })
        } else {
            None
        }
    }
}

// A drop that is written here is proved here; a derived one is proved again in each crate that drops the type.

impl Drop for Bank {
    fn drop(self) {
        let Bank {
            global: _,
            name: _,
            number: _,
            count: _,
            words: _,
            width: _,
            initial: _,
        } = self;
    }
}

impl Drop for Banks {
    fn drop(self) {
        let Banks {
            banks: _,
            spreads: _,
        } = self;
    }
}
