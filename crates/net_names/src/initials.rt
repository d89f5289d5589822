// The initial constants of a module, found by register or by word of a memory.

ghost use Rattle.std.specs.Prelude.{◌≡◌, ◌++◌, IfOk, OnOk};
ghost use Rattle.std.specs.List.{flat_map};
ghost use Rattle.netlist.specs.NetlistOf as spec;
ghost use Rattle.net_names.specs.Found.{behind};
ghost use Rattle.net_names.specs.Tables.{AreConstants};

use sqlite_items::Items;
use std::alloc::{AllocError, Global};
use std::collections::HashMap;
use std::marker::Model;
use verilog_tree::name::Identifier;
use verilog_tree::tree::{InitialConstant, Item};

/// Registers and words of memories, each with its number.
type Words<'n> = HashMap<(&'n [u8], Option<u64>), u64>;

/// The initial constants of a module. Contracts see them in the text's order.
#[derive(Drop)]
pub struct Initials<'n> {
    list: Items<&'n InitialConstant>,
    words: Words<'n>,
}

impl<'n> Model for Initials<'n> {
    ghost use Rattle.std.specs.Prelude.{List};
    ghost use Rattle.verilog_tree.specs.declared.tree.InitialConstant.{InitialConstant};
    ghost use Rattle.net_names.specs.Found.{behind};
    ghost use Rattle.net_names.specs.Tables.{AreConstants};

    ghost Value = { List InitialConstant };

    ghost view = { λ c. behind c.list };

    ghost invariant = { λ c. AreConstants c.words.entries (behind c.list) };
}

fn add_constants<'n>(
    list: &mut Items<&'n InitialConstant>,
    constants: &'n [InitialConstant],
) -> Result<(), AllocError>
    ensures { OnOk result (behind list.new ≡ behind list.old ++ constants.now) }
{
    for constant in constants {
        list.push(constant)?;
    }
    Ok(())
}

/// The number of each place, put in from the last constant to the first, so that the first of a place stays.
fn numbered<'n>(alloc: Global, list: &[&'n InitialConstant]) -> Result<Words<'n>, AllocError>
    ensures { IfOk result (λ words. AreConstants words.entries (behind list.now)) }
{
    let mut words = HashMap::new(alloc);
    for number in (0..list.len()).rev() {
        let constant = list[number];
        let name = constant.name.as_str().as_bytes();
        words.insert((name, constant.word), constant.value.value)?;
    }
    Ok(words)
}

impl<'n> Initials<'n> {
    /// The constants of these items.
    pub fn of(alloc: Global, items: &'n [Item]) -> Result<Initials<'n>, AllocError>
        ensures { IfOk result (λ c. c ≡ flat_map spec.initial_constants items.now) }
    {
        let mut list = Items::new(alloc);
        for item in items {
            if let Item::Initial(initial) = item {
                add_constants(&mut list, initial.constants.as_slice())?;
            }
        }
        let words = numbered(alloc, list.as_slice())?;
        Ok(Initials { list, words })
    }

    /// The first constant of a register, or of a word of a memory, and 0 where it has none.
    pub fn number(&self, name: &Identifier, word: Option<u64>) -> u64
        ensures { result ≡ spec.initial_of self.now name.now word }
    {
        let bytes = name.as_str().as_bytes();
        self.words.get(&(bytes, word)).copied().unwrap_or(0)
    }
}
