// Modules, and whole texts.

ghost use Rattle.grammar.specs.Steps.{Steps};
ghost use Rattle.verilog_rules.specs.Reading as spec;

use crate::items::item;
use grammar::Fault;
use sqlite_items::Items;
use std::alloc::Global;
use verilog_expressions::cursor::Cursor;
use verilog_expressions::expressions::optional_range;
use verilog_tree::token::{Mark, Word};
use verilog_tree::tree::{Item, Module, Net, Port};

#[tactic(auto, unfolding(verilog_rules::specs::Reading::read_port))]
fn port(cursor: &mut Cursor<'_>) -> Result<Port, Fault>
    ensures { Steps (spec.read_port cursor.old) result cursor.new }
{
    let direction = cursor.direction()?;
    cursor.word(Word::Wire)?;
    let high = optional_range(cursor)?;
    let name = cursor.name()?;
    Ok(Port {
        direction,
        high,
        name,
    })
}

/// The ports behind the first one.
fn more_ports(alloc: Global, cursor: &mut Cursor<'_>, first: Port) -> Result<Items<Port>, Fault>
    ensures { Steps (spec.read_more spec.read_port first cursor.old) result cursor.new }
{
    let mut found = Items::new(alloc);
    found.push(first)?;
    for _turn in 0..cursor.left() {
        if !cursor.sees_mark(Mark::Comma) {
            return Ok(found);
        }
        cursor.mark(Mark::Comma)?;
        found.push(port(cursor)?)?;
    }
    Ok(found)
}

fn items(alloc: Global, cursor: &mut Cursor<'_>, room: usize) -> Result<Items<Item>, Fault>
    ensures { Steps (spec.read_items (spec.read_statement room) cursor.old) result cursor.new }
{
    let mut found = Items::new(alloc);
    for _turn in 0..cursor.left() {
        if !cursor.begins_item() {
            return Ok(found);
        }
        found.push(item(alloc, cursor, room)?)?;
    }
    Ok(found)
}

#[tactic(auto, unfolding(verilog_rules::specs::Reading::read_module, verilog_rules::specs::Reading::read_module_head, verilog_rules::specs::Reading::read_listed))]
fn module(alloc: Global, cursor: &mut Cursor<'_>, room: usize) -> Result<Module, Fault>
    ensures { Steps (spec.read_module (spec.read_statement room) cursor.old) result cursor.new }
{
    cursor.word(Word::Module)?;
    let name = cursor.name()?;
    cursor.mark(Mark::OpenRound)?;
    let first = port(cursor)?;
    let ports = more_ports(alloc, cursor, first)?;
    cursor.mark(Mark::CloseRound)?;
    cursor.mark(Mark::Semicolon)?;
    let items = items(alloc, cursor, room)?;
    cursor.word(Word::EndModule)?;
    Ok(Module { name, ports, items })
}

/// The modules behind the first one.
fn modules(
    alloc: Global,
    cursor: &mut Cursor<'_>,
    room: usize,
    first: Module,
) -> Result<Items<Module>, Fault>
    ensures { Steps (spec.read_modules (spec.read_statement room) first cursor.old) result cursor.new }
{
    let mut found = Items::new(alloc);
    found.push(first)?;
    for _turn in 0..cursor.left() {
        if !cursor.sees_word(Word::Module) {
            return Ok(found);
        }
        found.push(module(alloc, cursor, room)?)?;
    }
    Ok(found)
}

/// The net of the tokens up to one that no module begins with, with so many levels of nesting left for each statement.
#[tactic(auto, unfolding(verilog_rules::specs::Reading::read_net))]
pub fn net(alloc: Global, cursor: &mut Cursor<'_>, room: usize) -> Result<Net, Fault>
    ensures { Steps (spec.read_net room cursor.old) result cursor.new }
{
    let first = module(alloc, cursor, room)?;
    let modules = modules(alloc, cursor, room, first)?;
    Ok(Net { modules })
}
