// Items of modules.

ghost use Rattle.grammar.specs.Steps.{Steps};
ghost use Rattle.verilog_rules.specs.Reading as spec;

use crate::statements::statements;
use grammar::Fault;
use sqlite_items::Items;
use std::alloc::Global;
use verilog_expressions::cursor::Cursor;
use verilog_expressions::expressions::{constant, expression, optional_range};
use verilog_rules::sign::Sign;
use verilog_tree::name::Identifier;
use verilog_tree::token::{Mark, Word};
use verilog_tree::tree::{
    Always, Assign, Connection, Initial, InitialConstant, Instance, Item, Memory, Register, Wire,
};

#[tactic(auto, unfolding(verilog_rules::specs::Reading::read_wire))]
fn wire(cursor: &mut Cursor<'_>) -> Result<Item, Fault>
    ensures { Steps (spec.read_wire cursor.old) result cursor.new }
{
    cursor.word(Word::Wire)?;
    let high = optional_range(cursor)?;
    let name = cursor.name()?;
    cursor.mark(Mark::Semicolon)?;
    Ok(Item::Wire(Wire { high, name }))
}

/// What stands behind the name of a register or of a memory.
#[tactic(auto, unfolding(verilog_rules::specs::Reading::read_stored_end, verilog_rules::specs::Reading::read_memory_end, verilog_rules::specs::Reading::read_register_end))]
fn stored_end(cursor: &mut Cursor<'_>, high: Option<u64>, name: Identifier) -> Result<Item, Fault>
    ensures { Steps (spec.read_stored_end high name cursor.old) result cursor.new }
{
    match high {
        Some(high) if cursor.sees_mark(Mark::OpenSquare) => {
            cursor.mark(Mark::OpenSquare)?;
            cursor.expect(Sign::Zero)?;
            cursor.mark(Mark::Colon)?;
            let last = cursor.number()?;
            cursor.mark(Mark::CloseSquare)?;
            cursor.mark(Mark::Semicolon)?;
            Ok(Item::Memory(Memory { high, name, last }))
        }
        _ => {
            cursor.mark(Mark::Semicolon)?;
            Ok(Item::Register(Register { high, name }))
        }
    }
}

/// A register or a memory.
#[tactic(auto, unfolding(verilog_rules::specs::Reading::read_stored))]
fn stored(cursor: &mut Cursor<'_>) -> Result<Item, Fault>
    ensures { Steps (spec.read_stored cursor.old) result cursor.new }
{
    cursor.word(Word::Reg)?;
    let high = optional_range(cursor)?;
    let name = cursor.name()?;
    stored_end(cursor, high, name)
}

#[tactic(auto, unfolding(verilog_rules::specs::Reading::read_assign))]
fn assign(alloc: Global, cursor: &mut Cursor<'_>) -> Result<Item, Fault>
    ensures { Steps (spec.read_assign cursor.old) result cursor.new }
{
    cursor.word(Word::Assign)?;
    let target = cursor.name()?;
    cursor.mark(Mark::Equal)?;
    let value = expression(alloc, cursor)?;
    cursor.mark(Mark::Semicolon)?;
    Ok(Item::Assign(Assign { target, value }))
}

#[tactic(auto, unfolding(verilog_rules::specs::Reading::read_optional_index, verilog_rules::specs::Reading::read_index))]
fn optional_index(cursor: &mut Cursor<'_>) -> Result<Option<u64>, Fault>
    ensures { Steps (spec.read_optional_index cursor.old) result cursor.new }
{
    if !cursor.sees_mark(Mark::OpenSquare) {
        return Ok(None);
    }
    cursor.mark(Mark::OpenSquare)?;
    let word = cursor.number()?;
    cursor.mark(Mark::CloseSquare)?;
    Ok(Some(word))
}

#[tactic(auto, unfolding(verilog_rules::specs::Reading::read_initial_constant))]
fn initial_constant(cursor: &mut Cursor<'_>) -> Result<InitialConstant, Fault>
    ensures { Steps (spec.read_initial_constant cursor.old) result cursor.new }
{
    let name = cursor.name()?;
    let word = optional_index(cursor)?;
    cursor.mark(Mark::Equal)?;
    let value = constant(cursor)?;
    cursor.mark(Mark::Semicolon)?;
    Ok(InitialConstant { name, word, value })
}

fn initial_constants(
    alloc: Global,
    cursor: &mut Cursor<'_>,
) -> Result<Items<InitialConstant>, Fault>
    ensures { Steps (spec.read_initial_constants cursor.old) result cursor.new }
{
    let mut found = Items::new(alloc);
    for _turn in 0..cursor.left() {
        if !cursor.sees_name() {
            return Ok(found);
        }
        found.push(initial_constant(cursor)?)?;
    }
    Ok(found)
}

#[tactic(auto, unfolding(verilog_rules::specs::Reading::read_initial))]
fn initial(alloc: Global, cursor: &mut Cursor<'_>) -> Result<Item, Fault>
    ensures { Steps (spec.read_initial cursor.old) result cursor.new }
{
    cursor.word(Word::Initial)?;
    cursor.word(Word::Begin)?;
    let constants = initial_constants(alloc, cursor)?;
    cursor.word(Word::End)?;
    Ok(Item::Initial(Initial { constants }))
}

/// `always @(posedge clk) begin .. end`
#[tactic(auto, unfolding(verilog_rules::specs::Reading::read_always, verilog_rules::specs::Reading::read_always_head))]
fn always(alloc: Global, cursor: &mut Cursor<'_>, room: usize) -> Result<Item, Fault>
    ensures { Steps (spec.read_always (spec.read_statement room) cursor.old) result cursor.new }
{
    cursor.word(Word::Always)?;
    cursor.mark(Mark::At)?;
    cursor.mark(Mark::OpenRound)?;
    cursor.word(Word::PosEdge)?;
    cursor.expect(Sign::Clock)?;
    cursor.mark(Mark::CloseRound)?;
    cursor.word(Word::Begin)?;
    let body = statements(alloc, cursor, room)?;
    cursor.word(Word::End)?;
    Ok(Item::Always(Always { body }))
}

#[tactic(auto, unfolding(verilog_rules::specs::Reading::read_connection))]
fn connection(cursor: &mut Cursor<'_>) -> Result<Connection, Fault>
    ensures { Steps (spec.read_connection cursor.old) result cursor.new }
{
    cursor.mark(Mark::Dot)?;
    let port = cursor.name()?;
    cursor.mark(Mark::OpenRound)?;
    let signal = cursor.name()?;
    cursor.mark(Mark::CloseRound)?;
    Ok(Connection { port, signal })
}

/// The connections behind the first one.
fn more_connections(
    alloc: Global,
    cursor: &mut Cursor<'_>,
    first: Connection,
) -> Result<Items<Connection>, Fault>
    ensures { Steps (spec.read_more spec.read_connection first cursor.old) result cursor.new }
{
    let mut found = Items::new(alloc);
    found.push(first)?;
    for _turn in 0..cursor.left() {
        if !cursor.sees_mark(Mark::Comma) {
            return Ok(found);
        }
        cursor.mark(Mark::Comma)?;
        found.push(connection(cursor)?)?;
    }
    Ok(found)
}

#[tactic(auto, unfolding(verilog_rules::specs::Reading::read_instance, verilog_rules::specs::Reading::read_listed))]
fn instance(alloc: Global, cursor: &mut Cursor<'_>) -> Result<Item, Fault>
    ensures { Steps (spec.read_instance cursor.old) result cursor.new }
{
    let module_name = cursor.name()?;
    let name = cursor.name()?;
    cursor.mark(Mark::OpenRound)?;
    let first = connection(cursor)?;
    let connections = more_connections(alloc, cursor, first)?;
    cursor.mark(Mark::CloseRound)?;
    cursor.mark(Mark::Semicolon)?;
    Ok(Item::Instance(Instance {
        module_name,
        name,
        connections,
    }))
}

/// An item, with so many levels of nesting left for its statements.
#[tactic(auto, unfolding(verilog_rules::specs::Reading::read_item))]
pub(crate) fn item(alloc: Global, cursor: &mut Cursor<'_>, room: usize) -> Result<Item, Fault>
    ensures { Steps (spec.read_item (spec.read_statement room) cursor.old) result cursor.new }
{
    if cursor.sees_word(Word::Wire) {
        wire(cursor)
    } else if cursor.sees_word(Word::Reg) {
        stored(cursor)
    } else if cursor.sees_word(Word::Assign) {
        assign(alloc, cursor)
    } else if cursor.sees_word(Word::Initial) {
        initial(alloc, cursor)
    } else if cursor.sees_word(Word::Always) {
        always(alloc, cursor, room)
    } else {
        instance(alloc, cursor)
    }
}
