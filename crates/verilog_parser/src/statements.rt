// Statements of always blocks.

ghost use Rattle.std.specs.Prelude.{◌≡◌, ◌-◌};
ghost use Rattle.grammar.specs.Steps.{Steps};
ghost use Rattle.verilog_rules.specs.Reading as spec;

use grammar::{Fault, too_deep};
use sqlite_items::Items;
use std::alloc::Global;
use verilog_expressions::cursor::Cursor;
use verilog_expressions::expressions::signed;
use verilog_tree::token::{Mark, Word};
use verilog_tree::tree::{Statement, WriteArgument};

/// `register <= source;`, or `memory[address] <= source;`
#[tactic(auto, unfolding(verilog_rules::specs::Reading::read_written, verilog_rules::specs::Reading::read_set, verilog_rules::specs::Reading::read_store))]
fn written(cursor: &mut Cursor<'_>) -> Result<Statement, Fault>
    ensures { Steps (spec.read_written cursor.old) result cursor.new }
{
    let name = cursor.name()?;
    if cursor.sees_mark(Mark::LessEqual) {
        cursor.mark(Mark::LessEqual)?;
        let source = cursor.name()?;
        cursor.mark(Mark::Semicolon)?;
        return Ok(Statement::Set {
            register: name,
            source,
        });
    }
    cursor.mark(Mark::OpenSquare)?;
    let address = cursor.name()?;
    cursor.mark(Mark::CloseSquare)?;
    cursor.mark(Mark::LessEqual)?;
    let source = cursor.name()?;
    cursor.mark(Mark::Semicolon)?;
    Ok(Statement::Store {
        memory: name,
        address,
        source,
    })
}

#[tactic(auto, unfolding(verilog_rules::specs::Reading::read_argument, verilog_rules::specs::Reading::read_unsigned_argument, verilog_rules::specs::Reading::read_signed_argument))]
fn argument(cursor: &mut Cursor<'_>) -> Result<WriteArgument, Fault>
    ensures { Steps (spec.read_argument cursor.old) result cursor.new }
{
    if cursor.sees_name() {
        let name = cursor.name()?;
        Ok(WriteArgument::Unsigned(name))
    } else {
        let name = signed(cursor)?;
        Ok(WriteArgument::Signed(name))
    }
}

fn arguments(alloc: Global, cursor: &mut Cursor<'_>) -> Result<Items<WriteArgument>, Fault>
    ensures { Steps (spec.read_arguments cursor.old) result cursor.new }
{
    let mut found = Items::new(alloc);
    for _turn in 0..cursor.left() {
        if !cursor.sees_mark(Mark::Comma) {
            return Ok(found);
        }
        cursor.mark(Mark::Comma)?;
        found.push(argument(cursor)?)?;
    }
    Ok(found)
}

#[tactic(auto, unfolding(verilog_rules::specs::Reading::read_write))]
fn write(alloc: Global, cursor: &mut Cursor<'_>) -> Result<Statement, Fault>
    ensures { Steps (spec.read_write cursor.old) result cursor.new }
{
    cursor.mark(Mark::Write)?;
    cursor.mark(Mark::OpenRound)?;
    let text = cursor.quoted()?;
    let arguments = arguments(alloc, cursor)?;
    cursor.mark(Mark::CloseRound)?;
    cursor.mark(Mark::Semicolon)?;
    Ok(Statement::Write { text, arguments })
}

/// `if (condition) begin .. end`
#[cycle(statements)]
#[tactic(auto, unfolding(verilog_rules::specs::Reading::read_branch, verilog_rules::specs::Reading::read_branch_head))]
fn branch(alloc: Global, cursor: &mut Cursor<'_>, room: usize) -> Result<Statement, Fault>
    ensures { Steps (spec.read_branch (spec.read_statement room) cursor.old) result cursor.new }
{
    cursor.word(Word::If)?;
    cursor.mark(Mark::OpenRound)?;
    let condition = cursor.name()?;
    cursor.mark(Mark::CloseRound)?;
    cursor.word(Word::Begin)?;
    let body = statements(alloc, cursor, room)?;
    cursor.word(Word::End)?;
    Ok(Statement::If { condition, body })
}

#[cycle(statements)]
#[tactic(auto, unfolding(verilog_rules::specs::Reading::read_plain))]
fn statement(alloc: Global, cursor: &mut Cursor<'_>, room: usize) -> Result<Statement, Fault>
    ensures { Steps (spec.read_statement room cursor.old) result cursor.new }
{
    if room == 0 {
        return Err(too_deep(cursor.begins_statement(), false));
    }
    if cursor.sees_word(Word::If) {
        branch(alloc, cursor, room - 1)
    } else if cursor.sees_name() {
        written(cursor)
    } else {
        write(alloc, cursor)
    }
}

/// The statements up to a token that begins none, each with so many levels of nesting left.
#[cycle(statements)]
pub(crate) fn statements(
    alloc: Global,
    cursor: &mut Cursor<'_>,
    room: usize,
) -> Result<Items<Statement>, Fault>
    ensures { Steps (spec.read_statements (spec.read_statement room) cursor.old) result cursor.new }
{
    let mut found = Items::new(alloc);
    for _turn in 0..cursor.left() {
        if !cursor.begins_statement() {
            return Ok(found);
        }
        found.push(statement(alloc, cursor, room)?)?;
    }
    Ok(found)
}
