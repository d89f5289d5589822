// Statements, items, modules and nets.

ghost use Rattle.std.specs.Prelude.{◌≡◌, ◌++◌, OnOk};
ghost use Rattle.verilog_tree.specs.Grammar as g;
ghost use Rattle.verilog_tree.specs.declared.token.Mark.TheVariants as m;
ghost use Rattle.verilog_tree.specs.declared.tree.Item.TheVariants as i;
ghost use Rattle.verilog_text.specs.Layout.{put_all, AllTokens};

use std::alloc::AllocError;
use verilog_text::expressions::{expression, signed};
use verilog_text::text::{Piece, Text};
use verilog_tree::name::{Identifier, Quoted};
use verilog_tree::token::{Mark, Word};
use verilog_tree::tree::{
    Always, Assign, Connection, Direction, Initial, InitialConstant, Instance, Item, Memory,
    Module, Net, Port, Statement, WriteArgument,
};

fn range(out: &mut Text, high: Option<u64>) -> Result<(), AllocError>
    ensures text { OnOk result (out.new ≡ put_all out.old (g.range high)) }
    ensures tokens { OnOk result (AllTokens (g.range high)) }
{
    match high {
        None => Ok(()),
        Some(high) => out.phrase(&[
            Piece::Mark(Mark::OpenSquare),
            Piece::Number(high),
            Piece::Mark(Mark::Colon),
            Piece::Number(0),
            Piece::Mark(Mark::CloseSquare),
        ]),
    }
}

fn direction(out: &mut Text, direction: Direction) -> Result<(), AllocError>
    ensures text { OnOk result (out.new ≡ put_all out.old (g.direction direction)) }
    ensures tokens { OnOk result (AllTokens (g.direction direction)) }
{
    match direction {
        Direction::Input => out.word(Word::Input),
        Direction::Output => out.word(Word::Output),
    }
}

#[tactic(auto, using(verilog_text::proofs::LaidTokens::put_all_append, verilog_text::proofs::LaidTokens::all_tokens_append))]
fn port(out: &mut Text, port: &Port) -> Result<(), AllocError>
    ensures text { OnOk result (out.new ≡ put_all out.old (g.port port.now)) }
    ensures tokens { OnOk result (AllTokens (g.port port.now)) }
{
    direction(out, port.direction)?;
    out.word(Word::Wire)?;
    range(out, port.high)?;
    out.name(&port.name)
}

fn connection(out: &mut Text, connection: &Connection) -> Result<(), AllocError>
    ensures text { OnOk result (out.new ≡ put_all out.old (g.connection connection.now)) }
    ensures tokens { OnOk result (AllTokens (g.connection connection.now)) }
{
    out.phrase(&[
        Piece::Mark(Mark::Dot),
        Piece::Name(&connection.port),
        Piece::Mark(Mark::OpenRound),
        Piece::Name(&connection.signal),
        Piece::Mark(Mark::CloseRound),
    ])
}

fn argument(out: &mut Text, argument: &WriteArgument) -> Result<(), AllocError>
    ensures text { OnOk result (out.new ≡ put_all out.old (g.argument argument.now)) }
    ensures tokens { OnOk result (AllTokens (g.argument argument.now)) }
{
    match argument {
        WriteArgument::Unsigned(name) => out.name(name),
        WriteArgument::Signed(name) => signed(out, name),
    }
}

#[tactic(auto, using(verilog_text::proofs::LaidTokens::put_all_append, verilog_text::proofs::LaidTokens::all_tokens_append))]
fn ports(out: &mut Text, ports: &[Port]) -> Result<(), AllocError>
    ensures text { OnOk result (out.new ≡ put_all out.old (g.commas g.port ports.now)) }
    ensures tokens { OnOk result (AllTokens (g.commas g.port ports.now)) }
{
    let [first, rest @ ..] = ports else {
        return Ok(());
    };
    port(out, first)?;
    for one in rest {
        out.mark(Mark::Comma)?;
        port(out, one)?;
    }
    Ok(())
}

#[tactic(auto, using(verilog_text::proofs::LaidTokens::put_all_append, verilog_text::proofs::LaidTokens::all_tokens_append))]
fn connections(out: &mut Text, connections: &[Connection]) -> Result<(), AllocError>
    ensures text { OnOk result (out.new ≡ put_all out.old (g.commas g.connection connections.now)) }
    ensures tokens { OnOk result (AllTokens (g.commas g.connection connections.now)) }
{
    let [first, rest @ ..] = connections else {
        return Ok(());
    };
    connection(out, first)?;
    for one in rest {
        out.mark(Mark::Comma)?;
        connection(out, one)?;
    }
    Ok(())
}

fn more_arguments(out: &mut Text, arguments: &[WriteArgument]) -> Result<(), AllocError>
    ensures text { OnOk result (out.new ≡ put_all out.old (g.more g.argument arguments.now)) }
    ensures tokens { OnOk result (AllTokens (g.more g.argument arguments.now)) }
{
    for one in arguments {
        out.mark(Mark::Comma)?;
        argument(out, one)?;
    }
    Ok(())
}

fn index(out: &mut Text, word: Option<u64>) -> Result<(), AllocError>
    ensures text { OnOk result (out.new ≡ put_all out.old (g.index word)) }
    ensures tokens { OnOk result (AllTokens (g.index word)) }
{
    match word {
        None => Ok(()),
        Some(word) => out.phrase(&[
            Piece::Mark(Mark::OpenSquare),
            Piece::Number(word),
            Piece::Mark(Mark::CloseSquare),
        ]),
    }
}

#[tactic(auto, using(verilog_text::proofs::LaidTokens::put_all_append, verilog_text::proofs::LaidTokens::all_tokens_append))]
fn initial_constant(out: &mut Text, initial: &InitialConstant) -> Result<(), AllocError>
    ensures text { OnOk result (out.new ≡ put_all out.old (g.initial_constant initial.now)) }
    ensures tokens { OnOk result (AllTokens (g.initial_constant initial.now)) }
{
    out.name(&initial.name)?;
    index(out, initial.word)?;
    out.phrase(&[
        Piece::Mark(Mark::Equal),
        Piece::Number(initial.value.width),
        Piece::Mark(Mark::Decimal),
        Piece::Number(initial.value.value),
        Piece::Mark(Mark::Semicolon),
    ])
}

fn constants(out: &mut Text, constants: &[InitialConstant]) -> Result<(), AllocError>
    ensures text { OnOk result (out.new ≡ put_all out.old (g.all g.initial_constant constants.now)) }
    ensures tokens { OnOk result (AllTokens (g.all g.initial_constant constants.now)) }
{
    for one in constants {
        initial_constant(out, one)?;
    }
    Ok(())
}

/// `$write("text", argument, argument);`
#[tactic(auto, using(verilog_text::proofs::LaidTokens::put_all_append, verilog_text::proofs::LaidTokens::all_tokens_append))]
fn system_write(
    out: &mut Text,
    text: &Quoted,
    arguments: &[WriteArgument],
) -> Result<(), AllocError>
    ensures text { OnOk result (out.new ≡ put_all out.old (g.write text.now arguments.now)) }
    ensures tokens { OnOk result (AllTokens (g.write text.now arguments.now)) }
{
    out.phrase(&[
        Piece::Mark(Mark::Write),
        Piece::Mark(Mark::OpenRound),
        Piece::Quoted(text),
    ])?;
    more_arguments(out, arguments)?;
    out.mark(Mark::CloseRound)?;
    out.mark(Mark::Semicolon)
}

#[tactic(auto, using(verilog_tree::proofs::Fold::statement_set, verilog_tree::proofs::Fold::statement_store, verilog_tree::proofs::Fold::statement_write, verilog_tree::proofs::Fold::statement_if))]
#[cycle(statements)]
fn statement(out: &mut Text, statement: &Statement) -> Result<(), AllocError>
    ensures text { OnOk result (out.new ≡ put_all out.old (g.statement statement.now)) }
    ensures tokens { OnOk result (AllTokens (g.statement statement.now)) }
{
    match statement {
        Statement::Set { register, source } => out.phrase(&[
            Piece::Name(register),
            Piece::Mark(Mark::LessEqual),
            Piece::Name(source),
            Piece::Mark(Mark::Semicolon),
        ]),
        Statement::Store {
            memory,
            address,
            source,
        } => out.phrase(&[
            Piece::Name(memory),
            Piece::Mark(Mark::OpenSquare),
            Piece::Name(address),
            Piece::Mark(Mark::CloseSquare),
            Piece::Mark(Mark::LessEqual),
            Piece::Name(source),
            Piece::Mark(Mark::Semicolon),
        ]),
        Statement::If { condition, body } => conditional(out, condition, body.as_slice()),
        Statement::Write { text, arguments } => system_write(out, text, arguments.as_slice()),
    }
}

/// `if (condition) begin .. end`
#[tactic(auto, using(verilog_text::proofs::LaidTokens::put_all_append, verilog_text::proofs::LaidTokens::all_tokens_append))]
#[cycle(statements)]
fn conditional(out: &mut Text, condition: &Identifier, body: &[Statement]) -> Result<(), AllocError>
    ensures text { OnOk result (out.new ≡ put_all out.old (g.conditional condition.now (g.all g.statement body.now))) }
    ensures tokens { OnOk result (AllTokens (g.conditional condition.now (g.all g.statement body.now))) }
{
    out.phrase(&[
        Piece::Word(Word::If),
        Piece::Mark(Mark::OpenRound),
        Piece::Name(condition),
        Piece::Mark(Mark::CloseRound),
        Piece::Word(Word::Begin),
    ])?;
    statements(out, body)?;
    out.word(Word::End)
}

#[cycle(statements)]
fn statements(out: &mut Text, statements: &[Statement]) -> Result<(), AllocError>
    ensures text { OnOk result (out.new ≡ put_all out.old (g.all g.statement statements.now)) }
    ensures tokens { OnOk result (AllTokens (g.all g.statement statements.now)) }
{
    for one in statements {
        statement(out, one)?;
    }
    Ok(())
}

/// A wire or a register.
#[tactic(auto, using(verilog_text::proofs::LaidTokens::put_all_append, verilog_text::proofs::LaidTokens::all_tokens_append))]
fn declaration(
    out: &mut Text,
    kind: Word,
    high: Option<u64>,
    name: &Identifier,
) -> Result<(), AllocError>
    ensures text { OnOk result (out.new ≡ put_all out.old (g.word kind ++ g.range high ++ g.name name.now ++ g.mark m.Semicolon)) }
    ensures tokens { OnOk result (AllTokens (g.word kind ++ g.range high ++ g.name name.now ++ g.mark m.Semicolon)) }
{
    out.word(kind)?;
    range(out, high)?;
    out.phrase(&[Piece::Name(name), Piece::Mark(Mark::Semicolon)])
}

fn memory(out: &mut Text, memory: &Memory) -> Result<(), AllocError>
    ensures text { OnOk result (out.new ≡ put_all out.old (g.item (i.Memory memory.now))) }
    ensures tokens { OnOk result (AllTokens (g.item (i.Memory memory.now))) }
{
    out.phrase(&[
        Piece::Word(Word::Reg),
        Piece::Mark(Mark::OpenSquare),
        Piece::Number(memory.high),
        Piece::Mark(Mark::Colon),
        Piece::Number(0),
        Piece::Mark(Mark::CloseSquare),
        Piece::Name(&memory.name),
        Piece::Mark(Mark::OpenSquare),
        Piece::Number(0),
        Piece::Mark(Mark::Colon),
        Piece::Number(memory.last),
        Piece::Mark(Mark::CloseSquare),
        Piece::Mark(Mark::Semicolon),
    ])
}

#[tactic(auto, using(verilog_text::proofs::LaidTokens::put_all_append, verilog_text::proofs::LaidTokens::all_tokens_append))]
fn assign(out: &mut Text, assign: &Assign) -> Result<(), AllocError>
    ensures text { OnOk result (out.new ≡ put_all out.old (g.item (i.Assign assign.now))) }
    ensures tokens { OnOk result (AllTokens (g.item (i.Assign assign.now))) }
{
    out.phrase(&[
        Piece::Word(Word::Assign),
        Piece::Name(&assign.target),
        Piece::Mark(Mark::Equal),
    ])?;
    expression(out, &assign.value)?;
    out.mark(Mark::Semicolon)
}

#[tactic(auto, using(verilog_text::proofs::LaidTokens::put_all_append, verilog_text::proofs::LaidTokens::all_tokens_append))]
fn initial(out: &mut Text, initial: &Initial) -> Result<(), AllocError>
    ensures text { OnOk result (out.new ≡ put_all out.old (g.item (i.Initial initial.now))) }
    ensures tokens { OnOk result (AllTokens (g.item (i.Initial initial.now))) }
{
    out.phrase(&[Piece::Word(Word::Initial), Piece::Word(Word::Begin)])?;
    constants(out, initial.constants.as_slice())?;
    out.word(Word::End)
}

/// `always @(posedge clk) begin .. end`
#[tactic(auto, using(verilog_text::proofs::LaidTokens::put_all_append, verilog_text::proofs::LaidTokens::all_tokens_append))]
fn always(out: &mut Text, always: &Always) -> Result<(), AllocError>
    ensures text { OnOk result (out.new ≡ put_all out.old (g.item (i.Always always.now))) }
    ensures tokens { OnOk result (AllTokens (g.item (i.Always always.now))) }
{
    out.phrase(&[
        Piece::Word(Word::Always),
        Piece::Mark(Mark::At),
        Piece::Mark(Mark::OpenRound),
        Piece::Word(Word::PosEdge),
        Piece::Clock,
        Piece::Mark(Mark::CloseRound),
        Piece::Word(Word::Begin),
    ])?;
    statements(out, always.body.as_slice())?;
    out.word(Word::End)
}

#[tactic(auto, using(verilog_text::proofs::LaidTokens::put_all_append, verilog_text::proofs::LaidTokens::all_tokens_append))]
fn instance(out: &mut Text, instance: &Instance) -> Result<(), AllocError>
    ensures text { OnOk result (out.new ≡ put_all out.old (g.item (i.Instance instance.now))) }
    ensures tokens { OnOk result (AllTokens (g.item (i.Instance instance.now))) }
{
    out.phrase(&[
        Piece::Name(&instance.module_name),
        Piece::Name(&instance.name),
        Piece::Mark(Mark::OpenRound),
    ])?;
    connections(out, instance.connections.as_slice())?;
    out.mark(Mark::CloseRound)?;
    out.mark(Mark::Semicolon)
}

fn item(out: &mut Text, item: &Item) -> Result<(), AllocError>
    ensures text { OnOk result (out.new ≡ put_all out.old (g.item item.now)) }
    ensures tokens { OnOk result (AllTokens (g.item item.now)) }
{
    match item {
        Item::Wire(item) => declaration(out, Word::Wire, item.high, &item.name),
        Item::Register(item) => declaration(out, Word::Reg, item.high, &item.name),
        Item::Memory(item) => memory(out, item),
        Item::Assign(item) => assign(out, item),
        Item::Initial(item) => initial(out, item),
        Item::Always(item) => always(out, item),
        Item::Instance(item) => instance(out, item),
    }
}

fn items(out: &mut Text, items: &[Item]) -> Result<(), AllocError>
    ensures text { OnOk result (out.new ≡ put_all out.old (g.all g.item items.now)) }
    ensures tokens { OnOk result (AllTokens (g.all g.item items.now)) }
{
    for one in items {
        item(out, one)?;
    }
    Ok(())
}

#[tactic(auto, using(verilog_text::proofs::LaidTokens::put_all_append, verilog_text::proofs::LaidTokens::all_tokens_append))]
fn one_module(out: &mut Text, one: &Module) -> Result<(), AllocError>
    ensures text { OnOk result (out.new ≡ put_all out.old (g.module_tokens one.now)) }
    ensures tokens { OnOk result (AllTokens (g.module_tokens one.now)) }
{
    out.phrase(&[
        Piece::Word(Word::Module),
        Piece::Name(&one.name),
        Piece::Mark(Mark::OpenRound),
    ])?;
    ports(out, one.ports.as_slice())?;
    out.mark(Mark::CloseRound)?;
    out.mark(Mark::Semicolon)?;
    items(out, one.items.as_slice())?;
    out.word(Word::EndModule)
}

pub fn net(out: &mut Text, net: &Net) -> Result<(), AllocError>
    ensures text { OnOk result (out.new ≡ put_all out.old (g.net net.now)) }
    ensures tokens { OnOk result (AllTokens (g.net net.now)) }
{
    for one in net.modules.as_slice() {
        one_module(out, one)?;
    }
    Ok(())
}
