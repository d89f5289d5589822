// A text as a net that a simulator runs.

ghost use Rattle.std.specs.Prelude.{◌≡◌, ◌-◌, ◌==◌, ◌&&◌, length, IfOk, IfErr, MatchBool, Some, slice_get};
ghost use Rattle.verilog_tree.specs.declared.tree.Module as tree;
ghost use Rattle.verilog_tree.specs.declared.tree.Net as tree_net;
ghost use Rattle.verilog_tree.specs.Reads.{IsFilled};
ghost use Rattle.verilog_tree.specs.WellFormed.{IsWellFormed};
ghost use Rattle.verilog_reader.specs.Ports.{IsUnwantedOf};
ghost use Rattle.verilog_reader.specs.Before.{before};
ghost use Rattle.verilog_reader.specs.Faults.{IsRead, IsSimulated, before_part};
ghost use Rattle.verilog_reader.specs.Answers as spec;
ghost use Rattle.verilog_reader.specs.declared.read.ReadError.TheVariants as error;

use crate::parts::{item_place, name_place, port_place};
use crate::top::{has_ports, is_top, unwanted};
use grammar::Fault;
use net_check::check::check_net;
use net_check::fault::{ModulePart, NetFault, NetPart};
use std::alloc::{AllocError, Global};
use thiserror::Error;
use verilog_expressions::cursor::Cursor;
use verilog_lexer::tokens::{Lexed, lex};
use verilog_parser::modules::net;
use verilog_tree::tree::{Module, Net};

/// How many statements may stand in one another. The tree of a text with more has no room on the stack.
pub const NESTING_LIMIT: usize = 1000;

/// Why no net was read.
#[derive(Clone, Copy, Debug, PartialEq, Eq, Error)]
pub enum ReadError {
    /// The bytes spell no net that a simulator runs: the offset of the first token at which no sentence goes on, else of the first item, port or
    /// module's name that breaks a rule, else of the name of `top` where it has no `clk` or no `done`, else the text's length.
    #[error("not a net at byte {offset}")]
    NotNet { offset: usize },
    #[error("out of memory")]
    Memory,
}

impl From<AllocError> for ReadError {
    ghost use Rattle.verilog_reader.specs.declared.read.ReadError.TheVariants.{Memory};

    ghost from_gives = { λ _ e. e ≡ Memory };

    fn from(_error: AllocError) -> Self {
        ReadError::Memory
    }
}

/// Where a net is none that a simulator runs.
#[derive(Clone, Copy)]
enum Place {
    Part { number: usize, part: ModulePart },
    End,
}

/// Whether the port stands before the part of the same module.
fn port_before(port: usize, part: ModulePart) -> bool
    ensures { result ≡ spec.port_before port part }
{
    match part {
        ModulePart::Head => false,
        ModulePart::Port(number) => port < number,
        ModulePart::Item(_) => true,
    }
}

/// Whether the port of the first module stands before the part of the second.
fn stands_before(at: (usize, usize), number: usize, part: ModulePart) -> bool
    ensures { result ≡ spec.stands_before at number part }
{
    at.0 < number || at.0 == number && port_before(at.1, part)
}

/// The first part of the net that breaks a rule of well-formed nets.
fn broken(alloc: Global, net: &Net) -> Result<Option<NetPart>, AllocError>
    ensures { IfOk result (spec.IsBroken net.now) }
{
    match check_net(alloc, net) {
        Ok(()) => Ok(None),
        Err(NetFault::BadNet(part)) => Ok(Some(part)),
        Err(NetFault::Mem) => Err(AllocError),
    }
}

/// The earlier of the part and the port, where there is one.
fn or_unwanted(number: usize, part: ModulePart, unwanted: Option<(usize, usize)>) -> Place
    ensures { result ≡ spec.or_unwanted number part unwanted }
{
    match unwanted {
        Some(at) if stands_before(at, number, part) => Place::Part {
            number: at.0,
            part: ModulePart::Port(at.1),
        },
        _ => Place::Part { number, part },
    }
}

fn earlier(broken: NetPart, unwanted: Option<(usize, usize)>) -> Place
    ensures { result ≡ spec.earlier broken unwanted }
{
    match broken {
        NetPart::Modules => Place::End,
        NetPart::Module { number, part } => or_unwanted(number, part, unwanted),
    }
}

/// Whether a module `top` without `clk` or without `done`.
fn lacks_port(module: &Module) -> bool
    ensures { result ≡ spec.lacks_port module.now }
{
    is_top(module) && !has_ports(module)
}

/// The number of the first module `top` that has no `clk` or no `done`.
fn first_lacking(modules: &[Module]) -> Option<usize>
    ensures { spec.IsFirstLacking modules.now result }
{
    for number in 0..modules.len() {
        if lacks_port(&modules[number]) {
            return Some(number);
        }
    }
    None
}

fn has_top(modules: &[Module]) -> bool
    ensures { MatchBool result (spec.HasTop modules.now) (spec.HasTop modules.now → ⊥) }
{
    for number in 0..modules.len() {
        if is_top(&modules[number]) {
            return true;
        }
    }
    false
}

/// Where a net in which no part breaks a rule is none that a simulator runs.
fn lacking(modules: &[Module]) -> Option<Place>
    ensures { spec.IsLacking modules.now result }
{
    match first_lacking(modules) {
        Some(number) => Some(Place::Part {
            number,
            part: ModulePart::Head,
        }),
        None => {
            if has_top(modules) {
                None
            } else {
                Some(Place::End)
            }
        }
    }
}

/// Where a well-formed net is none that a simulator runs, by the first port that `top` may not have.
#[tactic(auto, using(crate::proofs::NoNets::unwanted_fault, crate::proofs::NoNets::lacking_is))]
fn unbroken(net: &Net, unwanted: Option<(usize, usize)>) -> Option<Place>
    requires well_formed { IsWellFormed net.now }
    requires unwanted { IsUnwantedOf net.now.modules unwanted }
    ensures { spec.IsFaultOf net.now result }
{
    match unwanted {
        Some(at) => Some(Place::Part {
            number: at.0,
            part: ModulePart::Port(at.1),
        }),
        None => lacking(net.modules.as_slice()),
    }
}

/// Where the net is none that a simulator runs.
#[tactic(auto, using(crate::proofs::NoNets::broken_fault))]
fn fault_of(alloc: Global, net: &Net) -> Result<Option<Place>, AllocError>
    requires { IsFilled net.now.modules }
    ensures { IfOk result (spec.IsFaultOf net.now) }
{
    let unwanted = unwanted(alloc, net)?;
    let broken = broken(alloc, net)?;
    match broken {
        Some(part) => Ok(Some(earlier(part, unwanted))),
        None => Ok(unbroken(net, unwanted)),
    }
}

/// The offset of the token with this number, or of what stands behind the last.
fn offset_at(lexed: &Lexed, number: usize) -> usize
    ensures { result ≡ spec.offset_at lexed.now number }
{
    match lexed.starts.get(number) {
        Some(start) => *start,
        None => lexed.end,
    }
}

/// How many tokens stand in the net before the part of a module.
fn token_of(modules: &[Module], number: usize, part: ModulePart) -> Result<usize, AllocError>
    ensures { IfOk result (λ n. (x : tree.Module) → slice_get modules.now number ≡ Some x → n ≡ length (before modules.now number (before_part part x))) }
{
    match part {
        ModulePart::Head => name_place(modules, number),
        ModulePart::Port(port) => port_place(modules, number, port),
        ModulePart::Item(item) => item_place(modules, number, item),
    }
}

/// Whether the tokens, of which so many are left, are all read, and all of the text.
fn is_all_read(lexed: &Lexed, left: usize) -> bool
    ensures { result ≡ (left == 0 && lexed.now.is_whole) }
{
    left == 0 && lexed.is_whole
}

/// The fault where no sentence goes on with so many tokens left.
fn stopped(lexed: &Lexed, left: usize) -> ReadError
    ensures { result ≡ error.NotNet (spec.offset_at lexed.now (length lexed.now.tokens - left)) }
{
    let read = lexed.tokens.len().saturating_sub(left);
    ReadError::NotNet {
        offset: offset_at(lexed, read),
    }
}

/// The offset of a place of the net that the tokens spell.
fn offset_of(lexed: &Lexed, length: usize, net: &Net, place: Place) -> Result<usize, AllocError>
    ensures { IfOk result (spec.IsOffset lexed.now length net.now place) }
{
    match place {
        Place::End => Ok(length),
        Place::Part { number, part } => {
            let token = token_of(net.modules.as_slice(), number, part)?;
            Ok(offset_at(lexed, token))
        }
    }
}

/// The net that all the tokens of the text spell, where a simulator runs it.
fn judged(alloc: Global, lexed: &Lexed, length: usize, net: Net) -> Result<Net, ReadError>
    requires { IsFilled net.modules }
    ensures ok { IfOk result (λ n. (n ≡ net) × IsSimulated net) }
    ensures fault { IfErr result (spec.TellsPlace lexed.now length net) }
{
    match fault_of(alloc, &net)? {
        None => Ok(net),
        Some(place) => Err(ReadError::NotNet {
            offset: offset_of(lexed, length, &net, place)?,
        }),
    }
}

/// The net that the bytes spell, where a simulator runs it: a well-formed one with a module `top` that has the ports `clk` and `done` of one bit, at
/// most one input `en`, inputs `pref_0`, `pref_1` and so on of 4 to 64 bits, and no others.
///
/// A text whose statements stand in one another more than [`NESTING_LIMIT`] deep is answered `Memory`.
pub fn read(alloc: Global, text: &[u8]) -> Result<Net, ReadError>
    ensures ok { IfOk result (λ n. IsRead text.now n) }
    ensures not_net { IfErr result (spec.TellsNotNet text.now) }
    ensures every { (n : tree_net.Net) → IsRead text.now n → spec.Finds n result }
{
    let lexed = lex(alloc, text)?;
    let mut cursor = Cursor::new(lexed.tokens.as_slice());
    match net(alloc, &mut cursor, NESTING_LIMIT + 1) {
        Ok(net) => {
            let left = cursor.left();
            if is_all_read(&lexed, left) {
                judged(alloc, &lexed, text.len(), net)
            } else {
                Err(stopped(&lexed, left))
            }
        }
        Err(Fault::Syntax) => Err(stopped(&lexed, cursor.left())),
        Err(Fault::Nesting(_)) | Err(Fault::Memory) => Err(ReadError::Memory),
    }
}
