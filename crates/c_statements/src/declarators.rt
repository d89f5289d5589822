// How many declarators the body of a function has (C99 6.7.5, 6.8.2).

ghost use Rattle.std.specs.Prelude.{◌≡◌, fold, map, option_map, unwrap_or};
ghost use Rattle.c_rules.specs.Constants.{plus};
ghost use Rattle.c_resolution.specs.Declarators as spec;

use c_rules::findings::place;
use c_tree::{Block, BlockItem, ForStart, Group, Statement};
use sqlite_items::Boxed;

/// The declarators in the head of a `for`.
fn in_start(start: &ForStart) -> u32
    ensures { result ≡ spec.in_start start.now }
{
    match start {
        ForStart::Declaration(declared) => place(declared.declarators.len()),
        _ => 0,
    }
}

#[cycle(declarators)]
fn in_alternative(other: &Option<Boxed<Statement>>) -> u32
    ensures { result ≡ unwrap_or (option_map spec.statement_declarators other.now) 0 }
{
    match other {
        Some(inner) => in_statement(inner.get()),
        None => 0,
    }
}

#[cycle(declarators)]
fn in_statement(statement: &Statement) -> u32
    ensures { result ≡ spec.statement_declarators statement.now }
{
    match statement {
        Statement::Block(inner) => block_declarators(inner),
        Statement::If(_, consequent, other) => {
            in_statement(consequent.get()).saturating_add(in_alternative(other))
        }
        Statement::While(_, body) | Statement::DoWhile(body, _) => in_statement(body.get()),
        Statement::For(start, _, _, body) => {
            in_start(start.get()).saturating_add(in_statement(body.get()))
        }
        Statement::Empty
        | Statement::Simple(_)
        | Statement::Break(_)
        | Statement::Continue(_)
        | Statement::Return(_, _) => 0,
        Statement::Switch(_, groups, _) => in_groups(groups.as_slice()),
    }
}

#[cycle(declarators)]
fn in_group(group: &Group) -> u32
    ensures { result ≡ spec.group_declarators group.now }
{
    let mut count = 0u32;
    for statement in group.statements.as_slice() {
        count = count.saturating_add(in_statement(statement));
    }
    count
}

/// The declarators in the groups of a switch.
#[cycle(declarators)]
fn in_groups(groups: &[Group]) -> u32
    ensures { result ≡ fold plus 0 (map spec.group_declarators groups.now) }
{
    let mut count = 0u32;
    for group in groups {
        count = count.saturating_add(in_group(group));
    }
    count
}

#[cycle(declarators)]
fn in_item(item: &BlockItem) -> u32
    ensures { result ≡ spec.item_declarators item.now }
{
    match item {
        BlockItem::Declaration(declared) => place(declared.declarators.len()),
        BlockItem::Statement(inner) => in_statement(inner),
    }
}

/// The declarators of a block and of all that stands in it. The count stops at 2^32 - 1.
#[cycle(declarators)]
pub fn block_declarators(block: &Block) -> u32
    ensures { result ≡ spec.block_declarators block.now }
{
    let mut count = 0u32;
    for item in block.items.as_slice() {
        count = count.saturating_add(in_item(item));
    }
    count
}
