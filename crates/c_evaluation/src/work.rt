// What a call has still to do, and the order in which it is done (C99 6.8).
ghost use Rattle.std.specs.Prelude.{◌≡◌, ◌∷◌, IfOk};
ghost use Rattle.c_program.specs.Plain.{statement_of, boxed_statement_of};
ghost use Rattle.c_program.specs.Tree.{Statement as Statements};
ghost use Rattle.thread_semantics.specs.Work.{Next, Turn, Onward, in_loop, opened, asked, next_turn, settled, decided, noted, same_label, from_label, switched};
ghost use Rattle.c_evaluation.specs.View.{item_of, loop_of, work_of};
ghost use Rattle.c_evaluation.specs.Opened.{IsOpened, IsPassed, IsFound};

use c_program::tree::{Piece, Statement};
use std::alloc::AllocError;
use std::collections::VecDeque;

/// A loop: its condition, what ends each turn (the last part of the head of a `for`), and its body.
#[derive(Clone, Copy)]
pub struct Loop<'p> {
    pub condition: &'p Box<Statement>,
    pub last: Option<&'p Box<Statement>>,
    pub body: &'p Box<Statement>,
}

/// The act of printf or of a pthread call, without its operands.
#[derive(Clone, Copy)]
pub enum Act<'p> {
    Print(&'p [Piece]),
    /// The number of the start routine.
    Create(u32),
    Join,
    MutexInit,
    MutexDestroy,
    MutexLock,
    MutexUnlock,
    BarrierInit,
    BarrierDestroy,
    BarrierWait,
}

/// One item of what a call has still to do.
#[derive(Clone, Copy)]
pub enum Item<'p> {
    Do(&'p Statement),
    /// The rest of a `&&`, which waits for the truth of the operand before it.
    ThenBoth(&'p Box<Statement>),
    /// The rest of a `||`.
    ThenEither(&'p Box<Statement>),
    /// The truth turns into its opposite.
    ThenOpposite,
    /// The two ways of an `if` whose condition is asked.
    Choose(&'p Box<Statement>, &'p Box<Statement>),
    /// A loop whose condition is asked.
    Turn(Loop<'p>),
    /// The local that keeps the truth of a `&&` or `||` that is a value.
    Note(u32),
    /// The end of the body of a loop.
    Next(Loop<'p>),
    /// The end of the body of a switch.
    Past,
    /// The value of a call that is waited for is kept in a local, or dropped.
    Take(Option<u32>),
    /// An act whose operands are evaluated.
    Perform(u32, Act<'p>),
}

/// How work is gone through: in order, out of the innermost loop or switch, or to the end of the body of the innermost
/// loop.
#[derive(Clone, Copy)]
pub(crate) enum Going {
    Onward,
    Leaving,
    Turning,
}

/// An item is done first.
pub fn put<'p>(work: &mut VecDeque<Item<'p>>, item: Item<'p>) -> Result<(), AllocError>
    ensures { IfOk result (λ _. work_of work.new.items ≡ item_of item.entry ∷ work_of work.old.items) }
{
    work.push_front(item)?;
    Ok(())
}

/// Opens a part of a statement before an item that waits for it.
#[cycle(opening)]
fn open_before<'p>(
    part: &'p Statement,
    item: Item<'p>,
    work: &mut VecDeque<Item<'p>>,
) -> Result<Option<Going>, AllocError>
    ensures { IfOk result (λ going. IsOpened (opened (statement_of part.now) (item_of item.entry ∷ work_of work.old.items)) (work_of work.old.items) (work_of work.new.items) going) }
{
    put(work, item)?;
    match open(part, work)? {
        Some(going) => {
            work.pop_front();
            Ok(Some(going))
        }
        None => Ok(None),
    }
}

/// Opens a statement and, where nothing of it takes a step, the one after it.
#[cycle(opening)]
fn open_both<'p>(
    first: &'p Statement,
    next: &'p Statement,
    work: &mut VecDeque<Item<'p>>,
) -> Result<Option<Going>, AllocError>
    ensures { IfOk result (λ going. IsOpened (opened (Statements.Sequence (statement_of first.now) (statement_of next.now)) (work_of work.old.items)) (work_of work.old.items)
        (work_of work.new.items) going) }
{
    match open_before(first, Item::Do(next), work)? {
        None => Ok(None),
        Some(Going::Onward) => open(next, work),
        Some(Going::Leaving) => Ok(Some(Going::Leaving)),
        Some(Going::Turning) => Ok(Some(Going::Turning)),
    }
}

/// Opens what stands before a loop, and its condition after that.
#[cycle(opening)]
fn open_for<'p>(
    first: &'p Statement,
    looping: Loop<'p>,
    work: &mut VecDeque<Item<'p>>,
) -> Result<Option<Going>, AllocError>
    ensures { IfOk result (λ going. IsOpened (opened (Statements.Sequence (statement_of first.now) (loop_of looping.entry).condition) (Turn (loop_of looping.entry) ∷ work_of work.old.items))
        (work_of work.old.items) (work_of work.new.items) going) }
{
    put(work, Item::Turn(looping))?;
    match open_both(first, looping.condition, work)? {
        Some(going) => {
            work.pop_front();
            Ok(Some(going))
        }
        None => Ok(None),
    }
}

/// Opens the body of a `do`, and its condition after that.
#[cycle(opening)]
fn open_do<'p>(
    looping: Loop<'p>,
    work: &mut VecDeque<Item<'p>>,
) -> Result<Option<Going>, AllocError>
    ensures { IfOk result (λ going. IsOpened (λ rest. opened (loop_of looping.entry).body (Next (loop_of looping.entry) ∷ work_of work.old.items)
        (λ g. in_loop g (asked (loop_of looping.entry) (work_of work.old.items) rest) rest)) (work_of work.old.items) (work_of work.new.items) going) }
{
    match open_before(looping.body, Item::Next(looping), work)? {
        None => Ok(None),
        Some(Going::Leaving) => Ok(Some(Going::Onward)),
        Some(Going::Onward) | Some(Going::Turning) => {
            open_before(looping.condition, Item::Turn(looping), work)
        }
    }
}

/// Puts a statement before the work as items of which the first takes a step. Where nothing of the statement takes one, the
/// work stays, and the answer is how it is gone through.
#[cycle(opening)]
fn open<'p>(
    statement: &'p Statement,
    work: &mut VecDeque<Item<'p>>,
) -> Result<Option<Going>, AllocError>
    ensures { IfOk result (λ going. IsOpened (opened (statement_of statement.now) (work_of work.old.items)) (work_of work.old.items) (work_of work.new.items) going) }
{
    match statement {
        Statement::Done | Statement::Empty | Statement::Label(_, _) => Ok(Some(Going::Onward)),
        Statement::Break => Ok(Some(Going::Leaving)),
        Statement::Continue => Ok(Some(Going::Turning)),
        Statement::Block(body) => open(body, work),
        Statement::Sequence(first, next) => open_both(first, next, work),
        Statement::Truth(slot, condition) => open_before(condition, Item::Note(*slot), work),
        Statement::Both(first, second) => open_before(first, Item::ThenBoth(second), work),
        Statement::Either(first, second) => open_before(first, Item::ThenEither(second), work),
        Statement::Opposite(inner) => open_before(inner, Item::ThenOpposite, work),
        Statement::If(condition, consequent, alternative) => {
            open_before(condition, Item::Choose(consequent, alternative), work)
        }
        Statement::While(condition, body) => {
            open_before(
                condition,
                Item::Turn(Loop {
                    condition,
                    last: None,
                    body,
                }),
                work,
            )
        }
        Statement::DoWhile(body, condition) => open_do(
            Loop {
                condition,
                last: None,
                body,
            },
            work,
        ),
        Statement::For(first, condition, last, body) => {
            open_for(
                first,
                Loop {
                    condition,
                    last: Some(last),
                    body,
                },
                work,
            )
        }
        _ => {
            put(work, Item::Do(statement))?;
            Ok(None)
        }
    }
}

/// The end of the body of a loop.
fn turn<'p>(looping: Loop<'p>, work: &mut VecDeque<Item<'p>>) -> Result<Option<Going>, AllocError>
    ensures { IfOk result (λ going. IsOpened (next_turn (loop_of looping.entry) (work_of work.old.items)) (work_of work.old.items) (work_of work.new.items) going) }
{
    match looping.last {
        None => open_before(looping.condition, Item::Turn(looping), work),
        Some(last) => open_for(last, looping, work),
    }
}

/// Goes through an item before the work; answers how the work is gone through then, or that an item is at the front that
/// takes a step.
fn pass<'p>(
    going: Going,
    item: Item<'p>,
    work: &mut VecDeque<Item<'p>>,
) -> Result<Option<Going>, AllocError>
    ensures { IfOk result (λ next. IsPassed going (item_of item.entry ∷ work_of work.old.items) (work_of work.old.items) (work_of work.new.items) next) }
{
    match going {
        Going::Onward => match item {
            Item::Do(statement) => open(statement, work),
            Item::Next(looping) => turn(looping, work),
            Item::Past => Ok(Some(Going::Onward)),
            _ => {
                put(work, item)?;
                Ok(None)
            }
        },
        Going::Leaving => match item {
            Item::Next(_) | Item::Past => Ok(Some(Going::Onward)),
            _ => Ok(Some(Going::Leaving)),
        },
        Going::Turning => match item {
            Item::Next(looping) => turn(looping, work),
            _ => Ok(Some(Going::Turning)),
        },
    }
}

/// Brings an item to the front that takes a step.
pub fn settle<'p>(work: &mut VecDeque<Item<'p>>) -> Result<(), AllocError>
    ensures { IfOk result (λ _. work_of work.new.items ≡ settled Onward (work_of work.old.items)) }
{
    let mut going = Going::Onward;
    while let Some(item) = work.pop_front() {
        match pass(going, item, work)? {
            None => return Ok(()),
            Some(next) => going = next,
        }
    }
    Ok(())
}

/// Goes on after an operand of a condition, which was true or false.
pub fn decide<'p>(work: &mut VecDeque<Item<'p>>, truth: bool) -> Result<(), AllocError>
    ensures { IfOk result (λ _. work_of work.new.items ≡ decided truth (work_of work.old.items)) }
{
    let mut value = truth;
    while let Some(item) = work.pop_front() {
        match item {
            Item::ThenBoth(second) => {
                if value {
                    put(work, Item::Do(second))?;
                    return settle(work);
                }
            }
            Item::ThenEither(second) => {
                if !value {
                    put(work, Item::Do(second))?;
                    return settle(work);
                }
            }
            Item::ThenOpposite => value = !value,
            Item::Choose(consequent, alternative) => {
                let way = if value { consequent } else { alternative };
                put(work, Item::Do(way))?;
                return settle(work);
            }
            Item::Turn(looping) => {
                if value {
                    put(work, Item::Next(looping))?;
                    put(work, Item::Do(looping.body))?;
                }
                return settle(work);
            }
            Item::Note(_) => return settle(work),
            _ => {
                put(work, item)?;
                return settle(work);
            }
        }
    }
    Ok(())
}

/// Where an operand is one of a `&&` or `||` that is a value: the local that keeps its truth, and the truth that it has if
/// this operand decides it.
pub fn noted(work: &VecDeque<Item>, truth: bool) -> Option<(u32, bool)>
    ensures { result ≡ noted truth (work_of work.now.items) }
{
    let mut value = truth;
    for k in 0..work.len() {
        match work.get(k) {
            Some(Item::ThenBoth(_)) | Some(Item::ThenEither(_)) => {}
            Some(Item::ThenOpposite) => value = !value,
            Some(Item::Note(slot)) => return Some((*slot, value)),
            _ => return None,
        }
    }
    None
}

/// Whether two labels are the same case, or both default.
fn same_label(a: Option<i128>, b: Option<i128>) -> bool
    ensures { result ≡ same_label a b }
{
    match a {
        None => b.is_none(),
        Some(v) => match b {
            None => false,
            Some(w) => v == w,
        },
    }
}

/// Puts what comes behind a label of a switch's body before the work; answers whether the label is there.
fn find_label<'p>(
    label: Option<i128>,
    statement: &'p Statement,
    work: &mut VecDeque<Item<'p>>,
) -> Result<bool, AllocError>
    ensures { IfOk result (λ found. IsFound (from_label label (statement_of statement.now) (work_of work.old.items)) (work_of work.old.items) (work_of work.new.items) found) }
{
    match statement {
        Statement::Sequence(first, rest) => {
            put(work, Item::Do(rest))?;
            if find_label(label, first, work)? {
                return Ok(true);
            }
            work.pop_front();
            find_label(label, rest, work)
        }
        Statement::Label(value, _) => Ok(same_label(label, *value)),
        _ => Ok(false),
    }
}

/// A switch over a value goes on at its label, else at default, else past its body (C99 6.8.4.2).
pub fn switch<'p>(
    value: i128,
    body: &'p Box<Statement>,
    work: &mut VecDeque<Item<'p>>,
) -> Result<(), AllocError>
    ensures { IfOk result (λ _. work_of work.new.items ≡ switched value (boxed_statement_of body.now) (work_of work.old.items)) }
{
    put(work, Item::Past)?;
    if !find_label(Some(value), body, work)? {
        find_label(None, body, work)?;
    }
    settle(work)
}
