// Statements with no statement in them, declarations in a block, and the heads of control statements. The room of each
// is how many levels of nesting are left, its own among them.

ghost use Rattle.std.specs.Prelude.{◌≡◌, List};
ghost use Rattle.grammar.specs.Readers.{and_then, reads_pure};
ghost use Rattle.grammar.specs.Steps.{Steps};
ghost use Rattle.c_token.specs.declared.token.Token.{Token};
ghost use Rattle.c_reading.specs.Tokens as tokens_of;
ghost use Rattle.c_reading.specs.Expressions as expressions_of;
ghost use Rattle.c_reading.specs.Statements as spec;

use c_cursor::Cursor;
use c_expression_parser::expressions::{Part, Rules, expression, null, specifiers};
use c_token::{Keyword, Punctuator};
use c_tree::{
    Call, CaseLabel, Declaration, Declarator, Expression, ForStart, Name, Place, Returned, Sign,
    SimpleForm, SimpleStatement, Statement,
};
use grammar::{Fault, too_deep};
use sqlite_items::{Boxed, Items};
use std::alloc::Global;

/// How many levels are left inside of the phrase.
#[tactic(auto, using(crate::proofs::Below::below_is))]
pub fn inside(room: usize) -> usize
    ensures { result ≡ spec.below room }
{
    room.saturating_sub(1)
}

/// The value in a box of its own.
pub fn boxed<T: Drop>(alloc: Global, value: T) -> Result<Boxed<T>, Fault>
    ensures { (ts : List Token) → Steps (reads_pure value ts) result ts }
{
    Ok(Boxed::new(alloc, value)?)
}

// ---- what is read of expressions

pub fn value(
    alloc: Global,
    cursor: &mut Cursor<'_>,
    room: usize,
) -> Result<Boxed<Expression>, Fault>
    ensures { Steps (expressions_of.read_expr room cursor.old) result cursor.new }
{
    expression(alloc, cursor, room, Part::Whole)
}

/// Indices or lengths, each in brackets: none, or up to three.
pub fn indices(
    alloc: Global,
    cursor: &mut Cursor<'_>,
    room: usize,
) -> Result<Items<Expression>, Fault>
    ensures { Steps (expressions_of.read_indices (expressions_of.read_expr room) room cursor.old) result cursor.new }
{
    let rules = Rules {
        alloc,
        read: expression,
    };
    rules.indices(cursor, room)
}

// ---- simple statements

/// The call whose name was read.
#[tactic(auto, unfolding(c_reading::specs::Statements::read_called))]
fn called(
    alloc: Global,
    cursor: &mut Cursor<'_>,
    room: usize,
    name: Name,
) -> Result<Boxed<SimpleStatement>, Fault>
    ensures { Steps (spec.read_called room (spec.below room) name cursor.old) result cursor.new }
{
    let offset = name.offset;
    let rules = Rules {
        alloc,
        read: expression,
    };
    let arguments = rules.arguments(cursor, inside(room))?;
    let form = SimpleForm::Call(Call { name, arguments });
    boxed(alloc, SimpleStatement { form, offset })
}

/// What changes the place whose name was read: `++` or `--` behind it, or an assignment.
#[tactic(auto, unfolding(c_reading::specs::Statements::read_changed, c_reading::specs::Statements::read_step_behind, c_reading::specs::Statements::read_assigned))]
fn changed(
    alloc: Global,
    cursor: &mut Cursor<'_>,
    room: usize,
    name: Name,
) -> Result<Boxed<SimpleStatement>, Fault>
    ensures { Steps (spec.read_changed room (spec.below room) name cursor.old) result cursor.new }
{
    let offset = name.offset;
    let indices = indices(alloc, cursor, inside(room))?;
    let place = Place { name, indices };
    if cursor.sees_direction() {
        let form = SimpleForm::Step(place, cursor.way()?);
        return boxed(alloc, SimpleStatement { form, offset });
    }
    let operator = cursor.assignment_operator()?;
    let value = value(alloc, cursor, room)?;
    let form = SimpleForm::Assign(place, operator, value);
    boxed(alloc, SimpleStatement { form, offset })
}

/// Reads an assignment, a step or a call.
#[tactic(auto, unfolding(c_reading::specs::Statements::read_simple, c_reading::specs::Statements::read_step_before, c_reading::specs::Statements::read_on_name))]
pub fn simple(
    alloc: Global,
    cursor: &mut Cursor<'_>,
    room: usize,
) -> Result<Boxed<SimpleStatement>, Fault>
    ensures { Steps (spec.read_simple room (spec.below room) cursor.old) result cursor.new }
{
    if cursor.sees_direction() {
        let (direction, offset) = cursor.direction()?;
        let rules = Rules {
            alloc,
            read: expression,
        };
        let place = rules.place(cursor, inside(room))?;
        let form = SimpleForm::Step(place, direction);
        return boxed(alloc, SimpleStatement { form, offset });
    }
    let name = cursor.name(alloc)?;
    if cursor.sees(Sign::Mark(Punctuator::OpenRound)) {
        called(alloc, cursor, room, name)
    } else {
        changed(alloc, cursor, room, name)
    }
}

// ---- declarations in a block

/// `=` and a value, if there is one.
#[tactic(auto, unfolding(c_reading::specs::Statements::read_optional_value, c_reading::specs::Statements::read_value))]
fn optional_value(
    alloc: Global,
    cursor: &mut Cursor<'_>,
    room: usize,
) -> Result<Option<Boxed<Expression>>, Fault>
    ensures { Steps (spec.read_optional_value room (spec.below room) cursor.old) result cursor.new }
{
    if !cursor.sees(Sign::Mark(Punctuator::Assign)) {
        return Ok(None);
    }
    cursor.mark(Punctuator::Assign)?;
    Ok(Some(value(alloc, cursor, room)?))
}

#[tactic(auto, unfolding(c_reading::specs::Statements::read_declarator))]
fn declarator(
    alloc: Global,
    cursor: &mut Cursor<'_>,
    room: usize,
) -> Result<Boxed<Declarator>, Fault>
    ensures { Steps (spec.read_declarator room (spec.below room) cursor.old) result cursor.new }
{
    let name = cursor.name(alloc)?;
    let lengths = indices(alloc, cursor, inside(room))?;
    let initializer = optional_value(alloc, cursor, room)?;
    let declarator = Declarator {
        name,
        lengths,
        initializer,
    };
    boxed(alloc, declarator)
}

/// One or more declarators, with commas between them.
fn declarators(
    alloc: Global,
    cursor: &mut Cursor<'_>,
    room: usize,
) -> Result<Items<Declarator>, Fault>
    ensures { Steps (tokens_of.read_listed (spec.read_declarator room (spec.below room)) cursor.old) result cursor.new }
{
    let mut found = Items::new(alloc);
    found.push(declarator(alloc, cursor, room)?.into_inner())?;
    for _turn in 0..cursor.left() {
        if !cursor.sees(Sign::Mark(Punctuator::Comma)) {
            return Ok(found);
        }
        cursor.mark(Punctuator::Comma)?;
        found.push(declarator(alloc, cursor, room)?.into_inner())?;
    }
    Ok(found)
}

/// Variables of a block, the `;` included.
#[tactic(auto, unfolding(c_reading::specs::Statements::read_declaration))]
pub fn declaration(
    alloc: Global,
    cursor: &mut Cursor<'_>,
    room: usize,
) -> Result<Declaration, Fault>
    ensures { Steps (spec.read_declaration room (spec.below room) cursor.old) result cursor.new }
{
    let specifiers = specifiers(alloc, cursor)?;
    let declarators = declarators(alloc, cursor, room)?;
    cursor.mark(Punctuator::Semicolon)?;
    Ok(Declaration {
        specifiers,
        declarators,
    })
}

// ---- statements with no statement in them

/// The statement, with the `;` behind it.
fn ended(
    alloc: Global,
    cursor: &mut Cursor<'_>,
    statement: Statement,
) -> Result<Boxed<Statement>, Fault>
    ensures { Steps (and_then (tokens_of.expect (Sign.Mark Punctuator.Semicolon) cursor.old) (λ _. reads_pure statement)) result cursor.new }
{
    let statement = Boxed::new(alloc, statement)?;
    cursor.mark(Punctuator::Semicolon)?;
    Ok(statement)
}

/// What a `return` gives back.
#[tactic(auto, unfolding(c_reading::specs::Statements::read_returned, c_reading::specs::Statements::read_returned_null, c_reading::specs::Statements::read_returned_pointer, c_reading::specs::Statements::read_returned_value))]
fn returned(alloc: Global, cursor: &mut Cursor<'_>, room: usize) -> Result<Boxed<Returned>, Fault>
    ensures { Steps (spec.read_returned room (spec.below room) cursor.old) result cursor.new }
{
    if cursor.sees(Sign::Word(Keyword::Null)) {
        let pointer = null(cursor)?;
        boxed(alloc, Returned::Pointer(pointer))
    } else if cursor.begins_conversion_to_pointer() {
        let rules = Rules {
            alloc,
            read: expression,
        };
        let pointer = rules.converted_pointer(cursor, inside(room))?;
        boxed(alloc, Returned::Pointer(pointer))
    } else if cursor.begins_cast() {
        let value = value(alloc, cursor, room)?;
        boxed(alloc, Returned::Value(value))
    } else {
        boxed(alloc, Returned::Nothing)
    }
}

/// A statement with no other in it, by its first word or mark.
#[tactic(auto, unfolding(c_reading::specs::Statements::read_plain, c_reading::specs::Statements::read_empty, c_reading::specs::Statements::read_break, c_reading::specs::Statements::read_continue, c_reading::specs::Statements::read_return, c_reading::specs::Statements::read_simple_statement))]
pub fn plain_statement(
    alloc: Global,
    cursor: &mut Cursor<'_>,
    room: usize,
) -> Result<Boxed<Statement>, Fault>
    ensures { Steps (spec.read_plain room (spec.below room) cursor.old) result cursor.new }
{
    if cursor.sees(Sign::Mark(Punctuator::Semicolon)) {
        ended(alloc, cursor, Statement::Empty)
    } else if cursor.sees(Sign::Word(Keyword::Break)) {
        let offset = cursor.word(Keyword::Break)?;
        ended(alloc, cursor, Statement::Break(offset))
    } else if cursor.sees(Sign::Word(Keyword::Continue)) {
        let offset = cursor.word(Keyword::Continue)?;
        ended(alloc, cursor, Statement::Continue(offset))
    } else if cursor.sees(Sign::Word(Keyword::Return)) {
        let offset = cursor.word(Keyword::Return)?;
        let returned = returned(alloc, cursor, room)?;
        ended(
            alloc,
            cursor,
            Statement::Return(returned.into_inner(), offset),
        )
    } else {
        let simple = simple(alloc, cursor, room)?;
        ended(alloc, cursor, Statement::Simple(simple))
    }
}

// ---- the heads of control statements

/// Reads the condition of a control statement, with its parentheses.
#[tactic(auto, unfolding(c_reading::specs::Statements::read_condition))]
pub fn condition(
    alloc: Global,
    cursor: &mut Cursor<'_>,
    room: usize,
) -> Result<Boxed<Expression>, Fault>
    ensures { Steps (spec.read_condition room cursor.old) result cursor.new }
{
    if room == 0 {
        return Err(too_deep(cursor.sees(Sign::Mark(Punctuator::OpenRound)), false));
    }
    cursor.mark(Punctuator::OpenRound)?;
    let value = value(alloc, cursor, room)?;
    cursor.mark(Punctuator::CloseRound)?;
    Ok(value)
}

/// What the head of a `for` begins with, the `;` behind it included.
#[tactic(auto, unfolding(c_reading::specs::Statements::read_for_start, c_reading::specs::Statements::read_declared_start, c_reading::specs::Statements::read_simple_start, c_reading::specs::Statements::read_no_start))]
fn for_start(alloc: Global, cursor: &mut Cursor<'_>, room: usize) -> Result<Boxed<ForStart>, Fault>
    ensures { Steps (spec.read_for_start room (spec.below room) cursor.old) result cursor.new }
{
    if cursor.sees_type_word() {
        let declaration = declaration(alloc, cursor, room)?;
        boxed(alloc, ForStart::Declaration(declaration))
    } else if cursor.begins_simple() {
        let simple = simple(alloc, cursor, room)?;
        cursor.mark(Punctuator::Semicolon)?;
        boxed(alloc, ForStart::Simple(simple))
    } else {
        cursor.mark(Punctuator::Semicolon)?;
        boxed(alloc, ForStart::Nothing)
    }
}

#[tactic(auto, unfolding(c_reading::specs::Statements::read_optional_expr))]
fn optional_expression(
    alloc: Global,
    cursor: &mut Cursor<'_>,
    room: usize,
) -> Result<Option<Boxed<Expression>>, Fault>
    ensures { Steps (spec.read_optional_expr room (spec.below room) cursor.old) result cursor.new }
{
    if !cursor.begins_cast() {
        return Ok(None);
    }
    Ok(Some(value(alloc, cursor, room)?))
}

#[tactic(auto, unfolding(c_reading::specs::Statements::read_optional_simple))]
fn optional_simple(
    alloc: Global,
    cursor: &mut Cursor<'_>,
    room: usize,
) -> Result<Option<Boxed<SimpleStatement>>, Fault>
    ensures { Steps (spec.read_optional_simple room (spec.below room) cursor.old) result cursor.new }
{
    if !cursor.begins_simple() {
        return Ok(None);
    }
    Ok(Some(simple(alloc, cursor, room)?))
}

/// The start, the condition and the step of a `for`.
#[tactic(auto, unfolding(c_reading::specs::Statements::read_for_head, c_reading::specs::Statements::read_for_condition, c_reading::specs::Statements::read_for_step))]
pub fn for_head(
    alloc: Global,
    cursor: &mut Cursor<'_>,
    room: usize,
) -> Result<
    (
        Boxed<ForStart>,
        Option<Boxed<Expression>>,
        Option<Boxed<SimpleStatement>>,
    ),
    Fault,
>
    ensures { Steps (spec.read_for_head room cursor.old) result cursor.new }
{
    if room == 0 {
        return Err(too_deep(cursor.sees(Sign::Mark(Punctuator::OpenRound)), false));
    }
    cursor.mark(Punctuator::OpenRound)?;
    let start = for_start(alloc, cursor, room)?;
    let condition = optional_expression(alloc, cursor, room)?;
    cursor.mark(Punctuator::Semicolon)?;
    let step = optional_simple(alloc, cursor, room)?;
    cursor.mark(Punctuator::CloseRound)?;
    Ok((start, condition, step))
}

// ---- labels

/// Reads the label of a switch, its colon included (C99 6.8.1).
#[tactic(auto, unfolding(c_reading::specs::Statements::read_label, c_reading::specs::Statements::read_case, c_reading::specs::Statements::read_default))]
pub fn label(alloc: Global, cursor: &mut Cursor<'_>, room: usize) -> Result<CaseLabel, Fault>
    ensures { Steps (spec.read_label room cursor.old) result cursor.new }
{
    if cursor.sees(Sign::Word(Keyword::Case)) {
        let offset = cursor.word(Keyword::Case)?;
        let value = value(alloc, cursor, room)?;
        cursor.mark(Punctuator::Colon)?;
        return Ok(CaseLabel {
            value: Some(value),
            offset,
        });
    }
    let offset = cursor.word(Keyword::Default)?;
    cursor.mark(Punctuator::Colon)?;
    Ok(CaseLabel {
        value: None,
        offset,
    })
}
