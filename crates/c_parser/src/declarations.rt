// Declarations at file scope, and the text as a whole. The room of each is how many levels of nesting are left, its own
// among them.

ghost use Rattle.std.specs.Prelude.{◌≡◌};
ghost use Rattle.grammar.specs.Steps.{Steps};
ghost use Rattle.c_tree.specs.Tokens.{is_type_word};
ghost use Rattle.c_reading.specs.Tokens as tokens_of;
ghost use Rattle.c_reading.specs.Statements.{below};
ghost use Rattle.c_reading.specs.Declarations as spec;

use c_cursor::Cursor;
use c_expression_parser::expressions::specifiers;
use c_statement_parser::plain::{boxed, indices, inside, value};
use c_statement_parser::statements::{Bodies, statement};
use c_token::{Keyword, Punctuator};
use c_tree::{
    Block, ExternalDeclaration, Function, GlobalDeclaration, GlobalDeclarator, Initial,
    Initializer, Name, Parameter, Sign, TranslationUnit,
};
use grammar::{Fault, too_deep};
use sqlite_items::{Boxed, Items};
use std::alloc::Global;

// ---- parameters

/// Whether a `*` stands here.
#[tactic(auto, unfolding(c_reading::specs::Declarations::read_star))]
fn star(cursor: &mut Cursor<'_>) -> Result<bool, Fault>
    ensures { Steps (spec.read_star cursor.old) result cursor.new }
{
    if !cursor.sees(Sign::Mark(Punctuator::Star)) {
        return Ok(false);
    }
    cursor.mark(Punctuator::Star)?;
    Ok(true)
}

#[tactic(auto, unfolding(c_reading::specs::Declarations::read_parameter, c_reading::specs::Declarations::read_optional_name))]
fn parameter(alloc: Global, cursor: &mut Cursor<'_>) -> Result<Parameter, Fault>
    ensures { Steps (spec.read_parameter cursor.old) result cursor.new }
{
    let specifiers = specifiers(alloc, cursor)?;
    let is_pointer = star(cursor)?;
    if !cursor.sees_name() {
        return Ok(Parameter {
            specifiers,
            is_pointer,
            name: None,
        });
    }
    let name = cursor.name(alloc)?;
    Ok(Parameter {
        specifiers,
        is_pointer,
        name: Some(name),
    })
}

/// No parameter, or one or more with commas between them.
fn any_parameters(alloc: Global, cursor: &mut Cursor<'_>) -> Result<Items<Parameter>, Fault>
    ensures { Steps (tokens_of.read_any is_type_word spec.read_parameter cursor.old) result cursor.new }
{
    let mut found = Items::new(alloc);
    if !cursor.sees_type_word() {
        return Ok(found);
    }
    found.push(parameter(alloc, cursor)?)?;
    for _turn in 0..cursor.left() {
        if !cursor.sees(Sign::Mark(Punctuator::Comma)) {
            return Ok(found);
        }
        cursor.mark(Punctuator::Comma)?;
        found.push(parameter(alloc, cursor)?)?;
    }
    Ok(found)
}

/// Parameters in parentheses.
#[tactic(auto, unfolding(c_reading::specs::Declarations::read_parameters))]
fn parameters(
    alloc: Global,
    cursor: &mut Cursor<'_>,
    room: usize,
) -> Result<Items<Parameter>, Fault>
    ensures { Steps (spec.read_parameters room cursor.old) result cursor.new }
{
    if room == 0 {
        return Err(too_deep(cursor.sees(Sign::Mark(Punctuator::OpenRound)), false));
    }
    cursor.mark(Punctuator::OpenRound)?;
    let found = any_parameters(alloc, cursor)?;
    cursor.mark(Punctuator::CloseRound)?;
    Ok(found)
}

// ---- values in braces

#[tactic(auto, unfolding(c_reading::specs::Declarations::read_optional_comma))]
fn optional_comma(cursor: &mut Cursor<'_>) -> Result<Option<usize>, Fault>
    ensures { Steps (spec.read_optional_comma cursor.old) result cursor.new }
{
    if !cursor.sees(Sign::Mark(Punctuator::Comma)) {
        return Ok(None);
    }
    Ok(Some(cursor.mark(Punctuator::Comma)?))
}

/// A value, or several in braces.
#[cycle(initials)]
fn initial(alloc: Global, cursor: &mut Cursor<'_>, room: usize) -> Result<Boxed<Initial>, Fault>
    ensures { Steps (spec.read_initial room cursor.old) result cursor.new }
{
    if room == 0 {
        return Err(too_deep(cursor.begins_initial(), cursor.opens_initial()));
    }
    if cursor.sees(Sign::Mark(Punctuator::OpenCurly)) {
        let (found, offset) = braces(alloc, cursor, room - 1)?;
        boxed(alloc, Initial::List(found, offset))
    } else {
        let value = value(alloc, cursor, room)?;
        boxed(alloc, Initial::Value(value))
    }
}

/// What stands behind the first one. A comma behind the last one is left.
#[cycle(initials)]
fn initials(
    alloc: Global,
    cursor: &mut Cursor<'_>,
    room: usize,
    first: Boxed<Initial>,
) -> Result<Items<Initial>, Fault>
    ensures { Steps (spec.read_initials (spec.read_initial room) room first cursor.old) result cursor.new }
{
    let mut found = Items::new(alloc);
    found.push(first.into_inner())?;
    for _turn in 0..cursor.left() {
        if !cursor.begins_next_initial() {
            return Ok(found);
        }
        cursor.mark(Punctuator::Comma)?;
        found.push(initial(alloc, cursor, room)?.into_inner())?;
    }
    Ok(found)
}

/// Values in braces, and the place of the first brace.
#[cycle(initials)]
#[tactic(auto, unfolding(c_reading::specs::Declarations::read_braces))]
fn braces(
    alloc: Global,
    cursor: &mut Cursor<'_>,
    room: usize,
) -> Result<(Items<Initial>, usize), Fault>
    ensures { Steps (spec.read_braces (spec.read_initial room) room cursor.old) result cursor.new }
{
    if room == 0 {
        return Err(too_deep(cursor.sees(Sign::Mark(Punctuator::OpenCurly)), false));
    }
    let offset = cursor.mark(Punctuator::OpenCurly)?;
    let first = initial(alloc, cursor, room)?;
    let found = initials(alloc, cursor, room, first)?;
    optional_comma(cursor)?;
    cursor.mark(Punctuator::CloseCurly)?;
    Ok((found, offset))
}

// ---- variables at file scope

/// `=` and what an object begins with, if there is one.
#[tactic(auto, unfolding(c_reading::specs::Declarations::read_optional_initializer, c_reading::specs::Declarations::read_initializer, c_reading::specs::Declarations::read_any_value, c_reading::specs::Declarations::read_list, c_reading::specs::Declarations::read_mutex, c_reading::specs::Declarations::read_value))]
fn optional_initializer(
    alloc: Global,
    cursor: &mut Cursor<'_>,
    room: usize,
) -> Result<Option<Initializer>, Fault>
    ensures { Steps (spec.read_optional_initializer room (below room) cursor.old) result cursor.new }
{
    if !cursor.sees(Sign::Mark(Punctuator::Assign)) {
        return Ok(None);
    }
    cursor.mark(Punctuator::Assign)?;
    if cursor.sees(Sign::Mark(Punctuator::OpenCurly)) {
        let (found, offset) = braces(alloc, cursor, inside(room))?;
        Ok(Some(Initializer::List(found, offset)))
    } else if cursor.sees(Sign::Word(Keyword::MutexInitializer)) {
        cursor.word(Keyword::MutexInitializer)?;
        Ok(Some(Initializer::Mutex))
    } else {
        Ok(Some(Initializer::Value(value(alloc, cursor, room)?)))
    }
}

/// The variable whose name was read.
#[tactic(auto, unfolding(c_reading::specs::Declarations::read_global))]
fn global(
    alloc: Global,
    cursor: &mut Cursor<'_>,
    room: usize,
    name: Name,
) -> Result<GlobalDeclarator, Fault>
    ensures { Steps (spec.read_global room (below room) name cursor.old) result cursor.new }
{
    let lengths = indices(alloc, cursor, inside(room))?;
    let initializer = optional_initializer(alloc, cursor, room)?;
    Ok(GlobalDeclarator {
        name,
        lengths,
        initializer,
    })
}

/// The variables behind the first one.
fn globals(
    alloc: Global,
    cursor: &mut Cursor<'_>,
    room: usize,
    first: GlobalDeclarator,
) -> Result<Items<GlobalDeclarator>, Fault>
    ensures { Steps (spec.read_globals room (below room) first cursor.old) result cursor.new }
{
    let mut found = Items::new(alloc);
    found.push(first)?;
    for _turn in 0..cursor.left() {
        if !cursor.sees(Sign::Mark(Punctuator::Comma)) {
            return Ok(found);
        }
        cursor.mark(Punctuator::Comma)?;
        let name = cursor.name(alloc)?;
        found.push(global(alloc, cursor, room, name)?)?;
    }
    Ok(found)
}

// ---- functions, and the text as a whole

/// A body, or the `;` of a prototype.
#[tactic(auto, unfolding(c_reading::specs::Declarations::read_body, c_reading::specs::Declarations::read_defined, c_reading::specs::Declarations::read_prototype))]
fn body(alloc: Global, cursor: &mut Cursor<'_>, room: usize) -> Result<Option<Block>, Fault>
    ensures { Steps (spec.read_body room (below room) cursor.old) result cursor.new }
{
    if cursor.sees(Sign::Mark(Punctuator::OpenCurly)) {
        let bodies = Bodies {
            alloc,
            read: statement,
        };
        Ok(Some(bodies.block(cursor, inside(room))?))
    } else {
        cursor.mark(Punctuator::Semicolon)?;
        Ok(None)
    }
}

/// A function, or the variables of a declaration.
#[tactic(auto, unfolding(c_reading::specs::Declarations::read_external, c_reading::specs::Declarations::read_function, c_reading::specs::Declarations::read_objects))]
fn external(
    alloc: Global,
    cursor: &mut Cursor<'_>,
    room: usize,
) -> Result<Boxed<ExternalDeclaration>, Fault>
    ensures { Steps (spec.read_external room (below room) cursor.old) result cursor.new }
{
    let specifiers = specifiers(alloc, cursor)?;
    let is_pointer = star(cursor)?;
    let name = cursor.name(alloc)?;
    if cursor.sees(Sign::Mark(Punctuator::OpenRound)) {
        let parameters = parameters(alloc, cursor, inside(room))?;
        let body = body(alloc, cursor, room)?;
        let function = ExternalDeclaration::Function(Function {
            specifiers,
            is_pointer,
            name,
            parameters,
            body,
        });
        return Ok(Boxed::new(alloc, function)?);
    }
    let first = global(alloc, cursor, room, name)?;
    let declarators = globals(alloc, cursor, room, first)?;
    cursor.mark(Punctuator::Semicolon)?;
    let objects = ExternalDeclaration::Objects(GlobalDeclaration {
        specifiers,
        is_pointer,
        declarators,
    });
    Ok(Boxed::new(alloc, objects)?)
}

/// The declarations behind the first one.
fn externals(
    alloc: Global,
    cursor: &mut Cursor<'_>,
    room: usize,
    first: Boxed<ExternalDeclaration>,
) -> Result<Items<ExternalDeclaration>, Fault>
    ensures { Steps (spec.read_externals room (below room) first cursor.old) result cursor.new }
{
    let mut found = Items::new(alloc);
    found.push(first.into_inner())?;
    for _turn in 0..cursor.left() {
        if !cursor.sees_type_word() {
            return Ok(found);
        }
        found.push(external(alloc, cursor, room)?.into_inner())?;
    }
    Ok(found)
}

/// A whole text, its end included.
#[tactic(auto, unfolding(c_reading::specs::Declarations::read_unit))]
pub fn unit(alloc: Global, cursor: &mut Cursor<'_>, room: usize) -> Result<TranslationUnit, Fault>
    ensures { Steps (spec.read_unit room (below room) cursor.old) result cursor.new }
{
    let first = external(alloc, cursor, room)?;
    let declarations = externals(alloc, cursor, room, first)?;
    cursor.expect(Sign::End)?;
    Ok(TranslationUnit { declarations })
}
