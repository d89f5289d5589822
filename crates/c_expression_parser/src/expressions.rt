// Expressions. The rules that refer to expressions take the function that reads those as a parameter, so that each is
// proved by itself.

ghost use Rattle.std.specs.Prelude.{◌≡◌, ◌-◌, ◌<◌, ◌≤◌, IfOk, List, [], reverse};
ghost use Rattle.grammar.specs.Readers.{and_then, appended, reads_pure};
ghost use Rattle.grammar.specs.Steps.{Steps};
ghost use Rattle.c_token.specs.declared.token.Token.{Token};
ghost use Rattle.c_tree.specs.Trees as tree;
ghost use Rattle.c_reading.specs.Tokens as tokens_of;
ghost use Rattle.c_reading.specs.Expressions as spec;
ghost use Rattle.c_expression_parser.specs.Nests.{Nests, read_part};

use c_cursor::Cursor;
use c_token::{Keyword, Punctuator};
use c_tree::{
    Argument, Call, Choice, Expression, Form, Place, Pointer, Sign, Specifiers, Term, TypeWord,
};
use grammar::{Fault, too_deep};
use sqlite_items::{Boxed, Items};
use std::alloc::{AllocError, Global};

/// How many levels of binary operators there are.
const LEVELS: usize = 10;

/// How many dimensions an array has at most.
const DIMENSIONS: usize = 3;

/// Which of the two rules that refer to themselves.
#[derive(Clone, Copy)]
pub enum Part {
    /// An operand of a binary operator.
    Operand,
    Whole,
}

/// The value in a box of its own.
fn boxed<T: Drop>(alloc: Global, value: T) -> Result<Boxed<T>, Fault>
    ensures { (ts : List Token) → Steps (reads_pure value ts) result ts }
{
    Ok(Boxed::new(alloc, value)?)
}

/// The operand with the terms that follow it.
fn joined(
    alloc: Global,
    first: Boxed<Expression>,
    terms: Items<Term>,
) -> Result<Boxed<Expression>, AllocError>
    ensures { IfOk result (λ e. e ≡ tree.joined first terms) }
{
    if terms.is_empty() {
        return Ok(first);
    }
    let offset = first.get().offset;
    let form = Form::Binary(first, terms);
    Boxed::new(alloc, Expression { offset, form })
}

fn words(alloc: Global, cursor: &mut Cursor<'_>, first: TypeWord) -> Result<Items<TypeWord>, Fault>
    ensures { Steps (tokens_of.read_words first cursor.old) result cursor.new }
{
    let mut found = Items::new(alloc);
    found.push(first)?;
    for _turn in 0..cursor.left() {
        if !cursor.sees_type_word() {
            return Ok(found);
        }
        found.push(cursor.type_word()?)?;
    }
    Ok(found)
}

/// One or more words of a type.
#[tactic(auto, unfolding(c_reading::specs::Tokens::read_specifiers))]
pub fn specifiers(alloc: Global, cursor: &mut Cursor<'_>) -> Result<Specifiers, Fault>
    ensures { Steps (tokens_of.read_specifiers cursor.old) result cursor.new }
{
    let (first, offset) = cursor.first_word()?;
    let words = words(alloc, cursor, first)?;
    Ok(Specifiers { words, offset })
}

/// Reads `NULL`.
#[tactic(auto, unfolding(c_reading::specs::Expressions::read_null))]
pub fn null(cursor: &mut Cursor<'_>) -> Result<Pointer, Fault>
    ensures { Steps (spec.read_null cursor.old) result cursor.new }
{
    let offset = cursor.word(Keyword::Null)?;
    Ok(Pointer {
        operand: None,
        offset,
    })
}

/// The rules of expressions, by the function that reads what is in them. The room of each is how many levels of nesting
/// are left inside of the phrase.
#[derive(Clone, Copy)]
pub struct Rules<F> {
    pub alloc: Global,
    pub read: F,
}

impl<F: Fn(Global, &mut Cursor<'_>, usize, Part) -> Result<Boxed<Expression>, Fault>> Rules<F> {
    /// An operand or an expression one level deeper.
    fn inside(
        &self,
        cursor: &mut Cursor<'_>,
        room: usize,
        part: Part,
    ) -> Result<Boxed<Expression>, Fault>
        requires { Nests room (F.pre self.now.read) (F.post self.now.read) }
        ensures { Steps (read_part part room cursor.old) result cursor.new }
    {
        (self.read)(self.alloc, cursor, room, part)
    }

    /// What stands between brackets.
    #[tactic(auto, unfolding(c_reading::specs::Expressions::read_index))]
    fn index(&self, cursor: &mut Cursor<'_>, room: usize) -> Result<Boxed<Expression>, Fault>
        requires { Nests room (F.pre self.now.read) (F.post self.now.read) }
        ensures { Steps (spec.read_index (spec.read_expr room) room cursor.old) result cursor.new }
    {
        if room == 0 {
            return Err(too_deep(cursor.sees(Sign::Mark(Punctuator::OpenSquare)), false));
        }
        cursor.mark(Punctuator::OpenSquare)?;
        let index = self.inside(cursor, room, Part::Whole)?;
        cursor.mark(Punctuator::CloseSquare)?;
        Ok(index)
    }

    /// The indices of an element (C99 6.5.2.1) or the lengths of an array (C99 6.7.5.2), each in brackets: none, or up to
    /// three.
    pub fn indices(&self, cursor: &mut Cursor<'_>, room: usize) -> Result<Items<Expression>, Fault>
        requires { Nests room (F.pre self.now.read) (F.post self.now.read) }
        ensures { Steps (spec.read_indices (spec.read_expr room) room cursor.old) result cursor.new }
    {
        let mut found = Items::new(self.alloc);
        for _turn in 0..DIMENSIONS {
            if !cursor.sees(Sign::Mark(Punctuator::OpenSquare)) {
                return Ok(found);
            }
            found.push(self.index(cursor, room)?.into_inner())?;
        }
        Ok(found)
    }

    /// Reads a name, with the indices that stand behind it.
    #[tactic(auto, unfolding(c_reading::specs::Expressions::read_place))]
    pub fn place(&self, cursor: &mut Cursor<'_>, room: usize) -> Result<Place, Fault>
        requires { Nests room (F.pre self.now.read) (F.post self.now.read) }
        ensures { Steps (spec.read_place (spec.read_expr room) room cursor.old) result cursor.new }
    {
        let name = cursor.name(self.alloc)?;
        let indices = self.indices(cursor, room)?;
        Ok(Place { name, indices })
    }

    /// Reads `(void *)` and its operand.
    #[tactic(auto, unfolding(c_reading::specs::Expressions::read_converted_pointer, c_reading::specs::Expressions::read_conversion_to_pointer))]
    pub fn converted_pointer(&self, cursor: &mut Cursor<'_>, room: usize) -> Result<Pointer, Fault>
        requires { Nests room (F.pre self.now.read) (F.post self.now.read) }
        ensures { Steps (spec.read_converted_pointer (spec.read_cast room) room cursor.old) result cursor.new }
    {
        if room == 0 {
            return Err(too_deep(cursor.sees(Sign::Mark(Punctuator::OpenRound)), false));
        }
        let offset = cursor.mark(Punctuator::OpenRound)?;
        cursor.word(Keyword::Void)?;
        cursor.mark(Punctuator::Star)?;
        cursor.mark(Punctuator::CloseRound)?;
        let operand = self.inside(cursor, room, Part::Operand)?;
        Ok(Pointer {
            operand: Some(operand),
            offset,
        })
    }

    /// A place one level deeper.
    #[tactic(auto, unfolding(c_reading::specs::Expressions::read_target))]
    fn target(&self, cursor: &mut Cursor<'_>, room: usize) -> Result<Place, Fault>
        requires { Nests room (F.pre self.now.read) (F.post self.now.read) }
        ensures { Steps (spec.read_target room cursor.old) result cursor.new }
    {
        if room == 0 {
            return Err(too_deep(cursor.sees_name(), false));
        }
        self.place(cursor, room - 1)
    }

    /// An argument, where a level is left for it.
    #[tactic(auto, unfolding(c_reading::specs::Expressions::read_any_argument, c_reading::specs::Expressions::read_text_argument, c_reading::specs::Expressions::read_address, c_reading::specs::Expressions::read_null_argument, c_reading::specs::Expressions::read_pointer_argument, c_reading::specs::Expressions::read_value_argument))]
    fn any_argument(&self, cursor: &mut Cursor<'_>, room: usize) -> Result<Boxed<Argument>, Fault>
        requires nests { Nests room (F.pre self.now.read) (F.post self.now.read) }
        requires some { 0 < room }
        ensures { Steps (spec.read_any_argument (spec.read_expr room) (spec.read_cast (room - 1)) (spec.read_target (room - 1)) (room - 1) cursor.old) result cursor.new }
    {
        if cursor.sees_text() {
            let (bytes, offset) = cursor.text(self.alloc)?;
            boxed(self.alloc, Argument::Text(bytes, offset))
        } else if cursor.sees(Sign::Mark(Punctuator::And)) {
            let offset = cursor.mark(Punctuator::And)?;
            let place = self.target(cursor, room - 1)?;
            boxed(self.alloc, Argument::Address(place, offset))
        } else if cursor.sees(Sign::Word(Keyword::Null)) {
            let pointer = null(cursor)?;
            boxed(self.alloc, Argument::Pointer(pointer))
        } else if cursor.begins_conversion_to_pointer() {
            let pointer = self.converted_pointer(cursor, room - 1)?;
            boxed(self.alloc, Argument::Pointer(pointer))
        } else {
            let value = self.inside(cursor, room, Part::Whole)?;
            boxed(self.alloc, Argument::Value(value))
        }
    }

    /// An argument one level deeper.
    fn argument(&self, cursor: &mut Cursor<'_>, room: usize) -> Result<Boxed<Argument>, Fault>
        requires { Nests room (F.pre self.now.read) (F.post self.now.read) }
        ensures { Steps (spec.read_argument room cursor.old) result cursor.new }
    {
        if room == 0 {
            return Err(too_deep(cursor.begins_argument(), false));
        }
        self.any_argument(cursor, room)
    }

    /// No argument, or one or more with commas between them.
    fn listed(&self, cursor: &mut Cursor<'_>, room: usize) -> Result<Items<Argument>, Fault>
        requires { Nests room (F.pre self.now.read) (F.post self.now.read) }
        ensures { Steps (tokens_of.read_any tokens_of.begins_argument (spec.read_argument room) cursor.old) result cursor.new }
    {
        let mut found = Items::new(self.alloc);
        if !cursor.begins_argument() {
            return Ok(found);
        }
        found.push(self.argument(cursor, room)?.into_inner())?;
        for _turn in 0..cursor.left() {
            if !cursor.sees(Sign::Mark(Punctuator::Comma)) {
                return Ok(found);
            }
            cursor.mark(Punctuator::Comma)?;
            found.push(self.argument(cursor, room)?.into_inner())?;
        }
        Ok(found)
    }

    /// Arguments in parentheses.
    #[tactic(auto, unfolding(c_reading::specs::Expressions::read_arguments))]
    pub fn arguments(&self, cursor: &mut Cursor<'_>, room: usize) -> Result<Items<Argument>, Fault>
        requires { Nests room (F.pre self.now.read) (F.post self.now.read) }
        ensures { Steps (spec.read_arguments (spec.read_argument room) room cursor.old) result cursor.new }
    {
        if room == 0 {
            return Err(too_deep(cursor.sees(Sign::Mark(Punctuator::OpenRound)), false));
        }
        cursor.mark(Punctuator::OpenRound)?;
        let found = self.listed(cursor, room)?;
        cursor.mark(Punctuator::CloseRound)?;
        Ok(found)
    }

    /// A place, or a call.
    #[tactic(auto, unfolding(c_reading::specs::Expressions::read_named, c_reading::specs::Expressions::read_call_of, c_reading::specs::Expressions::read_place_of))]
    fn named(&self, cursor: &mut Cursor<'_>, room: usize) -> Result<Boxed<Expression>, Fault>
        requires { Nests room (F.pre self.now.read) (F.post self.now.read) }
        ensures { Steps (spec.read_named (spec.read_cast room) (spec.read_expr room) (spec.read_argument room) room cursor.old) result cursor.new }
    {
        let name = cursor.name(self.alloc)?;
        let offset = name.offset;
        if cursor.sees(Sign::Mark(Punctuator::OpenRound)) {
            let arguments = self.arguments(cursor, room)?;
            let call = Call { name, arguments };
            let form = Form::Call(call);
            return boxed(self.alloc, Expression { offset, form });
        }
        let indices = self.indices(cursor, room)?;
        let place = Place { name, indices };
        let form = Form::Place(place);
        boxed(self.alloc, Expression { offset, form })
    }

    /// A name and what belongs to it, a constant, or an expression in parentheses, whose place is that of the first of
    /// them.
    #[tactic(auto, unfolding(c_reading::specs::Expressions::read_primary, c_reading::specs::Expressions::read_parenthesized))]
    fn primary(&self, cursor: &mut Cursor<'_>, room: usize) -> Result<Boxed<Expression>, Fault>
        requires { Nests room (F.pre self.now.read) (F.post self.now.read) }
        ensures { Steps (spec.read_primary (spec.read_cast room) (spec.read_expr room) (spec.read_argument room) room cursor.old) result cursor.new }
    {
        if cursor.sees_name() {
            return self.named(cursor, room);
        }
        if cursor.sees_constant() {
            return boxed(self.alloc, cursor.constant()?);
        }
        if room == 0 {
            return Err(too_deep(cursor.sees(Sign::Mark(Punctuator::OpenRound)), false));
        }
        let offset = cursor.mark(Punctuator::OpenRound)?;
        let inner = self.inside(cursor, room, Part::Whole)?;
        cursor.mark(Punctuator::CloseRound)?;
        let form = inner.into_inner().form;
        boxed(self.alloc, Expression { offset, form })
    }

    /// A conversion to the type in parentheses.
    #[tactic(auto, unfolding(c_reading::specs::Expressions::read_converted, c_reading::specs::Expressions::read_conversion))]
    fn converted(&self, cursor: &mut Cursor<'_>, room: usize) -> Result<Boxed<Expression>, Fault>
        requires { Nests room (F.pre self.now.read) (F.post self.now.read) }
        ensures { Steps (spec.read_converted (spec.read_cast room) (spec.read_expr room) (spec.read_argument room) room cursor.old) result cursor.new }
    {
        if room == 0 {
            return Err(too_deep(cursor.sees(Sign::Mark(Punctuator::OpenRound)), false));
        }
        let offset = cursor.mark(Punctuator::OpenRound)?;
        let specifiers = specifiers(self.alloc, cursor)?;
        cursor.mark(Punctuator::CloseRound)?;
        let operand = self.inside(cursor, room, Part::Operand)?;
        let form = Form::Cast(specifiers, operand);
        boxed(self.alloc, Expression { offset, form })
    }

    /// An operand of a binary operator.
    #[tactic(auto, unfolding(c_reading::specs::Expressions::read_operand, c_reading::specs::Expressions::read_unary))]
    fn operand(&self, cursor: &mut Cursor<'_>, room: usize) -> Result<Boxed<Expression>, Fault>
        requires { Nests room (F.pre self.now.read) (F.post self.now.read) }
        ensures { Steps (spec.read_operand (spec.read_cast room) (spec.read_expr room) (spec.read_argument room) room cursor.old) result cursor.new }
    {
        if cursor.begins_conversion() {
            self.converted(cursor, room)
        } else if cursor.sees_unary_operator() {
            let (operator, offset) = cursor.unary_operator()?;
            let operand = self.inside(cursor, room, Part::Operand)?;
            let form = Form::Unary(operator, operand);
            boxed(self.alloc, Expression { offset, form })
        } else {
            self.primary(cursor, room)
        }
    }

    /// The operators of the level, each with its right operand.
    #[cycle(levels)]
    fn terms(
        &self,
        cursor: &mut Cursor<'_>,
        room: usize,
        level: usize,
    ) -> Result<Items<Term>, Fault>
        requires nests { Nests room (F.pre self.now.read) (F.post self.now.read) }
        requires some { 0 < level }
        ensures { Steps (spec.read_terms level room cursor.old) result cursor.new }
    {
        let mut found = Items::new(self.alloc);
        for _turn in 0..cursor.left() {
            if !cursor.binds_at(level) {
                return Ok(found);
            }
            let (operator, offset) = cursor.operator(level)?;
            let operand = self.binary(cursor, room, level - 1)?;
            found.push(Term {
                operator,
                offset,
                operand: operand.into_inner(),
            })?;
        }
        Ok(found)
    }

    /// Operands and the binary operators of the levels up to this one.
    #[cycle(levels)]
    fn binary(
        &self,
        cursor: &mut Cursor<'_>,
        room: usize,
        level: usize,
    ) -> Result<Boxed<Expression>, Fault>
        requires { Nests room (F.pre self.now.read) (F.post self.now.read) }
        ensures { Steps (spec.read_binary level (spec.operand_within room) cursor.old) result cursor.new }
    {
        if level == 0 {
            return self.operand(cursor, room);
        }
        let first = self.binary(cursor, room, level - 1)?;
        let terms = self.terms(cursor, room, level)?;
        Ok(joined(self.alloc, first, terms)?)
    }

    /// `?`, and what stands behind it.
    #[tactic(auto, unfolding(c_reading::specs::Expressions::read_question))]
    fn question(
        &self,
        cursor: &mut Cursor<'_>,
        room: usize,
    ) -> Result<(usize, Boxed<Expression>), Fault>
        requires { Nests room (F.pre self.now.read) (F.post self.now.read) }
        ensures { Steps (spec.read_question (spec.read_cast room) (spec.read_expr room) (spec.read_argument room) room cursor.old) result cursor.new }
    {
        let offset = cursor.mark(Punctuator::Question)?;
        let value = self.binary(cursor, room, LEVELS)?;
        Ok((offset, value))
    }

    /// The conditions behind the first one, each with the place of its `?`, and what stands behind the last `?`.
    fn questions(
        &self,
        cursor: &mut Cursor<'_>,
        room: usize,
        first: Boxed<Expression>,
    ) -> Result<(Items<(Boxed<Expression>, usize)>, Boxed<Expression>), Fault>
        requires { Nests room (F.pre self.now.read) (F.post self.now.read) }
        ensures { Steps (spec.read_questions (spec.read_cast room) (spec.read_expr room) (spec.read_argument room) room first cursor.old) result cursor.new }
    {
        let mut conditions = Items::new(self.alloc);
        let mut value = first;
        for _turn in 0..cursor.left() {
            if !cursor.sees(Sign::Mark(Punctuator::Question)) {
                return Ok((conditions, value));
            }
            let (offset, next) = self.question(cursor, room)?;
            conditions.push((value, offset))?;
            value = next;
        }
        Ok((conditions, value))
    }

    /// The choices, and behind them that of the condition: `:`, and what stands behind it.
    #[tactic(auto, unfolding(c_reading::specs::Expressions::read_choice))]
    fn with_choice(
        &self,
        cursor: &mut Cursor<'_>,
        room: usize,
        mut found: Items<Choice>,
        asked: (Boxed<Expression>, usize),
    ) -> Result<Items<Choice>, Fault>
        requires { Nests room (F.pre self.now.read) (F.post self.now.read) }
        ensures { Steps (and_then (spec.read_choice (spec.read_cast room) (spec.read_expr room) (spec.read_argument room) room asked cursor.old)
            (λ c. reads_pure (appended found c))) result cursor.new }
    {
        cursor.mark(Punctuator::Colon)?;
        let otherwise = self.inside(cursor, room, Part::Whole)?;
        let (condition, offset) = asked;
        found.push(Choice {
            condition: condition.into_inner(),
            offset,
            otherwise: otherwise.into_inner(),
        })?;
        Ok(found)
    }

    /// The same for each of the conditions, from the last to the outermost.
    fn choices(
        &self,
        cursor: &mut Cursor<'_>,
        room: usize,
        outermost: (Boxed<Expression>, usize),
        mut conditions: Items<(Boxed<Expression>, usize)>,
    ) -> Result<Items<Choice>, Fault>
        requires { Nests room (F.pre self.now.read) (F.post self.now.read) }
        ensures { Steps (spec.read_choices (spec.read_cast room) (spec.read_expr room) (spec.read_argument room) room outermost (reverse conditions) []
            cursor.old) result cursor.new }
    {
        let mut found = Items::new(self.alloc);
        while let Some(asked) = conditions.pop() {
            found = self.with_choice(cursor, room, found, asked)?;
        }
        self.with_choice(cursor, room, found, outermost)
    }

    /// What stands behind the first condition of a conditional.
    #[tactic(auto, unfolding(c_reading::specs::Expressions::read_chosen_by))]
    fn chosen_by(
        &self,
        cursor: &mut Cursor<'_>,
        room: usize,
        first: Boxed<Expression>,
    ) -> Result<Boxed<Expression>, Fault>
        requires { Nests room (F.pre self.now.read) (F.post self.now.read) }
        ensures { Steps (spec.read_chosen_by (spec.read_cast room) (spec.read_expr room) (spec.read_argument room) room first cursor.old) result cursor.new }
    {
        let offset = first.get().offset;
        let (question, value) = self.question(cursor, room)?;
        let (conditions, value) = self.questions(cursor, room, value)?;
        let choices = self.choices(cursor, room, (first, question), conditions)?;
        let form = Form::Conditional(value, choices);
        boxed(self.alloc, Expression { offset, form })
    }

    #[tactic(auto, unfolding(c_reading::specs::Expressions::read_whole))]
    fn whole(&self, cursor: &mut Cursor<'_>, room: usize) -> Result<Boxed<Expression>, Fault>
        requires { Nests room (F.pre self.now.read) (F.post self.now.read) }
        ensures { Steps (spec.read_whole (spec.read_cast room) (spec.read_expr room) (spec.read_argument room) room cursor.old) result cursor.new }
    {
        let first = self.binary(cursor, room, LEVELS)?;
        if cursor.sees(Sign::Mark(Punctuator::Question)) {
            self.chosen_by(cursor, room, first)
        } else {
            Ok(first)
        }
    }
}

/// An operand, or a whole expression; the room is how many levels of nesting are left, its own among them.
pub fn expression(
    alloc: Global,
    cursor: &mut Cursor<'_>,
    room: usize,
    part: Part,
) -> Result<Boxed<Expression>, Fault>
    ensures { Steps (read_part part room cursor.old) result cursor.new }
{
    if room == 0 {
        return Err(too_deep(
            cursor.begins_cast(),
            cursor.sees(Sign::Mark(Punctuator::OpenRound)),
        ));
    }
    let rules = Rules {
        alloc,
        read: expression,
    };
    match part {
        Part::Operand => rules.operand(cursor, room - 1),
        Part::Whole => rules.whole(cursor, room - 1),
    }
}
