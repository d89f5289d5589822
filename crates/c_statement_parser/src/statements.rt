// Statements with statements in them. The rules take the function that reads those as a parameter, so that each is proved
// by itself.

ghost use Rattle.std.specs.Prelude.{◌≡◌, ◌-◌, ◌<◌, ◌≤◌};
ghost use Rattle.grammar.specs.Readers.{reads_many};
ghost use Rattle.grammar.specs.Steps.{Steps};
ghost use Rattle.c_reading.specs.Tokens as tokens_of;
ghost use Rattle.c_reading.specs.Statements as spec;
ghost use Rattle.c_statement_parser.specs.NestsStatements.{NestsStatements};

use crate::plain::{boxed, condition, declaration, for_head, label, plain_statement};
use c_cursor::Cursor;
use c_token::{Keyword, Punctuator};
use c_tree::{Block, BlockItem, Group, Sign, Statement};
use grammar::{Fault, too_deep};
use sqlite_items::{Boxed, Items};
use std::alloc::Global;

/// The rules of statements, by the function that reads the statements in them. The room of each is how many levels of
/// nesting are left for those.
#[derive(Clone, Copy)]
pub struct Bodies<F> {
    pub alloc: Global,
    pub read: F,
}

impl<F: Fn(Global, &mut Cursor<'_>, usize) -> Result<Boxed<Statement>, Fault>> Bodies<F> {
    /// A statement inside.
    fn body(&self, cursor: &mut Cursor<'_>, room: usize) -> Result<Boxed<Statement>, Fault>
        requires { NestsStatements room (F.pre self.now.read) (F.post self.now.read) }
        ensures { Steps (spec.read_statement room cursor.old) result cursor.new }
    {
        (self.read)(self.alloc, cursor, room)
    }

    /// A declaration or a statement.
    #[tactic(auto, unfolding(c_reading::specs::Statements::read_item, c_reading::specs::Statements::read_declared_item, c_reading::specs::Statements::read_statement_item))]
    fn item(&self, cursor: &mut Cursor<'_>, room: usize) -> Result<Boxed<BlockItem>, Fault>
        requires { NestsStatements room (F.pre self.now.read) (F.post self.now.read) }
        ensures { Steps (spec.read_item (spec.read_statement room) room cursor.old) result cursor.new }
    {
        if cursor.sees_type_word() {
            let declaration = declaration(self.alloc, cursor, room)?;
            boxed(self.alloc, BlockItem::Declaration(declaration))
        } else {
            let statement = self.body(cursor, room)?;
            boxed(self.alloc, BlockItem::Statement(statement.into_inner()))
        }
    }

    fn items(&self, cursor: &mut Cursor<'_>, room: usize) -> Result<Items<BlockItem>, Fault>
        requires { NestsStatements room (F.pre self.now.read) (F.post self.now.read) }
        ensures { Steps (reads_many tokens_of.begins_item (spec.read_item (spec.read_statement room) room) cursor.old) result cursor.new }
    {
        let mut found = Items::new(self.alloc);
        for _turn in 0..cursor.left() {
            if !cursor.begins_item() {
                return Ok(found);
            }
            found.push(self.item(cursor, room)?.into_inner())?;
        }
        Ok(found)
    }

    /// Reads `{`, items and `}` (C99 6.8.2).
    #[tactic(auto, unfolding(c_reading::specs::Statements::read_block))]
    pub fn block(&self, cursor: &mut Cursor<'_>, room: usize) -> Result<Block, Fault>
        requires { NestsStatements room (F.pre self.now.read) (F.post self.now.read) }
        ensures { Steps (spec.read_block (spec.read_statement room) room cursor.old) result cursor.new }
    {
        if room == 0 {
            return Err(too_deep(cursor.sees(Sign::Mark(Punctuator::OpenCurly)), false));
        }
        cursor.mark(Punctuator::OpenCurly)?;
        let items = self.items(cursor, room)?;
        let close = cursor.mark(Punctuator::CloseCurly)?;
        Ok(Block { items, close })
    }

    #[tactic(auto, unfolding(c_reading::specs::Statements::read_branch, c_reading::specs::Statements::read_other))]
    fn branch(&self, cursor: &mut Cursor<'_>, room: usize) -> Result<Boxed<Statement>, Fault>
        requires { NestsStatements room (F.pre self.now.read) (F.post self.now.read) }
        ensures { Steps (spec.read_branch (spec.read_statement room) room cursor.old) result cursor.new }
    {
        cursor.word(Keyword::If)?;
        let condition = condition(self.alloc, cursor, room)?;
        let body = self.body(cursor, room)?;
        if !cursor.sees(Sign::Word(Keyword::Else)) {
            return boxed(self.alloc, Statement::If(condition, body, None));
        }
        cursor.word(Keyword::Else)?;
        let other = self.body(cursor, room)?;
        boxed(self.alloc, Statement::If(condition, body, Some(other)))
    }

    #[tactic(auto, unfolding(c_reading::specs::Statements::read_while))]
    fn while_loop(&self, cursor: &mut Cursor<'_>, room: usize) -> Result<Boxed<Statement>, Fault>
        requires { NestsStatements room (F.pre self.now.read) (F.post self.now.read) }
        ensures { Steps (spec.read_while (spec.read_statement room) room cursor.old) result cursor.new }
    {
        cursor.word(Keyword::While)?;
        let condition = condition(self.alloc, cursor, room)?;
        let body = self.body(cursor, room)?;
        boxed(self.alloc, Statement::While(condition, body))
    }

    #[tactic(auto, unfolding(c_reading::specs::Statements::read_do))]
    fn do_loop(&self, cursor: &mut Cursor<'_>, room: usize) -> Result<Boxed<Statement>, Fault>
        requires { NestsStatements room (F.pre self.now.read) (F.post self.now.read) }
        ensures { Steps (spec.read_do (spec.read_statement room) room cursor.old) result cursor.new }
    {
        cursor.word(Keyword::Do)?;
        let body = self.body(cursor, room)?;
        cursor.word(Keyword::While)?;
        let condition = condition(self.alloc, cursor, room)?;
        cursor.mark(Punctuator::Semicolon)?;
        boxed(self.alloc, Statement::DoWhile(body, condition))
    }

    #[tactic(auto, unfolding(c_reading::specs::Statements::read_for, c_reading::specs::Statements::read_with_body))]
    fn for_loop(&self, cursor: &mut Cursor<'_>, room: usize) -> Result<Boxed<Statement>, Fault>
        requires { NestsStatements room (F.pre self.now.read) (F.post self.now.read) }
        ensures { Steps (spec.read_for (spec.read_statement room) room cursor.old) result cursor.new }
    {
        cursor.word(Keyword::For)?;
        let (start, condition, step) = for_head(self.alloc, cursor, room)?;
        let body = self.body(cursor, room)?;
        boxed(self.alloc, Statement::For(start, condition, step, body))
    }

    /// The statements behind a label.
    fn statements(&self, cursor: &mut Cursor<'_>, room: usize) -> Result<Items<Statement>, Fault>
        requires { NestsStatements room (F.pre self.now.read) (F.post self.now.read) }
        ensures { Steps (reads_many tokens_of.begins_statement (spec.read_statement room) cursor.old) result cursor.new }
    {
        let mut found = Items::new(self.alloc);
        for _turn in 0..cursor.left() {
            if !cursor.begins_statement() {
                return Ok(found);
            }
            found.push(self.body(cursor, room)?.into_inner())?;
        }
        Ok(found)
    }

    /// A label and the statements behind it.
    #[tactic(auto, unfolding(c_reading::specs::Statements::read_group))]
    fn group(&self, cursor: &mut Cursor<'_>, room: usize) -> Result<Boxed<Group>, Fault>
        requires { NestsStatements room (F.pre self.now.read) (F.post self.now.read) }
        ensures { Steps (spec.read_group (spec.read_statement room) room cursor.old) result cursor.new }
    {
        let label = label(self.alloc, cursor, room)?;
        let statements = self.statements(cursor, room)?;
        boxed(self.alloc, Group { label, statements })
    }

    fn groups(&self, cursor: &mut Cursor<'_>, room: usize) -> Result<Items<Group>, Fault>
        requires { NestsStatements room (F.pre self.now.read) (F.post self.now.read) }
        ensures { Steps (reads_many tokens_of.begins_label (spec.read_group (spec.read_statement room) room) cursor.old) result cursor.new }
    {
        let mut found = Items::new(self.alloc);
        for _turn in 0..cursor.left() {
            if !cursor.begins_label() {
                return Ok(found);
            }
            found.push(self.group(cursor, room)?.into_inner())?;
        }
        Ok(found)
    }

    /// The groups of a switch, with their braces.
    #[tactic(auto, unfolding(c_reading::specs::Statements::read_groups))]
    fn braced_groups(&self, cursor: &mut Cursor<'_>, room: usize) -> Result<Items<Group>, Fault>
        requires { NestsStatements room (F.pre self.now.read) (F.post self.now.read) }
        ensures { Steps (spec.read_groups (spec.read_statement room) room cursor.old) result cursor.new }
    {
        if room == 0 {
            return Err(too_deep(cursor.sees(Sign::Mark(Punctuator::OpenCurly)), false));
        }
        cursor.mark(Punctuator::OpenCurly)?;
        let groups = self.groups(cursor, room)?;
        cursor.mark(Punctuator::CloseCurly)?;
        Ok(groups)
    }

    /// The same one level deeper, as the body of a control statement.
    fn switch_body(&self, cursor: &mut Cursor<'_>, room: usize) -> Result<Items<Group>, Fault>
        requires { NestsStatements room (F.pre self.now.read) (F.post self.now.read) }
        ensures { Steps (spec.read_switch_body room cursor.old) result cursor.new }
    {
        if room == 0 {
            let opens = cursor.sees(Sign::Mark(Punctuator::OpenCurly));
            return Err(too_deep(opens, opens));
        }
        self.braced_groups(cursor, room - 1)
    }

    #[tactic(auto, unfolding(c_reading::specs::Statements::read_switch))]
    fn switch(&self, cursor: &mut Cursor<'_>, room: usize) -> Result<Boxed<Statement>, Fault>
        requires { NestsStatements room (F.pre self.now.read) (F.post self.now.read) }
        ensures { Steps (spec.read_switch (spec.read_statement room) (spec.read_switch_body room) room cursor.old) result cursor.new }
    {
        let offset = cursor.word(Keyword::Switch)?;
        let chosen = condition(self.alloc, cursor, room)?;
        let groups = self.switch_body(cursor, room)?;
        boxed(self.alloc, Statement::Switch(chosen, groups, offset))
    }

    /// A block or a control statement.
    #[tactic(auto, unfolding(c_reading::specs::Statements::read_compound, c_reading::specs::Statements::read_block_statement))]
    fn compound(&self, cursor: &mut Cursor<'_>, room: usize) -> Result<Boxed<Statement>, Fault>
        requires { NestsStatements room (F.pre self.now.read) (F.post self.now.read) }
        ensures { Steps (spec.read_compound (spec.read_statement room) (spec.read_switch_body room) room cursor.old) result cursor.new }
    {
        if cursor.sees(Sign::Mark(Punctuator::OpenCurly)) {
            let block = self.block(cursor, room)?;
            boxed(self.alloc, Statement::Block(block))
        } else if cursor.sees(Sign::Word(Keyword::If)) {
            self.branch(cursor, room)
        } else if cursor.sees(Sign::Word(Keyword::While)) {
            self.while_loop(cursor, room)
        } else if cursor.sees(Sign::Word(Keyword::Do)) {
            self.do_loop(cursor, room)
        } else if cursor.sees(Sign::Word(Keyword::For)) {
            self.for_loop(cursor, room)
        } else {
            self.switch(cursor, room)
        }
    }
}

/// A statement; the room is how many levels of nesting are left, its own among them.
pub fn statement(
    alloc: Global,
    cursor: &mut Cursor<'_>,
    room: usize,
) -> Result<Boxed<Statement>, Fault>
    ensures { Steps (spec.read_statement room cursor.old) result cursor.new }
{
    if room == 0 {
        return Err(too_deep(
            cursor.begins_statement(),
            cursor.sees(Sign::Mark(Punctuator::OpenCurly)),
        ));
    }
    if cursor.begins_compound() {
        let bodies = Bodies {
            alloc,
            read: statement,
        };
        bodies.compound(cursor, room - 1)
    } else {
        plain_statement(alloc, cursor, room)
    }
}
