// The code of statements.

ghost use Rattle.std.specs.Prelude.{◌≡◌, ℕ, ◌<◌, true, false, length, is_some, None, IfOk, IfErr, OnOk, MatchResult};
ghost use Rattle.c_program.specs.Plain.{expression_of, expressions_of, program_of, statement_of};
ghost use Rattle.c_program.specs.Tree as tree;
ghost use Rattle.code_control.specs.Branching as branching;
ghost use Rattle.code_control.specs.Deciding as deciding;
ghost use Rattle.code_places.specs.Labels as spec;
ghost use Rattle.code_places.specs.Doing as doing;
ghost use Rattle.code_calls.specs.Calling as calling;
ghost use Rattle.code_places.specs.Needing.{IsFullFor, IsFullCall};
ghost use Rattle.ir_lower.specs.Switching as switching;
ghost use Rattle.ir_lower.specs.Taken.{are_taken, has_turning, is_taken};

use crate::labels::{open_switch, switch_targets};
use crate::simple::lower_simple;
use c_program::tree::{Expression, Program, Statement};
use code_blocks::fault::LoweringFault;
use code_blocks::truths::{Note, opposite_note};
use code_calls::calling::{close_call, open_call};
use code_calls::returning::return_reached;
use code_control::branching::{
    ChoiceLabels, LoopLabels, choice_labels, close_for, close_turn, open_loop, turn_choice,
    turn_for,
};
use code_control::conditions::lower_test;
use code_places::lowering::Lowering;
use code_places::targets::Loop;
use code_storage::prints::print_count;
use hls_ints::CType;
use sqlite_items::at;
use std::alloc::Global;

/// The code of a statement, in which calls are less than so deep. What the program never comes to has none.
#[cycle(statements)]
#[tactic(auto, using(code_control::proofs::NestedStatements::via_all, code_control::proofs::ControlSize::behind_none))]
pub fn lower_statement(
    alloc: Global,
    program: &Program,
    depth: usize,
    code: &mut Lowering,
    around: Option<Loop>,
    statement: &Statement,
) -> Result<(), LoweringFault>
    requires functions { are_taken (program_of program.now).functions ≡ true }
    requires taken { is_taken (is_some around) (has_turning around) (statement_of statement.now) ≡ true }
    requires targets { doing.AreTargets around code.old.stages }
    requires back { doing.IsBackTarget code.old.back code.old.stages }
    ensures labels { OnOk result (doing.Proceeds around code.old code.new) }
    ensures cut { OnOk result (deciding.is_cut (statement_of statement.now) ≡ true → code.old.reached ≡ true → deciding.ComesThrough code.old code.new) }
    ensures lowers { OnOk result (doing.Leads (program_of program.now) around (statement_of statement.now) code.old code.new) }
    ensures full { IfErr result (IsFullFor (program_of program.now) depth (statement_of statement.now) code.old) }
{
    let mut rest = statement;
    while let Statement::Sequence(first, next) = rest {
        lower_statement(alloc, program, depth, code, around, first)?;
        rest = next;
    }
    if !code.is_reached() {
        code.skip_sites(print_count(rest)?)?;
        return Ok(());
    }
    match rest {
        Statement::Block(body) => lower_statement(alloc, program, depth, code, around, body),
        Statement::If(condition, consequent, alternative) => {
            let labels = open_choice(alloc, program, depth, code, condition)?;
            lower_statement(alloc, program, depth, code, around, consequent)?;
            turn_choice(alloc, code, labels)?;
            lower_statement(alloc, program, depth, code, around, alternative)?;
            code.bind(alloc, labels.join)?;
            Ok(())
        }
        Statement::While(condition, body) => {
            let labels = open_turn(alloc, program, depth, code, condition)?;
            let inside = Loop {
                leaving: labels.leaving,
                turning: Some(labels.head),
            };
            lower_statement(alloc, program, depth, code, Some(inside), body)?;
            close_turn(alloc, code, labels)?;
            Ok(())
        }
        Statement::DoWhile(body, condition) => {
            let labels = open_loop(alloc, code)?;
            let inside = Loop {
                leaving: labels.leaving,
                turning: Some(labels.turning),
            };
            lower_statement(alloc, program, depth, code, Some(inside), body)?;
            close_do(alloc, program, depth, code, condition, labels)
        }
        Statement::For(first, condition, last, body) => {
            lower_statement(alloc, program, depth, code, None, first)?;
            let last_site = code.site();
            code.skip_sites(print_count(last)?)?;
            let labels = open_turn(alloc, program, depth, code, condition)?;
            let inside = Loop {
                leaving: labels.leaving,
                turning: Some(labels.turning),
            };
            lower_statement(alloc, program, depth, code, Some(inside), body)?;
            let after = code.site();
            turn_for(alloc, code, labels, last_site)?;
            lower_statement(alloc, program, depth, code, None, last)?;
            close_for(alloc, code, labels, after)?;
            Ok(())
        }
        Statement::Switch(_, ty, operand, body) => {
            lower_switch(alloc, program, depth, code, around, *ty, operand, body)
        }
        Statement::Truth(slot, condition) => {
            lower_truth(alloc, program, depth, code, *slot, condition)
        }
        Statement::Call(_, into, function, arguments) => {
            lower_call(alloc, program, depth, code, *into, *function, arguments)
        }
        _ => lower_simple(alloc, code, around, rest),
    }
}

/// The code of a switch (C99 6.8.4.2).
#[cycle(statements)]
fn lower_switch(
    alloc: Global,
    program: &Program,
    depth: usize,
    code: &mut Lowering,
    around: Option<Loop>,
    ty: CType,
    operand: &Expression,
    body: &Statement,
) -> Result<(), LoweringFault>
    requires functions { are_taken (program_of program.now).functions ≡ true }
    requires taken { is_taken true (has_turning around) (statement_of body.now) ≡ true }
    requires targets { doing.AreTargets around code.old.stages }
    requires back { doing.IsBackTarget code.old.back code.old.stages }
    requires reached { code.old.reached ≡ true }
    ensures labels { OnOk result (doing.Proceeds around code.old code.new) }
    ensures lowers { OnOk result ((offset : ℕ) → doing.Leads (program_of program.now) around (tree.Statement.Switch offset ty (expression_of operand.now) (statement_of body.now)) code.old code.new) }
    ensures full { IfErr result (λ fault. (offset : ℕ) → IsFullFor (program_of program.now) depth (tree.Statement.Switch offset ty (expression_of operand.now) (statement_of body.now)) code.old fault) }
{
    let labels = open_switch(alloc, code, ty, operand, body)?;
    let inside = switch_targets(around, labels);
    lower_cases(
        alloc,
        program,
        depth,
        code,
        Some(inside),
        body,
        labels.first,
    )?;
    code.bind(alloc, labels.past)?;
    Ok(())
}

/// The code of a switch's body, whose labels have the numbers from that one on. The answer is the number after them.
#[cycle(statements)]
fn lower_cases(
    alloc: Global,
    program: &Program,
    depth: usize,
    code: &mut Lowering,
    around: Option<Loop>,
    body: &Statement,
    label: usize,
) -> Result<usize, LoweringFault>
    requires functions { are_taken (program_of program.now).functions ≡ true }
    requires taken { is_taken (is_some around) (has_turning around) (statement_of body.now) ≡ true }
    requires labels { switching.Awaits label (length (switching.labels_of (statement_of body.now))) around code.old }
    ensures { MatchResult result (λ next. switching.LowersCases (program_of program.now) around (statement_of body.now) label next code.old code.new)
        (switching.IsFullCases (program_of program.now) depth (statement_of body.now) code.old) }
{
    match body {
        Statement::Sequence(first, rest) => {
            let next = lower_cases(alloc, program, depth, code, around, first, label)?;
            lower_cases(alloc, program, depth, code, around, rest, next)
        }
        Statement::Label(_, _) => {
            let next = code.label_after(label);
            code.bind(alloc, label)?;
            Ok(next)
        }
        _ => {
            lower_statement(alloc, program, depth, code, around, body)?;
            Ok(label)
        }
    }
}

/// The code of a call, up to where the caller goes on: that of the function that is called, whose value that local of the
/// caller keeps, if it is kept.
#[cycle(statements)]
fn lower_call(
    alloc: Global,
    program: &Program,
    depth: usize,
    code: &mut Lowering,
    into: Option<u32>,
    number: u32,
    arguments: &[Expression],
) -> Result<(), LoweringFault>
    requires functions { are_taken (program_of program.now).functions ≡ true }
    requires reached { code.old.reached ≡ true }
    ensures labels { OnOk result ((around : _) → doing.Proceeds around code.old code.new) }
    ensures through { OnOk result (deciding.ComesThrough code.old code.new) }
    ensures calls { OnOk result (calling.Calls (program_of program.now) into number (expressions_of arguments.now) code.old code.new) }
    ensures full { IfErr result (IsFullCall (program_of program.now) depth into number (expressions_of arguments.now) code.old) }
{
    if depth == 0 {
        return Err(LoweringFault::TooLarge);
    }
    let Some(function) = at(&program.functions, number as usize) else {
        return Err(LoweringFault::TooLarge);
    };
    let caller = open_call(alloc, code, into, number as usize, function, arguments)?;
    lower_statement(alloc, program, depth - 1, code, None, &function.body)?;
    close_call(alloc, code, caller)
}

/// A condition leads to the first label where it is true. The right operand of `&&` and `||` is evaluated only where it decides
/// (C99 6.5.13, 6.5.14), and what stands before the step of an operand is done before it. A local keeps the truth, if it is noted.
#[cycle(statements)]
fn lower_condition(
    alloc: Global,
    program: &Program,
    depth: usize,
    code: &mut Lowering,
    condition: &Statement,
    note: Option<Note>,
    if_true: usize,
    if_false: usize,
) -> Result<(), LoweringFault>
    requires functions { are_taken (program_of program.now).functions ≡ true }
    requires asked { deciding.is_asked (statement_of condition.now) ≡ true }
    requires back { doing.IsBackTarget code.old.back code.old.stages }
    requires reached { code.old.reached ≡ true }
    ensures { MatchResult result (λ _. deciding.Decides (program_of program.now) (statement_of condition.now) note if_true if_false code.old code.new)
        (deciding.IsFullAsked (program_of program.now) depth (statement_of condition.now) note code.old) }
{
    match condition {
        Statement::Test(_, operand) => lower_test(alloc, code, operand, note, if_true, if_false),
        Statement::Both(first, second) => {
            let next = code.new_label()?;
            lower_condition(alloc, program, depth, code, first, note, next, if_false)?;
            code.begin(alloc, next)?;
            lower_condition(alloc, program, depth, code, second, note, if_true, if_false)
        }
        Statement::Either(first, second) => {
            let next = code.new_label()?;
            lower_condition(alloc, program, depth, code, first, note, if_true, next)?;
            code.begin(alloc, next)?;
            lower_condition(alloc, program, depth, code, second, note, if_true, if_false)
        }
        Statement::Opposite(inner) => {
            let note = opposite_note(note);
            lower_condition(alloc, program, depth, code, inner, note, if_false, if_true)
        }
        Statement::Sequence(cut, rest) => {
            lower_statement(alloc, program, depth, code, None, cut)?;
            code.begin_stage(alloc)?;
            lower_condition(alloc, program, depth, code, rest, note, if_true, if_false)
        }
        _ => unreachable!(),
    }
}

/// `&&` and `||` as a value: a local keeps the truth of each operand that is evaluated, the last of which decides.
#[cycle(statements)]
fn lower_truth(
    alloc: Global,
    program: &Program,
    depth: usize,
    code: &mut Lowering,
    slot: u32,
    condition: &Statement,
) -> Result<(), LoweringFault>
    requires functions { are_taken (program_of program.now).functions ≡ true }
    requires asked { deciding.is_asked (statement_of condition.now) ≡ true }
    requires back { doing.IsBackTarget code.old.back code.old.stages }
    requires reached { code.old.reached ≡ true }
    ensures labels { OnOk result ((around : _) → doing.Proceeds around code.old code.new) }
    ensures through { OnOk result (deciding.ComesThrough code.old code.new) }
    ensures lowers { OnOk result ((around : _) → doing.Leads (program_of program.now) around (tree.Statement.Truth slot (statement_of condition.now)) code.old code.new) }
    ensures full { IfErr result (IsFullFor (program_of program.now) depth (tree.Statement.Truth slot (statement_of condition.now)) code.old) }
{
    let next = code.new_label()?;
    let note = Note {
        slot,
        turned: false,
    };
    lower_condition(
        alloc,
        program,
        depth,
        code,
        condition,
        Some(note),
        next,
        next,
    )?;
    code.begin(alloc, next)?;
    Ok(())
}

/// An if up to its first statement.
#[cycle(statements)]
fn open_choice(
    alloc: Global,
    program: &Program,
    depth: usize,
    code: &mut Lowering,
    condition: &Statement,
) -> Result<ChoiceLabels, LoweringFault>
    requires functions { are_taken (program_of program.now).functions ≡ true }
    requires asked { deciding.is_asked (statement_of condition.now) ≡ true }
    requires back { doing.IsBackTarget code.old.back code.old.stages }
    requires reached { code.old.reached ≡ true }
    ensures { MatchResult result (λ labels. branching.OpensChoice (program_of program.now) (statement_of condition.now) labels code.old code.new)
        (deciding.IsFullAsked (program_of program.now) depth (statement_of condition.now) None code.old) }
{
    let labels = choice_labels(code)?;
    lower_condition(
        alloc,
        program,
        depth,
        code,
        condition,
        None,
        labels.if_true,
        labels.if_false,
    )?;
    code.bind(alloc, labels.if_true)?;
    Ok(labels)
}

/// The head of a while or a for, up to its body.
#[cycle(statements)]
fn open_turn(
    alloc: Global,
    program: &Program,
    depth: usize,
    code: &mut Lowering,
    condition: &Statement,
) -> Result<LoopLabels, LoweringFault>
    requires functions { are_taken (program_of program.now).functions ≡ true }
    requires asked { deciding.is_asked (statement_of condition.now) ≡ true }
    requires back { doing.IsBackTarget code.old.back code.old.stages }
    ensures { MatchResult result (λ labels. branching.OpensTurn (program_of program.now) (statement_of condition.now) labels code.old code.new)
        (deciding.IsFullAsked (program_of program.now) depth (statement_of condition.now) None code.old) }
{
    let labels = open_loop(alloc, code)?;
    lower_condition(
        alloc,
        program,
        depth,
        code,
        condition,
        None,
        labels.body,
        labels.leaving,
    )?;
    code.bind(alloc, labels.body)?;
    Ok(labels)
}

/// The condition at the end of a do, if it is reached.
#[cycle(statements)]
fn ask_reached(
    alloc: Global,
    program: &Program,
    depth: usize,
    code: &mut Lowering,
    condition: &Statement,
    labels: LoopLabels,
) -> Result<(), LoweringFault>
    requires functions { are_taken (program_of program.now).functions ≡ true }
    requires asked { deciding.is_asked (statement_of condition.now) ≡ true }
    requires back { doing.IsBackTarget code.old.back code.old.stages }
    ensures { MatchResult result (λ _. branching.Asks (program_of program.now) (statement_of condition.now) labels code.old code.new)
        (deciding.IsFullAsked (program_of program.now) depth (statement_of condition.now) None code.old) }
{
    if !code.is_reached() {
        return Ok(());
    }
    lower_condition(
        alloc,
        program,
        depth,
        code,
        condition,
        None,
        labels.head,
        labels.leaving,
    )
}

/// The end of a do.
#[cycle(statements)]
fn close_do(
    alloc: Global,
    program: &Program,
    depth: usize,
    code: &mut Lowering,
    condition: &Statement,
    labels: LoopLabels,
) -> Result<(), LoweringFault>
    requires functions { are_taken (program_of program.now).functions ≡ true }
    requires asked { deciding.is_asked (statement_of condition.now) ≡ true }
    requires back { doing.IsBackTarget code.old.back code.old.stages }
    requires turning { spec.IsOpen labels.turning code.old.stages }
    requires leaving { spec.IsOpen labels.leaving code.old.stages }
    requires apart { labels.turning < labels.leaving }
    requires before { branching.IsBackBefore labels.turning code.old.back }
    ensures { MatchResult result (λ _. branching.ClosesDo (program_of program.now) (statement_of condition.now) labels code.old code.new)
        (deciding.IsFullAsked (program_of program.now) depth (statement_of condition.now) None code.old) }
{
    code.bind(alloc, labels.turning)?;
    ask_reached(alloc, program, depth, code, condition, labels)?;
    code.bind(alloc, labels.leaving)?;
    Ok(())
}

/// The code of a function's body, and of its closing brace.
pub fn lower_body(
    alloc: Global,
    program: &Program,
    code: &mut Lowering,
    body: &Statement,
) -> Result<(), LoweringFault>
    requires functions { are_taken (program_of program.now).functions ≡ true }
    requires taken { is_taken false false (statement_of body.now) ≡ true }
    requires outermost { code.old.back ≡ None }
    ensures lowers { OnOk result (calling.LowersBody (program_of program.now) (statement_of body.now) code.old code.new) }
    ensures full { IfErr result (IsFullFor (program_of program.now) (length program.now.functions.items) (statement_of body.now) code.old) }
{
    let depth = program.functions.len();
    lower_statement(alloc, program, depth, code, None, body)?;
    return_reached(alloc, code)
}
