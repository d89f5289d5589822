// The labels of a switch, and the comparisons that lead to them.

ghost use Rattle.std.specs.Prelude.{◌≡◌, ◌+◌, ◌*◌, ◌≤◌, [], ◌∷◌, length, true, IfOk, MatchResult, OnOk};
ghost use Rattle.c_program.specs.Plain.{expression_of, statement_of};
ghost use Rattle.c_program.specs.Weight.{expression_weight};
ghost use Rattle.code_blocks.specs.Room.{IsFull};
ghost use Rattle.ir_lower.specs.Switching as switching;

use c_program::tree::{Expression, Statement};
use code_blocks::fault::LoweringFault;
use code_blocks::printing::lower_value;
use code_places::lowering::Lowering;
use code_places::targets::Loop;
use hls_ints::{CType, wrap};
use std::alloc::{AllocError, Global};

/// The labels of a switch: those of its body have numbers in a row, and what comes after it has one more.
#[derive(Clone, Copy)]
pub struct SwitchLabels {
    pub first: usize,
    pub past: usize,
}

/// How far the labels of a body are compared.
#[derive(Clone, Copy)]
pub struct Cases {
    /// The number of the next label.
    pub next: usize,
    /// That of default, where it stands before.
    pub default: Option<usize>,
}

/// Where break and continue lead in a switch: break past it, and continue to where it leads around the switch.
pub fn switch_targets(around: Option<Loop>, labels: SwitchLabels) -> Loop
    ensures { result ≡ switching.inside around labels }
{
    Loop {
        leaving: labels.past,
        turning: around.and_then(|around| around.turning),
    }
}

/// A label that leads nowhere yet for each label of the body.
fn new_labels(code: &mut Lowering, body: &Statement) -> Result<(), AllocError>
    ensures { OnOk result (switching.HasLabels (length (switching.labels_of (statement_of body.now))) code.old code.new) }
{
    match body {
        Statement::Sequence(first, rest) => {
            new_labels(code, first)?;
            new_labels(code, rest)
        }
        Statement::Label(_, _) => {
            code.new_label()?;
            Ok(())
        }
        _ => Ok(()),
    }
}

/// The labels of a switch, which lead nowhere yet.
fn switch_labels(code: &mut Lowering, body: &Statement) -> Result<SwitchLabels, AllocError>
    ensures { IfOk result (λ labels. switching.AreLabels labels (statement_of body.now) code.old code.new) }
{
    let past = code.new_label()?;
    let first = code.label_after(past);
    new_labels(code, body)?;
    Ok(SwitchLabels { first, past })
}

/// The word is compared with the value of a label: where they are equal, the program goes on at the label. Default has no value.
fn lower_comparison(
    alloc: Global,
    code: &mut Lowering,
    word: u32,
    value: Option<i128>,
    cases: Cases,
) -> Result<Cases, LoweringFault>
    requires { cases.next + 1 ≤ length code.old.stages.labels }
    ensures { MatchResult result (λ after. switching.AreCompared word (value ∷ []) cases after code.old code.new) (IsFull (length code.old.block.operations + 1)) }
{
    let next = code.label_after(cases.next);
    match value {
        None => {
            let default = cases.default.or(Some(cases.next));
            Ok(Cases { next, default })
        }
        Some(value) => {
            code.compare(alloc, word, wrap(CType::LONG, value), cases.next)?;
            let default = cases.default;
            Ok(Cases { next, default })
        }
    }
}

/// The word is compared with the value of each label of the body in turn.
fn lower_comparisons(
    alloc: Global,
    code: &mut Lowering,
    word: u32,
    body: &Statement,
    cases: Cases,
) -> Result<Cases, LoweringFault>
    requires { cases.next + length (switching.labels_of (statement_of body.now)) ≤ length code.old.stages.labels }
    ensures { MatchResult result (λ after. switching.AreCompared word (switching.labels_of (statement_of body.now)) cases after code.old code.new)
        (IsFull (length code.old.block.operations + 1)) }
{
    match body {
        Statement::Sequence(first, rest) => {
            let cases = lower_comparisons(alloc, code, word, first, cases)?;
            lower_comparisons(alloc, code, word, rest, cases)
        }
        Statement::Label(value, _) => lower_comparison(alloc, code, word, *value, cases),
        _ => Ok(cases),
    }
}

/// A switch up to its body: a word keeps the value of its operand, converted to the type, and is compared with that of each label
/// (C99 6.8.4.2).
pub fn open_switch(
    alloc: Global,
    code: &mut Lowering,
    ty: CType,
    operand: &Expression,
    body: &Statement,
) -> Result<SwitchLabels, LoweringFault>
    requires { code.old.reached ≡ true }
    ensures { MatchResult result (λ labels. switching.OpensSwitch ty (expression_of operand.now) (statement_of body.now) labels code.old code.new)
        (IsFull (length code.old.variables + (length code.old.block.operations + code.old.block.steps) + (3 * expression_weight (expression_of operand.now) + 2))) }
{
    let labels = switch_labels(code, body)?;
    let word = code.first_word()?;
    let homes = code.homes.as_slice();
    lower_value(alloc, homes, &mut code.block, word, ty, operand)?;
    code.block.step()?;
    let cases = Cases {
        next: labels.first,
        default: None,
    };
    let cases = lower_comparisons(alloc, code, word, body, cases)?;
    code.jump(alloc, cases.default.unwrap_or(labels.past))?;
    Ok(labels)
}
