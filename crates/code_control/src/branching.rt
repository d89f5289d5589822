// The parts of an if and of loops: their labels and jumps.

ghost use Rattle.std.specs.Prelude.{◌<◌, IfOk, OnOk};
ghost use Rattle.code_places.specs.Control as control;
ghost use Rattle.code_control.specs.Branching as branching;
ghost use Rattle.code_places.specs.Doing as doing;
ghost use Rattle.code_places.specs.Labels as spec;

use code_places::lowering::Lowering;
use std::alloc::{AllocError, Global};

/// The labels of an if: its two statements, and what comes after it.
#[derive(Clone, Copy)]
pub struct ChoiceLabels {
    pub if_true: usize,
    pub if_false: usize,
    pub join: usize,
}

/// The labels of a loop.
#[derive(Clone, Copy)]
pub struct LoopLabels {
    /// The first block of each turn.
    pub head: usize,
    /// The body, where a condition stands before it.
    pub body: usize,
    /// The end of each turn.
    pub turning: usize,
    /// What comes after it.
    pub leaving: usize,
}

/// Two labels that lead nowhere yet.
fn two_labels(code: &mut Lowering) -> Result<(usize, usize), AllocError>
    ensures relabels { OnOk result (doing.Relabels code.old code.new) }
    ensures labels { IfOk result (λ labels. branching.AreTwo labels.0 labels.1 code.old code.new) }
{
    let first = code.new_label()?;
    let second = code.new_label()?;
    Ok((first, second))
}

/// The labels of an if, which lead nowhere yet.
pub fn choice_labels(code: &mut Lowering) -> Result<ChoiceLabels, AllocError>
    ensures relabels { OnOk result (doing.Relabels code.old code.new) }
    ensures labels { IfOk result (λ labels. branching.AreChoice labels code.old code.new) }
{
    let (if_true, if_false) = two_labels(code)?;
    let join = code.new_label()?;
    Ok(ChoiceLabels {
        if_true,
        if_false,
        join,
    })
}

/// What stands between the two statements of an if.
pub fn turn_choice(
    alloc: Global,
    code: &mut Lowering,
    labels: ChoiceLabels,
) -> Result<(), AllocError>
    requires join { spec.IsOpen labels.join code.old.stages }
    requires if_false { spec.IsOpen labels.if_false code.old.stages }
    requires apart { labels.if_false < labels.join }
    ensures { OnOk result (branching.TurnsChoice labels code.old code.new) }
{
    code.leap(alloc, labels.join)?;
    code.bind(alloc, labels.if_false)
}

/// The head of a loop.
pub fn open_loop(alloc: Global, code: &mut Lowering) -> Result<LoopLabels, AllocError>
    ensures { IfOk result (λ labels. branching.OpensLoop labels code.old code.new) }
{
    let (head, body) = two_labels(code)?;
    let (turning, leaving) = two_labels(code)?;
    code.begin(alloc, head)?;
    Ok(LoopLabels {
        head,
        body,
        turning,
        leaving,
    })
}

/// The end of a while or a for.
pub fn close_turn(alloc: Global, code: &mut Lowering, labels: LoopLabels) -> Result<(), AllocError>
    requires head { spec.IsTarget labels.head code.old.stages }
    requires leaving { spec.IsOpen labels.leaving code.old.stages }
    ensures { OnOk result (branching.ClosesTurn labels code.old code.new) }
{
    code.leap(alloc, labels.head)?;
    code.bind(alloc, labels.leaving)
}

/// The place of the last part of a for, whose first printf has that number.
pub fn turn_for(
    alloc: Global,
    code: &mut Lowering,
    labels: LoopLabels,
    site: u32,
) -> Result<(), AllocError>
    requires { spec.IsOpen labels.turning code.old.stages }
    ensures { OnOk result (control.Binds labels.turning (doing.at_site site code.old) code.new) }
{
    code.set_site(site);
    code.bind(alloc, labels.turning)
}

/// The end of a for, after whose body that is the number of the next printf.
pub fn close_for(
    alloc: Global,
    code: &mut Lowering,
    labels: LoopLabels,
    site: u32,
) -> Result<(), AllocError>
    requires head { spec.IsTarget labels.head code.old.stages }
    requires leaving { spec.IsOpen labels.leaving code.old.stages }
    ensures { OnOk result (branching.ClosesTurn labels (doing.at_site site code.old) code.new) }
{
    code.set_site(site);
    close_turn(alloc, code, labels)
}
