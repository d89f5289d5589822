// The labels of a switch (C99 6.8.1, 6.8.4.2).

ghost use Rattle.std.specs.Prelude.{◌≡◌, OnOk};
ghost use Rattle.c_rules.specs.Walks.{Walks};
ghost use Rattle.c_resolution.specs.Statements as spec;
ghost use Rattle.c_statements.specs.Labelled.{cases_of};

use c_expressions::expressions::look_through;
use c_program::tree as resolved;
use c_rules::cases::CaseValues;
use c_rules::constants::{Constancy, constancy_of, operator_count};
use c_rules::fault::Rule;
use c_rules::findings::Findings;
use c_rules::names::Scope;
use c_tree::{CaseLabel, Expression};
use hls_ints::{CType, wrap};
use std::alloc::{AllocError, Global};

/// What stands in the body of a switch so far.
#[derive(Drop)]
pub struct Cases {
    pub steps: Vec<Box<resolved::Statement>>,
    pub values: CaseValues,
    pub has_default: bool,
}

impl Cases {
    /// Nothing yet.
    pub fn new(alloc: Global) -> Cases
        ensures { cases_of result ≡ spec.no_cases }
    {
        Cases {
            steps: Vec::new(alloc),
            values: CaseValues::new(alloc),
            has_default: false,
        }
    }

    /// One more label.
    fn label(
        &mut self,
        alloc: Global,
        value: Option<i128>,
        operators: u32,
    ) -> Result<(), AllocError>
        ensures { OnOk result (cases_of self.new ≡ spec.labelled value operators (cases_of self.old)) }
    {
        let step = resolved::Statement::Label(value, operators).boxed(alloc)?;
        self.steps.push(step)?;
        Ok(())
    }
}

/// The value of a case, converted to the type; 0 where it has none.
fn case_value(ty: CType, constancy: Constancy) -> i128
    ensures { result ≡ spec.case_value ty constancy }
{
    match constancy {
        Constancy::Constant(value) => wrap(ty, value.number),
        Constancy::Unknown | Constancy::NotConstant => 0,
    }
}

/// Notes the value of a case, whose first byte is at the offset.
#[tactic(auto, unfolding(c_resolution::specs::Statements::noted_case))]
fn note_case(
    found: &mut Findings,
    ty: CType,
    constancy: Constancy,
    offset: usize,
    cases: &mut Cases,
) -> Result<(), AllocError>
    ensures { Walks (λ x. cases_of cases.new) (spec.noted_case ty constancy offset (cases_of cases.old) found.old) result found.new }
{
    match constancy {
        Constancy::Constant(value) => {
            let stands = cases.values.note(wrap(ty, value.number))?;
            found.add_if(stands, Rule::Twice, offset);
        }
        Constancy::Unknown => {}
        Constancy::NotConstant => found.add(Rule::Constant, offset),
    }
    Ok(())
}

/// A case of the value.
#[tactic(auto, unfolding(c_resolution::specs::Statements::case_label))]
fn case_label(
    alloc: Global,
    scope: &Scope<'_>,
    found: &mut Findings,
    ty: CType,
    e: &Expression,
    cases: &mut Cases,
) -> Result<(), AllocError>
    ensures { Walks (λ x. cases_of cases.new) (spec.case_label ty e.now (cases_of cases.old) scope.now found.old) result found.new }
{
    look_through(alloc, scope, found, e)?;
    let value = case_value(ty, constancy_of(e));
    note_case(found, ty, constancy_of(e), e.offset, cases)?;
    cases.label(alloc, Some(value), operator_count(e))
}

/// A label of a switch over the type.
#[tactic(auto, unfolding(c_resolution::specs::Statements::default_label))]
pub fn label(
    alloc: Global,
    scope: &Scope<'_>,
    found: &mut Findings,
    ty: CType,
    label: &CaseLabel,
    cases: &mut Cases,
) -> Result<(), AllocError>
    ensures { Walks (λ x. cases_of cases.new) (spec.label ty label.now (cases_of cases.old) scope.now found.old) result found.new }
{
    match &label.value {
        Some(e) => case_label(alloc, scope, found, ty, e.get(), cases),
        None => {
            found.add_if(cases.has_default, Rule::Twice, label.offset);
            cases.has_default = true;
            cases.label(alloc, None, 0)
        }
    }
}
