// Integer objects as values (C99 6.5.1, 6.5.2.1).

ghost use Rattle.std.specs.Prelude.{◌≡◌, box_value, option_map};
ghost use Rattle.c_program.specs.Plain.{expression_of};
ghost use Rattle.c_expressions.specs.Expressions as spec;

use crate::operators::nothing;
use c_program::tree as resolved;
use c_rules::dimensions::Dimensions;
use c_rules::fault::Rule;
use c_rules::names::{Known, Meaning, Scope, Variable};
use c_tree::{Expression, Form};

/// The rule that a name with so many indices breaks as a value.
pub fn misuse(known: Known, indices: usize) -> Option<Rule>
    ensures { result ≡ spec.misuse known indices }
{
    match known {
        Known::Unknown => Some(Rule::Unknown),
        Known::Declared(Meaning::Variable(variable)) => {
            if variable.dimensions.count() == indices {
                None
            } else {
                Some(Rule::Kind)
            }
        }
        Known::Declared(Meaning::Argument) if indices == 0 => Some(Rule::Threads),
        Known::Declared(Meaning::Unusable) => None,
        _ => Some(Rule::Kind),
    }
}

/// The integer object that a name stands for, if it is one.
pub fn variable_of(known: Known) -> Option<Variable>
    ensures { result ≡ spec.variable_of known }
{
    match known {
        Known::Declared(Meaning::Variable(variable)) => Some(variable),
        _ => None,
    }
}

/// Its dimensions.
pub fn dimensions_of(variable: Option<Variable>) -> Dimensions
    ensures { result ≡ spec.dimensions_of variable }
{
    match variable {
        Some(variable) => variable.dimensions,
        None => Dimensions::Scalar,
    }
}

/// The value of a scalar, or of the element of the number.
pub fn named_value(
    variable: Option<Variable>,
    number: Option<Box<resolved::Expression>>,
) -> resolved::Expression
    ensures { expression_of result ≡ spec.named_value variable (option_map (λ n. expression_of (box_value n)) number) }
{
    let Some(variable) = variable else {
        return nothing();
    };
    let ty = variable.ty.c_type();
    match number {
        None => resolved::Expression::Variable(variable.storage, variable.number, ty),
        Some(number) => {
            let length = variable.dimensions.elements();
            resolved::Expression::Element(variable.storage, variable.number, length, ty, number)
        }
    }
}

/// Whether the expression is the parameter of the start routine at hand.
pub fn is_argument(scope: &Scope<'_>, expression: &Expression) -> bool
    ensures { result ≡ spec.is_argument_name scope.now (spec.meant scope.now expression.now).name }
{
    let Form::Place(place) = &expression.form else {
        return false;
    };
    match place.indices.as_slice() {
        [] => scope.look_up(place.name.bytes.as_slice()).is_argument(),
        [_, ..] => false,
    }
}
