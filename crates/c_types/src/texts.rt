// A whole text (C99 6.9).

ghost use Rattle.std.specs.Prelude.{◌≡◌, IfOk};
ghost use Rattle.c_rules.specs.Walks.{Walks};
ghost use Rattle.c_resolution.specs.Files.{file};
ghost use Rattle.c_definitions.specs.Tabled.{tables_of};
ghost use Rattle.c_resolution.specs.Texts as spec;

use c_definitions::functions::function;
use c_definitions::globals::objects;
use c_definitions::tables::Tables;
use c_rules::findings::Findings;
use c_rules::level::Definitions;
use c_rules::names::{Meaning, Scope};
use c_tree::ExternalDeclaration;
use std::alloc::{AllocError, Global};

/// The functions that the text defines, each with the number of its first definition.
pub fn definitions_of<'t>(
    alloc: Global,
    declarations: &'t [ExternalDeclaration],
) -> Result<Definitions<'t>, AllocError>
    ensures { IfOk result (λ d. d ≡ spec.definitions declarations.now) }
{
    let mut definitions = Definitions::new(alloc);
    let mut number = 0u32;
    for declaration in declarations {
        match declaration {
            ExternalDeclaration::Function(function) if function.body.is_some() => {
                definitions.note(function.name.bytes.as_slice(), number)?;
                number = number.saturating_add(1);
            }
            _ => {}
        }
    }
    Ok(definitions)
}

/// The declarations of the text one after another.
#[tactic(auto, unfolding(c_resolution::specs::Texts::declarations))]
pub fn walk<'t>(
    alloc: Global,
    scope: &mut Scope<'t>,
    found: &mut Findings,
    tables: &mut Tables,
    declarations: &'t [ExternalDeclaration],
) -> Result<(), AllocError>
    ensures { Walks (λ x. x) (spec.declarations declarations.now (file scope.old found.old (tables_of tables.old)))
        result (file scope.new found.new (tables_of tables.new)) }
{
    for next in declarations {
        match next {
            ExternalDeclaration::Function(next) => function(alloc, scope, found, tables, next)?,
            ExternalDeclaration::Objects(next) => objects(alloc, scope, found, tables, next)?,
        }
    }
    Ok(())
}

/// The number of main's definition.
pub fn main_number(scope: &Scope<'_>) -> Option<u32>
    ensures { result ≡ spec.main_number scope.now }
{
    match scope.inner.get(b"main") {
        Some(Meaning::Function(number)) => match scope.headers.get(number) {
            Some(header) if header.is_main => header.definition,
            _ => None,
        },
        _ => None,
    }
}
