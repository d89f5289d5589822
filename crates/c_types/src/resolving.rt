// The resolved program of a tree.

ghost use Rattle.std.specs.Prelude.{◌≡◌, Some, IfOk, IfErr};
ghost use Rattle.c_program.specs.Plain.{program_of};
ghost use Rattle.c_program.specs.Tree as code;
ghost use Rattle.c_rules.specs.declared.fault.Fault as fault;
ghost use Rattle.c_rules.specs.declared.fault.ResolveError.TheVariants as error;
ghost use Rattle.c_definitions.specs.Tabled.{tables_of};
ghost use Rattle.c_resolution.specs.Resolving as spec;
ghost use Rattle.c_resolution.specs.Texts.{main_number as main_of_scope};
ghost use Rattle.c_resolution.specs.Answers.{ResolvesOnly, BreaksOnly, LacksMainOnly};

use crate::calls::with_call_faults;
use crate::routines::give_routines;
use crate::texts::{definitions_of, main_number, walk};
use c_definitions::tables::Tables;
use c_program::tree::Program;
use c_rules::fault::{ResolveError, first};
use c_rules::findings::Findings;
use c_rules::names::Scope;
use c_tree::{ExternalDeclaration, TranslationUnit};
use std::alloc::{AllocError, Global};

/// What is known behind a text: the number of main's definition, what was found, and the declarations.
#[derive(Drop)]
struct Text {
    main: Option<u32>,
    found: Findings,
    tables: Tables,
}

/// No declaration.
fn no_tables(alloc: Global) -> Tables
    ensures { tables_of result ≡ spec.no_tables }
{
    Tables {
        functions: Vec::new(alloc),
        globals: Vec::new(alloc),
        threads: Vec::new(alloc),
        mutexes: Vec::new(alloc),
        barriers: Vec::new(alloc),
    }
}

/// Goes through the whole text.
#[tactic(auto, unfolding(c_resolution::specs::Resolving::behind))]
fn go_through(alloc: Global, declarations: &[ExternalDeclaration]) -> Result<Text, AllocError>
    ensures main { IfOk result (λ t. t.main ≡ main_of_scope (spec.behind declarations.now).scope) }
    ensures found { IfOk result (λ t. t.found ≡ (spec.behind declarations.now).found) }
    ensures tables { IfOk result (λ t. tables_of t.tables ≡ (spec.behind declarations.now).tables) }
{
    let definitions = definitions_of(alloc, declarations)?;
    let mut scope = Scope::new(alloc);
    scope.definitions = definitions;
    let mut found = Findings::new(alloc);
    let mut tables = no_tables(alloc);
    walk(alloc, &mut scope, &mut found, &mut tables, declarations)?;
    Ok(Text {
        main: main_number(&scope),
        found,
        tables,
    })
}

/// The program of the declarations, with these thread objects, whose main has this number.
fn program(tables: Tables, main: u32) -> Program
    ensures { program_of result ≡ spec.program_with (tables_of tables) tables.threads.items main }
{
    let Tables {
        functions,
        globals,
        threads,
        mutexes,
        barriers,
    } = tables;
    Program {
        functions,
        main,
        globals,
        threads,
        mutexes,
        barriers,
    }
}

/// The program that the tree spells, or why it has none.
fn program_or_fault(alloc: Global, tree: &TranslationUnit) -> Result<Program, ResolveError>
    ensures spelled { IfOk result (λ p. spec.Spells tree.now (program_of p)) }
    ensures broken { IfErr result (λ e. (f : fault.Fault) → e ≡ error.Broken f → spec.IsFirstFault tree.now (Some f)) }
    ensures no_main { IfErr result (λ e. e ≡ error.NoMain → spec.LacksMain tree.now) }
{
    let Text {
        main,
        found,
        mut tables,
    } = go_through(alloc, tree.declarations.as_slice())?;
    let calls = with_call_faults(alloc, &found, tables.functions.as_slice())?;
    let given = give_routines(tables.threads.as_mut_slice(), found.creations.as_slice());
    if let Some(fault) = first(calls, given) {
        return Err(ResolveError::Broken(fault));
    }
    match main {
        Some(main) => Ok(program(tables, main)),
        None => Err(ResolveError::NoMain),
    }
}

/// The program that the tree spells, or the first rule that it breaks by place and then by number; where it breaks none
/// but defines no main, that. Each of these is answered only so, but for want of memory.
pub fn resolve(alloc: Global, tree: &TranslationUnit) -> Result<Program, ResolveError>
    ensures spelled { IfOk result (λ p. spec.Spells tree.now (program_of p)) }
    ensures broken { IfErr result (λ e. (f : fault.Fault) → e ≡ error.Broken f → spec.IsFirstFault tree.now (Some f)) }
    ensures no_main { IfErr result (λ e. e ≡ error.NoMain → spec.LacksMain tree.now) }
    ensures spells { (p : code.Program) → spec.Spells tree.now p → ResolvesOnly p result }
    ensures breaks { (f : fault.Fault) → spec.IsFirstFault tree.now (Some f) → BreaksOnly f result }
    ensures lacks { spec.LacksMain tree.now → LacksMainOnly result }
{
    program_or_fault(alloc, tree)
}
