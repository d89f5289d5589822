// Functions at file scope: definitions and prototypes (C99 6.9.1, 6.7.5.3).

ghost use Rattle.std.specs.Prelude.{◌≡◌, map, IfOk, OnOk, string_bytes};
ghost use Rattle.std.specs.List.{list_all, zip};
ghost use Rattle.c_program.specs.Plain.{boxed_statement_of, function_of};
ghost use Rattle.c_rules.specs.Levels.{pointed};
ghost use Rattle.c_rules.specs.Walks.{Walks};
ghost use Rattle.c_resolution.specs.States.{state};
ghost use Rattle.c_resolution.specs.Files.{file, with_function};
ghost use Rattle.c_definitions.specs.Tabled.{tables_of};
ghost use Rattle.c_resolution.specs.Functions as spec;
ghost use Rattle.c_resolution.specs.Globals as globals;

use crate::globals::text;
use crate::slots::{add_slots, slots_end};
use crate::tables::Tables;
use c_program::tree as resolved;
use c_rules::dimensions::Dimensions;
use c_rules::fault::Rule;
use c_rules::findings::{Findings, place};
use c_rules::library::LibraryFunction;
use c_rules::names::{DeclaredType, Gives, Header, Meaning, Scope};
use c_rules::specifiers::{BaseType, BasicType, Spelled, is_void, spelled_by};
use c_statements::declarators::block_declarators;
use c_statements::locals::{declare, new_local, plain_type, refused_local};
use c_statements::statements::items;
use c_tree::{Block, Function, Name, Parameter};
use sqlite_items::Items;
use std::alloc::{AllocError, Global};

/// The parameters as they are written: none where they are `void` alone.
fn written(function: &Function) -> &[Parameter]
    ensures { result.now ≡ spec.written function.now }
{
    match function.parameters.as_slice() {
        [only] if !only.is_pointer && only.name.is_none() && is_void(&only.specifiers) => &[],
        parameters => parameters,
    }
}

/// The types of parameters; `static` may not stand in them.
fn parameter_types(
    alloc: Global,
    parameters: &[Parameter],
) -> Result<Items<DeclaredType>, AllocError>
    ensures { IfOk result (λ types. types ≡ map spec.parameter_type parameters.now) }
{
    let mut types = Items::new(alloc);
    for parameter in parameters {
        let words = spelled_by(&parameter.specifiers);
        let base = if words.is_static {
            BaseType::Unlisted
        } else {
            words.base
        };
        types.push(DeclaredType {
            base,
            is_pointer: parameter.is_pointer,
        })?;
    }
    Ok(types)
}

/// What a declaration says of its function.
fn header(alloc: Global, scope: &Scope<'_>, function: &Function) -> Result<Header, AllocError>
    ensures { IfOk result (λ h. h ≡ spec.header scope.now function.now) }
{
    let returns = DeclaredType {
        base: spelled_by(&function.specifiers).base,
        is_pointer: function.is_pointer,
    };
    let parameters = parameter_types(alloc, written(function))?;
    let name = function.name.bytes.as_slice();
    let is_main = name == b"main".as_slice() && returns.is_int() && parameters.is_empty();
    Ok(Header {
        returns,
        parameters,
        is_main,
        definition: scope.definitions.get(name),
    })
}

/// What a function with the header gives back.
fn gives_of(header: &Header) -> Gives
    ensures { result ≡ spec.gives_of header.now }
{
    match (header.returns.base, header.returns.is_pointer) {
        (BaseType::Void, false) => Gives::Nothing,
        (BaseType::Integer(_), false) => Gives::Integer,
        (BaseType::Void, true) => {
            if header.is_start_routine() {
                Gives::Pointer
            } else {
                Gives::Unlisted
            }
        }
        _ => Gives::Unlisted,
    }
}

fn return_type(header: &Header) -> resolved::ReturnType
    ensures { result ≡ spec.return_type header.now }
{
    match (header.returns.base, header.returns.is_pointer) {
        (BaseType::Integer(ty), false) => resolved::ReturnType::Integer(ty.c_type()),
        _ => {
            if header.is_start_routine() {
                resolved::ReturnType::Pointer
            } else {
                resolved::ReturnType::Void
            }
        }
    }
}

fn same_type(a: DeclaredType, b: DeclaredType) -> bool
    ensures { result ≡ spec.same_type a b }
{
    let same_base = match (a.base, b.base) {
        (BaseType::Integer(x), BaseType::Integer(y)) => x == y,
        (BaseType::Void, BaseType::Void)
        | (BaseType::Thread, BaseType::Thread)
        | (BaseType::Mutex, BaseType::Mutex)
        | (BaseType::Barrier, BaseType::Barrier)
        | (BaseType::Unlisted, BaseType::Unlisted) => true,
        _ => false,
    };
    same_base && ((a.is_pointer && b.is_pointer) || (!a.is_pointer && !b.is_pointer))
}

fn same_types(a: &[DeclaredType], b: &[DeclaredType]) -> bool
    ensures { result ≡ list_all (λ p. spec.same_type p.0 p.1) (zip a.now b.now) }
{
    a.iter().zip(b).all(|(x, y)| same_type(*x, *y))
}

/// Whether two headers declare a function of the same type.
fn is_same_function(known: &Header, header: &Header) -> bool
    ensures { result ≡ spec.is_same_function known.now header.now }
{
    let known_types = known.parameters.as_slice();
    let types = header.parameters.as_slice();
    same_type(known.returns, header.returns)
        && (known_types.len() == types.len() && same_types(known_types, types))
}

/// Declares a function at file scope, with a second body or not.
#[tactic(auto, unfolding(c_resolution::specs::Functions::declare_function, c_resolution::specs::Functions::declare_again))]
fn declare_function<'t>(
    scope: &mut Scope<'t>,
    found: &mut Findings,
    header: Header,
    name: &'t Name,
    is_second: bool,
) -> Result<(), AllocError>
    ensures { Walks (λ x. x) (spec.declare_function header name.now is_second (state scope.old found.old)) result (state scope.new found.new) }
{
    if LibraryFunction::from_name(name.bytes.as_slice()).is_some() {
        found.add(Rule::Twice, name.offset);
        return Ok(());
    }
    match scope.inner.get(name.bytes.as_slice()) {
        None => {
            let number = scope.headers.len();
            scope.headers.push(header)?;
            scope
                .inner
                .insert(name.bytes.as_slice(), Meaning::Function(number))
        }
        Some(Meaning::Function(number)) => {
            if let Some(known) = scope.headers.get(number) {
                found.add_if(is_second, Rule::Twice, name.offset);
                found.add_if(!is_same_function(known, &header), Rule::Kind, name.offset);
            }
            Ok(())
        }
        Some(_) => {
            found.add(Rule::Twice, name.offset);
            Ok(())
        }
    }
}

/// What a parameter stands for in the body.
#[tactic(auto, unfolding(c_resolution::specs::Functions::parameter_meaning))]
fn parameter_meaning(
    scope: &mut Scope<'_>,
    found: &mut Findings,
    parameter: &Parameter,
    is_routine: bool,
    offset: usize,
) -> Result<Meaning, AllocError>
    ensures { Walks (λ m. m) (spec.parameter_meaning parameter.now is_routine offset (state scope.old found.old)) result (state scope.new found.new) }
{
    let words = spelled_by(&parameter.specifiers);
    if parameter.is_pointer {
        found.add_if(!is_routine, Rule::Kind, offset);
        new_local(scope, words, Dimensions::Scalar, BasicType::Long)?;
        return Ok(Meaning::Argument);
    }
    match plain_type(words) {
        Some(ty) => new_local(scope, words, Dimensions::Scalar, ty),
        None => Ok(refused_local(found, words, offset)),
    }
}

/// Declares a parameter.
#[tactic(auto, unfolding(c_resolution::specs::Functions::parameter))]
fn parameter<'t>(
    scope: &mut Scope<'t>,
    found: &mut Findings,
    parameter: &'t Parameter,
    is_routine: bool,
    has_body: bool,
) -> Result<(), AllocError>
    ensures { Walks (λ x. x) (spec.parameter is_routine has_body parameter.now (state scope.old found.old)) result (state scope.new found.new) }
{
    match &parameter.name {
        Some(name) => {
            let meaning = parameter_meaning(scope, found, parameter, is_routine, name.offset)?;
            declare(scope, found, name, meaning)
        }
        None => {
            let offset = parameter.specifiers.offset;
            parameter_meaning(scope, found, parameter, is_routine, offset)?;
            found.add_if(has_body, Rule::Kind, offset);
            Ok(())
        }
    }
}

#[tactic(auto, unfolding(c_resolution::specs::Functions::parameters))]
fn parameters<'t>(
    scope: &mut Scope<'t>,
    found: &mut Findings,
    list: &'t [Parameter],
    is_routine: bool,
    has_body: bool,
) -> Result<(), AllocError>
    ensures { Walks (λ x. x) (spec.parameters is_routine has_body list.now (state scope.old found.old)) result (state scope.new found.new) }
{
    for next in list {
        parameter(scope, found, next, is_routine, has_body)?;
    }
    Ok(())
}

/// Names as text.
fn texts(alloc: Global, names: &[&[u8]]) -> Result<Vec<String>, AllocError>
    ensures { IfOk result (λ texts. map string_bytes texts.items ≡ map globals.text (map pointed names.now)) }
{
    let mut texts = Vec::new(alloc);
    for name in names {
        texts.push(text(alloc, name)?)?;
    }
    Ok(texts)
}

/// A function of the program with a body that travels in a box.
fn defined(
    name: String,
    returns: resolved::ReturnType,
    parameters: u32,
    declared_locals: u32,
    locals: Vec<resolved::LocalVariable>,
    local_names: Vec<String>,
    body: Box<resolved::Statement>,
    end: u32,
) -> resolved::Function
    ensures { function_of result ≡ record {
      name = string_bytes name;
      returns = returns;
      parameters = parameters;
      declared_locals = declared_locals;
      locals = locals.items;
      local_names = map string_bytes local_names.items;
      body = boxed_statement_of body;
      end = end;
    } }
{
    resolved::Function {
        name,
        returns,
        parameters,
        declared_locals,
        locals,
        local_names,
        body: Box::into_inner(body),
        end,
    }
}

/// Adds a function to the program. So many of its locals are its parameters, and so many are declared.
fn add_definition(
    alloc: Global,
    scope: &Scope<'_>,
    tables: &mut Tables,
    function: &Function,
    returns: resolved::ReturnType,
    block: &Block,
    count: usize,
    kept_from: u32,
    body: Box<resolved::Statement>,
) -> Result<(), AllocError>
    requires kept { kept_from ≡ spec.kept_from count block.now }
    ensures { OnOk result (tables_of tables.new
        ≡ with_function (spec.defined function.now returns block.now count (boxed_statement_of body) scope.now.locals scope.now.local_names)
        (tables_of tables.old)) }
{
    let name = text(alloc, function.name.bytes.as_slice())?;
    let mut locals = scope.locals.as_slice().to_vec(alloc)?;
    add_slots(&mut locals, u64::from(kept_from).max(slots_end(&body)))?;
    let local_names = texts(alloc, scope.local_names.as_slice())?;
    let added = defined(
        name,
        returns,
        place(count),
        kept_from,
        locals,
        local_names,
        body,
        place(block.close),
    );
    tables.functions.push(added)?;
    Ok(())
}

/// Adds the body of a function, if it has one, to the program. The parameters are declared.
#[tactic(auto, unfolding(c_resolution::specs::Functions::definition))]
fn body_of<'t>(
    alloc: Global,
    scope: &mut Scope<'t>,
    found: &mut Findings,
    tables: &mut Tables,
    function: &'t Function,
    returns: resolved::ReturnType,
) -> Result<(), AllocError>
    ensures { Walks (λ x. x) (spec.body_of function.now returns function.now.body (file scope.old found.old (tables_of tables.old)))
        result (file scope.new found.new (tables_of tables.new)) }
{
    let Some(block) = &function.body else {
        return Ok(());
    };
    let count = scope.locals.len();
    scope.function = Some(place(tables.functions.len()));
    scope.loops = 0;
    scope.exits = 0;
    let kept_from = place(count).saturating_add(block_declarators(block));
    scope.kept_from = kept_from;
    let body = items(alloc, scope, found, block)?;
    scope.function = None;
    add_definition(
        alloc, scope, tables, function, returns, block, count, kept_from, body,
    )
}

/// The next function has no locals yet.
fn forget_locals(alloc: Global, scope: &mut Scope<'_>)
    ensures { scope.new ≡ spec.without_locals scope.old }
{
    scope.locals = Items::new(alloc);
    scope.local_names.clear();
}

/// The name of a function, and its parameters in a scope of their own.
#[tactic(auto, unfolding(c_resolution::specs::Functions::head))]
fn head<'t>(
    alloc: Global,
    scope: &mut Scope<'t>,
    found: &mut Findings,
    function: &'t Function,
    header: Header,
    count: usize,
) -> Result<(), AllocError>
    ensures { Walks (λ x. x) (spec.head function.now header count (state scope.old found.old)) result (state scope.new found.new) }
{
    let gives = gives_of(&header);
    let is_routine = header.is_start_routine();
    let is_second = function.body.is_some() && header.definition != Some(place(count));
    scope.gives = gives;
    let is_unlisted = matches!(gives, Gives::Unlisted);
    found.add_if(is_unlisted, Rule::Kind, function.name.offset);
    declare_function(scope, found, header, &function.name, is_second)?;
    scope.open_block(alloc)?;
    let has_body = function.body.is_some();
    parameters(scope, found, written(function), is_routine, has_body)
}

/// A function with that header.
#[tactic(auto, unfolding(c_resolution::specs::Functions::function_by))]
fn function_by<'t>(
    alloc: Global,
    scope: &mut Scope<'t>,
    found: &mut Findings,
    tables: &mut Tables,
    function: &'t Function,
    header: Header,
) -> Result<(), AllocError>
    ensures { Walks (λ x. x) (spec.function_by function.now header (file scope.old found.old (tables_of tables.old)))
        result (file scope.new found.new (tables_of tables.new)) }
{
    let returns = return_type(&header);
    head(
        alloc,
        scope,
        found,
        function,
        header,
        tables.functions.len(),
    )?;
    body_of(alloc, scope, found, tables, function, returns)?;
    forget_locals(alloc, scope);
    scope.close_block();
    Ok(())
}

/// A function: its definition, or its prototype.
#[tactic(auto, unfolding(c_resolution::specs::Functions::function))]
pub fn function<'t>(
    alloc: Global,
    scope: &mut Scope<'t>,
    found: &mut Findings,
    tables: &mut Tables,
    function: &'t Function,
) -> Result<(), AllocError>
    ensures { Walks (λ x. x) (spec.function function.now (file scope.old found.old (tables_of tables.old)))
        result (file scope.new found.new (tables_of tables.new)) }
{
    let header = header(alloc, scope, function)?;
    function_by(alloc, scope, found, tables, function, header)
}
