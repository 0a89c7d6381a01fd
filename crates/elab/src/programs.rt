//! Whole sources.

ghost use Rattle.std.specs.Prelude.{◌≡◌, [], ◌∷◌, ◌++◌, List, IfOk, None, OnOk, map};
ghost use Rattle.c_tree.specs.declared.statement.Unit.{Unit as Tree};
ghost use Rattle.c_tree.specs.Marks.{Kinds};
ghost use Rattle.c_tree.specs.Statements.{SourceReads};
ghost use Rattle.c_typing.specs.Theorems.{HasForm};
ghost use Rattle.core_ir.specs.declared.program.Function.{Function};
ghost use Rattle.core_ir.specs.Typed.{IsTypedCode};
ghost use Rattle.core_ir.specs.Valid.{IsValid};
ghost use Rattle.elab_pieces.specs.Functions.{function_code};
ghost use Rattle.elab_pieces.specs.Limits.{first_limit};
ghost use Rattle.elab_pieces.specs.Program as spec;
ghost use Rattle.elab_pieces.specs.Program.{program_of};
ghost use Rattle.elab.specs.inner.Programs.{AddsAll, FunctionOutcome, FunctionsOutcome, HoldsAll, IsFunction, bare, entry_of};
ghost use Rattle.elab.specs.Refusals.{RefusesOnly};

use crate::entry::entry_function;
use crate::error::ElabRefusal;
use crate::functions::{Elaborated, finished, function, has_room};
use crate::globals::{count_globals, global_list};
use crate::limits::{MOST_FUNCTIONS, Passed, limit};
use c_typed::{Typed, TypedDeclarator, TypedDirect, TypedFn, TypedItem};
use c_types::{Name, StructTable, Ty, copy_name, copy_table};
use core_ir::{FunctionList, Program};
use elab_emit::Trouble;
use elab_pieces::LimitName;
use elab_rows::Scope;
use elab_source_laws::{accepted_programs_are_typed, accepted_programs_are_valid};
use sqlite_items::Items;
use std::alloc::{AllocError, Global};
use tables::Table;

/// The name that a declarator declares.
#[tactic(auto, using(crate::proofs::Names::name_plain, crate::proofs::Names::name_bracketed))]
fn name_of(declarator: &TypedDeclarator) -> &Name
    ensures { result.now ≡ spec.declarator_name declarator.now }
{
    match &declarator.direct {
        TypedDirect::Name(name) => name,
        TypedDirect::Bracketed(inside) => name_of(inside.get()),
    }
}

/// The name of the function that an item defines, if it defines one, behind these.
fn push_name(alloc: Global, item: &TypedItem, names: &mut Table<Name>) -> Result<(), AllocError>
    ensures { OnOk result (names.new ≡ names.old ++ map (λ f. spec.name_of f.declared) (spec.definitions (item.now ∷ []))) }
{
    match item {
        TypedItem::Function(f) => names.push(copy_name(alloc, name_of(&f.declared.declarator))?),
        TypedItem::Decl(_) => Ok(()),
        TypedItem::Typedef(_, _) => Ok(()),
    }
}

/// The names of the functions that are defined, in order.
fn function_names(alloc: Global, items: &[TypedItem]) -> Result<Table<Name>, AllocError>
    ensures { IfOk result (λ names. names ≡ map (λ f. spec.name_of f.declared) (spec.definitions items.now)) }
{
    let mut names = Table::new(alloc);
    for item in items {
        push_name(alloc, item, &mut names)?;
    }
    Ok(names)
}

/// What all functions of the file see.
fn file_scope(alloc: Global, typed: &Typed) -> Result<Scope, AllocError>
    ensures { IfOk result (λ scope. scope ≡ spec.file_scope typed.now) }
{
    Ok(Scope {
        structs: copy_table(alloc, &typed.structs)?,
        functions: function_names(alloc, typed.items.as_slice())?,
        first_string: count_globals(typed.items.as_slice())?,
        locals: Items::new(alloc),
        result: Ty::Void,
        has_frame: false,
        folds: false,
    })
}

/// The functions so far: those whose frame isn't too large, and which limits are passed.
#[derive(Drop)]
struct Functions {
    list: FunctionList,
    passed: Passed,
}

impl Functions {
    /// None.
    fn new(alloc: Global) -> Functions
        ensures { HoldsAll result [] }
    {
        Functions {
            list: Items::new(alloc),
            passed: Passed::new(),
        }
    }

    /// One more.
    fn add(&mut self, made: Elaborated) -> Result<(), AllocError>
        ensures { (fs : List Function) (f : Function) → HoldsAll self.old fs → IsFunction f made → OnOk result (HoldsAll self.new (fs ++ f ∷ [])) }
    {
        let room = has_room(&made.frame);
        self.passed
            .note(made.body.registers, made.body.out.slot, room);
        match finished(made) {
            Some(function) => self.list.push(function),
            None => Ok(()),
        }
    }
}

/// The function of a definition, behind those that are there.
fn add_function(
    alloc: Global,
    scope: &mut Scope,
    definition: &TypedFn,
    functions: &mut Functions,
) -> Result<(), ElabRefusal>
    ensures added { (fs : List Function) → HoldsAll functions.old fs
        → AddsAll fs (function_code (bare scope.old) definition.now ∷ []) result functions.new }
    ensures scope { bare scope.new ≡ bare scope.old }
{
    let made = function(alloc, scope, definition)?;
    functions.add(made)?;
    Ok(())
}

/// The function that an item defines, behind those that are there.
fn add_item(
    alloc: Global,
    scope: &mut Scope,
    item: &TypedItem,
    functions: &mut Functions,
) -> Result<(), ElabRefusal>
    ensures added { (fs : List Function) → HoldsAll functions.old fs
        → AddsAll fs (map (function_code (bare scope.old)) (spec.definitions (item.now ∷ []))) result functions.new }
    ensures scope { bare scope.new ≡ bare scope.old }
{
    match item {
        TypedItem::Function(definition) => add_function(alloc, scope, definition, functions),
        TypedItem::Decl(_) => Ok(()),
        TypedItem::Typedef(_, _) => Ok(()),
    }
}

/// The functions of a source, each behind those that are there.
fn add_definitions(
    alloc: Global,
    scope: &mut Scope,
    items: &[TypedItem],
    functions: &mut Functions,
) -> Result<(), ElabRefusal>
    ensures added { (fs : List Function) → HoldsAll functions.old fs
        → AddsAll fs (map (function_code (bare scope.old)) (spec.definitions items.now)) result functions.new }
    ensures scope { bare scope.new ≡ bare scope.old }
{
    for item in items {
        add_item(alloc, scope, item, functions)?;
    }
    Ok(())
}

/// The functions, unless a limit is passed.
fn within_limits(functions: Functions) -> Result<FunctionList, ElabRefusal>
    ensures { (fs : List Function) → HoldsAll functions fs → FunctionsOutcome fs result }
{
    match functions.passed.first() {
        Some(which) => Err(limit(which)),
        None => Ok(functions.list),
    }
}

/// The entry function of a source.
fn entry_of(alloc: Global, scope: &mut Scope, typed: &Typed) -> Result<Elaborated, Trouble>
    requires { scope.old ≡ spec.file_scope typed.now }
    ensures made { FunctionOutcome (entry_of typed.now) result }
    ensures scope { scope.new ≡ scope.old }
{
    scope.folds = true;
    let entry = entry_function(alloc, scope, typed);
    scope.folds = false;
    entry
}

/// The functions of a source, and the entry function behind them.
fn all_functions(
    alloc: Global,
    scope: &mut Scope,
    typed: &Typed,
) -> Result<FunctionList, ElabRefusal>
    requires { scope.old ≡ spec.file_scope typed.now }
    ensures functions { FunctionsOutcome (spec.function_list typed.now) result }
    ensures scope { bare scope.new ≡ bare scope.old }
{
    let mut functions = Functions::new(alloc);
    let entry = entry_of(alloc, scope, typed)?;
    add_definitions(alloc, scope, typed.items.as_slice(), &mut functions)?;
    functions.add(entry)?;
    within_limits(functions)
}

/// The program of a typed source, or the first limit that it passes. The scope gives its table of structs.
fn program_in(alloc: Global, scope: &mut Scope, typed: &Typed) -> Result<Program, ElabRefusal>
    requires { scope.old ≡ spec.file_scope typed.now }
    ensures program { IfOk result (λ p. p ≡ program_of typed.now) }
    ensures limits { IfOk result (λ p. first_limit p ≡ None) }
    ensures refused { RefusesOnly (first_limit (program_of typed.now)) result }
{
    let entry = scope.functions.len();
    if entry > MOST_FUNCTIONS {
        return Err(limit(LimitName::Functions));
    }
    let functions = all_functions(alloc, scope, typed)?;
    let globals = global_list(alloc, scope, typed)?;
    let structs = std::mem::replace(&mut scope.structs, StructTable::new(alloc));
    Ok(Program {
        functions,
        globals,
        structs,
        entry: entry as u32,
    })
}

/// The same from no scope on.
fn whole_program(alloc: Global, typed: &Typed) -> Result<Program, ElabRefusal>
    ensures program { IfOk result (λ p. p ≡ program_of typed.now) }
    ensures limits { IfOk result (λ p. first_limit p ≡ None) }
    ensures refused { RefusesOnly (first_limit (program_of typed.now)) result }
{
    let mut scope = file_scope(alloc, typed)?;
    program_in(alloc, &mut scope, typed)
}

/// The program of a typed source.
///
/// # Errors
///
/// `Limit`, exactly where memory lasts and its program passes a limit: the first one that it passes. `Memory` can come in
/// place of every other answer.
pub fn elaborate(alloc: Global, typed: &Typed) -> Result<Program, ElabRefusal>
    ensures program { IfOk result (λ p. p ≡ program_of typed.now) }
    ensures limits { IfOk result (λ p. first_limit p ≡ None) }
    ensures refused { RefusesOnly (first_limit (program_of typed.now)) result }

    // The program of a source that the grammar derives and that breaks no rule is valid.
    ensures valid { (tokens : Kinds) (tree : Tree) → SourceReads tokens tree → HasForm tree typed.now → IfOk result IsValid }
    // Its registers and slots have types, as its instructions ask.
    ensures typed { (tokens : Kinds) (tree : Tree) → SourceReads tokens tree → HasForm tree typed.now → IfOk result IsTypedCode }
{
    accepted_programs_are_valid(typed);
    accepted_programs_are_typed(typed);
    whole_program(alloc, typed)
}
