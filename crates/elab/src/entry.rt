//! The entry function: it stores what globals and strings begin with, and calls `main`.

ghost use Rattle.std.specs.Prelude.{◌≡◌, ◌+◌, [], ◌∷◌, Some, codes, length};
ghost use Rattle.std.specs.Option.{option_copied};
ghost use Rattle.c_typed.specs.declared.statement.TypedInit.TheVariants as init;
ghost use Rattle.elab_pieces.specs.Entry as spec;
ghost use Rattle.elab_pieces.specs.Globals as globals;
ghost use Rattle.elab_statements.specs.Bodies.{PieceOutcome, PutAll, piece_at};
ghost use Rattle.elab.specs.inner.Programs.{FunctionOutcome, RunOutcome};
ghost use Rattle.elab_emit.specs.Emits.{IsSound};
ghost use Rattle.elab_rows.specs.Scope.{function_number};

use crate::frames::Frame;
use crate::functions::Elaborated;
use crate::globals::string_type;
use c_typed::{Entity, Typed, TypedInit, TypedInitDeclarator, TypedItem};
use c_types::{FnTy, Ty, copy_type};
use core_ir::Instr;
use elab_emit::{Trouble, put};
use elab_rows::Scope;
use elab_statements::{Base, Body, Target, initialise, initialise_text, next_offset};
use sqlite_items::Items;
use std::alloc::Global;

/// The initialiser of a global, if it has one.
fn optional(
    body: &mut Body,
    scope: &Scope,
    g: u32,
    ty: &Ty,
    init: Option<&TypedInit>,
) -> Result<(), Trouble>
    requires { IsSound body.old.out }
    ensures made { PieceOutcome body.old (piece_at body.old (spec.optional_given scope.now g ty.now (option_copied init.entry))) result body.new }
    ensures sound { IsSound body.new.out }
{
    let Some(init) = init else {
        return Ok(());
    };
    let target = Target {
        base: Base::Global(g),
        ty: copy_type(ty)?,
        all: false,
    };
    initialise(body, scope, &target, init)
}

/// The initialiser of a declared name that is this global, if it is one. The number of the next.
fn declared(
    body: &mut Body,
    scope: &Scope,
    g: u32,
    declarator: &TypedInitDeclarator,
) -> Result<u32, Trouble>
    requires { IsSound body.old.out }
    ensures made { let gs = globals.declared_globals (declarator.now ∷ []) [] in RunOutcome body.old (spec.globals_initialised scope.now g gs) (g + length gs) result body.new }
    ensures sound { IsSound body.new.out }
{
    let Entity::Global(_) = declarator.entity else {
        return Ok(g);
    };
    let ty = &declarator.declared.ty;
    optional(body, scope, g, ty, declarator.init.as_ref())?;
    let next = next_offset(g, 1)?;
    Ok(next)
}

/// The initialisers of the globals among these declarators, of which this is the first. The number of the next.
fn all_declared(
    body: &mut Body,
    scope: &Scope,
    g: u32,
    declarators: &[TypedInitDeclarator],
) -> Result<u32, Trouble>
    requires { IsSound body.old.out }
    ensures made { let gs = globals.declared_globals declarators.now [] in RunOutcome body.old (spec.globals_initialised scope.now g gs) (g + length gs) result body.new }
    ensures sound { IsSound body.new.out }
{
    let mut next = g;
    for declarator in declarators {
        next = declared(body, scope, next, declarator)?;
    }
    Ok(next)
}

/// The initialisers of the globals that an item declares, of which this is the first. The number of the next.
fn item_variables(body: &mut Body, scope: &Scope, g: u32, item: &TypedItem) -> Result<u32, Trouble>
    requires { IsSound body.old.out }
    ensures made { let gs = globals.globals (item.now ∷ []) in RunOutcome body.old (spec.globals_initialised scope.now g gs) (g + length gs) result body.new }
    ensures sound { IsSound body.new.out }
{
    match item {
        TypedItem::Decl(decl) => all_declared(body, scope, g, decl.declarators.as_slice()),
        TypedItem::Typedef(_, _) => Ok(g),
        TypedItem::Function(_) => Ok(g),
    }
}

/// The initialisers of a source's globals.
fn variables(body: &mut Body, scope: &Scope, items: &[TypedItem]) -> Result<(), Trouble>
    requires { IsSound body.old.out }
    ensures made { PieceOutcome body.old (piece_at body.old (spec.globals_initialised scope.now 0 (globals.globals items.now))) result body.new }
    ensures sound { IsSound body.new.out }
{
    let mut next = 0;
    for item in items {
        next = item_variables(body, scope, next, item)?;
    }
    Ok(())
}

/// The units of a string, whose object is this global.
fn string_object(
    alloc: Global,
    body: &mut Body,
    scope: &Scope,
    g: u32,
    bytes: &[u8],
) -> Result<(), Trouble>
    requires { IsSound body.old.out }
    ensures made { PieceOutcome body.old (piece_at body.old (spec.optional_given scope.now g (globals.string_type bytes.now) (Some (init.Text bytes.now)))) result body.new }
    ensures sound { IsSound body.new.out }
{
    let target = Target {
        base: Base::Global(g),
        ty: string_type(alloc, bytes)?,
        all: false,
    };
    initialise_text(body, scope, &target, bytes)
}

/// The units of a source's strings.
fn strings(
    alloc: Global,
    body: &mut Body,
    scope: &Scope,
    strings: &[Items<u8>],
) -> Result<(), Trouble>
    requires { IsSound body.old.out }
    ensures made { PieceOutcome body.old (piece_at body.old (spec.strings_initialised scope.now scope.now.first_string strings.now)) result body.new }
    ensures sound { IsSound body.new.out }
{
    let mut g = scope.first_string;
    for bytes in strings {
        string_object(alloc, body, scope, g, bytes.as_slice())?;
        g = next_offset(g, 1)?;
    }
    Ok(())
}

/// The number of `main`.
#[tactic(auto, unfolding(elab_rows::specs::Scope::function_number))]
fn main_number(scope: &Scope) -> usize
    ensures { result ≡ function_number scope.now.functions (codes "main") }
{
    scope.functions.find(b"main".as_slice()).unwrap_or(0)
}

/// `Call main; Return`.
fn start(body: &mut Body, scope: &Scope) -> Result<(), Trouble>
    requires { IsSound body.old.out }
    ensures made { PutAll body.old (spec.start scope.now) result body.new }
    ensures sound { IsSound body.new.out }
{
    let main = main_number(scope);
    if main > u32::MAX as usize {
        return Err(Trouble::Memory);
    }
    let args = Items::new(body.out.alloc);
    put(
        &mut body.out,
        Instr::Call {
            f: main as u32,
            args,
            s: None,
        },
    )?;
    put(&mut body.out, Instr::Return { a: None })
}

/// The whole body of the entry function.
fn entry_body(alloc: Global, body: &mut Body, scope: &Scope, typed: &Typed) -> Result<(), Trouble>
    requires { IsSound body.old.out }
    ensures made { PieceOutcome body.old (piece_at body.old (spec.entry_code scope.now (globals.globals typed.now.items) typed.now.strings)) result body.new }
    ensures sound { IsSound body.new.out }
{
    variables(body, scope, typed.items.as_slice())?;
    strings(alloc, body, scope, typed.strings.as_slice())?;
    start(body, scope)
}

/// The type of the entry function.
fn entry_type(alloc: Global) -> FnTy
    ensures { result ≡ spec.entry_type }
{
    FnTy {
        result: Ty::Void,
        params: Items::new(alloc),
    }
}

/// No frame.
fn no_frame(alloc: Global) -> Frame
    ensures locals { result.locals ≡ [] }
    ensures units { result.units ≡ 0 }
{
    Frame {
        locals: Items::new(alloc),
        units: 0,
    }
}

/// The entry function of a source.
pub(crate) fn entry_function(
    alloc: Global,
    scope: &Scope,
    typed: &Typed,
) -> Result<Elaborated, Trouble>
    ensures { FunctionOutcome (spec.entry_function scope.now (globals.globals typed.now.items) typed.now.strings) result }
{
    let mut body = Body::new(alloc, 0);
    entry_body(alloc, &mut body, scope, typed)?;
    let ty = entry_type(alloc);
    let frame = no_frame(alloc);
    Ok(Elaborated {
        ty,
        body,
        frame: Some(frame),
    })
}
