//! The code of initialisers in memory: over the typed initialiser and the type of what it gives.

ghost use Rattle.std.specs.Prelude.{◌≡◌, map};
ghost use Rattle.elab_pieces.specs.Initialisers as spec;
ghost use Rattle.elab_pieces.specs.Initialisers.{leaves};
ghost use Rattle.elab_pieces.specs.Lines.{all_full};
ghost use Rattle.elab_statements.specs.Bodies.{PieceOutcome, piece_at};
ghost use Rattle.elab_statements.specs.inner.Leaves.{element_leaves, leaf_lines, member_leaves};
ghost use Rattle.elab_statements.specs.Initialised.{initialised_by};
ghost use Rattle.c_typed.specs.declared.statement.TypedInit.TheVariants as init;
ghost use Rattle.c_types.specs.Structs.{members_of as members_spec};
ghost use Rattle.elab_emit.specs.Emits.{IsSound};

use crate::body::Body;
use crate::leaves::given;
use crate::missing::{missing_elements, missing_members};
use crate::offsets::{members_of, next_offset};
use crate::targets::Target;
use crate::texts::text;
use c_typed::TypedInit;
use c_types::{Member, Ty};
use elab_emit::{Trouble, units};
use elab_rows::Scope;

/// The code of a variable's initialiser.
pub fn initialise(
    body: &mut Body,
    scope: &Scope,
    target: &Target,
    init: &TypedInit,
) -> Result<(), Trouble>
    requires { IsSound body.old.out }
    ensures made { PieceOutcome body.old (piece_at body.old (initialised_by scope.now target.now init.now)) result body.new }
    ensures sound { IsSound body.new.out }
{
    match init {
        TypedInit::Expr(expr) => given(body, scope, target, &target.ty, None, expr),
        _ => part(body, scope, target, &target.ty, 0, init),
    }
}

/// The code of a variable's initialiser that is a string.
pub fn initialise_text(
    body: &mut Body,
    scope: &Scope,
    target: &Target,
    bytes: &[u8],
) -> Result<(), Trouble>
    requires { IsSound body.old.out }
    ensures made { PieceOutcome body.old (piece_at body.old (initialised_by scope.now target.now (init.Text bytes.now))) result body.new }
    ensures sound { IsSound body.new.out }
{
    text(body, scope, target, &target.ty, 0, bytes)
}

/// The leaves of an initialiser of a part of this type at this offset.
#[cycle(parts)]
fn part(
    body: &mut Body,
    scope: &Scope,
    target: &Target,
    ty: &Ty,
    k: u32,
    init: &TypedInit,
) -> Result<(), Trouble>
    requires { IsSound body.old.out }
    ensures made { PieceOutcome body.old (piece_at body.old (leaf_lines scope.now target.now (leaves scope.now.structs init.now ty.now k))) result body.new }
    ensures sound { IsSound body.new.out }
{
    match init {
        TypedInit::Expr(expr) => given(body, scope, target, ty, Some(k), expr),
        TypedInit::Text(bytes) => text(body, scope, target, ty, k, bytes.as_slice()),
        TypedInit::Braces(parts) => braces(body, scope, target, ty, k, parts.as_slice()),
    }
}

/// Parts in braces.
///
/// # Errors
///
/// As of a statement; `Memory`, where the type has no parts, which typing refuses.
#[cycle(parts)]
fn braces(
    body: &mut Body,
    scope: &Scope,
    target: &Target,
    ty: &Ty,
    k: u32,
    parts: &[TypedInit],
) -> Result<(), Trouble>
    requires { IsSound body.old.out }
    ensures made { PieceOutcome body.old (piece_at body.old (leaf_lines scope.now target.now (spec.brace_leaves scope.now.structs (map (leaves scope.now.structs) parts.now) (spec.part_types scope.now.structs ty.now) k))) result body.new }
    ensures sound { IsSound body.new.out }
{
    match ty {
        Ty::Array(element, bound) => {
            elements(body, scope, target, element.get(), *bound, k, parts)
        }
        Ty::Struct(s) => {
            members(
                body,
                scope,
                target,
                members_of(&scope.structs, *s)?,
                k,
                parts,
            )
        }
        _ => Err(Trouble::Memory),
    }
}

/// The elements of an array.
#[cycle(parts)]
#[tactic(auto, using(crate::specs::inner::Pieces::reaches_start))]
fn elements(
    body: &mut Body,
    scope: &Scope,
    target: &Target,
    element: &Ty,
    bound: u32,
    k: u32,
    parts: &[TypedInit],
) -> Result<(), Trouble>
    requires { IsSound body.old.out }
    ensures made { PieceOutcome body.old (piece_at body.old (leaf_lines scope.now target.now (element_leaves scope.now.structs (map (leaves scope.now.structs) parts.now) element.now bound k))) result body.new }
    ensures sound { IsSound body.new.out }
{
    let units = units(scope, element)?;
    let mut at = k;
    let mut left = bound;
    for item in parts {
        if left == 0 {
            return Ok(());
        }
        part(body, scope, target, element, at, item)?;
        at = next_offset(at, units)?;
        left -= 1;
    }
    missing_elements(body, &scope.structs, target, element, left, at)
}

/// The members of a struct.
#[cycle(parts)]
#[tactic(auto, using(crate::specs::inner::Pieces::reaches_start))]
fn members(
    body: &mut Body,
    scope: &Scope,
    target: &Target,
    members: &[Member],
    k: u32,
    parts: &[TypedInit],
) -> Result<(), Trouble>
    requires { IsSound body.old.out }
    ensures made { PieceOutcome body.old (piece_at body.old (leaf_lines scope.now target.now (member_leaves scope.now.structs (map (leaves scope.now.structs) parts.now) members.now k))) result body.new }
    ensures sound { IsSound body.new.out }
{
    let mut at = k;
    let mut left = members;
    for item in parts {
        let Some((member, behind)) = left.split_first() else {
            return Ok(());
        };
        part(body, scope, target, &member.ty, at, item)?;
        let units = units(scope, &member.ty)?;
        at = next_offset(at, units)?;
        left = behind;
    }
    missing_members(body, &scope.structs, target, left, at)
}
