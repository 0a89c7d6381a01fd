//! Arrays that a string gives.

ghost use Rattle.std.specs.Prelude.{◌≡◌, [], ◌∷◌, ◌++◌};
ghost use Rattle.elab_statements.specs.Bodies.{PieceOutcome, piece_at};
ghost use Rattle.elab_statements.specs.inner.Leaves.{text_lines};
ghost use Rattle.elab_emit.specs.Emits.{IsSound};
ghost use Rattle.elab_rows.specs.Units.{scalars};

use crate::body::Body;
use crate::leaves::byte_leaf;
use crate::missing::missing_scalars;
use crate::offsets::next_offset;
use crate::targets::Target;
use c_types::Ty;
use elab_emit::{Trouble, list_scalars};
use elab_rows::Scope;
use sqlite_items::Items;

/// The bytes of a string and its final 0, as far as the variable has room; the rest is missing.
pub(crate) fn text(
    body: &mut Body,
    scope: &Scope,
    target: &Target,
    ty: &Ty,
    k: u32,
    bytes: &[u8],
) -> Result<(), Trouble>
    requires { IsSound body.old.out }
    ensures made { PieceOutcome body.old (piece_at body.old (text_lines target.now (bytes.now ++ 0 ∷ []) (scalars scope.now.structs ty.now) k)) result body.new }
    ensures sound { IsSound body.new.out }
{
    let mut all = Items::new(body.out.alloc);
    list_scalars(&scope.structs, ty, &mut all)?;
    byte_leaves(body, target, all.as_slice(), k, bytes)
}

/// The same of scalars.
fn byte_leaves(
    body: &mut Body,
    target: &Target,
    scalars: &[Ty],
    k: u32,
    bytes: &[u8],
) -> Result<(), Trouble>
    requires { IsSound body.old.out }
    ensures made { PieceOutcome body.old (piece_at body.old (text_lines target.now (bytes.now ++ 0 ∷ []) scalars.now k)) result body.new }
    ensures sound { IsSound body.new.out }
{
    let mut at = k;
    let mut left = scalars;
    for byte in bytes {
        let Some((ty, behind)) = left.split_first() else {
            return Ok(());
        };
        byte_leaf(body, target, ty, at, *byte)?;
        at = next_offset(at, 1)?;
        left = behind;
    }
    last_byte(body, target, left, at)
}

/// The final 0, and what is missing behind it.
fn last_byte(body: &mut Body, target: &Target, scalars: &[Ty], k: u32) -> Result<(), Trouble>
    requires { IsSound body.old.out }
    ensures made { PieceOutcome body.old (piece_at body.old (text_lines target.now (0 ∷ []) scalars.now k)) result body.new }
    ensures sound { IsSound body.new.out }
{
    let Some((ty, behind)) = scalars.split_first() else {
        return Ok(());
    };
    byte_leaf(body, target, ty, k, 0)?;
    let at = next_offset(k, 1)?;
    missing_scalars(body, target, behind, at)
}
