//! The longest expression at a place.

ghost use Rattle.std.specs.Prelude.{◌≡◌, ◌-◌, ◌<◌, ◌≤◌, ◌^◌, length, drop, IfOk, IfSome, IfNone};
ghost use Rattle.c_tree.specs.Marks.{kinds_of};
ghost use Rattle.c_expr.specs.LongestExpression.{IsLongestExpression, BeginsNoExpression};

use crate::depths::expr;
use c_readers::{ASSIGN_LEVEL, Cursor, Failure, Names};
use c_tokens::Tokens;
use c_tree::{Expr, TypeNames};
use c_types::copy_name;
use std::alloc::{AllocError, Global};

/// The longest prefix of the tokens from `at` on that is an expression whose nodes are at most `depth` deep, and the
/// place behind it; none where no prefix is one. `names` are the type names that stand only as types.
///
/// The tokens are fewer than 2^31.
///
/// # Errors
///
/// `AllocError`, where no memory is left.
pub fn expression(
    alloc: Global,
    tokens: &Tokens,
    at: u32,
    names: &TypeNames,
    depth: u32,
) -> Result<Option<(Expr, u32)>, AllocError>
    requires { length tokens.now < 2 ^ 31 }
    ensures found { IfOk result (λ answer. IfSome answer (λ e. (at ≤ e.1) × IsLongestExpression names.now depth (drop at (kinds_of tokens.now)) e.0 (e.1 - at))) }
    ensures none { IfOk result (λ answer. IfNone answer (BeginsNoExpression names.now depth (drop at (kinds_of tokens.now)))) }
{
    let place = at as usize;
    if place > tokens.len() {
        return Ok(None);
    }
    let known = known_names(alloc, names)?;
    let mut cursor = Cursor::new(&tokens.as_slice()[place..]);
    match expr(alloc, &known, &mut cursor, depth as usize, ASSIGN_LEVEL) {
        Ok((expr, _height)) => Ok(Some((expr, (tokens.len() - cursor.left()) as u32))),
        Err(Failure::Mismatch) => Ok(None),
        Err(Failure::Memory) => Err(AllocError),
    }
}

/// The names, to be looked up.
fn known_names(alloc: Global, names: &TypeNames) -> Result<Names, AllocError>
    ensures { IfOk result (λ known. known ≡ names.now) }
{
    let mut known = Names::new(alloc);
    for name in names.as_slice() {
        known.push(copy_name(alloc, name)?)?;
    }
    Ok(known)
}
