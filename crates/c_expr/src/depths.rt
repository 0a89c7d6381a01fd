//! The functions that read at each depth, by the rules of that depth.

ghost use Rattle.std.specs.Prelude.{◌≡◌, ◌≤◌, ◌<◌, ◌^◌, true, IfOk};
ghost use Rattle.c_readers.specs.inner.Readers.{readers};
ghost use Rattle.c_readers.specs.inner.Reads.{Reads};

use crate::expressions::Expressions;
use c_declarators::Declarators;
use c_readers::{Cursor, Failure, Grammar, Names};
use c_tree::{Declarator, Expr, Params, Spec};
use sqlite_items::Boxed;
use std::alloc::Global;

/// An expression of this level or a tighter one, in a box.
#[cycle(nests)]
pub(crate) fn boxed_expr(
    alloc: Global,
    names: &Names,
    tokens: &mut Cursor<'_>,
    depth: usize,
    least: usize,
) -> Result<(Boxed<Expr>, usize), Failure>
    requires { depth < 2 ^ 32 }
    ensures reads { Reads ((readers names.now depth).expr least tokens.old) result tokens.new }
    ensures height { IfOk result (λ e. e.1 ≤ depth) }
{
    if depth == 0 {
        return Err(Failure::Mismatch);
    }
    let grammar = Grammar {
        alloc,
        names,
        depth,
        expr: boxed_expr,
        params,
    };
    Expressions { grammar }.level(tokens, least)
}

/// An expression of this level or a tighter one.
pub fn expr(
    alloc: Global,
    names: &Names,
    tokens: &mut Cursor<'_>,
    depth: usize,
    least: usize,
) -> Result<(Expr, usize), Failure>
    requires { depth < 2 ^ 32 }
    ensures reads { Reads ((readers names.now depth).expr least tokens.old) result tokens.new }
    ensures height { IfOk result (λ e. e.1 ≤ depth) }
{
    let (expr, height) = boxed_expr(alloc, names, tokens, depth, least)?;
    Ok((expr.into_inner(), height))
}

/// Parameters.
#[cycle(nests)]
pub fn params(
    alloc: Global,
    names: &Names,
    tokens: &mut Cursor<'_>,
    depth: usize,
) -> Result<(Params, usize), Failure>
    requires { depth < 2 ^ 32 }
    ensures reads { Reads ((readers names.now depth).params tokens.old) result tokens.new }
    ensures height { IfOk result (λ p. p.1 ≤ depth) }
{
    let grammar = Grammar {
        alloc,
        names,
        depth,
        expr: boxed_expr,
        params,
    };
    Declarators { grammar }.parameters(tokens)
}

/// What stands in front of a declarator. Structs in it may have bodies.
pub fn spec(
    alloc: Global,
    names: &Names,
    tokens: &mut Cursor<'_>,
    depth: usize,
) -> Result<(Spec, usize), Failure>
    requires { depth < 2 ^ 32 }
    ensures reads { Reads ((readers names.now depth).spec true tokens.old) result tokens.new }
    ensures height { IfOk result (λ s. s.1 ≤ depth) }
{
    let grammar = Grammar {
        alloc,
        names,
        depth,
        expr: boxed_expr,
        params,
    };
    let (spec, height) = Declarators { grammar }.spec(tokens, true)?;
    Ok((spec.into_inner(), height))
}

/// A declarator.
pub fn declarator(
    alloc: Global,
    names: &Names,
    tokens: &mut Cursor<'_>,
    depth: usize,
) -> Result<(Declarator, usize), Failure>
    requires { depth < 2 ^ 32 }
    ensures reads { Reads ((readers names.now depth).declarator tokens.old) result tokens.new }
    ensures height { IfOk result (λ d. d.1 ≤ depth) }
{
    let grammar = Grammar {
        alloc,
        names,
        depth,
        expr: boxed_expr,
        params,
    };
    let (declarator, height) = Declarators { grammar }.declarator(tokens)?;
    Ok((declarator.into_inner(), height))
}
