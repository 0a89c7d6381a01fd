//! The way of a source: from its bytes to its program.
ghost use Rattle.std.specs.Prelude.{◌≡◌, ◌≤◌, ◌<◌, ◌^◌, length, IfOk, IfErr};
ghost use Rattle.c_tree.specs.RoundTrip.{IsTextOf};
ghost use Rattle.core_ir.specs.Valid.{IsValid};
ghost use Rattle.levee_top.specs.Outcome.{greatest_job};
ghost use Rattle.levee_top.specs.Source.{HasTyped, IsProgramOf};
ghost use Rattle.levee_top.specs.inner.Failure.{SourceFails};

use super::failure::Failure;
use c_parser::parse;
use c_tokens::lex;
use c_tree::Unit;
use c_typed::Typed;
use c_typing::check;
use core_ir::Program;
use elab::elaborate;
use std::alloc::Global;

/// The tree of a source.
///
/// # Errors
///
/// `Refused` exactly where it has none, with why, and `Memory`.
fn tree_of(alloc: Global, source: &[u8]) -> Result<Unit, Failure>
    requires { length source.now ≤ greatest_job }
    ensures read { IfOk result (λ tree. IsTextOf tree source.now) }
    ensures count { IfOk result (λ tree. length tree.items < 2 ^ 31) }
    ensures fails { IfErr result (SourceFails source.now) }
{
    let tokens = lex(alloc, source)?;
    Ok(parse(alloc, &tokens)?)
}

/// The typed form of a source.
///
/// # Errors
///
/// `Refused` exactly where it has none, with why, and `Memory`.
fn typed_of(alloc: Global, source: &[u8]) -> Result<Typed, Failure>
    requires { length source.now ≤ greatest_job }
    ensures has { IfOk result (HasTyped source.now) }
    ensures fails { IfErr result (SourceFails source.now) }
{
    let tree = tree_of(alloc, source)?;
    Ok(check(alloc, &tree)?)
}

/// The program of a source. Neither its tree nor its typed form is kept.
///
/// # Errors
///
/// `Refused` exactly where it has none, with why, and `Memory`.
pub fn compile(alloc: Global, source: &[u8]) -> Result<Program, Failure>
    requires { length source.now ≤ greatest_job }
    ensures is { IfOk result (IsProgramOf source.now) }
    ensures valid { IfOk result IsValid }
    ensures fails { IfErr result (SourceFails source.now) }
{
    let typed = typed_of(alloc, source)?;
    Ok(elaborate(alloc, &typed)?)
}
