//! Statements and blocks of each depth, by the rules of the depth below.

ghost use Rattle.std.specs.Prelude.{◌≡◌, ◌≤◌, ◌<◌, ◌^◌, IfOk};
ghost use Rattle.c_readers.specs.inner.Reads.{Reads};
ghost use Rattle.c_statements.specs.inner.Readers as reader;

use crate::statements::Rules;
use c_readers::{Cursor, Failure, Names};
use c_tree::{Block, Stmt};
use std::alloc::Global;

/// A statement.
pub(crate) fn stmt(
    alloc: Global,
    names: &Names,
    tokens: &mut Cursor<'_>,
    depth: usize,
) -> Result<(Stmt, usize), Failure>
    requires { depth < 2 ^ 31 }
    ensures reads { Reads (reader.stmt names.now depth tokens.old) result tokens.new }
    ensures height { IfOk result (λ s. s.1 ≤ depth) }
{
    if depth == 0 {
        return Err(Failure::Mismatch);
    }
    Rules {
        alloc,
        names,
        depth: depth - 1,
        stmt,
    }
    .statement(tokens)
}

/// A block, which is no node.
pub fn block(
    alloc: Global,
    names: &Names,
    tokens: &mut Cursor<'_>,
    depth: usize,
) -> Result<(Block, usize), Failure>
    requires { depth < 2 ^ 31 }
    ensures reads { Reads (reader.of_depth reader.block names.now depth tokens.old) result tokens.new }
    ensures height { IfOk result (λ b. b.1 ≤ depth) }
{
    Rules {
        alloc,
        names,
        depth,
        stmt,
    }
    .block(tokens)
}
