//! Trees in boxes: what reads one gives it in a box, so that an exit drops a box and no tree.

ghost use Rattle.std.specs.Prelude.{◌≡◌, ℕ, ◌≤◌, IfOk};
ghost use Rattle.c_tree.specs.Marks.{Kinds};
ghost use Rattle.c_readers.specs.inner.Parser.{WithHeight, pure};
ghost use Rattle.c_readers.specs.inner.Reads.{Reads};

use crate::error::Failure;
use sqlite_items::Boxed;
use std::alloc::Global;

/// The tree in a box, which is so high.
pub fn boxed<T: Drop>(alloc: Global, tree: T, height: usize) -> Result<(Boxed<T>, usize), Failure>
    ensures reads { (whole : WithHeight T) (ts : Kinds) → whole ≡ (tree, height) → Reads (pure whole ts) result ts }
    ensures height { (limit : ℕ) → height ≤ limit → IfOk result (λ t. t.1 ≤ limit) }
{
    Ok((Boxed::new(alloc, tree)?, height))
}
