//! The rules of one depth take the functions that read expressions and parameters of the depth below, so that each
//! is proved by itself.

ghost use Rattle.std.specs.Prelude.{◌≡◌, ◌≤◌, ◌<◌, ◌-◌, IfOk};
ghost use Rattle.c_readers.specs.inner.Nests.{Nests, below};
ghost use Rattle.c_readers.specs.inner.Readers.{readers};
ghost use Rattle.c_readers.specs.inner.Reads.{Reads};

use crate::cursor::Cursor;
use crate::error::Failure;
use crate::names::Names;
use c_tree::{Expr, Params};
use sqlite_items::Boxed;
use std::alloc::{AllocError, Global};

/// The rules of one depth.
pub struct Grammar<'n, F, G> {
    pub alloc: Global,
    pub names: &'n Names,
    /// How deep the nodes of a tree may be.
    pub depth: usize,
    /// Reads an expression of a smaller depth.
    pub expr: F,
    /// Reads parameters of a smaller depth.
    pub params: G,
}

impl<'n, F: Copy, G: Copy> Copy for Grammar<'n, F, G> {}

// By hand, since the derived one clones field by field, which is long to prove.
impl<'n, F: Copy, G: Copy> Clone for Grammar<'n, F, G> {
    ghost use Rattle.std.specs.Prelude.{◌≡◌, ⊤};

    ghost is_clone = { λ x y. y ≡ x };

    ghost is_infallible = { λ _. ⊤ };

    fn clone(&self) -> Result<Grammar<'n, F, G>, AllocError> {
        Ok(Grammar { ..*self })
    }
}

impl<'n, F, G> Grammar<'n, F, G>
where
    F: Fn(Global, &Names, &mut Cursor<'_>, usize, usize) -> Result<(Boxed<Expr>, usize), Failure>
        + Copy,
    G: Fn(Global, &Names, &mut Cursor<'_>, usize) -> Result<(Params, usize), Failure> + Copy,
{
    /// An expression of the depth below. It is in a box from the start, so that an exit drops a box and no tree.
    pub fn inner_expr(
        &self,
        tokens: &mut Cursor<'_>,
        least: usize,
    ) -> Result<(Boxed<Expr>, usize), Failure>
        requires { Nests self.now.depth (F.pre self.now.expr) (F.post self.now.expr) (G.pre self.now.params) (G.post self.now.params) }
        ensures reads { Reads ((below self.now.names.now self.now.depth).expr least tokens.old) result tokens.new }
        ensures height { IfOk result (λ e. e.1 ≤ self.now.depth - 1) }
    {
        if self.depth == 0 {
            return Err(Failure::Mismatch);
        }
        (self.expr)(self.alloc, self.names, tokens, self.depth - 1, least)
    }

    /// Parameters of the depth below.
    pub fn inner_params(&self, tokens: &mut Cursor<'_>) -> Result<(Params, usize), Failure>
        requires { Nests self.now.depth (F.pre self.now.expr) (F.post self.now.expr) (G.pre self.now.params) (G.post self.now.params) }
        ensures reads { Reads ((below self.now.names.now self.now.depth).params tokens.old) result tokens.new }
        ensures height { IfOk result (λ p. p.1 ≤ self.now.depth - 1) }
    {
        if self.depth == 0 {
            return Err(Failure::Mismatch);
        }
        (self.params)(self.alloc, self.names, tokens, self.depth - 1)
    }

    /// The rules of the depth below.
    #[tactic(auto, using(crate::specs::inner::NestsLemmas::below_more))]
    pub fn inner(&self) -> Grammar<'n, F, G>
        requires some { 0 < self.now.depth }
        requires nests { Nests self.now.depth (F.pre self.now.expr) (F.post self.now.expr) (G.pre self.now.params) (G.post self.now.params) }
        ensures depth { result.depth ≡ self.now.depth - 1 }
        ensures readers { readers result.names.now result.depth ≡ below self.now.names.now self.now.depth }
        ensures nests { Nests result.depth (F.pre result.expr) (F.post result.expr) (G.pre result.params) (G.post result.params) }
    {
        Grammar {
            depth: self.depth - 1,
            ..*self
        }
    }

    /// How deep the parts of a tree may be.
    pub fn limit(&self) -> usize
        ensures { result ≡ self.now.depth - 1 }
    {
        self.depth.saturating_sub(1)
    }
}
