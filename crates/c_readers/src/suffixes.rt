//! What stands behind a declarator.

ghost use Rattle.std.specs.Prelude.{◌≡◌, ◌≤◌, ◌-◌, IfOk};
ghost use Rattle.c_readers.specs.inner.Behind.{given};
ghost use Rattle.c_readers.specs.inner.Nests.{Nests, below};
ghost use Rattle.c_readers.specs.inner.Readers as reader;
ghost use Rattle.c_readers.specs.inner.Reads.{Reads};

use crate::boxes::boxed;
use crate::cursor::Cursor;
use crate::error::Failure;
use crate::grammar::Grammar;
use crate::level::CONDITIONAL_LEVEL;
use crate::names::Names;
use c_tokens::Mark;
use c_tree::{Expr, Params, Suffix};
use sqlite_items::{Boxed, Items};
use std::alloc::Global;

impl<'n, F, G> Grammar<'n, F, G>
where
    F: Fn(Global, &Names, &mut Cursor<'_>, usize, usize) -> Result<(Boxed<Expr>, usize), Failure>
        + Copy,
    G: Fn(Global, &Names, &mut Cursor<'_>, usize) -> Result<(Params, usize), Failure> + Copy,
{
    /// The bound of an array, if there is one, behind its `[`.
    #[tactic(auto, unfolding(crate::specs::inner::Readers::bound))]
    fn bound(&self, tokens: &mut Cursor<'_>) -> Result<(Boxed<Suffix>, usize), Failure>
        requires { Nests self.now.depth (F.pre self.now.expr) (F.post self.now.expr) (G.pre self.now.params) (G.post self.now.params) }
        ensures reads { Reads (reader.bound self.now.names.now (below self.now.names.now self.now.depth) tokens.old) result tokens.new }
        ensures height { IfOk result (λ s. s.1 ≤ self.now.depth - 1) }
    {
        if tokens.eat(Mark::RightBracket) {
            return boxed(self.alloc, Suffix::Array(None), 0);
        }
        let (size, height) = self.inner_expr(tokens, CONDITIONAL_LEVEL)?;
        tokens.expect(Mark::RightBracket)?;
        boxed(self.alloc, Suffix::Array(Some(size.into_inner())), height)
    }

    /// Parameters, behind their `(`.
    #[tactic(auto, unfolding(crate::specs::inner::Behind::given))]
    fn given(&self, tokens: &mut Cursor<'_>) -> Result<(Boxed<Suffix>, usize), Failure>
        requires { Nests self.now.depth (F.pre self.now.expr) (F.post self.now.expr) (G.pre self.now.params) (G.post self.now.params) }
        ensures reads { Reads (given (below self.now.names.now self.now.depth) tokens.old) result tokens.new }
        ensures height { IfOk result (λ s. s.1 ≤ self.now.depth - 1) }
    {
        let (given, height) = self.inner_params(tokens)?;
        tokens.expect(Mark::RightParenthesis)?;
        boxed(self.alloc, Suffix::Function(given), height)
    }

    /// A bound in brackets, or parameters in parentheses.
    #[tactic(auto, unfolding(crate::specs::inner::Readers::suffix, crate::specs::inner::Behind::given))]
    fn suffix(&self, tokens: &mut Cursor<'_>) -> Result<(Boxed<Suffix>, usize), Failure>
        requires { Nests self.now.depth (F.pre self.now.expr) (F.post self.now.expr) (G.pre self.now.params) (G.post self.now.params) }
        ensures reads { Reads (reader.suffix self.now.names.now (below self.now.names.now self.now.depth) tokens.old) result tokens.new }
        ensures height { IfOk result (λ s. s.1 ≤ self.now.depth - 1) }
    {
        if tokens.eat(Mark::LeftBracket) {
            return self.bound(tokens);
        }
        tokens.expect(Mark::LeftParenthesis)?;
        self.given(tokens)
    }

    /// All the suffixes that come next.
    pub fn suffixes(&self, tokens: &mut Cursor<'_>) -> Result<(Items<Suffix>, usize), Failure>
        requires { Nests self.now.depth (F.pre self.now.expr) (F.post self.now.expr) (G.pre self.now.params) (G.post self.now.params) }
        ensures reads { Reads (reader.suffixes self.now.names.now (below self.now.names.now self.now.depth) tokens.old) result tokens.new }
        ensures height { IfOk result (λ ss. ss.1 ≤ self.now.depth - 1) }
    {
        let mut found = Items::new(self.alloc);
        let mut height = 0;
        for _turn in 0..tokens.left() {
            if !tokens.sees(Mark::LeftBracket) && !tokens.sees(Mark::LeftParenthesis) {
                return Ok((found, height));
            }
            let (suffix, its_height) = self.suffix(tokens)?;
            found.push(suffix.into_inner())?;
            height = height.max(its_height);
        }
        Ok((found, height))
    }
}
