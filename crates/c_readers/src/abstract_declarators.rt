//! Declarators without a name.

ghost use Rattle.std.specs.Prelude.{◌≡◌, ℕ, ◌≤◌, ◌<◌, ◌+◌, ◌-◌, ◌^◌, max, Some, true, IfOk};
ghost use Rattle.c_tokens.specs.declared.token.Mark.TheVariants as mark;
ghost use Rattle.c_tree.specs.Marks.{Kinds};
ghost use Rattle.c_tree.specs.Trees.{abstract};
ghost use Rattle.c_readers.specs.inner.Parser.{WithHeight, pure, sees};
ghost use Rattle.c_readers.specs.inner.Behind.{bracketed_behind, nested_behind};
ghost use Rattle.c_readers.specs.inner.Nests.{Nests, below};
ghost use Rattle.c_readers.specs.inner.Readers as reader;
ghost use Rattle.c_readers.specs.inner.Readers.{readers};
ghost use Rattle.c_readers.specs.inner.Reads.{Reads};

use crate::boxes::boxed;
use crate::cursor::Cursor;
use crate::error::Failure;
use crate::grammar::Grammar;
use crate::names::Names;
use c_tokens::Mark;
use c_tree::{AbstractDeclarator, Expr, Params, Suffix};
use sqlite_items::{Boxed, Items};
use std::alloc::Global;

/// Suffixes behind one in parentheses, and stars before it.
fn around(
    alloc: Global,
    stars: u32,
    inside: (Boxed<AbstractDeclarator>, usize),
    suffixes: (Items<Suffix>, usize),
) -> Result<(Boxed<AbstractDeclarator>, usize), Failure>
    requires low { inside.1 < 2 ^ 32 }
    requires suffixes_low { suffixes.1 < 2 ^ 32 }
    ensures reads { (whole : WithHeight AbstractDeclarator) (ts : Kinds) → whole ≡ (abstract stars (Some inside.0) suffixes.0, 1 + max inside.1 suffixes.1) → Reads (pure whole ts) result ts }
    ensures height { (limit : ℕ) → 1 + max inside.1 suffixes.1 ≤ limit → IfOk result (λ a. a.1 ≤ limit) }
{
    let whole = AbstractDeclarator {
        stars,
        bracketed: Some(inside.0),
        suffixes: suffixes.0,
    };
    boxed(alloc, whole, 1 + inside.1.max(suffixes.1))
}

impl<'n, F, G> Grammar<'n, F, G>
where
    F: Fn(Global, &Names, &mut Cursor<'_>, usize, usize) -> Result<(Boxed<Expr>, usize), Failure>
        + Copy,
    G: Fn(Global, &Names, &mut Cursor<'_>, usize) -> Result<(Params, usize), Failure> + Copy,
{
    /// The closing parenthesis of one that stands behind these stars, and suffixes.
    #[tactic(auto, unfolding(crate::specs::inner::Behind::nested_behind))]
    fn nested_behind(
        &self,
        tokens: &mut Cursor<'_>,
        stars: u32,
        inside: (Boxed<AbstractDeclarator>, usize),
    ) -> Result<(Boxed<AbstractDeclarator>, usize), Failure>
        requires some { 0 < self.now.depth }
        requires nests { Nests self.now.depth (F.pre self.now.expr) (F.post self.now.expr) (G.pre self.now.params) (G.post self.now.params) }
        requires low { inside.1 ≤ self.now.depth - 1 }
        ensures reads { Reads (nested_behind self.now.names.now (below self.now.names.now self.now.depth) stars inside tokens.old) result tokens.new }
        ensures height { IfOk result (λ a. a.1 ≤ self.now.depth) }
    {
        tokens.expect(Mark::RightParenthesis)?;
        let suffixes = self.suffixes(tokens)?;
        around(self.alloc, stars, inside, suffixes)
    }

    /// What stands behind these stars: one in parentheses, of which the first was seen, and suffixes.
    #[cycle(abstract_declarators)]
    #[tactic(auto, unfolding(crate::specs::inner::Readers::nested_abstract, crate::specs::inner::Parser::expect, crate::specs::inner::Behind::nested_behind))]
    fn nested_abstract(
        &self,
        tokens: &mut Cursor<'_>,
        stars: u32,
    ) -> Result<(Boxed<AbstractDeclarator>, usize), Failure>
        requires some { 0 < self.now.depth }
        requires nests { Nests self.now.depth (F.pre self.now.expr) (F.post self.now.expr) (G.pre self.now.params) (G.post self.now.params) }
        requires seen { sees mark.LeftParenthesis tokens.old ≡ true }
        ensures reads { Reads (reader.nested_abstract self.now.names.now (below self.now.names.now self.now.depth) stars tokens.old) result tokens.new }
        ensures height { IfOk result (λ a. a.1 ≤ self.now.depth) }
    {
        tokens.skip();
        let inside = self.inner().abstract_declarator(tokens)?;
        self.nested_behind(tokens, stars, inside)
    }

    /// Stars, and what stands behind them.
    #[cycle(abstract_declarators)]
    #[tactic(auto, unfolding(crate::specs::inner::Readers::starred, crate::specs::inner::Readers::abstract_behind))]
    fn starred(
        &self,
        tokens: &mut Cursor<'_>,
    ) -> Result<(Boxed<AbstractDeclarator>, usize), Failure>
        requires some { 0 < self.now.depth }
        requires nests { Nests self.now.depth (F.pre self.now.expr) (F.post self.now.expr) (G.pre self.now.params) (G.post self.now.params) }
        ensures reads { Reads (reader.starred self.now.names.now (below self.now.names.now self.now.depth) tokens.old) result tokens.new }
        ensures height { IfOk result (λ a. a.1 ≤ self.now.depth) }
    {
        let stars = tokens.run(Mark::Star);
        if tokens.sees(Mark::LeftParenthesis) && tokens.sees_behind(Mark::Star) {
            return self.nested_abstract(tokens, stars);
        }
        let (suffixes, height) = self.suffixes(tokens)?;
        let plain = AbstractDeclarator {
            stars,
            bracketed: None,
            suffixes,
        };
        boxed(self.alloc, plain, 1 + height)
    }

    /// The closing parenthesis of this one and the suffixes behind it, without which the parentheses stand for nothing.
    #[tactic(auto, unfolding(crate::specs::inner::Behind::bracketed_behind))]
    fn bracketed_behind(
        &self,
        tokens: &mut Cursor<'_>,
        inside: (Boxed<AbstractDeclarator>, usize),
    ) -> Result<(Boxed<AbstractDeclarator>, usize), Failure>
        requires some { 0 < self.now.depth }
        requires nests { Nests self.now.depth (F.pre self.now.expr) (F.post self.now.expr) (G.pre self.now.params) (G.post self.now.params) }
        requires low { inside.1 ≤ self.now.depth }
        ensures reads { Reads (bracketed_behind self.now.names.now (below self.now.names.now self.now.depth) (self.now.depth - 1) inside tokens.old) result tokens.new }
        ensures height { IfOk result (λ a. a.1 ≤ self.now.depth) }
    {
        tokens.expect(Mark::RightParenthesis)?;
        let suffixes = self.suffixes(tokens)?;
        if suffixes.0.is_empty() {
            return Ok(inside);
        }
        if inside.1 > self.limit() {
            return Err(Failure::Mismatch);
        }
        around(self.alloc, 0, inside, suffixes)
    }

    /// One in parentheses, of which the first was seen. They stand for nothing where no suffixes stand behind them.
    #[cycle(abstract_declarators)]
    #[tactic(auto, unfolding(crate::specs::inner::Readers::bracketed_abstract, crate::specs::inner::Parser::expect, crate::specs::inner::Behind::bracketed_behind))]
    fn bracketed_abstract(
        &self,
        tokens: &mut Cursor<'_>,
    ) -> Result<(Boxed<AbstractDeclarator>, usize), Failure>
        requires some { 0 < self.now.depth }
        requires nests { Nests self.now.depth (F.pre self.now.expr) (F.post self.now.expr) (G.pre self.now.params) (G.post self.now.params) }
        requires seen { sees mark.LeftParenthesis tokens.old ≡ true }
        ensures reads { Reads (reader.bracketed_abstract self.now.names.now (below self.now.names.now self.now.depth) (self.now.depth - 1) tokens.old) result tokens.new }
        ensures height { IfOk result (λ a. a.1 ≤ self.now.depth) }
    {
        tokens.skip();
        let inside = self.starred(tokens)?;
        self.bracketed_behind(tokens, inside)
    }

    /// A declarator without a name.
    #[cycle(abstract_declarators)]
    pub fn abstract_declarator(
        &self,
        tokens: &mut Cursor<'_>,
    ) -> Result<(Boxed<AbstractDeclarator>, usize), Failure>
        requires nests { Nests self.now.depth (F.pre self.now.expr) (F.post self.now.expr) (G.pre self.now.params) (G.post self.now.params) }
        ensures reads { Reads ((readers self.now.names.now self.now.depth).abstract tokens.old) result tokens.new }
        ensures height { IfOk result (λ a. a.1 ≤ self.now.depth) }
    {
        if self.depth == 0 {
            return Err(Failure::Mismatch);
        }
        if tokens.sees(Mark::LeftParenthesis) && tokens.sees_behind(Mark::Star) {
            self.bracketed_abstract(tokens)
        } else {
            self.starred(tokens)
        }
    }
}
