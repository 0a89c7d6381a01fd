//! Declarators with a name.

ghost use Rattle.std.specs.Prelude.{◌≡◌, ◌<◌, ◌≤◌, ◌+◌, ◌-◌, IfOk};
ghost use Rattle.c_readers.specs.inner.Nests.{Nests, below};
ghost use Rattle.c_readers.specs.inner.Parser.{separated};
ghost use Rattle.c_readers.specs.inner.Readers as reader;
ghost use Rattle.c_readers.specs.inner.Readers.{readers};
ghost use Rattle.c_readers.specs.inner.Reads.{Reads};

use c_readers::{
    Bracketed, Core, Cursor, Failure, Grammar, Names, formed, free_name, opened, whole_of,
};
use c_tokens::Mark;
use c_tree::{Declarator, Expr, Params};
use sqlite_items::{Boxed, Items};
use std::alloc::{AllocError, Global};

/// At most this many pairs of parentheses stand directly round one thing.
pub const GREATEST_PAIRS: usize = 8;

/// The rules of specs, declarators, type words and parameters of one depth.
pub struct Declarators<'n, F, G> {
    pub grammar: Grammar<'n, F, G>,
}

impl<'n, F: Copy, G: Copy> Copy for Declarators<'n, F, G> {}

impl<'n, F: Copy, G: Copy> Clone for Declarators<'n, F, G> {
    ghost use Rattle.std.specs.Prelude.{◌≡◌, ⊤};

    ghost is_clone = { λ x y. y ≡ x };

    ghost is_infallible = { λ _. ⊤ };

    fn clone(&self) -> Result<Declarators<'n, F, G>, AllocError> {
        Ok(Declarators {
            grammar: Grammar { ..self.grammar },
        })
    }
}

impl<'n, F, G> Declarators<'n, F, G>
where
    F: Fn(Global, &Names, &mut Cursor<'_>, usize, usize) -> Result<(Boxed<Expr>, usize), Failure>
        + Copy,
    G: Fn(Global, &Names, &mut Cursor<'_>, usize) -> Result<(Params, usize), Failure> + Copy,
{
    /// The rules of the depth below.
    pub(crate) fn inner(&self) -> Declarators<'n, F, G>
        requires some { 0 < self.now.grammar.depth }
        requires nests { Nests self.now.grammar.depth (F.pre self.now.grammar.expr) (F.post self.now.grammar.expr) (G.pre self.now.grammar.params) (G.post self.now.grammar.params) }
        ensures depth { result.grammar.depth ≡ self.now.grammar.depth - 1 }
        ensures readers { readers result.grammar.names.now result.grammar.depth ≡ below self.now.grammar.names.now self.now.grammar.depth }
        ensures nests { Nests result.grammar.depth (F.pre result.grammar.expr) (F.post result.grammar.expr) (G.pre result.grammar.params) (G.post result.grammar.params) }
    {
        Declarators {
            grammar: self.grammar.inner(),
        }
    }

    /// The name alone.
    #[tactic(auto, unfolding(c_readers::specs::inner::Readers::named))]
    fn named(&self, tokens: &mut Cursor<'_>) -> Result<Bracketed, Failure>
        ensures reads { Reads (reader.named self.now.grammar.names.now (below self.now.grammar.names.now self.now.grammar.depth) tokens.old) result tokens.new }
        ensures height { IfOk result (λ b. b.height ≤ 0) }
    {
        let name = free_name(self.grammar.alloc, self.grammar.names, tokens)?;
        Ok(Bracketed {
            core: Core::Name(name),
            pairs: 0,
            height: 0,
        })
    }

    /// What has these stars before it, with the suffixes behind it.
    #[tactic(auto, unfolding(c_readers::specs::inner::Readers::finished))]
    fn finished(
        &self,
        tokens: &mut Cursor<'_>,
        stars: u32,
        inside: Bracketed,
    ) -> Result<Bracketed, Failure>
        requires nests { Nests self.now.grammar.depth (F.pre self.now.grammar.expr) (F.post self.now.grammar.expr) (G.pre self.now.grammar.params) (G.post self.now.grammar.params) }
        requires low { inside.height ≤ 1 + (self.now.grammar.depth - 1) }
        ensures reads { Reads (reader.finished self.now.grammar.names.now (below self.now.grammar.names.now self.now.grammar.depth) (self.now.grammar.depth - 1) stars inside tokens.old) result tokens.new }
        ensures height { IfOk result (λ b. b.height ≤ 1 + (self.now.grammar.depth - 1)) }
    {
        let suffixes = self.grammar.suffixes(tokens)?;
        if stars == 0 && suffixes.0.is_empty() {
            return Ok(inside);
        }
        formed(
            self.grammar.alloc,
            self.grammar.limit(),
            stars,
            inside,
            suffixes,
        )
    }

    /// Closes so many parentheses. The stars stand in the innermost.
    fn closed(
        &self,
        tokens: &mut Cursor<'_>,
        count: usize,
        stars: u32,
        inside: Bracketed,
    ) -> Result<Bracketed, Failure>
        requires nests { Nests self.now.grammar.depth (F.pre self.now.grammar.expr) (F.post self.now.grammar.expr) (G.pre self.now.grammar.params) (G.post self.now.grammar.params) }
        requires low { inside.height ≤ 1 + (self.now.grammar.depth - 1) }
        ensures reads { Reads (reader.closed self.now.grammar.names.now (below self.now.grammar.names.now self.now.grammar.depth) (self.now.grammar.depth - 1) count stars inside tokens.old) result tokens.new }
        ensures height { IfOk result (λ b. b.height ≤ 1 + (self.now.grammar.depth - 1)) }
    {
        let mut its_stars = stars;
        let mut whole = inside;
        for _turn in 0..count {
            whole = self.finished(tokens, its_stars, whole)?;
            tokens.expect(Mark::RightParenthesis)?;
            if whole.pairs >= GREATEST_PAIRS {
                return Err(Failure::Mismatch);
            }
            whole.pairs += 1;
            its_stars = 0;
        }
        Ok(whole)
    }

    /// A direct declarator of the depth below.
    #[cycle(direct)]
    fn inner_direct(&self, tokens: &mut Cursor<'_>) -> Result<Bracketed, Failure>
        requires nests { Nests self.now.grammar.depth (F.pre self.now.grammar.expr) (F.post self.now.grammar.expr) (G.pre self.now.grammar.params) (G.post self.now.grammar.params) }
        ensures reads { Reads ((below self.now.grammar.names.now self.now.grammar.depth).direct tokens.old) result tokens.new }
        ensures height { IfOk result (λ b. b.height ≤ 1 + (self.now.grammar.depth - 1)) }
    {
        if self.grammar.depth == 0 {
            return Err(Failure::Mismatch);
        }
        self.inner().direct(tokens)
    }

    /// What stands behind so many stars in parentheses: the name, where they are none.
    #[cycle(direct)]
    fn name_behind(&self, tokens: &mut Cursor<'_>, stars: u32) -> Result<Bracketed, Failure>
        requires nests { Nests self.now.grammar.depth (F.pre self.now.grammar.expr) (F.post self.now.grammar.expr) (G.pre self.now.grammar.params) (G.post self.now.grammar.params) }
        ensures reads { Reads (reader.direct_behind self.now.grammar.names.now (below self.now.grammar.names.now self.now.grammar.depth) (reader.named self.now.grammar.names.now (below self.now.grammar.names.now self.now.grammar.depth)) stars tokens.old) result tokens.new }
        ensures height { IfOk result (λ b. b.height ≤ 1 + (self.now.grammar.depth - 1)) }
    {
        if stars == 0 {
            self.named(tokens)
        } else {
            self.inner_direct(tokens)
        }
    }

    /// A name, or a declarator in parentheses.
    #[cycle(direct)]
    #[tactic(auto, unfolding(c_readers::specs::inner::Readers::direct))]
    fn direct(&self, tokens: &mut Cursor<'_>) -> Result<Bracketed, Failure>
        requires nests { Nests self.now.grammar.depth (F.pre self.now.grammar.expr) (F.post self.now.grammar.expr) (G.pre self.now.grammar.params) (G.post self.now.grammar.params) }
        ensures reads { Reads (reader.direct self.now.grammar.names.now (below self.now.grammar.names.now self.now.grammar.depth) (self.now.grammar.depth - 1) tokens.old) result tokens.new }
        ensures height { IfOk result (λ b. b.height ≤ 1 + (self.now.grammar.depth - 1)) }
    {
        let count = opened(self.grammar.names, tokens);
        if count == 0 {
            return self.named(tokens);
        }
        let stars = tokens.run(Mark::Star);
        let inside = self.name_behind(tokens, stars)?;
        self.closed(tokens, count, stars, inside)
    }

    /// What stands behind so many stars.
    fn direct_behind(&self, tokens: &mut Cursor<'_>, stars: u32) -> Result<Bracketed, Failure>
        requires nests { Nests self.now.grammar.depth (F.pre self.now.grammar.expr) (F.post self.now.grammar.expr) (G.pre self.now.grammar.params) (G.post self.now.grammar.params) }
        ensures reads { Reads (reader.direct_behind self.now.grammar.names.now (below self.now.grammar.names.now self.now.grammar.depth) (reader.direct self.now.grammar.names.now (below self.now.grammar.names.now self.now.grammar.depth) (self.now.grammar.depth - 1)) stars tokens.old) result tokens.new }
        ensures height { IfOk result (λ b. b.height ≤ 1 + (self.now.grammar.depth - 1)) }
    {
        if stars == 0 {
            self.direct(tokens)
        } else {
            self.inner_direct(tokens)
        }
    }

    /// A declarator.
    #[tactic(auto, unfolding(c_readers::specs::inner::Readers::declarator))]
    pub fn declarator(&self, tokens: &mut Cursor<'_>) -> Result<(Boxed<Declarator>, usize), Failure>
        requires nests { Nests self.now.grammar.depth (F.pre self.now.grammar.expr) (F.post self.now.grammar.expr) (G.pre self.now.grammar.params) (G.post self.now.grammar.params) }
        ensures reads { Reads ((readers self.now.grammar.names.now self.now.grammar.depth).declarator tokens.old) result tokens.new }
        ensures height { IfOk result (λ d. d.1 ≤ self.now.grammar.depth) }
    {
        if self.grammar.depth == 0 {
            return Err(Failure::Mismatch);
        }
        let stars = tokens.run(Mark::Star);
        let inside = self.direct_behind(tokens, stars)?;
        let whole = self.finished(tokens, stars, inside)?;
        whole_of(self.grammar.alloc, whole.core, whole.height)
    }

    /// Declarators with commas between, at least one.
    pub fn declarators(
        &self,
        tokens: &mut Cursor<'_>,
    ) -> Result<(Items<Declarator>, usize), Failure>
        requires nests { Nests self.now.grammar.depth (F.pre self.now.grammar.expr) (F.post self.now.grammar.expr) (G.pre self.now.grammar.params) (G.post self.now.grammar.params) }
        ensures reads { Reads (separated (readers self.now.grammar.names.now self.now.grammar.depth).declarator tokens.old) result tokens.new }
        ensures height { IfOk result (λ ds. ds.1 ≤ self.now.grammar.depth) }
    {
        let mut found = Items::new(self.grammar.alloc);
        let mut height = 0;
        for _turn in 0..tokens.left() {
            let (declarator, its_height) = self.declarator(tokens)?;
            found.push(declarator.into_inner())?;
            height = height.max(its_height);
            if !tokens.eat(Mark::Comma) {
                return Ok((found, height));
            }
        }
        Err(Failure::Mismatch)
    }
}
