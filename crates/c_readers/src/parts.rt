//! What operands go on with.

ghost use Rattle.std.specs.Prelude.{◌≡◌, ◌≤◌, ◌-◌, IfOk};
ghost use Rattle.c_readers.specs.inner.Parser.{separated};
ghost use Rattle.c_readers.specs.inner.Nests.{Nests, below};
ghost use Rattle.c_readers.specs.inner.Readers as reader;
ghost use Rattle.c_readers.specs.inner.Reads.{Reads};

use crate::cursor::Cursor;
use crate::error::Failure;
use crate::grammar::Grammar;
use crate::level::{ASSIGN_LEVEL, CONDITIONAL_LEVEL, binary_level};
use crate::lookahead::free_name;
use crate::names::Names;
use crate::operand::{Continuation, Part};
use c_tokens::Mark;
use c_tree::{Expr, Params};
use sqlite_items::{Boxed, Items};
use std::alloc::Global;

impl<'n, F, G> Grammar<'n, F, G>
where
    F: Fn(Global, &Names, &mut Cursor<'_>, usize, usize) -> Result<(Boxed<Expr>, usize), Failure>
        + Copy,
    G: Fn(Global, &Names, &mut Cursor<'_>, usize) -> Result<(Params, usize), Failure> + Copy,
{
    /// Expressions with commas between, at least one.
    fn expressions(&self, tokens: &mut Cursor<'_>) -> Result<(Items<Expr>, usize), Failure>
        requires { Nests self.now.depth (F.pre self.now.expr) (F.post self.now.expr) (G.pre self.now.params) (G.post self.now.params) }
        ensures reads { Reads (separated ((below self.now.names.now self.now.depth).expr 0) tokens.old) result tokens.new }
        ensures height { IfOk result (λ es. es.1 ≤ self.now.depth - 1) }
    {
        let mut found = Items::new(self.alloc);
        let mut height = 0;
        for _turn in 0..tokens.left() {
            let (expr, its_height) = self.inner_expr(tokens, ASSIGN_LEVEL)?;
            found.push(expr.into_inner())?;
            height = height.max(its_height);
            if !tokens.eat(Mark::Comma) {
                return Ok((found, height));
            }
        }
        Err(Failure::Mismatch)
    }

    /// The arguments of a call, behind its `(`.
    #[tactic(auto, unfolding(crate::specs::inner::Readers::arguments))]
    fn arguments(&self, tokens: &mut Cursor<'_>) -> Result<(Items<Expr>, usize), Failure>
        requires { Nests self.now.depth (F.pre self.now.expr) (F.post self.now.expr) (G.pre self.now.params) (G.post self.now.params) }
        ensures reads { Reads (reader.arguments self.now.names.now (below self.now.names.now self.now.depth) tokens.old) result tokens.new }
        ensures height { IfOk result (λ es. es.1 ≤ self.now.depth - 1) }
    {
        if tokens.eat(Mark::RightParenthesis) {
            return Ok((Items::new(self.alloc), 0));
        }
        let given = self.expressions(tokens)?;
        tokens.expect(Mark::RightParenthesis)?;
        Ok(given)
    }

    /// What stands behind a `[`.
    #[tactic(auto, unfolding(crate::specs::inner::Readers::index))]
    fn index(&self, tokens: &mut Cursor<'_>) -> Result<(Part, usize), Failure>
        requires { Nests self.now.depth (F.pre self.now.expr) (F.post self.now.expr) (G.pre self.now.params) (G.post self.now.params) }
        ensures reads { Reads (reader.index self.now.names.now (below self.now.names.now self.now.depth) tokens.old) result tokens.new }
        ensures height { IfOk result (λ p. p.1 ≤ self.now.depth - 1) }
    {
        let (at, height) = self.inner_expr(tokens, ASSIGN_LEVEL)?;
        tokens.expect(Mark::RightBracket)?;
        Ok((Part::Index(at), height))
    }

    /// What stands behind a `?`.
    #[tactic(auto, unfolding(crate::specs::inner::Readers::arms))]
    fn arms(&self, tokens: &mut Cursor<'_>) -> Result<(Part, usize), Failure>
        requires { Nests self.now.depth (F.pre self.now.expr) (F.post self.now.expr) (G.pre self.now.params) (G.post self.now.params) }
        ensures reads { Reads (reader.arms self.now.names.now (below self.now.names.now self.now.depth) tokens.old) result tokens.new }
        ensures height { IfOk result (λ p. p.1 ≤ self.now.depth - 1) }
    {
        let (first, first_height) = self.inner_expr(tokens, ASSIGN_LEVEL)?;
        tokens.expect(Mark::Colon)?;
        let (second, second_height) = self.inner_expr(tokens, CONDITIONAL_LEVEL)?;
        Ok((
            Part::Conditional(first, second),
            first_height.max(second_height),
        ))
    }

    /// What an operand goes on with, behind the mark.
    #[tactic(auto, unfolding(crate::specs::inner::Readers::part))]
    pub fn part(
        &self,
        tokens: &mut Cursor<'_>,
        next: Continuation,
    ) -> Result<(Part, usize), Failure>
        requires { Nests self.now.depth (F.pre self.now.expr) (F.post self.now.expr) (G.pre self.now.params) (G.post self.now.params) }
        ensures reads { Reads (reader.part self.now.names.now (below self.now.names.now self.now.depth) next tokens.old) result tokens.new }
        ensures height { IfOk result (λ p. p.1 ≤ self.now.depth - 1) }
    {
        match next {
            Continuation::Index => self.index(tokens),
            Continuation::Call => {
                let (given, height) = self.arguments(tokens)?;
                Ok((Part::Call(given), height))
            }
            Continuation::Member => {
                let name = free_name(self.alloc, self.names, tokens)?;
                Ok((Part::Member(name), 0))
            }
            Continuation::Arrow => {
                let name = free_name(self.alloc, self.names, tokens)?;
                Ok((Part::Arrow(name), 0))
            }
            Continuation::Increment => Ok((Part::Increment, 0)),
            Continuation::Decrement => Ok((Part::Decrement, 0)),
            Continuation::Binary(op) => {
                let (right, height) = self.inner_expr(tokens, 1 + binary_level(op))?;
                Ok((Part::Binary(op, right), height))
            }
            Continuation::Conditional => self.arms(tokens),
            Continuation::Assign(op) => {
                let (right, height) = self.inner_expr(tokens, ASSIGN_LEVEL)?;
                Ok((Part::Assign(op, right), height))
            }
        }
    }
}
