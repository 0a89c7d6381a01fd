//! Expressions, by precedence climbing.

ghost use Rattle.std.specs.Prelude.{◌≡◌, ◌≤◌, ◌<◌, ◌+◌, ◌-◌, ◌^◌, IfOk, IfSome};
ghost use Rattle.c_readers.specs.inner.Nests.{Nests, below};
ghost use Rattle.c_readers.specs.inner.Readers as reader;
ghost use Rattle.c_readers.specs.inner.Reads.{Reads};
ghost use Rattle.c_expr.specs.inner.Pairs.{in_pair};

use c_declarators::{GREATEST_PAIRS, inner_type_word};
use c_readers::{
    ASSIGN_LEVEL, CAST_LEVEL, Cursor, Failure, Grammar, Names, Operand, UNARY_LEVEL, bracketed,
    extended, name_of, opened, opens_type,
};
use c_tokens::{Keyword, Kind, Mark};
use c_tree::{Expr, Params, UnaryOperator};
use sqlite_items::{Boxed, Items};
use std::alloc::{AllocError, Global};

/// The rules of expressions of one depth, beside those of declarators.
pub(crate) struct Expressions<'n, F, G> {
    pub grammar: Grammar<'n, F, G>,
}

impl<'n, F: Copy, G: Copy> Copy for Expressions<'n, F, G> {}

impl<'n, F: Copy, G: Copy> Clone for Expressions<'n, F, G> {
    ghost use Rattle.std.specs.Prelude.{◌≡◌, ⊤};

    ghost is_clone = { λ x y. y ≡ x };

    ghost is_infallible = { λ _. ⊤ };

    fn clone(&self) -> Result<Expressions<'n, F, G>, AllocError> {
        Ok(Expressions {
            grammar: Grammar { ..self.grammar },
        })
    }
}

impl<'n, F, G> Expressions<'n, F, G>
where
    F: Fn(Global, &Names, &mut Cursor<'_>, usize, usize) -> Result<(Boxed<Expr>, usize), Failure>
        + Copy,
    G: Fn(Global, &Names, &mut Cursor<'_>, usize) -> Result<(Params, usize), Failure> + Copy,
{
    /// The operand with all that goes on behind it, at these levels. An attempt that gives nothing leaves it as it is.
    fn grow(
        &self,
        tokens: &mut Cursor<'_>,
        least: usize,
        operand: Operand,
    ) -> Result<Operand, Failure>
        requires nests { Nests self.now.grammar.depth (F.pre self.now.grammar.expr) (F.post self.now.grammar.expr) (G.pre self.now.grammar.params) (G.post self.now.grammar.params) }
        requires low { operand.height ≤ 1 + (self.now.grammar.depth - 1) }
        ensures reads { Reads (reader.grow self.now.grammar.names.now (below self.now.grammar.names.now self.now.grammar.depth) (self.now.grammar.depth - 1) least operand tokens.old) result tokens.new }
        ensures height { IfOk result (λ o. o.height ≤ 1 + (self.now.grammar.depth - 1)) }
    {
        let mut whole = operand;
        for _turn in 0..tokens.left() {
            let Some(next) = whole.going_on(tokens, self.grammar.limit(), least) else {
                return Ok(whole);
            };
            let place = tokens.place();
            tokens.skip();
            match self.grammar.part(tokens, next) {
                Ok(part) => whole = extended(self.grammar.alloc, whole, part)?,
                Err(Failure::Memory) => return Err(Failure::Memory),
                Err(Failure::Mismatch) => {
                    tokens.go_back(place);
                    return Ok(whole);
                }
            }
        }
        Ok(whole)
    }

    /// The operand in the parentheses that are open round it.
    #[tactic(auto, unfolding(crate::specs::inner::Pairs::in_pair))]
    fn in_pair(&self, tokens: &mut Cursor<'_>, operand: Operand) -> Result<Operand, Failure>
        requires nests { Nests self.now.grammar.depth (F.pre self.now.grammar.expr) (F.post self.now.grammar.expr) (G.pre self.now.grammar.params) (G.post self.now.grammar.params) }
        requires low { operand.height ≤ 1 + (self.now.grammar.depth - 1) }
        ensures reads { Reads (in_pair self.now.grammar.names.now (below self.now.grammar.names.now self.now.grammar.depth) (self.now.grammar.depth - 1) operand tokens.old) result tokens.new }
        ensures height { IfOk result (λ o. o.height ≤ 1 + (self.now.grammar.depth - 1)) }
    {
        let whole = self.grow(tokens, ASSIGN_LEVEL, operand)?;
        tokens.expect(Mark::RightParenthesis)?;
        if whole.pairs < GREATEST_PAIRS {
            Ok(bracketed(whole))
        } else {
            Err(Failure::Mismatch)
        }
    }

    /// The whole expression of this operand, in so many parentheses that are open.
    fn close(
        &self,
        tokens: &mut Cursor<'_>,
        least: usize,
        pairs: usize,
        operand: Operand,
    ) -> Result<(Boxed<Expr>, usize), Failure>
        requires nests { Nests self.now.grammar.depth (F.pre self.now.grammar.expr) (F.post self.now.grammar.expr) (G.pre self.now.grammar.params) (G.post self.now.grammar.params) }
        requires low { operand.height ≤ 1 + (self.now.grammar.depth - 1) }
        ensures reads { Reads (reader.close self.now.grammar.names.now (below self.now.grammar.names.now self.now.grammar.depth) (self.now.grammar.depth - 1) least pairs operand tokens.old) result tokens.new }
        ensures height { IfOk result (λ e. e.1 ≤ 1 + (self.now.grammar.depth - 1)) }
    {
        let mut whole = operand;
        for _pair in 0..pairs {
            whole = self.in_pair(tokens, whole)?;
        }
        let whole = self.grow(tokens, least, whole)?;
        if least <= whole.level {
            Ok((whole.expr, whole.height))
        } else {
            Err(Failure::Mismatch)
        }
    }

    /// What stands behind `sizeof`.
    #[tactic(auto, unfolding(c_readers::specs::inner::Readers::sizeof))]
    fn sizeof(&self, tokens: &mut Cursor<'_>) -> Result<Operand, Failure>
        requires { Nests self.now.grammar.depth (F.pre self.now.grammar.expr) (F.post self.now.grammar.expr) (G.pre self.now.grammar.params) (G.post self.now.grammar.params) }
        ensures reads { Reads (reader.sizeof self.now.grammar.names.now (below self.now.grammar.names.now self.now.grammar.depth) tokens.old) result tokens.new }
        ensures height { IfOk result (λ o. o.height ≤ 1 + (self.now.grammar.depth - 1)) }
    {
        if opens_type(self.grammar.names, tokens) {
            tokens.expect(Mark::LeftParenthesis)?;
            let (word, height) = inner_type_word(&self.grammar, tokens)?;
            tokens.expect(Mark::RightParenthesis)?;
            return Operand::new(
                self.grammar.alloc,
                UNARY_LEVEL,
                Expr::SizeofType(word),
                1 + height,
            );
        }
        let (inside, height) = self.grammar.inner_expr(tokens, UNARY_LEVEL)?;
        Operand::new(
            self.grammar.alloc,
            UNARY_LEVEL,
            Expr::SizeofExpr(inside),
            1 + height,
        )
    }

    /// What stands behind the `(` of a cast.
    #[tactic(auto, unfolding(c_readers::specs::inner::Readers::cast))]
    fn cast(&self, tokens: &mut Cursor<'_>) -> Result<Operand, Failure>
        requires { Nests self.now.grammar.depth (F.pre self.now.grammar.expr) (F.post self.now.grammar.expr) (G.pre self.now.grammar.params) (G.post self.now.grammar.params) }
        ensures reads { Reads (reader.cast self.now.grammar.names.now (below self.now.grammar.names.now self.now.grammar.depth) tokens.old) result tokens.new }
        ensures height { IfOk result (λ o. o.height ≤ 1 + (self.now.grammar.depth - 1)) }
    {
        let (word, word_height) = inner_type_word(&self.grammar, tokens)?;
        tokens.expect(Mark::RightParenthesis)?;
        let (inside, height) = self.grammar.inner_expr(tokens, CAST_LEVEL)?;
        Operand::new(
            self.grammar.alloc,
            CAST_LEVEL,
            Expr::Cast(word, inside),
            1 + word_height.max(height),
        )
    }

    /// What stands behind a unary operator.
    #[tactic(auto, unfolding(c_readers::specs::inner::Readers::unary_behind))]
    fn unary_behind(&self, tokens: &mut Cursor<'_>, op: UnaryOperator) -> Result<Operand, Failure>
        requires { Nests self.now.grammar.depth (F.pre self.now.grammar.expr) (F.post self.now.grammar.expr) (G.pre self.now.grammar.params) (G.post self.now.grammar.params) }
        ensures reads { Reads (reader.unary_behind self.now.grammar.names.now (below self.now.grammar.names.now self.now.grammar.depth) op tokens.old) result tokens.new }
        ensures height { IfOk result (λ o. o.height ≤ 1 + (self.now.grammar.depth - 1)) }
    {
        let (inside, height) = self.grammar.inner_expr(tokens, CAST_LEVEL)?;
        Operand::new(
            self.grammar.alloc,
            UNARY_LEVEL,
            Expr::Unary(op, inside),
            1 + height,
        )
    }

    /// What stands behind a mark that begins an expression.
    #[tactic(auto, unfolding(c_readers::specs::inner::Readers::prefixed))]
    fn prefixed(&self, tokens: &mut Cursor<'_>, mark: Mark) -> Result<Operand, Failure>
        requires { Nests self.now.grammar.depth (F.pre self.now.grammar.expr) (F.post self.now.grammar.expr) (G.pre self.now.grammar.params) (G.post self.now.grammar.params) }
        ensures reads { Reads (reader.prefixed self.now.grammar.names.now (below self.now.grammar.names.now self.now.grammar.depth) mark tokens.old) result tokens.new }
        ensures height { IfOk result (λ o. o.height ≤ 1 + (self.now.grammar.depth - 1)) }
    {
        match mark {
            Mark::LeftParenthesis => self.cast(tokens),
            Mark::Increment => {
                let (inside, height) = self.grammar.inner_expr(tokens, UNARY_LEVEL)?;
                Operand::new(
                    self.grammar.alloc,
                    UNARY_LEVEL,
                    Expr::PreIncrement(inside),
                    1 + height,
                )
            }
            Mark::Decrement => {
                let (inside, height) = self.grammar.inner_expr(tokens, UNARY_LEVEL)?;
                Operand::new(
                    self.grammar.alloc,
                    UNARY_LEVEL,
                    Expr::PreDecrement(inside),
                    1 + height,
                )
            }
            Mark::Ampersand => self.unary_behind(tokens, UnaryOperator::Address),
            Mark::Star => self.unary_behind(tokens, UnaryOperator::Dereference),
            Mark::Minus => self.unary_behind(tokens, UnaryOperator::Negate),
            Mark::Tilde => self.unary_behind(tokens, UnaryOperator::Complement),
            Mark::Exclamation => self.unary_behind(tokens, UnaryOperator::Not),
            _ => Err(Failure::Mismatch),
        }
    }

    /// What begins an expression: a primary without parentheses, or a prefix operator and its operand.
    #[tactic(auto, unfolding(c_readers::specs::inner::Readers::head))]
    fn head(&self, tokens: &mut Cursor<'_>) -> Result<Operand, Failure>
        requires { Nests self.now.grammar.depth (F.pre self.now.grammar.expr) (F.post self.now.grammar.expr) (G.pre self.now.grammar.params) (G.post self.now.grammar.params) }
        ensures reads { Reads (reader.head self.now.grammar.names.now (below self.now.grammar.names.now self.now.grammar.depth) tokens.old) result tokens.new }
        ensures height { IfOk result (λ o. o.height ≤ 1 + (self.now.grammar.depth - 1)) }
    {
        let Some(kind) = tokens.peek() else {
            return Err(Failure::Mismatch);
        };
        tokens.skip();
        match kind {
            Kind::Name(name) => {
                if self.grammar.names.contains(name.as_slice()) {
                    return Err(Failure::Mismatch);
                }
                let name = name_of(self.grammar.alloc, name)?;
                Operand::leaf(self.grammar.alloc, Expr::Identifier(name))
            }
            Kind::Number(n) => Operand::leaf(self.grammar.alloc, Expr::Number(*n)),
            Kind::Text(bytes) => {
                let bytes = Items::from_slice(self.grammar.alloc, bytes.as_slice())?;
                Operand::leaf(self.grammar.alloc, Expr::Text(bytes))
            }
            Kind::Word(Keyword::Sizeof) => self.sizeof(tokens),
            Kind::Word(_) => Err(Failure::Mismatch),
            Kind::Mark(mark) => self.prefixed(tokens, *mark),
        }
    }

    /// An expression of this level or a tighter one.
    #[tactic(auto, unfolding(c_readers::specs::inner::Readers::level, c_readers::specs::inner::Readers::level_in))]
    pub fn level(
        &self,
        tokens: &mut Cursor<'_>,
        least: usize,
    ) -> Result<(Boxed<Expr>, usize), Failure>
        requires { Nests self.now.grammar.depth (F.pre self.now.grammar.expr) (F.post self.now.grammar.expr) (G.pre self.now.grammar.params) (G.post self.now.grammar.params) }
        ensures reads { Reads (reader.level self.now.grammar.names.now (below self.now.grammar.names.now self.now.grammar.depth) (self.now.grammar.depth - 1) least tokens.old) result tokens.new }
        ensures height { IfOk result (λ e. e.1 ≤ 1 + (self.now.grammar.depth - 1)) }
    {
        let pairs = opened(self.grammar.names, tokens);
        let first = self.head(tokens)?;
        self.close(tokens, least, pairs, first)
    }
}
