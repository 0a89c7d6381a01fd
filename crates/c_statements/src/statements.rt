//! Statements, and blocks of them. The rules take the function that reads the statements inside, so that each is
//! proved by itself.

ghost use Rattle.std.specs.Prelude.{◌≡◌, ◌≤◌, ◌<◌, ◌+◌, ◌^◌, IfOk};
ghost use Rattle.c_readers.specs.inner.Readers.{readers};
ghost use Rattle.c_readers.specs.inner.Reads.{Reads};
ghost use Rattle.c_statements.specs.inner.Nests.{Nests};
ghost use Rattle.c_statements.specs.inner.Readers as reader;
ghost use Rattle.c_statements.specs.inner.Readers.{of_depth};

use crate::declarations::{condition, decl, for_init, for_tests, option_to};
use crate::form::{Form, form_of};
use crate::words::{eat_word, expect_word};
use c_readers::{Cursor, Failure, Names, begins_spec};
use c_tokens::{Keyword, Kind, Mark};
use c_tree::{Block, BlockItem, ForLoop, FullExpr, Stmt};
use sqlite_items::{Boxed, Items};
use std::alloc::{AllocError, Global};

/// The rules of statements.
pub(crate) struct Rules<'n, F> {
    pub alloc: Global,
    pub names: &'n Names,
    /// How deep the nodes inside a statement may be.
    pub depth: usize,
    /// Reads a statement of that depth.
    pub stmt: F,
}

impl<'n, F: Copy> Copy for Rules<'n, F> {}

impl<'n, F: Copy> Clone for Rules<'n, F> {
    ghost use Rattle.std.specs.Prelude.{◌≡◌, ⊤};

    ghost is_clone = { λ x y. y ≡ x };

    ghost is_infallible = { λ _. ⊤ };

    fn clone(&self) -> Result<Rules<'n, F>, AllocError> {
        Ok(Rules { ..*self })
    }
}

/// What stands behind a `break`.
#[tactic(auto, unfolding(crate::specs::inner::Readers::ended))]
fn break_behind(tokens: &mut Cursor<'_>) -> Result<(Stmt, usize), Failure>
    ensures reads { Reads (reader.ended Stmt.Break tokens.old) result tokens.new }
    ensures height { IfOk result (λ s. s.1 ≡ 1) }
{
    tokens.expect(Mark::Semicolon)?;
    Ok((Stmt::Break, 1))
}

/// What stands behind a `continue`.
#[tactic(auto, unfolding(crate::specs::inner::Readers::ended))]
fn continue_behind(tokens: &mut Cursor<'_>) -> Result<(Stmt, usize), Failure>
    ensures reads { Reads (reader.ended Stmt.Continue tokens.old) result tokens.new }
    ensures height { IfOk result (λ s. s.1 ≡ 1) }
{
    tokens.expect(Mark::Semicolon)?;
    Ok((Stmt::Continue, 1))
}

impl<'n, F> Rules<'n, F>
where
    F: Fn(Global, &Names, &mut Cursor<'_>, usize) -> Result<(Stmt, usize), Failure>,
{
    /// A statement of this depth.
    fn inner(&self, tokens: &mut Cursor<'_>) -> Result<(Stmt, usize), Failure>
        requires { Nests self.now.depth (F.pre self.now.stmt) (F.post self.now.stmt) }
        ensures reads { Reads (reader.stmt self.now.names.now self.now.depth tokens.old) result tokens.new }
        ensures height { IfOk result (λ s. s.1 ≤ self.now.depth) }
    {
        (self.stmt)(self.alloc, self.names, tokens, self.depth)
    }

    /// The same, in a box.
    fn boxed(&self, tokens: &mut Cursor<'_>) -> Result<(Boxed<Stmt>, usize), Failure>
        requires { Nests self.now.depth (F.pre self.now.stmt) (F.post self.now.stmt) }
        ensures reads { Reads (reader.stmt self.now.names.now self.now.depth tokens.old) result tokens.new }
        ensures height { IfOk result (λ s. s.1 ≤ self.now.depth) }
    {
        let (stmt, height) = self.inner(tokens)?;
        Ok((Boxed::new(self.alloc, stmt)?, height))
    }

    /// An expression in parentheses.
    fn condition(&self, tokens: &mut Cursor<'_>) -> Result<(FullExpr, usize), Failure>
        requires { self.now.depth < 2 ^ 31 }
        ensures reads { Reads (reader.condition self.now.names.now (readers self.now.names.now self.now.depth) tokens.old) result tokens.new }
        ensures height { IfOk result (λ c. c.1 ≤ self.now.depth) }
    {
        condition(self.alloc, self.names, tokens, self.depth)
    }

    /// An expression, if one stands before the mark, and the mark.
    fn option_to(
        &self,
        tokens: &mut Cursor<'_>,
        mark: Mark,
    ) -> Result<(Option<FullExpr>, usize), Failure>
        requires { self.now.depth < 2 ^ 31 }
        ensures reads { Reads (reader.option_to self.now.names.now (readers self.now.names.now self.now.depth) mark tokens.old) result tokens.new }
        ensures height { IfOk result (λ o. o.1 ≤ self.now.depth) }
    {
        option_to(self.alloc, self.names, tokens, self.depth, mark)
    }

    /// A declaration or a statement of a block.
    #[tactic(auto, unfolding(crate::specs::inner::Readers::block_item))]
    fn block_item(&self, tokens: &mut Cursor<'_>) -> Result<(BlockItem, usize), Failure>
        requires { Nests self.now.depth (F.pre self.now.stmt) (F.post self.now.stmt) }
        ensures reads { Reads (of_depth reader.block_item self.now.names.now self.now.depth tokens.old) result tokens.new }
        ensures height { IfOk result (λ s. s.1 ≤ self.now.depth) }
    {
        if begins_spec(self.names, tokens) {
            let (decl, height) = decl(self.alloc, self.names, tokens, self.depth)?;
            return Ok((BlockItem::Decl(Boxed::new(self.alloc, decl)?), height));
        }
        let (stmt, height) = self.inner(tokens)?;
        Ok((BlockItem::Stmt(stmt), height))
    }

    /// The items of a block, and the `}` behind them.
    fn block_items(&self, tokens: &mut Cursor<'_>) -> Result<(Items<BlockItem>, usize), Failure>
        requires { Nests self.now.depth (F.pre self.now.stmt) (F.post self.now.stmt) }
        ensures reads { Reads (of_depth reader.block_items self.now.names.now self.now.depth tokens.old) result tokens.new }
        ensures height { IfOk result (λ s. s.1 ≤ self.now.depth) }
    {
        let mut found = Items::new(self.alloc);
        let mut height = 0;
        for _turn in 0..tokens.left() {
            if tokens.eat(Mark::RightBrace) {
                return Ok((found, height));
            }
            let (item, its_height) = self.block_item(tokens)?;
            found.push(item)?;
            height = height.max(its_height);
        }
        Err(Failure::Mismatch)
    }

    /// A block.
    #[tactic(auto, unfolding(crate::specs::inner::Readers::block))]
    pub fn block(&self, tokens: &mut Cursor<'_>) -> Result<(Block, usize), Failure>
        requires { Nests self.now.depth (F.pre self.now.stmt) (F.post self.now.stmt) }
        ensures reads { Reads (of_depth reader.block self.now.names.now self.now.depth tokens.old) result tokens.new }
        ensures height { IfOk result (λ s. s.1 ≤ self.now.depth) }
    {
        tokens.expect(Mark::LeftBrace)?;
        let (items, height) = self.block_items(tokens)?;
        Ok((Block { items }, height))
    }

    /// What stands behind an `if`. It takes an `else` that comes.
    #[tactic(auto, unfolding(crate::specs::inner::Readers::if_behind))]
    fn if_behind(&self, tokens: &mut Cursor<'_>) -> Result<(Stmt, usize), Failure>
        requires { Nests self.now.depth (F.pre self.now.stmt) (F.post self.now.stmt) }
        ensures reads { Reads (of_depth reader.if_behind self.now.names.now self.now.depth tokens.old) result tokens.new }
        ensures height { IfOk result (λ s. s.1 ≤ 1 + self.now.depth) }
    {
        let (test, test_height) = self.condition(tokens)?;
        let (then_branch, then_height) = self.boxed(tokens)?;
        let height = test_height.max(then_height);
        if !eat_word(tokens, Keyword::Else) {
            let alone = Stmt::If {
                condition: test,
                then_branch,
                else_branch: None,
            };
            return Ok((alone, 1 + height));
        }
        let (otherwise, else_height) = self.boxed(tokens)?;
        let whole = Stmt::If {
            condition: test,
            then_branch,
            else_branch: Some(otherwise),
        };
        Ok((whole, 1 + height.max(else_height)))
    }

    /// What stands behind a `while`.
    #[tactic(auto, unfolding(crate::specs::inner::Readers::while_behind))]
    fn while_behind(&self, tokens: &mut Cursor<'_>) -> Result<(Stmt, usize), Failure>
        requires { Nests self.now.depth (F.pre self.now.stmt) (F.post self.now.stmt) }
        ensures reads { Reads (of_depth reader.while_behind self.now.names.now self.now.depth tokens.old) result tokens.new }
        ensures height { IfOk result (λ s. s.1 ≤ 1 + self.now.depth) }
    {
        let (test, test_height) = self.condition(tokens)?;
        let (body, height) = self.boxed(tokens)?;
        Ok((Stmt::While(test, body), 1 + test_height.max(height)))
    }

    /// What stands behind a `do`.
    #[tactic(auto, unfolding(crate::specs::inner::Readers::do_behind))]
    fn do_behind(&self, tokens: &mut Cursor<'_>) -> Result<(Stmt, usize), Failure>
        requires { Nests self.now.depth (F.pre self.now.stmt) (F.post self.now.stmt) }
        ensures reads { Reads (of_depth reader.do_behind self.now.names.now self.now.depth tokens.old) result tokens.new }
        ensures height { IfOk result (λ s. s.1 ≤ 1 + self.now.depth) }
    {
        let (body, height) = self.boxed(tokens)?;
        expect_word(tokens, Keyword::While)?;
        let (test, test_height) = self.condition(tokens)?;
        tokens.expect(Mark::Semicolon)?;
        Ok((Stmt::Do(body, test), 1 + height.max(test_height)))
    }

    /// What stands behind a `for`.
    #[tactic(auto, unfolding(crate::specs::inner::Readers::for_behind))]
    fn for_behind(&self, tokens: &mut Cursor<'_>) -> Result<(Stmt, usize), Failure>
        requires { Nests self.now.depth (F.pre self.now.stmt) (F.post self.now.stmt) }
        ensures reads { Reads (of_depth reader.for_behind self.now.names.now self.now.depth tokens.old) result tokens.new }
        ensures height { IfOk result (λ s. s.1 ≤ 1 + self.now.depth) }
    {
        tokens.expect(Mark::LeftParenthesis)?;
        let (init, init_height) = for_init(self.alloc, self.names, tokens, self.depth)?;
        let ((condition, step), tests_height) = for_tests(
            self.alloc, self.names, tokens, self.depth,
        )?;
        let (body, height) = self.inner(tokens)?;
        let for_loop = ForLoop {
            init,
            condition,
            step,
            body,
        };
        let for_loop = Boxed::new(self.alloc, for_loop)?;
        Ok((
            Stmt::For(for_loop),
            1 + init_height.max(tests_height.max(height)),
        ))
    }

    /// What stands behind a `return`.
    #[tactic(auto, unfolding(crate::specs::inner::Readers::return_behind))]
    fn return_behind(&self, tokens: &mut Cursor<'_>) -> Result<(Stmt, usize), Failure>
        requires { Nests self.now.depth (F.pre self.now.stmt) (F.post self.now.stmt) }
        ensures reads { Reads (of_depth reader.return_behind self.now.names.now self.now.depth tokens.old) result tokens.new }
        ensures height { IfOk result (λ s. s.1 ≤ 1 + self.now.depth) }
    {
        let (value, height) = self.option_to(tokens, Mark::Semicolon)?;
        Ok((Stmt::Return(value), 1 + height))
    }

    /// An expression and a semicolon, or a semicolon alone.
    #[tactic(auto, unfolding(crate::specs::inner::Readers::computes))]
    fn computes(&self, tokens: &mut Cursor<'_>) -> Result<(Stmt, usize), Failure>
        requires { Nests self.now.depth (F.pre self.now.stmt) (F.post self.now.stmt) }
        ensures reads { Reads (of_depth reader.computes self.now.names.now self.now.depth tokens.old) result tokens.new }
        ensures height { IfOk result (λ s. s.1 ≤ 1 + self.now.depth) }
    {
        let (value, height) = self.option_to(tokens, Mark::Semicolon)?;
        Ok((Stmt::Expr(value), 1 + height))
    }

    /// A statement, one deeper.
    #[tactic(auto, unfolding(crate::specs::inner::Readers::stmt_over))]
    pub fn statement(&self, tokens: &mut Cursor<'_>) -> Result<(Stmt, usize), Failure>
        requires { Nests self.now.depth (F.pre self.now.stmt) (F.post self.now.stmt) }
        ensures reads { Reads (of_depth reader.stmt_over self.now.names.now self.now.depth tokens.old) result tokens.new }
        ensures height { IfOk result (λ s. s.1 ≤ 1 + self.now.depth) }
    {
        let Some(kind) = tokens.peek() else {
            return Err(Failure::Mismatch);
        };
        match form_of(kind) {
            Form::Block => {
                let (block, height) = self.block(tokens)?;
                Ok((Stmt::Block(block), 1 + height))
            }
            Form::If => {
                tokens.skip();
                self.if_behind(tokens)
            }
            Form::While => {
                tokens.skip();
                self.while_behind(tokens)
            }
            Form::Do => {
                tokens.skip();
                self.do_behind(tokens)
            }
            Form::For => {
                tokens.skip();
                self.for_behind(tokens)
            }
            Form::Break => {
                tokens.skip();
                break_behind(tokens)
            }
            Form::Continue => {
                tokens.skip();
                continue_behind(tokens)
            }
            Form::Return => {
                tokens.skip();
                self.return_behind(tokens)
            }
            Form::Computation => self.computes(tokens),
        }
    }
}
