//! Operands, and what they go on with.

ghost use Rattle.std.specs.Prelude.{◌≡◌, ℕ, ◌+◌, ◌<◌, ◌≤◌, ◌^◌, max, IfOk, IfSome};
ghost use Rattle.c_tree.specs.Marks.{Kinds};
ghost use Rattle.c_readers.specs.inner.Parser.{pure};
ghost use Rattle.c_readers.specs.inner.Reads.{Reads};
ghost use Rattle.c_readers.specs.inner.Readers as reader;

use crate::cursor::Cursor;
use crate::error::Failure;
use crate::level::{
    ASSIGN_LEVEL, CONDITIONAL_LEVEL, POSTFIX_LEVEL, PRIMARY_LEVEL, binary_level, continuation,
    left_level, whole_level,
};
use c_tokens::Kind;
use c_tree::{AssignOperator, BinaryOperator, Expr};
use c_types::Name;
use sqlite_items::{Boxed, Items};
use std::alloc::{AllocError, Global};

/// What a mark behind an operand begins.
#[derive(Clone, Copy)]
pub enum Continuation {
    Index,
    Call,
    Member,
    Arrow,
    Increment,
    Decrement,
    Binary(BinaryOperator),
    Conditional,
    Assign(AssignOperator),
}

/// What goes on behind an operand.
#[derive(Drop)]
pub enum Part {
    Index(Boxed<Expr>),
    Call(Items<Expr>),
    Member(Name),
    Arrow(Name),
    Increment,
    Decrement,
    Binary(BinaryOperator, Boxed<Expr>),
    Conditional(Boxed<Expr>, Boxed<Expr>),
    Assign(AssignOperator, Boxed<Expr>),
}

/// An expression that may go on.
#[derive(Drop)]
pub struct Operand {
    pub expr: Boxed<Expr>,
    /// The level of the grammar that it is of.
    pub level: usize,
    /// How many pairs of parentheses stand directly round it.
    pub pairs: usize,
    /// How deep its nodes are.
    pub height: usize,
}

impl Operand {
    /// An operand of this level, with no parentheses round it.
    pub fn new(alloc: Global, level: usize, expr: Expr, height: usize) -> Result<Operand, Failure>
        ensures reads { (ts : Kinds) → Reads (pure (reader.operand level expr height) ts) result ts }
        ensures height { (limit : ℕ) → height ≤ limit → IfOk result (λ o. o.height ≤ limit) }
    {
        let expr = Boxed::new(alloc, expr)?;
        Ok(Operand {
            expr,
            level,
            pairs: 0,
            height,
        })
    }

    /// An operand of one token.
    pub fn leaf(alloc: Global, expr: Expr) -> Result<Operand, Failure>
        ensures reads { (ts : Kinds) → Reads (pure (reader.leaf expr) ts) result ts }
        ensures height { (limit : ℕ) → 1 ≤ limit → IfOk result (λ o. o.height ≤ limit) }
    {
        Operand::new(alloc, PRIMARY_LEVEL, expr, 1)
    }

    /// What it goes on with, at these levels and where its nodes are at most so deep.
    #[tactic(auto, unfolding(crate::specs::inner::Readers::going_on))]
    pub fn going_on(&self, tokens: &Cursor<'_>, limit: usize, least: usize) -> Option<Continuation>
        ensures is { result ≡ reader.going_on limit least self.now tokens.now }
        ensures low { IfSome result (λ _. self.now.height ≤ limit) }
    {
        let Some(Kind::Mark(mark)) = tokens.peek() else {
            return None;
        };
        let Some(next) = continuation(*mark) else {
            return None;
        };
        if least <= whole_level(next) && left_level(next) <= self.level && self.height <= limit {
            Some(next)
        } else {
            None
        }
    }
}

/// The level of an operand that this ends.
fn part_level(part: &Part) -> usize
    ensures { result ≡ reader.part_level part.now }
{
    match part {
        Part::Binary(op, _) => binary_level(*op),
        Part::Conditional(..) => CONDITIONAL_LEVEL,
        Part::Assign(..) => ASSIGN_LEVEL,
        _ => POSTFIX_LEVEL,
    }
}

/// The expression with what goes on behind it.
fn with_part(left: Boxed<Expr>, part: Part) -> Expr
    ensures { result ≡ reader.with_part left part }
{
    match part {
        Part::Index(at) => Expr::Index(left, at),
        Part::Call(given) => Expr::Call(left, given),
        Part::Member(name) => Expr::Member(left, name),
        Part::Arrow(name) => Expr::Arrow(left, name),
        Part::Increment => Expr::PostIncrement(left),
        Part::Decrement => Expr::PostDecrement(left),
        Part::Binary(op, right) => Expr::Binary(left, op, right),
        Part::Conditional(first, second) => Expr::Conditional {
            condition: left,
            then_value: first,
            else_value: second,
        },
        Part::Assign(op, right) => Expr::Assign(left, op, right),
    }
}

/// The operand with what goes on behind it, which is so high.
#[tactic(auto, unfolding(crate::specs::inner::Readers::extended))]
pub fn extended(alloc: Global, operand: Operand, part: (Part, usize)) -> Result<Operand, AllocError>
    requires low { operand.height < 2 ^ 32 }
    requires part_low { part.1 < 2 ^ 32 }
    ensures is { IfOk result (λ o. o ≡ reader.extended operand part) }
    ensures height { IfOk result (λ o. o.height ≡ 1 + max operand.height part.1) }
{
    let (part, height) = part;
    let level = part_level(&part);
    let expr = Boxed::new(alloc, with_part(operand.expr, part))?;
    Ok(Operand {
        expr,
        level,
        pairs: 0,
        height: 1 + operand.height.max(height),
    })
}

/// The operand in one more pair of parentheses.
#[tactic(auto, unfolding(crate::specs::inner::Readers::bracketed))]
pub fn bracketed(operand: Operand) -> Operand
    requires { operand.pairs < 2 ^ 32 }
    ensures is { result ≡ reader.bracketed operand }
    ensures height { result.height ≡ operand.height }
{
    Operand {
        level: PRIMARY_LEVEL,
        pairs: 1 + operand.pairs,
        ..operand
    }
}
