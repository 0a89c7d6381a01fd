//! Initialisers, declarations and statements with their types.

use super::entity::Entity;
use super::expression::{Declared, TypedExpr, TypedSpec};
use sqlite_items::{Boxed, Items};

/// What a variable begins with.
#[derive(Drop)]
pub enum TypedInit {
    Expr(TypedExpr),
    /// A string that gives a char array its units, without the final 0.
    Text(Items<u8>),
    Braces(Items<TypedInit>),
}

/// A declared name with its initialiser, if it has one.
#[derive(Drop)]
pub struct TypedInitDeclarator {
    pub declared: Declared,
    pub entity: Entity,
    pub init: Option<TypedInit>,
}

/// A spec and what it declares.
#[derive(Drop)]
pub struct TypedDecl {
    pub spec: TypedSpec,
    pub declarators: Items<TypedInitDeclarator>,
}

/// An expression of a statement, which is no part of another expression.
#[derive(Drop)]
pub struct TypedFullExpr {
    pub expr: Boxed<TypedExpr>,
}

/// `{` declarations and statements `}`.
#[derive(Drop)]
#[cycle(typed_statement)]
pub struct TypedBlock {
    pub items: Items<TypedBlockItem>,
}

/// A declaration or a statement of a block.
#[derive(Drop)]
#[cycle(typed_statement)]
pub enum TypedBlockItem {
    Decl(Boxed<TypedDecl>),
    Stmt(TypedStmt),
}

/// What a `for` begins with.
#[derive(Drop)]
pub enum TypedForInit {
    Decl(Boxed<TypedDecl>),
    Expr(Option<TypedFullExpr>),
}

/// A `for` with its statement.
#[derive(Drop)]
#[cycle(typed_statement)]
pub struct TypedForLoop {
    pub init: TypedForInit,
    pub condition: Option<TypedFullExpr>,
    pub step: Option<TypedFullExpr>,
    pub body: TypedStmt,
}

/// A statement.
#[derive(Drop)]
#[cycle(typed_statement)]
pub enum TypedStmt {
    Block(TypedBlock),
    If {
        condition: TypedFullExpr,
        then_branch: Boxed<TypedStmt>,
        else_branch: Option<Boxed<TypedStmt>>,
    },
    /// The condition and the statement.
    While(TypedFullExpr, Boxed<TypedStmt>),
    /// The statement and the condition.
    Do(Boxed<TypedStmt>, TypedFullExpr),
    For(Boxed<TypedForLoop>),
    Break,
    Continue,
    Return(Option<TypedFullExpr>),
    /// An expression and `;`, or `;` alone.
    Expr(Option<TypedFullExpr>),
}
