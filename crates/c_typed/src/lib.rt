//! Sources with their types: the trees of the grammar, with what typing finds of each part.
#![tactic(auto)]

mod entity;
mod expression;
mod statement;
mod unit;

pub use entity::{BuiltIn, Constant, Entity};
pub use expression::{
    Declared, TypedAbstractDeclarator, TypedDeclarator, TypedDirect, TypedExpr, TypedForm,
    TypedMemberDecl, TypedParam, TypedParams, TypedSpec, TypedSuffix, TypedTypeWord,
};
pub use statement::{
    TypedBlock, TypedBlockItem, TypedDecl, TypedForInit, TypedForLoop, TypedFullExpr, TypedInit,
    TypedInitDeclarator, TypedStmt,
};
pub use unit::{Local, Typed, TypedFn, TypedItem};
