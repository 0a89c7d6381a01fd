//! The trees of the grammar, one variant for each of its forms.
#![tactic(auto)]

mod expression;
mod names;
mod operator;
mod printer;
mod statement;
mod theorems;

pub use expression::{
    AbstractDeclarator, Declarator, Direct, Expr, MemberDecl, Param, Params, Spec, Suffix, TypeWord,
};
pub use names::TypeNames;
pub use operator::{AssignOperator, BinaryOperator, UnaryOperator};
pub use printer::print_unit;
pub use statement::{
    Block, BlockItem, Decl, ForInit, ForLoop, FullExpr, Init, InitDeclarator, Item, Stmt, Unit,
};
pub use theorems::declarators_declare_their_names;
