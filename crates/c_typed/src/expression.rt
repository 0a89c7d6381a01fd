//! Expressions, type words and declarators with their types.

use super::entity::{Constant, Entity};
use c_tree::{AssignOperator, BinaryOperator, UnaryOperator};
use c_types::{Name, Ty};
use sqlite_items::{Boxed, Items};

/// An expression with its type. Arrays and functions have their own types, not those of the pointers that they become.
#[derive(Drop)]
#[cycle(typed)]
pub struct TypedExpr {
    pub form: TypedForm,
    pub ty: Ty,
    pub constant: Constant,
}

/// The forms of expressions.
#[derive(Drop)]
#[cycle(typed)]
pub enum TypedForm {
    Assign(Boxed<TypedExpr>, AssignOperator, Boxed<TypedExpr>),
    Conditional {
        condition: Boxed<TypedExpr>,
        then_value: Boxed<TypedExpr>,
        else_value: Boxed<TypedExpr>,
    },
    Binary(Boxed<TypedExpr>, BinaryOperator, Boxed<TypedExpr>),
    Cast(Boxed<TypedTypeWord>, Boxed<TypedExpr>),
    PreIncrement(Boxed<TypedExpr>),
    PreDecrement(Boxed<TypedExpr>),
    Unary(UnaryOperator, Boxed<TypedExpr>),
    SizeofExpr(Boxed<TypedExpr>),
    SizeofType(Boxed<TypedTypeWord>),
    Index(Boxed<TypedExpr>, Boxed<TypedExpr>),
    Call(Boxed<TypedExpr>, Items<TypedExpr>),
    /// With the member's number in its struct.
    Member(Boxed<TypedExpr>, Name, u32),
    /// With the member's number in its struct.
    Arrow(Boxed<TypedExpr>, Name, u32),
    PostIncrement(Boxed<TypedExpr>),
    PostDecrement(Boxed<TypedExpr>),
    Identifier(Name, Entity),
    Number(i64),
    /// The bytes, without the final 0, and the number of the string's object in order of appearance.
    Text(Items<u8>, u32),
}

/// What stands in front of a declarator.
#[derive(Drop)]
#[cycle(typed)]
pub enum TypedSpec {
    Int,
    Char,
    Void,
    TypeName(Name),
    /// `struct` and a tag, with the members of its body where it has one.
    Struct(Name, Option<Items<TypedMemberDecl>>),
}

/// One line of a struct's body.
#[derive(Drop)]
#[cycle(typed)]
pub struct TypedMemberDecl {
    pub spec: TypedSpec,
    pub declarators: Items<Declared>,
}

/// A declarator, and the type that it gives its name.
#[derive(Drop)]
#[cycle(typed)]
pub struct Declared {
    pub declarator: TypedDeclarator,
    pub ty: Ty,
}

/// Stars, a name or a bracketed declarator, and suffixes.
#[derive(Drop)]
#[cycle(typed)]
pub struct TypedDeclarator {
    pub stars: u32,
    pub direct: TypedDirect,
    pub suffixes: Items<TypedSuffix>,
}

/// What a declarator's stars and suffixes stand round.
#[derive(Drop)]
#[cycle(typed)]
pub enum TypedDirect {
    Name(Name),
    Bracketed(Boxed<TypedDeclarator>),
}

/// What stands behind a declarator.
#[derive(Drop)]
#[cycle(typed)]
pub enum TypedSuffix {
    Array(Option<TypedExpr>),
    Function(TypedParams),
}

/// The parameters of a function declarator.
#[derive(Drop)]
#[cycle(typed)]
pub enum TypedParams {
    Nothing,
    VoidAlone,
    List(Items<TypedParam>),
}

/// A parameter, with its adjusted type.
#[derive(Drop)]
#[cycle(typed)]
pub enum TypedParam {
    Named(TypedSpec, Declared),
    Unnamed(TypedSpec, TypedAbstractDeclarator, Ty),
}

/// A declarator without a name.
#[derive(Drop)]
#[cycle(typed)]
pub struct TypedAbstractDeclarator {
    pub stars: u32,
    pub bracketed: Option<Boxed<TypedAbstractDeclarator>>,
    pub suffixes: Items<TypedSuffix>,
}

/// A type in a cast or a `sizeof`.
#[derive(Drop)]
#[cycle(typed)]
pub struct TypedTypeWord {
    pub spec: TypedSpec,
    pub declarator: TypedAbstractDeclarator,
    pub ty: Ty,
}
