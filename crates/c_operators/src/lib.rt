//! The types of expressions: what converts to what, what an lvalue is, what the operators take and give, and which
//! expressions are constant.
#![tactic(auto)]

mod constants;
mod conversions;
mod lvalues;
mod operators;

pub use constants::{of_binary, of_cast, of_conditional, of_unary};
pub use conversions::{
    converts, has_units, is_counted, is_integer_value, is_null, is_scalar_value, takes_value,
    type_converts, value_type,
};
pub use lvalues::{is_assignable, is_lvalue};
pub use operators::{chosen, compared_as, operated};
