//! What several rules ask of operands.

ghost use Rattle.c_rules.specs.Rules.{pointed};
ghost use Rattle.c_scope.specs.Walks.{Walks};

use c_operators::value_type;
use c_scope::{Failure, Rule, World};
use c_typed::TypedExpr;
use c_types::{Ty, copy_type, target_of};
use std::alloc::Global;

/// What an expression's value points to.
///
/// # Errors
///
/// `Broken`, of `Pointer`, exactly where it is no pointer. `Memory`, where no memory is left.
#[tactic(auto, unfolding(crate::specs::Rules::pointed))]
pub fn pointed(alloc: Global, _world: &World, x: &TypedExpr) -> Result<Ty, Failure>
    ensures { Walks (pointed x.now _world.now) result _world.now }
{
    match target_of(&value_type(alloc, x)?) {
        Some(target) => Ok(copy_type(target)?),
        None => Err(Failure::Broken(Rule::Pointer)),
    }
}
