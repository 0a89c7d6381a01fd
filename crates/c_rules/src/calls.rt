//! Calls.

ghost use Rattle.std.specs.Prelude.{◌≡◌, IfOk};
ghost use Rattle.std.specs.Option.{option_copied};
ghost use Rattle.c_rules.specs.Rules as spec;
ghost use Rattle.c_scope.specs.Walks.{Walks};

use c_operators::converts;
use c_scope::{Failure, Rule, World, found};
use c_typed::{Constant, TypedExpr, TypedForm};
use c_types::{FnTy, Ty, copy_type, function_of};
use sqlite_items::{Boxed, Items};
use std::alloc::{AllocError, Global};

/// The type of the function that is called: the callee is one, or a pointer to one.
#[tactic(auto, unfolding(crate::specs::Rules::called_type, c_operators::specs::Operators::value_type, c_operators::specs::Operators::type_of, c_types::specs::Kinds::decay, c_types::specs::Kinds::target_of, c_types::specs::Kinds::function_of))]
fn called_type(callee: &TypedExpr) -> Option<&FnTy>
    ensures { option_copied result ≡ spec.called_type callee.now }
{
    match &callee.ty {
        Ty::Function(function) => Some(function.get()),
        Ty::Pointer(target) => function_of(target.get()),
        Ty::Array(element, _) => function_of(element.get()),
        _ => None,
    }
}

/// Whether each argument that has a parameter converts to it.
#[tactic(auto, using(crate::proofs::Arguments::arguments))]
fn all_convert(alloc: Global, arguments: &[TypedExpr], params: &[Ty]) -> Result<bool, AllocError>
    ensures { IfOk result (λ all. all ≡ spec.all_convert arguments.now params.now) }
{
    let mut left = params;
    for argument in arguments {
        let Some((param, behind)) = left.split_first() else {
            return Ok(true);
        };
        if !converts(alloc, argument, param)? {
            return Ok(false);
        }
        left = behind;
    }
    Ok(true)
}

/// A call.
///
/// # Errors
///
/// `Broken`, at the first rule that is broken. `Memory`, where no memory is left.
#[tactic(auto, unfolding(crate::specs::Rules::call, c_operators::specs::Operators::typed))]
pub fn call(
    alloc: Global,
    _world: &World,
    callee: Boxed<TypedExpr>,
    arguments: Items<TypedExpr>,
) -> Result<TypedExpr, Failure>
    ensures { Walks (spec.call callee arguments _world.now) result _world.now }
{
    let ty = called(alloc, _world, callee.get(), arguments.as_slice())?;
    Ok(TypedExpr {
        form: TypedForm::Call(callee, arguments),
        ty,
        constant: Constant::Other,
    })
}

/// The rules of a call, and the type of its result.
#[tactic(auto, unfolding(crate::specs::Rules::called))]
fn called(
    alloc: Global,
    _world: &World,
    callee: &TypedExpr,
    arguments: &[TypedExpr],
) -> Result<Ty, Failure>
    ensures { Walks (spec.called callee.now arguments.now _world.now) result _world.now }
{
    let function = found(Rule::Call, called_type(callee))?;
    let params = function.params.as_slice();
    if !all_convert(alloc, arguments, params)? {
        return Err(Failure::Broken(Rule::Unconverted));
    }
    if arguments.len() != params.len() {
        return Err(Failure::Broken(Rule::Call));
    }
    Ok(copy_type(&function.result)?)
}
