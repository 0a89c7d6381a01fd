//! Sizes and casts.

ghost use Rattle.std.specs.Prelude.{◌≡◌, IfOk};
ghost use Rattle.c_rules.specs.Rules as spec;
ghost use Rattle.c_scope.specs.Walks.{Walks};
ghost use Rattle.c_typed.specs.declared.expression.TypedForm.TheVariants as form;

use c_operators::{has_units, is_scalar_value, of_cast};
use c_scope::{Failure, Rule, World, found, test};
use c_typed::{Constant, TypedExpr, TypedForm, TypedTypeWord};
use c_types::{Ty, copy_type, is_scalar, is_void};
use sqlite_items::Boxed;
use std::alloc::{AllocError, Global};

/// `sizeof` of an expression.
///
/// # Errors
///
/// `Broken`, at the first rule that is broken. `Memory`, where no memory is left.
#[tactic(auto, unfolding(crate::specs::Rules::size_of_value, c_operators::specs::Operators::typed, c_operators::specs::Operators::type_of))]
pub fn size_of_value(world: &World, x: Boxed<TypedExpr>) -> Result<TypedExpr, Failure>
    ensures { Walks (spec.size_of_value x world.now) result world.now }
{
    test(Rule::Unsized, has_units(&world.structs, &x.get().ty))?;
    Ok(TypedExpr {
        form: TypedForm::SizeofExpr(x),
        ty: Ty::Int,
        constant: Constant::Other,
    })
}

/// `sizeof` of a type word.
///
/// # Errors
///
/// `Broken`, at the first rule that is broken. `Memory`, where no memory is left.
#[tactic(auto, unfolding(crate::specs::Rules::size_of_type, c_operators::specs::Operators::typed))]
pub fn size_of_type(world: &World, word: Boxed<TypedTypeWord>) -> Result<TypedExpr, Failure>
    ensures { Walks (spec.size_of_type word world.now) result world.now }
{
    let units = found(Rule::Unsized, world.structs.units(&word.get().ty).ok())?;
    Ok(TypedExpr {
        form: TypedForm::SizeofType(word),
        ty: Ty::Int,
        constant: Constant::Value(i64::from(units)),
    })
}

/// Whether an expression may be cast to the type: to `void` from anything, else from a scalar to a
/// scalar.
#[tactic(auto, unfolding(crate::specs::Rules::may_be_cast))]
fn may_be_cast(x: &TypedExpr, to: &Ty) -> bool
    ensures { result ≡ spec.may_be_cast x.now to.now }
{
    is_void(to) || (is_scalar(to) && is_scalar_value(x))
}

/// A cast.
///
/// # Errors
///
/// `Broken`, at the first rule that is broken. `Memory`, where no memory is left.
#[tactic(auto, unfolding(crate::specs::Rules::cast, c_operators::specs::Operators::typed, c_operators::specs::Operators::constant_of))]
pub fn cast(
    _world: &World,
    word: Boxed<TypedTypeWord>,
    x: Boxed<TypedExpr>,
) -> Result<TypedExpr, Failure>
    ensures { Walks (spec.cast word x _world.now) result _world.now }
{
    if !may_be_cast(x.get(), &word.get().ty) {
        return Err(Failure::Broken(Rule::Cast));
    }
    let ty = copy_type(&word.get().ty)?;
    let constant = of_cast(&ty, x.get().constant);
    Ok(TypedExpr {
        form: TypedForm::Cast(word, x),
        ty,
        constant,
    })
}
