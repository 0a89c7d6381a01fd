//! The names of what a source declares.

ghost use Rattle.std.specs.Prelude.{◌≡◌};
ghost use Rattle.elab_pieces.specs.Program.{declarator_name};
ghost use Rattle.elab_rows.specs.Scope as spec;

use c_typed::{Local, TypedDeclarator, TypedDirect};
use c_types::{Name, is_scalar};

/// Whether a variable has a slot: a scalar whose address is taken nowhere.
#[tactic(auto, unfolding(elab_rows::specs::Scope::is_slot_local))]
pub(crate) fn is_slot_local(variable: &Local) -> bool
    ensures { result ≡ spec.is_slot_local variable.now }
{
    is_scalar(&variable.ty) && !variable.is_addressed
}

/// The name that a declarator declares.
#[tactic(auto, using(crate::proofs::DeclaratorNames::name_plain, crate::proofs::DeclaratorNames::name_bracketed))]
pub(crate) fn name_of(declarator: &TypedDeclarator) -> &Name
    ensures { result.now ≡ declarator_name declarator.now }
{
    match &declarator.direct {
        TypedDirect::Name(name) => name,
        TypedDirect::Bracketed(inside) => name_of(inside.get()),
    }
}
