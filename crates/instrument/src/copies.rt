//! Copies of a function's type.

ghost use Rattle.std.specs.Prelude.{◌≡◌, IfOk};

use c_types::{FnTy, Ty, TyList, copy_type};
use sqlite_items::Items;
use std::alloc::{AllocError, Global};

/// Copies of types.
fn copy_types(alloc: Global, types: &[Ty]) -> Result<TyList, AllocError>
    ensures { IfOk result (λ copies. copies ≡ types.now) }
{
    let mut copies = Items::new(alloc);
    for ty in types {
        copies.push(copy_type(ty)?)?;
    }
    Ok(copies)
}

/// A copy of a function's type.
pub(crate) fn copy_function(alloc: Global, function: &FnTy) -> Result<FnTy, AllocError>
    ensures { IfOk result (λ copy. copy ≡ function.now) }
{
    let result = copy_type(&function.result)?;
    let params = copy_types(alloc, function.params.as_slice())?;
    Ok(FnTy { result, params })
}
