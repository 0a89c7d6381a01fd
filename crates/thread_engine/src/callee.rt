//! Where an indirect call or a start goes.

ghost use Rattle.std.specs.Prelude.{◌≡◌, ◌∷◌, [], if◌then◌else◌, slice_get};
ghost use Rattle.c_types.specs.declared.ty.Ty.TheVariants as types;
ghost use Rattle.c_types.specs.Same.{agree, same};
ghost use Rattle.core_ir.specs.Typed.{start_type, void_pointer};
ghost use Rattle.machine.specs.Domain as model;
ghost use Rattle.machine.specs.Protected as spec;
ghost use Rattle.thread_engine.specs.inner.Turns.{callee_of};

use c_types::{FnTy, Ty, is_void, is_void_pointer, same_functions};
use machine::Code;
use meaning::{Check, Stop, Value};

/// Where an indirect call or a start goes.
#[derive(Clone, Copy, Debug)]
pub(crate) enum Callee {
    Reaches(u32),
    Refused(Stop),
}

impl Callee {
    /// A function that there is, by whether it has the type of the call.
    fn by_type(fits: bool, f: u32) -> Callee
        ensures { callee_of result ≡ (if fits then model.Reaches f else model.Refused (Stop.Failed Check.WrongType)) }
    {
        if fits {
            Callee::Reaches(f)
        } else {
            Callee::Refused(Stop::Failed(Check::WrongType))
        }
    }

    /// Where a call of a function of this type through a value goes: first whether the value is a
    /// function, then whether there is one of the type.
    pub(crate) fn of_call(code: &Code, ty: &FnTy, value: Value) -> Callee
        ensures { callee_of result ≡ spec.protected_callee code.now ty.now value }
    {
        match value {
            Value::Code(f) => Callee::of_type(code, ty, f),
            _ => Callee::Refused(Stop::Failed(Check::NotCode)),
        }
    }

    /// A function by its number, if it has this type.
    #[tactic(auto, using(crate::proofs::SameFunctions::function_types_are_same))]
    fn of_type(code: &Code, ty: &FnTy, f: u32) -> Callee
        ensures { callee_of result ≡ spec.callee_of_type ty.now (slice_get code.now.functions f) f }
    {
        match code.functions.get(f as usize) {
            None => Callee::Refused(Stop::Failed(Check::WrongType)),
            Some(function) => Callee::by_type(same_functions(ty, &function.ty), f),
        }
    }

    /// Where a thread that found this value as its start goes.
    pub(crate) fn of_start(code: &Code, value: Value) -> Callee
        ensures { callee_of result ≡ spec.protected_callee code.now start_type value }
    {
        match value {
            Value::Code(f) => Callee::of_start_type(code, f),
            _ => Callee::Refused(Stop::Failed(Check::NotCode)),
        }
    }

    /// A function by its number, if a thread can begin in it.
    fn of_start_type(code: &Code, f: u32) -> Callee
        ensures { callee_of result ≡ spec.callee_of_type start_type (slice_get code.now.functions f) f }
    {
        match code.functions.get(f as usize) {
            None => Callee::Refused(Stop::Failed(Check::WrongType)),
            Some(function) => Callee::by_type(is_start(&function.ty), f),
        }
    }
}

/// Whether a thread can begin in a function of this type: it takes a pointer to `void` and gives
/// nothing.
#[tactic(auto, using(crate::proofs::SameFunctions::start_types_are_same))]
fn is_start(ty: &FnTy) -> bool
    ensures { result ≡ same (types.Function start_type) (types.Function ty.now) }
{
    is_void(&ty.result) && is_one_void_pointer(ty.params.as_slice())
}

/// Whether these are the parameters of a function in which a thread can begin.
#[tactic(auto, using(crate::proofs::SameFunctions::one_void_pointer, crate::proofs::SameFunctions::other_parameters))]
fn is_one_void_pointer(params: &[Ty]) -> bool
    ensures { result ≡ agree (same void_pointer ∷ []) params.now }
{
    if params.len() != 1 {
        return false;
    }
    is_void_pointer(&params[0])
}
