//! The types that specs and layers make, and what is asked of a value or of a type.

ghost use Rattle.std.specs.Prelude.{◌≡◌, IfOk};
ghost use Rattle.std.specs.Option.{option_copied};
ghost use Rattle.c_const.specs.Constant as spec;
ghost use Rattle.c_const.specs.Constant.{Gives, or_other};
ghost use Rattle.c_const.specs.inner.Evaluated.{evaluated};
ghost use Rattle.c_layers.specs.Shapes.{adjusted, shaped as shaped_by, whole_of};
ghost use Rattle.c_types.specs.Units.{units_of};
ghost use Rattle.c_types.specs.declared.ty.Ty.{out-Ty};

use crate::error::ConstRefusal;
use crate::values::as_char;
use c_layers::{Layer, Layers, Parameter, shaped};
use c_tree::Spec;
use c_types::{Name, StructTable, Ty, copy_type};
use sqlite_items::Items;
use std::alloc::Global;

/// Type names, each with its type. The first of a name counts.
pub type TypeTable = Items<(Name, Ty)>;

/// The type of this name.
fn type_named<'a>(names: &'a TypeTable, name: &Name) -> Option<&'a Ty>
    ensures { option_copied result ≡ spec.type_named names.now name.now }
{
    for entry in names.as_slice() {
        if entry.0.bytes() == name.bytes() {
            return Some(&entry.1);
        }
    }
    None
}

/// The type of a spec without a body.
#[tactic(auto, using(crate::proofs::Forms::specs))]
pub(crate) fn spec_type(
    structs: &StructTable,
    names: &TypeTable,
    spec: &Spec,
) -> Result<Ty, ConstRefusal>
    ensures { Gives ((evaluated structs.now names.now).spec spec.now) result }
{
    match spec {
        Spec::Int => Ok(Ty::Int),
        Spec::Char => Ok(Ty::Char),
        Spec::Void => Ok(Ty::Void),
        Spec::TypeName(name) => match type_named(names, name) {
            Some(ty) => Ok(copy_type(ty)?),
            None => Err(ConstRefusal::NotConstant),
        },
        Spec::Struct(tag, body) => match body {
            None => struct_type(structs, tag),
            Some(_) => Err(ConstRefusal::NotConstant),
        },
    }
}

/// The struct of this tag.
fn struct_type(structs: &StructTable, tag: &Name) -> Result<Ty, ConstRefusal>
    ensures { Gives (spec.struct_type structs.now tag.now) result }
{
    match structs.find(tag.bytes()) {
        Some(number) => Ok(Ty::Struct(number)),
        None => Err(ConstRefusal::NotConstant),
    }
}

/// The type that a type word's layers make.
pub(crate) fn word_type(
    alloc: Global,
    structs: &StructTable,
    base: Ty,
    layers: &[Layer],
) -> Result<Ty, ConstRefusal>
    ensures { Gives (or_other (whole_of (shaped_by structs.now base layers.now))) result }
{
    match shaped(alloc, structs, base, layers)?.into_whole() {
        Some(ty) => Ok(ty),
        None => Err(ConstRefusal::NotConstant),
    }
}

/// The parameter that its layers make, without its name.
pub(crate) fn parameter_of(
    alloc: Global,
    structs: &StructTable,
    base: Ty,
    layers: &[Layer],
) -> Result<Parameter, ConstRefusal>
    ensures { Gives (spec.parameter_of structs.now base layers.now) result }
{
    let shape = shaped(alloc, structs, base, layers)?.adjusted(alloc)?;
    match shape.into_whole() {
        Some(ty) => Ok(Parameter { name: None, ty }),
        None => Err(ConstRefusal::NotConstant),
    }
}

/// The units of a type, where they aren't refused.
pub(crate) fn size_of(structs: &StructTable, ty: &Ty) -> Result<i64, ConstRefusal>
    ensures { Gives (spec.size_of (units_of structs.now ty.now)) result }
{
    match structs.units(ty) {
        Ok(units) => Ok(i64::from(units)),
        Err(_) => Err(ConstRefusal::NotConstant),
    }
}

/// A value as an array's bound.
pub(crate) fn bound(value: i64) -> Result<u32, ConstRefusal>
    ensures { Gives (spec.bound value) result }
{
    if value < 1 || value > 65_536 {
        return Err(ConstRefusal::NotConstant);
    }
    Ok(value as u32)
}

/// A value converted to `int` or `char`.
pub(crate) fn converted(ty: &Ty, value: i64) -> Result<i64, ConstRefusal>
    ensures { Gives (spec.converted (out-Ty ty.now) value) result }
{
    match ty {
        Ty::Int => Ok(value),
        Ty::Char => Ok(as_char(value)),
        _ => Err(ConstRefusal::NotConstant),
    }
}
