//! A type that layers are put round, one after another.

ghost use Rattle.std.specs.Prelude.{◌≡◌, ◌+◌, ◌*◌, ◌≤◌, ◌<◌, map, nat_le, sum_by, if◌then◌else◌, IfOk, List};
ghost use Rattle.std.specs.Result.{result_ok};
ghost use Rattle.c_layers.specs.declared.layer.Shape.TheVariants as shape;
ghost use Rattle.c_layers.specs.Shapes as spec;
ghost use Rattle.c_layers.specs.inner.Stages.{IsCounted, IsKnown, counted, function_type, shape_of};
ghost use Rattle.c_types.specs.declared.structs.StructDef.{StructDef};
ghost use Rattle.c_types.specs.Parts.{parts as parts_of};
ghost use Rattle.c_types.specs.Units.{units_of, most_units};

use crate::layer::{Layer, MOST_PARTS, Parameter, Shape};
use c_types::{FnTy, StructTable, Ty, TyList, copy_type, is_scalar, is_void, parts};
use shared::Shared;
use sqlite_items::Items;
use std::alloc::{AllocError, Global};

/// The most units that a type may have.
const MOST_UNITS: u64 = 65_536;

/// A type, with what the next layer asks of it, so that it isn't found anew at each layer.
#[derive(Debug, Drop)]
pub(crate) struct Counted {
    pub(crate) ty: Ty,
    /// Its parts, and 1,001 where they are more.
    pub(crate) parts: u32,
    /// Its units, where it is an array and they aren't too many: else they are quick to find.
    pub(crate) units: Option<u32>,
}

/// What the layers so far make.
#[derive(Debug, Drop)]
pub(crate) enum Stage {
    Whole(Counted),
    /// An array of this without a bound.
    Open(Ty),
    /// No type, and whether it is a function.
    Broken(bool),
}

impl Stage {
    /// A spec's type, without layers.
    pub(crate) fn of(base: Ty) -> Stage
        ensures shape { shape_of result ≡ shape.Whole base }
        ensures known { (defs : List StructDef) → IsKnown defs result }
    {
        Stage::Whole(Counted {
            parts: parts(&base),
            units: None,
            ty: base,
        })
    }

    /// What it is, without what is known of it.
    pub(crate) fn into_shape(self) -> Shape
        ensures { result ≡ shape_of self }
    {
        match self {
            Stage::Whole(
                Counted {
                    ty,
                    parts: _,
                    units: _,
                },
            ) => Shape::Whole(ty),
            Stage::Open(element) => Shape::Open(element),
            Stage::Broken(is_function) => Shape::Broken(is_function),
        }
    }

    /// Whether a function may return it, as far as it is a type.
    pub(crate) fn is_result(&self) -> bool
        ensures { result ≡ spec.is_result (shape_of self.now) }
    {
        match self {
            Stage::Whole(inner) => is_scalar(&inner.ty) || is_void(&inner.ty),
            _ => true,
        }
    }
}

/// One more layer.
pub(crate) fn layered(
    alloc: Global,
    structs: &StructTable,
    inner: Stage,
    layer: &Layer,
) -> Result<Stage, AllocError>
    requires { IsKnown structs.now inner }
    ensures shape { IfOk result
        (λ stage. shape_of stage ≡ spec.layered structs.now layer.now (shape_of inner)) }
    ensures known { IfOk result (λ stage. IsKnown structs.now stage) }
{
    match inner {
        Stage::Whole(inner) => match layer {
            Layer::Array(bound) => arrayed(alloc, structs, inner, *bound),
            Layer::Function(params) => called(alloc, structs, inner, params.as_slice()),
            Layer::Pointers(stars) => pointed(alloc, structs, inner, *stars),
        },
        other => Ok(round_no_type(other, layer)),
    }
}

/// One more layer round what is no type.
fn round_no_type(inner: Stage, layer: &Layer) -> Stage
    requires { spec.whole_of (shape_of inner) ≡ None }
    ensures shape { (defs : List StructDef)
        → shape_of result ≡ spec.layered defs layer.now (shape_of inner) }
    ensures known { (defs : List StructDef) → IsKnown defs result }
{
    match layer {
        Layer::Array(_) => Stage::Broken(false),
        Layer::Function(_) => Stage::Broken(true),
        Layer::Pointers(stars) if *stars > 0 => Stage::Broken(false),
        Layer::Pointers(_) => inner,
    }
}

/// So many stars in front of it.
fn pointed(
    alloc: Global,
    _structs: &StructTable,
    inner: Counted,
    stars: u32,
) -> Result<Stage, AllocError>
    requires { IsCounted _structs.now inner }
    ensures shape { IfOk result
        (λ stage. shape_of stage ≡ spec.pointed_by stars (shape.Whole inner.ty)) }
    ensures known { IfOk result (λ stage. IsKnown _structs.now stage) }
{
    if stars == 0 {
        return Ok(Stage::Whole(inner));
    }
    if stars > MOST_PARTS - inner.parts.min(MOST_PARTS) {
        return Ok(Stage::Broken(false));
    }
    let Counted {
        mut ty,
        parts,
        units: _,
    } = inner;
    for _ in 0..stars {
        ty = Ty::Pointer(Shared::new(alloc, ty)?);
    }
    Ok(Stage::Whole(Counted {
        ty,
        parts: parts + stars,
        units: None,
    }))
}

/// An array of it.
fn arrayed(
    alloc: Global,
    structs: &StructTable,
    element: Counted,
    bound: Option<u32>,
) -> Result<Stage, AllocError>
    requires { IsCounted structs.now element }
    ensures shape { IfOk result
        (λ stage. shape_of stage ≡ spec.arrayed structs.now bound (shape.Whole element.ty)) }
    ensures known { IfOk result (λ stage. IsKnown structs.now stage) }
{
    let Some(units) = known_units(structs, &element) else {
        return Ok(Stage::Broken(false));
    };
    let Counted {
        ty,
        parts,
        units: _,
    } = element;
    let Some(bound) = bound else {
        return Ok(Stage::Open(ty));
    };
    if parts >= MOST_PARTS {
        return Ok(Stage::Broken(false));
    }
    Ok(Stage::Whole(Counted {
        ty: Ty::Array(Shared::new(alloc, ty)?, bound),
        parts: parts + 1,
        units: product(units, bound),
    }))
}

/// The units of a type, if they aren't refused.
fn known_units(structs: &StructTable, counted: &Counted) -> Option<u32>
    requires { IsCounted structs.now counted.now }
    ensures { result ≡ result_ok (units_of structs.now counted.now.ty) }
{
    match counted.units {
        Some(units) => Some(units),
        None => structs.units(&counted.ty).ok(),
    }
}

/// The units of an array, if they aren't too many.
fn product(units: u32, bound: u32) -> Option<u32>
    ensures { result ≡ (if nat_le (units * bound) most_units then Some (units * bound) else None) }
{
    let product = u64::from(units) * u64::from(bound);
    if product > MOST_UNITS {
        return None;
    }
    Some(product as u32)
}

/// A function that returns it.
fn called(
    alloc: Global,
    _structs: &StructTable,
    inner: Counted,
    params: &[Parameter],
) -> Result<Stage, AllocError>
    requires { IsCounted _structs.now inner }
    ensures shape { IfOk result
        (λ stage. shape_of stage ≡ spec.called (map (λ p. p.ty) params.now) (shape.Whole inner.ty)) }
    ensures known { IfOk result (λ stage. IsKnown _structs.now stage) }
{
    let Counted {
        ty,
        parts,
        units: _,
    } = inner;
    let parts = parts_with(parts, params);
    if parts >= MOST_PARTS {
        return Ok(Stage::Broken(true));
    }
    Ok(Stage::Whole(Counted {
        ty: function_type(alloc, ty, params)?,
        parts: parts + 1,
        units: None,
    }))
}

/// The type of a function with this result and these parameters.
fn function_type(alloc: Global, result_type: Ty, params: &[Parameter]) -> Result<Ty, AllocError>
    ensures { IfOk result (λ made. made ≡ function_type result_type params.now) }
{
    let params = types_of(alloc, params)?;
    let function = FnTy {
        result: result_type,
        params,
    };
    Ok(Ty::Function(Shared::new(alloc, function)?))
}

/// So many parts and those of the parameters, and 1,001 for all that are more.
fn parts_with(parts_before: u32, params: &[Parameter]) -> u32
    requires { parts_before ≤ 1001 }
    ensures { result ≡ counted (parts_before + sum_by (λ p. parts_of p.ty) params.now) }
{
    let mut total = parts_before;
    for param in params {
        if total > MOST_PARTS {
            return MOST_PARTS + 1;
        }
        total = (total + parts(&param.ty)).min(MOST_PARTS + 1);
    }
    total
}

/// The types of parameters.
fn types_of(alloc: Global, params: &[Parameter]) -> Result<TyList, AllocError>
    ensures { IfOk result (λ types. types ≡ map (λ p. p.ty) params.now) }
{
    let mut types = Items::new(alloc);
    for param in params {
        types.push(copy_type(&param.ty)?)?;
    }
    Ok(types)
}
