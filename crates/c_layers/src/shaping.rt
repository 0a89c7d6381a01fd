//! What a spec and a declarator make.

ghost use Rattle.std.specs.Prelude.{◌≡◌, IfOk};
ghost use Rattle.c_layers.specs.Shapes as spec;
ghost use Rattle.c_layers.specs.inner.Stages.{fits_inside, shape_of};

use crate::layer::{Layer, Shape};
use crate::stage::{Stage, layered};
use c_types::{StructTable, Ty};
use std::alloc::{AllocError, Global};

/// What a spec and layers make, and what the functions inside return.
#[derive(Debug, Drop)]
pub struct CheckedShape {
    pub shape: Shape,
    /// Whether each function inside returns a scalar or nothing.
    pub results_fit: bool,
}

/// What the layers make of the spec's type, and whether each function inside returns a scalar or
/// nothing. It takes time that grows with the number of layers, the parts of the spec's type and
/// those of the parameters, each up to 1,000.
///
/// # Errors
///
/// `AllocError`, where no memory is left.
pub fn checked_shape(
    alloc: Global,
    structs: &StructTable,
    base: Ty,
    layers: &[Layer],
) -> Result<CheckedShape, AllocError>
    ensures shape { IfOk result (λ made. made.shape ≡ spec.shaped structs.now base layers.now) }
    ensures results { IfOk result
        (λ made. made.results_fit ≡ spec.results_fit structs.now base layers.now) }
{
    if layers.is_empty() {
        return Ok(CheckedShape {
            shape: Shape::Whole(base),
            results_fit: true,
        });
    }
    let mut stage = Stage::of(base);
    let mut results_fit = true;
    for i in (0..layers.len()).rev() {
        results_fit = results_fit && fits_inside(&stage, &layers[i]);
        stage = layered(alloc, structs, stage, &layers[i])?;
    }
    Ok(CheckedShape {
        shape: stage.into_shape(),
        results_fit,
    })
}

/// Whether the layer may stand round this: a function returns a scalar or nothing.
fn fits_inside(inner: &Stage, layer: &Layer) -> bool
    ensures { result ≡ fits_inside layer.now (shape_of inner.now) }
{
    !matches!(layer, Layer::Function(_)) || inner.is_result()
}

/// What the layers make of the spec's type.
///
/// # Errors
///
/// `AllocError`, where no memory is left.
pub fn shaped(
    alloc: Global,
    structs: &StructTable,
    base: Ty,
    layers: &[Layer],
) -> Result<Shape, AllocError>
    ensures { IfOk result (λ made. made ≡ spec.shaped structs.now base layers.now) }
{
    Ok(checked_shape(alloc, structs, base, layers)?.shape)
}
