//! What a declarator makes of its spec's type, layer by layer.
#![tactic(auto)]

mod layer;
mod shaping;
mod stage;

pub use layer::{Layer, Layers, Parameter, Parameters, Shape, joined, limited};
pub use shaping::{CheckedShape, checked_shape, shaped};
