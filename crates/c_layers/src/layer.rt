//! Declarators as layers, and what they make of a type.

ghost use Rattle.std.specs.Prelude.{◌≡◌, ◌++◌, IfOk};
ghost use Rattle.std.specs.Option.{option_copied};
ghost use Rattle.c_layers.specs.Shapes as spec;

use c_types::{Name, Ty, decay, is_function, parts};
use sqlite_items::Items;
use std::alloc::{AllocError, Global};

/// The most parts that a declared type may have.
pub(crate) const MOST_PARTS: u32 = 1_000;

/// A parameter of a function declarator.
#[derive(Debug, Drop)]
pub struct Parameter {
    pub name: Option<Name>,
    /// Its type, adjusted: no array and no function.
    pub ty: Ty,
}

/// Parameters in order.
pub type Parameters = Items<Parameter>;

/// What a part of a declarator adds to the type, read from its name outwards.
#[derive(Debug, Drop)]
pub enum Layer {
    /// An array, with its bound where one is given.
    Array(Option<u32>),
    Function(Parameters),
    /// So many stars.
    Pointers(u32),
}

/// The layers of a declarator, from its name outwards.
pub type Layers = Items<Layer>;

/// What a spec and layers make.
#[derive(Debug, Drop)]
pub enum Shape {
    Whole(Ty),
    /// An array of this without a bound.
    Open(Ty),
    /// An element without units, a bound that is missing inside, or more than 1,000 parts; and
    /// whether it is a function.
    Broken(bool),
}

impl Shape {
    /// The type, where it is whole.
    pub fn whole(&self) -> Option<&Ty>
        ensures { option_copied result ≡ spec.whole_of self.now }
    {
        match self {
            Shape::Whole(ty) => Some(ty),
            _ => None,
        }
    }

    /// The same, of a shape that is given up.
    pub fn into_whole(self) -> Option<Ty>
        ensures { result ≡ spec.whole_of self }
    {
        match self {
            Shape::Whole(ty) => Some(ty),
            _ => None,
        }
    }

    /// Whether it is a function, also where it is broken.
    pub fn is_function(&self) -> bool
        ensures { result ≡ spec.is_function_shape self.now }
    {
        match self {
            Shape::Whole(ty) => is_function(ty),
            Shape::Open(_) => false,
            Shape::Broken(is_function) => *is_function,
        }
    }

    /// A parameter's shape: an array or a function becomes a pointer.
    ///
    /// # Errors
    ///
    /// `AllocError`, where no memory is left.
    pub fn adjusted(self, alloc: Global) -> Result<Shape, AllocError>
        ensures { IfOk result (λ adjusted. adjusted ≡ spec.adjusted self) }
    {
        match self {
            Shape::Whole(ty) => Ok(limited(decay(alloc, &ty)?)),
            other => Ok(other),
        }
    }
}

/// The type, or a broken shape where it has more than 1,000 parts.
#[tactic(auto, unfolding(crate::specs::Shapes::limited))]
pub fn limited(ty: Ty) -> Shape
    ensures { result ≡ spec.limited ty }
{
    if parts(&ty) > MOST_PARTS {
        return Shape::Broken(is_function(&ty));
    }
    Shape::Whole(ty)
}

/// The layers of a declarator: what stands inside, then its suffixes, then its stars.
///
/// # Errors
///
/// `AllocError`, where no memory is left.
pub fn joined(inside: Layers, suffixes: Layers, stars: u32) -> Result<Layers, AllocError>
    ensures { IfOk result (λ all. all ≡ inside ++ suffixes ++ spec.stars_of stars) }
{
    let mut all = inside;
    all.append(suffixes)?;
    if stars > 0 {
        all.push(Layer::Pointers(stars))?;
    }
    Ok(all)
}
