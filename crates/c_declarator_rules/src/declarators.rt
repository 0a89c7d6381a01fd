//! Declarators with what their layers say.

ghost use Rattle.std.specs.Prelude.{◌≡◌, IfOk};
ghost use Rattle.c_declarator_rules.specs.Rules as rule;

use c_layers::{Layers, joined};
use c_typed::{Declared, TypedAbstractDeclarator, TypedDeclarator, TypedDirect, TypedSuffix};
use c_types::{Name, Ty};
use sqlite_items::{Boxed, Items};
use std::alloc::{AllocError, Global};

/// A declarator, the name that it declares, and its layers from the name outwards.
#[derive(Drop)]
pub struct LayeredDeclarator {
    pub tree: TypedDeclarator,
    pub name: Name,
    pub layers: Layers,
}

impl LayeredDeclarator {
    /// The declarator with the type that it gives its name, and the name.
    pub fn into_declared(self, ty: Ty) -> (Declared, Name)
        ensures { result ≡ (rule.declared self.tree ty, self.name) }
    {
        let LayeredDeclarator {
            tree,
            name,
            layers: _,
        } = self;
        let declared = Declared {
            declarator: tree,
            ty,
        };
        (declared, name)
    }
}

/// A declarator without a name, and its layers.
pub type LayeredAbstract = (TypedAbstractDeclarator, Layers);

/// What stands inside, then the suffixes, then the stars.
///
/// # Errors
///
/// `AllocError`, where no memory is left.
pub fn layered(
    alloc: Global,
    stars: u32,
    inside: (TypedDirect, Name, Layers),
    suffixes: (Items<TypedSuffix>, Layers),
) -> Result<Boxed<LayeredDeclarator>, AllocError>
    ensures { IfOk result (λ declarator. declarator ≡ rule.layered stars inside suffixes) }
{
    let (direct, name, layers) = inside;
    let (suffixes, behind) = suffixes;
    let layers = joined(layers, behind, stars)?;
    Boxed::new(
        alloc,
        LayeredDeclarator {
            tree: TypedDeclarator {
                stars,
                direct,
                suffixes,
            },
            name,
            layers,
        },
    )
}

/// The same of a declarator without a name.
///
/// # Errors
///
/// `AllocError`, where no memory is left.
pub fn abstract_layered(
    alloc: Global,
    stars: u32,
    inside: Option<Boxed<LayeredAbstract>>,
    suffixes: (Items<TypedSuffix>, Layers),
) -> Result<Boxed<LayeredAbstract>, AllocError>
    ensures { IfOk result
        (λ declarator. declarator ≡ rule.abstract_layered stars inside suffixes) }
{
    let (suffixes, behind) = suffixes;
    let (bracketed, layers) = abstract_inside(alloc, inside)?;
    let layers = joined(layers, behind, stars)?;
    let declarator = TypedAbstractDeclarator {
        stars,
        bracketed,
        suffixes,
    };
    Boxed::new(alloc, (declarator, layers))
}

/// The tree inside, by itself in memory, and its layers.
fn abstract_inside(
    alloc: Global,
    inside: Option<Boxed<LayeredAbstract>>,
) -> Result<(Option<Boxed<TypedAbstractDeclarator>>, Layers), AllocError>
    ensures { IfOk result (λ it. it ≡ (rule.tree_inside inside, rule.layers_inside inside)) }
{
    match inside {
        None => Ok((None, Items::new(alloc))),
        Some(inside) => {
            let (inner, layers) = inside.into_inner();
            Ok((Some(Boxed::new(alloc, inner)?), layers))
        }
    }
}
