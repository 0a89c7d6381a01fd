//! Tags of structs, and what a struct's body changes.

ghost use Rattle.std.specs.Prelude.{◌≡◌};
ghost use Rattle.c_scope.specs.Declarations as spec;
ghost use Rattle.c_scope.specs.Scopes.{tag as number_of_tag};
ghost use Rattle.c_scope.specs.Walks.{Walks};

use crate::failure::{Failure, test};
use crate::rule::Rule;
use crate::world::World;
use c_types::{MemberList, Name, copy_name};
use std::alloc::Global;

/// The most tags of a source.
const MOST_TAGS: u32 = 1_024;

/// The number of a tag, which may be new.
///
/// # Errors
///
/// `Broken`, of `Tag`, exactly where it is the 1,025th. `Memory`, where no memory is left.
#[tactic(auto, unfolding(crate::specs::Scopes::tag))]
pub fn tag(alloc: Global, world: &mut World, name: &Name) -> Result<u32, Failure>
    ensures { Walks (number_of_tag name.now world.old) result world.new }
{
    if let Some(number) = world.structs.find(name.bytes()) {
        return Ok(number);
    }
    test(Rule::Tag, world.structs.len() < MOST_TAGS)?;
    Ok(world.structs.declare(copy_name(alloc, name)?)?)
}

impl World {
    /// Whether the struct has no body so far.
    #[tactic(auto, unfolding(crate::specs::Declarations::is_undefined))]
    pub fn is_undefined(&self, s: u32) -> bool
        ensures { result ≡ spec.is_undefined self.now.structs s }
    {
        match self.structs.get(s) {
            Some(def) => def.members.is_none(),
            None => false,
        }
    }
}

/// The struct gets its body.
///
/// # Errors
///
/// `Broken`, of `Tag`, where it has one or a member's type isn't of the table's, which the rules of
/// members have made sure of. `Memory`, where no memory is left.
#[tactic(auto, unfolding(crate::specs::Declarations::define, crate::specs::Declarations::is_undefined))]
pub fn define(world: &mut World, s: u32, members: MemberList) -> Result<(), Failure>
    ensures { Walks (spec.define s members world.old) result world.new }
{
    test(Rule::Tag, world.structs.can_define(s, &members))?;
    world.structs.define(s, members)?;
    Ok(())
}
