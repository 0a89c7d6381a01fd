//! What stands in the parentheses of a declarator.

ghost use Rattle.std.specs.Prelude.{◌≡◌, ℕ, ◌+◌, ◌≤◌, ◌<◌, ◌^◌, if◌then◌else◌, nat_le, IfOk};
ghost use Rattle.c_tree.specs.Marks.{Kinds};
ghost use Rattle.c_readers.specs.inner.Parser.{mismatch, pure};
ghost use Rattle.c_readers.specs.inner.Reads.{Reads};
ghost use Rattle.c_readers.specs.inner.Readers as reader;

use crate::boxes::boxed;
use crate::error::Failure;
use c_tree::{Declarator, Direct, Suffix};
use c_types::Name;
use sqlite_items::{Boxed, Items};
use std::alloc::Global;

/// What stands inside the parentheses of a declarator: a name, or a declarator with stars or suffixes.
#[derive(Drop)]
pub enum Core {
    Name(Name),
    Form(Boxed<Declarator>),
}

/// A core in parentheses.
#[derive(Drop)]
pub struct Bracketed {
    pub core: Core,
    /// How many pairs stand directly round it.
    pub pairs: usize,
    /// How deep its nodes are.
    pub height: usize,
}

/// The tree of a core that stars or suffixes stand round.
fn direct_of(core: Core) -> Direct
    ensures { result ≡ reader.direct_of core }
{
    match core {
        Core::Name(name) => Direct::Name(name),
        Core::Form(form) => Direct::Bracketed(form),
    }
}

/// The tree of a core with nothing round it, and how deep its nodes are.
pub fn whole_of(
    alloc: Global,
    core: Core,
    height: usize,
) -> Result<(Boxed<Declarator>, usize), Failure>
    ensures reads { (ts : Kinds) → Reads (pure (reader.whole_of core height) ts) result ts }
    ensures height { (limit : ℕ) → 1 ≤ limit → height ≤ limit → IfOk result (λ d. d.1 ≤ limit) }
{
    match core {
        Core::Name(name) => {
            let plain = Declarator {
                stars: 0,
                direct: Direct::Name(name),
                suffixes: Items::new(alloc),
            };
            boxed(alloc, plain, 1)
        }
        Core::Form(form) => Ok((form, height)),
    }
}

/// A declarator of these stars and suffixes, where what stands inside is at most so deep.
pub fn formed(
    alloc: Global,
    limit: usize,
    stars: u32,
    inside: Bracketed,
    suffixes: (Items<Suffix>, usize),
) -> Result<Bracketed, Failure>
    requires low { limit < 2 ^ 32 }
    requires suffixes_low { suffixes.1 ≤ limit }
    ensures reads { (ts : Kinds) → Reads ((if nat_le inside.height limit then pure (reader.formed stars inside suffixes) else mismatch) ts) result ts }
    ensures height { IfOk result (λ b. b.height ≤ 1 + limit) }
{
    if inside.height > limit {
        return Err(Failure::Mismatch);
    }
    let form = Declarator {
        stars,
        direct: direct_of(inside.core),
        suffixes: suffixes.0,
    };
    Ok(Bracketed {
        core: Core::Form(Boxed::new(alloc, form)?),
        pairs: 0,
        height: 1 + inside.height.max(suffixes.1),
    })
}
