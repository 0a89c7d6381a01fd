//! Structs that are known to hold code pointers.

ghost use Rattle.std.specs.Prelude.{◌≡◌, List, All, IfOk, OnOk, map};
ghost use Rattle.c_types.specs.declared.structs.StructDef.{StructDef};
ghost use Rattle.sensitivity.specs.inner.Marks.{AreMarked, CanMark, Extends, IsMarked, first_class, is_regular_class};

use crate::class::Class;
use crate::holding::class_at;
use c_types::StructDef;
use sqlite_items::Items;
use std::alloc::{AllocError, Global};

/// The class of a pointer to each struct, `Regular` until the struct is known to hold code
/// pointers, and the structs of which it is known, in the order in which they were found.
#[derive(Drop)]
pub(crate) struct Marks {
    pub(crate) of_structs: Items<Class>,
    pub(crate) found: Items<u32>,
}

/// The class of a pointer to a struct of which no more is known than whether it has a body.
fn first_class_of(def: &StructDef) -> Class
    ensures { result ≡ first_class def.now }
{
    match &def.members {
        Some(_) => Class::Regular,
        None => Class::Universal,
    }
}

/// Whether it is the class of a pointer to a struct with a body that isn't known to hold code
/// pointers.
fn is_regular(class: Class) -> bool
    ensures { result ≡ is_regular_class class }
{
    matches!(class, Class::Regular)
}

/// The class of a pointer to each struct, while no more is known.
fn first_classes(alloc: Global, defs: &[StructDef]) -> Result<Items<Class>, AllocError>
    ensures { IfOk result (λ classes. classes ≡ map first_class defs.now) }
{
    let mut of_structs = Items::new(alloc);
    for def in defs {
        of_structs.push(first_class_of(def))?;
    }
    Ok(of_structs)
}

impl Marks {
    /// No struct is known to hold code pointers.
    pub(crate) fn new(alloc: Global, defs: &[StructDef]) -> Result<Marks, AllocError>
        ensures { IfOk result (λ marks. AreMarked defs.now marks) }
    {
        let of_structs = first_classes(alloc, defs)?;
        let found = Items::new(alloc);
        Ok(Marks { of_structs, found })
    }

    /// Marks a struct that has a body and holds code pointers.
    pub(crate) fn mark(&mut self, s: u32) -> Result<(), AllocError>
        ensures marked { OnOk result ((defs : List StructDef) → AreMarked defs self.old
            → CanMark defs s
            → AreMarked defs self.new × IsMarked self.new s) }
        ensures extends { OnOk result (Extends self.old self.new) }
    {
        if !is_regular(class_at(self.of_structs.as_slice(), s)) {
            return Ok(());
        }
        self.found.push(s)?;
        self.of_structs.set(s as usize, Class::Sensitive);
        Ok(())
    }

    /// Marks structs that have bodies and hold code pointers.
    pub(crate) fn mark_all(&mut self, structs: &[u32]) -> Result<(), AllocError>
        ensures marked { OnOk result ((defs : List StructDef) → AreMarked defs self.old
            → All (CanMark defs) structs.now
            → AreMarked defs self.new × All (IsMarked self.new) structs.now) }
        ensures extends { OnOk result (Extends self.old self.new) }
    {
        for s in structs {
            self.mark(*s)?;
        }
        Ok(())
    }
}
