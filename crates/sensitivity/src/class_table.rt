//! The class of each type.

ghost use Rattle.std.specs.Prelude.{◌≡◌, false, List, IfOk, IsTrue};
ghost use Rattle.c_types.specs.declared.structs.StructDef.{StructDef};
ghost use Rattle.sensitivity.specs.Classes as spec;
ghost use Rattle.sensitivity.specs.Classes.{AreClasses, HasClass};
ghost use Rattle.sensitivity.specs.Holds.{Holds};

use crate::class::Class;
use crate::holding::{Holding, class_at, holding_of, is_code, is_open};
use crate::search::Search;
use c_types::{StructTable, Ty};
use sqlite_items::Items;
use std::alloc::{AllocError, Global};
use std::marker::Model;

/// The class of a pointer to each struct of a table, by the structs' numbers. It tells the class of
/// each type.
#[derive(Debug, Drop)]
pub struct ClassTable {
    of_structs: Items<Class>,
}

impl Model for ClassTable {
    ghost use Rattle.std.specs.Prelude.{List};
    ghost use Rattle.std.specs.Coded.{coded_list};
    ghost use Rattle.sensitivity.specs.declared.class.Class.{Class};
    ghost use Rattle.sensitivity.specs.contracts.class.Class as class_row;

    ghost Value = { List Class };

    ghost coded = { coded_list class_row.the_row.coded };

    ghost view = { λ t. t.of_structs };
}

impl ClassTable {
    /// The class of a pointer to a struct.
    pub fn class_of_struct(&self, s: u32) -> Class
        ensures { result ≡ spec.class_at self.now s }
    {
        class_at(self.of_structs.as_slice(), s)
    }

    /// Whether a type holds code pointers.
    fn holds(&self, ty: &Ty) -> bool
        ensures yes { IsTrue result → (defs : List StructDef) → AreClasses defs self.now
            → Holds defs ty.now }
        ensures no { result ≡ false → (defs : List StructDef) → AreClasses defs self.now
            → Holds defs ty.now → ⊥ }
    {
        match holding_of(self.of_structs.as_slice(), ty) {
            Holding::Always => true,
            Holding::Never => false,
            Holding::AsStruct(s) => matches!(self.class_of_struct(s), Class::Sensitive),
        }
    }

    /// The class of a pointer to a type. It takes time that grows with the parts of the type.
    pub fn class_of_pointer(&self, target: &Ty) -> Class
        ensures { (defs : List StructDef) → AreClasses defs self.now
            → HasClass defs (Ty.Pointer target.now) result }
    {
        if is_code(target) {
            return Class::Code;
        }
        if is_open(self.of_structs.as_slice(), target) {
            return Class::Universal;
        }
        if self.holds(target) {
            Class::Sensitive
        } else {
            Class::Regular
        }
    }

    /// The class of a type. It takes time that grows with the parts of the type.
    pub fn class(&self, ty: &Ty) -> Class
        ensures { (defs : List StructDef) → AreClasses defs self.now → HasClass defs ty.now result }
    {
        match ty {
            Ty::Pointer(target) => self.class_of_pointer(target.get()),
            _ => Class::Regular,
        }
    }
}

/// The classes of the types over a table of structs. It takes time that grows with the parts of the
/// members' types.
///
/// # Errors
///
/// `AllocError`, where no memory is left.
pub fn classes(alloc: Global, structs: &StructTable) -> Result<ClassTable, AllocError>
    ensures { IfOk result (λ table. AreClasses structs.now table) }
{
    let mut search = Search::read(alloc, structs)?;
    search.spread(structs)?;
    let Search { marks, .. } = search;
    Ok(ClassTable {
        of_structs: marks.of_structs,
    })
}
