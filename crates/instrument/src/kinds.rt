//! What types are to loads, stores, conversions and addresses.

ghost use Rattle.std.specs.Prelude.{◌≡◌, List};
ghost use Rattle.c_types.specs.declared.structs.StructDef.{StructDef};
ghost use Rattle.c_types.specs.declared.ty.Ty.{Ty, out-Ty};
ghost use Rattle.sensitivity.specs.declared.class.Class.{Class};
ghost use Rattle.machine.specs.Decided as spec;
ghost use Rattle.instrument.specs.inner.Places.{AreClassesOf, keeps};

use c_types::{Ty, is_char, is_pointer};
use machine::ScalarKind;
use sensitivity::{Class, ClassTable, classes_are_unique};

/// The class of a type.
fn class_of(classes: &ClassTable, ty: &Ty) -> Class
    ensures { (defs : List StructDef) (class : Ty → Class) → AreClassesOf defs classes.now class
        → result ≡ class ty.now }
{
    classes_are_unique();
    classes.class(ty)
}

/// The class of a pointer to a type.
pub(crate) fn class_of_pointer(classes: &ClassTable, target: &Ty) -> Class
    ensures { (defs : List StructDef) (class : Ty → Class) → AreClassesOf defs classes.now class
        → result ≡ class (Ty.Pointer target.now) }
{
    classes_are_unique();
    classes.class_of_pointer(target)
}

/// The kind of a pointer of this class.
fn kind_of_class(class: Class) -> ScalarKind
    ensures { result ≡ spec.kind_of_class class }
{
    match class {
        Class::Code => ScalarKind::Code,
        Class::Regular => ScalarKind::Regular,
        Class::Sensitive | Class::Universal => ScalarKind::Protected,
    }
}

/// The kind of a type of this class.
fn kind_at(class: Class, ty: &Ty) -> ScalarKind
    ensures { result ≡ spec.kind_at class (out-Ty ty.now) }
{
    if is_pointer(ty) {
        return kind_of_class(class);
    }
    if is_char(ty) {
        ScalarKind::Char
    } else {
        ScalarKind::Int
    }
}

/// The kind of a type.
pub(crate) fn kind_of(classes: &ClassTable, ty: &Ty) -> ScalarKind
    ensures { (defs : List StructDef) (class : Ty → Class) → AreClassesOf defs classes.now class
        → result ≡ spec.kind_at (class ty.now) (out-Ty ty.now) }
{
    kind_at(class_of(classes, ty), ty)
}

/// Whether it is the class of pointers in ordinary memory.
fn is_regular(class: Class) -> bool
    ensures { result ≡ spec.is_regular class }
{
    matches!(class, Class::Regular)
}

/// Whether pointers to a variable of this type keep its bounds.
pub(crate) fn keeps_bounds(classes: &ClassTable, target: &Ty) -> bool
    ensures { (defs : List StructDef) (class : Ty → Class) → AreClassesOf defs classes.now class
        → result ≡ keeps class target.now }
{
    !is_regular(class_of_pointer(classes, target))
}
