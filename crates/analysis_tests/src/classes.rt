//! The classes of types.

use crate::support::{chain, four_structs, ty};
use c_types::StructTable;
use sensitivity::{Class, classes};
use std::alloc::Global;
use std::test::Fail;

/// Texts of types with their classes.
const CLASSES: [(&str, Class); 22] = [
    ("i", Class::Regular),
    ("fi", Class::Regular),
    ("2*fi", Class::Regular),
    ("A", Class::Regular),
    ("*i", Class::Regular),
    ("**i", Class::Regular),
    ("*2*i", Class::Regular),
    ("*A", Class::Regular),
    ("*2A", Class::Regular),
    ("*fi", Class::Code),
    ("**fi", Class::Sensitive),
    ("*2*fi", Class::Sensitive),
    ("*B", Class::Sensitive),
    ("*2B", Class::Sensitive),
    ("*D", Class::Sensitive),
    ("**c", Class::Sensitive),
    ("**C", Class::Sensitive),
    ("*c", Class::Universal),
    ("*2c", Class::Universal),
    ("*v", Class::Universal),
    ("*C", Class::Universal),
    ("*23C", Class::Universal),
];

#[test]
fn types_have_their_classes(rt: HostRuntime) -> Result<(), Fail> {
    let table = classes(rt.alloc(), &four_structs(rt.alloc())?)?;
    for (text, class) in &CLASSES {
        assert_eq!(rt; table.class(&ty(rt.alloc(), text)?), *class);
    }
    Ok(())
}

/// Whether a pointer to each struct has this class.
fn have_all(alloc: Global, structs: &StructTable, class: Class) -> Result<bool, Fail> {
    let table = classes(alloc, structs)?;
    for s in 0..structs.len() {
        if table.class_of_struct(s) != class {
            return Ok(false);
        }
    }
    Ok(true)
}

#[test]
fn what_a_thousand_structs_reach_counts(rt: HostRuntime) -> Result<(), Fail> {
    for forward in [true, false] {
        let code = chain(rt.alloc(), 1_000, forward, "*fi")?;
        assert!(rt; have_all(rt.alloc(), &code, Class::Sensitive)?);
        let data = chain(rt.alloc(), 1_000, forward, "*i")?;
        assert!(rt; have_all(rt.alloc(), &data, Class::Regular)?);
    }
    Ok(())
}
