//! What the places of code say.

use crate::programs::code;
use icode::valid_code;
use machine::{CodePlace, Origin, ScalarKind};
use sensitivity::Class;
use std::test::Fail;

/// What a place says beside its registers.
#[derive(Clone, Copy, Debug, PartialEq, Eq)]
enum Said {
    Nothing,
    Global(u32, u32, bool),
    Local(u32, u32, bool),
    Touch(Class, bool),
    Access(ScalarKind, Option<u32>),
    Read(Origin),
}

/// What a place says.
fn told_by(place: &CodePlace) -> Said {
    match place {
        CodePlace::AddrG {
            address,
            units,
            kept,
            ..
        } => Said::Global(*address, *units, *kept),
        CodePlace::AddrL {
            offset,
            units,
            kept,
            ..
        } => Said::Local(*offset, *units, *kept),
        CodePlace::Touch { class, marked, .. } => Said::Touch(*class, *marked),
        CodePlace::Load { kind, unit, .. } | CodePlace::Store { kind, unit, .. } => {
            Said::Access(*kind, *unit)
        }
        CodePlace::CallInd { origin, .. } => Said::Read(*origin),
        _ => Said::Nothing,
    }
}

/// What the places of `main` say. Each access of `h` and of a member of `t` is tested, also of one
/// that is an `int`; `b` has the safe units 0 and 1, and `c` has 2.
const SAID: [Said; 23] = [
    Said::Nothing,
    Said::Nothing,
    Said::Global(128, 1, true),
    Said::Touch(Class::Sensitive, false),
    Said::Access(ScalarKind::Code, None),
    Said::Global(128, 1, true),
    Said::Touch(Class::Sensitive, false),
    Said::Access(ScalarKind::Code, None),
    Said::Read(Origin::Register(0)),
    Said::Global(129, 2, true),
    Said::Nothing,
    Said::Touch(Class::Sensitive, false),
    Said::Access(ScalarKind::Int, None),
    Said::Local(2, 1, false),
    Said::Touch(Class::Regular, true),
    Said::Access(ScalarKind::Int, Some(2)),
    Said::Local(0, 2, false),
    Said::Nothing,
    Said::Nothing,
    Said::Touch(Class::Regular, true),
    Said::Access(ScalarKind::Int, Some(1)),
    Said::Nothing,
    Said::Nothing,
];

#[test]
fn places_say_what_their_types_decide(rt: HostRuntime) -> Result<(), Fail> {
    let code = code(rt.alloc())?;
    let Some(main) = code.functions.get(1) else {
        return Err(Fail::from("there is no main"));
    };
    assert_eq!(rt; main.body.len(), SAID.len());
    for (place, expected) in main.body.as_slice().iter().zip(SAID.iter()) {
        assert_eq!(rt; told_by(place), *expected);
    }
    assert_eq!(rt; main.safe_units, 3);
    assert!(rt; valid_code(&code));
    Ok(())
}
