//! Code that isn't valid.

use crate::programs::code;
use c_types::{FnTy, Ty};
use icode::valid_code;
use machine::{Code, CodeFunction, CodeLocal, CodePlace, Origin, ScalarKind};
use sensitivity::Class;
use sqlite_items::Items;
use std::alloc::Global;
use std::test::Fail;

/// What is wrong.
#[derive(Clone, Copy, Debug, PartialEq, Eq)]
enum Wrong {
    Nothing,
    /// The touch of `h` is regular.
    Untested,
    /// It is marked as one of a safe local.
    Marked,
    /// The touch of `b[1]` isn't.
    Unmarked,
    /// The store of `b[1]` goes to another unit.
    OtherUnit,
    /// It goes to memory.
    NoUnit,
    /// `h` is said to be read from a slot.
    OtherOrigin,
    /// The bounds of `h` lie behind the globals.
    BehindGlobals,
    /// `b` is said to have the bounds of the frame.
    WideLocal,
    /// `b` isn't marked as safe.
    UnsafeLocal,
    /// There are fewer safe units.
    FewSafeUnits,
    /// The frame is larger than its locals.
    LargeFrame,
    /// A function is called that isn't there.
    NoFunction,
}

/// With whether the code is valid.
const CODES: [(Wrong, bool); 13] = [
    (Wrong::Nothing, true),
    (Wrong::Untested, false),
    (Wrong::Marked, false),
    (Wrong::Unmarked, false),
    (Wrong::OtherUnit, false),
    (Wrong::NoUnit, false),
    (Wrong::OtherOrigin, false),
    (Wrong::BehindGlobals, false),
    (Wrong::WideLocal, false),
    (Wrong::UnsafeLocal, false),
    (Wrong::FewSafeUnits, false),
    (Wrong::LargeFrame, false),
    (Wrong::NoFunction, false),
];

/// The store of `b[1]` with this unit.
fn store(unit: Option<u32>) -> CodePlace {
    CodePlace::Store {
        p: 1,
        a: 2,
        kind: ScalarKind::Int,
        unit,
    }
}

/// A touch of register 1.
fn touch(class: Class, marked: bool) -> CodePlace {
    CodePlace::Touch {
        p: 1,
        class,
        marked,
    }
}

/// The place that is wrong, and what stands there.
fn wrong_place(alloc: Global, wrong: Wrong) -> Option<(usize, CodePlace)> {
    match wrong {
        Wrong::Untested => Some((3, touch(Class::Regular, false))),
        Wrong::Marked => Some((3, touch(Class::Sensitive, true))),
        Wrong::Unmarked => Some((19, touch(Class::Regular, false))),
        Wrong::OtherUnit => Some((20, store(Some(2)))),
        Wrong::NoUnit => Some((20, store(None))),
        Wrong::BehindGlobals => Some((
            2,
            CodePlace::AddrG {
                d: 1,
                g: 0,
                address: 65_664,
                units: 1,
                kept: true,
            },
        )),
        Wrong::WideLocal => Some((
            16,
            CodePlace::AddrL {
                d: 0,
                v: 0,
                offset: 0,
                units: 3,
                kept: false,
            },
        )),
        Wrong::NoFunction => Some((1, CodePlace::AddrF { d: 0, f: 2 })),
        _ => other_origin(alloc, wrong),
    }
}

/// The call of `h` with another place where it is read.
fn other_origin(alloc: Global, wrong: Wrong) -> Option<(usize, CodePlace)> {
    if wrong != Wrong::OtherOrigin {
        return None;
    }
    let call = CodePlace::CallInd {
        c: 1,
        args: Items::new(alloc),
        ty: FnTy {
            result: Ty::Void,
            params: Items::new(alloc),
        },
        s: None,
        origin: Origin::Slot(0),
    };
    Some((8, call))
}

/// Makes a function wrong.
fn break_function(alloc: Global, main: &mut CodeFunction, wrong: Wrong) {
    if wrong == Wrong::UnsafeLocal && !main.locals.is_empty() {
        main.locals.set(
            0,
            CodeLocal {
                offset: 0,
                units: 2,
                safe: false,
            },
        );
    }
    if wrong == Wrong::FewSafeUnits {
        main.safe_units = 2;
    }
    if wrong == Wrong::LargeFrame {
        main.frame_units = 4;
    }
    if let Some((at, place)) = wrong_place(alloc, wrong)
        && at < main.body.len()
    {
        main.body.set(at, place);
    }
}

/// The code of the program, with what is wrong.
fn wrong_code(alloc: Global, wrong: Wrong) -> Result<Code, Fail> {
    let mut code = code(alloc)?;
    let Some(mut main) = code.functions.pop() else {
        return Err(Fail::from("there is no main"));
    };
    break_function(alloc, &mut main, wrong);
    code.functions.push(main)?;
    Ok(code)
}

#[test]
fn wrong_code_is_refused(rt: HostRuntime) -> Result<(), Fail> {
    for (wrong, is_valid) in &CODES {
        let code = wrong_code(rt.alloc(), *wrong)?;
        assert_eq!(rt; valid_code(&code), *is_valid);
    }
    Ok(())
}
