//! The places of a body.

ghost use Rattle.std.specs.Prelude.{◌≡◌, IfOk, length, map};
ghost use Rattle.core_ir.specs.Instructions.{outline_of};
ghost use Rattle.core_ir.specs.Valid.{IsValidFunction};
ghost use Rattle.icode.specs.Sites.{AreLocals};
ghost use Rattle.instrument.specs.inner.Places.{AreMade};

use crate::decide::decide;
use core_ir::{Function, Program};
use icode::Sites;
use machine::{CodeLocal, CodePlaceList};
use sensitivity::ClassTable;
use sqlite_items::Items;
use std::alloc::{AllocError, Global};

/// The code of a body, place for place. It goes over the body once.
pub(crate) fn places(
    alloc: Global,
    classes: &ClassTable,
    program: &Program,
    function: &Function,
    locals: &[CodeLocal],
) -> Result<CodePlaceList, AllocError>
    requires valid { IsValidFunction program.now function.now }
    requires locals { AreLocals (map outline_of function.now.body) locals.now }
    ensures { let f = function.now in
        IfOk result (AreMade program.now f classes.now locals.now (length f.body)) }
{
    let body = function.body.as_slice();
    let mut sites = Sites::new(locals);
    let mut places = Items::new(alloc);
    for (place, instr) in body.iter().enumerate() {
        let site = sites.at(body, locals, place, instr);
        places.push(decide(alloc, classes, program, function, instr, site)?)?;
        sites.pass(body, locals, place, instr);
    }
    Ok(places)
}
