//! `break` and `continue`, whose jumps are written once the loop around them closes.

ghost use Rattle.std.specs.Prelude.{◌≡◌, length};
ghost use Rattle.elab_pieces.specs.Lines.{one_line};
ghost use Rattle.elab_statements.specs.Bodies.{piece_at};
ghost use Rattle.elab_statements.specs.inner.Jumps.{AreWithin, StatementOutcome, closed, jump_line};
ghost use Rattle.elab_emit.specs.Emits.{IsSound};

use crate::body::Body;
use core_ir::{Instr, InstrList};
use elab_emit::{Trouble, put};
use sqlite_items::Items;

/// A jump of `break` or `continue` that isn't written yet.
#[derive(Clone, Copy, Debug, PartialEq, Eq)]
pub(crate) struct Open {
    pub(crate) place: usize,
    /// It is a `continue`.
    pub(crate) continues: bool,
}

/// `break` or `continue`.
pub(crate) fn jump(body: &mut Body, continues: bool, jumps: &mut Items<Open>) -> Result<(), Trouble>
    requires { IsSound body.old.out }
    ensures made { StatementOutcome body.old jumps.old (piece_at body.old (one_line (jump_line continues))) result body.new jumps.new }
    ensures sound { IsSound body.new.out }
{
    let place = body.out.code.len();
    jumps.push(Open { place, continues })?;
    put(&mut body.out, Instr::Jump { l: 0 })
}

/// Writes open jumps: `break` leads to `end`, `continue` to `next`.
pub(crate) fn lead(code: &mut InstrList, jumps: &[Open], end: u32, next: u32)
    requires { AreWithin (length code.old) jumps.now }
    ensures { code.new ≡ closed code.old jumps.now end next }
{
    for jump in jumps {
        let l = if jump.continues { next } else { end };
        code.set(jump.place, Instr::Jump { l });
    }
}
