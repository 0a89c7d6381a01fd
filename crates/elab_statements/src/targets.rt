//! The variable whose parts an initialiser gives, and what stores one of them.

ghost use Rattle.std.specs.Prelude.{◌≡◌, pos};
ghost use Rattle.c_types.specs.declared.ty.Ty.TheVariants as ty;
ghost use Rattle.elab_statements.specs.inner.Leaves.{lvalue_of, place_code};
ghost use Rattle.elab_rows.specs.Addresses.{assigned};
ghost use Rattle.elab_emit.specs.Emits.{IsSound, Outcome, code_of};
ghost use Rattle.elab_rows.specs.Made.{converted, held};
ghost use Rattle.elab_rows.specs.Rows as rows;

use c_types::{Ty, copy_type};
use elab_emit::{Emitter, Trouble, convert, frame_local, global, member_at, number, store};

/// What a variable's address is taken of.
#[derive(Clone, Copy, Debug, PartialEq, Eq)]
pub enum Base {
    /// This global variable or string.
    Global(u32),
    /// This local of the frame.
    Local(u32),
}

/// The variable whose parts an initialiser gives.
#[derive(Drop)]
pub struct Target {
    pub base: Base,
    pub ty: Ty,
    /// Parts that nothing gives are stored too.
    pub all: bool,
}

/// The address of a variable.
fn base_address(out: &mut Emitter, base: Base) -> Result<u32, Trouble>
    requires { IsSound out.old }
    ensures made { Outcome out.old (code_of out.old (place_code base None)) result out.new }
    ensures sound { IsSound out.new }
{
    match base {
        Base::Global(g) => global(out, g),
        Base::Local(v) => frame_local(out, v),
    }
}

/// The address of a part at this offset; without one that of the variable.
pub(crate) fn part_address(
    out: &mut Emitter,
    base: Base,
    offset: Option<u32>,
) -> Result<u32, Trouble>
    requires { IsSound out.old }
    ensures made { Outcome out.old (code_of out.old (place_code base offset)) result out.new }
    ensures sound { IsSound out.new }
{
    let p = base_address(out, base)?;
    let Some(k) = offset else {
        return Ok(p);
    };
    member_at(out, p, k)
}

/// A register's value becomes that of a part.
pub(crate) fn store_part(
    out: &mut Emitter,
    target: &Target,
    ty: &Ty,
    offset: Option<u32>,
    a: u32,
) -> Result<u32, Trouble>
    requires { IsSound out.old }
    ensures made { Outcome out.old (code_of out.old (assigned (lvalue_of target.now offset ty.now) (held a))) result out.new }
    ensures sound { IsSound out.new }
{
    let root = copy_type(&target.ty)?;
    let p = part_address(out, target.base, offset)?;
    store(out, root, ty, p, a)
}

/// The number 0, converted to this scalar.
pub(crate) fn zero(out: &mut Emitter, to: &Ty) -> Result<u32, Trouble>
    requires { IsSound out.old }
    ensures made { Outcome out.old (code_of out.old (converted ty.Int to.now (rows.number (pos 0)))) result out.new }
    ensures sound { IsSound out.new }
{
    let a = number(out, 0)?;
    convert(out, a, &Ty::Int, to)
}
