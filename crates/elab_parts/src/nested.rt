//! The parts of a tree are emitted by functions that are passed in, so that each row is proved by itself.

ghost use Rattle.std.specs.Prelude.{◌≡◌, ◌-◌, ◌<◌};
ghost use Rattle.elab_emit.specs.Emits.{IsSound, Outcome, code_of};
ghost use Rattle.elab_rows.specs.Values as spec;
ghost use Rattle.elab_rows.specs.Values.{part};
ghost use Rattle.elab_parts.specs.Nests.{Nests};

use crate::held::convert_value;
use c_typed::TypedExpr;
use c_types::Ty;
use elab_emit::{Emitter, Trouble};
use elab_rows::Scope;

/// What emits the parts of a tree.
#[derive(Clone, Copy)]
pub struct Parts<'s, V, A> {
    /// What names stand for.
    pub scope: &'s Scope,
    /// How deep the parts of a tree may nest.
    pub depth: u32,
    /// Emits the value of a part.
    pub values: V,
    /// Emits the address of a part.
    pub addresses: A,
}

impl<'s, V, A> Parts<'s, V, A>
where
    V: Fn(&mut Emitter, &Scope, u32, &TypedExpr) -> Result<u32, Trouble> + Copy,
    A: Fn(&mut Emitter, &Scope, u32, &TypedExpr) -> Result<u32, Trouble> + Copy,
{
    /// The value of a part.
    pub fn value(&self, out: &mut Emitter, expr: &TypedExpr) -> Result<u32, Trouble>
        requires nests { Nests self.now.depth (V.pre self.now.values) (V.post self.now.values) (A.pre self.now.addresses) (A.post self.now.addresses) }
        requires sound { IsSound out.old }
        ensures made { Outcome out.old (code_of out.old (part self.now.scope.now expr.now).value) result out.new }
        ensures sound { IsSound out.new }
    {
        if self.depth == 0 {
            return Err(Trouble::Memory);
        }
        (self.values)(out, self.scope, self.depth - 1, expr)
    }

    /// A of a part.
    pub fn address(&self, out: &mut Emitter, expr: &TypedExpr) -> Result<u32, Trouble>
        requires nests { Nests self.now.depth (V.pre self.now.values) (V.post self.now.values) (A.pre self.now.addresses) (A.post self.now.addresses) }
        requires sound { IsSound out.old }
        ensures made { Outcome out.old (code_of out.old (part self.now.scope.now expr.now).lvalue.address) result out.new }
        ensures sound { IsSound out.new }
    {
        if self.depth == 0 {
            return Err(Trouble::Memory);
        }
        (self.addresses)(out, self.scope, self.depth - 1, expr)
    }

    /// The value of a part, converted to this type.
    pub fn converted(&self, out: &mut Emitter, expr: &TypedExpr, to: &Ty) -> Result<u32, Trouble>
        requires nests { Nests self.now.depth (V.pre self.now.values) (V.post self.now.values) (A.pre self.now.addresses) (A.post self.now.addresses) }
        requires sound { IsSound out.old }
        ensures made { Outcome out.old (code_of out.old (spec.converted_part (part self.now.scope.now expr.now) to.now)) result out.new }
        ensures sound { IsSound out.new }
    {
        let a = self.value(out, expr)?;
        convert_value(out, self.scope, expr, a, to)
    }
}
