//! Calls.

ghost use Rattle.std.specs.Prelude.{◌≡◌, map};
ghost use Rattle.elab_rows.specs.Calls as call_rows;
ghost use Rattle.elab_emit.specs.Emits.{IsSound, Outcome, code_of};
ghost use Rattle.elab_rows.specs.Values as spec;
ghost use Rattle.elab_rows.specs.Values.{part};
ghost use Rattle.elab_emit.specs.Held.{listed};
ghost use Rattle.elab_parts.specs.inner.Lists.{ArgumentsOutcome, call_end, list_of};
ghost use Rattle.elab_parts.specs.Nests.{Nests};

use crate::held::callee_type;
use crate::named::name;
use crate::nested::Parts;
use c_typed::TypedExpr;
use c_types::{FnTy, Ty, is_void};
use core_ir::Arguments;
use elab_emit::{Emitter, Trouble, finish_built_in, finish_call, finish_indirect, has_place, keep};
use elab_rows::{Named, Scope};
use sqlite_items::Items;

impl<'s, V, A> Parts<'s, V, A>
where
    V: Fn(&mut Emitter, &Scope, u32, &TypedExpr) -> Result<u32, Trouble> + Copy,
    A: Fn(&mut Emitter, &Scope, u32, &TypedExpr) -> Result<u32, Trouble> + Copy,
{
    /// A call.
    pub fn call(
        &self,
        out: &mut Emitter,
        callee: &TypedExpr,
        arguments: &[TypedExpr],
    ) -> Result<u32, Trouble>
        requires nests { Nests self.now.depth (V.pre self.now.values) (V.post self.now.values) (A.pre self.now.addresses) (A.post self.now.addresses) }
        requires sound { IsSound out.old }
        ensures made { Outcome out.old (code_of out.old (spec.call_part (part self.now.scope.now callee.now) (map (part self.now.scope.now) arguments.now))) result out.new }
        ensures sound { IsSound out.new }
    {
        let ty = callee_type(self.scope, callee)?;
        let registers = self.all_arguments(out, arguments, ty.params.as_slice())?;
        self.finish_by_name(out, callee, ty, registers)
    }

    /// What a call emits behind its arguments.
    fn finish_by_name(
        &self,
        out: &mut Emitter,
        callee: &TypedExpr,
        ty: &FnTy,
        registers: Arguments,
    ) -> Result<u32, Trouble>
        requires nests { Nests self.now.depth (V.pre self.now.values) (V.post self.now.values) (A.pre self.now.addresses) (A.post self.now.addresses) }
        requires sound { IsSound out.old }
        ensures made { Outcome out.old (call_end (part self.now.scope.now callee.now) ty.now out.old registers) result out.new }
        ensures sound { IsSound out.new }
    {
        match name(self.scope, callee) {
            Named::Function(f) => finish_call(out, f, registers, !is_void(&ty.result)),
            Named::BuiltIn(b) => finish_built_in(out, b, registers.as_slice()),
            _ => self.indirect_call(out, callee, ty, registers),
        }
    }

    /// A callee and its call.
    fn indirect_call(
        &self,
        out: &mut Emitter,
        callee: &TypedExpr,
        ty: &FnTy,
        registers: Arguments,
    ) -> Result<u32, Trouble>
        requires nests { Nests self.now.depth (V.pre self.now.values) (V.post self.now.values) (A.pre self.now.addresses) (A.post self.now.addresses) }
        requires sound { IsSound out.old }
        ensures made { Outcome out.old (call_rows.indirect_made ty.now (spec.returns ty.now) (listed out.old registers) (call_rows.placed (code_of out.old (part self.now.scope.now callee.now).value))) result out.new }
        ensures sound { IsSound out.new }
    {
        let c = self.placed(out, callee)?;
        finish_indirect(out, c, registers, ty)
    }

    /// A callee, whose register has a place.
    fn placed(&self, out: &mut Emitter, callee: &TypedExpr) -> Result<u32, Trouble>
        requires nests { Nests self.now.depth (V.pre self.now.values) (V.post self.now.values) (A.pre self.now.addresses) (A.post self.now.addresses) }
        requires sound { IsSound out.old }
        ensures made { Outcome out.old (call_rows.placed (code_of out.old (part self.now.scope.now callee.now).value)) result out.new }
        ensures sound { IsSound out.new }
    {
        let from = out.code.len();
        let c = self.value(out, callee)?;
        if has_place(&out.code.as_slice()[from..], c) {
            return Ok(c);
        }
        keep(out, c)
    }

    /// Arguments from left to right, each converted to its parameter.
    #[tactic(auto, using(crate::proofs::ArgumentLists::reaches_start))]
    fn all_arguments(
        &self,
        out: &mut Emitter,
        arguments: &[TypedExpr],
        params: &[Ty],
    ) -> Result<Arguments, Trouble>
        requires nests { Nests self.now.depth (V.pre self.now.values) (V.post self.now.values) (A.pre self.now.addresses) (A.post self.now.addresses) }
        requires sound { IsSound out.old }
        ensures made { ArgumentsOutcome out.old (list_of out.old (spec.converted_parts (map (part self.now.scope.now) arguments.now) params.now)) result out.new }
        ensures sound { IsSound out.new }
    {
        let mut registers = Items::new(out.alloc);
        let mut left = params;
        for argument in arguments {
            let Some((param, behind)) = left.split_first() else {
                return Ok(registers);
            };
            registers.push(self.converted(out, argument, param)?)?;
            left = behind;
        }
        Ok(registers)
    }
}
