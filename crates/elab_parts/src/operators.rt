//! Operators of two operands, and `?:`.

ghost use Rattle.std.specs.Prelude.{◌≡◌};
ghost use Rattle.elab_rows.specs.Choices as choices;
ghost use Rattle.elab_emit.specs.Emits.{IsSound, Outcome, code_of};
ghost use Rattle.elab_rows.specs.Made.{held};
ghost use Rattle.elab_rows.specs.Rows as rows;
ghost use Rattle.elab_rows.specs.Values as spec;
ghost use Rattle.elab_rows.specs.Values.{operand, part};
ghost use Rattle.elab_parts.specs.Nests.{Nests};

use crate::held::convert_value;
use crate::nested::Parts;
use crate::operation::operation_of;
use c_tree::BinaryOperator;
use c_typed::TypedExpr;
use c_types::Ty;
use core_ir::Instr;
use elab_emit::{
    Emitter, Trouble, end_first_arm, finish_and, finish_conditional, finish_operation, finish_or,
    open_or, put,
};
use elab_rows::{Operation, Scope};

impl<'s, V, A> Parts<'s, V, A>
where
    V: Fn(&mut Emitter, &Scope, u32, &TypedExpr) -> Result<u32, Trouble> + Copy,
    A: Fn(&mut Emitter, &Scope, u32, &TypedExpr) -> Result<u32, Trouble> + Copy,
{
    /// A binary operator.
    pub fn operator_row(
        &self,
        out: &mut Emitter,
        operator: BinaryOperator,
        a: &TypedExpr,
        b: &TypedExpr,
    ) -> Result<u32, Trouble>
        requires nests { Nests self.now.depth (V.pre self.now.values) (V.post self.now.values) (A.pre self.now.addresses) (A.post self.now.addresses) }
        requires sound { IsSound out.old }
        ensures made { Outcome out.old (code_of out.old (rows.binary_row self.now.scope.now.structs operator (operand (part self.now.scope.now a.now)) (operand (part self.now.scope.now b.now)))) result out.new }
        ensures sound { IsSound out.new }
    {
        match operator {
            BinaryOperator::LogicalAnd => self.and(out, a, b),
            BinaryOperator::LogicalOr => self.or(out, a, b),
            _ => self.binary_value(out, operator, a, b),
        }
    }

    /// A binary operator that has both values.
    fn binary_value(
        &self,
        out: &mut Emitter,
        operator: BinaryOperator,
        a: &TypedExpr,
        b: &TypedExpr,
    ) -> Result<u32, Trouble>
        requires nests { Nests self.now.depth (V.pre self.now.values) (V.post self.now.values) (A.pre self.now.addresses) (A.post self.now.addresses) }
        requires sound { IsSound out.old }
        ensures made { Outcome out.old (code_of out.old (rows.operated self.now.scope.now.structs operator (operand (part self.now.scope.now a.now)) (operand (part self.now.scope.now b.now)))) result out.new }
        ensures sound { IsSound out.new }
    {
        let x = self.value(out, a)?;
        self.operated(out, operator, a, x, b)
    }

    /// A binary operator, where a register has the first value.
    pub fn operated(
        &self,
        out: &mut Emitter,
        operator: BinaryOperator,
        x: &TypedExpr,
        a: u32,
        y: &TypedExpr,
    ) -> Result<u32, Trouble>
        requires nests { Nests self.now.depth (V.pre self.now.values) (V.post self.now.values) (A.pre self.now.addresses) (A.post self.now.addresses) }
        requires sound { IsSound out.old }
        ensures made { Outcome out.old (code_of out.old (rows.operated self.now.scope.now.structs operator (spec.old_operand (part self.now.scope.now x.now) (held a)) (operand (part self.now.scope.now y.now)))) result out.new }
        ensures sound { IsSound out.new }
    {
        let alloc = out.alloc;
        let operation = operation_of(alloc, self.scope, operator, x, y)?;
        self.operated_by(out, &operation, x, a, y)
    }

    /// The same of an operation.
    fn operated_by(
        &self,
        out: &mut Emitter,
        operation: &Operation,
        x: &TypedExpr,
        a: u32,
        y: &TypedExpr,
    ) -> Result<u32, Trouble>
        requires nests { Nests self.now.depth (V.pre self.now.values) (V.post self.now.values) (A.pre self.now.addresses) (A.post self.now.addresses) }
        requires sound { IsSound out.old }
        ensures made { Outcome out.old (code_of out.old (rows.operation_code operation.now
            (spec.old_operand (part self.now.scope.now x.now) (held a)) (operand (part self.now.scope.now y.now)))) result out.new }
        ensures sound { IsSound out.new }
    {
        let a = convert_value(out, self.scope, x, a, &operation.first)?;
        let b = self.converted(out, y, &operation.second)?;
        finish_operation(out, operation.last, a, b)
    }

    /// `a && b`.
    fn and(&self, out: &mut Emitter, a: &TypedExpr, b: &TypedExpr) -> Result<u32, Trouble>
        requires nests { Nests self.now.depth (V.pre self.now.values) (V.post self.now.values) (A.pre self.now.addresses) (A.post self.now.addresses) }
        requires sound { IsSound out.old }
        ensures made { Outcome out.old (code_of out.old (choices.and_code (part self.now.scope.now a.now).value (part self.now.scope.now b.now).value)) result out.new }
        ensures sound { IsSound out.new }
    {
        let x = self.value(out, a)?;
        let hole = out.code.len();
        put(out, Instr::Branch { a: x, l: 0 })?;
        let y = self.value(out, b)?;
        finish_and(out, hole, x, y)
    }

    /// `a || b`.
    fn or(&self, out: &mut Emitter, a: &TypedExpr, b: &TypedExpr) -> Result<u32, Trouble>
        requires nests { Nests self.now.depth (V.pre self.now.values) (V.post self.now.values) (A.pre self.now.addresses) (A.post self.now.addresses) }
        requires sound { IsSound out.old }
        ensures made { Outcome out.old (code_of out.old (choices.or_code (part self.now.scope.now a.now).value (part self.now.scope.now b.now).value)) result out.new }
        ensures sound { IsSound out.new }
    {
        let x = self.value(out, a)?;
        let hole = open_or(out, x)?;
        let y = self.value(out, b)?;
        finish_or(out, hole, y)
    }

    /// `c ? a : b`.
    pub fn conditional(
        &self,
        out: &mut Emitter,
        c: &TypedExpr,
        a: &TypedExpr,
        b: &TypedExpr,
        ty: &Ty,
    ) -> Result<u32, Trouble>
        requires nests { Nests self.now.depth (V.pre self.now.values) (V.post self.now.values) (A.pre self.now.addresses) (A.post self.now.addresses) }
        requires sound { IsSound out.old }
        ensures made { Outcome out.old (code_of out.old (choices.conditional_code (part self.now.scope.now c.now).value (spec.converted_part (part self.now.scope.now a.now) ty.now) (spec.converted_part (part self.now.scope.now b.now) ty.now))) result out.new }
        ensures sound { IsSound out.new }
    {
        let c = self.value(out, c)?;
        let branch = out.code.len();
        put(out, Instr::Branch { a: c, l: 0 })?;
        let x = self.converted(out, a, ty)?;
        let chosen = out.code.len();
        let s = end_first_arm(out, x)?;
        let y = self.converted(out, b, ty)?;
        finish_conditional(out, branch, chosen + 1, c, s, y)
    }
}
