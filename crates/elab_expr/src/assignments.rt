//! Assignments, `op=`, `++` and `--`.

ghost use Rattle.std.specs.Prelude.{◌≡◌};
ghost use Rattle.c_tree.specs.Operators.{binary_operator};
ghost use Rattle.elab_rows.specs.Addresses as lvalues;
ghost use Rattle.elab_emit.specs.Emits.{IsSound, Outcome, code_of};
ghost use Rattle.elab_rows.specs.Made.{held};
ghost use Rattle.elab_rows.specs.Rows as rows;
ghost use Rattle.elab_rows.specs.Units.{scalars};
ghost use Rattle.elab_rows.specs.Values as spec;
ghost use Rattle.elab_rows.specs.Values.{operand, part};
ghost use Rattle.elab_expr.specs.inner.Updates.{UpdateOutcome};
ghost use Rattle.elab_parts.specs.Nests.{Nests};

use crate::pass::Pass;
use c_tree::{AssignOperator, BinaryOperator};
use c_typed::TypedExpr;
use elab_emit::{Emitter, Trouble, set_slot, slot};
use elab_parts::{
    convert_back, copy_lvalue, has_struct_type, load_lvalue, name, one, store_lvalue,
};
use elab_rows::{Named, Scope};

/// A value and what it becomes.
#[derive(Clone, Copy)]
pub(crate) struct Updated {
    pub(crate) old: u32,
    pub(crate) new: u32,
}

impl<'s, V, A> Pass<'s, V, A>
where
    V: Fn(&mut Emitter, &Scope, u32, &TypedExpr) -> Result<u32, Trouble> + Copy,
    A: Fn(&mut Emitter, &Scope, u32, &TypedExpr) -> Result<u32, Trouble> + Copy,
{
    /// An assignment.
    pub(crate) fn assign(
        &self,
        out: &mut Emitter,
        a: &TypedExpr,
        operator: AssignOperator,
        b: &TypedExpr,
    ) -> Result<u32, Trouble>
        requires nests { Nests self.now.parts.depth (V.pre self.now.parts.values) (V.post self.now.parts.values) (A.pre self.now.parts.addresses) (A.post self.now.parts.addresses) }
        requires sound { IsSound out.old }
        ensures made { Outcome out.old (code_of out.old (spec.assignment_by self.now.parts.scope.now (binary_operator operator) (part self.now.parts.scope.now a.now) (part self.now.parts.scope.now b.now))) result out.new }
        ensures sound { IsSound out.new }
    {
        match operator.binary_operator() {
            None => self.plain_assign(out, a, b),
            Some(operator) => self.updated_value(out, operator, a, b),
        }
    }

    /// `e1 = e2`.
    fn plain_assign(&self, out: &mut Emitter, a: &TypedExpr, b: &TypedExpr) -> Result<u32, Trouble>
        requires nests { Nests self.now.parts.depth (V.pre self.now.parts.values) (V.post self.now.parts.values) (A.pre self.now.parts.addresses) (A.post self.now.parts.addresses) }
        requires sound { IsSound out.old }
        ensures made { Outcome out.old (code_of out.old (spec.plain_assigned self.now.parts.scope.now (part self.now.parts.scope.now a.now) (part self.now.parts.scope.now b.now))) result out.new }
        ensures sound { IsSound out.new }
    {
        if has_struct_type(self.parts.scope, a) {
            return self.struct_assign(out, a, b);
        }
        self.value_assign(out, a, b)
    }

    /// The same of scalars.
    fn value_assign(&self, out: &mut Emitter, a: &TypedExpr, b: &TypedExpr) -> Result<u32, Trouble>
        requires nests { Nests self.now.parts.depth (V.pre self.now.parts.values) (V.post self.now.parts.values) (A.pre self.now.parts.addresses) (A.post self.now.parts.addresses) }
        requires sound { IsSound out.old }
        ensures made { let p = part self.now.parts.scope.now a.now in Outcome out.old (code_of out.old
            (spec.assigned_by p.name p.lvalue (spec.converted_part (part self.now.parts.scope.now b.now) p.ty))) result out.new }
        ensures sound { IsSound out.new }
    {
        let x = self.converted_for(out, b, a)?;
        self.scalar_assign(out, a, x)
    }

    /// A value, converted to the type of what it is assigned to.
    #[tactic(auto, using(elab_parts::proofs::Nodes::type_is))]
    fn converted_for(&self, out: &mut Emitter, b: &TypedExpr, a: &TypedExpr) -> Result<u32, Trouble>
        requires nests { Nests self.now.parts.depth (V.pre self.now.parts.values) (V.post self.now.parts.values) (A.pre self.now.parts.addresses) (A.post self.now.parts.addresses) }
        requires sound { IsSound out.old }
        ensures made { Outcome out.old (code_of out.old (spec.converted_part (part self.now.parts.scope.now b.now) (part self.now.parts.scope.now a.now).ty)) result out.new }
        ensures sound { IsSound out.new }
    {
        self.parts.converted(out, b, &a.ty)
    }

    /// An assignment of a register that has the value.
    fn scalar_assign(&self, out: &mut Emitter, a: &TypedExpr, x: u32) -> Result<u32, Trouble>
        requires nests { Nests self.now.parts.depth (V.pre self.now.parts.values) (V.post self.now.parts.values) (A.pre self.now.parts.addresses) (A.post self.now.parts.addresses) }
        requires sound { IsSound out.old }
        ensures made { Outcome out.old (code_of out.old (spec.assigned_by (part self.now.parts.scope.now a.now).name (part self.now.parts.scope.now a.now).lvalue (held x))) result out.new }
        ensures sound { IsSound out.new }
    {
        match name(self.parts.scope, a) {
            Named::Slot(s) => set_slot(out, s, x),
            _ => self.memory_assign(out, a, x),
        }
    }

    /// The same in memory.
    fn memory_assign(&self, out: &mut Emitter, a: &TypedExpr, x: u32) -> Result<u32, Trouble>
        requires nests { Nests self.now.parts.depth (V.pre self.now.parts.values) (V.post self.now.parts.values) (A.pre self.now.parts.addresses) (A.post self.now.parts.addresses) }
        requires sound { IsSound out.old }
        ensures made { Outcome out.old (code_of out.old (lvalues.assigned (part self.now.parts.scope.now a.now).lvalue (held x))) result out.new }
        ensures sound { IsSound out.new }
    {
        let p = self.parts.address(out, a)?;
        store_lvalue(out, self.parts.scope, a, p, x)
    }

    /// An assignment of structs.
    fn struct_assign(&self, out: &mut Emitter, a: &TypedExpr, b: &TypedExpr) -> Result<u32, Trouble>
        requires nests { Nests self.now.parts.depth (V.pre self.now.parts.values) (V.post self.now.parts.values) (A.pre self.now.parts.addresses) (A.post self.now.parts.addresses) }
        requires sound { IsSound out.old }
        ensures made { Outcome out.old (code_of out.old (lvalues.struct_assigned (scalars self.now.parts.scope.now.structs (part self.now.parts.scope.now a.now).ty) (part self.now.parts.scope.now a.now).lvalue (part self.now.parts.scope.now b.now).lvalue)) result out.new }
        ensures sound { IsSound out.new }
    {
        let p = self.parts.address(out, b)?;
        let q = self.parts.address(out, a)?;
        copy_lvalue(out, self.parts.scope, a, q, b, p)
    }

    /// `op=`, and `++`, `--` in front: the new value.
    fn updated_value(
        &self,
        out: &mut Emitter,
        operator: BinaryOperator,
        a: &TypedExpr,
        y: &TypedExpr,
    ) -> Result<u32, Trouble>
        requires nests { Nests self.now.parts.depth (V.pre self.now.parts.values) (V.post self.now.parts.values) (A.pre self.now.parts.addresses) (A.post self.now.parts.addresses) }
        requires sound { IsSound out.old }
        ensures made { Outcome out.old (code_of out.old (spec.updated_part self.now.parts.scope.now operator (part self.now.parts.scope.now a.now) (operand (part self.now.parts.scope.now y.now)))) result out.new }
        ensures sound { IsSound out.new }
    {
        let values = self.updated(out, operator, a, y)?;
        Ok(values.new)
    }

    /// `++` and `--` in front.
    pub(crate) fn prefix(
        &self,
        out: &mut Emitter,
        operator: BinaryOperator,
        a: &TypedExpr,
    ) -> Result<u32, Trouble>
        requires nests { Nests self.now.parts.depth (V.pre self.now.parts.values) (V.post self.now.parts.values) (A.pre self.now.parts.addresses) (A.post self.now.parts.addresses) }
        requires sound { IsSound out.old }
        ensures made { Outcome out.old (code_of out.old (spec.updated_part self.now.parts.scope.now operator (part self.now.parts.scope.now a.now) (operand spec.one))) result out.new }
        ensures sound { IsSound out.new }
    {
        let values = self.counted(out, operator, a)?;
        Ok(values.new)
    }

    /// `++` and `--` behind: the old value.
    pub(crate) fn postfix(
        &self,
        out: &mut Emitter,
        operator: BinaryOperator,
        a: &TypedExpr,
    ) -> Result<u32, Trouble>
        requires nests { Nests self.now.parts.depth (V.pre self.now.parts.values) (V.post self.now.parts.values) (A.pre self.now.parts.addresses) (A.post self.now.parts.addresses) }
        requires sound { IsSound out.old }
        ensures made { Outcome out.old (code_of out.old (spec.postfix_part self.now.parts.scope.now operator (part self.now.parts.scope.now a.now))) result out.new }
        ensures sound { IsSound out.new }
    {
        let values = self.counted(out, operator, a)?;
        Ok(values.old)
    }

    /// The old and the new value of what `++` or `--` changes.
    fn counted(
        &self,
        out: &mut Emitter,
        operator: BinaryOperator,
        a: &TypedExpr,
    ) -> Result<Updated, Trouble>
        requires nests { Nests self.now.parts.depth (V.pre self.now.parts.values) (V.post self.now.parts.values) (A.pre self.now.parts.addresses) (A.post self.now.parts.addresses) }
        requires sound { IsSound out.old }
        ensures made { UpdateOutcome out.old (code_of out.old (spec.updated_part self.now.parts.scope.now operator (part self.now.parts.scope.now a.now) (operand spec.one))) (code_of out.old (spec.old_value (part self.now.parts.scope.now a.now).name (part self.now.parts.scope.now a.now).lvalue)).result result out.new }
        ensures sound { IsSound out.new }
    {
        let one = one();
        self.updated(out, operator, a, &one)
    }

    /// The old and the new value of what an operator changes.
    fn updated(
        &self,
        out: &mut Emitter,
        operator: BinaryOperator,
        a: &TypedExpr,
        y: &TypedExpr,
    ) -> Result<Updated, Trouble>
        requires nests { Nests self.now.parts.depth (V.pre self.now.parts.values) (V.post self.now.parts.values) (A.pre self.now.parts.addresses) (A.post self.now.parts.addresses) }
        requires sound { IsSound out.old }
        ensures made { UpdateOutcome out.old (code_of out.old (spec.updated_part self.now.parts.scope.now operator (part self.now.parts.scope.now a.now) (operand (part self.now.parts.scope.now y.now)))) (code_of out.old (spec.old_value (part self.now.parts.scope.now a.now).name (part self.now.parts.scope.now a.now).lvalue)).result result out.new }
        ensures sound { IsSound out.new }
    {
        match name(self.parts.scope, a) {
            Named::Slot(s) => self.slot_updated(out, s, operator, a, y),
            _ => self.memory_updated(out, operator, a, y),
        }
    }

    /// The same of a slot.
    fn slot_updated(
        &self,
        out: &mut Emitter,
        s: u32,
        operator: BinaryOperator,
        a: &TypedExpr,
        y: &TypedExpr,
    ) -> Result<Updated, Trouble>
        requires nests { Nests self.now.parts.depth (V.pre self.now.parts.values) (V.post self.now.parts.values) (A.pre self.now.parts.addresses) (A.post self.now.parts.addresses) }
        requires sound { IsSound out.old }
        ensures made { UpdateOutcome out.old (code_of out.old (lvalues.slot_updated s (spec.new_value self.now.parts.scope.now operator (part self.now.parts.scope.now a.now) (operand (part self.now.parts.scope.now y.now))))) (code_of out.old (rows.slot_value s)).result result out.new }
        ensures sound { IsSound out.new }
    {
        let old = slot(out, s)?;
        let given = self.new_value(out, operator, a, old, y)?;
        let new = set_slot(out, s, given)?;
        Ok(Updated { old, new })
    }

    /// The same in memory.
    fn memory_updated(
        &self,
        out: &mut Emitter,
        operator: BinaryOperator,
        a: &TypedExpr,
        y: &TypedExpr,
    ) -> Result<Updated, Trouble>
        requires nests { Nests self.now.parts.depth (V.pre self.now.parts.values) (V.post self.now.parts.values) (A.pre self.now.parts.addresses) (A.post self.now.parts.addresses) }
        requires sound { IsSound out.old }
        ensures made { UpdateOutcome out.old (code_of out.old (lvalues.updated (part self.now.parts.scope.now a.now).lvalue (spec.new_value self.now.parts.scope.now operator (part self.now.parts.scope.now a.now) (operand (part self.now.parts.scope.now y.now))))) (code_of out.old (lvalues.loaded (part self.now.parts.scope.now a.now).lvalue)).result result out.new }
        ensures sound { IsSound out.new }
    {
        let p = self.parts.address(out, a)?;
        let old = load_lvalue(out, self.parts.scope, a, p)?;
        let given = self.new_value(out, operator, a, old, y)?;
        let new = store_lvalue(out, self.parts.scope, a, p, given)?;
        Ok(Updated { old, new })
    }

    /// The new value of what an operator changes, where a register has the old one.
    fn new_value(
        &self,
        out: &mut Emitter,
        operator: BinaryOperator,
        x: &TypedExpr,
        a: u32,
        y: &TypedExpr,
    ) -> Result<u32, Trouble>
        requires nests { Nests self.now.parts.depth (V.pre self.now.parts.values) (V.post self.now.parts.values) (A.pre self.now.parts.addresses) (A.post self.now.parts.addresses) }
        requires sound { IsSound out.old }
        ensures made { Outcome out.old (code_of out.old (spec.new_value self.now.parts.scope.now operator (part self.now.parts.scope.now x.now) (operand (part self.now.parts.scope.now y.now)) (held a))) result out.new }
        ensures sound { IsSound out.new }
    {
        let given = self.parts.operated(out, operator, x, a, y)?;
        convert_back(out, self.parts.scope, operator, x, y, given)
    }
}
