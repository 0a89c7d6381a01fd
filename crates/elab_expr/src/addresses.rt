//! Addresses, and the values of operators in front of an operand.

ghost use Rattle.std.specs.Prelude.{◌≡◌};
ghost use Rattle.c_typed.specs.declared.expression.TypedExpr.{out-TypedExpr};
ghost use Rattle.c_types.specs.declared.ty.Ty.TheVariants.{Int};
ghost use Rattle.elab_rows.specs.Addresses as lvalues;
ghost use Rattle.elab_emit.specs.Emits.{IsSound, Outcome, code_of};
ghost use Rattle.elab_rows.specs.Rows as rows;
ghost use Rattle.elab_rows.specs.Units.{units as unit_count};
ghost use Rattle.elab_rows.specs.Values as spec;
ghost use Rattle.elab_rows.specs.Values.{part};
ghost use Rattle.elab_parts.specs.Nests.{Nests};
ghost use Rattle.elab_parts.specs.inner.Nodes.{node};

use crate::pass::Pass;
use c_tree::UnaryOperator;
use c_typed::{TypedExpr, TypedForm};
use c_types::{Ty, is_function};
use core_ir::Operator;
use elab_emit::{Emitter, Trouble, add_units, member_at, name_address, unary, units, whole_value};
use elab_parts::{arrow_offset, dot_offset, entity_name, has_function_type, pointer_to};
use elab_rows::Scope;

impl<'s, V, A> Pass<'s, V, A>
where
    V: Fn(&mut Emitter, &Scope, u32, &TypedExpr) -> Result<u32, Trouble> + Copy,
    A: Fn(&mut Emitter, &Scope, u32, &TypedExpr) -> Result<u32, Trouble> + Copy,
{
    /// A of an lvalue in memory.
    pub(crate) fn node_address(&self, out: &mut Emitter, expr: &TypedExpr) -> Result<u32, Trouble>
        requires nests { Nests self.now.parts.depth (V.pre self.now.parts.values) (V.post self.now.parts.values) (A.pre self.now.parts.addresses) (A.post self.now.parts.addresses) }
        requires sound { IsSound out.old }
        ensures made { Outcome out.old (code_of out.old ((part self.now.parts.scope.now expr.now).lvalue.address)) result out.new }
        ensures sound { IsSound out.new }
    {
        self.form_address(out, expr)
    }

    /// The same of a form.
    fn form_address(&self, out: &mut Emitter, expr: &TypedExpr) -> Result<u32, Trouble>
        requires nests { Nests self.now.parts.depth (V.pre self.now.parts.values) (V.post self.now.parts.values) (A.pre self.now.parts.addresses) (A.post self.now.parts.addresses) }
        requires sound { IsSound out.old }
        ensures made { Outcome out.old (code_of out.old (spec.form_lvalue self.now.parts.scope.now (node self.now.parts.scope.now expr.now) (out-TypedExpr expr.now).ty).address) result out.new }
        ensures sound { IsSound out.new }
    {
        match &expr.form {
            TypedForm::Unary(operator, a) => self.pointed_address(out, *operator, a.get()),
            TypedForm::Index(a, i) => self.element_address(out, a.get(), i.get(), &expr.ty),
            TypedForm::Member(a, _, n) => self.dot_address(out, a.get(), *n),
            TypedForm::Arrow(a, _, n) => self.arrow_address(out, a.get(), *n),
            TypedForm::Identifier(name, entity) => {
                name_address(out, entity_name(self.parts.scope, name, *entity))
            }
            _ => Ok(0),
        }
    }

    /// A of `*e`.
    fn pointed_address(
        &self,
        out: &mut Emitter,
        operator: UnaryOperator,
        a: &TypedExpr,
    ) -> Result<u32, Trouble>
        requires nests { Nests self.now.parts.depth (V.pre self.now.parts.values) (V.post self.now.parts.values) (A.pre self.now.parts.addresses) (A.post self.now.parts.addresses) }
        requires sound { IsSound out.old }
        ensures made { Outcome out.old (code_of out.old (spec.unary_lvalue operator (part self.now.parts.scope.now a.now) Int).address) result out.new }
        ensures sound { IsSound out.new }
    {
        match operator {
            UnaryOperator::Dereference => self.parts.value(out, a),
            _ => Ok(0),
        }
    }

    /// A of `e[i]`.
    fn element_address(
        &self,
        out: &mut Emitter,
        a: &TypedExpr,
        i: &TypedExpr,
        ty: &Ty,
    ) -> Result<u32, Trouble>
        requires nests { Nests self.now.parts.depth (V.pre self.now.parts.values) (V.post self.now.parts.values) (A.pre self.now.parts.addresses) (A.post self.now.parts.addresses) }
        requires sound { IsSound out.old }
        ensures made { Outcome out.old (code_of out.old (lvalues.element_address (unit_count self.now.parts.scope.now.structs ty.now) (part self.now.parts.scope.now a.now).value (spec.converted_part (part self.now.parts.scope.now i.now) Int))) result out.new }
        ensures sound { IsSound out.new }
    {
        let s = units(self.parts.scope, ty)?;
        let p = self.parts.value(out, a)?;
        let i = self.parts.converted(out, i, &Ty::Int)?;
        add_units(out, p, i, s)
    }

    /// A of `e.f`.
    fn dot_address(&self, out: &mut Emitter, a: &TypedExpr, n: u32) -> Result<u32, Trouble>
        requires nests { Nests self.now.parts.depth (V.pre self.now.parts.values) (V.post self.now.parts.values) (A.pre self.now.parts.addresses) (A.post self.now.parts.addresses) }
        requires sound { IsSound out.old }
        ensures made { Outcome out.old (code_of out.old (lvalues.member_address (spec.member_offset self.now.parts.scope.now (part self.now.parts.scope.now a.now).ty n) (part self.now.parts.scope.now a.now).lvalue.address)) result out.new }
        ensures sound { IsSound out.new }
    {
        let k = dot_offset(self.parts.scope, a, n)?;
        let p = self.parts.address(out, a)?;
        member_at(out, p, k)
    }

    /// A of `e->f`.
    fn arrow_address(&self, out: &mut Emitter, a: &TypedExpr, n: u32) -> Result<u32, Trouble>
        requires nests { Nests self.now.parts.depth (V.pre self.now.parts.values) (V.post self.now.parts.values) (A.pre self.now.parts.addresses) (A.post self.now.parts.addresses) }
        requires sound { IsSound out.old }
        ensures made { Outcome out.old (code_of out.old (lvalues.member_address (spec.member_offset self.now.parts.scope.now (spec.target (spec.value_type (part self.now.parts.scope.now a.now))) n) (part self.now.parts.scope.now a.now).value)) result out.new }
        ensures sound { IsSound out.new }
    {
        let k = arrow_offset(self.parts.scope, a, n)?;
        let p = self.parts.value(out, a)?;
        member_at(out, p, k)
    }

    /// An operator in front of an operand.
    pub(crate) fn unary_row(
        &self,
        out: &mut Emitter,
        operator: UnaryOperator,
        a: &TypedExpr,
        ty: &Ty,
    ) -> Result<u32, Trouble>
        requires nests { Nests self.now.parts.depth (V.pre self.now.parts.values) (V.post self.now.parts.values) (A.pre self.now.parts.addresses) (A.post self.now.parts.addresses) }
        requires sound { IsSound out.old }
        ensures made { Outcome out.old (code_of out.old (spec.unary_value operator (part self.now.parts.scope.now a.now) ty.now)) result out.new }
        ensures sound { IsSound out.new }
    {
        match operator {
            UnaryOperator::Address => self.address_value(out, a),
            UnaryOperator::Dereference => self.pointed_value(out, a, ty),
            UnaryOperator::Negate => self.unary_value(out, Operator::Subtract, a),
            UnaryOperator::Complement => self.unary_value(out, Operator::Complement, a),
            UnaryOperator::Not => self.unary_value(out, Operator::Not, a),
        }
    }

    /// `-`, `~` and `!`.
    fn unary_value(
        &self,
        out: &mut Emitter,
        operator: Operator,
        a: &TypedExpr,
    ) -> Result<u32, Trouble>
        requires nests { Nests self.now.parts.depth (V.pre self.now.parts.values) (V.post self.now.parts.values) (A.pre self.now.parts.addresses) (A.post self.now.parts.addresses) }
        requires sound { IsSound out.old }
        ensures made { Outcome out.old (code_of out.old (rows.unary_code operator (part self.now.parts.scope.now a.now).value)) result out.new }
        ensures sound { IsSound out.new }
    {
        let a = self.parts.value(out, a)?;
        unary(out, operator, a)
    }

    /// `&e`.
    fn address_value(&self, out: &mut Emitter, a: &TypedExpr) -> Result<u32, Trouble>
        requires nests { Nests self.now.parts.depth (V.pre self.now.parts.values) (V.post self.now.parts.values) (A.pre self.now.parts.addresses) (A.post self.now.parts.addresses) }
        requires sound { IsSound out.old }
        ensures made { Outcome out.old (code_of out.old (spec.address_value (part self.now.parts.scope.now a.now))) result out.new }
        ensures sound { IsSound out.new }
    {
        if has_function_type(self.parts.scope, a) {
            return self.parts.value(out, a);
        }
        self.pointer_value(out, a)
    }

    /// The same of an lvalue in memory.
    fn pointer_value(&self, out: &mut Emitter, a: &TypedExpr) -> Result<u32, Trouble>
        requires nests { Nests self.now.parts.depth (V.pre self.now.parts.values) (V.post self.now.parts.values) (A.pre self.now.parts.addresses) (A.post self.now.parts.addresses) }
        requires sound { IsSound out.old }
        ensures made { Outcome out.old (code_of out.old (lvalues.address_of (part self.now.parts.scope.now a.now).lvalue)) result out.new }
        ensures sound { IsSound out.new }
    {
        let p = self.parts.address(out, a)?;
        pointer_to(out, self.parts.scope, a, p)
    }

    /// `*e` of this type.
    fn pointed_value(&self, out: &mut Emitter, a: &TypedExpr, ty: &Ty) -> Result<u32, Trouble>
        requires nests { Nests self.now.parts.depth (V.pre self.now.parts.values) (V.post self.now.parts.values) (A.pre self.now.parts.addresses) (A.post self.now.parts.addresses) }
        requires sound { IsSound out.old }
        ensures made { Outcome out.old (code_of out.old (spec.pointed_value (part self.now.parts.scope.now a.now) ty.now)) result out.new }
        ensures sound { IsSound out.new }
    {
        if is_function(ty) {
            return self.parts.value(out, a);
        }
        self.pointed_lvalue(out, a, ty)
    }

    /// The same where it is no function.
    fn pointed_lvalue(&self, out: &mut Emitter, a: &TypedExpr, ty: &Ty) -> Result<u32, Trouble>
        requires nests { Nests self.now.parts.depth (V.pre self.now.parts.values) (V.post self.now.parts.values) (A.pre self.now.parts.addresses) (A.post self.now.parts.addresses) }
        requires sound { IsSound out.old }
        ensures made { Outcome out.old (code_of out.old (lvalues.lvalue_value (spec.whole (part self.now.parts.scope.now a.now).value ty.now))) result out.new }
        ensures sound { IsSound out.new }
    {
        let p = self.parts.value(out, a)?;
        whole_value(out, ty, p)
    }
}
