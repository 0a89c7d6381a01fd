//! Which row a tree has for its value.

ghost use Rattle.std.specs.Prelude.{◌≡◌};
ghost use Rattle.c_typed.specs.declared.expression.TypedExpr.{out-TypedExpr};
ghost use Rattle.elab_rows.specs.Addresses as lvalues;
ghost use Rattle.elab_emit.specs.Emits.{IsSound, Outcome, code_of};
ghost use Rattle.elab_rows.specs.Values as spec;
ghost use Rattle.elab_rows.specs.Values.{part};
ghost use Rattle.elab_parts.specs.Nests.{Nests};
ghost use Rattle.elab_parts.specs.inner.Nodes.{node};

use crate::pass::Pass;
use c_tree::BinaryOperator;
use c_typed::{Constant, TypedExpr, TypedForm};
use c_types::{Ty, is_void};
use elab_emit::{Emitter, Trouble, function, number, size, slot, string};
use elab_parts::{name, size_of, value_of};
use elab_rows::{Named, Scope};

impl<'s, V, A> Pass<'s, V, A>
where
    V: Fn(&mut Emitter, &Scope, u32, &TypedExpr) -> Result<u32, Trouble> + Copy,
    A: Fn(&mut Emitter, &Scope, u32, &TypedExpr) -> Result<u32, Trouble> + Copy,
{
    /// The value of a tree.
    pub(crate) fn node_value(&self, out: &mut Emitter, expr: &TypedExpr) -> Result<u32, Trouble>
        requires nests { Nests self.now.parts.depth (V.pre self.now.parts.values) (V.post self.now.parts.values) (A.pre self.now.parts.addresses) (A.post self.now.parts.addresses) }
        requires sound { IsSound out.old }
        ensures made { Outcome out.old (code_of out.old ((part self.now.parts.scope.now expr.now).value)) result out.new }
        ensures sound { IsSound out.new }
    {
        self.folded_value(out, expr)
    }

    /// The same: one `Const` of a constant where constants are folded.
    fn folded_value(&self, out: &mut Emitter, expr: &TypedExpr) -> Result<u32, Trouble>
        requires nests { Nests self.now.parts.depth (V.pre self.now.parts.values) (V.post self.now.parts.values) (A.pre self.now.parts.addresses) (A.post self.now.parts.addresses) }
        requires sound { IsSound out.old }
        ensures made { Outcome out.old (code_of out.old (spec.folded self.now.parts.scope.now.folds (out-TypedExpr expr.now).constant
            (spec.form_value self.now.parts.scope.now (node self.now.parts.scope.now expr.now) (out-TypedExpr expr.now).ty))) result out.new }
        ensures sound { IsSound out.new }
    {
        match (self.parts.scope.folds, expr.constant) {
            (true, Constant::Value(v)) => number(out, v),
            _ => self.form_value(out, expr),
        }
    }

    /// The code of a form.
    #[tactic(auto, using(elab_parts::proofs::Nodes::name_is, elab_parts::proofs::Nodes::lvalue_is, elab_parts::proofs::Nodes::type_is))]
    fn form_value(&self, out: &mut Emitter, expr: &TypedExpr) -> Result<u32, Trouble>
        requires nests { Nests self.now.parts.depth (V.pre self.now.parts.values) (V.post self.now.parts.values) (A.pre self.now.parts.addresses) (A.post self.now.parts.addresses) }
        requires sound { IsSound out.old }
        ensures made { Outcome out.old (code_of out.old (spec.form_value self.now.parts.scope.now (node self.now.parts.scope.now expr.now) (out-TypedExpr expr.now).ty)) result out.new }
        ensures sound { IsSound out.new }
    {
        match &expr.form {
            TypedForm::Assign(a, operator, b) => self.assign(out, a.get(), *operator, b.get()),
            TypedForm::Conditional {
                condition,
                then_value,
                else_value,
            } => self.parts.conditional(
                out,
                condition.get(),
                then_value.get(),
                else_value.get(),
                &expr.ty,
            ),
            TypedForm::Binary(a, operator, b) => self
                .parts
                .operator_row(out, *operator, a.get(), b.get()),
            TypedForm::Cast(_, a) => self.cast(out, a.get(), &expr.ty),
            TypedForm::PreIncrement(a) => self.prefix(out, BinaryOperator::Add, a.get()),
            TypedForm::PreDecrement(a) => self.prefix(out, BinaryOperator::Subtract, a.get()),
            TypedForm::Unary(operator, a) => self.unary_row(out, *operator, a.get(), &expr.ty),
            TypedForm::SizeofExpr(a) => size_of(out, self.parts.scope, a.get()),
            TypedForm::SizeofType(word) => size(out, self.parts.scope, &word.get().ty),
            TypedForm::Call(callee, arguments) => self
                .parts
                .call(out, callee.get(), arguments.as_slice()),
            TypedForm::PostIncrement(a) => self.postfix(out, BinaryOperator::Add, a.get()),
            TypedForm::PostDecrement(a) => self.postfix(out, BinaryOperator::Subtract, a.get()),
            TypedForm::Identifier(_, _) => self.name_value(out, expr),
            TypedForm::Number(v) => number(out, *v),
            TypedForm::Text(_, n) => string(out, self.parts.scope, *n),
            _ => self.lvalue_value(out, expr),
        }
    }

    /// The value of an lvalue in memory.
    fn lvalue_value(&self, out: &mut Emitter, expr: &TypedExpr) -> Result<u32, Trouble>
        requires nests { Nests self.now.parts.depth (V.pre self.now.parts.values) (V.post self.now.parts.values) (A.pre self.now.parts.addresses) (A.post self.now.parts.addresses) }
        requires sound { IsSound out.old }
        ensures made { Outcome out.old (code_of out.old (lvalues.lvalue_value (part self.now.parts.scope.now expr.now).lvalue)) result out.new }
        ensures sound { IsSound out.new }
    {
        let p = self.node_address(out, expr)?;
        value_of(out, self.parts.scope, expr, p)
    }

    /// The value of a name.
    fn name_value(&self, out: &mut Emitter, expr: &TypedExpr) -> Result<u32, Trouble>
        requires nests { Nests self.now.parts.depth (V.pre self.now.parts.values) (V.post self.now.parts.values) (A.pre self.now.parts.addresses) (A.post self.now.parts.addresses) }
        requires sound { IsSound out.old }
        ensures made { Outcome out.old (code_of out.old (spec.name_value (part self.now.parts.scope.now expr.now).name (out-TypedExpr expr.now).ty)) result out.new }
        ensures sound { IsSound out.new }
    {
        match name(self.parts.scope, expr) {
            Named::Slot(s) => slot(out, s),
            Named::Function(f) => function(out, f),
            Named::Global(_) => self.lvalue_value(out, expr),
            Named::Frame(_) => self.lvalue_value(out, expr),
            _ => Ok(0),
        }
    }

    /// A cast to this type.
    fn cast(&self, out: &mut Emitter, a: &TypedExpr, ty: &Ty) -> Result<u32, Trouble>
        requires nests { Nests self.now.parts.depth (V.pre self.now.parts.values) (V.post self.now.parts.values) (A.pre self.now.parts.addresses) (A.post self.now.parts.addresses) }
        requires sound { IsSound out.old }
        ensures made { Outcome out.old (code_of out.old (spec.cast_part (part self.now.parts.scope.now a.now) ty.now)) result out.new }
        ensures sound { IsSound out.new }
    {
        if is_void(ty) {
            return self.parts.value(out, a);
        }
        self.parts.converted(out, a, ty)
    }
}
