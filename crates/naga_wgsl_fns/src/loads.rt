//! Loads: of atomics, of cooperative matrices, and of what else a pointer points to.

ghost use Rattle.std.specs.Prelude.{◌≡◌, ◌<◌, IsTrue, Some, length, slice_get};
ghost use Rattle.std.specs.Option.{is_some};
ghost use Rattle.module_semantics.specs.AlikeTypes.{has_type_form};
ghost use Rattle.module_semantics.specs.ExpressionOperators.{is_atomic_pointer};
ghost use Rattle.module_semantics.specs.ExpressionForms.{expression_has_own_form};
ghost use Rattle.module_semantics.specs.acceptance.Ranges.{resolution_fits};
ghost use Rattle.naga_form.specs.Expressions.{scalar_pointed};
ghost use Rattle.naga_ir.specs.declared.expression.Expression.TheVariants.{CooperativeLoad, Load};
ghost use Rattle.naga_wgsl_fns.specs.Expressions.{callee_text, is_atomic_at, load_text, load_word};
ghost use Rattle.naga_wgsl_fns.specs.Expressions.{taking_text};
ghost use Rattle.naga_wgsl_fns.specs.FunctionText.{CanWrite, IsInText, context};
ghost use Rattle.naga_words.specs.Output.{Writes};

use crate::functions::FunctionText;
use naga_info::TypeResolution;
use naga_ir::{
    CooperativeData, CooperativeRole, CooperativeSize, Expression, Handle, Scalar, Type_, TypeInner,
};
use naga_scope::Scope;
use naga_tables::pointee_scalar;
use naga_words::{Output, TextSink};

impl FunctionText<'_> {
    /// What a pointer points to: an atomic by `atomicLoad`, and anything else as the reference that
    /// the pointer is.
    #[cycle(expression)]
    pub(crate) fn write_load<W: TextSink>(
        &self,
        scope: &Scope,
        handle: Handle<Expression>,
        pointer: Handle<Expression>,
        out: &mut Output<'_, W>,
    )
        requires can { CanWrite self.now }
        requires handle { IsInText self.now handle }
        requires load { slice_get self.now.function.now.expressions handle ≡ Some (Load pointer) }
        ensures { Writes W.text W.failures out.old out.new (load_text self.now scope.now.table pointer) }
    {
        if self.is_atomic_pointer(pointer) {
            self.write_called(scope, handle, "atomicLoad", out);
        } else {
            self.write_reference(scope, pointer, out);
        }
    }

    /// Whether an expression is a pointer to an atomic.
    pub(crate) fn is_atomic_pointer(&self, handle: Handle<Expression>) -> bool
        requires can { CanWrite self.now }
        requires handle { handle < length self.now.info.now }
        ensures { result ≡ is_atomic_pointer (context self.now) handle }
    {
        match self.type_of(handle) {
            TypeInner::Pointer { base, .. } => self.is_atomic(*base),
            _ => false,
        }
    }

    fn is_atomic(&self, ty: Handle<Type_>) -> bool
        requires { ty < length self.now.known.shader.now.types }
        ensures { result ≡ is_atomic_at self.now.known.shader.now.types ty }
    {
        matches!(&self.known.shader.types[ty].inner, TypeInner::Atomic(_))
    }

    /// The word that loads a cooperative matrix, with the type of that.
    pub(crate) fn write_matrix_callee<W: TextSink>(
        &self,
        columns: CooperativeSize,
        rows: CooperativeSize,
        role: CooperativeRole,
        memory: CooperativeData,
        out: &mut Output<'_, W>,
    )
        requires can { CanWrite self.now }
        requires formed { IsTrue
            (expression_has_own_form self.now.known.shader.now self.now.info.now
            (CooperativeLoad columns rows role memory)) }
        ensures { Writes W.text W.failures out.old out.new
            (callee_text self.now (CooperativeLoad columns rows role memory)) }
    {
        let scalar = self.pointed_scalar(memory.pointer);
        let matrix = TypeResolution::Value(TypeInner::CooperativeMatrix {
            columns,
            rows,
            scalar,
            role,
        });
        self.write_taking(load_str(memory.row_major), &matrix, out);
        drop(matrix);
    }

    /// The scalars that an expression points to.
    fn pointed_scalar(&self, pointer: Handle<Expression>) -> Scalar
        requires can { CanWrite self.now }
        requires handle { pointer < length self.now.info.now }
        requires scalar { IsTrue (is_some (scalar_pointed (context self.now) pointer)) }
        ensures { scalar_pointed (context self.now) pointer ≡ Some result }
    {
        match pointee_scalar(&self.known.shader.types, self.type_of(pointer)) {
            Some(scalar) => scalar,
            None => unreachable!(),
        }
    }

    /// A word that takes a type, with that.
    #[tactic(auto, using(naga_words::proofs::Writing::writes_then, crate::proofs::LoadRows::taking_row))]
    fn write_taking<W: TextSink>(&self, word: &str, ty: &TypeResolution, out: &mut Output<'_, W>)
        requires can { CanWrite self.now }
        requires formed { IsTrue (has_type_form self.now.known.shader.now.types ty.now) }
        requires fits { IsTrue (resolution_fits (length self.now.known.shader.now.overrides)
            (length self.now.known.shader.now.types) ty.now) }
        ensures { Writes W.text W.failures out.old out.new (taking_text self.now word.now ty.now) }
    {
        out.put(word);
        out.put("<");
        self.write_type_of(ty, out);
        out.put(">");
    }
}

/// The word that loads a cooperative matrix, whose columns or rows lie one after another.
fn load_str(row_major: bool) -> &'static str
    ensures { result.now ≡ load_word row_major }
{
    if row_major { "coopLoadT" } else { "coopLoad" }
}
