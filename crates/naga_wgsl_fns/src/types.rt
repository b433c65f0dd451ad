//! Types, spelled under the names of the module's items.

ghost use Rattle.std.specs.Prelude.{◌<◌, IsTrue, length};
ghost use Rattle.module_semantics.specs.AlikeTypes.{has_type_form};
ghost use Rattle.module_semantics.specs.acceptance.Ranges.{resolution_fits};
ghost use Rattle.naga_info.specs.declared.info.TypeResolution.TheVariants as resolution;
ghost use Rattle.naga_words.specs.Output.{Writes};
ghost use Rattle.naga_back.specs.Flags.{annotates_types};
ghost use Rattle.naga_wgsl_fns.specs.FunctionText.{CanWrite, IsLet};
ghost use Rattle.naga_wgsl_fns.specs.Types.{annotation_text, resolution_text, let_annotation_text};
ghost use Rattle.naga_wgsl_fns.specs.Types.{type_text};

use crate::functions::FunctionText;
use naga_back::annotates_types;
use naga_info::TypeResolution;
use naga_ir::{Expression, Handle, Type_};
use naga_words::types::write_resolution_in;
use naga_words::{Output, TextSink, WriterTypeContext};

impl FunctionText<'_> {
    /// The type with this handle.
    pub(crate) fn write_type<W: TextSink>(&self, ty: Handle<Type_>, out: &mut Output<'_, W>)
        requires can { CanWrite self.now }
        requires formed { IsTrue
            (has_type_form self.now.known.shader.now.types (resolution.Handle ty)) }
        ensures { Writes W.text W.failures out.old out.new (type_text self.now ty) }
    {
        self.of_module().write_type(self.known.alloc, ty, out);
    }

    /// A colon, and the type of an expression.
    #[tactic(auto, using(naga_words::proofs::Writing::writes_then, crate::proofs::TypeRows::annotation_row))]
    fn write_annotation<W: TextSink>(&self, ty: &TypeResolution, out: &mut Output<'_, W>)
        requires can { CanWrite self.now }
        requires formed { IsTrue (has_type_form self.now.known.shader.now.types ty.now) }
        requires fits { IsTrue (resolution_fits (length self.now.known.shader.now.overrides)
            (length self.now.known.shader.now.types) ty.now) }
        ensures { Writes W.text W.failures out.old out.new (annotation_text self.now ty.now) }
    {
        out.put(": ");
        self.write_type_of(ty, out);
    }

    /// The type of an expression.
    pub(crate) fn write_type_of<W: TextSink>(&self, ty: &TypeResolution, out: &mut Output<'_, W>)
        requires can { CanWrite self.now }
        requires formed { IsTrue (has_type_form self.now.known.shader.now.types ty.now) }
        requires fits { IsTrue (resolution_fits (length self.now.known.shader.now.overrides)
            (length self.now.known.shader.now.types) ty.now) }
        ensures { Writes W.text W.failures out.old out.new (resolution_text self.now ty.now) }
    {
        let context = WriterTypeContext {
            module: self.known.shader,
            names: self.known.names,
        };
        write_resolution_in(&context, self.known.alloc, ty, out);
    }

    /// The same, where types are told.
    fn write_let_type<W: TextSink>(&self, handle: Handle<Expression>, out: &mut Output<'_, W>)
        requires can { CanWrite self.now }
        requires handle { handle < length self.now.function.now.expressions }
        requires named { IsLet self.now handle }
        requires tells { IsTrue (annotates_types self.now.known.flags) }
        ensures { Writes W.text W.failures out.old out.new (let_annotation_text self.now handle) }
    {
        let ty = &self.info[handle].ty;
        if !self.known.tables.names_undeclared(self.known.shader, ty) {
            self.write_annotation(ty, out);
        }
    }

    /// What stands between the name of a `let` and its `=`: a colon and the type, if the flags ask
    /// for it and it names no struct that no text declares.
    pub(crate) fn write_let_annotation<W: TextSink>(
        &self,
        handle: Handle<Expression>,
        out: &mut Output<'_, W>,
    )
        requires can { CanWrite self.now }
        requires handle { handle < length self.now.function.now.expressions }
        requires named { IsLet self.now handle }
        ensures { Writes W.text W.failures out.old out.new (let_annotation_text self.now handle) }
    {
        if annotates_types(self.known.flags) {
            self.write_let_type(handle, out);
        }
    }
}
