//! Constants in functions, and what a function's text takes from its module's.

ghost use Rattle.std.specs.Prelude.{◌≡◌, IsTrue};
ghost use Rattle.module_semantics.specs.ExpressionForms.{constant_has_form};
ghost use Rattle.naga_words.specs.Output.{Writes};
ghost use Rattle.naga_wgsl_shared.specs.Constants.{constant_text};
ghost use Rattle.naga_wgsl_fns.specs.FunctionText.{CanWrite};

use crate::functions::FunctionText;
use naga_ir::{Constant, Handle};
use naga_wgsl_shared::module_text::ModuleText;
use naga_words::{Output, TextSink};

impl FunctionText<'_> {
    /// A constant.
    pub(crate) fn write_constant<W: TextSink>(
        &self,
        constant: Handle<Constant>,
        out: &mut Output<'_, W>,
    )
        requires can { CanWrite self.now }
        requires has_form { IsTrue (constant_has_form self.now.known.shader.now constant) }
        ensures { Writes W.text W.failures out.old out.new
            (constant_text self.now.known.shader.now constant) }
    {
        self.of_module()
            .write_constant(self.known.alloc, constant, out);
    }

    /// The function's module, the names of its items, and what is looked up of it.
    pub(crate) fn of_module(&self) -> ModuleText<'_>
        ensures shader { result.shader.now ≡ self.now.known.shader.now }
        ensures tables { result.tables.now ≡ self.now.known.tables.now }
        ensures names { result.names.now ≡ self.now.known.names.now }
    {
        ModuleText {
            shader: self.known.shader,
            tables: self.known.tables,
            names: self.known.names,
        }
    }
}
