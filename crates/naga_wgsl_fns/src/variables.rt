//! Variables of the module: references, but values in the handle space.

ghost use Rattle.std.specs.Prelude.{◌≡◌, ◌<◌, length};
ghost use Rattle.naga_form.specs.Expressions.{is_handle_variable};
ghost use Rattle.naga_words.specs.Output.{Writes};
ghost use Rattle.naga_wgsl_fns.specs.Expressions.{global_address_text, global_reference_text};
ghost use Rattle.naga_wgsl_fns.specs.Expressions.{global_value_text};
ghost use Rattle.naga_wgsl_fns.specs.FunctionText.{CanWrite, IsInText};

use crate::functions::FunctionText;
use naga_ir::{AddressSpace, Expression, GlobalVariable, Handle};
use naga_scope::Scope;
use naga_words::{Output, TextSink};

impl FunctionText<'_> {
    /// A variable of the module as a value: with `&`, where it is a reference.
    pub(crate) fn write_global_value<W: TextSink>(
        &self,
        variable: Handle<GlobalVariable>,
        out: &mut Output<'_, W>,
    )
        requires can { CanWrite self.now }
        requires variable { variable < length self.now.known.shader.now.global_variables }
        ensures { Writes W.text W.failures out.old out.new (global_value_text self.now variable) }
    {
        if self.is_handle_variable(variable) {
            self.write_global_name(variable, out);
        } else {
            self.write_global_address(variable, out);
        }
    }

    /// A variable of the module that has no name of a `let` here, as a reference: with `*`, where it
    /// is a value.
    #[cycle(expression)]
    pub(crate) fn write_global_reference<W: TextSink>(
        &self,
        scope: &Scope,
        handle: Handle<Expression>,
        variable: Handle<GlobalVariable>,
        out: &mut Output<'_, W>,
    )
        requires can { CanWrite self.now }
        requires handle { IsInText self.now handle }
        requires variable { variable < length self.now.known.shader.now.global_variables }
        ensures { Writes W.text W.failures out.old out.new
            (global_reference_text self.now scope.now.table handle variable) }
    {
        if self.is_handle_variable(variable) {
            self.write_dereference(scope, handle, out);
        } else {
            self.write_global_name(variable, out);
        }
    }

    /// A pointer to a variable of the module.
    #[tactic(auto, using(naga_words::proofs::Writing::writes_then, crate::proofs::VariableRows::global_address_row))]
    fn write_global_address<W: TextSink>(
        &self,
        variable: Handle<GlobalVariable>,
        out: &mut Output<'_, W>,
    )
        requires can { CanWrite self.now }
        requires variable { variable < length self.now.known.shader.now.global_variables }
        ensures { Writes W.text W.failures out.old out.new (global_address_text self.now variable) }
    {
        out.put("(&");
        self.write_global_name(variable, out);
        out.put(")");
    }

    /// Whether a variable of the module is in the handle space.
    fn is_handle_variable(&self, variable: Handle<GlobalVariable>) -> bool
        requires { variable < length self.now.known.shader.now.global_variables }
        ensures { result ≡ is_handle_variable self.now.known.shader.now variable }
    {
        matches!(
            self.known.shader.global_variables[variable].space,
            AddressSpace::Handle
        )
    }
}
