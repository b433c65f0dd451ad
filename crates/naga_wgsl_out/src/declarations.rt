//! What a module declares in front of its functions: structs, constants that have names, overrides
//! and variables.

ghost use Rattle.std.specs.Prelude.{◌≡◌, ℕ, IsTrue, Some};
ghost use Rattle.module_semantics.specs.AlikeTypes.{has_type_form};
ghost use Rattle.module_semantics.specs.ExpressionForms.{global_has_form};
ghost use Rattle.naga_info.specs.declared.info.TypeResolution.TheVariants as resolution;
ghost use Rattle.naga_words.specs.Output.{Writes};
ghost use Rattle.naga_wgsl_shared.specs.Appends.{Appends};
ghost use Rattle.naga_wgsl_shared.specs.ModuleText.{CanWriteIn};
ghost use Rattle.naga_wgsl_out.specs.Declarations.{declarations_text};
ghost use Rattle.naga_wgsl_out.specs.Items.{CanDeclare, CanWriteModule, IsNamedIn};
ghost use Rattle.naga_wgsl_out.specs.Items.{first_value_text, typed_text, value_text};

use crate::constants::{write_constants, write_overrides};
use crate::structs::write_structs;
use crate::variables::write_variables;
use naga_ir::{Expression, Handle, Type_};
use naga_naming::NameKey;
use naga_refusals::Error;
use naga_refusals::error::error_of_want;
use naga_scope::KnownModule;
use naga_wgsl_shared::module_text::ModuleText;
use naga_words::{Output, TextSink};
use std::alloc::Global;

/// Writes what the module declares in front of its functions: its structs, but those that no text
/// declares, its constants that have names, its overrides and its variables, with an empty line
/// after each struct and after the last of each other kind.
///
/// Where the call gives up, because the sink failed or for want of memory, a beginning of the text
/// stands after what the sink held.
pub(crate) fn write_declarations<W: TextSink>(
    known: &KnownModule<'_>,
    out: &mut W,
) -> Result<(), Error>
    requires can { CanWriteModule known.now }
    ensures { Appends result (W.text out.old) (W.failures out.old)
        (declarations_text known.now.shader.now) (W.text out.new) (W.failures out.new) }
{
    let text = ModuleText {
        shader: known.shader,
        tables: known.tables,
        names: known.names,
    };
    let mut written = Output::new(out);
    write_all(known.alloc, &text, &mut written);
    match written.outcome() {
        Ok(()) => Ok(()),
        Err(want) => Err(error_of_want(want)),
    }
}

#[tactic(auto, using(naga_words::proofs::Writing::writes_then, crate::proofs::DeclarationRows::declarations_row))]
fn write_all<W: TextSink>(alloc: Global, text: &ModuleText<'_>, out: &mut Output<'_, W>)
    requires { CanDeclare text.now }
    ensures { Writes W.text W.failures out.old out.new (declarations_text text.now.shader.now) }
{
    write_structs(alloc, text, out);
    write_constants(alloc, text, out);
    write_overrides(alloc, text, out);
    write_variables(alloc, text, out);
}

/// The name of an item, and after a colon its type.
#[tactic(auto, using(naga_words::proofs::Writing::writes_then, crate::proofs::ItemRows::typed_row))]
pub(crate) fn write_typed<W: TextSink>(
    alloc: Global,
    text: &ModuleText<'_>,
    key: &NameKey,
    ty: Handle<Type_>,
    out: &mut Output<'_, W>,
)
    requires can { CanWriteIn text.now }
    requires named { IsNamedIn text.now key.now }
    requires formed { IsTrue (has_type_form text.now.shader.now.types (resolution.Handle ty)) }
    ensures { Writes W.text W.failures out.old out.new
        (typed_text text.now.shader.now key.now ty) }
{
    text.write_name(key, out);
    out.put(": ");
    text.write_type(alloc, ty, out);
}

/// What stands after the type of an override or of a variable.
pub(crate) fn write_value<W: TextSink>(
    alloc: Global,
    text: &ModuleText<'_>,
    value: Option<Handle<Expression>>,
    out: &mut Output<'_, W>,
)
    requires can { CanWriteIn text.now }
    requires has_form { (h : ℕ) → value ≡ Some h →
        IsTrue (global_has_form text.now.shader.now h) }
    ensures { Writes W.text W.failures out.old out.new (value_text text.now.shader.now value) }
{
    match value {
        Some(value) => write_first_value(alloc, text, value, out),
        None => out.put(";\n"),
    }
}

/// A value, and the end of its line.
#[tactic(auto, using(naga_words::proofs::Writing::writes_then, crate::proofs::ItemRows::first_value_row))]
pub(crate) fn write_first_value<W: TextSink>(
    alloc: Global,
    text: &ModuleText<'_>,
    value: Handle<Expression>,
    out: &mut Output<'_, W>,
)
    requires can { CanWriteIn text.now }
    requires has_form { IsTrue (global_has_form text.now.shader.now value) }
    ensures { Writes W.text W.failures out.old out.new
        (first_value_text text.now.shader.now value) }
{
    out.put(" = ");
    text.write_global(alloc, value, out);
    out.put(";\n");
}
