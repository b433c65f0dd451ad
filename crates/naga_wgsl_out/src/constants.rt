//! The constants that have names, and the overrides.

ghost use Rattle.std.specs.Prelude.{◌≡◌, IsTrue, Some, slice_get};
ghost use Rattle.std.specs.List.{list_all};
ghost use Rattle.std.specs.Option.{is_none, is_some};
ghost use Rattle.naga_form.specs.Attributes.{id_attributes};
ghost use Rattle.naga_words.specs.Output.{Writes};
ghost use Rattle.naga_wgsl_shared.specs.Attributes.{attributes_text};
ghost use Rattle.naga_wgsl_out.specs.Constants.{constant_text, constants_text, maybe_constant_text};
ghost use Rattle.naga_wgsl_out.specs.Constants.{override_text, overrides_text};
ghost use Rattle.naga_wgsl_out.specs.Items.{CanDeclare};

use crate::declarations::{write_first_value, write_typed, write_value};
use naga_ir::{Arena, Constant, Handle, Override};
use naga_naming::NameKey;
use naga_wgsl_fns::functions::write_group_end;
use naga_wgsl_shared::attributes::write_numbered;
use naga_wgsl_shared::module_text::ModuleText;
use naga_words::{Output, TextSink};
use std::alloc::Global;

/// The constants that have names, and an empty line after them if there are any.
pub(crate) fn write_constants<W: TextSink>(
    alloc: Global,
    text: &ModuleText<'_>,
    out: &mut Output<'_, W>,
)
    requires { CanDeclare text.now }
    ensures { Writes W.text W.failures out.old out.new (constants_text text.now.shader.now) }
{
    for (handle, constant) in text.shader.constants.iter() {
        write_if_named(alloc, text, handle, constant, out);
    }
    write_group_end(are_unnamed(&text.shader.constants), out);
}

/// Whether no constant has a name.
fn are_unnamed(constants: &Arena<Constant>) -> bool
    ensures { result ≡ list_all (λ c. is_none c.name) constants.now }
{
    for (_, constant) in constants.iter() {
        if constant.name.is_some() {
            return false;
        }
    }
    true
}

/// A constant, if it has a name.
fn write_if_named<W: TextSink>(
    alloc: Global,
    text: &ModuleText<'_>,
    handle: Handle<Constant>,
    constant: &Constant,
    out: &mut Output<'_, W>,
)
    requires can { CanDeclare text.now }
    requires there { slice_get text.now.shader.now.constants handle ≡ Some constant.now }
    ensures { Writes W.text W.failures out.old out.new
        (maybe_constant_text text.now.shader.now handle constant.now) }
{
    if constant.name.is_some() {
        write_constant(alloc, text, handle, constant, out);
    }
}

#[tactic(auto, using(naga_words::proofs::Writing::writes_then, crate::proofs::ConstantRows::constant_row))]
fn write_constant<W: TextSink>(
    alloc: Global,
    text: &ModuleText<'_>,
    handle: Handle<Constant>,
    constant: &Constant,
    out: &mut Output<'_, W>,
)
    requires can { CanDeclare text.now }
    requires there { slice_get text.now.shader.now.constants handle ≡ Some constant.now }
    requires named { IsTrue (is_some constant.now.name) }
    ensures { Writes W.text W.failures out.old out.new
        (constant_text text.now.shader.now handle constant.now) }
{
    out.put("const ");
    write_typed(alloc, text, &NameKey::Constant(handle), constant.ty, out);
    write_first_value(alloc, text, constant.init, out);
}

/// The overrides, and an empty line after them if there are any.
pub(crate) fn write_overrides<W: TextSink>(
    alloc: Global,
    text: &ModuleText<'_>,
    out: &mut Output<'_, W>,
)
    requires { CanDeclare text.now }
    ensures { Writes W.text W.failures out.old out.new (overrides_text text.now.shader.now) }
{
    for (handle, item) in text.shader.overrides.iter() {
        write_override(alloc, text, handle, item, out);
    }
    write_group_end(text.shader.overrides.is_empty(), out);
}

fn write_override<W: TextSink>(
    alloc: Global,
    text: &ModuleText<'_>,
    handle: Handle<Override>,
    item: &Override,
    out: &mut Output<'_, W>,
)
    requires can { CanDeclare text.now }
    requires there { slice_get text.now.shader.now.overrides handle ≡ Some item.now }
    ensures { Writes W.text W.failures out.old out.new
        (override_text text.now.shader.now handle item.now) }
{
    write_id(item.id, out);
    out.put("override ");
    write_typed(alloc, text, &NameKey::Override(handle), item.ty, out);
    write_value(alloc, text, item.init, out);
}

/// The number by which a pipeline names an override, if it has one.
fn write_id<W: TextSink>(id: Option<u16>, out: &mut Output<'_, W>)
    ensures { Writes W.text W.failures out.old out.new (attributes_text (id_attributes id)) }
{
    match id {
        Some(id) => write_numbered("@id(", u32::from(id), out),
        None => {}
    }
}
