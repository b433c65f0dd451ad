//! The variables of a module.

ghost use Rattle.std.specs.Prelude.{◌≡◌, Some, slice_get};
ghost use Rattle.naga_form.specs.Attributes.{decoration_attributes};
ghost use Rattle.naga_words.specs.Output.{Writes};
ghost use Rattle.naga_wgsl_shared.specs.Attributes.{attributes_text};
ghost use Rattle.naga_wgsl_out.specs.Items.{CanDeclare};
ghost use Rattle.naga_wgsl_out.specs.Variables.{access_text, alone_text, resource_text};
ghost use Rattle.naga_wgsl_out.specs.Variables.{space_text, var_text, variable_text};
ghost use Rattle.naga_wgsl_out.specs.Variables.{variables_text};

use crate::declarations::{write_typed, write_value};
use bitflags::Flags;
use naga_ir::{AddressSpace, GlobalVariable, Handle, MemoryDecorations, ResourceBinding};
use naga_naming::NameKey;
use naga_wgsl_fns::functions::write_group_end;
use naga_wgsl_shared::attributes::{write_numbered, write_optional_chunk};
use naga_wgsl_shared::module_text::ModuleText;
use naga_words::{Output, TextSink};
use std::alloc::Global;
use wgsl_words::address_space_str;

/// The variables, and an empty line after them if there are any.
pub(crate) fn write_variables<W: TextSink>(
    alloc: Global,
    text: &ModuleText<'_>,
    out: &mut Output<'_, W>,
)
    requires { CanDeclare text.now }
    ensures { Writes W.text W.failures out.old out.new (variables_text text.now.shader.now) }
{
    for (handle, variable) in text.shader.global_variables.iter() {
        write_variable(alloc, text, handle, variable, out);
    }
    write_group_end(text.shader.global_variables.is_empty(), out);
}

#[tactic(auto, using(naga_words::proofs::Writing::writes_then, crate::proofs::VariableRows::variable_row))]
fn write_variable<W: TextSink>(
    alloc: Global,
    text: &ModuleText<'_>,
    handle: Handle<GlobalVariable>,
    variable: &GlobalVariable,
    out: &mut Output<'_, W>,
)
    requires can { CanDeclare text.now }
    requires there { slice_get text.now.shader.now.global_variables handle ≡ Some variable.now }
    ensures { Writes W.text W.failures out.old out.new
        (variable_text text.now.shader.now handle variable.now) }
{
    write_resource(variable.binding, out);
    write_decorations(variable.memory_decorations, out);
    write_var(alloc, text, handle, variable, out);
}

/// A variable after its attributes.
fn write_var<W: TextSink>(
    alloc: Global,
    text: &ModuleText<'_>,
    handle: Handle<GlobalVariable>,
    variable: &GlobalVariable,
    out: &mut Output<'_, W>,
)
    requires can { CanDeclare text.now }
    requires there { slice_get text.now.shader.now.global_variables handle ≡ Some variable.now }
    ensures { Writes W.text W.failures out.old out.new
        (var_text text.now.shader.now handle variable.now) }
{
    out.put("var");
    write_space(variable.space, out);
    out.put(" ");
    write_typed(
        alloc,
        text,
        &NameKey::GlobalVariable(handle),
        variable.ty,
        out,
    );
    write_value(alloc, text, variable.init, out);
}

/// The group and the number of a variable's binding, if it has one, and a line end after that.
#[tactic(auto, using(naga_words::proofs::Writing::writes_nothing, crate::proofs::VariableRows::unbound_row))]
fn write_resource<W: TextSink>(binding: Option<ResourceBinding>, out: &mut Output<'_, W>)
    ensures { Writes W.text W.failures out.old out.new (resource_text binding) }
{
    match binding {
        Some(binding) => write_resource_binding(binding, out),
        None => {}
    }
}

#[tactic(auto, using(naga_words::proofs::Writing::writes_then, crate::proofs::VariableRows::resource_row))]
fn write_resource_binding<W: TextSink>(binding: ResourceBinding, out: &mut Output<'_, W>)
    ensures { Writes W.text W.failures out.old out.new (resource_text (Some binding)) }
{
    write_numbered("@group(", binding.group, out);
    write_numbered("@binding(", binding.binding, out);
    out.put("\n");
}

/// How the accesses to a variable are ordered and seen.
fn write_decorations<W: TextSink>(decorations: MemoryDecorations, out: &mut Output<'_, W>)
    ensures { Writes W.text W.failures out.old out.new
        (attributes_text (decoration_attributes decorations)) }
{
    write_optional_chunk(
        decorations.contains(MemoryDecorations::COHERENT),
        "@coherent ",
        out,
    );
    write_optional_chunk(
        decorations.contains(MemoryDecorations::VOLATILE),
        "@volatile ",
        out,
    );
}

/// Where a variable lives and what may be done with it, where WGSL has words for that.
fn write_space<W: TextSink>(space: AddressSpace, out: &mut Output<'_, W>)
    ensures { Writes W.text W.failures out.old out.new (space_text space) }
{
    match address_space_str(space) {
        (Some(space), Some(access)) => write_space_and_access(space, access, out),
        (Some(space), None) => write_space_alone(space, out),
        (None, _) => {}
    }
}

#[tactic(auto, using(naga_words::proofs::Writing::writes_then, crate::proofs::VariableRows::alone_row))]
fn write_space_alone<W: TextSink>(space: &str, out: &mut Output<'_, W>)
    ensures { Writes W.text W.failures out.old out.new (alone_text space.now) }
{
    out.put("<");
    out.put(space);
    out.put(">");
}

fn write_space_and_access<W: TextSink>(space: &str, access: &str, out: &mut Output<'_, W>)
    ensures { Writes W.text W.failures out.old out.new (access_text space.now access.now) }
{
    out.put("<");
    out.put(space);
    out.put(", ");
    out.put(access);
    out.put(">");
}
