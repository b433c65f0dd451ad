//! What the texts of a module's types and of its own expressions are made from.

ghost use Rattle.std.specs.Prelude.{IsTrue};
ghost use Rattle.module_semantics.specs.AlikeTypes.{has_type_form};
ghost use Rattle.naga_info.specs.declared.info.TypeResolution.TheVariants as resolution;
ghost use Rattle.naga_words.specs.Output.{Writes};
ghost use Rattle.naga_wgsl_shared.specs.ModuleText.{CanWriteIn};
ghost use Rattle.naga_wgsl_shared.specs.Types.{spelled_text};

use naga_ir::{Handle, Module, Type_};
use naga_naming::NameKey;
use naga_tables::ModuleTables;
use naga_words::types::write_type_in;
use naga_words::{Output, TextSink, WriterTypeContext};
use std::alloc::Global;
use std::collections::HashMap;

/// A module, the names of its items, and what is looked up of it.
///
/// Its methods write what the texts of several declarations share: types, values and names. What they
/// ask of the module is that it is accepted, has its names in the map and what is looked up of it in
/// the tables.
#[derive(Clone, Copy)]
pub struct ModuleText<'a> {
    /// The module.
    pub shader: &'a Module,
    /// What is looked up of it.
    pub tables: &'a ModuleTables,
    /// The names of its items in WGSL.
    pub names: &'a HashMap<NameKey, String>,
}

impl ModuleText<'_> {
    /// The type with this handle.
    pub fn write_type<W: TextSink>(&self, alloc: Global, ty: Handle<Type_>, out: &mut Output<'_, W>)
        requires can { CanWriteIn self.now }
        requires formed { IsTrue (has_type_form self.now.shader.now.types (resolution.Handle ty)) }
        ensures { Writes W.text W.failures out.old out.new (spelled_text self.now.shader.now ty) }
    {
        let context = WriterTypeContext {
            module: self.shader,
            names: self.names,
        };
        write_type_in(&context, alloc, ty, out);
    }
}
