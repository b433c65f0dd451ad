//! Where the members of a module's structs stand.

ghost use Rattle.std.specs.Prelude.{IfErr, IsTrue};
ghost use Rattle.module_semantics.specs.acceptance.Accepted.{is_accepted};
ghost use Rattle.naga_wgsl_out.specs.ModuleRefusals.{IsNamesRefusal};

use layout_texts::layouts_under;
use naga_info::ModuleInfo;
use naga_ir::Module;
use naga_wgsl_out::wgsl::names_of;
use naga_wgsl_shared::Error;
use std::alloc::Global;

/// The structs that a text declares, each with a line for each member, and the variables whose arrays
/// don't keep their strides, under the names that a text of this module has. Where that text is a standard
/// one, let [`name_as_standard`](crate::name_as_standard) see the module first.
///
/// The error is one of those of [`names_of`]: of a module whose items can't all be named, or of memory.
pub fn layout_table(alloc: Global, module: &Module, info: &ModuleInfo) -> Result<String, Error>
    requires accepted { IsTrue (is_accepted «module».now info.now) }
    ensures err { IfErr result (IsNamesRefusal «module».now) }
{
    let (names, _namer) = names_of(alloc, module)?;
    let text = layouts_under(alloc, module, &names)?;
    Ok(text)
}
