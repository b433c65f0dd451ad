//! Whether a type names a struct that no text declares.

ghost use Rattle.std.specs.Prelude.{◌≡◌, IfOk, IsTrue};
ghost use Rattle.module_semantics.specs.acceptance.Accepted.{is_accepted};
ghost use Rattle.module_semantics.specs.Undeclared.{names_undeclared};
ghost use Rattle.naga_info.specs.declared.info.ModuleInfo.{ModuleInfo};
ghost use Rattle.naga_info.specs.declared.info.TypeResolution.TheVariants.{Handle as OfHandle};

use naga_info::TypeResolution;
use naga_ir::{Handle, Module, Type_};
use naga_tables::ModuleTables;
use std::alloc::{AllocError, Global};

/// Whether the spelling of a type of an accepted module names a struct that no text declares: one
/// that WGSL's own functions give, or one of those of external textures. `TypeContext::write_type`
/// writes such a name all the same, so that it wrote a type doesn't tell. Where it did and the
/// answer here is `false`, a text can spell the type. The spelling of one that is not there names
/// none.
pub fn names_undeclared(
    alloc: Global,
    module: &Module,
    ty: Handle<Type_>,
) -> Result<bool, AllocError>
    requires accepted { (info : ModuleInfo) × IsTrue (is_accepted «module».now info) }
    ensures { IfOk result (λ answer. answer ≡ names_undeclared «module».now (OfHandle ty)) }
{
    let tables = ModuleTables::of(alloc, module)?;
    Ok(tables.names_undeclared(module, &TypeResolution::Handle(ty)))
}
