//! What is proved of inferred types.

ghost use Rattle.std.specs.Prelude.{IsFalse};
ghost use Rattle.module_semantics.specs.acceptance.Accepted.{is_accepted};
ghost use Rattle.naga_inference.specs.Following.{NoneIsAccepted};
ghost use Rattle.naga_inference.specs.Inferred.{IsTyped};
ghost use Rattle.naga_info.specs.declared.info.ModuleInfo.{ModuleInfo};
ghost use Rattle.naga_ir.specs.declared.module.Module.{Module};

/// Where a module is not accepted with the types that the rules give, as
/// [`inferred_types`](crate::inferred_types) finds them, no info that follows the rules is accepted.
pub fn no_other_info_is_accepted()
    ensures { (m : Module) (found : ModuleInfo) → IsTyped m found →
        IsFalse (is_accepted m found) → NoneIsAccepted m }
{}
