//! Digits at the ends of names.

ghost use Rattle.std.specs.Prelude.{◌≡◌, IsTrue};
ghost use Rattle.naga_info.specs.declared.info.ModuleInfo.{ModuleInfo};
ghost use Rattle.module_semantics.specs.acceptance.Accepted.{is_accepted};
ghost use Rattle.decimal_floats.specs.Decimals.{keeping_digits};

use naga_ir::Module;

/// Lets the names of the module keep the digits that their labels end in: an entry point `pass2` is
/// written as `pass2`, and not as `pass2_`. A pipeline then finds it by the name that it has in the
/// module. A `_` still follows digits that come after a `_`, as in `pass_2_`, or after `_e` alone,
/// since other names end so. Nothing else changes, and what accepted the module accepts it still.
///
/// ```text
/// keep_digits(&mut shader.module);
/// ```
pub fn keep_digits(module: &mut Module)
    ensures kept { «module».new ≡ keeping_digits «module».old }
    ensures accepted { (info : ModuleInfo) → IsTrue (is_accepted «module».old info) →
        IsTrue (is_accepted «module».new info) }
{
    module.keeps_digits = true;
}
