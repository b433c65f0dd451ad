//! The function or entry point that a `FunctionType` names.

ghost use Rattle.std.specs.Prelude.{◌≡◌, IsTrue, Some, slice_get};
ghost use Rattle.module_semantics.specs.acceptance.Accepted.{is_accepted};
ghost use Rattle.module_semantics.specs.FunctionNumbers.{IsFunctionOf, all_functions, all_infos};
ghost use Rattle.module_semantics.specs.FunctionNumbers.{function_number};

use naga_back::FunctionType;
use naga_info::{FunctionInfo, ModuleInfo};
use naga_ir::{Function, Module};

/// A function of an accepted module, or that of an entry point, with what is known of its expressions.
pub fn function_of<'a>(
    module: &'a Module,
    info: &'a ModuleInfo,
    ty: FunctionType,
) -> (&'a Function, &'a FunctionInfo)
    requires accepted { IsTrue (is_accepted «module».now info.now) }
    requires there { IsFunctionOf ty «module».now }
    ensures function { slice_get (all_functions «module».now) (function_number «module».now ty)
        ≡ Some result.0.now }
    ensures known { slice_get (all_infos info.now) (function_number «module».now ty)
        ≡ Some result.1.now }
{
    match ty {
        FunctionType::Function(handle) => (&module.functions[handle], &info[handle]),
        FunctionType::EntryPoint(index) => {
            let index = index as usize;
            (
                &module.entry_points[index].function,
                info.get_entry_point(index),
            )
        }
    }
}
