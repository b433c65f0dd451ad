//! Counts the uses of a module's expressions for a text, and raises them where operands stand too deep for
//! compilers.

ghost use Rattle.std.specs.Prelude.{◌≡◌, IfOk, IsFalse, IsTrue, OnOk};
ghost use Rattle.module_answers.specs.Counts.{CountsFor, IsRefusedWith, RaisedCounts, RaisedFor};
ghost use Rattle.module_answers.specs.Counts.{HasRaised};
ghost use Rattle.module_semantics.specs.acceptance.Accepted.{is_accepted};
ghost use Rattle.naga_back.specs.Flags.{annotates_types};
ghost use Rattle.naga_wgsl_out.specs.Checked.{IsCounted};
ghost use Rattle.naga_wgsl_out.specs.ModuleRefusals.{NothingIsRefused};

use naga_acceptance::count;
use naga_back::{WriterFlags, is_portable};
use naga_info::ModuleInfo;
use naga_ir::Module;
use naga_wgsl_out::wgsl::unwritable;
use operand_levels::bind_deep_operands;
use std::alloc::{AllocError, Global};

/// Counts the uses of an accepted module. Where its text is to have what standard compilers ask for, it
/// raises the counts of operands that stand too deep, so that `let`s bind them, unless the module is
/// refused with them.
///
/// An `Err` says that memory was refused; some counts may be raised then.
pub fn count_for(
    alloc: Global,
    module: &Module,
    info: &mut ModuleInfo,
    flags: WriterFlags,
) -> Result<(), AllocError>
    requires accepted { IsTrue (is_accepted «module».now info.old) }
    ensures accepted { IsTrue (is_accepted «module».now info.new) }
    ensures counted { OnOk result (CountsFor flags «module».now info.old info.new) }
    ensures raised { RaisedFor flags «module».now info.old info.new }
{
    if is_portable(flags) {
        count_and_raise(alloc, module, info, flags)
    } else {
        count_uses(module, info);
        Ok(())
    }
}

/// Counts the uses of each expression, where counts were raised before too.
fn count_uses(module: &Module, info: &mut ModuleInfo)
    ensures counted { IsCounted «module».now info.old info.new }
    ensures accepted { is_accepted «module».now info.new ≡ is_accepted «module».now info.old }
{
    count(info, module);
}

/// Counts the uses, and raises the counts of operands that stand too deep. A `let` can stand where a use
/// of its name is out of scope, so where the module is refused with these counts, its uses are counted
/// anew.
fn count_and_raise(
    alloc: Global,
    module: &Module,
    info: &mut ModuleInfo,
    flags: WriterFlags,
) -> Result<(), AllocError>
    requires accepted { IsTrue (is_accepted «module».now info.old) }
    ensures accepted { IsTrue (is_accepted «module».now info.new) }
    ensures counted { OnOk result
        (RaisedCounts (annotates_types flags) «module».now info.old info.new) }
    ensures raised { HasRaised «module».now info.old info.new }
{
    count_uses(module, info);
    if bind_deep_operands(alloc, info, module)? {
        if is_refused(alloc, module, info, flags)? {
            count_uses(module, info);
        }
    }
    Ok(())
}

/// Whether the writer refuses the module.
fn is_refused(
    alloc: Global,
    module: &Module,
    info: &ModuleInfo,
    flags: WriterFlags,
) -> Result<bool, AllocError>
    requires accepted { IsTrue (is_accepted «module».now info.now) }
    ensures refused { IfOk result (λ refused. IsTrue refused →
        IsRefusedWith (annotates_types flags) «module».now info.now) }
    ensures written { IfOk result (λ refused. IsFalse refused →
        NothingIsRefused (annotates_types flags) «module».now info.now) }
{
    match unwritable(alloc, module, info, flags) {
        Ok(found) => Ok(found.is_some()),
        Err(error) => Err(error),
    }
}
