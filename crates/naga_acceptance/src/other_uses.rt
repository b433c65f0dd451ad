//! With which use of its operator one does not agree.

ghost use Rattle.std.specs.Prelude.{◌≡◌};
ghost use Rattle.std.specs.Option.{option_copied, option_map};
ghost use Rattle.naga_acceptance.specs.Faults.{site_of};
ghost use Rattle.naga_acceptance.specs.FirstUses.{first_other, first_other_in, other_type};
ghost use Rattle.naga_acceptance.specs.FirstUses.{other_use, other_use_in};
ghost use Rattle.naga_acceptance.specs.OtherUses.{found_use, other, seen, site_in, sited};
ghost use Rattle.naga_acceptance.specs.Uses.{group_of, operation};
ghost use Rattle.module_semantics.specs.acceptance.AgreeingOperators.{groups_of};

use crate::agreeing::{Expressions, group_at, use_in, use_item};
use crate::alike::are_known_alike;
use crate::faults::{FaultPosition, FunctionPosition};
use crate::parts::known_type;
use crate::uses::{Use, expression_use, is_same_operator};
use naga_info::{ModuleInfo, TypeResolution};
use naga_ir::{Expression, Handle, ItemIndex, Module, Type_, UniqueArena};

/// A use of an operator that another one does not agree with.
#[derive(Debug, Clone, Copy)]
pub struct OtherUse<'a> {
    /// Where it stands: an expression of a function, of an entry point or of the module itself.
    pub item: FaultPosition,
    /// The type that it has.
    pub there: &'a TypeResolution,
    /// The type that the other one has.
    pub here: &'a TypeResolution,
}

/// In which group an expression stands, and the number of its handle there.
#[derive(Debug, Clone, Copy)]
pub(crate) struct Sited {
    group: u128,
    index: usize,
}

/// A use in a group, with its type.
#[derive(Debug, Clone, Copy)]
pub(crate) struct Seen<'a> {
    index: usize,
    ty: &'a TypeResolution,
}

/// A use in a group of this number.
#[derive(Debug, Clone, Copy)]
pub(crate) struct FoundUse<'a> {
    group: u128,
    seen: Seen<'a>,
}

/// An expression of the group of this number.
fn sited_at(group: u128, expression: Handle<Expression>) -> Sited
    ensures { sited result ≡ (group, expression) }
{
    Sited {
        group,
        index: expression.index(),
    }
}

/// The same of a part of a function that is one.
fn sited_in(group: u128, part: FunctionPosition) -> Option<Sited>
    ensures { option_map sited result ≡ site_in group part }
{
    match part {
        FunctionPosition::Expression(expression) => Some(sited_at(group, expression)),
        _ => None,
    }
}

/// Where the expression at a position stands among the groups.
fn site_of(module: &Module, item: FaultPosition) -> Option<Sited>
    ensures { option_map sited result ≡ site_of «module».now item }
{
    let functions = module.functions.len() as u128;
    match item {
        FaultPosition::Function(handle, part) => sited_in(handle.index() as u128, part),
        FaultPosition::EntryPoint(index, part) => sited_in(functions + index as u128, part),
        FaultPosition::GlobalExpression(expression) => Some(sited_at(
            functions + module.entry_points.len() as u128,
            expression,
        )),
        _ => None,
    }
}

/// The type of an expression of a group, if it uses the same operator over operands of types alike
/// and its type is another.
fn other_type<'a>(
    types: &'a UniqueArena<Type_>,
    here: &'a TypeResolution,
    group: Expressions<'a>,
    used: &Use<'_>,
    handle: Handle<Expression>,
    expression: &'a Expression,
) -> Option<&'a TypeResolution>
    ensures { option_copied result ≡ other_type types.now here.now (group_of group.entry)
        (operation types.now used.now) handle expression.now }
{
    let Some(seen) = expression_use(types, group.known, handle, expression) else {
        return None;
    };
    if !is_same_operator(types, &seen, used) {
        return None;
    }
    match known_type(group.known, handle) {
        Some(there) if !are_known_alike(types, here, there) => Some(there),
        _ => None,
    }
}

/// The first expression of a group that does.
fn first_other_in<'a>(
    types: &'a UniqueArena<Type_>,
    here: &'a TypeResolution,
    group: Expressions<'a>,
    used: &Use<'_>,
) -> Option<Seen<'a>>
    ensures { option_map seen result ≡ first_other_in types.now here.now
        (operation types.now used.now) (group_of group.entry) }
{
    for (handle, expression) in group.arena.iter() {
        if let Some(ty) = other_type(types, here, group, used, handle, expression) {
            return Some(Seen {
                index: handle.index(),
                ty,
            });
        }
    }
    None
}

/// The first of all groups.
fn first_other<'a>(
    module: &'a Module,
    info: &'a ModuleInfo,
    here: &'a TypeResolution,
    used: &Use<'_>,
) -> Option<FoundUse<'a>>
    ensures { option_map found_use result
        ≡ first_other «module».now.types here.now (groups_of «module».now info.now)
        (operation «module».now.types used.now) }
{
    let mut number = 0;
    while let Some(group) = group_at(module, info, number) {
        if let Some(seen) = first_other_in(&module.types, here, group, used) {
            return Some(FoundUse {
                group: number,
                seen,
            });
        }
        number += 1;
    }
    None
}

/// The use with which that of the expression `index` of a group does not agree.
fn other_use_in<'a>(
    module: &'a Module,
    info: &'a ModuleInfo,
    group: Expressions<'a>,
    index: usize,
) -> Option<OtherUse<'a>>
    ensures { option_map other result ≡ other_use_in «module».now (groups_of «module».now info.now)
        (group_of group.entry) index }
{
    let Some(used) = use_in(&module.types, group, index) else {
        return None;
    };
    let Some(here) = known_type(group.known, ItemIndex::from_index(index)) else {
        return None;
    };
    let Some(found) = first_other(module, info, here, &used) else {
        return None;
    };
    Some(OtherUse {
        item: use_item(module, found.group, found.seen.index),
        there: found.seen.ty,
        here,
    })
}

/// The use with which that of an operator at a position does not agree: the first in the module that
/// is over operands of types alike and has another type.
///
/// It takes no memory and answers whatever numbers a module holds, in time that grows with the
/// module.
pub fn other_use<'a>(
    module: &'a Module,
    info: &'a ModuleInfo,
    item: FaultPosition,
) -> Option<OtherUse<'a>>
    ensures { option_map other result ≡ other_use «module».now info.now item }
{
    let Some(site) = site_of(module, item) else {
        return None;
    };
    match group_at(module, info, site.group) {
        Some(group) => other_use_in(module, info, group, site.index),
        None => None,
    }
}
