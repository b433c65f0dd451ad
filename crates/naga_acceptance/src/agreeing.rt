//! Whether operators that are spelled alike, over operands of types alike, have types alike.
//!
//! Uses are gone through in order. A table of fixed size remembers the first use of each operator
//! over operands of some types, by open addressing: in the first empty slot from that of its hash
//! on. A use that finds one of its operator there is compared with that one alone.
//!
//! Where the table has no room for all operators, they are halved by the remainders of their
//! hashes, and the uses of each half are gone through by themselves: those of one operator have one
//! hash. Operators of one remainder are not halved. A use that finds all slots filled with uses of
//! such others is compared with the first use of its operator, which is looked for from the start.

ghost use Rattle.std.specs.Prelude.{◌≡◌, ◌+◌, ◌<◌, ◌≤◌, ◌^◌, suc, length, slice_get, true, Some};
ghost use Rattle.std.specs.Prelude.{◌%◌, [], IfOk, None, OnErr, replicate};
ghost use Rattle.std.specs.Option.{IfSome, is_none, option_map, option_map_or, option_to_list};
ghost use Rattle.naga_acceptance.specs.Faults.{Disagrees, site_of};
ghost use Rattle.naga_acceptance.specs.FirstFaults.{IsDisagreement};
ghost use Rattle.naga_acceptance.specs.FirstUses.{use_item};
ghost use Rattle.naga_acceptance.specs.Uses.{AreHashed, DisagreesFirst, IsFirstDisagreement};
ghost use Rattle.naga_acceptance.specs.Uses.{IsHashed, Probes, Remembers, earlier, earlier_uses};
ghost use Rattle.naga_acceptance.specs.Uses.{first_answer, first_uses, group_of, group_uses};
ghost use Rattle.naga_acceptance.specs.Uses.{has_hash, hash_of, is_in, operation, share_uses};
ghost use Rattle.naga_acceptance.specs.Uses.{site_answer, stands_before, use_at, use_in};
ghost use Rattle.module_semantics.specs.acceptance.AgreeingOperators.{function_group};
ghost use Rattle.module_semantics.specs.acceptance.AgreeingOperators.{further_groups_of};
ghost use Rattle.module_semantics.specs.acceptance.AgreeingOperators.{groups_of};
ghost use Rattle.module_semantics.specs.acceptance.AgreeingOperators.{module_operators_agree};
ghost use Rattle.module_semantics.specs.acceptance.AgreeingOperators.{uses_of};
ghost use Rattle.module_semantics.specs.acceptance.Operations.{all_agree};

use crate::faults::{Fault, FaultPosition, FunctionPosition, Unaccepted, at};
use crate::parts::Known;
use crate::uses::{Use, expression_use, has_same_answer, hash_of, is_same_operator};
use naga_info::{FunctionInfo, ModuleInfo};
use naga_ir::{Arena, Expression, Function, ItemIndex, Module, Type_, UniqueArena};

/// Expressions that stand together, with their types.
#[derive(Debug, Clone, Copy)]
pub(crate) struct Expressions<'a> {
    pub(crate) arena: &'a Arena<Expression>,
    pub(crate) known: Known<'a>,
}

/// How many slots the table of remembered uses has.
const SLOTS: usize = 509;

/// How many slots it has for a module with few expressions.
const FEW_SLOTS: usize = 41;

/// How many remainders hashes have. It is a prime, so that hashes that differ by a multiple of a
/// power of two have different ones.
pub(crate) const REMAINDERS: usize = 1_048_573;

/// Where an expression stands: in which group, and the number of its handle there; and its hash as
/// a use. Functions and entry points together may be more than a `usize` counts.
#[derive(Debug, Clone, Copy)]
pub(crate) struct Site {
    group: u128,
    index: usize,
    hash: usize,
}

/// Where a use stands: in which group, and the number of its handle there.
#[derive(Debug, Clone, Copy)]
pub(crate) struct UsePosition {
    group: u128,
    index: usize,
}

/// A share of the operators: those whose hashes have one of these remainders.
#[derive(Debug, Clone, Copy)]
pub(crate) struct Share {
    first: usize,
    last: usize,
}

/// The table has no room for the operators of a share, which can be halved.
#[derive(Debug, Clone, Copy)]
struct Crowded;

/// What the slots of the table tell of a use, from that of its hash on.
#[derive(Debug, Clone, Copy)]
enum Probe {
    /// This slot is empty, and none before it has a use of its operator.
    Empty(usize),
    /// One before any empty slot has a use of its operator: whether both have types alike.
    Seen(bool),
    /// All have uses of other operators.
    Full,
}

fn function_group<'a>(function: &'a Function, info: &'a FunctionInfo) -> Expressions<'a>
    ensures { group_of result ≡ function_group function.now info.now }
{
    Expressions {
        arena: &function.expressions,
        known: Known::Function(info.expressions.as_slice()),
    }
}

/// The expressions of the entry point of this number, or those of the module itself after them.
fn further_group_at<'a>(
    module: &'a Module,
    info: &'a ModuleInfo,
    number: u128,
) -> Option<Expressions<'a>>
    ensures group { option_map group_of result
        ≡ slice_get (further_groups_of «module».now info.now) number }
    ensures within { IfSome result (λ _. number ≤ 2 ^ 64) }
{
    let entry_points = module.entry_points.as_slice();
    let infos = info.entry_points.as_slice();
    let count = entry_points.len().min(infos.len()) as u128;
    if number < count {
        let index = number as usize;
        Some(function_group(&entry_points[index].function, &infos[index]))
    } else if number == count {
        Some(Expressions {
            arena: &module.global_expressions,
            known: Known::Global(info.const_expression_types.as_slice()),
        })
    } else {
        None
    }
}

/// The group of this number: functions, entry points and the module itself, in order.
pub(crate) fn group_at<'a>(
    module: &'a Module,
    info: &'a ModuleInfo,
    number: u128,
) -> Option<Expressions<'a>>
    ensures group { option_map group_of result
        ≡ slice_get (groups_of «module».now info.now) number }
    ensures within { IfSome result (λ _. number < 2 ^ 66) }
{
    let infos = info.functions.as_slice();
    let functions = module.functions.len().min(infos.len()) as u128;
    if number < functions {
        let index = number as usize;
        Some(function_group(
            &module.functions[ItemIndex::from_index(index)],
            &infos[index],
        ))
    } else {
        further_group_at(module, info, number - functions)
    }
}

/// The expression with this number as a use, if it is there and has an operator.
pub(crate) fn use_in<'a>(
    types: &'a UniqueArena<Type_>,
    group: Expressions<'a>,
    index: usize,
) -> Option<Use<'a>>
    ensures { option_map (operation types.now) result
        ≡ use_in types.now (group_of group.entry) index }
{
    if index < group.arena.len() {
        let here = ItemIndex::from_index(index);
        expression_use(types, group.known, here, &group.arena[here])
    } else {
        None
    }
}

fn use_at<'a>(module: &'a Module, info: &'a ModuleInfo, site: Site) -> Option<Use<'a>>
    ensures { option_map (operation «module».now.types) result
        ≡ use_at «module».now.types (groups_of «module».now info.now) site }
{
    match group_at(module, info, site.group) {
        Some(group) => use_in(&module.types, group, site.index),
        None => None,
    }
}

/// Whether the expression of this number has the type of `used`, if it uses the same operator.
fn answer_at(
    types: &UniqueArena<Type_>,
    group: Expressions<'_>,
    index: usize,
    used: &Use<'_>,
) -> Option<bool>
    ensures { result ≡ first_answer
        (option_to_list (use_in types.now (group_of group.entry) index))
        (operation types.now used.now) }
{
    match use_in(types, group, index) {
        Some(seen) if is_same_operator(types, &seen, used) => {
            Some(has_same_answer(types, &seen, used))
        }
        _ => None,
    }
}

/// The same of the use at a site, where `hash` is that of `used`.
fn site_answer(
    module: &Module,
    info: &ModuleInfo,
    site: Site,
    hash: usize,
    used: &Use<'_>,
) -> Option<bool>
    requires site { IsHashed «module».now.types (groups_of «module».now info.now) site }
    requires hash { hash ≡ hash_of (operation «module».now.types used.now) }
    ensures { result ≡ site_answer «module».now.types (groups_of «module».now info.now)
        (Some site) (operation «module».now.types used.now) }
{
    if site.hash != hash {
        return None;
    }
    match use_at(module, info, site) {
        Some(seen) if is_same_operator(&module.types, &seen, used) => {
            Some(has_same_answer(&module.types, &seen, used))
        }
        _ => None,
    }
}

/// The same of the first use of the operator among the first expressions of a group.
fn first_answer(
    types: &UniqueArena<Type_>,
    group: Expressions<'_>,
    end: usize,
    used: &Use<'_>,
) -> Option<bool>
    ensures { result ≡ first_answer (first_uses types.now (group_of group.entry) end)
        (operation types.now used.now) }
{
    for index in 0..end {
        let found = answer_at(types, group, index, used);
        if found.is_some() {
            return found;
        }
    }
    None
}

/// The same among all expressions of a group, if there is such a group.
fn group_answer(module: &Module, info: &ModuleInfo, number: u128, used: &Use<'_>) -> Option<bool>
    ensures { result ≡ first_answer
        (option_map_or (uses_of «module».now.types)
        (slice_get (groups_of «module».now info.now) number) [])
        (operation «module».now.types used.now) }
{
    match group_at(module, info, number) {
        Some(group) => first_answer(&module.types, group, group.arena.len(), used),
        None => None,
    }
}

/// The same among the first groups.
fn groups_answer(module: &Module, info: &ModuleInfo, number: u128, used: &Use<'_>) -> Option<bool>
    ensures { result ≡ first_answer
        (group_uses «module».now.types (groups_of «module».now info.now) number)
        (operation «module».now.types used.now) }
{
    for position in 0..number {
        let found = group_answer(module, info, position, used);
        if found.is_some() {
            return found;
        }
    }
    None
}

/// The same among all that stands before the expression `index` of a group, which has this number.
fn earlier_answer(
    module: &Module,
    info: &ModuleInfo,
    number: u128,
    group: Expressions<'_>,
    index: usize,
    used: &Use<'_>,
) -> Option<bool>
    ensures { result ≡ first_answer
        (earlier_uses «module».now.types (groups_of «module».now info.now) number
        (group_of group.entry) index)
        (operation «module».now.types used.now) }
{
    let found = groups_answer(module, info, number, used);
    if found.is_some() {
        return found;
    }
    first_answer(&module.types, group, index, used)
}

/// The slot that is so many steps after one of so many, where the first stands after the last.
fn slot_following(slot: usize, steps: usize, slots: usize) -> usize
    requires slot { slot < slots }
    requires steps { steps < slots }
    ensures slot { result ≡ (slot + steps) % slots }
    ensures within { result < slots }
{
    let left = slots - slot;
    if steps < left {
        slot + steps
    } else {
        steps - left
    }
}

/// What the slots of the table, which has so many, tell of a use with this hash.
fn probe_table(
    module: &Module,
    info: &ModuleInfo,
    table: &[Option<Site>],
    slots: usize,
    hash: usize,
    used: &Use<'_>,
) -> Probe
    requires slots { 0 < slots }
    requires size { length table.now ≡ slots }
    requires hashed { AreHashed «module».now.types (groups_of «module».now info.now) table.now }
    requires hash { hash ≡ hash_of (operation «module».now.types used.now) }
    ensures { Probes «module».now.types (groups_of «module».now info.now) slots table.now
        (operation «module».now.types used.now) result }
{
    let own = hash % slots;
    for steps in 0..slots {
        let slot = slot_following(own, steps, slots);
        let Some(site) = table[slot] else {
            return Probe::Empty(slot);
        };
        if let Some(alike) = site_answer(module, info, site, hash, used) {
            return Probe::Seen(alike);
        }
    }
    Probe::Full
}

/// Whether operators with this hash are of the share.
fn has_hash(share: Share, hash: usize) -> bool
    ensures { result ≡ has_hash share hash }
{
    let remainder = hash % REMAINDERS;
    share.first <= remainder && remainder <= share.last
}

/// Whether the expression `index` of a group, which has this number, agrees with all uses of the
/// share that stand before it, if it is one. It is remembered then, as far as the table, which has so
/// many slots, has room.
fn use_agrees(
    module: &Module,
    info: &ModuleInfo,
    table: &mut [Option<Site>],
    slots: usize,
    share: Share,
    number: u128,
    group: Expressions<'_>,
    index: usize,
) -> Result<bool, Crowded>
    requires group { slice_get (groups_of «module».now info.now) number ≡ Some (group_of group) }
    requires agree { all_agree (share_uses share (earlier_uses «module».now.types
        (groups_of «module».now info.now) number (group_of group) index)) ≡ true }
    requires slots { 0 < slots }
    requires table { Remembers «module».now.types (groups_of «module».now info.now)
        (share_uses share (earlier_uses «module».now.types (groups_of «module».now info.now) number
        (group_of group) index)) slots table.now }
    ensures agree { IfOk result (λ agrees. agrees ≡ all_agree (share_uses share
        (earlier_uses «module».now.types (groups_of «module».now info.now) number
        (group_of group.entry) (suc index)))) }
    ensures table { IfOk result (λ agrees. agrees ≡ true →
        Remembers «module».now.types (groups_of «module».now info.now)
        (share_uses share (earlier_uses «module».now.types (groups_of «module».now info.now) number
        (group_of group.entry) (suc index))) slots table.new) }
    ensures crowded { OnErr result (share.first < share.last) }
{
    let types = &module.types;
    let Some(used) = use_in(types, group, index) else {
        return Ok(true);
    };
    let hash = hash_of(types, &used);
    if !has_hash(share, hash) {
        return Ok(true);
    }
    match probe_table(module, info, table, slots, hash, &used) {
        Probe::Empty(slot) => {
            table[slot] = Some(Site {
                group: number,
                index,
                hash,
            });
            Ok(true)
        }
        Probe::Seen(alike) => Ok(alike),
        Probe::Full => {
            if share.first < share.last {
                return Err(Crowded);
            }
            Ok(earlier_answer(module, info, number, group, index, &used).unwrap_or(true))
        }
    }
}

/// The first use of a group, which has this number, that is of the share and does not agree with all
/// of the share that stand before it, in the group or in the groups before it.
fn first_disagreeing(
    module: &Module,
    info: &ModuleInfo,
    table: &mut [Option<Site>],
    slots: usize,
    share: Share,
    number: u128,
    group: Expressions<'_>,
) -> Result<Option<usize>, Crowded>
    requires group { slice_get (groups_of «module».now info.now) number ≡ Some (group_of group) }
    requires agree { all_agree (share_uses share (group_uses «module».now.types
        (groups_of «module».now info.now) number)) ≡ true }
    requires slots { 0 < slots }
    requires table { Remembers «module».now.types (groups_of «module».now info.now)
        (share_uses share (group_uses «module».now.types (groups_of «module».now info.now) number))
        slots table.now }
    ensures agree { IfOk result (λ found. is_none found ≡ true → all_agree (share_uses share
        (group_uses «module».now.types (groups_of «module».now info.now) (suc number))) ≡ true) }
    ensures table { IfOk result (λ found. is_none found ≡ true →
        Remembers «module».now.types (groups_of «module».now info.now)
        (share_uses share (group_uses «module».now.types (groups_of «module».now info.now)
        (suc number))) slots table.new) }
    ensures fault { IfOk result (λ found. IfSome found (λ index. DisagreesFirst «module».now.types
        (groups_of «module».now info.now) (is_in share) number index)) }
    ensures crowded { OnErr result (share.first < share.last) }
{
    for index in 0..group.arena.len() {
        let agrees = use_agrees(module, info, table, slots, share, number, group, index)?;
        if !agrees {
            return Ok(Some(index));
        }
    }
    Ok(None)
}

/// The first use of the share that does not agree with all of the share that stand before it, by an
/// empty table of so many slots.
fn disagreement_by(
    module: &Module,
    info: &ModuleInfo,
    table: &mut [Option<Site>],
    slots: usize,
    share: Share,
) -> Result<Option<UsePosition>, Crowded>
    requires slots { 0 < slots }
    requires empty { table.old ≡ replicate slots None }
    ensures found { IfOk result (IsFirstDisagreement «module».now.types
        (groups_of «module».now info.now) (is_in share)) }
    ensures crowded { OnErr result (share.first < share.last) }
{
    let mut number = 0;
    while let Some(group) = group_at(module, info, number) {
        let found = first_disagreeing(module, info, table, slots, share, number, group)?;
        if let Some(index) = found {
            return Ok(Some(UsePosition {
                group: number,
                index,
            }));
        }
        number += 1;
    }
    Ok(None)
}

/// The same by the table. It stays out of the frames of the callers, which go as deep as has_common are
/// halved.
#[inline(never)]
fn large_disagreement(
    module: &Module,
    info: &ModuleInfo,
    share: Share,
) -> Result<Option<UsePosition>, Crowded>
    ensures found { IfOk result (IsFirstDisagreement «module».now.types
        (groups_of «module».now info.now) (is_in share)) }
    ensures crowded { OnErr result (share.first < share.last) }
{
    let mut table: [Option<Site>; SLOTS] = [None; SLOTS];
    disagreement_by(module, info, &mut table, SLOTS, share)
}

/// The same by the small table.
#[inline(never)]
fn small_disagreement(
    module: &Module,
    info: &ModuleInfo,
    share: Share,
) -> Result<Option<UsePosition>, Crowded>
    ensures found { IfOk result (IsFirstDisagreement «module».now.types
        (groups_of «module».now info.now) (is_in share)) }
    ensures crowded { OnErr result (share.first < share.last) }
{
    let mut table: [Option<Site>; FEW_SLOTS] = [None; FEW_SLOTS];
    disagreement_by(module, info, &mut table, FEW_SLOTS, share)
}

/// Whether the small table has room for all uses of the module, however many operators there are.
fn has_few_expressions(module: &Module) -> bool {
    let mut count = module.global_expressions.len();
    for (_, function) in module.functions.iter() {
        count = count.saturating_add(function.expressions.len());
        if count > FEW_SLOTS {
            return false;
        }
    }
    for entry_point in &module.entry_points {
        count = count.saturating_add(entry_point.function.expressions.len());
        if count > FEW_SLOTS {
            return false;
        }
    }
    count <= FEW_SLOTS
}

/// The same by the table that is as large as it need be: to empty it takes longer than to go through
/// a small module.
fn sized_disagreement(
    module: &Module,
    info: &ModuleInfo,
    share: Share,
) -> Result<Option<UsePosition>, Crowded>
    ensures found { IfOk result (IsFirstDisagreement «module».now.types
        (groups_of «module».now info.now) (is_in share)) }
    ensures crowded { OnErr result (share.first < share.last) }
{
    if has_few_expressions(module) {
        small_disagreement(module, info, share)
    } else {
        large_disagreement(module, info, share)
    }
}

fn stands_before(position: UsePosition, other: UsePosition) -> bool
    ensures { result ≡ stands_before position other }
{
    position.group < other.group || (position.group == other.group && position.index < other.index)
}

/// The one of two uses that stands before the other, where there are both.
fn earlier(found: Option<UsePosition>, other: Option<UsePosition>) -> Option<UsePosition>
    ensures { result ≡ earlier found other }
{
    let Some(position) = found else {
        return other;
    };
    let Some(further) = other else {
        return found;
    };
    if stands_before(position, further) {
        found
    } else {
        other
    }
}

/// The same, half by half where the table has no room.
fn first_disagreement(module: &Module, info: &ModuleInfo, share: Share) -> Option<UsePosition>
    ensures { IsFirstDisagreement «module».now.types (groups_of «module».now info.now) (is_in share)
        result }
{
    match sized_disagreement(module, info, share) {
        Ok(found) => found,
        Err(Crowded) => {
            let middle = share.first + (share.last - share.first) / 2;
            let front = Share {
                first: share.first,
                last: middle,
            };
            let back = Share {
                first: middle + 1,
                last: share.last,
            };
            let found = first_disagreement(module, info, front);
            earlier(found, first_disagreement(module, info, back))
        }
    }
}

/// The first use of an operator that does not agree with all that stand before it.
fn disagreement(module: &Module, info: &ModuleInfo) -> Option<UsePosition>
    ensures agree { is_none result ≡ module_operators_agree «module».now info.now }
    ensures fault { IfSome result
        (λ position. Disagrees «module».now info.now position.group position.index) }
{
    let all = Share {
        first: 0,
        last: REMAINDERS - 1,
    };
    first_disagreement(module, info, all)
}

/// Where an expression stands that is in the group of this number, with this number there.
pub(crate) fn use_item(module: &Module, number: u128, index: usize) -> FaultPosition
    ensures item { result ≡ use_item «module».now number index }
    ensures site { number ≤ length «module».now.functions + length «module».now.entry_points.items
        → site_of «module».now result ≡ Some (number, index) }
{
    let functions = module.functions.len() as u128;
    let expression = ItemIndex::from_index(index);
    if number < functions {
        let handle = ItemIndex::from_index(number as usize);
        return FaultPosition::Function(handle, FunctionPosition::Expression(expression));
    }
    let further = number - functions;
    if further < module.entry_points.len() as u128 {
        return FaultPosition::EntryPoint(
            further as usize,
            FunctionPosition::Expression(expression),
        );
    }
    FaultPosition::GlobalExpression(expression)
}

/// Where the first use of an operator stands that does not agree with all that stand before it
/// ([`operators_agree`]).
pub(crate) fn operators_fault(module: &Module, info: &ModuleInfo) -> Option<Unaccepted>
    ensures agree { is_none result ≡ module_operators_agree «module».now info.now }
    ensures fault { IfSome result (IsDisagreement «module».now info.now) }
{
    let position = disagreement(module, info)?;
    Some(at(
        use_item(module, position.group, position.index),
        Fault::Disagreement,
    ))
}

/// Whether any two operators in the module that are spelled alike, over operands of types alike,
/// have types alike, wherever they stand: in its functions, its entry points and its own
/// expressions.
/// Loads, derivatives and what is done with images are no operators here, since the world answers
/// them. Expressions of which nothing is known by `info` are not looked at.
///
/// It takes no memory. Time grows with the expressions, as long as there are no more than 509
/// operators over operands of different types, and otherwise with the expressions times the
/// operators: all uses are gone through once for some 270 of these. Only where hashes of more than
/// 509 operators are chosen to have one remainder, uses of further ones are looked for from the
/// start, each as far as the first of its operator.
pub fn operators_agree(module: &Module, info: &ModuleInfo) -> bool
    ensures { result ≡ module_operators_agree «module».now info.now }
{
    operators_fault(module, info).is_none()
}
