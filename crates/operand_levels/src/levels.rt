//! On which level each expression stands, and which of them are to be bound for it.

ghost use Rattle.std.specs.Prelude.{◌≡◌, IfOk, IsFalse, IsTrue, OnOk};
ghost use Rattle.naga_ir.specs.Operands.{expression_operands};
ghost use Rattle.std.specs.Prelude.{map};
ghost use Rattle.module_semantics.specs.acceptance.Accepted.{is_accepted};
ghost use Rattle.operand_levels.specs.Levels.{all_bound_where_deep, bound_where_deep, can_be_bound};
ghost use Rattle.operand_levels.specs.Levels.{is_bound, is_too_deep, level_at, level_over};
ghost use Rattle.operand_levels.specs.Levels.{level_left, next_level, raised_uses};
ghost use Rattle.operand_levels.specs.Levels.{raised_where_deep, uses_at, with_bound, with_raised};
ghost use Rattle.operand_levels.specs.Raised.{AllRaised, AllShallow, AreRaised};

use naga_back::BakeRefCount;
use naga_info::{ExpressionInfo, FunctionInfo, ModuleInfo};
use naga_ir::{Arena, EntryPoint, Expression, Function, Handle, Module};
use std::alloc::{AllocError, Global};

/// On how many levels operands may stand in one another before a `let` binds one: 60. An operator
/// has two pairs of brackets at most, and a compiler of WGSL takes 127 pairs in one another.
pub const MOST_LEVELS: usize = 60;

/// From how many uses on a `let` binds an expression, where a number of uses binds it.
const USES_TO_BIND: usize = 2;

fn level_at(levels: &[usize], handle: Handle<Expression>) -> usize
    ensures { result ≡ level_at levels.now handle }
{
    match levels.get(handle.index()) {
        Some(level) => *level,
        None => 0,
    }
}

/// One level more, counted no further than one past the most.
fn next_level(level: usize) -> usize
    ensures { result ≡ next_level level }
{
    if level > MOST_LEVELS {
        level
    } else {
        level + 1
    }
}

/// The level of an expression, one past that of its deepest operand.
fn level_over(levels: &[usize], expression: &Expression) -> usize
    ensures { result ≡ level_over levels.now (expression_operands expression.now) }
{
    let mut level = 0;
    for operand in expression.operands() {
        level = level.max(next_level(level_at(levels, operand)));
    }
    level
}

/// Whether a count of uses binds the expression; of an access none does.
fn can_be_bound(expression: &Expression) -> bool
    ensures { result ≡ can_be_bound expression.now }
{
    expression.bake_ref_count() <= USES_TO_BIND
}

fn is_too_deep(expression: &Expression, level: usize) -> bool
    ensures { result ≡ is_too_deep expression.now level }
{
    level > MOST_LEVELS && can_be_bound(expression)
}

fn uses_at(infos: &[ExpressionInfo], handle: Handle<Expression>) -> usize
    ensures { result ≡ uses_at infos.now handle }
{
    match infos.get(handle.index()) {
        Some(info) => info.ref_count,
        None => 0,
    }
}

/// Whether a front end named the expression with this handle, or it is used so often that a `let`
/// binds it.
fn is_bound(
    function: &Function,
    handle: Handle<Expression>,
    expression: &Expression,
    uses: usize,
) -> bool
    ensures { result ≡ is_bound function.now handle expression.now uses }
{
    function.named_expressions.contains_key(&handle) || expression.bake_ref_count() <= uses
}

/// As many uses as bind an expression, where it is used at all: what is not used is not written.
fn raised_uses(uses: usize) -> usize
    ensures { result ≡ raised_uses uses }
{
    if uses == 0 { 0 } else { uses.max(USES_TO_BIND) }
}

/// Raises the uses of the expression with this handle to as many as bind it.
#[tactic(auto, using(crate::proofs::Raising::with_raised_set, crate::proofs::Raising::with_raised_past))]
fn raise_uses(infos: &mut [ExpressionInfo], handle: Handle<Expression>)
    ensures { infos.new ≡ with_raised infos.old handle }
{
    let index = handle.index();
    if index < infos.len() {
        let info = &mut infos[index];
        info.ref_count = raised_uses(info.ref_count);
    }
}

/// Raises the uses of an expression that stands too deep. It gives the level that its uses stand on, and
/// whether it stood too deep.
#[tactic(auto, using(crate::proofs::Raising::raised_at_once, crate::proofs::Raising::are_raised_still))]
fn bind_expression(
    infos: &mut [ExpressionInfo],
    levels: &[usize],
    function: &Function,
    handle: Handle<Expression>,
    expression: &Expression,
) -> (usize, bool)
    ensures known { infos.new ≡
        raised_where_deep infos.old (handle, expression.now)
        (level_over levels.now (expression_operands expression.now)) }
    ensures level { result.0 ≡ level_left function.now infos.new (handle, expression.now)
        (level_over levels.now (expression_operands expression.now)) }
    ensures deep { result.1 ≡ is_too_deep expression.now
        (level_over levels.now (expression_operands expression.now)) }
    ensures raised { AreRaised infos.old infos.new }
{
    let level = level_over(levels, expression);
    let is_deep = is_too_deep(expression, level);
    if is_deep {
        raise_uses(infos, handle);
    }
    if is_bound(function, handle, expression, uses_at(infos, handle)) {
        (0, is_deep)
    } else {
        (level, is_deep)
    }
}

/// Raises the uses of a function's expressions that stand too deep, and says whether one did.
#[tactic(auto, using(crate::proofs::Raising::begins, crate::proofs::Raising::goes_on, crate::proofs::Raising::are_through, crate::proofs::Raising::are_raised_still))]
fn bind_in_function(
    alloc: Global,
    infos: &mut [ExpressionInfo],
    function: &Function,
) -> Result<bool, AllocError>
    ensures bound { OnOk result (infos.new ≡ bound_where_deep function.now infos.old) }
    ensures unchanged { IfOk result (λ raises. IsFalse raises → infos.new ≡ infos.old) }
    ensures raised { AreRaised infos.old infos.new }
{
    let mut levels = Vec::new(alloc);
    let mut raises = false;
    for (handle, expression) in function.expressions.iter() {
        let (level, is_deep) = bind_expression(
            infos,
            levels.as_slice(),
            function,
            handle,
            expression,
        );
        levels.push(level)?;
        raises |= is_deep;
    }
    Ok(raises)
}

/// The same of the function with this index, if something is known of it.
#[tactic(auto, using(crate::proofs::Raising::with_bound_set, crate::proofs::Raising::with_bound_past, crate::proofs::Raising::set_raised, crate::proofs::Raising::all_raised_still))]
fn bind_at(
    alloc: Global,
    infos: &mut [FunctionInfo],
    index: usize,
    function: &Function,
) -> Result<bool, AllocError>
    ensures bound { OnOk result (infos.new ≡ with_bound infos.old index function.now) }
    ensures unchanged { IfOk result (λ raises. IsFalse raises → infos.new ≡ infos.old) }
    ensures raised { AllRaised infos.old infos.new }
{
    if index < infos.len() {
        let info = &mut infos[index];
        bind_in_function(alloc, info.expressions.as_mut_slice(), function)
    } else {
        Ok(false)
    }
}

#[tactic(auto, using(crate::proofs::Raising::all_begin, crate::proofs::Raising::all_go_on, crate::proofs::Raising::all_through, crate::proofs::Raising::all_raised_still))]
fn bind_in_functions(
    alloc: Global,
    infos: &mut [FunctionInfo],
    functions: &Arena<Function>,
) -> Result<bool, AllocError>
    ensures bound { OnOk result (infos.new ≡ all_bound_where_deep functions.now infos.old) }
    ensures unchanged { IfOk result (λ raises. IsFalse raises → infos.new ≡ infos.old) }
    ensures raised { AllRaised infos.old infos.new }
{
    let mut raises = false;
    for (handle, function) in functions.iter() {
        raises |= bind_at(alloc, infos, handle.index(), function)?;
    }
    Ok(raises)
}

#[tactic(auto, using(crate::proofs::Raising::points_go_on, crate::proofs::Raising::points_end, crate::proofs::Raising::all_bound, crate::proofs::Raising::all_through, crate::proofs::Raising::all_raised_still))]
fn bind_in_entry_points(
    alloc: Global,
    infos: &mut [FunctionInfo],
    entry_points: &[EntryPoint],
) -> Result<bool, AllocError>
    ensures bound { OnOk result (infos.new ≡
        all_bound_where_deep (map (λ p. p.function) entry_points.now) infos.old) }
    ensures unchanged { IfOk result (λ raises. IsFalse raises → infos.new ≡ infos.old) }
    ensures raised { AllRaised infos.old infos.new }
{
    let mut raises = false;
    for (index, entry_point) in entry_points.iter().enumerate() {
        raises |= bind_at(alloc, infos, index, &entry_point.function)?;
    }
    Ok(raises)
}

/// Raises the count of each expression that would stand deeper in a text than on the last level
/// ([`MOST_LEVELS`]), so that a `let` binds it where it is emitted. What stands over it uses its name.
/// So a sum of 300 terms that is emitted gets four `let`s.
///
/// It is called after [`count`](naga_acceptance::count), which makes counts anew, and before a module
/// is written. A count of two or more stays as it is, and so does that of an access, which no count
/// binds: accesses in accesses may stand deeper, and so may constants that no `Emit`
/// gives, and the module's own expressions. No count gets less, nothing else changes, and a module
/// that was accepted before is accepted after.
///
/// `false` says that nothing stands too deep, so no count is another. An `Err` says that memory was
/// refused. Some counts are raised then, and a further call goes on.
///
/// A `let` can stand where a use of its name is out of scope, though the expression itself could be
/// written there: behind a `continue`, of an operand that the `continuing` block uses. So where a writer
/// refuses the module with raised counts, it is to be asked once more with the counts as they were:
///
/// ```text
/// count(&mut shader.info, &shader.module);
/// if bind_deep_operands(alloc, &mut shader.info, &shader.module)?
///     && unwritable(alloc, &shader.module, &shader.info, flags)?.is_some()
/// {
///     count(&mut shader.info, &shader.module);
/// }
/// let text = write_string(alloc, &shader.module, &shader.info, flags)?;
/// ```
#[tactic(auto, using(crate::proofs::Shallow::all_shallow, crate::proofs::Accepted::still_accepted))]
pub fn bind_deep_operands(
    alloc: Global,
    info: &mut ModuleInfo,
    module: &Module,
) -> Result<bool, AllocError>
    ensures functions { OnOk result (info.new.functions.items ≡
        all_bound_where_deep «module».now.functions info.old.functions.items) }
    ensures entry_points { OnOk result (info.new.entry_points.items ≡
        all_bound_where_deep (map (λ p. p.function) «module».now.entry_points.items)
        info.old.entry_points.items) }
    ensures shallow { OnOk result
        (AllShallow «module».now.functions info.new.functions.items
        × AllShallow (map (λ p. p.function) «module».now.entry_points.items)
        info.new.entry_points.items) }
    ensures raised { AllRaised info.old.functions.items info.new.functions.items
        × AllRaised info.old.entry_points.items info.new.entry_points.items }
    ensures unchanged { IfOk result (λ raises. IsFalse raises →
        (info.new.functions.items ≡ info.old.functions.items)
        × (info.new.entry_points.items ≡ info.old.entry_points.items)) }
    ensures types { info.new.const_expression_types ≡ info.old.const_expression_types }
    ensures accepted { IsTrue (is_accepted «module».now info.old) →
        IsTrue (is_accepted «module».now info.new) }
{
    let in_functions = bind_in_functions(alloc, info.functions.as_mut_slice(), &module.functions)?;
    let in_entry_points = bind_in_entry_points(
        alloc,
        info.entry_points.as_mut_slice(),
        &module.entry_points,
    )?;
    Ok(in_functions | in_entry_points)
}
