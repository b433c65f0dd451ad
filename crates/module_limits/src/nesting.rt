//! How deep a module is nested.

ghost use Rattle.std.specs.Prelude.{◌≡◌, IfOk, Some, map, nat_le};
ghost use Rattle.module_limits.specs.Blocks.{block_depth};
ghost use Rattle.module_limits.specs.Depths.{greatest};
ghost use Rattle.module_limits.specs.Nesting.{module_blocks_depth, module_operands_depth};
ghost use Rattle.module_limits.specs.Nesting.{nested_past, nested_text, operands_depth};

use crate::blocks::block_is_within;
use crate::depths::{globals_are_within, operands_are_within, types_are_within};
use naga_ir::{Arena, EntryPoint, Function, Module};
use std::alloc::{AllocError, Global};
use std::fmt;

/// What of a module is nested too deep.
#[derive(Clone, Copy, Debug, PartialEq, Eq)]
pub enum Nested {
    /// Statements in the blocks of others.
    Blocks,
    /// Types that are made of others: arrays and pointers over their bases, structs over the types
    /// of their members.
    Types,
    /// Expressions over their operands, and a module's own ones over the initialisers of constants
    /// without names, too.
    Operands,
}

impl fmt::Display for Nested {
    ghost output = { λ what. Some (nested_text what) };

    fn fmt<W: fmt::Write>(&self, f: &mut fmt::Formatter<W>) -> fmt::Result {
        f.write_str("nested too deep: ")?;
        f.write_str(match self {
            Nested::Blocks => "blocks",
            Nested::Types => "types",
            Nested::Operands => "operands",
        })
    }
}

/// What of the module is nested on more than so many levels, if anything is: the first of blocks,
/// types and operands. An item without parts makes one level.
///
/// It is for any module, accepted or not. Of an operand or a part of a type that does not stand in
/// front of what it is of, so that the module is not accepted, it takes no notice. It goes into
/// blocks no deeper than one level more than these, and into nothing else. It takes memory for a
/// number for each expression of one function at a time, for each of the module's own, and for each
/// type.
///
/// Calls that write a module, or ask whether it is accepted, go into its blocks, from there into
/// operands, from a constant there into the module's own expressions, and from each of these into
/// types: no deeper than four times these levels in all. So a host that asks this first knows how
/// much of the stack they take: `docs/SPEED.md` says it.
///
/// ```text
/// match nested_past(alloc, &module, 4_000)? {
///     None => println!(rt; "flat enough")?,
///     Some(nested) => println!(rt; "{nested}")?, // as `nested too deep: operands`
/// }
/// ```
pub fn nested_past(
    alloc: Global,
    module: &Module,
    levels: usize,
) -> Result<Option<Nested>, AllocError>
    ensures { IfOk result (λ r. r ≡ nested_past levels «module».now) }
{
    if !blocks_are_within(module, levels) {
        return Ok(Some(Nested::Blocks));
    }
    if !types_are_within(alloc, &module.types, levels)? {
        return Ok(Some(Nested::Types));
    }
    if !module_operands_are_within(alloc, module, levels)? {
        return Ok(Some(Nested::Operands));
    }
    Ok(None)
}

fn blocks_are_within(module: &Module, levels: usize) -> bool
    ensures { result ≡ nat_le (module_blocks_depth «module».now) levels }
{
    functions_blocks_are_within(&module.functions, levels)
        && entry_points_blocks_are_within(&module.entry_points, levels)
}

fn functions_blocks_are_within(functions: &Arena<Function>, levels: usize) -> bool
    ensures { result ≡ nat_le (greatest (map (λ f. block_depth f.body) functions.now)) levels }
{
    for (_, function) in functions.iter() {
        if !block_is_within(&function.body, levels) {
            return false;
        }
    }
    true
}

fn entry_points_blocks_are_within(points: &[EntryPoint], levels: usize) -> bool
    ensures { result
        ≡ nat_le (greatest (map (λ p. block_depth p.function.body) points.now)) levels }
{
    for point in points {
        if !block_is_within(&point.function.body, levels) {
            return false;
        }
    }
    true
}

fn module_operands_are_within(
    alloc: Global,
    module: &Module,
    levels: usize,
) -> Result<bool, AllocError>
    ensures { IfOk result (λ r. r ≡ nat_le (module_operands_depth «module».now) levels) }
{
    Ok(
        globals_are_within(alloc, &module.constants, &module.global_expressions, levels)?
            && functions_operands_are_within(alloc, &module.functions, levels)?
            && entry_points_operands_are_within(alloc, &module.entry_points, levels)?,
    )
}

fn functions_operands_are_within(
    alloc: Global,
    functions: &Arena<Function>,
    levels: usize,
) -> Result<bool, AllocError>
    ensures { IfOk result (λ r. r ≡ nat_le (greatest (map operands_depth functions.now)) levels) }
{
    for (_, function) in functions.iter() {
        if !operands_are_within(alloc, &function.expressions, levels)? {
            return Ok(false);
        }
    }
    Ok(true)
}

fn entry_points_operands_are_within(
    alloc: Global,
    points: &[EntryPoint],
    levels: usize,
) -> Result<bool, AllocError>
    ensures { IfOk result (λ r. r
        ≡ nat_le (greatest (map (λ p. operands_depth p.function) points.now)) levels) }
{
    for point in points {
        if !operands_are_within(alloc, &point.function.expressions, levels)? {
            return Ok(false);
        }
    }
    Ok(true)
}
