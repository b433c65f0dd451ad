//! Statements, whose blocks nest.

ghost use Rattle.json.specs.Value.{value_view};
ghost use Rattle.naga_ir.specs.StatementViews.{tree_of};
ghost use Rattle.std.specs.Prelude.{Some, map};
ghost use Rattle.json.specs.Find.{get};
ghost use Rattle.naga_ir.specs.StatementTree.{BlockTree, no_statements};
ghost use Rattle.naga_json.specs.Said.{Gives, entry_of, list_said, member_said, or_absent, same};
ghost use Rattle.naga_json.specs.Statements.{return_said, simple_said, statement_names};
ghost use Rattle.naga_json.specs.Statements.{block_said, most_levels, statement_said};
ghost use Rattle.naga_json.specs.Statements.{statement_payload};
ghost use Rattle.naga_json.specs.Statements.{if_said, loop_said, switch_said, case_said, seen_case};
ghost use Rattle.naga_json.specs.Statements.{switch_value_names, switch_value_payload};
ghost use Rattle.naga_json.specs.Statements.{switch_value_said, ray_pipeline_function_names};
ghost use Rattle.naga_json.specs.Statements.{trace_ray_said, ray_pipeline_function_payload};
ghost use Rattle.naga_json.specs.Statements.{ray_pipeline_function_said, store_said};
ghost use Rattle.naga_json.specs.Statements.{image_store_said, atomic_said, image_atomic_said};
ghost use Rattle.naga_json.specs.Statements.{work_group_uniform_load_said, call_said};
ghost use Rattle.naga_json.specs.Statements.{ray_query_said, subgroup_ballot_said};
ghost use Rattle.naga_json.specs.Statements.{subgroup_gather_said};
ghost use Rattle.naga_json.specs.Statements.{subgroup_collective_operation_said};
ghost use Rattle.naga_json.specs.Statements.{cooperative_store_said, range_said};

use crate::error::{JsonKind, Problem, ReadError};
use crate::let_be;
use crate::shape::{
    FromJson, Variants, entry_named, expect_members, expect_members_beside, in_item, in_member,
    items_of, member, missing, mistyped, named_variant, optional_member, read_variant, unit,
};
use json::Value;
use naga_ir::{Block, Range, RayPipelineFunction, Statement, SwitchCase, SwitchValue};
use std::alloc::Global;

/// The variants of [`SwitchValue`].
#[derive(Clone, Copy)]
pub(crate) enum SwitchValueName {
    I32,
    U32,
    Default,
}

/// The names of [`SwitchValue`].
const SWITCH_VALUE_NAMES: &[(&str, SwitchValueName)] = &[
    ("I32", SwitchValueName::I32),
    ("U32", SwitchValueName::U32),
    ("Default", SwitchValueName::Default),
];

impl FromJson for SwitchValue {
    ghost Seen = { Self };

    ghost seen = { same };

    ghost said = { switch_value_said };

    fn from_json(alloc: Global, value: &Value) -> Result<SwitchValue, ReadError> {
        read_variant(alloc, value)
    }
}

impl Variants for SwitchValue {
    type Name = SwitchValueName;

    ghost Sight = { Self };

    ghost sight = { same };

    ghost table = { switch_value_names };

    ghost payload_said = { switch_value_payload };

    fn names() -> &'static [(&'static str, SwitchValueName)] {
        SWITCH_VALUE_NAMES
    }

    fn from_payload(
        alloc: Global,
        variant: SwitchValueName,
        payload: &Value,
    ) -> Result<SwitchValue, ReadError> {
        match variant {
            SwitchValueName::I32 => Ok(SwitchValue::I32(FromJson::from_json(alloc, payload)?)),
            SwitchValueName::U32 => Ok(SwitchValue::U32(FromJson::from_json(alloc, payload)?)),
            SwitchValueName::Default => unit(alloc, payload, SwitchValue::Default),
        }
    }
}

/// The variants of [`RayPipelineFunction`].
#[derive(Clone, Copy)]
pub(crate) enum RayPipelineFunctionName {
    TraceRay,
}

/// The names of [`RayPipelineFunction`].
const RAY_PIPELINE_FUNCTION_NAMES: &[(&str, RayPipelineFunctionName)] = &[(
    "TraceRay",
    RayPipelineFunctionName::TraceRay,
)];

impl FromJson for RayPipelineFunction {
    ghost Seen = { Self };

    ghost seen = { same };

    ghost said = { ray_pipeline_function_said };

    fn from_json(alloc: Global, value: &Value) -> Result<RayPipelineFunction, ReadError> {
        read_variant(alloc, value)
    }
}

impl Variants for RayPipelineFunction {
    type Name = RayPipelineFunctionName;

    ghost Sight = { Self };

    ghost sight = { same };

    ghost table = { ray_pipeline_function_names };

    ghost payload_said = { ray_pipeline_function_payload };

    fn names() -> &'static [(&'static str, RayPipelineFunctionName)] {
        RAY_PIPELINE_FUNCTION_NAMES
    }

    fn from_payload(
        alloc: Global,
        variant: RayPipelineFunctionName,
        payload: &Value,
    ) -> Result<RayPipelineFunction, ReadError> {
        match variant {
            RayPipelineFunctionName::TraceRay => trace_ray(alloc, payload),
        }
    }
}

fn trace_ray(alloc: Global, payload: &Value) -> Result<RayPipelineFunction, ReadError>
    ensures { Gives same (trace_ray_said (value_view payload.now)) result }
{
    expect_members(
        alloc,
        payload,
        &["acceleration_structure", "descriptor", "payload"],
    )?;
    Ok(RayPipelineFunction::TraceRay {
        acceleration_structure: member(alloc, payload, "acceleration_structure")?,
        descriptor: member(alloc, payload, "descriptor")?,
        payload: member(alloc, payload, "payload")?,
    })
}

/// The statements without blocks.
#[derive(Clone, Copy)]
pub(crate) enum SimpleName {
    Emit,
    Break,
    Continue,
    Return,
    Kill,
    ControlBarrier,
    MemoryBarrier,
    Store,
    ImageStore,
    Atomic,
    ImageAtomic,
    WorkGroupUniformLoad,
    Call,
    RayQuery,
    SubgroupBallot,
    SubgroupGather,
    SubgroupCollectiveOperation,
    CooperativeStore,
    RayPipelineFunction,
}

/// The statements.
#[derive(Clone, Copy)]
pub(crate) enum StatementName {
    Block,
    If,
    Switch,
    Loop,
    Simple(SimpleName),
}

/// The names of [`Statement`].
const STATEMENT_NAMES: &[(&str, StatementName)] = &[
    ("Block", StatementName::Block),
    ("If", StatementName::If),
    ("Switch", StatementName::Switch),
    ("Loop", StatementName::Loop),
    ("Emit", StatementName::Simple(SimpleName::Emit)),
    ("Break", StatementName::Simple(SimpleName::Break)),
    ("Continue", StatementName::Simple(SimpleName::Continue)),
    ("Return", StatementName::Simple(SimpleName::Return)),
    ("Kill", StatementName::Simple(SimpleName::Kill)),
    (
        "ControlBarrier",
        StatementName::Simple(SimpleName::ControlBarrier),
    ),
    (
        "MemoryBarrier",
        StatementName::Simple(SimpleName::MemoryBarrier),
    ),
    ("Store", StatementName::Simple(SimpleName::Store)),
    ("ImageStore", StatementName::Simple(SimpleName::ImageStore)),
    ("Atomic", StatementName::Simple(SimpleName::Atomic)),
    (
        "ImageAtomic",
        StatementName::Simple(SimpleName::ImageAtomic),
    ),
    (
        "WorkGroupUniformLoad",
        StatementName::Simple(SimpleName::WorkGroupUniformLoad),
    ),
    ("Call", StatementName::Simple(SimpleName::Call)),
    ("RayQuery", StatementName::Simple(SimpleName::RayQuery)),
    (
        "SubgroupBallot",
        StatementName::Simple(SimpleName::SubgroupBallot),
    ),
    (
        "SubgroupGather",
        StatementName::Simple(SimpleName::SubgroupGather),
    ),
    (
        "SubgroupCollectiveOperation",
        StatementName::Simple(SimpleName::SubgroupCollectiveOperation),
    ),
    (
        "CooperativeStore",
        StatementName::Simple(SimpleName::CooperativeStore),
    ),
    (
        "RayPipelineFunction",
        StatementName::Simple(SimpleName::RayPipelineFunction),
    ),
];

/// The variant of this name.
fn statement_named(alloc: Global, name: &str) -> Result<StatementName, ReadError>
    ensures { Gives same (entry_of statement_names name.now) result }
{
    entry_named(alloc, name, STATEMENT_NAMES)
}

/// A statement without blocks.
fn simple(alloc: Global, name: SimpleName, payload: &Value) -> Result<Statement, ReadError>
    ensures { Gives tree_of (simple_said name (value_view payload.now)) result }
{
    match name {
        SimpleName::Emit => Ok(Statement::Emit(FromJson::from_json(alloc, payload)?)),
        SimpleName::Break => unit(alloc, payload, Statement::Break),
        SimpleName::Continue => unit(alloc, payload, Statement::Continue),
        SimpleName::Return => return_of(alloc, payload),
        SimpleName::Kill => unit(alloc, payload, Statement::Kill),
        SimpleName::ControlBarrier => Ok(Statement::ControlBarrier(FromJson::from_json(
            alloc, payload,
        )?)),
        SimpleName::MemoryBarrier => Ok(Statement::MemoryBarrier(FromJson::from_json(
            alloc, payload,
        )?)),
        SimpleName::Store => store(alloc, payload),
        SimpleName::ImageStore => image_store(alloc, payload),
        SimpleName::Atomic => atomic(alloc, payload),
        SimpleName::ImageAtomic => image_atomic(alloc, payload),
        SimpleName::WorkGroupUniformLoad => work_group_uniform_load(alloc, payload),
        SimpleName::Call => call(alloc, payload),
        SimpleName::RayQuery => ray_query(alloc, payload),
        SimpleName::SubgroupBallot => subgroup_ballot(alloc, payload),
        SimpleName::SubgroupGather => subgroup_gather(alloc, payload),
        SimpleName::SubgroupCollectiveOperation => subgroup_collective_operation(alloc, payload),
        SimpleName::CooperativeStore => cooperative_store(alloc, payload),
        SimpleName::RayPipelineFunction => Ok(Statement::RayPipelineFunction(FromJson::from_json(
            alloc, payload,
        )?)),
    }
}

fn return_of(alloc: Global, payload: &Value) -> Result<Statement, ReadError>
    ensures { Gives tree_of (return_said (value_view payload.now)) result }
{
    if payload.is_null() {
        return Ok(Statement::Return { value: None });
    }
    expect_members(alloc, payload, &["value"])?;
    Ok(Statement::Return {
        value: optional_member(alloc, payload, "value")?,
    })
}

fn store(alloc: Global, payload: &Value) -> Result<Statement, ReadError>
    ensures { Gives tree_of (store_said (value_view payload.now)) result }
{
    expect_members(alloc, payload, &["pointer", "value"])?;
    Ok(Statement::Store {
        pointer: member(alloc, payload, "pointer")?,
        value: member(alloc, payload, "value")?,
    })
}

fn image_store(alloc: Global, payload: &Value) -> Result<Statement, ReadError>
    ensures { Gives tree_of (image_store_said (value_view payload.now)) result }
{
    expect_members(
        alloc,
        payload,
        &["image", "coordinate", "array_index", "value"],
    )?;
    Ok(Statement::ImageStore {
        image: member(alloc, payload, "image")?,
        coordinate: member(alloc, payload, "coordinate")?,
        array_index: optional_member(alloc, payload, "array_index")?,
        value: member(alloc, payload, "value")?,
    })
}

fn atomic(alloc: Global, payload: &Value) -> Result<Statement, ReadError>
    ensures { Gives tree_of (atomic_said (value_view payload.now)) result }
{
    expect_members(alloc, payload, &["pointer", "fun", "value", "result"])?;
    Ok(Statement::Atomic {
        pointer: member(alloc, payload, "pointer")?,
        fun: member(alloc, payload, "fun")?,
        value: member(alloc, payload, "value")?,
        result: optional_member(alloc, payload, "result")?,
    })
}

fn image_atomic(alloc: Global, payload: &Value) -> Result<Statement, ReadError>
    ensures { Gives tree_of (image_atomic_said (value_view payload.now)) result }
{
    expect_members(
        alloc,
        payload,
        &["image", "coordinate", "array_index", "fun", "value"],
    )?;
    Ok(Statement::ImageAtomic {
        image: member(alloc, payload, "image")?,
        coordinate: member(alloc, payload, "coordinate")?,
        array_index: optional_member(alloc, payload, "array_index")?,
        fun: member(alloc, payload, "fun")?,
        value: member(alloc, payload, "value")?,
    })
}

fn work_group_uniform_load(alloc: Global, payload: &Value) -> Result<Statement, ReadError>
    ensures { Gives tree_of (work_group_uniform_load_said (value_view payload.now)) result }
{
    expect_members(alloc, payload, &["pointer", "result"])?;
    Ok(Statement::WorkGroupUniformLoad {
        pointer: member(alloc, payload, "pointer")?,
        result: member(alloc, payload, "result")?,
    })
}

fn call(alloc: Global, payload: &Value) -> Result<Statement, ReadError>
    ensures { Gives tree_of (call_said (value_view payload.now)) result }
{
    expect_members(alloc, payload, &["function", "arguments", "result"])?;
    Ok(Statement::Call {
        function: member(alloc, payload, "function")?,
        arguments: member(alloc, payload, "arguments")?,
        result: optional_member(alloc, payload, "result")?,
    })
}

fn ray_query(alloc: Global, payload: &Value) -> Result<Statement, ReadError>
    ensures { Gives tree_of (ray_query_said (value_view payload.now)) result }
{
    expect_members_beside(alloc, payload, &["query"], let_be::OF_RAY_QUERY)?;
    Ok(Statement::RayQuery {
        query: member(alloc, payload, "query")?,
    })
}

fn subgroup_ballot(alloc: Global, payload: &Value) -> Result<Statement, ReadError>
    ensures { Gives tree_of (subgroup_ballot_said (value_view payload.now)) result }
{
    expect_members(alloc, payload, &["result", "predicate"])?;
    Ok(Statement::SubgroupBallot {
        result: member(alloc, payload, "result")?,
        predicate: optional_member(alloc, payload, "predicate")?,
    })
}

fn subgroup_gather(alloc: Global, payload: &Value) -> Result<Statement, ReadError>
    ensures { Gives tree_of (subgroup_gather_said (value_view payload.now)) result }
{
    expect_members(alloc, payload, &["mode", "argument", "result"])?;
    Ok(Statement::SubgroupGather {
        mode: member(alloc, payload, "mode")?,
        argument: member(alloc, payload, "argument")?,
        result: member(alloc, payload, "result")?,
    })
}

fn subgroup_collective_operation(alloc: Global, payload: &Value) -> Result<Statement, ReadError>
    ensures { Gives tree_of (subgroup_collective_operation_said (value_view payload.now)) result }
{
    expect_members(
        alloc,
        payload,
        &["op", "collective_op", "argument", "result"],
    )?;
    Ok(Statement::SubgroupCollectiveOperation {
        op: member(alloc, payload, "op")?,
        collective_op: member(alloc, payload, "collective_op")?,
        argument: member(alloc, payload, "argument")?,
        result: member(alloc, payload, "result")?,
    })
}

fn cooperative_store(alloc: Global, payload: &Value) -> Result<Statement, ReadError>
    ensures { Gives tree_of (cooperative_store_said (value_view payload.now)) result }
{
    expect_members(alloc, payload, &["target", "data"])?;
    Ok(Statement::CooperativeStore {
        target: member(alloc, payload, "target")?,
        data_: member(alloc, payload, "data")?,
    })
}

/// How deep blocks may nest. A text nests 127 deep, and each block takes two of these levels.
const MOST_LEVELS: u32 = 64;

impl FromJson for Range {
    ghost Seen = { Self };

    ghost seen = { same };

    ghost said = { range_said };

    fn from_json(alloc: Global, value: &Value) -> Result<Range, ReadError> {
        expect_members(alloc, value, &["start", "end"])?;
        Ok(Range {
            first: member(alloc, value, "start")?,
            end: member(alloc, value, "end")?,
        })
    }
}

impl FromJson for Block {
    ghost Seen = { BlockTree };

    ghost seen = { same };

    ghost said = { block_said most_levels };

    fn from_json(alloc: Global, value: &Value) -> Result<Block, ReadError> {
        block(alloc, value, MOST_LEVELS)
    }
}

/// The block, whose blocks nest at most `levels` deep.
#[cycle(statements)]
fn block(alloc: Global, value: &Value, levels: u32) -> Result<Block, ReadError>
    ensures { Gives same (block_said levels (value_view value.now)) result }
{
    let items = items_of(alloc, value)?;
    if levels == 0 {
        return Err(ReadError::at(alloc, Problem::TooDeep));
    }
    let mut read = Vec::new(alloc);
    for (index, item) in items.iter().enumerate() {
        read.push(in_item(alloc, index, statement(alloc, item, levels - 1))?)?;
    }
    Ok(Block::from_vec(read))
}

#[cycle(statements)]
fn statement(alloc: Global, value: &Value, levels: u32) -> Result<Statement, ReadError>
    ensures { Gives tree_of (statement_said (block_said levels) (value_view value.now)) result }
{
    let null = Value::Null;
    let Some(found) = named_variant(&*value, &null) else {
        return Err(mistyped(alloc, JsonKind::Variant));
    };
    let name = statement_named(alloc, found.name)?;
    in_member(
        alloc,
        found.name,
        named_statement(alloc, name, found.payload, levels),
    )
}

#[cycle(statements)]
fn named_statement(
    alloc: Global,
    name: StatementName,
    payload: &Value,
    levels: u32,
) -> Result<Statement, ReadError>
    ensures { Gives tree_of
        (statement_payload (block_said levels) name (value_view payload.now)) result }
{
    match name {
        StatementName::Block => Ok(Statement::Block(block(alloc, payload, levels)?)),
        StatementName::If => if_else(alloc, payload, levels),
        StatementName::Switch => switch(alloc, payload, levels),
        StatementName::Loop => loop_of(alloc, payload, levels),
        StatementName::Simple(name) => simple(alloc, name, payload),
    }
}

/// The block that is the member of this name.
#[cycle(statements)]
fn member_block(alloc: Global, payload: &Value, name: &str, levels: u32) -> Result<Block, ReadError>
    ensures { Gives same
        (member_said (block_said levels) name.now (value_view payload.now)) result }
{
    match payload.get(name) {
        Some(found) => in_member(alloc, name, block(alloc, found, levels)),
        None => in_member(alloc, name, Err(missing(alloc))),
    }
}

/// The block that is the member of this name; absent, one without statements.
#[cycle(statements)]
fn block_if_told(
    alloc: Global,
    payload: &Value,
    name: &str,
    levels: u32,
) -> Result<Block, ReadError>
    ensures { Gives same (or_absent (block_said levels) (Some no_statements)
        (get name.now (value_view payload.now))) result }
{
    match payload.get(name) {
        Some(found) => in_member(alloc, name, block(alloc, found, levels)),
        None => Ok(Block::new(alloc)),
    }
}

#[cycle(statements)]
fn if_else(alloc: Global, payload: &Value, levels: u32) -> Result<Statement, ReadError>
    ensures { Gives tree_of (if_said (block_said levels) (value_view payload.now)) result }
{
    expect_members(alloc, payload, &["condition", "accept", "reject"])?;
    let condition = member(alloc, payload, "condition")?;
    let accept = member_block(alloc, payload, "accept", levels)?;
    let reject = block_if_told(alloc, payload, "reject", levels)?;
    Ok(Statement::If {
        condition,
        accept,
        reject,
    })
}

#[cycle(statements)]
fn loop_of(alloc: Global, payload: &Value, levels: u32) -> Result<Statement, ReadError>
    ensures { Gives tree_of (loop_said (block_said levels) (value_view payload.now)) result }
{
    expect_members(alloc, payload, &["break_if", "body", "continuing"])?;
    let break_if = optional_member(alloc, payload, "break_if")?;
    let body = member_block(alloc, payload, "body", levels)?;
    let continuing = block_if_told(alloc, payload, "continuing", levels)?;
    Ok(Statement::Loop {
        body,
        continuing,
        break_if,
    })
}

#[cycle(statements)]
fn switch(alloc: Global, payload: &Value, levels: u32) -> Result<Statement, ReadError>
    ensures { Gives tree_of (switch_said (block_said levels) (value_view payload.now)) result }
{
    expect_members(alloc, payload, &["selector", "cases"])?;
    let selector = member(alloc, payload, "selector")?;
    let cases = match payload.get("cases") {
        Some(listed) => cases_of(alloc, listed, levels),
        None => Err(missing(alloc)),
    };
    Ok(Statement::Switch {
        selector,
        cases: in_member(alloc, "cases", cases)?,
    })
}

#[cycle(statements)]
fn cases_of(alloc: Global, value: &Value, levels: u32) -> Result<Vec<SwitchCase>, ReadError>
    ensures { Gives (λ cases. map seen_case cases.items)
        (list_said (case_said (block_said levels)) (value_view value.now)) result }
{
    let items = items_of(alloc, value)?;
    let mut read = Vec::new(alloc);
    for (index, item) in items.iter().enumerate() {
        read.push(in_item(alloc, index, case_of(alloc, item, levels))?)?;
    }
    Ok(read)
}

#[cycle(statements)]
fn case_of(alloc: Global, payload: &Value, levels: u32) -> Result<SwitchCase, ReadError>
    ensures { Gives seen_case (case_said (block_said levels) (value_view payload.now)) result }
{
    expect_members(alloc, payload, &["value", "fall_through", "body"])?;
    let value = member(alloc, payload, "value")?;
    let fall_through = optional_member(alloc, payload, "fall_through")?;
    let body = member_block(alloc, payload, "body", levels)?;
    Ok(SwitchCase {
        value,
        body,
        fall_through,
    })
}
