//! The names of expressions and statements, and of the fields that hold their operands.

ghost use Rattle.std.specs.Prelude.{◌≡◌, map, slice_get};
ghost use Rattle.std.specs.Option.{option_map};
ghost use Rattle.naga_fields.specs.Fields.{expression_fields, image_fields, ray_fields, seen};
ghost use Rattle.naga_fields.specs.Fields.{shared_fields, statement_fields};
ghost use Rattle.naga_ir.specs.StatementViews.{tree_of};
ghost use Rattle.naga_fields.specs.VariantNames.{expression_name, statement_name};

use naga_ir::operands::query_handle;
use naga_ir::statement_operands::{compared, told_by};
use naga_ir::{Expression, Handle, RayPipelineFunction, Statement};

/// The name of a field, and the operand that it holds, if it holds one.
pub type Field = (&'static str, Option<Handle<Expression>>);

/// The field of this number, counted from zero.
#[tactic(auto, using(crate::proofs::Seen::nth_seen))]
fn nth_field(fields: &[Field], number: usize) -> Option<Field>
    ensures { option_map seen result ≡ slice_get (map seen fields.now) number }
{
    fields.get(number).copied()
}

/// The field of this number of what is done with a ray.
fn ray_field(fun: RayPipelineFunction, number: usize) -> Option<Field>
    ensures { option_map seen result ≡ slice_get (ray_fields fun) number }
{
    match fun {
        RayPipelineFunction::TraceRay {
            acceleration_structure,
            descriptor,
            payload,
        } => nth_field(
            &[
                ("acceleration_structure", Some(acceleration_structure)),
                ("descriptor", Some(descriptor)),
                ("payload", Some(payload)),
            ],
            number,
        ),
    }
}

/// The name of the variant.
pub fn expression_name(expression: &Expression) -> &'static str
    ensures { result.now ≡ expression_name expression.now }
{
    match expression {
        Expression::Literal(_) => "Literal",
        Expression::Constant(_) => "Constant",
        Expression::Override(_) => "Override",
        Expression::ZeroValue(_) => "ZeroValue",
        Expression::Compose { .. } => "Compose",
        Expression::Access { .. } => "Access",
        Expression::AccessIndex { .. } => "AccessIndex",
        Expression::Splat { .. } => "Splat",
        Expression::Swizzle { .. } => "Swizzle",
        Expression::FunctionArgument(_) => "FunctionArgument",
        Expression::GlobalVariable(_) => "GlobalVariable",
        Expression::LocalVariable(_) => "LocalVariable",
        Expression::Load { .. } => "Load",
        Expression::ImageSample { .. } => "ImageSample",
        Expression::ImageLoad { .. } => "ImageLoad",
        Expression::ImageQuery { .. } => "ImageQuery",
        Expression::Unary { .. } => "Unary",
        Expression::Binary { .. } => "Binary",
        Expression::Select { .. } => "Select",
        Expression::Derivative { .. } => "Derivative",
        Expression::Relational { .. } => "Relational",
        Expression::Math { .. } => "Math",
        Expression::As { .. } => "As",
        Expression::CallResult(_) => "CallResult",
        Expression::AtomicResult { .. } => "AtomicResult",
        Expression::WorkGroupUniformLoadResult { .. } => "WorkGroupUniformLoadResult",
        Expression::ArrayLength(_) => "ArrayLength",
        Expression::RayQueryProceedResult => "RayQueryProceedResult",
        Expression::RayQueryGetIntersection { .. } => "RayQueryGetIntersection",
        Expression::RayQueryVertexPositions { .. } => "RayQueryVertexPositions",
        Expression::SubgroupBallotResult => "SubgroupBallotResult",
        Expression::SubgroupOperationResult { .. } => "SubgroupOperationResult",
        Expression::CooperativeLoad { .. } => "CooperativeLoad",
        Expression::CooperativeMultiplyAdd { .. } => "CooperativeMultiplyAdd",
    }
}

/// The field of this number, counted from zero in the order of naga's source, among those that
/// hold an operand or may hold one: without those of a [`SampleLevel`](crate::SampleLevel), and
/// without a list.
pub fn expression_field(expression: &Expression, number: usize) -> Option<Field>
    ensures { option_map seen result ≡ slice_get (expression_fields expression.now) number }
{
    match expression {
        Expression::Access { base, index } => {
            nth_field(&[("base", Some(*base)), ("index", Some(*index))], number)
        }
        Expression::AccessIndex { base, .. } => nth_field(&[("base", Some(*base))], number),
        Expression::Splat { value, .. } => nth_field(&[("value", Some(*value))], number),
        Expression::Swizzle { vector, .. } => nth_field(&[("vector", Some(*vector))], number),
        Expression::Load { pointer } => nth_field(&[("pointer", Some(*pointer))], number),
        Expression::Unary { expr, .. }
        | Expression::Derivative { expr, .. }
        | Expression::As { expr, .. } => nth_field(&[("expr", Some(*expr))], number),
        Expression::Binary { left, right, .. } => {
            nth_field(&[("left", Some(*left)), ("right", Some(*right))], number)
        }
        Expression::Select {
            condition,
            accept,
            reject,
        } => nth_field(
            &[
                ("condition", Some(*condition)),
                ("accept", Some(*accept)),
                ("reject", Some(*reject)),
            ],
            number,
        ),
        Expression::Relational { argument, .. } => {
            nth_field(&[("argument", Some(*argument))], number)
        }
        Expression::Math {
            arg,
            arg1,
            arg2,
            arg3,
            ..
        } => nth_field(
            &[
                ("arg", Some(*arg)),
                ("arg1", *arg1),
                ("arg2", *arg2),
                ("arg3", *arg3),
            ],
            number,
        ),
        Expression::ArrayLength(array) => nth_field(&[("array", Some(*array))], number),
        Expression::RayQueryGetIntersection { query, .. }
        | Expression::RayQueryVertexPositions { query, .. } => {
            nth_field(&[("query", Some(*query))], number)
        }
        Expression::CooperativeLoad { data_, .. } => nth_field(
            &[
                ("pointer", Some(data_.pointer)),
                ("stride", Some(data_.stride)),
            ],
            number,
        ),
        Expression::CooperativeMultiplyAdd { a, b, c } => nth_field(
            &[("a", Some(*a)), ("b", Some(*b)), ("c", Some(*c))],
            number,
        ),
        Expression::ImageSample { .. }
        | Expression::ImageLoad { .. }
        | Expression::ImageQuery { .. } => image_field(expression, number),
        _ => None,
    }
}

/// The same field of an expression of an image; none of any other.
fn image_field(expression: &Expression, number: usize) -> Option<Field>
    ensures { option_map seen result ≡ slice_get (image_fields expression.now) number }
{
    match expression {
        Expression::ImageSample {
            image,
            sampler,
            coordinate,
            array_index,
            offset,
            depth_ref,
            ..
        } => nth_field(
            &[
                ("image", Some(*image)),
                ("sampler", Some(*sampler)),
                ("coordinate", Some(*coordinate)),
                ("array_index", *array_index),
                ("offset", *offset),
                ("depth_ref", *depth_ref),
            ],
            number,
        ),
        Expression::ImageLoad {
            image,
            coordinate,
            array_index,
            sample,
            level,
        } => nth_field(
            &[
                ("image", Some(*image)),
                ("coordinate", Some(*coordinate)),
                ("array_index", *array_index),
                ("sample", *sample),
                ("level", *level),
            ],
            number,
        ),
        Expression::ImageQuery { image, query } => nth_field(
            &[("image", Some(*image)), ("level", query_handle(*query))],
            number,
        ),
        _ => None,
    }
}

/// The name of the variant. A store of a cooperative matrix also says how that lies in memory,
/// and what is done with a ray which of the functions of a pipeline it is.
pub fn statement_name(statement: &Statement) -> &'static str
    ensures { result.now ≡ statement_name (tree_of statement.now) }
{
    match statement {
        Statement::Emit(_) => "Emit",
        Statement::Block(_) => "Block",
        Statement::If { .. } => "If",
        Statement::Switch { .. } => "Switch",
        Statement::Loop { .. } => "Loop",
        Statement::Break => "Break",
        Statement::Continue => "Continue",
        Statement::Return { .. } => "Return",
        Statement::Kill => "Kill",
        Statement::ControlBarrier(_) => "ControlBarrier",
        Statement::MemoryBarrier(_) => "MemoryBarrier",
        Statement::Store { .. } => "Store",
        Statement::ImageStore { .. } => "ImageStore",
        Statement::Atomic { .. } => "Atomic",
        Statement::ImageAtomic { .. } => "ImageAtomic",
        Statement::WorkGroupUniformLoad { .. } => "WorkGroupUniformLoad",
        Statement::Call { .. } => "Call",
        Statement::RayQuery { .. } => "RayQuery",
        Statement::SubgroupBallot { .. } => "SubgroupBallot",
        Statement::SubgroupGather { .. } => "SubgroupGather",
        Statement::SubgroupCollectiveOperation { .. } => "SubgroupCollectiveOperation",
        Statement::CooperativeStore { data_, .. } => {
            if data_.row_major {
                "CooperativeStore by rows"
            } else {
                "CooperativeStore by columns"
            }
        }
        Statement::RayPipelineFunction(_) => "RayPipelineFunction TraceRay",
    }
}

/// The field of this number, counted from zero in the order of naga's source, among those that
/// hold an operand or a result or may hold one, without a list.
pub fn statement_field(statement: &Statement, number: usize) -> Option<Field>
    ensures { option_map seen result ≡ slice_get (statement_fields (tree_of statement.now)) number }
{
    match statement {
        Statement::If { condition, .. } => nth_field(&[("condition", Some(*condition))], number),
        Statement::Switch { selector, .. } => nth_field(&[("selector", Some(*selector))], number),
        Statement::Loop { break_if, .. } => nth_field(&[("break_if", *break_if)], number),
        Statement::Return { value } => nth_field(&[("value", *value)], number),
        Statement::Store { pointer, value } => {
            nth_field(
                &[("pointer", Some(*pointer)), ("value", Some(*value))],
                number,
            )
        }
        Statement::Call { result, .. } => nth_field(&[("result", *result)], number),
        Statement::RayQuery { query } => nth_field(&[("query", Some(*query))], number),
        Statement::CooperativeStore { target, data_ } => nth_field(
            &[
                ("target", Some(*target)),
                ("pointer", Some(data_.pointer)),
                ("stride", Some(data_.stride)),
            ],
            number,
        ),
        Statement::RayPipelineFunction(fun) => ray_field(*fun, number),
        Statement::ImageStore {
            image,
            coordinate,
            array_index,
            value,
        } => nth_field(
            &[
                ("image", Some(*image)),
                ("coordinate", Some(*coordinate)),
                ("array_index", *array_index),
                ("value", Some(*value)),
            ],
            number,
        ),
        Statement::WorkGroupUniformLoad { pointer, result } => {
            nth_field(
                &[("pointer", Some(*pointer)), ("result", Some(*result))],
                number,
            )
        }
        Statement::Atomic { .. }
        | Statement::ImageAtomic { .. }
        | Statement::SubgroupBallot { .. }
        | Statement::SubgroupGather { .. }
        | Statement::SubgroupCollectiveOperation { .. } => shared_field(statement, number),
        _ => None,
    }
}

/// The same field of a statement that other invocations take part in: of an atomic one, or of a
/// subgroup; none of any other.
fn shared_field(statement: &Statement, number: usize) -> Option<Field>
    ensures { option_map seen result ≡ slice_get (shared_fields (tree_of statement.now)) number }
{
    match statement {
        Statement::Atomic {
            pointer,
            fun,
            value,
            result,
        } => nth_field(
            &[
                ("pointer", Some(*pointer)),
                ("compare", compared(*fun)),
                ("value", Some(*value)),
                ("result", *result),
            ],
            number,
        ),
        Statement::ImageAtomic {
            image,
            coordinate,
            array_index,
            fun,
            value,
        } => nth_field(
            &[
                ("image", Some(*image)),
                ("coordinate", Some(*coordinate)),
                ("array_index", *array_index),
                ("compare", compared(*fun)),
                ("value", Some(*value)),
            ],
            number,
        ),
        Statement::SubgroupBallot { result, predicate } => {
            nth_field(
                &[("predicate", *predicate), ("result", Some(*result))],
                number,
            )
        }
        Statement::SubgroupGather {
            mode,
            argument,
            result,
        } => nth_field(
            &[
                ("index", told_by(*mode)),
                ("argument", Some(*argument)),
                ("result", Some(*result)),
            ],
            number,
        ),
        Statement::SubgroupCollectiveOperation {
            argument,
            result,
            ..
        } => nth_field(
            &[("argument", Some(*argument)), ("result", Some(*result))],
            number,
        ),
        _ => None,
    }
}
