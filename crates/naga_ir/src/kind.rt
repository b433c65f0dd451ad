//! What kind of thing an expression is, and which statements end a block.

ghost use Rattle.std.specs.Prelude.{◌≡◌};
ghost use Rattle.naga_ir.specs.Kinds.{ends_block, kind_of};

use crate::expression::Expression;
use crate::statement::Statement;

/// When an expression has its value, and what evaluating it does.
#[derive(Debug, Clone, Copy, PartialEq, Eq)]
pub enum ExpressionKind {
    /// A value of the module, which every point of a function has: a literal, a constant, an
    /// override or a zero value.
    Constant,
    /// An argument of the function or a variable, which is there without an `Emit`.
    Leaf,
    /// An operator: an `Emit` evaluates it, and its value depends on its operands alone.
    Pure,
    /// A read of memory, at its `Emit`.
    Load,
    /// What an `Emit` asks for with an event beside reads of memory: an operation on images, a
    /// derivative or a cooperative load.
    Request,
    /// What a statement gives, and no `Emit`.
    Result,
}

impl Expression {
    /// The expression's kind.
    #[inline]
    pub fn kind(&self) -> ExpressionKind
        ensures { result ≡ kind_of self.now }
    {
        match self {
            Expression::Literal(_)
            | Expression::Constant(_)
            | Expression::Override(_)
            | Expression::ZeroValue(_) => ExpressionKind::Constant,
            Expression::FunctionArgument(_)
            | Expression::GlobalVariable(_)
            | Expression::LocalVariable(_) => ExpressionKind::Leaf,
            Expression::Compose { .. }
            | Expression::Access { .. }
            | Expression::AccessIndex { .. }
            | Expression::Splat { .. }
            | Expression::Swizzle { .. }
            | Expression::Unary { .. }
            | Expression::Binary { .. }
            | Expression::Select { .. }
            | Expression::Relational { .. }
            | Expression::Math { .. }
            | Expression::As { .. }
            | Expression::ArrayLength(_)
            | Expression::RayQueryGetIntersection { .. }
            | Expression::RayQueryVertexPositions { .. }
            | Expression::CooperativeMultiplyAdd { .. } => ExpressionKind::Pure,
            Expression::Load { .. } => ExpressionKind::Load,
            Expression::ImageSample { .. }
            | Expression::ImageLoad { .. }
            | Expression::ImageQuery { .. }
            | Expression::Derivative { .. }
            | Expression::CooperativeLoad { .. } => ExpressionKind::Request,
            Expression::CallResult(_)
            | Expression::AtomicResult { .. }
            | Expression::WorkGroupUniformLoadResult { .. }
            | Expression::RayQueryProceedResult
            | Expression::SubgroupBallotResult
            | Expression::SubgroupOperationResult { .. } => ExpressionKind::Result,
        }
    }
}

impl Statement {
    /// Whether it is a `Break`, a `Continue`, a `Return` or a `Kill`, after which nothing of its block
    /// is reached.
    pub fn ends_block(&self) -> bool
        ensures { result ≡ ends_block self.now }
    {
        matches!(
            self,
            Statement::Break | Statement::Continue | Statement::Return { .. } | Statement::Kill
        )
    }
}
