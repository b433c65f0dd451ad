//! naga's intermediate representation of shaders, as plain data.
//!
//! A [`Module`] declares types, constants, overrides, global variables, functions and entry points.
//! Each kind of item stands in an [`Arena`], and other items name it by its [`Handle`]. A
//! [`Function`] has expressions, whose operands are handles of expressions before them, and a
//! [`Block`] of statements. An expression that is more than a leaf is evaluated once, where a
//! [`Statement::Emit`] names it; what statements use later is the value that it had there.
//!
//! The names and the meaning are those of naga's crate. A type, variant or field whose name a
//! contract cannot spell has a `_` after it: [`Type_`], `data_`.
#![tactic(auto)]

pub mod arena;
pub mod binding;
pub mod diagnostics;
pub mod expression;
pub mod flags;
pub mod image;
pub mod kind;
pub mod module;
pub mod operands;
pub mod operators;
pub mod statement;
pub mod statement_operands;
pub mod types;
pub mod unique_arena;

pub use arena::{Arena, Handle, Item, ItemIndex};
pub use binding::{Binding, BuiltIn, Interpolation, ResourceBinding, Sampling};
pub use diagnostics::{
    DiagnosticFilter, DiagnosticFilterNode, FilterableTriggeringRule, Severity,
    StandardFilterableTriggeringRule,
};
pub use expression::{
    CooperativeData, Expression, ImageQuery, Literal, SampleLevel, SwizzleComponent,
};
pub use flags::{Barrier, MemoryDecorations, StorageAccess};
pub use image::{ImageClass, ImageDimension, StorageFormat};
pub use kind::ExpressionKind;
pub use module::{
    Constant, EntryPoint, Function, FunctionArgument, FunctionResult, GlobalVariable,
    LocalVariable, MeshStageInfo, Module, Override, ShaderStage, SpecialTypes,
};
pub use operands::Operands;
pub use operators::{
    AtomicFunction, BinaryOperator, CollectiveOperation, DerivativeAxis, DerivativeControl,
    Direction, GatherMode, MathFunction, RelationalFunction, SubgroupOperation, UnaryOperator,
};
pub use statement::{Block, Range, RayPipelineFunction, Statement, SwitchCase, SwitchValue};
pub use statement_operands::StatementOperands;
pub use types::{
    AddressSpace, ArraySize, CooperativeRole, CooperativeSize, PredeclaredType, Scalar, ScalarKind,
    StructMember, Type_, TypeInner, VectorSize,
};
pub use unique_arena::UniqueArena;
