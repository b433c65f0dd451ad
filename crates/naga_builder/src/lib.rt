//! Builds modules, each with what is known of it.
//!
//! A [`ModuleBuilder`] holds types, constants and global variables, and takes functions, each of
//! which a [`FunctionBuilder`] has made; a function's statements stand in its [`BlockBuilder`].
//! What is built is a module of `naga_ir` with its infos of `naga_info`, of whose expressions no
//! use is counted yet. Their types follow from the module, by the rules of `naga_inference`. Nothing
//! else is asked of them: whether they are accepted is told afterwards.
//!
//! Each builder has a `drop` of its own, so that a program over this crate is proved without a
//! proof of how modules are dropped, which is long.
#![tactic(auto)]

pub mod block;
pub mod error;
pub mod function;
pub mod module;

pub use block::BlockBuilder;
pub use error::BuildError;
pub use function::{BuiltFunction, FunctionBuilder};
pub use module::{ModuleBuilder, StageExtras};
