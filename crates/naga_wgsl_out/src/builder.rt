//! Builders of modules, each with what is known of it.
//!
//! ```text
//! let mut shader = ModuleBuilder::new(alloc);
//! let i32_type = shader.scalar(Scalar::I32)?;
//! let mut double = shader.function("double")?;
//! let x = double.argument("x", i32_type)?;
//! double.returns(i32_type);
//! let sum = double.binary(BinaryOperator::Add, x, x)?;
//! double.body.emit(sum, sum)?;
//! double.body.return_value(sum)?;
//! let double = double.finish();
//! shader.add_function(double)?;
//! let text = write_checked(alloc, &shader.module, &mut shader.info, no_flags())?;
//! ```

pub use naga_builder::{
    BlockBuilder, BuildError, BuiltFunction, FunctionBuilder, ModuleBuilder, StageExtras,
};
