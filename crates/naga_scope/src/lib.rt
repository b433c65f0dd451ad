//! Where the expressions of a function are in scope, which of them a `let` binds, and the plan of a
//! function, which refuses an operand out of scope before the function's text.
#![tactic(auto)]

mod changes;
pub mod check;
pub mod continues;
pub mod functions;
mod in_order;
mod known_function;
pub mod known_module;
mod lacks;
pub mod lets;
pub mod lines;
mod named;
pub mod plan;
pub mod points;
pub mod positions;
mod scope_faults;
mod spelled;
mod statements;
mod walk;

pub use continues::split_at_continue;
pub use functions::function_of;
pub use known_module::KnownModule;
pub use lets::binds;
pub use lines::{Declared, Line};
pub use plan::{Plan, PlanError};
pub use points::{Availability, BoundName, Scope};
pub use positions::{FunctionRefusalPosition, RefusalPosition};
pub use scope_faults::ScopeFault;
