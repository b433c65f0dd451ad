//! Tests of modules and of what stands beside them: reading them from JSON, building them, their
//! arenas, the helpers that tell what stands in one, which values of cases are accepted, layouts
//! of types, and traits of public types.
#![tactic(auto)]

#[cfg(test)]
mod back;
#[cfg(test)]
mod builders;
#[cfg(test)]
mod case_values;
#[cfg(test)]
mod ir;
#[cfg(test)]
mod layouts;
#[cfg(test)]
mod reading;
#[cfg(test)]
mod traits;
