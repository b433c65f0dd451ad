//! Tests of inference: each sample module gets an info, wherever memory is refused; rules give the
//! types that WGSL says; and faults are told at their positions. And of counts that are raised for
//! operands that stand too deep.
#![tactic(auto)]

#[cfg(test)]
mod deep;
#[cfg(test)]
mod faults;
#[cfg(test)]
mod rules;
#[cfg(test)]
mod samples;
