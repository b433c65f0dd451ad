//! Tests of the calls that write texts: functions, bindings and initialisers by themselves, sinks
//! that refuse a piece, and modules that no case has, as their texts are too long or nest too deep.
//! What becomes of other modules is told by the cases of `wgsl_cases`.
#![tactic(auto)]

#[cfg(test)]
mod bindings;
#[cfg(test)]
mod checked;
#[cfg(test)]
mod entry_points;
#[cfg(test)]
mod errors;
#[cfg(test)]
mod functions;
#[cfg(test)]
mod initialisers;
#[cfg(test)]
mod long_labels;
#[cfg(test)]
mod modules;
#[cfg(test)]
mod nesting;
#[cfg(test)]
mod public;
#[cfg(test)]
mod sinks;
#[cfg(test)]
mod whole_module;
