//! Prints the WGSL text of a sample module.
//!
//! `wgsl_rows ROW [explicit]` builds the module that the row names, asks whether it is accepted,
//! counts its uses, writes it, and prints the text. The names of rows are those that
//! `SampleModule::from_name` takes (`crates/sample_modules/src/rows.rt`).
#![tactic(auto)]

use sample_answers::{refuse, run, words_after_name};
use std::process::ExitCode;

/// Runs the program on the words after its name, and ends with its status.
fn main(rt: HostRuntime) -> ExitCode {
    let mut out = rt.stdout();
    let mut err = rt.stderr();
    let status = match words_after_name(&rt) {
        Ok(words) => run(rt.alloc(), &words, &mut out, &mut err),
        Err(_) => refuse("out of memory", &mut err),
    };
    ExitCode::from(status)
}
