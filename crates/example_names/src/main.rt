//! Prints an identifier of WGSL for each of a few labels.
#![tactic(auto)]

use naga_wgsl_out::namer::Namer;

/// Labels as a front end may have them: two alike, a keyword, and one with a blank.
const LABELS: [&str; 4] = ["x", "x", "fn", "a b"];

fn main(rt: HostRuntime) -> anyhow::Result<()> {
    let mut namer = Namer::for_wgsl(rt.alloc())?;
    for label in LABELS {
        let name = namer.call(label)?;
        println!(rt; "{label} is named {name}")?;
    }
    Ok(())
}
