//! Reads modules from JSON, and prints their WGSL texts.
//!
//! `yorwethul MODULE.json` prints the text of a module, with decimal floats and with what
//! standard compilers ask for; `--plain` leaves both out. `yorwethul --layout MODULE.json`
//! tells where the members of its structs stand, `yorwethul --names MODULE.json` which identifier
//! stands for which item, `yorwethul --explain MODULE.json` shows why it has
//! no text, `yorwethul --json MODULE.json` answers as JSON, and `yorwethul --lines` answers many
//! modules, one a line.
#![tactic(auto)]

mod words;

use std::io::{BufWriter, IsTerminal, Write};
use std::process::ExitCode;
use words::{WordsError, words_of};
use yorwethul_answers::{FAILED, Terminals, run};

/// Runs the program on its words, and ends with its status.
fn main(rt: HostRuntime) -> ExitCode {
    match answer(&rt) {
        Ok(status) => ExitCode::from(status),
        Err(error) => {
            let _ = writeln!(rt.stderr(), "yorwethul: {error}");
            ExitCode::from(FAILED)
        }
    }
}

fn answer(rt: &HostRuntime) -> Result<u8, WordsError> {
    let alloc = rt.alloc();
    let words = words_of(rt)?;
    let terminals = Terminals {
        asks: rt.stdin().is_terminal(),
        watches: rt.stderr().is_terminal() && !rt.stdout().is_terminal(),
    };
    let mut out = BufWriter::new(alloc, rt.stdout())?;
    let mut err = rt.stderr();
    Ok(run(rt, &words, &mut out, &mut err, terminals))
}
