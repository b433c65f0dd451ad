//! Reads positions in modules, one in each line of the input, and prints their listings.
//!
//! A line is a JSON object with the members `name`, `module` and `info`, of the position `listed`
//! (`declarations`, `function` or `entry point`), `number`, `spot` and `index`, and of what is to be
//! seen beside it `beside` and `beside_index`. Where it has a member `whole`, module and info are read
//! from that. After a line `== NAME` comes the listing, with the message `here`; the types are
//! inferred where there is no info.
//!
//! The folder `cases` has what `stdin` and `stdout` are made of.
#![tactic(auto)]

mod answers;

use crate::answers::answer_line;
use std::io;
use std::io::{BufRead, BufReader, BufWriter, Write};

fn main(rt: HostRuntime) -> anyhow::Result<()> {
    let alloc = rt.alloc();
    let mut out = BufWriter::new(alloc, io::writer(&rt))?;
    for line in BufReader::new(alloc, rt.reader())?.lines(alloc) {
        answer_line(alloc, line?.as_str(), &mut out)?;
    }
    out.flush()?;
    Ok(())
}
