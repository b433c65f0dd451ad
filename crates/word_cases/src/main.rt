//! Reads cases, one in each line of the input, and tells of each what names and words there are.
//!
//! A line is a JSON object whose member `asks` says what is asked, and which of the others are read:
//!
//! - `names`: the names that a namer gives to the `labels`, one after another. A label that is null
//!   is none, and gets the name of the label that `or` is. Where `namer` is `wgsl`, the namer keeps
//!   off WGSL's words.
//! - `items`: the names of what the `module` declares, each after its key, by the namer of a writer,
//!   and then the names of the `labels`.
//! - `types`: how the types are spelled that the `info` has for the global expressions of the
//!   `module`, by what `context` is: `arena`, `labels`, `numbers` or `names`.
//! - `words`: WGSL's words for what is in the `module`.
//! - `severity` and `rule`: what the word is among those of diagnostics.
//!
//! The answer comes after a line `== NAME`. The folder `cases` has what `stdin` and `stdout` are
//! made of.
#![tactic(auto)]

mod answers;
mod diagnostics;
mod items;
mod names;
mod types;
mod words;

use crate::answers::answer_line;

fn main(rt: HostRuntime) -> anyhow::Result<()> {
    for line in rt.lines(rt.alloc()) {
        let answer = answer_line(rt.alloc(), line?.as_str())?;
        print!(rt; "{answer}")?;
    }
    Ok(())
}
