//! Rows: the words that name them, the answers and the statuses.

use bitflags::Flags;
use naga_wgsl_out::builder::ModuleBuilder;
use naga_wgsl_out::info::{accepts, count};
use naga_wgsl_out::wgsl::{WriterFlags, write_string};
use sample_modules::SampleModule;
use std::alloc::Global;
use std::fmt::Display;
use std::io;
use std::io::Write;

#[cfg(test)]
mod tests;

/// Prints the text of the row that `words` name to `out`, and gives the status: 0, or 1 for a
/// module that is refused, with the reason on `err`, or 2 for words that name no row. It compares
/// the words byte for byte, and looks at them first; then it builds the module, asks whether it is
/// accepted, counts its uses, makes the text, and only then prints it. A failure of `err` changes
/// nothing.
pub fn run<O: Write, E: Write>(alloc: Global, words: &[String], out: &mut O, err: &mut E) -> u8 {
    let Some((row, flags)) = asked_row(words) else {
        return unknown_row(err);
    };
    let mut shader = ModuleBuilder::new(alloc);
    let status = build_and_answer(alloc, row, &mut shader, flags, out, err);
    drop(shader);
    status
}

/// Builds the row's module, beginning with an empty one, and prints its text, or why there is none.
fn build_and_answer<O: Write, E: Write>(
    alloc: Global,
    row: SampleModule,
    shader: &mut ModuleBuilder,
    flags: WriterFlags,
    out: &mut O,
    err: &mut E,
) -> u8 {
    match row.build(alloc, shader) {
        Ok(()) => answer(alloc, shader, flags, out, err),
        Err(_) => refuse("out of memory", err),
    }
}

/// The row and the flags that the words name.
fn asked_row(words: &[String]) -> Option<(SampleModule, WriterFlags)> {
    match words {
        [row] => Some((SampleModule::from_name(row.as_str())?, WriterFlags::empty())),
        [row, second] => {
            if second.as_str() != "explicit" {
                return None;
            }
            Some((
                SampleModule::from_name(row.as_str())?,
                WriterFlags::EXPLICIT_TYPES,
            ))
        }
        _ => None,
    }
}

/// Prints the module's text, or why there is none.
fn answer<O: Write, E: Write>(
    alloc: Global,
    shader: &mut ModuleBuilder,
    flags: WriterFlags,
    out: &mut O,
    err: &mut E,
) -> u8 {
    if !accepts(&shader.module, &shader.info) {
        return refuse("invalid module", err);
    }
    count(&mut shader.info, &shader.module);
    match write_string(alloc, &shader.module, &shader.info, flags) {
        Ok(text) => print_text(text.as_str(), out, err),
        Err(error) => refuse(error, err),
    }
}

fn print_text<O: Write, E: Write>(text: &str, out: &mut O, err: &mut E) -> u8 {
    if write_and_flush(text, out).is_ok() {
        0
    } else {
        refuse("output", err)
    }
}

fn write_and_flush<O: Write>(text: &str, out: &mut O) -> io::Result<()> {
    out.write_all(text.as_bytes())?;
    out.flush()
}

/// Tells why there is no text, as far as `err` takes it, and gives the status.
pub fn refuse<E: Write>(reason: impl Display + Drop, err: &mut E) -> u8 {
    let _ = writeln!(err, "refused: {reason}");
    1
}

fn unknown_row<E: Write>(err: &mut E) -> u8 {
    let _ = writeln!(err, "unknown row");
    2
}
