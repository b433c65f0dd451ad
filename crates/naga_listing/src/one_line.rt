//! Texts as they stand in a line.

ghost use Rattle.std.specs.Prelude.{◌≡◌, ◌++◌, IfOk, OnOk, string_bytes};
ghost use Rattle.naga_listing.specs.OneLine.{escaped, on_one_line, shown_char};

use std::alloc::{AllocError, Global};

/// The text with its control characters escaped: a line break as `\n`, and one without a letter by its
/// number, as `\u{7f}`. A label may have any character.
pub fn on_one_line(alloc: Global, text: &str) -> Result<String, AllocError>
    ensures { IfOk result (λ line. string_bytes line ≡ on_one_line text.now) }
{
    let mut line = String::new(alloc);
    for c in text.chars() {
        push_shown(c, &mut line)?;
    }
    Ok(line)
}

fn push_shown(c: char, line: &mut String) -> Result<(), AllocError>
    ensures { OnOk result (string_bytes line.new ≡ string_bytes line.old ++ shown_char c) }
{
    if c.is_control() {
        push_escaped(c, line)
    } else {
        line.push(c)
    }
}

fn push_escaped(c: char, line: &mut String) -> Result<(), AllocError>
    ensures { OnOk result (string_bytes line.new ≡ string_bytes line.old ++ escaped c) }
{
    match c {
        '\t' => line.push_str("\\t"),
        '\n' => line.push_str("\\n"),
        '\r' => line.push_str("\\r"),
        _ => write!(line, "\\u{{{:x}}}", c as u32),
    }
}
