//! What becomes of a case.

use crate::diagnostics::{push_rule, push_severity};
use crate::items::push_items;
use crate::names::push_names;
use crate::types::push_types;
use crate::words::push_words;
use json::{Scratch, Value};
use naga_json::parse;
use std::alloc::{AllocError, Global};

/// The answer to the case in this line, after a line with its name.
pub fn answer_line(alloc: Global, line: &str) -> Result<String, AllocError> {
    let mut scratch = Scratch::new(alloc);
    match parse(alloc, line, &mut scratch) {
        Ok(case) => answer_case(alloc, &case),
        Err(error) => format!(in alloc; "{error}\n"),
    }
}

fn answer_case(alloc: Global, case: &Value<'_>) -> Result<String, AllocError> {
    let name = text_in(case, "name").unwrap_or("");
    let mut answer = format!(in alloc; "== {name}\n")?;
    push_answer(alloc, case, &mut answer)?;
    Ok(answer)
}

fn push_answer(alloc: Global, case: &Value<'_>, answer: &mut String) -> Result<(), AllocError> {
    match text_in(case, "asks") {
        Some("names") => push_names(alloc, case, answer),
        Some("items") => push_items(alloc, case, answer),
        Some("types") => push_types(alloc, case, answer),
        Some("words") => push_words(alloc, case, answer),
        Some("severity") => push_severity(alloc, case, answer),
        Some("rule") => push_rule(alloc, case, answer),
        _ => push_line("nothing is asked", answer),
    }
}

/// Adds a line.
pub fn push_line(line: &str, answer: &mut String) -> Result<(), AllocError> {
    answer.push_str(line)?;
    answer.push('\n')
}

/// The text that a member of the case has.
pub fn text_in<'a>(case: &Value<'a>, member: &str) -> Option<&'a str> {
    case.get(member).and_then(Value::as_str)
}

/// Whether a member of the case is `true`.
pub fn is_told(case: &Value<'_>, member: &str) -> bool {
    case.get(member).and_then(Value::as_bool) == Some(true)
}
