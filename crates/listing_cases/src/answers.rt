//! The listing of a case.

use json::{Scratch, Value};
use naga_inference::inferred_types;
use naga_info::ModuleInfo;
use naga_ir::{ItemIndex as Handle, Module};
use naga_json::{Given, given_of, parse};
use naga_listing::{Listed, ListingPosition, Spot, explain};
use std::alloc::Global;
use std::io;
use std::io::Write;

/// Prints the listing of the case in this line.
pub fn answer_line<W: Write>(alloc: Global, line: &str, out: &mut W) -> io::Result<()> {
    let mut scratch = Scratch::new(alloc);
    match parse(alloc, line, &mut scratch) {
        Ok(case) => answer_case(alloc, &case, out),
        Err(error) => writeln!(out, "{error}"),
    }
}

fn answer_case<W: Write>(alloc: Global, case: &Value<'_>, out: &mut W) -> io::Result<()> {
    let name = text_in(case, "name").unwrap_or("");
    match given_of(alloc, case.get("whole").unwrap_or(case)) {
        Ok(given) => answer_given(alloc, name, given, position_in(case), out),
        Err(error) => writeln!(out, "== {name}\nnot read: {error}"),
    }
}

/// Prints the listing, whose types are inferred where the case has none.
fn answer_given<W: Write>(
    alloc: Global,
    name: &str,
    given: Given,
    position: ListingPosition,
    out: &mut W,
) -> io::Result<()> {
    let Given {
        module,
        info,
        is_bare: _,
    } = given;
    if let Some(info) = info {
        return answer_known(alloc, name, &module, &info, position, out);
    }
    match inferred_types(alloc, &module)? {
        Ok(info) => answer_known(alloc, name, &module, &info, position, out),
        Err(untyped) => writeln!(out, "== {name}\n{untyped}"),
    }
}

fn answer_known<W: Write>(
    alloc: Global,
    name: &str,
    module: &Module,
    info: &ModuleInfo,
    position: ListingPosition,
    out: &mut W,
) -> io::Result<()> {
    let listing = explain(alloc, module, info, &position, "here")?;
    write!(out, "== {name}\n{listing}")
}

fn position_in(case: &Value<'_>) -> ListingPosition {
    ListingPosition {
        listed: listed_in(case),
        spot: spot_of(text_in(case, "spot"), number_in(case, "index")),
        beside: match text_in(case, "beside") {
            Some(kind) => Some(spot_of(Some(kind), number_in(case, "beside_index"))),
            None => None,
        },
    }
}

fn listed_in(case: &Value<'_>) -> Listed {
    let number = number_in(case, "number");
    match text_in(case, "listed") {
        Some("function") => Listed::Function(Handle::from_index(number)),
        Some("entry point") => Listed::EntryPoint(number),
        _ => Listed::Declarations,
    }
}

fn spot_of(kind: Option<&str>, index: usize) -> Spot {
    match kind {
        Some("type") => Spot::Type_(Handle::from_index(index)),
        Some("constant") => Spot::Constant(Handle::from_index(index)),
        Some("override") => Spot::Override(Handle::from_index(index)),
        Some("global variable") => Spot::GlobalVariable(Handle::from_index(index)),
        Some("global expression") => Spot::GlobalExpression(Handle::from_index(index)),
        Some("local") => Spot::Local(Handle::from_index(index)),
        Some("expression") => Spot::Expression(Handle::from_index(index)),
        Some("statement") => Spot::Statement(index),
        _ => Spot::Whole,
    }
}

fn text_in<'a>(case: &Value<'a>, member: &str) -> Option<&'a str> {
    case.get(member).and_then(Value::as_str)
}

/// The number that a member has, and 0 where there is no such member.
fn number_in(case: &Value<'_>, member: &str) -> usize {
    match case.get(member).and_then(Value::as_u64) {
        Some(number) => usize::try_from(number).unwrap_or(0),
        None => 0,
    }
}
