//! JSON over the text that it is read from.

ghost use Rattle.std.specs.Prelude.{◌≡◌, ◌⊎◌, Some, None, IfOk, IfErr, IsUtf8};
ghost use Rattle.json.specs.Value.{value_view, items_view, members_view};
ghost use Rattle.naga_json.specs.Text.{json_of, numbers_fit, items_fit, members_fit, numeral_fits, IsNoJson};

use crate::error::ReadError;
use json::{Error, Reader, Scratch, Token, Value};
use std::alloc::Global;

/// How deep lists and objects may nest.
const MOST_NESTED: usize = 127;

/// Reads a text as JSON that borrows from it, for one who reads more members beside a module's:
/// `parse(alloc, r#"{"id": 7}"#, &mut Scratch::new(alloc))`. Texts with escapes are put in `scratch`,
/// which may be kept from one call to the next. It fails as [`crate::read_module`] does, and is never
/// a misfit.
pub fn parse<'a>(
    alloc: Global,
    text: &'a str,
    scratch: &'a mut Scratch,
) -> Result<Value<'a>, ReadError>
    // What `Ok` holds.
    ensures value { IfOk result (λ v. json_of text.now ≡ Some (value_view v)) }

    // When each error comes.
    ensures kind { IfErr result (λ e. (e ≡ ReadError.OutOfMemory) ⊎ IsNoJson e) }
    ensures refused { IfErr result (λ e. IsNoJson e → json_of text.now ≡ None) }
{
    let Ok(mut reader) = Reader::new(text, scratch) else {
        return Err(ReadError::OutOfMemory);
    };
    let value = match Value::read(alloc, &mut reader, MOST_NESTED) {
        Ok(value) => value,
        Err(Error::OutOfMemory) => return Err(ReadError::OutOfMemory),
        Err(_) => return Err(no_json(alloc, text, reader.offset())),
    };
    let end = reader.offset();
    if reader.next().is_some() {
        return Err(no_json(alloc, text, end));
    }
    if numbers_fit(&value) {
        Ok(value)
    } else {
        Err(no_json(alloc, text, end))
    }
}

/// Reads bytes as [`parse`] reads a text. They are no JSON where they are no UTF-8.
pub fn parse_bytes<'a>(
    alloc: Global,
    bytes: &'a [u8],
    scratch: &'a mut Scratch,
) -> Result<Value<'a>, ReadError>
    ensures value { IfOk result
        (λ v. IsUtf8 bytes.now × (json_of bytes.now ≡ Some (value_view v))) }
    ensures kind { IfErr result (λ e. (e ≡ ReadError.OutOfMemory) ⊎ IsNoJson e) }
    ensures refused { IfErr result
        (λ e. IsNoJson e → IsUtf8 bytes.now → json_of bytes.now ≡ None) }
{
    match std::str::from_utf8(bytes) {
        Ok(text) => parse(alloc, text, scratch),
        Err(error) => Err(no_json_at(bytes, error.valid_up_to())),
    }
}

/// Whether each number in the value is within the range of doubles.
#[cycle(numbers)]
fn numbers_fit(value: &Value<'_>) -> bool
    ensures { result ≡ numbers_fit (value_view value.now) }
{
    match value {
        Value::Number(text) => numeral_fits(text),
        Value::Array(items) => items_fit(items),
        Value::Object(members) => members_fit(members),
        Value::Null | Value::Bool(_) | Value::String(_) => true,
    }
}

#[cycle(numbers)]
fn items_fit(items: &Vec<Value<'_>>) -> bool
    ensures { result ≡ items_fit (items_view items.now.items) }
{
    for item in items {
        if !numbers_fit(item) {
            return false;
        }
    }
    true
}

#[cycle(numbers)]
fn members_fit(members: &Vec<(&str, Value<'_>)>) -> bool
    ensures { result ≡ members_fit (members_view members.now.items) }
{
    for member in members {
        if !numbers_fit(&member.1) {
            return false;
        }
    }
    true
}

/// Whether a numeral tells a number that is within the range of doubles.
fn numeral_fits(text: &str) -> bool
    ensures { result ≡ numeral_fits text.now }
{
    match fast_float::parse::<f64, &str>(text) {
        Ok(number) => number.is_finite(),
        Err(_) => false,
    }
}

/// The error of a text that is no JSON from this position on. Where a number that does not fit stands
/// before it, that is the position.
#[cold]
fn no_json(alloc: Global, text: &str, position: usize) -> ReadError
    ensures { IsNoJson result }
{
    no_json_at(text.as_bytes(), position.min(first_unfit(alloc, text)))
}

/// The position after the first number that does not fit, or the end of the text.
fn first_unfit(alloc: Global, text: &str) -> usize {
    let mut scratch = Scratch::new(alloc);
    let Ok(mut reader) = Reader::new(text, &mut scratch) else {
        return text.len();
    };
    // a token takes a byte at least
    for _ in 0..text.len() {
        match reader.next() {
            Some(Token::Number(numeral)) if !numeral_fits(numeral) => return reader.offset(),
            Some(_) => {}
            None => break,
        }
    }
    text.len()
}

/// The error of bytes that are no JSON from this position on, by its line and column.
fn no_json_at(bytes: &[u8], position: usize) -> ReadError
    ensures { IsNoJson result }
{
    let mut line = 1usize;
    let mut column = 0usize;
    for byte in bytes.iter().take(position) {
        if *byte == b'\n' {
            line = line.saturating_add(1);
            column = 0;
        } else {
            column = column.saturating_add(1);
        }
    }
    if position < bytes.len() {
        column = column.saturating_add(1);
    }
    ReadError::NoJson { line, column }
}
