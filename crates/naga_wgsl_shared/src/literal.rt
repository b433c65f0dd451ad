//! Writes literals.

ghost use Rattle.std.specs.Prelude.{◌++◌, IsTrue};
ghost use Rattle.module_semantics.specs.ExpressionForms.{literal_has_form};
ghost use Rattle.naga_words.specs.Output.{Writes};
ghost use Rattle.naga_wgsl_shared.specs.Literals.{i32_text, literal_text, i64_text, i16_text};
ghost use Rattle.naga_wgsl_shared.specs.Literals.{f16_text, f32_text, f64_text, u16_text};

use float_numerals::{Decimal, push_double, push_half, push_single};
use itoa::{Buffer, Integer};
use naga_ir::Literal;
use naga_words::{Output, TextSink};
use std::alloc::Global;

/// Writes a literal as one expression: `5i`, `-5i`, `5u`, `5li`, `5lu`, `true`, and those of 16 bits
/// as `i16(-5)` and `u16(5)`. The least `i32` and
/// the least `i64` have no literal in WGSL, whose `-` stands outside, and are written
/// `i32(-2147483648)` and `i64(-9223372036854775807 - 1)`. Numerals are written as `0.5f`, `120h`,
/// `1.0lf` and `1e16lf`.
#[tactic(auto, unfolding(crate::specs::Literals::literal_text, crate::specs::Literals::i32_text, crate::specs::Literals::i64_text, crate::specs::Literals::i16_text, crate::specs::Literals::u16_text, crate::specs::Literals::f64_text, crate::specs::Literals::f32_text, crate::specs::Literals::f16_text))]
pub fn write_literal<W: TextSink>(alloc: Global, literal: Literal, out: &mut Output<'_, W>)
    requires { IsTrue (literal_has_form literal) }
    ensures { Writes W.text W.failures out.old out.new (literal_text literal) }
{
    match literal {
        Literal::Bool(value) => out.put(if value { "true" } else { "false" }),
        Literal::I16(value) => write_i16(value, out),
        Literal::U16(value) => write_u16(value, out),
        Literal::I32(value) => write_i32(value, out),
        Literal::U32(value) => write_number(value, "u", out),
        Literal::I64(value) => write_i64(value, out),
        Literal::U64(value) => write_number(value, "lu", out),
        Literal::DecimalF64(numeral) => write_double(alloc, numeral, out),
        Literal::DecimalF32(numeral) => write_single(alloc, numeral, out),
        Literal::DecimalF16(numeral) => write_half(alloc, numeral, out),
        _ => unreachable!(),
    }
}

#[tactic(auto, using(crate::proofs::Literals::double_row))]
fn write_double<W: TextSink>(alloc: Global, numeral: Decimal, out: &mut Output<'_, W>)
    ensures { Writes W.text W.failures out.old out.new (f64_text numeral) }
{
    let mut text = String::new(alloc);
    match push_double(numeral, &mut text) {
        Ok(()) => out.put(text.as_str()),
        Err(error) => out.remember(error),
    }
}

#[tactic(auto, using(crate::proofs::Literals::single_row))]
fn write_single<W: TextSink>(alloc: Global, numeral: Decimal, out: &mut Output<'_, W>)
    ensures { Writes W.text W.failures out.old out.new (f32_text numeral) }
{
    let mut text = String::new(alloc);
    match push_single(numeral, &mut text) {
        Ok(()) => out.put(text.as_str()),
        Err(error) => out.remember(error),
    }
}

#[tactic(auto, using(crate::proofs::Literals::half_row))]
fn write_half<W: TextSink>(alloc: Global, numeral: Decimal, out: &mut Output<'_, W>)
    ensures { Writes W.text W.failures out.old out.new (f16_text numeral) }
{
    let mut text = String::new(alloc);
    match push_half(numeral, &mut text) {
        Ok(()) => out.put(text.as_str()),
        Err(error) => out.remember(error),
    }
}

fn write_i16<W: TextSink>(value: i16, out: &mut Output<'_, W>)
    ensures { Writes W.text W.failures out.old out.new (i16_text value) }
{
    out.put("i16(");
    write_number(value, ")", out);
}

#[tactic(auto, using(naga_words::proofs::Writing::writes_then, crate::proofs::Literals::unsigned_short_row))]
fn write_u16<W: TextSink>(value: u16, out: &mut Output<'_, W>)
    ensures { Writes W.text W.failures out.old out.new (u16_text value) }
{
    out.put("u16(");
    write_number(value, ")", out);
}

fn write_i32<W: TextSink>(value: i32, out: &mut Output<'_, W>)
    ensures { Writes W.text W.failures out.old out.new (i32_text value) }
{
    if value == i32::MIN {
        out.put("i32(-2147483648)");
    } else {
        write_number(value, "i", out);
    }
}

fn write_i64<W: TextSink>(value: i64, out: &mut Output<'_, W>)
    ensures { Writes W.text W.failures out.old out.new (i64_text value) }
{
    if value == i64::MIN {
        out.put("i64(-9223372036854775807 - 1)");
    } else {
        write_number(value, "li", out);
    }
}

/// Writes a number, and the suffix of its type.
#[tactic(auto, using(naga_words::proofs::Writing::writes_then), unfolding(naga_words::specs::Output::joined_texts))]
pub fn write_number<I: Integer, W: TextSink>(number: I, suffix: &str, out: &mut Output<'_, W>)
    ensures { Writes W.text W.failures out.old out.new (I.text number ++ suffix.now) }
{
    let mut buffer = Buffer::new();
    out.put(buffer.format(number));
    out.put(suffix);
}
