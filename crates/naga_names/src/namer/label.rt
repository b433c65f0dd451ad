//! The stem of a label: the part of an identifier that comes from the label alone.
ghost use Rattle.std.specs.Prelude.{◌≡◌, ℕ, ◌<◌, length, false, true, slice_index, codes, ◌⊎◌};
ghost use Rattle.std.specs.Prelude.{IfSome, IsTrue, List, ◌∷◌, [], ◌++◌, ◌||◌, ◌==◌, map, IfOk};
ghost use Rattle.std.specs.Prelude.{OnOk, not, string_bytes};
ghost use Rattle.std.specs.List.{list_any, starts_with};
ghost use Rattle.std.specs.Bool.{nat_eq};
ghost use Rattle.std.specs.Char.{is_ascii_alphanumeric};
ghost use Rattle.std.specs.Str.{chars};
ghost use Rattle.naga_naming.specs.Label.{is_numeric, is_mark, is_foreign, by_number};
ghost use Rattle.naga_naming.specs.Label.{after_numerics, ascii_of, with_separator};
ghost use Rattle.naga_naming.specs.Label.{without_last_separators, or_unnamed, stem_of};
ghost use Rattle.naga_naming.specs.Label.{ends_separated, IsPlain, StaysSame};
ghost use Rattle.naga_keywords.specs.Plain.{has_plain_end};
ghost use Rattle.naga_naming.specs.Naming.{ends_in_digit, has_bad_end, is_numbered};
ghost use Rattle.naga_names.specs.Ends.{IsFrontOfDigits};

use std::alloc::{AllocError, Global};
use std::fmt::Write;
use ucd_category::{GeneralCategory, GeneralCategoryGroup};

/// The stem of the label, where identifiers keep off the prefixes.
#[tactic(auto, unfolding(naga_naming::specs::Label::stem_of))]
pub fn stem(alloc: Global, prefixes: &[&'static str], label: &str) -> Result<String, AllocError>
    ensures { IfOk result (λ stem. string_bytes stem
        ≡ stem_of (map (λ p. p.now) prefixes.now) (chars label.now)) }
{
    let stem = finished(spell(alloc, label)?)?;
    if begins_reserved(stem.as_str(), prefixes) {
        return format!(in alloc; "gen_{stem}");
    }
    Ok(stem)
}

/// The stem of the label, where identifiers keep off the prefixes, if it is seen to stand in the
/// label itself: then it needs no text of its own.
pub fn own_stem<'a>(prefixes: &[&'static str], label: &'a str) -> Option<&'a str>
    ensures { IfSome result (λ stem.
        stem.now ≡ stem_of (map (λ p. p.now) prefixes.now) (chars label.now)) }
{
    let stem = without_last_separator(label);
    if is_plain(stem) && !begins_reserved(stem, prefixes) {
        Some(stem)
    } else {
        None
    }
}

/// The text without a `_` at its end.
fn without_last_separator(text: &str) -> &str
    ensures { (text.now ≡ result.now) ⊎ (text.now ≡ result.now ++ codes "_") }
{
    match text.strip_suffix('_') {
        Some(shorter) => shorter,
        None => text,
    }
}

fn is_plain(text: &str) -> bool
    ensures { IsTrue result → IsPlain text.now }
{
    begins_plainly(text) && stays_same(text)
}

/// Whether the text has a first byte, which is no number as a character.
fn begins_plainly(text: &str) -> bool
    ensures { IsTrue result →
        (0 < length text.now) × (is_numeric (slice_index text.now 0) ≡ false) }
{
    match text.as_bytes().first() {
        Some(first) => !is_numeric(&(*first as char)),
        None => false,
    }
}

/// Whether the text has letters, digits and lone `_` of ASCII alone, and no `_` at its end.
fn stays_same(text: &str) -> bool
    ensures { IsTrue result → StaysSame text.now × (ends_separated text.now ≡ false) }
{
    let bytes = text.as_bytes();
    let mut is_separated = false;
    for byte in bytes {
        if is_letter_or_digit(*byte) {
            is_separated = false;
        } else if *byte == b'_' && !is_separated {
            is_separated = true;
        } else {
            return false;
        }
    }
    !is_separated
}

/// Whether the byte is a letter or a digit of ASCII. Most bytes of labels are small letters.
fn is_letter_or_digit(byte: u8) -> bool
    ensures { result ≡ is_ascii_alphanumeric byte }
{
    if byte.is_ascii_lowercase() {
        return true;
    }
    byte.is_ascii_alphanumeric()
}

/// The text without the `_` at its end, or `unnamed` where nothing is left of it.
fn finished(mut text: String) -> Result<String, AllocError>
    ensures { IfOk result (λ finished. string_bytes finished
        ≡ or_unnamed (without_last_separators (string_bytes text))) }
{
    drop_last_separators(&mut text);
    if !text.as_str().is_empty() {
        return Ok(text);
    }
    text.push_str("unnamed")?;
    Ok(text)
}

/// Whether the stem ends in digits that its first name may not end in.
pub fn has_bad_end(keeps_digits: bool, stem: &str) -> bool
    ensures { result ≡ has_bad_end keeps_digits stem.now }
{
    ends_in_digit(stem) && (!keeps_digits || digits_are_separated(stem.as_bytes()))
}

/// Whether the text, which isn't empty, ends in an ASCII digit.
fn ends_in_digit(text: &str) -> bool
    ensures { result ≡ ends_in_digit text.now }
{
    match text.as_bytes().last() {
        Some(byte) => byte.is_ascii_digit(),
        None => false,
    }
}

/// Whether the digits at the end of the text come after a `_`, or after `_e` alone.
fn digits_are_separated(text: &[u8]) -> bool
    ensures { result ≡ (not (has_plain_end text.now) || is_numbered text.now) }
{
    let front = without_last_digits(text);
    ends_separated(front) || front == b"_e".as_slice()
}

/// Whether the text ends in a `_`.
fn ends_separated(text: &[u8]) -> bool
    ensures { result ≡ ends_separated text.now }
{
    match text.last() {
        Some(byte) => *byte == b'_',
        None => false,
    }
}

/// The text without the ASCII digits at its end.
fn without_last_digits(text: &[u8]) -> &[u8]
    ensures digits { IsFrontOfDigits text.now result.now }
    ensures all { ends_in_digit result.now ≡ false }
{
    let mut front = text;
    while let [shorter @ .., b'0'..=b'9'] = front {
        front = shorter;
    }
    front
}

/// The label's characters, from the first one on that is not numeric, each as an identifier can
/// have it.
fn spell(alloc: Global, label: &str) -> Result<String, AllocError>
    ensures { IfOk result (λ text.
        string_bytes text ≡ ascii_of (after_numerics (chars label.now))) }
{
    let mut text = String::new(alloc);
    for c in label.chars().skip_while(is_numeric) {
        push_as_ascii(&mut text, c)?;
    }
    Ok(text)
}

/// Whether the general category is Nd, Nl or No.
#[tactic(auto, unfolding(naga_naming::specs::Label::is_numeric))]
fn is_numeric(c: &char) -> bool
    ensures { result ≡ is_numeric c.now }
{
    GeneralCategoryGroup::Number.contains(GeneralCategory::for_char(*c))
}

/// One more character on a text that spells some.
fn push_as_ascii(text: &mut String, c: char) -> Result<(), AllocError>
    ensures { OnOk result ((before : List ℕ) → string_bytes text.old ≡ ascii_of before →
        string_bytes text.new ≡ ascii_of (before ++ c ∷ [])) }
{
    if is_separating(c) {
        push_separator(text)
    } else if c.is_ascii_alphanumeric() {
        text.push(c)
    } else {
        push_foreign(text, c)
    }
}

/// Whether the character is spelled `_`.
fn is_separating(c: char) -> bool
    ensures { result ≡ (is_mark c || c == 95) }
{
    matches!(c, ':' | '<' | '>' | ',' | '_')
}

/// A character that no identifier has, after a `_` unless it is the first one.
fn push_foreign(text: &mut String, c: char) -> Result<(), AllocError>
    requires { is_foreign c ≡ true }
    ensures { OnOk result ((before : List ℕ) → string_bytes text.old ≡ ascii_of before →
        string_bytes text.new ≡ ascii_of (before ++ c ∷ [])) }
{
    if text.as_str().is_empty() {
        return push_number(text, c);
    }
    push_separator(text)?;
    push_number(text, c)
}

/// The character's number, as `u00e9_`.
fn push_number(text: &mut String, c: char) -> Result<(), AllocError>
    ensures { OnOk result (string_bytes text.new ≡ string_bytes text.old ++ by_number c) }
{
    write!(text, "u{:04x}_", c as u32)
}

/// A `_`, unless the text ends in one.
fn push_separator(text: &mut String) -> Result<(), AllocError>
    ensures { OnOk result (string_bytes text.new ≡ with_separator (string_bytes text.old)) }
{
    if text.as_str().ends_with('_') {
        return Ok(());
    }
    text.push('_')
}

fn drop_last_separators(text: &mut String)
    ensures { string_bytes text.new ≡ without_last_separators (string_bytes text.old) }
{
    while text.as_str().ends_with('_') {
        let _ = text.pop();
    }
}

fn begins_reserved(text: &str, prefixes: &[&'static str]) -> bool
    ensures { result ≡ list_any (starts_with nat_eq text.now) (map (λ p. p.now) prefixes.now) }
{
    for prefix in prefixes {
        if text.starts_with(*prefix) {
            return true;
        }
    }
    false
}
