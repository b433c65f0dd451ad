//! Which rules have names that WGSL can have.

ghost use Rattle.std.specs.Prelude.{◌≡◌};
ghost use Rattle.std.specs.List.{list_all};
ghost use Rattle.naga_keywords.specs.Plain.{is_empty_or_separated, is_identifier};
ghost use Rattle.naga_keywords.specs.Plain.{is_identifier_char};
ghost use Rattle.diagnostic_directives.specs.Names.{has_name, is_name, is_reserved};

use naga_ir::FilterableTriggeringRule;
use naga_keywords::by_bytes::reserved_words;
use std::alloc::Global;

/// Whether the rule's name is one of the standard, an identifier, or for a tool's rule two of them.
/// It takes no memory.
pub(crate) fn has_name(alloc: Global, rule: &FilterableTriggeringRule) -> bool
    ensures { result ≡ has_name rule.now }
{
    match rule {
        FilterableTriggeringRule::Standard(_) => true,
        FilterableTriggeringRule::Unknown(name) => is_name(alloc, name.as_str()),
        FilterableTriggeringRule::User([tool, name]) => {
            is_name(alloc, tool.as_str()) && is_name(alloc, name.as_str())
        }
    }
}

/// Whether the word is an identifier that is not reserved.
fn is_name(alloc: Global, word: &str) -> bool
    ensures { result ≡ is_name word.now }
{
    is_identifier(word.as_bytes()) && !is_reserved(alloc, word)
}

fn is_reserved(alloc: Global, word: &str) -> bool
    ensures { result ≡ is_reserved word.now }
{
    reserved_words(alloc).contains(word)
}

/// Whether these are ASCII letters, digits and `_` alone, no digit first and not `__`, and not a `_`
/// alone.
fn is_identifier(word: &[u8]) -> bool
    ensures { result ≡ is_identifier word.now }
{
    match word {
        [] => false,
        [first, rest @ ..] => {
            are_identifier_bytes(word)
                && !first.is_ascii_digit()
                && !(*first == b'_' && is_empty_or_separated(rest))
        }
    }
}

fn are_identifier_bytes(bytes: &[u8]) -> bool
    ensures { result ≡ list_all is_identifier_char bytes.now }
{
    bytes.iter().all(|byte| is_identifier_byte(*byte))
}

fn is_identifier_byte(byte: u8) -> bool
    ensures { result ≡ is_identifier_char byte }
{
    byte.is_ascii_alphanumeric() || byte == b'_'
}

/// Whether there is nothing, or a `_` first.
fn is_empty_or_separated(bytes: &[u8]) -> bool
    ensures { result ≡ is_empty_or_separated bytes.now }
{
    match bytes {
        [] => true,
        [first, ..] => *first == b'_',
    }
}
