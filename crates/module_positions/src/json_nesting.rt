//! How deep JSON nests.

ghost use Rattle.std.specs.Prelude.{◌≡◌, ◌<◌, ◌^◌};
ghost use Rattle.module_positions.specs.JsonNesting.{nest_past, nest_too_deep, opened_after, within_after};
ghost use Rattle.module_positions.specs.declared.json_nesting.Within.TheVariants as within;

/// Where a byte of JSON stands.
#[derive(Clone, Copy, Debug, PartialEq, Eq)]
pub enum Within {
    /// Outside of strings.
    Outside,
    /// In a string.
    Text,
    /// In a string, right after a backslash.
    Escape,
}

impl Within {
    /// Where the next byte stands.
    fn after(self, byte: u8) -> Self
        ensures { result ≡ within_after self byte }
    {
        match self {
            Within::Outside => {
                if byte == b'"' {
                    Within::Text
                } else {
                    Within::Outside
                }
            }
            Within::Text => {
                if byte == b'"' {
                    Within::Outside
                } else if byte == b'\\' {
                    Within::Escape
                } else {
                    Within::Text
                }
            }
            Within::Escape => Within::Text,
        }
    }

    /// How many lists and objects are open after the byte, if so many were open in front of it.
    fn opened_after(self, byte: u8, opened: usize) -> usize
        requires { opened < 2 ^ 63 }
        ensures { result ≡ opened_after self byte opened }
    {
        match self {
            Within::Outside => {
                if byte == b'[' || byte == b'{' {
                    opened + 1
                } else if byte == b']' || byte == b'}' {
                    opened.saturating_sub(1)
                } else {
                    opened
                }
            }
            Within::Text | Within::Escape => opened,
        }
    }
}

/// Whether more lists and objects than this stand open somewhere in the bytes.
fn nests_past(json: &[u8], most: usize) -> bool
    requires { most < 2 ^ 63 }
    ensures { result ≡ nest_past most within.Outside 0 json.now }
{
    let mut opened: usize = 0;
    let mut within = Within::Outside;
    for byte in json {
        opened = within.opened_after(*byte, opened);
        if opened > most {
            return true;
        }
        within = within.after(*byte);
    }
    false
}

/// How deep lists and objects may nest, for the reader of JSON: `MOST_NESTED` of
/// `naga_json/src/text.rt`.
const DEEPEST: usize = 127;

/// What is said of JSON that nests deeper.
pub const NESTS_TOO_DEEP: &str = "lists and objects nest more than 127 deep";

/// Whether lists and objects nest more than 127 deep in the bytes, by their brackets outside of
/// strings. It is the question why a reader of JSON stopped, which says so of all that it does not
/// read alike; it does not ask for the rest.
pub fn nests_too_deep(json: &[u8]) -> bool
    ensures { result ≡ nest_too_deep json.now }
{
    nests_past(json, DEEPEST)
}
