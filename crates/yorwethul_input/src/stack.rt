//! How deep a module may be nested by the stack that the program has.

use std::fs;
use std::rt::Files;

/// How many bytes of the stack are counted for a level: more than a level of any kind was seen to
/// take (`docs/SPEED.md`).
const LEVEL: usize = 2_048;

/// How many levels the stack of this program is counted to hold, where the system says what stack it
/// has, and bounds it.
pub fn levels_within<R: Files + AllocGlobal>(rt: &R) -> Option<usize> {
    match fs::read_to_string(rt, "/proc/self/limits") {
        Ok(limits) => Some(stack_in(limits.as_str())? / LEVEL),
        Err(_) => None,
    }
}

/// The bytes of stack by a table of limits as Linux prints it, in which
/// `Max stack size    8388608    unlimited    bytes` is a line.
fn stack_in(limits: &str) -> Option<usize> {
    for line in limits.lines() {
        if let Some(rest) = line.strip_prefix("Max stack size") {
            return number_in(rest.split_whitespace().next()?);
        }
    }
    None
}

fn number_in(word: &str) -> Option<usize> {
    match word.parse::<usize>() {
        Ok(number) => Some(number),
        Err(_) => None,
    }
}
