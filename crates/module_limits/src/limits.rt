//! Both bounds together.

/// How deep a module may be nested, and how long its text may be.
///
/// ```text
/// // for a module of a user's, in a thread with 8 MB of stack
/// let limits = Limits { nesting: 4_000, text: 16_777_216 };
/// ```
#[derive(Clone, Copy, Debug, PartialEq, Eq)]
pub struct Limits {
    /// How many levels of operands, of types and of blocks may stand in one another.
    /// `docs/SPEED.md` has how many bytes of the stack a level takes.
    pub nesting: usize,
    /// How many bytes the text may have.
    pub text: usize,
}
