//! What is told by a word: counts, classes of types, and what statements need.

ghost use Rattle.std.specs.Prelude.{◌≡◌, Some};
ghost use Rattle.fault_details.specs.Texts.{class_text, count_text, item_text, letter_text};
ghost use Rattle.fault_details.specs.Texts.{many_text, need_text, singular_text};

use module_semantics::ListName;
use naga_ir::SwizzleComponent;
use std::fmt;

/// An item of a list, by its number: `expressions[41]`.
#[derive(Clone, Copy)]
pub(crate) struct Numbered(pub ListName, pub usize);

impl fmt::Display for Numbered {
    ghost output = { λ it. Some (item_text it.0 it.1) };

    fn fmt<W: fmt::Write>(&self, f: &mut fmt::Formatter<W>) -> fmt::Result {
        write!(f, "{}[{}]", self.0, self.1)
    }
}

/// How many items a list has, with the verb: `is 1`, `are 12`.
#[derive(Clone, Copy)]
pub(crate) struct There(pub usize);

impl fmt::Display for There {
    ghost output = { λ there. Some (count_text there.0) };

    fn fmt<W: fmt::Write>(&self, f: &mut fmt::Formatter<W>) -> fmt::Result {
        let verb = if self.0 == 1 { "is" } else { "are" };
        write!(f, "{} {}", verb, self.0)
    }
}

/// What is counted in a fault about a wrong number of things.
#[derive(Debug, Clone, Copy, PartialEq, Eq)]
pub enum Counted {
    /// Values that a call passes.
    Arguments,
    /// Functions of which something is known.
    Functions,
    /// Entry points of which something is known.
    EntryPoints,
    /// Expressions of a function of which something is known.
    Expressions,
    /// Expressions of the module itself of which something is known.
    GlobalExpressions,
}

impl Counted {
    /// What one of these is called.
    fn singular(self) -> &'static str
        ensures { result.now ≡ singular_text self }
    {
        match self {
            Counted::Arguments => "argument",
            Counted::Functions => "function",
            Counted::EntryPoints => "entry point",
            Counted::Expressions => "expression",
            Counted::GlobalExpressions => "global expression",
        }
    }
}

/// So many of something, as words: `1 argument`, `2 arguments`.
#[derive(Clone, Copy)]
pub(crate) struct Many(pub usize, pub Counted);

impl fmt::Display for Many {
    ghost output = { λ many. Some (many_text many.0 many.1) };

    fn fmt<W: fmt::Write>(&self, f: &mut fmt::Formatter<W>) -> fmt::Result {
        let ending = if self.0 == 1 { "" } else { "s" };
        write!(f, "{} {}{}", self.0, self.1.singular(), ending)
    }
}

/// A class of types, any of which will do.
#[derive(Debug, Clone, Copy, PartialEq, Eq)]
pub enum TypeClass {
    /// `bool`
    Bool,
    /// Integers of whatever width.
    Integer,
    /// `i32` and `u32`.
    Selector,
    /// Scalars and vectors.
    Components,
    /// Vectors.
    Vector,
    /// What has parts at computed indexes: vectors, matrices, arrays, and pointers to these.
    Composite,
    /// Pointers.
    Pointer,
    /// Pointers to scalars and vectors.
    ComponentsPointer,
    /// Pointers to atomics.
    AtomicPointer,
}

impl fmt::Display for TypeClass {
    ghost output = { λ any. Some (class_text any) };

    fn fmt<W: fmt::Write>(&self, f: &mut fmt::Formatter<W>) -> fmt::Result {
        f.write_str(match self {
            TypeClass::Bool => "bool",
            TypeClass::Integer => "an integer",
            TypeClass::Selector => "i32 or u32",
            TypeClass::Components => "a scalar or a vector",
            TypeClass::Vector => "a vector",
            TypeClass::Composite => "a vector, a matrix, an array or a pointer to one of these",
            TypeClass::Pointer => "a pointer",
            TypeClass::ComponentsPointer => "a pointer to a scalar or a vector",
            TypeClass::AtomicPointer => "a pointer to an atomic",
        })
    }
}

/// What a statement needs beside values of some types.
#[derive(Debug, Clone, Copy, PartialEq, Eq)]
pub enum Need {
    /// A `Break` stands in a loop's body or in a case, and leaves no `continuing`.
    LoopOrSwitch,
    /// A `Continue` stands in a loop's body, and leaves no `continuing`.
    Loop,
    /// No case value of a switch stands twice.
    DistinctCaseValues,
    /// One case value of a switch is the default.
    Default,
    /// The last case of a switch does not fall through.
    End,
    /// The callee gives something where the result of a call is used.
    CalleeResult,
    /// The result of a statement is an expression of its kind.
    OwnResult,
}

impl fmt::Display for Need {
    ghost output = { λ it. Some (need_text it) };

    fn fmt<W: fmt::Write>(&self, f: &mut fmt::Formatter<W>) -> fmt::Result {
        f.write_str(match self {
            Need::LoopOrSwitch => "a loop or a switch to leave",
            Need::Loop => "a loop to go on with",
            Need::DistinctCaseValues => "case values that differ",
            Need::Default => "a default case",
            Need::End => "a last case that does not fall through",
            Need::CalleeResult => "a callee with a result",
            Need::OwnResult => "an expression that is its result",
        })
    }
}

/// A letter of a swizzle.
pub(crate) fn letter_str(letter: SwizzleComponent) -> &'static str
    ensures { result.now ≡ letter_text letter }
{
    match letter {
        SwizzleComponent::X => "x",
        SwizzleComponent::Y => "y",
        SwizzleComponent::Z => "z",
        SwizzleComponent::W => "w",
    }
}
