//! Why a module is not accepted at a position, without memory.

ghost use Rattle.std.specs.Prelude.{◌≡◌, []};
ghost use Rattle.std.specs.Option.{option_map};
ghost use Rattle.fault_details.specs.Demands.{HasNumber, One, before, needed, there, unmet};
ghost use Rattle.fault_details.specs.Shown.{shown};

use crate::words::{Counted, Need, TypeClass};
use module_semantics::ListName;
use naga_acceptance::FaultPosition;
use naga_acceptance::parts::InferredType;
use naga_info::TypeResolution;
use naga_ir::{Scalar, SwizzleComponent};

/// What was expected at a position, and what stands there.
#[derive(Debug, Clone, Copy)]
pub(crate) enum Reason<'a> {
    /// A value of one type is expected, and one of another stands there.
    OtherType {
        expected: InferredType,
        got: &'a TypeResolution,
    },
    /// An expression gives a value of one type, and another is known of it.
    KnownType {
        gives: InferredType,
        known: &'a TypeResolution,
    },
    /// A value of one scalar is expected, and one of another stands there, of which none is known of
    /// an expression.
    OtherScalar {
        expected: Scalar,
        got: Scalar,
    },
    /// A type of a class is expected, and another stands there.
    OtherClass {
        class: TypeClass,
        got: &'a TypeResolution,
    },
    /// A value is expected, and there is none.
    NoValue {
        expected: InferredType,
    },
    /// No value is expected, and there is one.
    Unexpected {
        got: &'a TypeResolution,
    },
    /// An item is named that is not there: its list has so many.
    Absent {
        list: ListName,
        index: usize,
        count: usize,
    },
    /// An item of a list of so many is named that does not stand before the one of this number.
    Later {
        list: ListName,
        index: usize,
        before: usize,
        count: usize,
    },
    /// So many are expected, and so many stand there.
    OtherNumber {
        of: Counted,
        expected: usize,
        got: usize,
    },
    /// A part is named of which there are so many.
    PastParts {
        count: usize,
        got: usize,
    },
    /// A letter is named for which a type has no component.
    LacksLetter {
        letter: SwizzleComponent,
        got: &'a TypeResolution,
    },
    /// The operator has another type where it is used at this position, over operands of types alike.
    OtherUse {
        item: FaultPosition,
        expected: &'a TypeResolution,
        got: &'a TypeResolution,
    },
    /// What else a statement needs.
    Needs {
        need: Need,
    },
}

/// An item that is not there, if its number is not below the length of its list.
pub(crate) fn absent<'a>(list: ListName, count: usize, index: usize) -> Option<Reason<'a>>
    ensures { option_map shown result ≡ unmet [] (there list count index) }
{
    if index < count {
        None
    } else {
        Some(Reason::Absent { list, index, count })
    }
}

/// The same of an item that has to stand before the one of the number `here`.
pub(crate) fn not_before<'a>(
    list: ListName,
    here: usize,
    count: usize,
    index: usize,
) -> Option<Reason<'a>>
    ensures { option_map shown result ≡ unmet [] (before list here count index) }
{
    if index < here {
        None
    } else if index < count {
        Some(Reason::Later {
            list,
            index,
            before: here,
            count,
        })
    } else {
        Some(Reason::Absent { list, index, count })
    }
}

/// Another number than is expected.
pub(crate) fn number_reason<'a>(of: Counted, expected: usize, got: usize) -> Option<Reason<'a>>
    ensures { option_map shown result ≡ unmet [] (One (HasNumber of expected got)) }
{
    if expected == got {
        None
    } else {
        Some(Reason::OtherNumber { of, expected, got })
    }
}

/// What is needed, where a test fails.
pub(crate) fn need_unless<'a>(test: bool, need: Need) -> Option<Reason<'a>>
    ensures { option_map shown result ≡ unmet [] (needed test need) }
{
    if test {
        None
    } else {
        Some(Reason::Needs { need })
    }
}
