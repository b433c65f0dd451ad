//! The explanation of a fault as a value, with its text.

ghost use Rattle.std.specs.Prelude.{Some};
ghost use Rattle.fault_details.specs.Texts.{mismatch_text};

use crate::words::{Counted, Many, Need, Numbered, There, TypeClass, letter_str};
use module_semantics::ListName;
use naga_acceptance::FaultPosition;
use naga_ir::SwizzleComponent;
use std::fmt;

/// What was expected where a module is not accepted, and what stands there. A type is told as WGSL
/// spells it, structs and overrides by their labels, with line breaks escaped; or, if it is one of
/// the module, as `types[5]`, by its handle, where it has no such spelling or one with braces. Where
/// two types are spelled alike, one of the module is told by its handle, a pointer or an array by
/// itself with that of the type that it names, as `ptr<function, S> of types[5]`, and if that
/// tells them alike too, the second as `another`.
#[derive(Debug, Drop)]
pub enum Mismatch {
    /// A value of one type is expected, and one of another stands there:
    /// `expected vec4<f32>, got f32`.
    Type {
        /// The type that is expected.
        expected: String,
        /// The type that stands there.
        got: String,
    },
    /// An expression gives a value of one type, and another is known of it:
    /// `the expression gives vec4<f32>, the info has vec3<f32>`.
    KnownType {
        /// The type of what the expression gives.
        gives: String,
        /// The type that is known of it.
        known: String,
    },
    /// A type of a class is expected, and another stands there:
    /// `expected a scalar or a vector, got mat2x2<f32>`.
    Class {
        /// The types of which any is expected.
        class: TypeClass,
        /// The type that stands there.
        got: String,
    },
    /// A value is expected, and there is none: `expected i32, got nothing`.
    Value {
        /// The type that is expected.
        expected: String,
    },
    /// No value is expected, and there is one: `expected nothing, got i32`.
    Nothing {
        /// The type that stands there.
        got: String,
    },
    /// An item is named that is not there: `names expressions[41], of which there are 12`.
    Item {
        /// The list that it would stand in.
        list: ListName,
        /// Its number.
        index: usize,
        /// How many items the list has.
        count: usize,
    },
    /// An item is named that is there, but not before the one that it has to stand before:
    /// `names expressions[7], expected one before expressions[3], of 12`.
    EarlierItem {
        /// The list that it stands in.
        list: ListName,
        /// Its number.
        index: usize,
        /// The number of the item that it has to stand before.
        before: usize,
        /// How many items the list has.
        count: usize,
    },
    /// So many are expected, and so many stand there: `expected 2 arguments, got 3`.
    Number {
        /// What is counted.
        of: Counted,
        /// How many are expected.
        expected: usize,
        /// How many stand there.
        got: usize,
    },
    /// A part is named that is not there: `expected an index below 3, got 5`.
    Part {
        /// How many parts there are.
        count: usize,
        /// The number of the one that is named.
        got: usize,
    },
    /// A letter is named for which a vector has no component:
    /// `names .w, which vec2<f32> does not have`.
    Letter {
        /// The letter that is named.
        letter: SwizzleComponent,
        /// The type of the vector.
        got: String,
    },
    /// The first use of the operator that is over operands of types alike and has another type:
    /// `expected i32 as at function 0, expression 1, got f32`.
    Use {
        /// The position of that use: an expression of a function, of an entry point or of the
        /// module itself.
        item: FaultPosition,
        /// The type that it has.
        expected: String,
        /// The type that stands here.
        got: String,
    },
    /// What else a statement needs: `expected a loop to go on with`.
    Need(Need),
}

impl fmt::Display for Mismatch {
    ghost output = { λ w. Some (mismatch_text w) };

    fn fmt<W: fmt::Write>(&self, f: &mut fmt::Formatter<W>) -> fmt::Result {
        match self {
            Mismatch::Type { expected, got } => write!(f, "expected {}, got {}", expected, got),
            Mismatch::KnownType { gives, known } => {
                write!(f, "the expression gives {}, the info has {}", gives, known)
            }
            Mismatch::Class { class, got } => write!(f, "expected {}, got {}", class, got),
            Mismatch::Value { expected } => write!(f, "expected {}, got nothing", expected),
            Mismatch::Nothing { got } => write!(f, "expected nothing, got {}", got),
            Mismatch::Item { list, index, count } => {
                let item = Numbered(*list, *index);
                write!(f, "names {}, of which there {}", item, There(*count))
            }
            Mismatch::EarlierItem {
                list,
                index,
                before,
                count,
            } => {
                let item = Numbered(*list, *index);
                let next = Numbered(*list, *before);
                write!(
                    f,
                    "names {}, expected one before {}, of {}",
                    item, next, count
                )
            }
            Mismatch::Number { of, expected, got } => {
                write!(f, "expected {}, got {}", Many(*expected, *of), got)
            }
            Mismatch::Part { count, got } => {
                write!(f, "expected an index below {}, got {}", count, got)
            }
            Mismatch::Letter { letter, got } => {
                write!(
                    f,
                    "names .{}, which {} does not have",
                    letter_str(*letter),
                    got
                )
            }
            Mismatch::Use {
                item,
                expected,
                got,
            } => { write!(f, "expected {} as at {}, got {}", expected, item, got) }
            Mismatch::Need(need) => write!(f, "expected {}", need),
        }
    }
}
