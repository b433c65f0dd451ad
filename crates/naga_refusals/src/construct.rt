//! The constructs for which a module is refused.

ghost use Rattle.std.specs.Prelude.{◌≡◌};
ghost use Rattle.naga_refusals.specs.Constructs.{IsToldAs, construct_text, construct_words};

use crate::error::{Error, custom, unimplemented, unsupported};
use naga_ir::{BuiltIn, MathFunction, RelationalFunction, Scalar};
use std::alloc::Global;
use std::fmt;
use wgsl_words::TryToWgsl;

/// A construct for which a module is refused, as `docs/REFUSALS.md` lists them. It is displayed as
/// the error that names it.
#[derive(Clone, Copy, Debug, PartialEq, Eq)]
pub enum Construct {
    /// A literal of a float that is held as its bits.
    FloatLiteral,
    /// A literal of an abstract type.
    AbstractLiteral,
    /// A function of mathematics that WGSL has no word for.
    MathFunction(MathFunction),
    /// A function that tests a number, which WGSL lacks.
    RelationalFunction(RelationalFunction),
    /// A scalar that WGSL has no word for.
    ScalarType(Scalar),
    /// A built-in value that WGSL has no word for.
    BuiltIn(BuiltIn),
    /// A type that has no form for another reason than its scalars.
    OtherType,
    /// A struct that no text declares, or a member of one that no text can name.
    PredeclaredStruct,
    /// A conversion of what is no scalar, vector or matrix.
    Conversion,
    /// A step of a ray query, or what it found.
    RayQuery,
    /// A scan over a subgroup that WGSL has no word for.
    SubgroupOperation,
    /// A case of a `switch` with statements that falls through.
    FallThrough,
    /// A texel that is compared and exchanged.
    ImageCompareExchange,
    /// A way to sample an image that has no form.
    SamplingMethod,
    /// An operator, or what else is no constant, in an initialiser or in the offset of a sample.
    ConstantOperator,
    /// The load of an image with both a sample and a level.
    ImageLoad,
    /// A part at a known index of what has no parts.
    Index,
    /// An operand out of scope, or what may not be given where it is.
    OutOfScope,
    /// An entry point without the payload or the mesh output of its stage.
    StageVariable,
    /// A member at an offset that is no multiple of its alignment, or a first one that is not at 0.
    OffAlignment,
    /// A member that begins before the end of the one before it.
    Overlap,
    /// An array of another stride than WGSL gives it.
    ArrayStride,
    /// A label that gets no name, since so many are like it.
    FullNamer,
    /// A member, an argument or an entry point after the last that a key can tell.
    NameKey,
}

impl Construct {
    /// The words of the construct. Of one with a value they say what kind of thing that is.
    fn words(self) -> &'static str
        ensures { result.now ≡ construct_words self }
    {
        match self {
            Construct::FloatLiteral => "float literal",
            Construct::AbstractLiteral => {
                "Abstract types should not appear in IR presented to backends"
            }
            Construct::MathFunction(_) => MathFunction::DESCRIPTION,
            Construct::RelationalFunction(_) => "relational function",
            Construct::ScalarType(_) => Scalar::DESCRIPTION,
            Construct::BuiltIn(_) => BuiltIn::DESCRIPTION,
            Construct::OtherType => "type without a WGSL form",
            Construct::PredeclaredStruct => "predeclared struct",
            Construct::Conversion => "conversion of this type",
            Construct::RayQuery => "ray query",
            Construct::SubgroupOperation => "subgroup operation",
            Construct::FallThrough => "fall-through switch case block",
            Construct::ImageCompareExchange => "image compare exchange",
            Construct::SamplingMethod => "sampling form",
            Construct::ConstantOperator => "operator in a constant",
            Construct::ImageLoad => "image load with sample and level",
            Construct::Index => "cannot index",
            Construct::OutOfScope => "operand out of scope",
            Construct::StageVariable => "missing payload or mesh output",
            Construct::OffAlignment => "member off its alignment",
            Construct::Overlap => "members overlap",
            Construct::ArrayStride => "array stride",
            Construct::FullNamer => "namer is full",
            Construct::NameKey => "name key out of range",
        }
    }

    /// The refusal that names the construct; want of memory where there is none for its text.
    pub fn to_error(self, alloc: Global) -> Error
        ensures { IsToldAs self result }
    {
        match self {
            Construct::MathFunction(fun) => unsupported(self.words(), format!(in alloc; "{fun:?}")),
            Construct::RelationalFunction(fun) => Error::UnsupportedRelationalFunction(fun),
            Construct::ScalarType(scalar) => {
                unsupported(self.words(), format!(in alloc; "{scalar:?}"))
            }
            Construct::BuiltIn(value) => unsupported(self.words(), format!(in alloc; "{value:?}")),
            Construct::FloatLiteral
            | Construct::Conversion
            | Construct::RayQuery
            | Construct::SubgroupOperation
            | Construct::FallThrough
            | Construct::ImageCompareExchange
            | Construct::SamplingMethod => unimplemented(alloc, self.words()),
            _ => custom(alloc, self.words()),
        }
    }
}

impl fmt::Display for Construct {
    ghost output = { construct_text };

    fn fmt<W: fmt::Write>(&self, f: &mut fmt::Formatter<W>) -> fmt::Result {
        match self {
            Construct::MathFunction(fun) => write!(f, "Unsupported {}: {fun:?}", self.words()),
            Construct::RelationalFunction(fun) => {
                write!(f, "Unsupported {}: {fun:?}", self.words())
            }
            Construct::ScalarType(scalar) => write!(f, "Unsupported {}: {scalar:?}", self.words()),
            Construct::BuiltIn(value) => write!(f, "Unsupported {}: {value:?}", self.words()),
            _ => f.write_str(self.words()),
        }
    }
}
