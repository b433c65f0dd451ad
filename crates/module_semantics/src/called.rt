//! The words by which operators are called: one table for all that an expression applies by itself.

ghost use Rattle.std.specs.Prelude.{◌≡◌};
ghost use Rattle.std.specs.Option.{option_map};
ghost use Rattle.module_semantics.specs.ExpressionOperators.{called_word, query_operator};
ghost use Rattle.module_semantics.specs.OperatorTable.{Derivative, relational_word, run_word};

use naga_ir::{DerivativeAxis, DerivativeControl, Expression, ImageQuery, RelationalFunction};
use naga_spelling::words::vector_str;
use wgsl_words::TryToWgsl;

/// The word by which a text calls the operator that an expression applies by itself, with all of its
/// operands. One that has a sign or no word has none here, and so has what applies no operator or takes
/// one from the types around it.
pub fn called_str(expression: &Expression) -> Option<&'static str>
    ensures { option_map (λ w. w.now) result ≡ called_word expression.now }
{
    match expression {
        Expression::Select { .. } => Some("select"),
        Expression::Splat { size, .. } => Some(vector_str(*size)),
        Expression::Math { fun, .. } => fun.try_to_wgsl(),
        Expression::Relational { fun, .. } => relational_function_str(*fun),
        Expression::Derivative { axis, ctrl, .. } => Some(derivative_str(*axis, *ctrl)),
        Expression::ImageLoad { sample, level, .. } => {
            if sample.is_some() && level.is_some() {
                None
            } else {
                Some("textureLoad")
            }
        }
        Expression::ImageQuery { query, .. } => Some(image_query_str(*query)),
        Expression::ArrayLength(_) => Some("arrayLength"),
        Expression::CooperativeMultiplyAdd { .. } => Some("coopMultiplyAdd"),
        _ => None,
    }
}

/// The word of a relation, if it has one.
fn relational_function_str(fun: RelationalFunction) -> Option<&'static str>
    ensures { option_map (λ w. w.now) result ≡ relational_word fun }
{
    match fun {
        RelationalFunction::All => Some("all"),
        RelationalFunction::Any => Some("any"),
        RelationalFunction::IsNan | RelationalFunction::IsInf => None,
    }
}

/// The word of a derivative.
fn derivative_str(axis: DerivativeAxis, control: DerivativeControl) -> &'static str
    ensures { result.now ≡ run_word (Derivative axis control) }
{
    match (axis, control) {
        (DerivativeAxis::X, DerivativeControl::Coarse) => "dpdxCoarse",
        (DerivativeAxis::X, DerivativeControl::Fine) => "dpdxFine",
        (DerivativeAxis::X, DerivativeControl::None) => "dpdx",
        (DerivativeAxis::Y, DerivativeControl::Coarse) => "dpdyCoarse",
        (DerivativeAxis::Y, DerivativeControl::Fine) => "dpdyFine",
        (DerivativeAxis::Y, DerivativeControl::None) => "dpdy",
        (DerivativeAxis::Width, DerivativeControl::Coarse) => "fwidthCoarse",
        (DerivativeAxis::Width, DerivativeControl::Fine) => "fwidthFine",
        (DerivativeAxis::Width, DerivativeControl::None) => "fwidth",
    }
}

/// What asks an image for its size or for one of its counts.
fn image_query_str(query: ImageQuery) -> &'static str
    ensures { result.now ≡ run_word (query_operator query) }
{
    match query {
        ImageQuery::Size { .. } => "textureDimensions",
        ImageQuery::NumLevels => "textureNumLevels",
        ImageQuery::NumLayers => "textureNumLayers",
        ImageQuery::NumSamples => "textureNumSamples",
    }
}
