//! Scalars and images in a context, which says what becomes of those without a form.

ghost use Rattle.naga_words.specs.Output.{Spells};
ghost use Rattle.naga_spelling.specs.Values.{scalar_segments, template_segments, image_segments};

use crate::images::write_image;
use crate::scalars::{write_scalar, write_template};
use crate::types::TypeContext;
use crate::{Output, TextSink};
use naga_ir::{ImageClass, ImageDimension, Scalar};
use std::alloc::Global;

/// Writes a scalar.
pub(crate) fn write_scalar_in<C: TypeContext, W: TextSink>(
    context: &C,
    alloc: Global,
    scalar: Scalar,
    out: &mut Output<'_, W>,
)
    ensures { Spells W.text W.failures (C.context context.now).refuses out.old out.new
        (scalar_segments (C.context context.now).refuses scalar) }
{
    write_scalar(context.refuses(), alloc, scalar, out)
}

/// Writes a word with a scalar in angle brackets, of which `tail` has the closing one.
pub(crate) fn write_template_in<C: TypeContext, W: TextSink>(
    context: &C,
    alloc: Global,
    word: &str,
    scalar: Scalar,
    tail: &str,
    out: &mut Output<'_, W>,
)
    ensures { Spells W.text W.failures (C.context context.now).refuses out.old out.new
        (template_segments word.now (scalar_segments (C.context context.now).refuses scalar) tail.now) }
{
    write_template(context.refuses(), alloc, word, scalar, tail, out)
}

/// Writes an image.
pub(crate) fn write_image_in<C: TypeContext, W: TextSink>(
    context: &C,
    alloc: Global,
    dim: ImageDimension,
    arrayed: bool,
    class: ImageClass,
    out: &mut Output<'_, W>,
)
    ensures { Spells W.text W.failures (C.context context.now).refuses out.old out.new
        (image_segments (C.context context.now).refuses dim arrayed class) }
{
    write_image(context.refuses(), alloc, dim, arrayed, class, out)
}
