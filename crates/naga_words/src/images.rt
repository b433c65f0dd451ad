//! Images.
//!
//! Where `refuses` holds, an image of a scalar without a word is refused; otherwise it shows the
//! scalar in braces.

ghost use Rattle.std.specs.Prelude.{false};
ghost use Rattle.naga_ir.specs.declared.image.ImageClass.TheVariants as class;
ghost use Rattle.naga_words.specs.Output.{Spells};
ghost use Rattle.naga_spelling.specs.Values.{storage_image_segments, image_segments};

use crate::output::Output;
use crate::scalars::write_template;
use crate::sink::TextSink;
use crate::word_writing::write_word;
use naga_ir::{ImageClass, ImageDimension, Scalar, ScalarKind};
use naga_spelling::words::{depth_image_str, sampled_image_str, storage_image_str};
use std::alloc::Global;
use wgsl_words::{ToWgsl, image_access_str};

#[tactic(auto, using(crate::proofs::SegmentWriting::rows))]
fn write_storage_image<W: TextSink>(word: &str, format: &str, access: &str, out: &mut Output<'_, W>)
    ensures { Spells W.text W.failures false out.old out.new
        (storage_image_segments word.now format.now access.now) }
{
    out.put(word);
    out.put("<");
    out.put(format);
    out.put(",");
    out.put(access);
    out.put(">");
}

fn write_sampled_image<W: TextSink>(
    refuses: bool,
    alloc: Global,
    multi: bool,
    dim: ImageDimension,
    arrayed: bool,
    kind: ScalarKind,
    out: &mut Output<'_, W>,
)
    ensures { Spells W.text W.failures refuses out.old out.new
        (image_segments refuses dim arrayed (class.Sampled kind multi)) }
{
    let word = sampled_image_str(multi, dim, arrayed);
    write_template(refuses, alloc, word, Scalar { kind, width: 4 }, ">", out)
}

/// Writes an image, as `texture_2d<f32>` or `texture_storage_2d<rgba8unorm,write>`.
#[tactic(auto, using(crate::proofs::SegmentWriting::spells_any))]
pub fn write_image<W: TextSink>(
    refuses: bool,
    alloc: Global,
    dim: ImageDimension,
    arrayed: bool,
    class: ImageClass,
    out: &mut Output<'_, W>,
)
    ensures { Spells W.text W.failures refuses out.old out.new
        (image_segments refuses dim arrayed class) }
{
    match class {
        ImageClass::Sampled { kind, multi } => {
            write_sampled_image(refuses, alloc, multi, dim, arrayed, kind, out)
        }
        ImageClass::Depth { multi } => write_word(depth_image_str(multi, dim, arrayed), out),
        ImageClass::External => write_word("texture_external", out),
        ImageClass::Storage { format, access } => write_storage_image(
            storage_image_str(dim, arrayed),
            format.to_wgsl(),
            image_access_str(access),
            out,
        ),
    }
}
