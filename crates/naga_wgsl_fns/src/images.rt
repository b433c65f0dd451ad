//! How images are sampled.

ghost use Rattle.std.specs.Prelude.{◌≡◌, ◌<◌, ◌||◌, Bool, IsTrue, false, length, slice_get, true};
ghost use Rattle.std.specs.Option.{is_some, option_to_list};
ghost use Rattle.module_semantics.specs.ExpressionOperators.{level_of};
ghost use Rattle.module_semantics.specs.ExpressionOperators.{image_sample_operator};
ghost use Rattle.module_semantics.specs.OperatorTable.{Sample, run_word, zero_is_written};
ghost use Rattle.module_semantics.specs.Sampling.{offset_has_form, sampling_has_form};
ghost use Rattle.naga_form.specs.Expressions.{zero_is_whole};
ghost use Rattle.naga_form.specs.Images.{sampling_word};
ghost use Rattle.naga_ir.specs.Operands.{level_operands};
ghost use Rattle.naga_words.specs.Output.{Writes};
ghost use Rattle.naga_wgsl_fns.specs.Expressions.{own_text};
ghost use Rattle.naga_wgsl_fns.specs.FunctionText.{AreInText, CanWrite, IsInText, expressions};
ghost use Rattle.naga_wgsl_fns.specs.FunctionText.{source};
ghost use Rattle.naga_wgsl_fns.specs.Images.{component_text, depths_at, furthers_text, head_text};
ghost use Rattle.naga_wgsl_fns.specs.Images.{is_sampled, offset_text, zero_text};

use crate::functions::FunctionText;
use naga_back::is_portable;
use naga_ir::{Expression, Handle, ImageClass, SampleLevel, SwizzleComponent, TypeInner};
use naga_scope::Scope;
use naga_words::{Output, TextSink};

impl FunctionText<'_> {
    /// A sampling: its word with the operands, after them level zero where it is written, and last
    /// the offset as a constant.
    #[cycle(expression)]
    pub(crate) fn write_sampling<W: TextSink>(
        &self,
        scope: &Scope,
        handle: Handle<Expression>,
        out: &mut Output<'_, W>,
    )
        requires can { CanWrite self.now }
        requires handle { IsInText self.now handle }
        requires sampled { IsTrue (is_sampled (slice_get (expressions self.now) handle)) }
        ensures { Writes W.text W.failures out.old out.new (own_text self.now scope.now.table handle) }
    {
        match &self.function.expressions[handle] {
            Expression::ImageSample {
                image,
                sampler,
                gather,
                coordinate,
                array_index,
                offset,
                level,
                depth_ref,
                clamp_to_edge,
            } => {
                let compares = depth_ref.is_some();
                let by_name = is_zero_by_name(*gather, compares, *clamp_to_edge);
                let word = sampling_str(*gather, *level, compares, *clamp_to_edge);
                self.write_sampling_head(word, *image, *gather, out);
                self.write_value(scope, *image, out);
                self.write_next_operand(scope, false, *sampler, out);
                self.write_next_operand(scope, false, *coordinate, out);
                self.write_further(scope, *array_index, out);
                self.write_further(scope, *depth_ref, out);
                self.write_level(scope, *level, out);
                out.put(level_str(*level, by_name, self.zero_is_whole(*image)));
                self.write_offset(*offset, out);
                out.put(")");
            }
            _ => unreachable!(),
        }
    }

    /// The word of a sampling and `(`, and after that the component of a gather.
    fn write_sampling_head<W: TextSink>(
        &self,
        word: &str,
        image: Handle<Expression>,
        gather: Option<SwizzleComponent>,
        out: &mut Output<'_, W>,
    )
        requires can { CanWrite self.now }
        requires image { IsInText self.now image }
        ensures { Writes W.text W.failures out.old out.new
            (head_text self.now word.now image gather) }
    {
        out.put(word);
        out.put("(");
        out.put(component_str(self.has_depths(image), gather));
    }

    /// Whether an expression is an image of depths, which have no components.
    fn has_depths(&self, image: Handle<Expression>) -> bool
        requires can { CanWrite self.now }
        requires image { image < length self.now.info.now }
        ensures { result ≡ depths_at self.now image }
    {
        match self.type_of(image) {
            TypeInner::Image { class, .. } => matches!(class, ImageClass::Depth { .. }),
            _ => false,
        }
    }

    /// Whether level zero of this image is written as a whole number, which standard compilers ask for
    /// where it is one of depths.
    fn zero_is_whole(&self, image: Handle<Expression>) -> bool
        requires can { CanWrite self.now }
        requires image { IsInText self.now image }
        ensures { result ≡ zero_is_whole (source self.now) image }
    {
        is_portable(self.known.flags) && self.has_depths(image)
    }

    /// A further operand, if there is one.
    #[cycle(expression)]
    fn write_further<W: TextSink>(
        &self,
        scope: &Scope,
        operand: Option<Handle<Expression>>,
        out: &mut Output<'_, W>,
    )
        requires can { CanWrite self.now }
        requires operand { AreInText self.now (option_to_list operand) }
        ensures { Writes W.text W.failures out.old out.new
            (furthers_text self.now scope.now.table (option_to_list operand)) }
    {
        if let Some(operand) = operand {
            self.write_next_operand(scope, false, operand, out);
        }
    }

    /// The level at which an image is sampled, as far as it is told by operands.
    #[cycle(expression)]
    fn write_level<W: TextSink>(&self, scope: &Scope, level: SampleLevel, out: &mut Output<'_, W>)
        requires can { CanWrite self.now }
        requires level { AreInText self.now (level_operands level) }
        ensures { Writes W.text W.failures out.old out.new
            (furthers_text self.now scope.now.table (level_operands level)) }
    {
        match level {
            SampleLevel::Auto => {}
            SampleLevel::Zero => {}
            SampleLevel::Exact(level) => self.write_next_operand(scope, false, level, out),
            SampleLevel::Bias(bias) => self.write_next_operand(scope, false, bias, out),
            SampleLevel::Gradient { x, y } => {
                self.write_next_operand(scope, false, x, out);
                self.write_next_operand(scope, false, y, out);
            }
        }
    }

    /// The offset of a sampling, if there is one: a constant that is written out, whether it has a
    /// name or not.
    #[cycle(expression)]
    fn write_offset<W: TextSink>(&self, offset: Option<Handle<Expression>>, out: &mut Output<'_, W>)
        requires can { CanWrite self.now }
        requires offset { AreInText self.now (option_to_list offset) }
        requires constant { IsTrue (offset_has_form (expressions self.now) offset) }
        ensures { Writes W.text W.failures out.old out.new (offset_text self.now offset) }
    {
        if let Some(offset) = offset {
            self.write_next_operand(&Scope::without_names(self.known.alloc), false, offset, out);
        }
    }
}

/// The word of a sampling that has a form.
fn sampling_str(
    gather: Option<SwizzleComponent>,
    level: SampleLevel,
    compares: bool,
    clamped: bool,
) -> &'static str
    requires { IsTrue (sampling_has_form gather level compares clamped) }
    ensures { (of_depths : Bool) → result.now ≡ sampling_word
        (image_sample_operator of_depths gather (level_of level) compares clamped false false) }
{
    match gather {
        Some(_) => {
            if compares {
                "textureGatherCompare"
            } else {
                "textureGather"
            }
        }
        None => {
            if clamped {
                "textureSampleBaseClampToEdge"
            } else if compares {
                compared_str(level)
            } else {
                sampled_str(level)
            }
        }
    }
}

fn sampled_str(level: SampleLevel) -> &'static str
    ensures { result.now ≡ run_word (Sample (level_of level) false false false false) }
{
    match level {
        SampleLevel::Auto => "textureSample",
        SampleLevel::Zero | SampleLevel::Exact(_) => "textureSampleLevel",
        SampleLevel::Bias(_) => "textureSampleBias",
        SampleLevel::Gradient { .. } => "textureSampleGrad",
    }
}

fn compared_str(level: SampleLevel) -> &'static str
    ensures { result.now ≡ run_word (Sample (level_of level) true false false false) }
{
    match level {
        SampleLevel::Auto => "textureSampleCompare",
        SampleLevel::Zero | SampleLevel::Exact(_) => "textureSampleCompareLevel",
        SampleLevel::Bias(_) => "textureSampleCompareBias",
        SampleLevel::Gradient { .. } => "textureSampleCompareGrad",
    }
}

/// The component of a gather, in front of its operands. That of an image of depths is not told.
fn component_str(of_depths: bool, gather: Option<SwizzleComponent>) -> &'static str
    ensures { result.now ≡ component_text of_depths gather }
{
    if of_depths {
        return "";
    }
    match gather {
        Some(SwizzleComponent::X) => "0, ",
        Some(SwizzleComponent::Y) => "1, ",
        Some(SwizzleComponent::Z) => "2, ",
        Some(SwizzleComponent::W) => "3, ",
        None => "",
    }
}

/// Whether another word tells level zero: that of a gather, of a comparison or of a clamped sampling.
fn is_zero_by_name(gather: Option<SwizzleComponent>, compares: bool, clamped: bool) -> bool
    ensures { result ≡ (is_some gather || (compares || clamped)) }
{
    gather.is_some() || compares || clamped
}

/// Level zero as a number, where no other word tells it.
fn level_str(level: SampleLevel, by_name: bool, is_whole: bool) -> &'static str
    ensures { result.now ≡ zero_text (zero_is_written (level_of level) by_name) is_whole }
{
    match level {
        SampleLevel::Zero => { if by_name { "" } else { zero_str(is_whole) } }
        _ => "",
    }
}

fn zero_str(is_whole: bool) -> &'static str
    ensures { result.now ≡ zero_text true is_whole }
{
    if is_whole { ", 0" } else { ", 0.0" }
}
