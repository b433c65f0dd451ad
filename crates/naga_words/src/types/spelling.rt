//! Types in a context, each by its row: a word and the types that it names.

ghost use Rattle.std.specs.Prelude.{◌≡◌, ◌<◌, ◌≤◌, codes, false, length, IsTrue};
ghost use Rattle.naga_words.specs.Output.{Spells};
ghost use Rattle.naga_spelling.specs.Segments.{shown_between};
ghost use Rattle.naga_spelling.specs.Spelling.{IsInOrder, end_of_base, is_struct, knows_override};
ghost use Rattle.naga_spelling.specs.Spelling.{array_segments, inner_segments, knows_size};
ghost use Rattle.naga_spelling.specs.Spelling.{length_segments};
ghost use Rattle.naga_spelling.specs.Spelling.{length_of_override, named_segments_by};
ghost use Rattle.naga_spelling.specs.Spelling.{pointer_segments};
ghost use Rattle.naga_spelling.specs.Spelling.{type_segments};
ghost use Rattle.naga_spelling.specs.Values.{unsupported_segments, pointer_in, value_segments};
ghost use Rattle.naga_spelling.specs.Values.{value_pointer_segments};
ghost use Rattle.wgsl_words.specs.Words.{space_word, space_access_word};

use crate::scalars::{write_access, write_value_pointer_in};
use crate::types::TypeContext;
use crate::types::scalars::{write_image_in, write_scalar_in, write_template_in};
use crate::word_writing::{write_number_length, write_shown, write_word};
use crate::{Output, TextSink};
use naga_ir::{AddressSpace, ArraySize, Handle, Override, Scalar, Type_, TypeInner, VectorSize};
use naga_spelling::words::{
    acceleration_structure_str, cooperative_str, matrix_str, ray_query_str, role_tail_str,
    sampler_str, vector_str,
};
use std::alloc::Global;
use wgsl_words::space_str;

/// Whether a type is a struct.
pub(crate) fn is_struct_type(inner: &TypeInner) -> bool
    ensures { result ≡ is_struct inner.now }
{
    matches!(inner, TypeInner::Struct { .. })
}

/// Writes a type's debug text in braces.
fn write_shown_inner<W: TextSink>(alloc: Global, inner: &TypeInner, out: &mut Output<'_, W>)
    ensures { Spells W.text W.failures false out.old out.new
        (shown_between (codes "{non-WGSL Naga type ") (codes "}")) }
{
    match format!(in alloc; "{inner:?}") {
        Ok(debug) => write_shown("{non-WGSL Naga type ", debug.as_str(), "}", out),
        Err(error) => out.remember(error),
    }
}

/// Writes a type without a form in braces, or refuses it.
#[tactic(auto, using(crate::proofs::SegmentWriting::rows))]
pub(crate) fn write_unsupported_inner<C: TypeContext, W: TextSink>(
    context: &C,
    alloc: Global,
    inner: &TypeInner,
    out: &mut Output<'_, W>,
)
    ensures { Spells W.text W.failures (C.context context.now).refuses out.old out.new
        (unsupported_segments (C.context context.now).refuses) }
{
    if context.refuses() {
        out.refuse();
    } else {
        write_shown_inner(alloc, inner, out);
    }
}

/// Writes a pointer to a scalar or a vector; `inner` is that pointer.
fn write_value_pointer<C: TypeContext, W: TextSink>(
    context: &C,
    alloc: Global,
    inner: &TypeInner,
    size: Option<VectorSize>,
    scalar: Scalar,
    space: AddressSpace,
    out: &mut Output<'_, W>,
)
    ensures { Spells W.text W.failures (C.context context.now).refuses out.old out.new
        (value_pointer_segments (C.context context.now).refuses (space_word space)
        (space_access_word space) (value_segments (C.context context.now).refuses size scalar)) }
{
    match space_str(space) {
        Some(word) => write_value_pointer_in(
            context.refuses(),
            alloc,
            word,
            size,
            scalar,
            space,
            out,
        ),
        None => write_unsupported_inner(context, alloc, inner, out),
    }
}

#[tactic(auto, using(crate::proofs::SegmentWriting::rows))]
fn write_pending_length<C: TypeContext, W: TextSink>(
    context: &C,
    alloc: Global,
    handle: Handle<Override>,
    out: &mut Output<'_, W>,
)
    requires { IsTrue ((C.context context.now).knows handle) }
    ensures { Spells W.text W.failures (C.context context.now).refuses out.old out.new
        (length_of_override ((C.context context.now).override_segments handle)) }
{
    out.put(", ");
    write_override_in(context, alloc, handle, out);
    out.put(">");
}

/// Writes an override as the context does.
#[tactic(auto, using(crate::proofs::SegmentWriting::lent))]
fn write_override_in<C: TypeContext, W: TextSink>(
    context: &C,
    alloc: Global,
    handle: Handle<Override>,
    out: &mut Output<'_, W>,
)
    requires { IsTrue ((C.context context.now).knows handle) }
    ensures { Spells W.text W.failures (C.context context.now).refuses out.old out.new
        ((C.context context.now).override_segments handle) }
{
    if out.is_wanting() {
        return;
    }
    if let Err(want) = context.write_override(alloc, handle, out.sink) {
        out.want = Some(want);
    }
}

/// Writes a struct without a handle as the context does.
#[tactic(auto, using(crate::proofs::SegmentWriting::lent))]
fn write_unnamed_in<C: TypeContext, W: TextSink>(
    context: &C,
    alloc: Global,
    inner: &TypeInner,
    out: &mut Output<'_, W>,
)
    requires { IsTrue (is_struct inner.now) }
    ensures { Spells W.text W.failures (C.context context.now).refuses out.old out.new
        (C.context context.now).unnamed_segments }
{
    if out.is_wanting() {
        return;
    }
    if let Err(want) = context.write_unnamed_struct(alloc, inner, out.sink) {
        out.want = Some(want);
    }
}

/// Writes the length of an array and the bracket that closes it.
#[tactic(auto, using(crate::proofs::SegmentWriting::rows))]
fn write_length<C: TypeContext, W: TextSink>(
    context: &C,
    alloc: Global,
    size: ArraySize,
    out: &mut Output<'_, W>,
)
    requires { IsTrue (knows_size (C.context context.now) size) }
    ensures { Spells W.text W.failures (C.context context.now).refuses out.old out.new
        (length_segments (C.context context.now) size) }
{
    match size {
        ArraySize::Constant(number) => write_number_length(alloc, number, out),
        ArraySize::Pending(handle) => write_pending_length(context, alloc, handle, out),
        ArraySize::Dynamic => write_word(">", out),
    }
}

#[cycle(spelling)]
#[tactic(auto, using(crate::proofs::SegmentWriting::rows))]
fn write_pointer_in<C: TypeContext, W: TextSink>(
    context: &C,
    alloc: Global,
    word: &str,
    base: Handle<Type_>,
    space: AddressSpace,
    out: &mut Output<'_, W>,
)
    requires order { IsInOrder (C.context context.now) }
    requires in_range { base < length (C.context context.now).types }
    ensures { Spells W.text W.failures (C.context context.now).refuses out.old out.new
        (pointer_in word.now (space_access_word space) (type_segments (C.context context.now) base)) }
{
    out.put("ptr<");
    out.put(word);
    out.put(", ");
    write_type_in(context, alloc, base, out);
    write_access(space, out);
}

/// Writes a pointer; in the space of handles, what it points to.
#[cycle(spelling)]
fn write_pointer<C: TypeContext, W: TextSink>(
    context: &C,
    alloc: Global,
    base: Handle<Type_>,
    space: AddressSpace,
    out: &mut Output<'_, W>,
)
    requires order { IsInOrder (C.context context.now) }
    requires in_range { base < length (C.context context.now).types }
    ensures { Spells W.text W.failures (C.context context.now).refuses out.old out.new
        (pointer_segments (space_word space) (space_access_word space)
        (type_segments (C.context context.now) base)) }
{
    match space_str(space) {
        Some(word) => write_pointer_in(context, alloc, word, base, space, out),
        None => write_type_in(context, alloc, base, out),
    }
}

#[cycle(spelling)]
#[tactic(auto, using(crate::proofs::SegmentWriting::rows))]
fn write_array<C: TypeContext, W: TextSink>(
    context: &C,
    alloc: Global,
    word: &str,
    base: Handle<Type_>,
    size: ArraySize,
    out: &mut Output<'_, W>,
)
    requires order { IsInOrder (C.context context.now) }
    requires in_range { base < length (C.context context.now).types }
    requires knows { IsTrue (knows_size (C.context context.now) size) }
    ensures { Spells W.text W.failures (C.context context.now).refuses out.old out.new
        (array_segments (C.context context.now) word.now (type_segments (C.context context.now) base)
        size) }
{
    out.put(word);
    out.put("<");
    write_type_in(context, alloc, base, out);
    write_length(context, alloc, size, out);
}

/// Writes a type by itself.
#[cycle(spelling)]
#[tactic(auto, using(crate::proofs::SegmentWriting::spells_any))]
pub(crate) fn write_inner_in<C: TypeContext, W: TextSink>(
    context: &C,
    alloc: Global,
    inner: &TypeInner,
    out: &mut Output<'_, W>,
)
    requires order { IsInOrder (C.context context.now) }
    requires in_range { end_of_base inner.now ≤ length (C.context context.now).types }
    requires knows { IsTrue (knows_override (C.context context.now) inner.now) }
    ensures { Spells W.text W.failures (C.context context.now).refuses out.old out.new
        (inner_segments (C.context context.now) inner.now) }
{
    match inner {
        TypeInner::Scalar(scalar) => write_scalar_in(context, alloc, *scalar, out),
        TypeInner::Vector { size, scalar } => {
            write_template_in(context, alloc, vector_str(*size), *scalar, ">", out)
        }
        TypeInner::Matrix {
            columns,
            rows,
            scalar,
        } => {
            write_template_in(
                context,
                alloc,
                matrix_str(*columns, *rows),
                *scalar,
                ">",
                out,
            )
        }
        TypeInner::CooperativeMatrix {
            columns,
            rows,
            scalar,
            role,
        } => write_template_in(
            context,
            alloc,
            cooperative_str(*columns, *rows),
            *scalar,
            role_tail_str(*role),
            out,
        ),
        TypeInner::Atomic(scalar) => write_template_in(context, alloc, "atomic", *scalar, ">", out),
        TypeInner::Pointer { base, space } => write_pointer(context, alloc, *base, *space, out),
        TypeInner::ValuePointer {
            size,
            scalar,
            space,
        } => { write_value_pointer(context, alloc, inner, *size, *scalar, *space, out) }
        TypeInner::Array { base, size, .. } => {
            write_array(context, alloc, "array", *base, *size, out)
        }
        TypeInner::Struct { .. } => write_unnamed_in(context, alloc, inner, out),
        TypeInner::Image {
            dim,
            arrayed,
            class,
        } => { write_image_in(context, alloc, *dim, *arrayed, *class, out) }
        TypeInner::Sampler { comparison } => write_word(sampler_str(*comparison), out),
        TypeInner::AccelerationStructure { vertex_return } => {
            write_word(acceleration_structure_str(*vertex_return), out)
        }
        TypeInner::RayQuery { vertex_return } => write_word(ray_query_str(*vertex_return), out),
        TypeInner::BindingArray { base, size } => {
            write_array(context, alloc, "binding_array", *base, *size, out)
        }
    }
}

/// Writes the type at a handle, which is `inner`: a struct by its name.
#[cycle(spelling)]
#[tactic(auto, using(crate::proofs::SegmentWriting::spells_any))]
fn write_named<C: TypeContext, W: TextSink>(
    context: &C,
    alloc: Global,
    handle: Handle<Type_>,
    inner: &TypeInner,
    out: &mut Output<'_, W>,
)
    requires order { IsInOrder (C.context context.now) }
    requires in_range { handle < length (C.context context.now).types }
    requires before { end_of_base inner.now ≤ handle }
    requires knows { IsTrue (knows_override (C.context context.now) inner.now) }
    ensures { Spells W.text W.failures (C.context context.now).refuses out.old out.new
        (named_segments_by (C.context context.now) (type_segments (C.context context.now)) handle
        inner.now) }
{
    if is_struct_type(inner) {
        write_word(context.type_name(handle), out);
    } else {
        write_inner_in(context, alloc, inner, out);
    }
}

/// Writes the type at a handle.
#[cycle(spelling)]
#[tactic(auto, using(naga_spelling::proofs::Levels::type_segments_is))]
pub fn write_type_in<C: TypeContext, W: TextSink>(
    context: &C,
    alloc: Global,
    handle: Handle<Type_>,
    out: &mut Output<'_, W>,
)
    requires order { IsInOrder (C.context context.now) }
    requires in_range { handle < length (C.context context.now).types }
    ensures { Spells W.text W.failures (C.context context.now).refuses out.old out.new
        (type_segments (C.context context.now) handle) }
{
    write_named(
        context,
        alloc,
        handle,
        &context.lookup_type(handle).inner,
        out,
    )
}
