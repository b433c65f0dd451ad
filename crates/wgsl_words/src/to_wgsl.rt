//! WGSL's words for values of the IR.

ghost use Rattle.std.specs.Prelude.{◌≡◌, ℕ, List, Option, ◌++◌, codes, IfOk, string_bytes};
ghost use Rattle.std.specs.Option.{option_map};
ghost use Rattle.wgsl_words.specs.Words.{interpolation_word, sampling_word, matrix_role_word};
ghost use Rattle.wgsl_words.specs.Words.{dimension_word, format_word, math_word, builtin_word};
ghost use Rattle.wgsl_words.specs.Words.{scalar_word, space_word, space_access_word};
ghost use Rattle.wgsl_words.specs.Words.{buffer_access_word, image_access_word, packing_word};
ghost use Rattle.wgsl_words.specs.Diagnostics.{IsWordOrBraced, IsScalarDiagnostic, braced_text};

use bitflags::Flags;
use naga_ir::{
    AddressSpace, BuiltIn, CooperativeRole, ImageDimension, Interpolation, MathFunction, Sampling,
    Scalar, ScalarKind, StorageAccess, StorageFormat,
};
use std::alloc::{AllocError, Global};
use std::fmt::Debug;

/// Values that all have a word in WGSL.
pub trait ToWgsl: Sized {
    /// The word of a value.
    ghost word: { Self → List ℕ };

    /// WGSL's word for the value.
    fn to_wgsl(self) -> &'static str
        ensures { result.now ≡ word self };
}

impl ToWgsl for Interpolation {
    ghost word = { interpolation_word };

    fn to_wgsl(self) -> &'static str {
        match self {
            Interpolation::Perspective => "perspective",
            Interpolation::Linear => "linear",
            Interpolation::Flat => "flat",
            Interpolation::PerVertex => "per_vertex",
        }
    }
}

impl ToWgsl for Sampling {
    ghost word = { sampling_word };

    fn to_wgsl(self) -> &'static str {
        match self {
            Sampling::Center => "center",
            Sampling::Centroid => "centroid",
            Sampling::Sample => "sample",
            Sampling::First => "first",
            Sampling::Either => "either",
        }
    }
}

impl ToWgsl for StorageFormat {
    ghost word = { format_word };

    fn to_wgsl(self) -> &'static str {
        match self {
            StorageFormat::R8Unorm => "r8unorm",
            StorageFormat::R8Snorm => "r8snorm",
            StorageFormat::R8Uint => "r8uint",
            StorageFormat::R8Sint => "r8sint",
            StorageFormat::Rg8Unorm => "rg8unorm",
            StorageFormat::Rg8Snorm => "rg8snorm",
            StorageFormat::Rg8Uint => "rg8uint",
            StorageFormat::Rg8Sint => "rg8sint",
            StorageFormat::Rgba8Unorm => "rgba8unorm",
            StorageFormat::Rgba8Snorm => "rgba8snorm",
            StorageFormat::Rgba8Uint => "rgba8uint",
            StorageFormat::Rgba8Sint => "rgba8sint",
            StorageFormat::R16Unorm => "r16unorm",
            StorageFormat::R16Snorm => "r16snorm",
            StorageFormat::R16Uint => "r16uint",
            StorageFormat::R16Sint => "r16sint",
            StorageFormat::R16Float => "r16float",
            StorageFormat::Rg16Unorm => "rg16unorm",
            StorageFormat::Rg16Snorm => "rg16snorm",
            StorageFormat::Rg16Uint => "rg16uint",
            StorageFormat::Rg16Sint => "rg16sint",
            StorageFormat::Rg16Float => "rg16float",
            StorageFormat::Rgba16Unorm => "rgba16unorm",
            StorageFormat::Rgba16Snorm => "rgba16snorm",
            StorageFormat::Rgba16Uint => "rgba16uint",
            StorageFormat::Rgba16Sint => "rgba16sint",
            StorageFormat::Rgba16Float => "rgba16float",
            StorageFormat::R32Uint => "r32uint",
            StorageFormat::R32Sint => "r32sint",
            StorageFormat::R32Float => "r32float",
            StorageFormat::Rg32Uint => "rg32uint",
            StorageFormat::Rg32Sint => "rg32sint",
            StorageFormat::Rg32Float => "rg32float",
            StorageFormat::Rgba32Uint => "rgba32uint",
            StorageFormat::Rgba32Sint => "rgba32sint",
            StorageFormat::Rgba32Float => "rgba32float",
            StorageFormat::Bgra8Unorm => "bgra8unorm",
            StorageFormat::Rgb10a2Uint => "rgb10a2uint",
            StorageFormat::Rgb10a2Unorm => "rgb10a2unorm",
            StorageFormat::Rg11b10Ufloat => "rg11b10ufloat",
            StorageFormat::R64Uint => "r64uint",
        }
    }
}

impl ToWgsl for CooperativeRole {
    ghost word = { matrix_role_word };

    fn to_wgsl(self) -> &'static str {
        match self {
            CooperativeRole::A => "A",
            CooperativeRole::B => "B",
            CooperativeRole::C => "C",
        }
    }
}

impl ToWgsl for ImageDimension {
    ghost word = { dimension_word };

    fn to_wgsl(self) -> &'static str {
        match self {
            ImageDimension::D1 => "1d",
            ImageDimension::D2 => "2d",
            ImageDimension::D3 => "3d",
            ImageDimension::Cube => "cube",
        }
    }
}

/// Values that may have a word in WGSL.
pub trait TryToWgsl: Sized {
    /// What kind of value this is, in a diagnostic: `scalar type`.
    const DESCRIPTION: &'static str;

    /// The text of `DESCRIPTION`.
    ghost description: { List ℕ };

    /// The word of a value, if it has one.
    ghost try_word: { Self → Option (List ℕ) };

    /// What a diagnostic may call a value.
    ghost Tells: { Self → List ℕ → Type 0 };

    /// `DESCRIPTION`, for callers that are to know its text.
    fn described() -> &'static str
        ensures { result.now ≡ description };

    /// WGSL's word for the value, if it has one.
    fn try_to_wgsl(self) -> Option<&'static str>
        ensures { option_map (λ s. s.now) result ≡ try_word self };

    /// WGSL's word for the value, or for one without a word a text in braces that shows it.
    fn to_wgsl_for_diagnostics(self, alloc: Global) -> Result<String, AllocError>
        ensures { IfOk result (λ text. Tells self (string_bytes text)) };
}

impl TryToWgsl for MathFunction {
    const DESCRIPTION: &'static str = "math function";

    ghost description = { codes "math function" };

    ghost try_word = { math_word };

    ghost Tells = { λ value. IsWordOrBraced (codes "math function") (math_word value) };

    fn described() -> &'static str {
        Self::DESCRIPTION
    }

    fn to_wgsl_for_diagnostics(self, alloc: Global) -> Result<String, AllocError> {
        match self.try_to_wgsl() {
            Some(word) => String::from_str(alloc, word),
            None => {
                let debug = format!(in alloc; "{self:?}")?;
                braced(alloc, "math function", debug.as_str())
            }
        }
    }

    fn try_to_wgsl(self) -> Option<&'static str> {
        match self {
            MathFunction::Abs => Some("abs"),
            MathFunction::Min => Some("min"),
            MathFunction::Max => Some("max"),
            MathFunction::Clamp => Some("clamp"),
            MathFunction::Saturate => Some("saturate"),
            MathFunction::Cos => Some("cos"),
            MathFunction::Sin => Some("sin"),
            MathFunction::Tan => Some("tan"),
            MathFunction::Acos => Some("acos"),
            MathFunction::Asin => Some("asin"),
            MathFunction::Atan => Some("atan"),
            MathFunction::Cosh => Some("cosh"),
            MathFunction::Sinh => Some("sinh"),
            MathFunction::Tanh => Some("tanh"),
            MathFunction::Acosh => Some("acosh"),
            MathFunction::Asinh => Some("asinh"),
            MathFunction::Atanh => Some("atanh"),
            MathFunction::Atan2 => Some("atan2"),
            MathFunction::Radians => Some("radians"),
            MathFunction::Degrees => Some("degrees"),
            MathFunction::Ceil => Some("ceil"),
            MathFunction::Floor => Some("floor"),
            MathFunction::Round => Some("round"),
            MathFunction::Fract => Some("fract"),
            MathFunction::Trunc => Some("trunc"),
            MathFunction::Modf => Some("modf"),
            MathFunction::Frexp => Some("frexp"),
            MathFunction::Ldexp => Some("ldexp"),
            MathFunction::Exp => Some("exp"),
            MathFunction::Exp2 => Some("exp2"),
            MathFunction::Log => Some("log"),
            MathFunction::Log2 => Some("log2"),
            MathFunction::Pow => Some("pow"),
            MathFunction::Dot => Some("dot"),
            MathFunction::Dot4I8Packed => Some("dot4I8Packed"),
            MathFunction::Dot4U8Packed => Some("dot4U8Packed"),
            MathFunction::Cross => Some("cross"),
            MathFunction::Distance => Some("distance"),
            MathFunction::Length => Some("length"),
            MathFunction::Normalize => Some("normalize"),
            MathFunction::FaceForward => Some("faceForward"),
            MathFunction::Reflect => Some("reflect"),
            MathFunction::Refract => Some("refract"),
            MathFunction::Sign => Some("sign"),
            MathFunction::Fma => Some("fma"),
            MathFunction::Mix => Some("mix"),
            MathFunction::Step => Some("step"),
            MathFunction::SmoothStep => Some("smoothstep"),
            MathFunction::Sqrt => Some("sqrt"),
            MathFunction::InverseSqrt => Some("inverseSqrt"),
            MathFunction::Transpose => Some("transpose"),
            MathFunction::Determinant => Some("determinant"),
            MathFunction::QuantizeToF16 => Some("quantizeToF16"),
            MathFunction::CountTrailingZeros => Some("countTrailingZeros"),
            MathFunction::CountLeadingZeros => Some("countLeadingZeros"),
            MathFunction::CountOneBits => Some("countOneBits"),
            MathFunction::ReverseBits => Some("reverseBits"),
            MathFunction::ExtractBits => Some("extractBits"),
            MathFunction::InsertBits => Some("insertBits"),
            MathFunction::FirstTrailingBit => Some("firstTrailingBit"),
            MathFunction::FirstLeadingBit => Some("firstLeadingBit"),
            _ => packing_word(self),
        }
    }
}

/// WGSL's word for a function that packs or unpacks numbers; none for any other.
fn packing_word(fun: MathFunction) -> Option<&'static str>
    ensures { option_map (λ s. s.now) result ≡ packing_word fun }
{
    match fun {
        MathFunction::Pack4x8snorm => Some("pack4x8snorm"),
        MathFunction::Pack4x8unorm => Some("pack4x8unorm"),
        MathFunction::Pack2x16snorm => Some("pack2x16snorm"),
        MathFunction::Pack2x16unorm => Some("pack2x16unorm"),
        MathFunction::Unpack4x8snorm => Some("unpack4x8snorm"),
        MathFunction::Unpack4x8unorm => Some("unpack4x8unorm"),
        MathFunction::Unpack2x16snorm => Some("unpack2x16snorm"),
        MathFunction::Unpack2x16unorm => Some("unpack2x16unorm"),
        MathFunction::Pack2x16float => Some("pack2x16float"),
        MathFunction::Unpack2x16float => Some("unpack2x16float"),
        MathFunction::Pack4xI8 => Some("pack4xI8"),
        MathFunction::Pack4xU8 => Some("pack4xU8"),
        MathFunction::Unpack4xI8 => Some("unpack4xI8"),
        MathFunction::Unpack4xU8 => Some("unpack4xU8"),
        MathFunction::Pack4xI8Clamp => Some("pack4xI8Clamp"),
        MathFunction::Pack4xU8Clamp => Some("pack4xU8Clamp"),
        _ => None,
    }
}

impl TryToWgsl for BuiltIn {
    const DESCRIPTION: &'static str = "builtin value";

    ghost description = { codes "builtin value" };

    ghost try_word = { builtin_word };

    ghost Tells = { λ value. IsWordOrBraced (codes "builtin value") (builtin_word value) };

    fn described() -> &'static str {
        Self::DESCRIPTION
    }

    fn to_wgsl_for_diagnostics(self, alloc: Global) -> Result<String, AllocError> {
        match self.try_to_wgsl() {
            Some(word) => String::from_str(alloc, word),
            None => {
                let debug = format!(in alloc; "{self:?}")?;
                braced(alloc, "builtin value", debug.as_str())
            }
        }
    }

    fn try_to_wgsl(self) -> Option<&'static str> {
        match self {
            BuiltIn::Position { .. } => Some("position"),
            BuiltIn::Barycentric { perspective: true } => Some("barycentric"),
            BuiltIn::Barycentric { perspective: false } => Some("barycentric_no_perspective"),
            BuiltIn::ViewIndex => Some("view_index"),
            BuiltIn::InstanceIndex => Some("instance_index"),
            BuiltIn::VertexIndex => Some("vertex_index"),
            BuiltIn::ClipDistances => Some("clip_distances"),
            BuiltIn::FragDepth => Some("frag_depth"),
            BuiltIn::FrontFacing => Some("front_facing"),
            BuiltIn::PrimitiveIndex => Some("primitive_index"),
            BuiltIn::DrawIndex => Some("draw_index"),
            BuiltIn::SampleIndex => Some("sample_index"),
            BuiltIn::SampleMask => Some("sample_mask"),
            BuiltIn::GlobalInvocationId => Some("global_invocation_id"),
            BuiltIn::LocalInvocationId => Some("local_invocation_id"),
            BuiltIn::LocalInvocationIndex => Some("local_invocation_index"),
            BuiltIn::WorkGroupId => Some("workgroup_id"),
            BuiltIn::NumWorkGroups => Some("num_workgroups"),
            BuiltIn::NumSubgroups => Some("num_subgroups"),
            BuiltIn::SubgroupId => Some("subgroup_id"),
            BuiltIn::SubgroupSize => Some("subgroup_size"),
            BuiltIn::SubgroupInvocationId => Some("subgroup_invocation_id"),
            BuiltIn::MeshTaskSize => Some("mesh_task_size"),
            BuiltIn::TriangleIndices => Some("triangle_indices"),
            BuiltIn::LineIndices => Some("line_indices"),
            BuiltIn::PointIndex => Some("point_index"),
            BuiltIn::Vertices => Some("vertices"),
            BuiltIn::Primitives => Some("primitives"),
            BuiltIn::VertexCount => Some("vertex_count"),
            BuiltIn::PrimitiveCount => Some("primitive_count"),
            BuiltIn::CullPrimitive => Some("cull_primitive"),
            BuiltIn::RayInvocationId => Some("ray_invocation_id"),
            BuiltIn::NumRayInvocations => Some("num_ray_invocations"),
            BuiltIn::InstanceCustomData => Some("instance_custom_data"),
            BuiltIn::GeometryIndex => Some("geometry_index"),
            BuiltIn::WorldRayOrigin => Some("world_ray_origin"),
            BuiltIn::WorldRayDirection => Some("world_ray_direction"),
            BuiltIn::ObjectRayOrigin => Some("object_ray_origin"),
            BuiltIn::ObjectRayDirection => Some("object_ray_direction"),
            BuiltIn::RayTmin => Some("ray_t_min"),
            BuiltIn::RayTCurrentMax => Some("ray_t_current_max"),
            BuiltIn::ObjectToWorld => Some("object_to_world"),
            BuiltIn::WorldToObject => Some("world_to_object"),
            BuiltIn::HitKind => Some("hit_kind"),
            BuiltIn::BaseInstance
            | BuiltIn::BaseVertex
            | BuiltIn::CullDistance
            | BuiltIn::PointSize
            | BuiltIn::PointCoord
            | BuiltIn::WorkGroupSize => None,
        }
    }
}

impl TryToWgsl for Scalar {
    const DESCRIPTION: &'static str = "scalar type";

    ghost description = { codes "scalar type" };

    ghost try_word = { scalar_word };

    ghost Tells = { IsScalarDiagnostic };

    fn described() -> &'static str {
        Self::DESCRIPTION
    }

    fn to_wgsl_for_diagnostics(self, alloc: Global) -> Result<String, AllocError> {
        match self.try_to_wgsl() {
            Some(word) => String::from_str(alloc, word),
            None => match self.kind {
                ScalarKind::AbstractInt => String::from_str(alloc, "{AbstractInt}"),
                ScalarKind::AbstractFloat => String::from_str(alloc, "{AbstractFloat}"),
                ScalarKind::Bool | ScalarKind::Sint | ScalarKind::Uint | ScalarKind::Float => {
                    let debug = format!(in alloc; "{self:?}")?;
                    braced(alloc, "scalar", debug.as_str())
                }
            },
        }
    }

    fn try_to_wgsl(self) -> Option<&'static str> {
        match self.kind {
            ScalarKind::Bool => match self.width {
                1 => Some("bool"),
                _ => None,
            },
            ScalarKind::Sint => match self.width {
                2 => Some("i16"),
                4 => Some("i32"),
                8 => Some("i64"),
                _ => None,
            },
            ScalarKind::Uint => match self.width {
                2 => Some("u16"),
                4 => Some("u32"),
                8 => Some("u64"),
                _ => None,
            },
            ScalarKind::Float => match self.width {
                2 => Some("f16"),
                4 => Some("f32"),
                8 => Some("f64"),
                _ => None,
            },
            ScalarKind::AbstractInt | ScalarKind::AbstractFloat => None,
        }
    }
}

/// What stands for a value without a word: its debug text with its kind, in braces.
fn braced(alloc: Global, description: &str, debug: &str) -> Result<String, AllocError>
    ensures { IfOk result (λ text. string_bytes text ≡ braced_text description.now debug.now) }
{
    let mut text = String::from_str(alloc, "{non-WGSL ")?;
    text.push_str(description)?;
    text.push_str(" ")?;
    text.push_str(debug)?;
    text.push_str("}")?;
    Ok(text)
}

/// WGSL's words for an address space and for what may be done with it, as they stand in `var<..>`
/// and in the type of a pointer.
pub fn address_space_str(space: AddressSpace) -> (Option<&'static str>, Option<&'static str>)
    ensures space { option_map (λ s. s.now) result.0 ≡ space_word space }
    ensures access { option_map (λ s. s.now) result.1 ≡ space_access_word space }
{
    (space_str(space), space_access_str(space))
}

/// WGSL's word for an address space.
pub fn space_str(space: AddressSpace) -> Option<&'static str>
    ensures { option_map (λ s. s.now) result ≡ space_word space }
{
    match space {
        AddressSpace::Private => Some("private"),
        AddressSpace::Uniform => Some("uniform"),
        AddressSpace::Storage { .. } => Some("storage"),
        AddressSpace::Handle => None,
        AddressSpace::Immediate => Some("immediate"),
        AddressSpace::WorkGroup => Some("workgroup"),
        AddressSpace::Function => Some("function"),
        AddressSpace::TaskPayload => Some("task_payload"),
        AddressSpace::IncomingRayPayload => Some("incoming_ray_payload"),
        AddressSpace::RayPayload => Some("ray_payload"),
    }
}

/// WGSL's word for what may be done with what lives in an address space.
pub fn space_access_str(space: AddressSpace) -> Option<&'static str>
    ensures { option_map (λ s. s.now) result ≡ space_access_word space }
{
    match space {
        AddressSpace::Storage { access } => buffer_access_str(access),
        AddressSpace::Private
        | AddressSpace::Uniform
        | AddressSpace::Handle
        | AddressSpace::Immediate
        | AddressSpace::WorkGroup
        | AddressSpace::Function
        | AddressSpace::TaskPayload
        | AddressSpace::IncomingRayPayload
        | AddressSpace::RayPayload => None,
    }
}

fn buffer_access_str(access: StorageAccess) -> Option<&'static str>
    ensures { option_map (λ s. s.now) result ≡ buffer_access_word access }
{
    if access.contains(StorageAccess::ATOMIC) {
        Some("atomic")
    } else if access.contains(StorageAccess::STORE) {
        Some("read_write")
    } else {
        None
    }
}

/// WGSL's word for what may be done with a storage image.
pub fn image_access_str(access: StorageAccess) -> &'static str
    ensures { result.now ≡ image_access_word access }
{
    if access.contains(StorageAccess::ATOMIC) {
        "atomic"
    } else if access.contains(StorageAccess::LOAD) {
        if access.contains(StorageAccess::STORE) {
            "read_write"
        } else {
            "read"
        }
    } else {
        "write"
    }
}
