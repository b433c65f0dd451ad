//! The extensions that a text enables: those that the module needs, found in one pass over its types,
//! its variables and its entry points, and those that standard compilers ask for, without memory.

ghost use Rattle.std.specs.Prelude.{◌≡◌, false, true};
ghost use Rattle.std.specs.List.{list_any};
ghost use Rattle.std.specs.Option.{option_map_or};
ghost use Rattle.module_semantics.specs.Enables.{entry_point_needs, is_enabled, is_needed};
ghost use Rattle.module_semantics.specs.Enables.{type_needs, written_enables};
ghost use Rattle.naga_back.specs.Flags.{is_portable};
ghost use Rattle.naga_ir.specs.declared.binding.Binding.TheVariants as binding;
ghost use Rattle.naga_ir.specs.declared.types.TypeInner.TheVariants as inner;
ghost use Rattle.naga_wgsl_shared.specs.Appends.{Appends};
ghost use Rattle.naga_wgsl_out.specs.Enables.{either, enables_of, enables_text, end_text};
ghost use Rattle.naga_wgsl_out.specs.Enables.{in_each_text, is_any, line_text, words_among};
ghost use Rattle.naga_wgsl_out.specs.Enables.{words_found};
ghost use Rattle.naga_words.specs.Output.{Writes};

use module_semantics::extensions::{names_subgroups, spells_halves};
use naga_back::{WriterFlags, is_portable};
use naga_info::ModuleInfo;
use naga_ir::{
    AddressSpace, Arena, Binding, BuiltIn, EntryPoint, FunctionArgument, FunctionResult,
    GlobalVariable, Interpolation, Module, Scalar, ScalarKind, ShaderStage, StructMember, Type_,
    TypeInner, UniqueArena,
};
use naga_refusals::Error;
use naga_refusals::error::error_of_want;
use naga_words::{Output, TextSink};

/// Writes a line for each extension that a text of the module enables, written with these flags,
/// and an empty line after the last.
pub(crate) fn write_enables<W: TextSink>(
    module: &Module,
    info: &ModuleInfo,
    flags: WriterFlags,
    out: &mut W,
) -> Result<(), Error>
    ensures { Appends result (W.text out.old) (W.failures out.old)
        (enables_text (written_enables «module».now info.now flags)) (W.text out.new)
        (W.failures out.new) }
{
    let mut written = Output::new(out);
    enabled(module, info, flags).write(&mut written);
    match written.outcome() {
        Ok(()) => Ok(()),
        Err(want) => Err(error_of_want(want)),
    }
}

/// The extensions that a text of the module enables.
fn enabled(module: &Module, info: &ModuleInfo, flags: WriterFlags) -> Enables
    ensures { result ≡ enables_of (is_enabled (is_portable flags) «module».now info.now) }
{
    let needed = Enables::of(module);
    if is_portable(flags) {
        needed.or(Enables::asked(module, info))
    } else {
        needed.in_each_text()
    }
}

/// Extensions, each by its word: whether something needs it.
#[derive(Clone, Copy)]
struct Enables {
    f16: bool,
    int16: bool,
    dual_source_blending: bool,
    clip_distances: bool,
    mesh_shader: bool,
    binding_array: bool,
    draw_index: bool,
    primitive_index: bool,
    cooperative_matrix: bool,
    ray_tracing_pipeline: bool,
    per_vertex: bool,
    subgroups: bool,
}

impl Enables {
    /// Those that the module needs.
    fn of(module: &Module) -> Self
        ensures { result ≡ enables_of (is_needed «module».now) }
    {
        let points = of_entry_points(&module.entry_points);
        of_types(&module.types).or(of_variables(&module.global_variables).or(points))
    }

    /// Those that standard compilers ask for, beside those that the module needs.
    fn asked(module: &Module, info: &ModuleInfo) -> Self
        ensures { result ≡ enables_of (λ x. x.is_asked_for «module».now info.now) }
    {
        Enables {
            f16: spells_halves(module, info),
            subgroups: names_subgroups(module),
            ..Enables::none()
        }
    }

    /// Those of them that each text enables, and not only one for standard compilers.
    fn in_each_text(self) -> Self
        ensures { result ≡ in_each_text self }
    {
        Enables {
            subgroups: false,
            ..self
        }
    }

    /// None of them.
    fn none() -> Self
        ensures { result ≡ enables_of (λ _. false) }
    {
        Enables {
            f16: false,
            int16: false,
            dual_source_blending: false,
            clip_distances: false,
            mesh_shader: false,
            binding_array: false,
            draw_index: false,
            primitive_index: false,
            cooperative_matrix: false,
            ray_tracing_pipeline: false,
            per_vertex: false,
            subgroups: false,
        }
    }

    /// These and the others.
    fn or(self, other: Self) -> Self
        ensures { result ≡ either self other }
    {
        Enables {
            f16: self.f16 | other.f16,
            int16: self.int16 | other.int16,
            dual_source_blending: self.dual_source_blending | other.dual_source_blending,
            clip_distances: self.clip_distances | other.clip_distances,
            mesh_shader: self.mesh_shader | other.mesh_shader,
            binding_array: self.binding_array | other.binding_array,
            draw_index: self.draw_index | other.draw_index,
            primitive_index: self.primitive_index | other.primitive_index,
            cooperative_matrix: self.cooperative_matrix | other.cooperative_matrix,
            ray_tracing_pipeline: self.ray_tracing_pipeline | other.ray_tracing_pipeline,
            per_vertex: self.per_vertex | other.per_vertex,
            subgroups: self.subgroups | other.subgroups,
        }
    }

    /// Writes their lines, in the order of WGSL's text, and an empty line after the last.
    fn write<W: TextSink>(self, out: &mut Output<'_, W>)
        ensures { Writes W.text W.failures out.old out.new
            (enables_text (words_among (words_found self))) }
    {
        write_line(self.f16, "f16", out);
        write_line(self.int16, "wgpu_int16", out);
        write_line(self.dual_source_blending, "dual_source_blending", out);
        write_line(self.clip_distances, "clip_distances", out);
        write_line(self.mesh_shader, "wgpu_mesh_shader", out);
        write_line(self.binding_array, "wgpu_binding_array", out);
        write_line(self.draw_index, "draw_index", out);
        write_line(self.primitive_index, "primitive_index", out);
        write_line(self.cooperative_matrix, "wgpu_cooperative_matrix", out);
        write_line(self.ray_tracing_pipeline, "wgpu_ray_tracing_pipeline", out);
        write_line(self.per_vertex, "wgpu_per_vertex", out);
        write_line(self.subgroups, "subgroups", out);
        write_end(self.is_any(), out);
    }

    /// Whether there is one.
    fn is_any(self) -> bool
        ensures { result ≡ is_any self }
    {
        self.f16
            | self.int16
            | self.dual_source_blending
            | self.clip_distances
            | self.mesh_shader
            | self.binding_array
            | self.draw_index
            | self.primitive_index
            | self.cooperative_matrix
            | self.ray_tracing_pipeline
            | self.per_vertex
            | self.subgroups
    }
}

/// The line that enables the extension with this word, if it is needed.
#[tactic(auto, using(naga_words::proofs::Writing::writes_then, naga_words::proofs::Writing::writes_nothing, crate::proofs::EnableRows::line_row))]
fn write_line<W: TextSink>(needed: bool, word: &str, out: &mut Output<'_, W>)
    ensures { Writes W.text W.failures out.old out.new (line_text needed word.now) }
{
    if needed {
        out.put("enable ");
        out.put(word);
        out.put(";\n");
    }
}

/// The empty line after the last line, if there is one.
#[tactic(auto, using(naga_words::proofs::Writing::writes_nothing))]
fn write_end<W: TextSink>(any: bool, out: &mut Output<'_, W>)
    ensures { Writes W.text W.failures out.old out.new (end_text any) }
{
    if any {
        out.put("\n");
    }
}

/// Those that one of the types needs.
fn of_types(types: &UniqueArena<Type_>) -> Enables
    ensures { result ≡ enables_of (λ x. list_any (λ t. type_needs x t.inner) types.now) }
{
    let mut found = Enables::none();
    for (_, ty) in types.iter() {
        found = found.or(of_type(&ty.inner));
    }
    found
}

fn of_variables(variables: &Arena<GlobalVariable>) -> Enables
    ensures { result ≡ enables_of (λ x. list_any (λ v. x.for_space v.space) variables.now) }
{
    let mut found = Enables::none();
    for (_, variable) in variables.iter() {
        found = found.or(of_space(variable.space));
    }
    found
}

fn of_entry_points(points: &[EntryPoint]) -> Enables
    ensures { result ≡ enables_of (λ x. list_any (entry_point_needs x) points.now) }
{
    let mut found = Enables::none();
    for point in points {
        found = found.or(of_entry_point(point));
    }
    found
}

fn of_entry_point(point: &EntryPoint) -> Enables
    ensures { result ≡ enables_of (λ x. entry_point_needs x point.now) }
{
    let arguments = of_arguments(&point.function.arguments);
    of_stage(point.stage).or(arguments.or(of_result(point.function.result)))
}

fn of_arguments(arguments: &[FunctionArgument]) -> Enables
    ensures { result ≡ enables_of
        (λ x. list_any (λ a. option_map_or x.for_binding a.binding false) arguments.now) }
{
    let mut found = Enables::none();
    for argument in arguments {
        found = found.or(of_any_binding(argument.binding));
    }
    found
}

fn of_result(answer: Option<FunctionResult>) -> Enables
    ensures { result ≡ enables_of
        (λ x. option_map_or (λ r. option_map_or x.for_binding r.binding false) answer false) }
{
    match answer {
        Some(answer) => of_any_binding(answer.binding),
        None => Enables::none(),
    }
}

fn of_members(members: &[StructMember]) -> Enables
    ensures { result ≡ enables_of
        (λ x. list_any (λ m. option_map_or x.for_binding m.binding false) members.now) }
{
    let mut found = Enables::none();
    for member in members {
        found = found.or(of_any_binding(member.binding));
    }
    found
}

fn of_type(inner: &TypeInner) -> Enables
    ensures { result ≡ enables_of (λ x. type_needs x inner.now) }
{
    match inner {
        TypeInner::Scalar(scalar)
        | TypeInner::Vector { scalar, .. }
        | TypeInner::Matrix { scalar, .. } => of_scalar(*scalar),
        TypeInner::Struct { members, .. } => of_members(members),
        TypeInner::BindingArray { .. } => Enables {
            binding_array: true,
            ..Enables::none()
        },
        TypeInner::CooperativeMatrix { .. } => Enables {
            cooperative_matrix: true,
            ..Enables::none()
        },
        TypeInner::AccelerationStructure { .. } => Enables {
            ray_tracing_pipeline: true,
            ..Enables::none()
        },
        TypeInner::Atomic(_)
        | TypeInner::Pointer { .. }
        | TypeInner::ValuePointer { .. }
        | TypeInner::Array { .. }
        | TypeInner::Image { .. }
        | TypeInner::Sampler { .. }
        | TypeInner::RayQuery { .. } => Enables::none(),
    }
}

fn of_scalar(scalar: Scalar) -> Enables
    ensures { result ≡ enables_of (λ x. type_needs x (inner.Scalar scalar)) }
{
    match scalar.kind {
        ScalarKind::Float => Enables {
            f16: scalar.width == 2,
            ..Enables::none()
        },
        ScalarKind::Sint | ScalarKind::Uint => Enables {
            int16: scalar.width == 2,
            ..Enables::none()
        },
        ScalarKind::Bool | ScalarKind::AbstractInt | ScalarKind::AbstractFloat => Enables::none(),
    }
}

fn of_any_binding(binding: Option<Binding>) -> Enables
    ensures { result ≡ enables_of (λ x. option_map_or x.for_binding binding false) }
{
    match binding {
        Some(binding) => of_binding(binding),
        None => Enables::none(),
    }
}

fn of_binding(binding: Binding) -> Enables
    ensures { result ≡ enables_of (λ x. x.for_binding binding) }
{
    match binding {
        Binding::BuiltIn(value) => of_builtin(value),
        Binding::Location {
            interpolation,
            blend_src,
            per_primitive,
            ..
        } => Enables {
            dual_source_blending: blend_src.is_some(),
            mesh_shader: per_primitive,
            per_vertex: blend_src.is_none()
                && !per_primitive
                && interpolation == Some(Interpolation::PerVertex),
            ..Enables::none()
        },
    }
}

fn of_builtin(value: BuiltIn) -> Enables
    ensures { result ≡ enables_of (λ x. x.for_binding (binding.BuiltIn value)) }
{
    match value {
        BuiltIn::ClipDistances => Enables {
            clip_distances: true,
            ..Enables::none()
        },
        BuiltIn::DrawIndex => Enables {
            draw_index: true,
            ..Enables::none()
        },
        BuiltIn::PrimitiveIndex => Enables {
            primitive_index: true,
            ..Enables::none()
        },
        BuiltIn::NumSubgroups
        | BuiltIn::SubgroupId
        | BuiltIn::SubgroupSize
        | BuiltIn::SubgroupInvocationId => Enables {
            subgroups: true,
            ..Enables::none()
        },
        BuiltIn::MeshTaskSize
        | BuiltIn::TriangleIndices
        | BuiltIn::LineIndices
        | BuiltIn::PointIndex
        | BuiltIn::Vertices
        | BuiltIn::Primitives
        | BuiltIn::VertexCount
        | BuiltIn::PrimitiveCount
        | BuiltIn::CullPrimitive => Enables {
            mesh_shader: true,
            ..Enables::none()
        },
        BuiltIn::RayInvocationId
        | BuiltIn::NumRayInvocations
        | BuiltIn::InstanceCustomData
        | BuiltIn::GeometryIndex
        | BuiltIn::WorldRayOrigin
        | BuiltIn::WorldRayDirection
        | BuiltIn::ObjectRayOrigin
        | BuiltIn::ObjectRayDirection
        | BuiltIn::RayTmin
        | BuiltIn::RayTCurrentMax
        | BuiltIn::ObjectToWorld
        | BuiltIn::WorldToObject => Enables {
            ray_tracing_pipeline: true,
            ..Enables::none()
        },
        _ => Enables::none(),
    }
}

fn of_stage(stage: ShaderStage) -> Enables
    ensures { result ≡ enables_of (λ x. x.for_stage stage) }
{
    match stage {
        ShaderStage::Task | ShaderStage::Mesh => Enables {
            mesh_shader: true,
            ..Enables::none()
        },
        ShaderStage::RayGeneration
        | ShaderStage::Miss
        | ShaderStage::AnyHit
        | ShaderStage::ClosestHit => Enables {
            ray_tracing_pipeline: true,
            ..Enables::none()
        },
        ShaderStage::Vertex | ShaderStage::Fragment | ShaderStage::Compute => Enables::none(),
    }
}

fn of_space(space: AddressSpace) -> Enables
    ensures { result ≡ enables_of (λ x. x.for_space space) }
{
    match space {
        AddressSpace::TaskPayload => Enables {
            mesh_shader: true,
            ..Enables::none()
        },
        AddressSpace::RayPayload | AddressSpace::IncomingRayPayload => Enables {
            ray_tracing_pipeline: true,
            ..Enables::none()
        },
        _ => Enables::none(),
    }
}
