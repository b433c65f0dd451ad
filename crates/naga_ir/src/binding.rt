//! How values go in and out of entry points, and how resources are found.

/// A built-in value or a location, to which an argument or a result is bound.
#[derive(Debug, Clone, Copy, PartialEq, Eq, Hash)]
pub enum BuiltIn {
    /// The vertex's or the fragment's position.
    Position {
        /// Whether it is computed alike in each pipeline: `@invariant`.
        invariant: bool,
    },
    /// Where in its triangle a fragment lies.
    Barycentric {
        /// Whether perspective is taken into account.
        perspective: bool,
    },
    /// `view_index`
    ViewIndex,
    /// `instance_index`
    InstanceIndex,
    /// `vertex_index`
    VertexIndex,
    /// `clip_distances`
    ClipDistances,
    /// `frag_depth`
    FragDepth,
    /// `front_facing`
    FrontFacing,
    /// `primitive_index`
    PrimitiveIndex,
    /// `draw_index`
    DrawIndex,
    /// `sample_index`
    SampleIndex,
    /// `sample_mask`
    SampleMask,
    /// `global_invocation_id`
    GlobalInvocationId,
    /// `local_invocation_id`
    LocalInvocationId,
    /// `local_invocation_index`
    LocalInvocationIndex,
    /// `workgroup_id`
    WorkGroupId,
    /// `num_workgroups`
    NumWorkGroups,
    /// `num_subgroups`
    NumSubgroups,
    /// `subgroup_id`
    SubgroupId,
    /// `subgroup_size`
    SubgroupSize,
    /// `subgroup_invocation_id`
    SubgroupInvocationId,
    /// `mesh_task_size`
    MeshTaskSize,
    /// `triangle_indices`
    TriangleIndices,
    /// `line_indices`
    LineIndices,
    /// `point_index`
    PointIndex,
    /// `vertices`
    Vertices,
    /// `primitives`
    Primitives,
    /// `vertex_count`
    VertexCount,
    /// `primitive_count`
    PrimitiveCount,
    /// `cull_primitive`
    CullPrimitive,
    /// `ray_invocation_id`
    RayInvocationId,
    /// `num_ray_invocations`
    NumRayInvocations,
    /// `instance_custom_data`
    InstanceCustomData,
    /// `geometry_index`
    GeometryIndex,
    /// `world_ray_origin`
    WorldRayOrigin,
    /// `world_ray_direction`
    WorldRayDirection,
    /// `object_ray_origin`
    ObjectRayOrigin,
    /// `object_ray_direction`
    ObjectRayDirection,
    /// `ray_t_min`
    RayTmin,
    /// `ray_t_current_max`
    RayTCurrentMax,
    /// `object_to_world`
    ObjectToWorld,
    /// `world_to_object`
    WorldToObject,
    /// `hit_kind`
    HitKind,
    /// The first instance of a draw call. WGSL has no word for it.
    BaseInstance,
    /// What a draw call adds to each vertex index. WGSL has no word for it.
    BaseVertex,
    /// How far from each plane of culling a vertex lies. WGSL has no word for it.
    CullDistance,
    /// How large a point is drawn. WGSL has no word for it.
    PointSize,
    /// Where in its point a fragment lies. WGSL has no word for it.
    PointCoord,
    /// How many invocations a workgroup has. WGSL has no word for it.
    WorkGroupSize,
}

/// How a value is spread over a primitive between its vertices and its fragments.
#[derive(Debug, Clone, Copy, PartialEq, Eq, Hash)]
pub enum Interpolation {
    /// In proportion, seen in perspective.
    Perspective,
    /// In proportion on the screen.
    Linear,
    /// Not at all: each fragment gets one vertex's value.
    Flat,
    /// Not at all: each fragment gets the values of all vertices.
    PerVertex,
}

/// Where in a fragment a value is interpolated.
#[derive(Debug, Clone, Copy, PartialEq, Eq, Hash)]
pub enum Sampling {
    /// At its center.
    Center,
    /// At a point that all samples within the primitive share.
    Centroid,
    /// At each sample.
    Sample,
    /// For a flat value: that of the primitive's first vertex.
    First,
    /// For a flat value: that of the first or the last vertex, as the platform likes.
    Either,
}

/// How an argument or a result of an entry point, or a struct member in one, is bound.
#[derive(Debug, Clone, Copy, PartialEq, Eq, Hash)]
pub enum Binding {
    /// To a built-in value: `@builtin(position)`.
    BuiltIn(BuiltIn),
    /// To a number between two stages: `@location(0)`.
    Location {
        /// The number.
        location: u32,
        /// How it is interpolated; absent means in perspective.
        interpolation: Option<Interpolation>,
        /// Where it is interpolated; absent means at the center.
        sampling: Option<Sampling>,
        /// Which source of the blending it is: `@blend_src(1)`.
        blend_src: Option<u32>,
        /// Whether a mesh stage gives it once for each primitive: `@per_primitive`.
        per_primitive: bool,
    },
}

/// Where a global resource is bound: `@group(0) @binding(1)`.
#[derive(Debug, Clone, Copy, PartialEq, Eq)]
pub struct ResourceBinding {
    /// The number of its bind group.
    pub group: u32,
    /// Its number in the group.
    pub binding: u32,
}
