//! Bindings.

ghost use Rattle.json.specs.Value.{value_view};
ghost use Rattle.naga_json.specs.Bindings.{built_in_names, builtin_position_said};
ghost use Rattle.naga_json.specs.Bindings.{builtin_barycentric_said, built_in_payload};
ghost use Rattle.naga_json.specs.Bindings.{built_in_said, interpolation_said, sampling_said};
ghost use Rattle.naga_json.specs.Bindings.{binding_names, location_binding_said, binding_payload};
ghost use Rattle.naga_json.specs.Bindings.{binding_said, resource_binding_said};
ghost use Rattle.naga_json.specs.Said.{Gives, same};

use crate::error::ReadError;
use crate::shape::{
    FromJson, Variants, expect_members, member, optional_member, read_variant, unit, word,
};
use json::Value;
use naga_ir::{Binding, BuiltIn, Interpolation, ResourceBinding, Sampling};
use std::alloc::Global;

/// The variants of [`BuiltIn`].
#[derive(Clone, Copy)]
pub(crate) enum BuiltInName {
    Unit(BuiltIn),
    Position,
    Barycentric,
}

/// The names of [`BuiltIn`].
const BUILT_IN_NAMES: &[(&str, BuiltInName)] = &[
    ("Position", BuiltInName::Position),
    ("Barycentric", BuiltInName::Barycentric),
    ("ViewIndex", BuiltInName::Unit(BuiltIn::ViewIndex)),
    ("InstanceIndex", BuiltInName::Unit(BuiltIn::InstanceIndex)),
    ("VertexIndex", BuiltInName::Unit(BuiltIn::VertexIndex)),
    ("ClipDistances", BuiltInName::Unit(BuiltIn::ClipDistances)),
    ("FragDepth", BuiltInName::Unit(BuiltIn::FragDepth)),
    ("FrontFacing", BuiltInName::Unit(BuiltIn::FrontFacing)),
    ("PrimitiveIndex", BuiltInName::Unit(BuiltIn::PrimitiveIndex)),
    ("DrawIndex", BuiltInName::Unit(BuiltIn::DrawIndex)),
    ("SampleIndex", BuiltInName::Unit(BuiltIn::SampleIndex)),
    ("SampleMask", BuiltInName::Unit(BuiltIn::SampleMask)),
    (
        "GlobalInvocationId",
        BuiltInName::Unit(BuiltIn::GlobalInvocationId),
    ),
    (
        "LocalInvocationId",
        BuiltInName::Unit(BuiltIn::LocalInvocationId),
    ),
    (
        "LocalInvocationIndex",
        BuiltInName::Unit(BuiltIn::LocalInvocationIndex),
    ),
    ("WorkGroupId", BuiltInName::Unit(BuiltIn::WorkGroupId)),
    ("NumWorkGroups", BuiltInName::Unit(BuiltIn::NumWorkGroups)),
    ("NumSubgroups", BuiltInName::Unit(BuiltIn::NumSubgroups)),
    ("SubgroupId", BuiltInName::Unit(BuiltIn::SubgroupId)),
    ("SubgroupSize", BuiltInName::Unit(BuiltIn::SubgroupSize)),
    (
        "SubgroupInvocationId",
        BuiltInName::Unit(BuiltIn::SubgroupInvocationId),
    ),
    ("MeshTaskSize", BuiltInName::Unit(BuiltIn::MeshTaskSize)),
    (
        "TriangleIndices",
        BuiltInName::Unit(BuiltIn::TriangleIndices),
    ),
    ("LineIndices", BuiltInName::Unit(BuiltIn::LineIndices)),
    ("PointIndex", BuiltInName::Unit(BuiltIn::PointIndex)),
    ("Vertices", BuiltInName::Unit(BuiltIn::Vertices)),
    ("Primitives", BuiltInName::Unit(BuiltIn::Primitives)),
    ("VertexCount", BuiltInName::Unit(BuiltIn::VertexCount)),
    ("PrimitiveCount", BuiltInName::Unit(BuiltIn::PrimitiveCount)),
    ("CullPrimitive", BuiltInName::Unit(BuiltIn::CullPrimitive)),
    (
        "RayInvocationId",
        BuiltInName::Unit(BuiltIn::RayInvocationId),
    ),
    (
        "NumRayInvocations",
        BuiltInName::Unit(BuiltIn::NumRayInvocations),
    ),
    (
        "InstanceCustomData",
        BuiltInName::Unit(BuiltIn::InstanceCustomData),
    ),
    ("GeometryIndex", BuiltInName::Unit(BuiltIn::GeometryIndex)),
    ("WorldRayOrigin", BuiltInName::Unit(BuiltIn::WorldRayOrigin)),
    (
        "WorldRayDirection",
        BuiltInName::Unit(BuiltIn::WorldRayDirection),
    ),
    (
        "ObjectRayOrigin",
        BuiltInName::Unit(BuiltIn::ObjectRayOrigin),
    ),
    (
        "ObjectRayDirection",
        BuiltInName::Unit(BuiltIn::ObjectRayDirection),
    ),
    ("RayTmin", BuiltInName::Unit(BuiltIn::RayTmin)),
    ("RayTCurrentMax", BuiltInName::Unit(BuiltIn::RayTCurrentMax)),
    ("ObjectToWorld", BuiltInName::Unit(BuiltIn::ObjectToWorld)),
    ("WorldToObject", BuiltInName::Unit(BuiltIn::WorldToObject)),
    ("HitKind", BuiltInName::Unit(BuiltIn::HitKind)),
    ("BaseInstance", BuiltInName::Unit(BuiltIn::BaseInstance)),
    ("BaseVertex", BuiltInName::Unit(BuiltIn::BaseVertex)),
    ("CullDistance", BuiltInName::Unit(BuiltIn::CullDistance)),
    ("PointSize", BuiltInName::Unit(BuiltIn::PointSize)),
    ("PointCoord", BuiltInName::Unit(BuiltIn::PointCoord)),
    ("WorkGroupSize", BuiltInName::Unit(BuiltIn::WorkGroupSize)),
];

impl FromJson for BuiltIn {
    ghost Seen = { Self };

    ghost seen = { same };

    ghost said = { built_in_said };

    fn from_json(alloc: Global, value: &Value) -> Result<BuiltIn, ReadError> {
        read_variant(alloc, value)
    }
}

impl Variants for BuiltIn {
    type Name = BuiltInName;

    ghost Sight = { Self };

    ghost sight = { same };

    ghost table = { built_in_names };

    ghost payload_said = { built_in_payload };

    fn names() -> &'static [(&'static str, BuiltInName)] {
        BUILT_IN_NAMES
    }

    fn from_payload(
        alloc: Global,
        variant: BuiltInName,
        payload: &Value,
    ) -> Result<BuiltIn, ReadError> {
        match variant {
            BuiltInName::Unit(builtin) => unit(alloc, payload, builtin),
            BuiltInName::Position => builtin_position(alloc, payload),
            BuiltInName::Barycentric => builtin_barycentric(alloc, payload),
        }
    }
}

fn builtin_position(alloc: Global, payload: &Value) -> Result<BuiltIn, ReadError>
    ensures { Gives same (builtin_position_said (value_view payload.now)) result }
{
    expect_members(alloc, payload, &["invariant"])?;
    Ok(BuiltIn::Position {
        invariant: optional_member(alloc, payload, "invariant")?,
    })
}

fn builtin_barycentric(alloc: Global, payload: &Value) -> Result<BuiltIn, ReadError>
    ensures { Gives same (builtin_barycentric_said (value_view payload.now)) result }
{
    expect_members(alloc, payload, &["perspective"])?;
    Ok(BuiltIn::Barycentric {
        perspective: optional_member(alloc, payload, "perspective")?,
    })
}

/// The words of [`Interpolation`].
const INTERPOLATION_WORDS: &[(&str, Interpolation)] = &[
    ("Perspective", Interpolation::Perspective),
    ("Linear", Interpolation::Linear),
    ("Flat", Interpolation::Flat),
    ("PerVertex", Interpolation::PerVertex),
];

impl FromJson for Interpolation {
    ghost Seen = { Self };

    ghost seen = { same };

    ghost said = { interpolation_said };

    fn from_json(alloc: Global, value: &Value) -> Result<Interpolation, ReadError> {
        word(alloc, value, INTERPOLATION_WORDS)
    }
}

/// The words of [`Sampling`].
const SAMPLING_WORDS: &[(&str, Sampling)] = &[
    ("Center", Sampling::Center),
    ("Centroid", Sampling::Centroid),
    ("Sample", Sampling::Sample),
    ("First", Sampling::First),
    ("Either", Sampling::Either),
];

impl FromJson for Sampling {
    ghost Seen = { Self };

    ghost seen = { same };

    ghost said = { sampling_said };

    fn from_json(alloc: Global, value: &Value) -> Result<Sampling, ReadError> {
        word(alloc, value, SAMPLING_WORDS)
    }
}

/// The variants of [`Binding`].
#[derive(Clone, Copy)]
pub(crate) enum BindingName {
    BuiltIn,
    Location,
}

/// The names of [`Binding`].
const BINDING_NAMES: &[(&str, BindingName)] = &[
    ("BuiltIn", BindingName::BuiltIn),
    ("Location", BindingName::Location),
];

impl FromJson for Binding {
    ghost Seen = { Self };

    ghost seen = { same };

    ghost said = { binding_said };

    fn from_json(alloc: Global, value: &Value) -> Result<Binding, ReadError> {
        read_variant(alloc, value)
    }
}

impl Variants for Binding {
    type Name = BindingName;

    ghost Sight = { Self };

    ghost sight = { same };

    ghost table = { binding_names };

    ghost payload_said = { binding_payload };

    fn names() -> &'static [(&'static str, BindingName)] {
        BINDING_NAMES
    }

    fn from_payload(
        alloc: Global,
        variant: BindingName,
        payload: &Value,
    ) -> Result<Binding, ReadError> {
        match variant {
            BindingName::BuiltIn => Ok(Binding::BuiltIn(FromJson::from_json(alloc, payload)?)),
            BindingName::Location => location_binding(alloc, payload),
        }
    }
}

fn location_binding(alloc: Global, payload: &Value) -> Result<Binding, ReadError>
    ensures { Gives same (location_binding_said (value_view payload.now)) result }
{
    expect_members(
        alloc,
        payload,
        &[
            "location",
            "interpolation",
            "sampling",
            "blend_src",
            "per_primitive",
        ],
    )?;
    Ok(Binding::Location {
        location: member(alloc, payload, "location")?,
        interpolation: optional_member(alloc, payload, "interpolation")?,
        sampling: optional_member(alloc, payload, "sampling")?,
        blend_src: optional_member(alloc, payload, "blend_src")?,
        per_primitive: optional_member(alloc, payload, "per_primitive")?,
    })
}

impl FromJson for ResourceBinding {
    ghost Seen = { Self };

    ghost seen = { same };

    ghost said = { resource_binding_said };

    fn from_json(alloc: Global, payload: &Value) -> Result<ResourceBinding, ReadError> {
        expect_members(alloc, payload, &["group", "binding"])?;
        Ok(ResourceBinding {
            group: member(alloc, payload, "group")?,
            binding: member(alloc, payload, "binding")?,
        })
    }
}
