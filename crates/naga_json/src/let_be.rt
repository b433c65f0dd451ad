//! What naga's JSON says that is let be: members that are neither read nor refused, since nothing
//! that a shader does hangs on them. In an info each member that is not read is let be: it says
//! what naga found out of the module.

/// Of a module: comments.
pub(crate) const OF_MODULE: &[&str] = &["doc_comments"];

/// Of a mesh stage: what the type of its output variable says too.
pub(crate) const OF_MESH_INFO: &[&str] = &[
    "topology",
    "max_vertices",
    "max_vertices_override",
    "max_primitives",
    "max_primitives_override",
    "vertex_output_type",
    "primitive_output_type",
];

/// Of a ray query: what it is asked. The statement is refused where it would be written.
pub(crate) const OF_RAY_QUERY: &[&str] = &["fun"];
