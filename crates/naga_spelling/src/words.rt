//! Words that types begin with.

ghost use Rattle.std.specs.Prelude.{◌≡◌, codes, false};
ghost use Rattle.naga_spelling.specs.Words.{acceleration_structure_text, cooperative_word};
ghost use Rattle.naga_spelling.specs.Words.{image_word, matrix_word, ray_query_text, matrix_role_tail};
ghost use Rattle.naga_spelling.specs.Words.{sampler_word, vector_word};

use naga_ir::{CooperativeRole, CooperativeSize, ImageDimension, VectorSize};

/// The word of a vector, as `vec3`.
pub fn vector_str(size: VectorSize) -> &'static str
    ensures { result.now ≡ vector_word size }
{
    match size {
        VectorSize::Bi => "vec2",
        VectorSize::Tri => "vec3",
        VectorSize::Quad => "vec4",
    }
}

/// The word of a matrix, columns first, as `mat3x2`.
pub fn matrix_str(columns: VectorSize, rows: VectorSize) -> &'static str
    ensures { result.now ≡ matrix_word columns rows }
{
    match (columns, rows) {
        (VectorSize::Bi, VectorSize::Bi) => "mat2x2",
        (VectorSize::Bi, VectorSize::Tri) => "mat2x3",
        (VectorSize::Bi, VectorSize::Quad) => "mat2x4",
        (VectorSize::Tri, VectorSize::Bi) => "mat3x2",
        (VectorSize::Tri, VectorSize::Tri) => "mat3x3",
        (VectorSize::Tri, VectorSize::Quad) => "mat3x4",
        (VectorSize::Quad, VectorSize::Bi) => "mat4x2",
        (VectorSize::Quad, VectorSize::Tri) => "mat4x3",
        (VectorSize::Quad, VectorSize::Quad) => "mat4x4",
    }
}

/// The word of a cooperative matrix, columns first, as `coop_mat8x8`.
pub fn cooperative_str(columns: CooperativeSize, rows: CooperativeSize) -> &'static str
    ensures { result.now ≡ cooperative_word columns rows }
{
    match (columns, rows) {
        (CooperativeSize::Eight, CooperativeSize::Eight) => "coop_mat8x8",
        (CooperativeSize::Eight, CooperativeSize::Sixteen) => "coop_mat8x16",
        (CooperativeSize::Sixteen, CooperativeSize::Eight) => "coop_mat16x8",
        (CooperativeSize::Sixteen, CooperativeSize::Sixteen) => "coop_mat16x16",
    }
}

/// The end of a cooperative matrix, as `,A>`.
pub fn role_tail_str(role: CooperativeRole) -> &'static str
    ensures { result.now ≡ matrix_role_tail role }
{
    match role {
        CooperativeRole::A => ",A>",
        CooperativeRole::B => ",B>",
        CooperativeRole::C => ",C>",
    }
}

/// The word of a sampled image, as `texture_2d_array`.
pub fn sampled_image_str(multi: bool, dim: ImageDimension, arrayed: bool) -> &'static str
    ensures { result.now ≡ image_word (codes "texture_") multi dim arrayed }
{
    match (multi, dim, arrayed) {
        (false, ImageDimension::D1, false) => "texture_1d",
        (false, ImageDimension::D1, true) => "texture_1d_array",
        (false, ImageDimension::D2, false) => "texture_2d",
        (false, ImageDimension::D2, true) => "texture_2d_array",
        (false, ImageDimension::D3, false) => "texture_3d",
        (false, ImageDimension::D3, true) => "texture_3d_array",
        (false, ImageDimension::Cube, false) => "texture_cube",
        (false, ImageDimension::Cube, true) => "texture_cube_array",
        (true, ImageDimension::D1, false) => "texture_multisampled_1d",
        (true, ImageDimension::D1, true) => "texture_multisampled_1d_array",
        (true, ImageDimension::D2, false) => "texture_multisampled_2d",
        (true, ImageDimension::D2, true) => "texture_multisampled_2d_array",
        (true, ImageDimension::D3, false) => "texture_multisampled_3d",
        (true, ImageDimension::D3, true) => "texture_multisampled_3d_array",
        (true, ImageDimension::Cube, false) => "texture_multisampled_cube",
        (true, ImageDimension::Cube, true) => "texture_multisampled_cube_array",
    }
}

/// The word of a depth image, as `texture_depth_2d`.
pub fn depth_image_str(multi: bool, dim: ImageDimension, arrayed: bool) -> &'static str
    ensures { result.now ≡ image_word (codes "texture_depth_") multi dim arrayed }
{
    match (multi, dim, arrayed) {
        (false, ImageDimension::D1, false) => "texture_depth_1d",
        (false, ImageDimension::D1, true) => "texture_depth_1d_array",
        (false, ImageDimension::D2, false) => "texture_depth_2d",
        (false, ImageDimension::D2, true) => "texture_depth_2d_array",
        (false, ImageDimension::D3, false) => "texture_depth_3d",
        (false, ImageDimension::D3, true) => "texture_depth_3d_array",
        (false, ImageDimension::Cube, false) => "texture_depth_cube",
        (false, ImageDimension::Cube, true) => "texture_depth_cube_array",
        (true, ImageDimension::D1, false) => "texture_depth_multisampled_1d",
        (true, ImageDimension::D1, true) => "texture_depth_multisampled_1d_array",
        (true, ImageDimension::D2, false) => "texture_depth_multisampled_2d",
        (true, ImageDimension::D2, true) => "texture_depth_multisampled_2d_array",
        (true, ImageDimension::D3, false) => "texture_depth_multisampled_3d",
        (true, ImageDimension::D3, true) => "texture_depth_multisampled_3d_array",
        (true, ImageDimension::Cube, false) => "texture_depth_multisampled_cube",
        (true, ImageDimension::Cube, true) => "texture_depth_multisampled_cube_array",
    }
}

/// The word of a storage image, as `texture_storage_2d`.
pub fn storage_image_str(dim: ImageDimension, arrayed: bool) -> &'static str
    ensures { result.now ≡ image_word (codes "texture_storage_") false dim arrayed }
{
    match (dim, arrayed) {
        (ImageDimension::D1, false) => "texture_storage_1d",
        (ImageDimension::D1, true) => "texture_storage_1d_array",
        (ImageDimension::D2, false) => "texture_storage_2d",
        (ImageDimension::D2, true) => "texture_storage_2d_array",
        (ImageDimension::D3, false) => "texture_storage_3d",
        (ImageDimension::D3, true) => "texture_storage_3d_array",
        (ImageDimension::Cube, false) => "texture_storage_cube",
        (ImageDimension::Cube, true) => "texture_storage_cube_array",
    }
}

/// The word of a sampler, which compares or not.
pub fn sampler_str(comparison: bool) -> &'static str
    ensures { result.now ≡ sampler_word comparison }
{
    if comparison {
        "sampler_comparison"
    } else {
        "sampler"
    }
}

/// An acceleration structure, of which a hit tells the vertices or not.
pub fn acceleration_structure_str(vertex_return: bool) -> &'static str
    ensures { result.now ≡ acceleration_structure_text vertex_return }
{
    if vertex_return {
        "acceleration_structure<vertex_return>"
    } else {
        "acceleration_structure"
    }
}

/// A ray query, of which a hit tells the vertices or not.
pub fn ray_query_str(vertex_return: bool) -> &'static str
    ensures { result.now ≡ ray_query_text vertex_return }
{
    if vertex_return {
        "ray_query<vertex_return>"
    } else {
        "ray_query"
    }
}
