//! Images: their dimensions, their classes, and the formats of their texels.

use crate::flags::StorageAccess;
use crate::types::ScalarKind;

/// How many coordinates a texel of an image has.
#[derive(Debug, Clone, Copy, PartialEq, Eq, Hash)]
pub enum ImageDimension {
    /// One: `1d`.
    D1,
    /// Two: `2d`.
    D2,
    /// Three: `3d`.
    D3,
    /// A direction that picks a face and a point on it: `cube`.
    Cube,
}

/// How an image is used.
#[derive(Debug, Clone, Copy, PartialEq, Eq, Hash)]
pub enum ImageClass {
    /// It is sampled or read: `texture_2d<f32>`.
    Sampled {
        /// What a texel's components are.
        kind: ScalarKind,
        /// Whether a texel has several samples: `texture_multisampled_2d<f32>`.
        multi: bool,
    },
    /// It holds depths: `texture_depth_2d`.
    Depth {
        /// Whether a texel has several samples.
        multi: bool,
    },
    /// It comes from outside the graphics interface, such as a film: `texture_external`.
    External,
    /// Its texels are read or written one by one: `texture_storage_2d<rgba8unorm,write>`.
    Storage {
        /// How a texel is stored.
        format: StorageFormat,
        /// What may be done with it.
        access: StorageAccess,
    },
}

/// How the texel of a storage image is stored: which channels, with how many bits, and what these
/// mean. WGSL's word is the name in small letters.
#[derive(Debug, Clone, Copy, PartialEq, Eq, Hash)]
pub enum StorageFormat {
    /// `r8unorm`
    R8Unorm,
    /// `r8snorm`
    R8Snorm,
    /// `r8uint`
    R8Uint,
    /// `r8sint`
    R8Sint,
    /// `rg8unorm`
    Rg8Unorm,
    /// `rg8snorm`
    Rg8Snorm,
    /// `rg8uint`
    Rg8Uint,
    /// `rg8sint`
    Rg8Sint,
    /// `rgba8unorm`
    Rgba8Unorm,
    /// `rgba8snorm`
    Rgba8Snorm,
    /// `rgba8uint`
    Rgba8Uint,
    /// `rgba8sint`
    Rgba8Sint,
    /// `r16unorm`
    R16Unorm,
    /// `r16snorm`
    R16Snorm,
    /// `r16uint`
    R16Uint,
    /// `r16sint`
    R16Sint,
    /// `r16float`
    R16Float,
    /// `rg16unorm`
    Rg16Unorm,
    /// `rg16snorm`
    Rg16Snorm,
    /// `rg16uint`
    Rg16Uint,
    /// `rg16sint`
    Rg16Sint,
    /// `rg16float`
    Rg16Float,
    /// `rgba16unorm`
    Rgba16Unorm,
    /// `rgba16snorm`
    Rgba16Snorm,
    /// `rgba16uint`
    Rgba16Uint,
    /// `rgba16sint`
    Rgba16Sint,
    /// `rgba16float`
    Rgba16Float,
    /// `r32uint`
    R32Uint,
    /// `r32sint`
    R32Sint,
    /// `r32float`
    R32Float,
    /// `rg32uint`
    Rg32Uint,
    /// `rg32sint`
    Rg32Sint,
    /// `rg32float`
    Rg32Float,
    /// `rgba32uint`
    Rgba32Uint,
    /// `rgba32sint`
    Rgba32Sint,
    /// `rgba32float`
    Rgba32Float,
    /// `bgra8unorm`
    Bgra8Unorm,
    /// `rgb10a2uint`
    Rgb10a2Uint,
    /// `rgb10a2unorm`
    Rgb10a2Unorm,
    /// `rg11b10ufloat`
    Rg11b10Ufloat,
    /// `r64uint`
    R64Uint,
}
