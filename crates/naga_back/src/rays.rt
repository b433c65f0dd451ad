//! What a ray may meet, and what it met.

ghost use Rattle.std.specs.Prelude.{⊤, [], ◌∷◌, ◌≡◌, codes};
ghost use Rattle.naga_back.specs.Rays.{intersection_number};

use bitflags::{Flag, Flags, bitflag_items};

/// How a ray goes through an acceleration structure. By default no flag is set.
#[derive(Debug, Default, Clone, Copy, PartialEq, Eq)]
pub struct RayFlag(u32);

bitflag_items! {
    impl RayFlag: u32 {
        /// All that it meets counts as opaque.
        const OPAQUE = 1;
        /// Nothing that it meets counts as opaque.
        const NO_OPAQUE = 2;
        /// It ends at the first hit.
        const TERMINATE_ON_FIRST_HIT = 4;
        /// The nearest hit is not answered by a shader.
        const SKIP_CLOSEST_HIT_SHADER = 8;
        /// It passes through triangles that it meets from after.
        const CULL_BACK_FACING = 16;
        /// It passes through triangles that it meets from the front.
        const CULL_FRONT_FACING = 32;
        /// It passes through what is opaque.
        const CULL_OPAQUE = 64;
        /// It passes through what is not opaque.
        const CULL_NO_OPAQUE = 128;
        /// It passes through all triangles.
        const SKIP_TRIANGLES = 256;
        /// It passes through all bounding boxes.
        const SKIP_AABBS = 512;
    }
}

impl Flags for RayFlag {
    type Bits = u32;

    ghost exact = { ⊤ };

    ghost table = { (codes "OPAQUE", 1) ∷ (codes "NO_OPAQUE", 2) ∷
        (codes "TERMINATE_ON_FIRST_HIT", 4) ∷ (codes "SKIP_CLOSEST_HIT_SHADER", 8) ∷
        (codes "CULL_BACK_FACING", 16) ∷ (codes "CULL_FRONT_FACING", 32) ∷
        (codes "CULL_OPAQUE", 64) ∷ (codes "CULL_NO_OPAQUE", 128) ∷ (codes "SKIP_TRIANGLES", 256) ∷
        (codes "SKIP_AABBS", 512) ∷ [] };

    ghost set_of = { λ f. f.0 };

    fn flags<'a>() -> &'a [Flag<RayFlag>] {
        RayFlag::FLAGS
    }

    fn bits(&self) -> u32 {
        self.0
    }

    fn from_bits_retain(bits: u32) -> RayFlag {
        RayFlag(bits)
    }
}

/// What a ray met, as a number in a shader: `RayIntersectionType::BoundingBox as u32` is 4.
#[derive(Debug, Drop)]
pub enum RayIntersectionType {
    /// A triangle.
    Triangle = 1,
    /// A bounding box.
    BoundingBox = 4,
}

impl RayIntersectionType {
    /// The number by which a shader knows it: that of a bounding box is 4.
    pub fn number(&self) -> u32
        ensures { result ≡ intersection_number self.now }
    {
        match self {
            RayIntersectionType::Triangle => RayIntersectionType::Triangle as u32,
            RayIntersectionType::BoundingBox => RayIntersectionType::BoundingBox as u32,
        }
    }
}
