//! Sets of named bits.

ghost use Rattle.std.specs.Prelude.{⊤, [], ◌∷◌, codes};

use bitflags::{Flag, Flags, bitflag_items};

/// What may be done with the memory of a storage buffer or a storage image.
#[derive(Debug, Clone, Copy, PartialEq, Eq, Hash)]
pub struct StorageAccess(u32);

bitflag_items! {
    impl StorageAccess: u32 {
        /// It may be read.
        const LOAD = 1;
        /// It may be written.
        const STORE = 2;
        /// It may be changed in one step by atomic operations.
        const ATOMIC = 4;
    }
}

impl Flags for StorageAccess {
    type Bits = u32;

    ghost exact = { ⊤ };

    ghost table = { (codes "LOAD", 1) ∷ (codes "STORE", 2) ∷ (codes "ATOMIC", 4) ∷ [] };

    ghost set_of = { λ f. f.0 };

    fn flags<'a>() -> &'a [Flag<StorageAccess>] {
        StorageAccess::FLAGS
    }

    fn bits(&self) -> u32 {
        self.0
    }

    fn from_bits_retain(bits: u32) -> StorageAccess {
        StorageAccess(bits)
    }
}

/// How the accesses to a global variable are ordered and seen by other invocations.
#[derive(Debug, Clone, Copy, PartialEq, Eq)]
pub struct MemoryDecorations(u32);

bitflag_items! {
    impl MemoryDecorations: u32 {
        /// Writes are made visible to the other invocations: `@coherent`.
        const COHERENT = 1;
        /// The memory may be changed by others than the shader: `@volatile`.
        const VOLATILE = 2;
    }
}

impl Flags for MemoryDecorations {
    type Bits = u32;

    ghost exact = { ⊤ };

    ghost table = { (codes "COHERENT", 1) ∷ (codes "VOLATILE", 2) ∷ [] };

    ghost set_of = { λ f. f.0 };

    fn flags<'a>() -> &'a [Flag<MemoryDecorations>] {
        MemoryDecorations::FLAGS
    }

    fn bits(&self) -> u32 {
        self.0
    }

    fn from_bits_retain(bits: u32) -> MemoryDecorations {
        MemoryDecorations(bits)
    }
}

/// Which accesses a barrier keeps apart.
#[derive(Debug, Clone, Copy, PartialEq, Eq)]
pub struct Barrier(u32);

bitflag_items! {
    impl Barrier: u32 {
        /// Those to storage buffers: `storageBarrier()`.
        const STORAGE = 1;
        /// Those to workgroup variables: `workgroupBarrier()`.
        const WORK_GROUP = 2;
        /// Those among the invocations of a subgroup: `subgroupBarrier()`.
        const SUB_GROUP = 4;
        /// Those to storage images: `textureBarrier()`.
        const TEXTURE = 8;
    }
}

impl Flags for Barrier {
    type Bits = u32;

    ghost exact = { ⊤ };

    ghost table = { (codes "STORAGE", 1) ∷ (codes "WORK_GROUP", 2) ∷ (codes "SUB_GROUP", 4)
        ∷ (codes "TEXTURE", 8) ∷ [] };

    ghost set_of = { λ f. f.0 };

    fn flags<'a>() -> &'a [Flag<Barrier>] {
        Barrier::FLAGS
    }

    fn bits(&self) -> u32 {
        self.0
    }

    fn from_bits_retain(bits: u32) -> Barrier {
        Barrier(bits)
    }
}
