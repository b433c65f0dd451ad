//! What kind of type or statement something is.

ghost use Rattle.std.specs.Prelude.{◌≡◌, Bool};
ghost use Rattle.naga_ir.specs.Kinds.{ends_block};
ghost use Rattle.naga_back.specs.Kinds.{is_resource};

use naga_ir::{Statement, TypeInner};

/// Which types live in the handle space.
pub trait IsHandle {
    /// Whether the type does.
    ghost is_resource: { Self → Bool };

    /// Whether the type is that of a resource without memory of its own: an image, a sampler or an
    /// acceleration structure.
    fn is_handle(&self) -> bool
        ensures { result ≡ is_resource self.now };
}

impl IsHandle for TypeInner {
    ghost is_resource = { is_resource };

    fn is_handle(&self) -> bool {
        matches!(
            self,
            TypeInner::Image { .. }
                | TypeInner::Sampler { .. }
                | TypeInner::AccelerationStructure { .. }
        )
    }
}

/// Which statements end a block.
pub trait IsTerminator {
    /// Whether the statement does.
    ghost ends_block: { Self → Bool };

    /// Whether nothing that stands after the statement in its block is reached: it is a `Break`, a
    /// `Continue`, a `Return` or a `Kill`.
    fn is_terminator(&self) -> bool
        ensures { result ≡ ends_block self.now };
}

impl IsTerminator for Statement {
    ghost ends_block = { ends_block };

    fn is_terminator(&self) -> bool {
        self.ends_block()
    }
}
