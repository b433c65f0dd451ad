//! Types: scalars, vectors, matrices, arrays, structs, pointers, and the resources of a shader.

use crate::arena::{Handle, Item};
use crate::binding::Binding;
use crate::flags::StorageAccess;
use crate::image::{ImageClass, ImageDimension};
use crate::module::Override;
use std::num::NonZeroU32;

/// How many components a vector has, or columns or rows a matrix.
#[derive(Debug, Clone, Copy, PartialEq, Eq, Hash)]
pub enum VectorSize {
    /// Two.
    Bi = 2,
    /// Three.
    Tri = 3,
    /// Four.
    Quad = 4,
}

/// How many columns or rows a cooperative matrix has.
#[derive(Debug, Clone, Copy, PartialEq, Eq, Hash)]
pub enum CooperativeSize {
    /// Eight.
    Eight = 8,
    /// Sixteen.
    Sixteen = 16,
}

/// Which operand of `A * B + C` a cooperative matrix can be.
#[derive(Debug, Clone, Copy, PartialEq, Eq, Hash)]
pub enum CooperativeRole {
    /// The left factor.
    A,
    /// The right factor.
    B,
    /// The summand, and the result.
    C,
}

/// What the bits of a scalar mean.
#[derive(Debug, Clone, Copy, PartialEq, Eq, Hash)]
pub enum ScalarKind {
    /// A signed integer.
    Sint,
    /// An unsigned integer.
    Uint,
    /// A floating-point number.
    Float,
    /// A truth value.
    Bool,
    /// An integer of WGSL's constant expressions. It has no type of its own in a shader.
    AbstractInt,
    /// A floating-point number of WGSL's constant expressions. It has no type of its own in a
    /// shader.
    AbstractFloat,
}

/// A number or a truth value: `i32`, `f16`, `bool`.
#[derive(Debug, Clone, Copy, PartialEq, Eq, Hash)]
pub struct Scalar {
    /// What its bits mean.
    pub kind: ScalarKind,
    /// How many bytes it has; 1 for `bool`.
    pub width: u8,
}

impl Scalar {
    /// `i16`
    pub const I16: Self = Scalar {
        kind: ScalarKind::Sint,
        width: 2,
    };

    /// `u16`
    pub const U16: Self = Scalar {
        kind: ScalarKind::Uint,
        width: 2,
    };

    /// `i32`
    pub const I32: Self = Scalar {
        kind: ScalarKind::Sint,
        width: 4,
    };

    /// `u32`
    pub const U32: Self = Scalar {
        kind: ScalarKind::Uint,
        width: 4,
    };

    /// `i64`
    pub const I64: Self = Scalar {
        kind: ScalarKind::Sint,
        width: 8,
    };

    /// `u64`
    pub const U64: Self = Scalar {
        kind: ScalarKind::Uint,
        width: 8,
    };

    /// `f16`
    pub const F16: Self = Scalar {
        kind: ScalarKind::Float,
        width: 2,
    };

    /// `f32`
    pub const F32: Self = Scalar {
        kind: ScalarKind::Float,
        width: 4,
    };

    /// `f64`
    pub const F64: Self = Scalar {
        kind: ScalarKind::Float,
        width: 8,
    };

    /// `bool`
    pub const BOOL: Self = Scalar {
        kind: ScalarKind::Bool,
        width: 1,
    };

    /// An integer of WGSL's constant expressions.
    pub const ABSTRACT_INT: Self = Scalar {
        kind: ScalarKind::AbstractInt,
        width: 8,
    };

    /// A floating-point number of WGSL's constant expressions.
    pub const ABSTRACT_FLOAT: Self = Scalar {
        kind: ScalarKind::AbstractFloat,
        width: 8,
    };
}

/// Where a variable lives, and who shares it.
#[derive(Debug, Clone, Copy, PartialEq, Eq, Hash)]
pub enum AddressSpace {
    /// In one call of a function.
    Function,
    /// In one invocation.
    Private,
    /// In a workgroup.
    WorkGroup,
    /// In a uniform buffer, which is only read.
    Uniform,
    /// In a storage buffer.
    Storage {
        /// What may be done with it.
        access: StorageAccess,
    },
    /// Among the resources that have no memory of their own: images, samplers and acceleration
    /// structures. WGSL has no word for it.
    Handle,
    /// Among the immediate data of a pipeline.
    Immediate,
    /// In the payload that a task stage hands to the mesh stage.
    TaskPayload,
    /// In the payload that a ray pipeline's stage sends along with a ray.
    RayPayload,
    /// In the payload that came with the ray.
    IncomingRayPayload,
}

/// A struct that WGSL has without a declaration, as the result of a built-in function.
#[derive(Debug, Clone, Copy, PartialEq, Eq, Hash)]
pub enum PredeclaredType {
    /// What `atomicCompareExchangeWeak` gives: the old value, and whether it was exchanged.
    AtomicCompareExchangeWeakResult(Scalar),
    /// What `modf` gives: the fractional and the whole part.
    ModfResult {
        /// How many components; none for a scalar.
        size: Option<VectorSize>,
        /// What they are.
        scalar: Scalar,
    },
    /// What `frexp` gives: the significand and the exponent.
    FrexpResult {
        /// How many components; none for a scalar.
        size: Option<VectorSize>,
        /// What they are.
        scalar: Scalar,
    },
}

/// The mark of [`Type_`] in a handle.
pub enum TypeMark {}

impl Item for Type_ {
    type Mark = TypeMark;
}

/// How many elements an array has.
#[derive(Debug, Clone, Copy, PartialEq, Eq, Hash)]
pub enum ArraySize {
    /// That many: `array<T, 4>`.
    Constant(NonZeroU32),
    /// As many as an override says when the pipeline is made: `array<T, N>`.
    Pending(Handle<Override>),
    /// As many as the buffer that is bound has room for: `array<T>`.
    Dynamic,
}

/// A member of a struct.
#[derive(Debug, Drop, PartialEq, Eq, Hash)]
pub struct StructMember {
    /// Its label in the source, if it has one.
    pub name: Option<String>,
    /// Its type.
    pub ty: Handle<Type_>,
    /// How it is bound to the stage before or after, where the struct goes in or out of an entry
    /// point.
    pub binding: Option<Binding>,
    /// Where it begins in the struct, in bytes.
    pub offset: u32,
}

/// What a type is, apart from its name.
#[derive(Debug, Drop, PartialEq, Eq, Hash)]
pub enum TypeInner {
    /// A number or a truth value: `u32`.
    Scalar(Scalar),
    /// Two to four scalars: `vec3<f32>`.
    Vector {
        /// How many.
        size: VectorSize,
        /// What they are.
        scalar: Scalar,
    },
    /// Two to four columns, each a vector: `mat3x2<f32>`.
    Matrix {
        /// How many columns.
        columns: VectorSize,
        /// How many rows.
        rows: VectorSize,
        /// What its components are.
        scalar: Scalar,
    },
    /// A matrix that a subgroup holds together: `coop_mat8x8<f32,A>`.
    CooperativeMatrix {
        /// How many columns.
        columns: CooperativeSize,
        /// How many rows.
        rows: CooperativeSize,
        /// What its components are.
        scalar: Scalar,
        /// Which operand of a multiplication it can be.
        role: CooperativeRole,
    },
    /// A scalar that invocations change in one step: `atomic<u32>`.
    Atomic(Scalar),
    /// A pointer to a value of a type of the module: `ptr<function, T>`.
    Pointer {
        /// What it points to.
        base: Handle<Type_>,
        /// Where that lives.
        space: AddressSpace,
    },
    /// A pointer to a scalar or a vector that has no type of its own in the module, such as one
    /// into a vector: `ptr<function, vec3<f32>>`.
    ValuePointer {
        /// How many scalars; none for one scalar by itself.
        size: Option<VectorSize>,
        /// What they are.
        scalar: Scalar,
        /// Where they live.
        space: AddressSpace,
    },
    /// Elements of one type: `array<T, 4>`.
    Array {
        /// The elements' type.
        base: Handle<Type_>,
        /// How many.
        size: ArraySize,
        /// How far each begins after the one before, in bytes.
        stride: u32,
    },
    /// Named members of any types.
    Struct {
        /// The members, in order.
        members: Vec<StructMember>,
        /// How many bytes it takes.
        span: u32,
    },
    /// A texture: `texture_2d<f32>`.
    Image {
        /// Its dimension.
        dim: ImageDimension,
        /// Whether it is an array of such images.
        arrayed: bool,
        /// How it is used.
        class: ImageClass,
    },
    /// How a texture is sampled: `sampler`.
    Sampler {
        /// Whether it compares with a reference: `sampler_comparison`.
        comparison: bool,
    },
    /// What rays are traced in: `acceleration_structure`.
    AccelerationStructure {
        /// Whether a hit tells the vertices: `acceleration_structure<vertex_return>`.
        vertex_return: bool,
    },
    /// A traversal of an acceleration structure under way: `ray_query`.
    RayQuery {
        /// Whether a hit tells the vertices: `ray_query<vertex_return>`.
        vertex_return: bool,
    },
    /// Resources of one type that are bound together: `binding_array<T, 8>`.
    BindingArray {
        /// The resources' type.
        base: Handle<Type_>,
        /// How many.
        size: ArraySize,
    },
}

/// A type of a module. A struct's declaration is one of these with [`TypeInner::Struct`].
#[derive(Debug, Drop, PartialEq, Eq, Hash)]
pub struct Type_ {
    /// Its label in the source, if it has one.
    pub name: Option<String>,
    /// What it is.
    pub inner: TypeInner,
}
