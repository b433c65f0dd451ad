//! The types that rules give, as WGSL says them.

use naga_acceptance::parts::Known;
use naga_inference::inferred_type;
use naga_info::TypeResolution;
use naga_ir::{
    BinaryOperator, Expression, Handle, ImageClass, ImageDimension, ItemIndex, MathFunction,
    Module, SampleLevel, Scalar, ScalarKind, StorageAccess, StorageFormat, SwizzleComponent, Type_,
    TypeInner, VectorSize,
};
use std::process::Abort;

fn image(class: ImageClass) -> TypeResolution {
    TypeResolution::Value(TypeInner::Image {
        dim: ImageDimension::D2,
        arrayed: false,
        class,
    })
}

fn vector(size: VectorSize, scalar: Scalar) -> TypeInner {
    TypeInner::Vector { size, scalar }
}

/// `mat3x2<f32>`, or with other sizes.
fn matrix(columns: VectorSize, rows: VectorSize) -> TypeInner {
    TypeInner::Matrix {
        columns,
        rows,
        scalar: Scalar::F32,
    }
}

fn at(handle: usize) -> Handle<Expression> {
    ItemIndex::from_index(handle)
}

fn operator(op: BinaryOperator, left: usize, right: usize) -> Expression {
    Expression::Binary {
        op,
        left: at(left),
        right: at(right),
    }
}

fn called(fun: MathFunction, arg: usize, arg1: Option<usize>) -> Expression {
    Expression::Math {
        fun,
        arg: at(arg),
        arg1: arg1.map(|handle| at(handle)),
        arg2: None,
        arg3: None,
    }
}

fn sampled(image: usize, gather: Option<SwizzleComponent>) -> Expression {
    Expression::ImageSample {
        image: at(image),
        sampler: at(0),
        gather,
        coordinate: at(0),
        array_index: None,
        offset: None,
        level: SampleLevel::Auto,
        depth_ref: None,
        clamp_to_edge: false,
    }
}

/// The rule gives this type, by operands of the types `i32`, `vec3<f32>`, `mat3x2<f32>`,
/// `vec2<f32>`, `f32`, of a depth image and of one of texels of `r32uint`.
fn gives(rt: &impl Abort, module: &Module, expression: Expression, expected: TypeInner) {
    let known = [
        TypeResolution::Value(TypeInner::Scalar(Scalar::I32)),
        TypeResolution::Value(vector(VectorSize::Tri, Scalar::F32)),
        TypeResolution::Value(matrix(VectorSize::Tri, VectorSize::Bi)),
        TypeResolution::Value(vector(VectorSize::Bi, Scalar::F32)),
        TypeResolution::Value(TypeInner::Scalar(Scalar::F32)),
        image(ImageClass::Depth { multi: false }),
        image(ImageClass::Storage {
            format: StorageFormat::R32Uint,
            access: StorageAccess::LOAD,
        }),
    ];
    match inferred_type(module, None, Known::Global(known.as_slice()), &expression) {
        Some(TypeResolution::Value(found)) => assert!(rt; found == expected),
        _ => panic!(rt; "a type by itself"),
    }
}

#[test]
fn operators_have_their_types(rt: HostRuntime) {
    let module = Module::new(rt.alloc());
    let truth = TypeInner::Scalar(Scalar::BOOL);
    gives(&rt, &module, operator(BinaryOperator::Less, 0, 0), truth);
    let truths = vector(VectorSize::Tri, Scalar::BOOL);
    gives(&rt, &module, operator(BinaryOperator::Equal, 1, 1), truths);
    let row = vector(VectorSize::Bi, Scalar::F32);
    gives(&rt, &module, operator(BinaryOperator::Multiply, 2, 1), row);
    let column = vector(VectorSize::Tri, Scalar::F32);
    gives(
        &rt,
        &module,
        operator(BinaryOperator::Multiply, 3, 2),
        column,
    );
    let scaled = vector(VectorSize::Tri, Scalar::F32);
    gives(
        &rt,
        &module,
        operator(BinaryOperator::Multiply, 4, 1),
        scaled,
    );
    let conversion = Expression::As {
        expr: at(0),
        kind: ScalarKind::Float,
        convert: Some(2),
    };
    gives(&rt, &module, conversion, TypeInner::Scalar(Scalar::F16));
}

#[test]
fn functions_have_their_types(rt: HostRuntime) {
    let module = Module::new(rt.alloc());
    let transposed = matrix(VectorSize::Bi, VectorSize::Tri);
    gives(
        &rt,
        &module,
        called(MathFunction::Transpose, 2, None),
        transposed,
    );
    let number = TypeInner::Scalar(Scalar::F32);
    gives(&rt, &module, called(MathFunction::Dot, 1, Some(1)), number);
    let bits = TypeInner::Scalar(Scalar::U32);
    gives(
        &rt,
        &module,
        called(MathFunction::Pack2x16float, 3, None),
        bits,
    );
}

#[test]
fn images_have_their_types(rt: HostRuntime) {
    let module = Module::new(rt.alloc());
    let depth = TypeInner::Scalar(Scalar::F32);
    gives(&rt, &module, sampled(5, None), depth);
    let depths = vector(VectorSize::Quad, Scalar::F32);
    gives(&rt, &module, sampled(5, Some(SwizzleComponent::X)), depths);
    let texel = vector(VectorSize::Quad, Scalar::U32);
    let load = Expression::ImageLoad {
        image: at(6),
        coordinate: at(0),
        array_index: None,
        sample: None,
        level: None,
    };
    gives(&rt, &module, load, texel);
}

/// The types of rays are these two of the module's.
fn tell_rays(module: &mut Module, found: usize, positions: usize) {
    let found: Handle<Type_> = ItemIndex::from_index(found);
    let positions: Handle<Type_> = ItemIndex::from_index(positions);
    let special = &mut module.special_types;
    special.ray_intersection = Some(found);
    special.ray_vertex_return = Some(positions);
}

/// Which type of the module the rule gives, by no operands.
fn given_handle(module: &Module, expression: &Expression) -> Option<usize> {
    let known: [TypeResolution; 0] = [];
    let given = inferred_type(module, None, Known::Global(known.as_slice()), expression);
    match &given {
        Some(ty) => match ty.handle() {
            Some(handle) => Some(handle.index()),
            None => None,
        },
        None => None,
    }
}

/// What a ray query found has the module's own types, if it tells them.
#[test]
fn rays_have_special_types(rt: HostRuntime) {
    let mut module = Module::new(rt.alloc());
    let found = Expression::RayQueryGetIntersection {
        query: at(0),
        committed: true,
    };
    let positions = Expression::RayQueryVertexPositions {
        query: at(0),
        committed: true,
    };
    assert_eq!(rt; given_handle(&module, &found), None);
    assert_eq!(rt; given_handle(&module, &positions), None);
    tell_rays(&mut module, 3, 4);
    assert_eq!(rt; given_handle(&module, &found), Some(3));
    assert_eq!(rt; given_handle(&module, &positions), Some(4));
}
