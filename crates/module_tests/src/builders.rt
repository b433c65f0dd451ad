//! Builders: the calls that no sample and no example makes, and what is told twice. The others are
//! told by the texts of the samples (`wgsl_rows`) and of the examples.
use bitflags::Flags;
use naga_builder::{BuildError, ModuleBuilder, StageExtras};
use naga_info::TypeResolution;
use naga_ir::{
    AddressSpace, BinaryOperator, Binding, BuiltIn, Constant, Expression, GlobalVariable, Handle,
    Literal, MemoryDecorations, MeshStageInfo, PredeclaredType, Scalar, ShaderStage, Type_,
    TypeInner, UnaryOperator, VectorSize,
};
use std::process::Abort;

/// Two types, of which the second, `i32`, is given. A type that is there already is found.
fn types_hold(rt: &impl Abort, shader: &mut ModuleBuilder) -> Handle<Type_> {
    shader.scalar(Scalar::BOOL).expect(rt, "memory");
    let i32_type = shader.scalar(Scalar::I32).expect(rt, "memory");
    let same = Type_ {
        name: None,
        inner: TypeInner::Scalar(Scalar::I32),
    };
    assert!(rt; shader.add_type(same).expect(rt, "memory") == i32_type);
    assert_eq!(rt; (i32_type.index(), shader.module.types.len()), (1, 2));
    i32_type
}

/// What `modf` gives is told twice, and the later holds.
fn predeclared_holds(rt: &impl Abort, shader: &mut ModuleBuilder, ty: Handle<Type_>) {
    let of_numbers = PredeclaredType::ModfResult {
        size: None,
        scalar: Scalar::F32,
    };
    let other = Handle::<Type_>::from_index(0);
    shader.predeclared(of_numbers, other).expect(rt, "memory");
    shader.predeclared(of_numbers, ty).expect(rt, "memory");
    let told = &shader.module.special_types.predeclared_types;
    assert!(rt; told.len() == 1 && told.get(&of_numbers) == Some(&ty));
}

/// One of the module's own expressions has its scalar's type, and one that a test tells.
fn global_expressions_hold(rt: &impl Abort, shader: &mut ModuleBuilder) {
    let one = Expression::Literal(Literal::U32(1));
    let one = shader.global_expression(one).expect(rt, "a type");
    let negated = Expression::Unary {
        op: UnaryOperator::Negate,
        expr: one,
    };
    let number = TypeResolution::Value(TypeInner::Scalar(Scalar::F32));
    let negated = shader
        .typed_global_expression(negated, number)
        .expect(rt, "memory");
    let types = shader.info.const_expression_types.as_slice();
    assert_eq!(rt; (one.index(), negated.index(), types.len()), (0, 1, 2));
    assert!(rt; has_scalar(types.get(0), Scalar::U32) && has_scalar(types.get(1), Scalar::F32));
}

/// Whether a type is this scalar by itself.
fn has_scalar(ty: Option<&TypeResolution>, scalar: Scalar) -> bool {
    match ty {
        Some(TypeResolution::Value(inner)) => *inner == TypeInner::Scalar(scalar),
        _ => false,
    }
}

/// A constant of this type, whose value is one of the module's own expressions.
fn add_seven(rt: &impl Abort, shader: &mut ModuleBuilder, ty: Handle<Type_>) -> Handle<Constant> {
    let init = Expression::Literal(Literal::I32(7));
    let init = shader.global_expression(init).expect(rt, "a type");
    let seven = Constant {
        name: None,
        ty,
        init,
    };
    shader.add_constant(seven).expect(rt, "memory")
}

/// A label, and the name of a front end, are told twice, and the later hold.
fn names_hold(rt: &impl Abort, shader: &mut ModuleBuilder, ty: Handle<Type_>) {
    let constant = add_seven(rt, shader, ty);
    let mut function = shader.unlabelled_function();
    function.label("g").expect(rt, "memory");
    function.label("h").expect(rt, "memory");
    let zero = function.zero(ty).expect(rt, "memory");
    let seven = function.constant(constant).expect(rt, "a type");
    function.name(zero, "a").expect(rt, "memory");
    function.name(seven, "seven").expect(rt, "memory");
    function.name(zero, "b").expect(rt, "memory");
    let built = function.finish();
    let handle = shader.add_function(built).expect(rt, "memory");
    let built = &shader.module.functions[handle];
    assert!(rt; matches!(&built.name, Some(name) if name.as_str() == "h"));
    assert_eq!(rt; (seven.index(), built.named_expressions.len()), (1, 2));
    let label = built.named_expressions.get(&zero).expect(rt, "a name");
    assert_eq!(rt; label.as_str(), "b");
}

/// `&&` after a number has no type. It is not added, and another expression is, in its place, also
/// where the function goes on after a type was added to the module.
#[test]
fn what_has_no_type_is_not_added(rt: HostRuntime) {
    let mut shader = ModuleBuilder::new(rt.alloc());
    let mut function = shader.unlabelled_function();
    let number = function.literal(Literal::I32(1)).expect(&rt, "memory");
    let both = function.binary(BinaryOperator::LogicalAnd, number, number);
    assert!(rt; both == Err(BuildError::Untyped));
    let paused = function.finish();
    let pair = shader
        .vector(VectorSize::Bi, Scalar::I32)
        .expect(&rt, "memory");
    let mut function = shader.resume(paused);
    let zero = function.zero(pair).expect(&rt, "memory");
    let part = function.part(zero, 1).expect(&rt, "a type");
    assert_eq!(rt; (number.index(), zero.index(), part.index()), (0, 1, 2));
    let built = function.finish();
    shader.add_function(built).expect(&rt, "memory");
    let known = shader.info.functions.last().expect(&rt, "a function");
    let ty = known.expressions.last().map(|known| &known.ty);
    assert!(rt; known.expressions.len() == 3 && has_scalar(ty, Scalar::I32));
}

/// A variable is a pointer, or an image itself.
#[test]
fn variables_have_types_by_their_spaces(rt: HostRuntime) {
    let alloc = rt.alloc();
    let mut shader = ModuleBuilder::new(alloc);
    let sampler = shader.type_of(TypeInner::Sampler { comparison: false });
    let sampler = sampler.expect(&rt, "memory");
    let number = shader.scalar(Scalar::F32).expect(&rt, "memory");
    let filtering = add_variable(&rt, &mut shader, AddressSpace::Handle, sampler);
    let held = add_variable(&rt, &mut shader, AddressSpace::Private, number);
    let mut function = shader.unlabelled_function();
    function.global(filtering).expect(&rt, "a type");
    let pointer = function.global(held).expect(&rt, "a type");
    function.load(pointer).expect(&rt, "a type");
    let built = function.finish();
    shader.add_function(built).expect(&rt, "memory");
    let known = shader.info.functions.last().expect(&rt, "a function");
    let known = known.expressions.as_slice();
    assert_eq!(rt; known.len(), 3);
    assert_eq!(rt; known[0].ty.handle(), Some(sampler));
    let space = AddressSpace::Private;
    let pointer = TypeInner::Pointer {
        base: number,
        space,
    };
    assert!(rt; matches!(&known[1].ty, TypeResolution::Value(inner) if *inner == pointer));
    assert_eq!(rt; known[2].ty.handle(), Some(number));
}

fn add_variable(
    rt: &impl Abort,
    shader: &mut ModuleBuilder,
    space: AddressSpace,
    ty: Handle<Type_>,
) -> Handle<GlobalVariable> {
    let variable = GlobalVariable {
        name: None,
        space,
        binding: None,
        ty,
        init: None,
        memory_decorations: MemoryDecorations::empty(),
    };
    shader.add_global(variable).expect(rt, "memory")
}

/// An entry point of a mesh stage, whose result is bound.
fn entry_point_holds(rt: &impl Abort, shader: &mut ModuleBuilder, ty: Handle<Type_>) {
    let mut function = shader.unlabelled_function();
    let mask = Binding::BuiltIn(BuiltIn::SampleMask);
    function.returns_with_binding(ty, mask);
    let output_variable = Handle::<GlobalVariable>::from_index(0);
    let parts = StageExtras {
        mesh_info: Some(MeshStageInfo { output_variable }),
        ..StageExtras::none()
    };
    let built = function.finish();
    shader
        .add_stage_entry_point("ms", ShaderStage::Mesh, [1, 2, 3], parts, built)
        .expect(rt, "memory");
    let point = shader.module.entry_points.last().expect(rt, "a point");
    assert!(rt; point.mesh_info == parts.mesh_info && point.task_payload == None);
    assert_eq!(rt; point.workgroup_size, [1, 2, 3]);
    let result = point.function.result.expect(rt, "a result");
    assert!(rt; result.ty == ty && result.binding == Some(mask));
}

#[test]
fn a_module_is_built(rt: HostRuntime) {
    let mut shader = ModuleBuilder::new(rt.alloc());
    let i32_type = types_hold(&rt, &mut shader);
    predeclared_holds(&rt, &mut shader, i32_type);
    global_expressions_hold(&rt, &mut shader);
    names_hold(&rt, &mut shader, i32_type);
    entry_point_holds(&rt, &mut shader, i32_type);
    assert_eq!(&rt;
        (shader.info.functions.len(), shader.info.entry_points.len()),
        (1, 1)
    );
}
