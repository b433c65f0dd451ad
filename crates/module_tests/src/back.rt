//! Helpers of the writer.
use bitflags::Flags;
use naga_back::{
    BakeRefCount, Baked, COMPONENTS, FunctionCtx, FunctionType, INDENT, IsHandle, IsTerminator,
    Level, NeedBakeExpressions, RayFlag, RayIntersectionType, binary_operation_str,
};
use naga_info::{ExpressionInfo, FunctionInfo, TypeResolution};
use naga_ir::{
    BinaryOperator, BuiltIn, Expression, Function, ItemIndex, Literal, Module, Scalar, ShaderStage,
    Statement, TypeInner,
};
use naga_json::{read_known, read_module};
use naga_names::namer::{ExternalTextureNameKey, NameKey};
use std::alloc::Global;
use std::collections::HashSet;
use std::process::Abort;

#[test]
fn letters_and_signs(rt: HostRuntime) {
    assert_eq!(rt; COMPONENTS, ['x', 'y', 'z', 'w']);
    let sign = binary_operation_str(BinaryOperator::ShiftLeft);
    assert_eq!(rt; (INDENT, sign), ("    ", "<<"));
}

#[test]
fn levels_and_handles_are_shown(rt: HostRuntime) {
    let (outer, inner) = (Level(0), Level(1).next());
    let baked = Baked(ItemIndex::from_index(7));
    let shown = format!(in rt.alloc(); "{outer}|{inner}|{baked}").expect(&rt, "memory");
    assert_eq!(rt; shown.as_str(), "|        |_e7");
}

#[test]
fn uses_that_bind(rt: HostRuntime) {
    let base = ItemIndex::from_index(0);
    assert_eq!(rt;
        [
            Expression::AccessIndex { base, index: 0 }.bake_ref_count(),
            Expression::Load { pointer: base }.bake_ref_count(),
            Expression::Literal(Literal::I32(0)).bake_ref_count(),
        ],
        [usize::MAX, 1, 2]
    );
    let mut needed: NeedBakeExpressions = HashSet::new(rt.alloc());
    needed.insert(base).expect(&rt, "memory");
    assert!(rt; needed.contains(&base) && !needed.contains(&ItemIndex::from_index(1)));
}

#[test]
fn kinds_of_types_and_statements(rt: HostRuntime) {
    let vertex_return = false;
    assert_eq!(rt;
        [
            TypeInner::Sampler { comparison: true }.is_handle(),
            TypeInner::AccelerationStructure { vertex_return }.is_handle(),
            TypeInner::Scalar(Scalar::I32).is_handle(),
        ],
        [true, true, false]
    );
    let (pointer, value) = (ItemIndex::from_index(0), ItemIndex::from_index(1));
    assert_eq!(rt;
        [
            Statement::Break.is_terminator(),
            Statement::Continue.is_terminator(),
            Statement::Kill.is_terminator(),
            Statement::Return { value: None }.is_terminator(),
            Statement::Store { pointer, value }.is_terminator(),
        ],
        [true, true, true, true, false]
    );
}

const RAY_FLAGS: [RayFlag; 10] = [
    RayFlag::OPAQUE,
    RayFlag::NO_OPAQUE,
    RayFlag::TERMINATE_ON_FIRST_HIT,
    RayFlag::SKIP_CLOSEST_HIT_SHADER,
    RayFlag::CULL_BACK_FACING,
    RayFlag::CULL_FRONT_FACING,
    RayFlag::CULL_OPAQUE,
    RayFlag::CULL_NO_OPAQUE,
    RayFlag::SKIP_TRIANGLES,
    RayFlag::SKIP_AABBS,
];

#[test]
fn rays_have_ten_flags(rt: HostRuntime) {
    assert!(rt;
        RayFlag::from_bits(0x3ff) == Some(RayFlag::all()) && RayFlag::from_bits(0x400).is_none()
    );
    assert!(rt; RayFlag::default() == RayFlag::empty());
    let mut bits = 1u32;
    for flag in &RAY_FLAGS {
        assert!(rt; flag.bits() == bits && RayFlag::all().contains(*flag));
        bits = bits.wrapping_mul(2);
    }
}

#[test]
fn what_rays_meet_has_numbers(rt: HostRuntime) {
    assert_eq!(rt;
        [
            RayIntersectionType::Triangle.number(),
            RayIntersectionType::BoundingBox.number(),
            RayIntersectionType::BoundingBox as u32,
        ],
        [1, 4, 4]
    );
}

/// A fragment entry point whose argument is a struct of the position and a value that the vertices
/// give, with its two members, and the first component of the first.
const FRAGMENT: &str = r#"{
    "module": {
        "types": [
            {"inner": {"Vector": {"size": "Quad", "scalar": {"kind": "Float", "width": 4}}}},
            {"inner": {"Struct": {"members": [
                {"ty": 0, "binding": {"BuiltIn": {"Position": {"invariant": false}}}, "offset": 0},
                {"ty": 0, "binding": {"Location": {"location": 0}}, "offset": 16}
            ], "span": 32}}}
        ],
        "entry_points": [{
            "name": "", "stage": "Fragment", "workgroup_size": [1, 1, 1],
            "function": {"arguments": [{"ty": 1}], "expressions": [
                {"FunctionArgument": 0},
                {"AccessIndex": {"base": 0, "index": 0}},
                {"AccessIndex": {"base": 0, "index": 1}},
                {"AccessIndex": {"base": 1, "index": 0}}
            ]}
        }]
    },
    "info": {"entry_points": [[1, 0, 0, {"Value": {"Scalar": {"kind": "Float", "width": 4}}}]]}
}"#;

/// The inputs that the expressions are, in the entry point and in a function.
fn inputs_hold(rt: &impl Abort, module: &Module, info: &FunctionInfo) {
    assert!(rt; module.entry_points.len() == 1);
    let function = &module.entry_points[0].function;
    let expressions = &function.expressions;
    let named_expressions = &function.named_expressions;
    let ty = FunctionType::EntryPoint(0);
    let inside = FunctionCtx {
        ty,
        info,
        expressions,
        named_expressions,
    };
    let ty = FunctionType::Function(ItemIndex::from_index(0));
    let outside = FunctionCtx {
        ty,
        info,
        expressions,
        named_expressions,
    };
    let position = Some(BuiltIn::Position { invariant: false });
    for (index, want) in [None, position, None, None].iter().enumerate() {
        let handle = ItemIndex::from_index(index);
        assert_eq!(rt;
            [
                inside.is_fixed_function_input(handle, module),
                outside.is_fixed_function_input(handle, module),
            ],
            [*want, None],
            "{index}"
        );
    }
}

#[test]
fn inputs_of_an_entry_point(rt: HostRuntime) {
    let known = read_known(rt.alloc(), FRAGMENT).expect(&rt, "a module");
    assert!(rt; known.info.entry_points.len() == 1);
    inputs_hold(&rt, &known.module, &known.info.entry_points[0]);
}

/// The keys of what the function has.
fn keys_hold(rt: &impl Abort, info: &FunctionInfo, function: &Function) {
    let expressions = &function.expressions;
    let named_expressions = &function.named_expressions;
    let own = ItemIndex::from_index(5);
    let ty = FunctionType::Function(own);
    let outside = FunctionCtx {
        ty,
        info,
        expressions,
        named_expressions,
    };
    let ty = FunctionType::EntryPoint(7);
    let inside = FunctionCtx {
        ty,
        info,
        expressions,
        named_expressions,
    };
    let local = ItemIndex::from_index(2);
    let plane = ExternalTextureNameKey::Plane(1);
    assert_eq!(rt;
        [
            outside.name_key(local),
            outside.argument_key(3),
            outside.external_texture_argument_key(3, plane),
            inside.name_key(local),
            inside.argument_key(3),
        ],
        [
            NameKey::FunctionLocal(own, local),
            NameKey::FunctionArgument(own, 3),
            NameKey::ExternalTextureFunctionArgument(own, 3, plane),
            NameKey::EntryPointLocal(7, local),
            NameKey::EntryPointArgument(7, 3),
        ]
    );
}

/// The type of an expression that is known by itself.
fn type_holds(rt: &impl Abort, alloc: Global, function: &Function) {
    let only = ExpressionInfo {
        ref_count: 0,
        ty: TypeResolution::Value(TypeInner::Scalar(Scalar::F32)),
    };
    let info = FunctionInfo {
        expressions: vec![in alloc; only].expect(rt, "memory"),
    };
    let context = FunctionCtx {
        ty: FunctionType::EntryPoint(0),
        info: &info,
        expressions: &function.expressions,
        named_expressions: &function.named_expressions,
    };
    let types = Module::new(alloc).types;
    let ty = context.resolve_type(ItemIndex::from_index(0), &types);
    assert!(rt; matches!(ty, TypeInner::Scalar(_)));
    keys_hold(rt, &info, function);
}

#[test]
fn types_and_keys_in_a_function(rt: HostRuntime) {
    type_holds(&rt, rt.alloc(), &Function::new(rt.alloc()));
}

const STAGES: &[(ShaderStage, bool)] = &[
    (ShaderStage::Vertex, false),
    (ShaderStage::Task, true),
    (ShaderStage::Mesh, true),
    (ShaderStage::Fragment, false),
    (ShaderStage::Compute, true),
    (ShaderStage::RayGeneration, false),
    (ShaderStage::Miss, false),
    (ShaderStage::AnyHit, false),
    (ShaderStage::ClosestHit, false),
];

/// Whether the module's first entry point is one of workgroups.
fn has_workgroups(rt: &impl Abort, module: &Module) -> bool {
    assert!(rt; module.entry_points.len() == 1);
    assert!(rt;
        !FunctionType::Function(ItemIndex::from_index(0)).is_compute_like_entry_point(module)
    );
    FunctionType::EntryPoint(0).is_compute_like_entry_point(module)
}

#[test]
fn stages_with_workgroups(rt: HostRuntime) {
    let alloc = rt.alloc();
    for (stage, want) in STAGES {
        let text = format!(in alloc;
            r#"{{"entry_points": [{{"name": "", "stage": "{stage:?}", "workgroup_size": [1, 1, 1],
                "function": {{}}}}]}}"#
        )
        .expect(&rt, "memory");
        let module = read_module(alloc, text.as_str()).expect(&rt, "a module");
        assert_eq!(rt; has_workgroups(&rt, &module), *want, "{stage:?}");
    }
}
