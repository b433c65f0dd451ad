//! What is read from JSON. A row has the texts of a module and of an info. What is told where nothing
//! is read stands among the cases of `listing_cases`.

use naga_json::{read_info, read_known, read_module};
use std::alloc::Global;
use std::process::Abort;

/// A module's text, an info's, and a part of how what is read is printed.
const READINGS: &[(&str, &str, &str)] = &[
    (
        r#"{"global_expressions": [{"Literal": {"F32": 0.1}}]}"#,
        "{}",
        "Literal(F32(1036831949))",
    ),
    (
        r#"{"global_expressions": [{"Literal": {"F32": 16777217}}]}"#,
        "{}",
        "Literal(F32(1266679808))",
    ),
    // the double nearest to this number is halfway to the next number of four bytes
    (
        r#"{"global_expressions": [{"Literal": {"F32": 7.038531e-26}}]}"#,
        "{}",
        "Literal(F32(363742205))",
    ),
    (
        r#"{"global_expressions": [{"Literal": {"F32": -7.038531e-26}}]}"#,
        "{}",
        "Literal(F32(2511225853))",
    ),
    (
        r#"{"global_expressions": [{"Literal": {"DecimalF32": {"digits": 5, "exponent": -1}}}]}"#,
        "{}",
        "Literal(DecimalF32(Decimal { negative: false, digits: 5, exponent: -1 }))",
    ),
    (
        r#"{"global_expressions": [{"Literal": {"DecimalF64": {
            "negative": true, "digits": 18446744073709551615, "exponent": -9223372036854775808}}}]}"#,
        "{}",
        "Literal(DecimalF64(Decimal { negative: true, digits: 18446744073709551615, exponent: -9223372036854775808 }))",
    ),
    (
        r#"{"global_expressions": [{"Literal": {"F32": {"bits": 2139095040}}}]}"#,
        "{}",
        "Literal(F32(2139095040))",
    ),
    (
        r#"{"global_expressions": [{"Literal": {"F64": -0.0}}]}"#,
        "{}",
        "Literal(F64(9223372036854775808))",
    ),
    (
        r#"{"global_expressions": [{"Literal": {"F16": 15360}}]}"#,
        "{}",
        "Literal(F16(15360))",
    ),
    (
        r#"{"global_variables": [{"space": {"Storage": {"access": "LOAD | STORE"}}, "ty": 0}]}"#,
        "{}",
        "space: Storage { access: StorageAccess(3) }",
    ),
    (
        r#"{"global_variables": [{"space": {"Storage": {"access": 3}}, "ty": 0}]}"#,
        "{}",
        "space: Storage { access: StorageAccess(3) }",
    ),
    (
        r#"{"functions": [{"named_expressions": {"10": "ten", "2": "two"}}]}"#,
        "{}",
        r#""two", "#,
    ),
    (
        r#"{"functions": [{"body": ["Return"]}]}"#,
        "{}",
        "[Return { value: None }]",
    ),
    (
        r#"{"functions": [{"body": [{"Return": {"value": null}}]}]}"#,
        "{}",
        "[Return { value: None }]",
    ),
    (
        r#"{"types": [{"inner": {"Array": {"base": 0, "size": {"Dynamic": null}, "stride": 4}}}]}"#,
        "{}",
        "size: Dynamic,",
    ),
    (
        "{}",
        r#"{"functions": [[0, {"Value": {"Sampler": {}}}]]}"#,
        "ExpressionInfo { ref_count: 0, ty: Value(Sampler { comparison: false }) }",
    ),
    // predeclared types are keys, and so pairs
    (
        r#"{"special_types": {"predeclared_types": [
            [{"ModfResult": {"size": "Bi", "scalar": {"kind": "Float", "width": 4}}}, 1]]}}"#,
        "{}",
        "{ModfResult { size: Some(Bi), scalar: Scalar { kind: Float, width: 4 } }: \
         ItemIndex { index: 1, mark: PhantomData<_> }}",
    ),
    // both spellings of a variant without content
    (
        r#"{"types": [{"inner": {"Scalar": {"kind": {"Sint": null}, "width": 4}}}]}"#,
        "{}",
        "Scalar { kind: Sint, width: 4 }",
    ),
    (
        r#"{"functions": [{"body": [{"Break": null}]}]}"#,
        "{}",
        "[Break]",
    ),
    // filters of diagnostics, each after its parent, with the leaf that a function may tell again
    (
        r#"{"diagnostic_filters": [
            {"inner": {"new_severity": "Off", "triggering_rule": {"Standard": "DerivativeUniformity"}}, "parent": null},
            {"inner": {"new_severity": "Warning", "triggering_rule": {"User": ["naga", "lint"]}}, "parent": 0}],
            "diagnostic_filter_leaf": 1,
            "functions": [{"diagnostic_filter_leaf": 1}, {"diagnostic_filter_leaf": null}]}"#,
        "{}",
        "diagnostic_filters: Arena { items: [\
         DiagnosticFilterNode { inner: DiagnosticFilter { new_severity: Off, \
         triggering_rule: Standard(DerivativeUniformity) }, parent: None }, \
         DiagnosticFilterNode { inner: DiagnosticFilter { new_severity: Warning, \
         triggering_rule: User([\"naga\", \"lint\"]) }, \
         parent: Some(ItemIndex { index: 0, mark: PhantomData<_> }) }] }, \
         diagnostic_filter_leaf: Some(ItemIndex { index: 1, mark: PhantomData<_> })",
    ),
    (
        r#"{"diagnostic_filters": [
            {"inner": {"new_severity": {"Info": null}, "triggering_rule": {"Unknown": "spelling"}}}]}"#,
        "{}",
        "new_severity: Info, triggering_rule: Unknown(\"spelling\") }, parent: None",
    ),
];

/// The text of a module that says what is let be, or that a stage has none of what it could have,
/// an info's, and a part of how what is read is printed.
const LET_BE: &[(&str, &str, &str)] = &[
    (
        r#"{"doc_comments": {"module": ["A shader."]}}"#,
        "{}",
        "entry_points: []",
    ),
    (
        r#"{"special_types": {"ray_desc": 0, "ray_intersection": 1, "ray_vertex_return": 2}}"#,
        "{}",
        "external_texture_params: None, external_texture_transfer_function: None, \
         ray_desc: Some(ItemIndex { index: 0, mark: PhantomData<_> }), \
         ray_intersection: Some(ItemIndex { index: 1, mark: PhantomData<_> }), \
         ray_vertex_return: Some(ItemIndex { index: 2, mark: PhantomData<_> }) }",
    ),
    (
        r#"{"functions": [{"body": [{"RayQuery": {"query": 3, "fun": "Terminate"}}]}]}"#,
        "{}",
        "[RayQuery { query: ItemIndex { index: 3, mark: PhantomData<_> } }]",
    ),
    (
        r#"{"entry_points": [{"name": "main", "stage": "Compute", "workgroup_size": [8, 1, 1],
            "function": {}, "early_depth_test": null, "workgroup_size_overrides": null}]}"#,
        "{}",
        "workgroup_size: [8, 1, 1]",
    ),
    (
        r#"{"entry_points": [{"name": "main", "stage": "Compute", "workgroup_size": [8, 1, 1],
            "function": {}, "workgroup_size_overrides": [null, null, null]}]}"#,
        "{}",
        "workgroup_size: [8, 1, 1]",
    ),
    (
        r#"{"entry_points": [{"name": "main", "stage": "Mesh", "workgroup_size": [1, 1, 1],
            "function": {}, "mesh_info": {"topology": "Triangles", "max_vertices": 3,
            "max_vertices_override": null, "max_primitives": 1, "max_primitives_override": null,
            "vertex_output_type": 4, "primitive_output_type": 5, "output_variable": 9}}]}"#,
        "{}",
        "MeshStageInfo { output_variable: ItemIndex { index: 9, mark: PhantomData<_> } }",
    ),
    (
        "{}",
        r#"{"type_flags": [255], "functions": [{"flags": 255, "available_stages": 7,
            "uniformity": {"requirements": 0}, "may_kill": false, "sampling_set": [],
            "global_uses": ["READ"], "expressions": [{"uniformity": {}, "ref_count": 2,
            "assignable_global": null, "ty": {"Handle": 7}}]}]}"#,
        "ExpressionInfo { ref_count: 2, ty: Handle(ItemIndex { index: 7, mark: PhantomData<_> }) }",
    ),
];

/// An object with module and info.
fn known_text(rt: &impl Abort, alloc: Global, module: &str, info: &str) -> String {
    format!(in alloc; "{{\"module\": {module}, \"info\": {info}}}").expect(rt, "memory")
}

/// Each row is read, and its part stands in how that is printed.
fn rows_are_read(rt: &impl Abort, alloc: Global, rows: &[(&str, &str, &str)]) {
    for (module, info, want) in rows {
        let text = known_text(rt, alloc, *module, *info);
        let known = read_known(alloc, text.as_str()).expect(rt, text.as_str());
        let printed = format!(in alloc; "{known:?}").expect(rt, "memory");
        assert!(rt; printed.as_str().contains(*want), "{text}: {printed}");
    }
}

#[test]
fn values_are_read(rt: HostRuntime) {
    rows_are_read(&rt, rt.alloc(), READINGS);
}

#[test]
fn what_changes_no_shader_is_let_be(rt: HostRuntime) {
    rows_are_read(&rt, rt.alloc(), LET_BE);
}

#[test]
fn a_module_and_an_info_are_read_by_themselves(rt: HostRuntime) {
    let module = read_module(rt.alloc(), "{}").expect(&rt, "a module");
    assert!(rt; module.types.is_empty());
    let info = read_info(rt.alloc(), "{}").expect(&rt, "an info");
    assert!(rt; info.functions.is_empty());
}

#[test]
fn no_json_is_told_with_its_line_and_column(rt: HostRuntime) {
    let error = read_module(rt.alloc(), "[").expect_err(&rt, "half a list was read");
    let message = format!(in rt.alloc(); "{error}").expect(&rt, "memory");
    assert_eq!(rt; message.as_str(), "no JSON at line 1, column 1");
}
