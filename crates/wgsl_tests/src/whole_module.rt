//! A module with each kind of declaration and of statement that has a text: the one of that name among
//! the cases of `wgsl_cases`, where its text stands.

/// The module, with what is known of it.
pub const MODULE: &str = r#"{
  "module": {
    "types": [
      {"inner": {"Scalar": {"kind": "Float", "width": 2}}},
      {"inner": {"Scalar": {"kind": "Uint", "width": 4}}},
      {
        "name": "Params",
        "inner": {
          "Struct": {
            "members": [
              {"name": "count", "ty": 1, "offset": 0},
              {"name": "shift", "ty": 1, "offset": 4}
            ],
            "span": 8
          }
        }
      },
      {"inner": {"Vector": {"size": "Quad", "scalar": {"kind": "Float", "width": 4}}}},
      {
        "name": "VertexOutput",
        "inner": {
          "Struct": {
            "members": [
              {
                "name": "position",
                "ty": 3,
                "binding": {"BuiltIn": {"Position": {"invariant": true}}},
                "offset": 0
              },
              {
                "name": "colour",
                "ty": 3,
                "binding": {
                  "Location": {"location": 0, "interpolation": "Linear", "sampling": "Sample"}
                },
                "offset": 16
              }
            ],
            "span": 32
          }
        }
      },
      {"inner": {"Scalar": {"kind": "Sint", "width": 4}}},
      {"inner": {"Atomic": {"kind": "Uint", "width": 4}}},
      {"inner": {"Array": {"base": 6, "size": {"Constant": 256}, "stride": 4}}},
      {
        "inner": {
          "Image": {
            "dim": "D2",
            "arrayed": false,
            "class": {"Storage": {"format": "Rgba8Unorm", "access": "STORE"}}
          }
        }
      },
      {
        "inner": {
          "Image": {
            "dim": "D2",
            "arrayed": false,
            "class": {"Storage": {"format": "R32Uint", "access": "LOAD | STORE | ATOMIC"}}
          }
        }
      },
      {"inner": {"AccelerationStructure": {"vertex_return": false}}},
      {"inner": {"Scalar": {"kind": "Bool", "width": 1}}},
      {"inner": {"Vector": {"size": "Bi", "scalar": {"kind": "Sint", "width": 4}}}},
      {"inner": {"Scalar": {"kind": "Float", "width": 4}}},
      {"inner": {"Vector": {"size": "Quad", "scalar": {"kind": "Uint", "width": 4}}}},
      {
        "inner": {
          "CooperativeMatrix": {
            "columns": "Eight",
            "rows": "Eight",
            "scalar": {"kind": "Float", "width": 4},
            "role": "A"
          }
        }
      },
      {"inner": {"Vector": {"size": "Tri", "scalar": {"kind": "Uint", "width": 4}}}}
    ],
    "global_expressions": [{"Literal": {"U32": 255}}, {"Literal": {"I32": -7}}],
    "constants": [{"name": "MASK", "ty": 1, "init": 0}],
    "overrides": [{"name": "stride", "ty": 5, "id": 3, "init": 1}, {"name": "scale", "ty": 1}],
    "global_variables": [
      {"name": "params", "ty": 2, "space": "Uniform", "binding": {"group": 0, "binding": 0}},
      {
        "name": "bins",
        "ty": 7,
        "space": {"Storage": {"access": "LOAD | STORE"}},
        "binding": {"group": 0, "binding": 1}
      },
      {"name": "image", "ty": 8, "space": "Handle", "binding": {"group": 0, "binding": 2}},
      {"name": "texels", "ty": 9, "space": "Handle", "binding": {"group": 0, "binding": 3}},
      {"name": "scene", "ty": 10, "space": "Handle", "binding": {"group": 0, "binding": 4}},
      {"name": "seed", "ty": 5, "space": "Private", "init": 1},
      {"name": "total", "ty": 1, "space": "WorkGroup", "memory_decorations": "COHERENT"},
      {"name": "payload", "ty": 1, "space": "RayPayload"},
      {"name": "hit", "ty": 1, "space": "IncomingRayPayload"}
    ],
    "functions": [
      {
        "name": "steps",
        "arguments": [{"name": "c", "ty": 11}, {"name": "x", "ty": 5}],
        "result": {"ty": 5},
        "local_variables": [{"name": "a", "ty": 5, "init": 2}],
        "expressions": [
          {"FunctionArgument": 0}, {"FunctionArgument": 1}, {"Literal": {"I32": 1}},
          {"LocalVariable": 0}, {"Binary": {"op": "Add", "left": 1, "right": 2}},
          {"Load": {"pointer": 3}}
        ],
        "named_expressions": {"5": "last"},
        "body": [
          {"Emit": {"start": 4, "end": 5}},
          {"Block": [{"Store": {"pointer": 3, "value": 4}}]},
          {
            "If": {
              "condition": 0,
              "accept": [{"Return": {"value": 4}}],
              "reject": [{"Store": {"pointer": 3, "value": 1}}]
            }
          },
          {
            "Switch": {
              "selector": 1,
              "cases": [
                {"value": {"I32": 1}, "body": [], "fall_through": true},
                {"value": {"I32": 2}, "body": ["Break"], "fall_through": false},
                {
                  "value": "Default",
                  "body": [{"Store": {"pointer": 3, "value": 2}}],
                  "fall_through": false
                }
              ]
            }
          },
          {
            "Loop": {
              "body": [{"If": {"condition": 0, "accept": ["Break"], "reject": []}}, "Continue"],
              "continuing": [{"Store": {"pointer": 3, "value": 4}}],
              "break_if": 0
            }
          },
          {"Emit": {"start": 5, "end": 6}}, {"Return": {"value": 5}}
        ]
      },
      {
        "name": "work",
        "arguments": [{"name": "n", "ty": 1}, {"name": "p", "ty": 12}],
        "local_variables": [{"name": "held", "ty": 13}],
        "expressions": [
          {"FunctionArgument": 0}, {"FunctionArgument": 1}, {"GlobalVariable": 1},
          {"Access": {"base": 2, "index": 0}}, {"AtomicResult": {"ty": 1}},
          {"GlobalVariable": 2}, {"GlobalVariable": 3}, {"ZeroValue": 3},
          {"GlobalVariable": 6}, {"WorkGroupUniformLoadResult": {"ty": 1}},
          "SubgroupBallotResult", {"SubgroupOperationResult": {"ty": 1}},
          {"SubgroupOperationResult": {"ty": 1}}, {"LocalVariable": 0},
          {
            "CooperativeLoad": {
              "columns": "Eight",
              "rows": "Eight",
              "role": "A",
              "data": {"pointer": 13, "stride": 0}
            }
          },
          {"GlobalVariable": 4}, {"GlobalVariable": 7}, {"CallResult": 0},
          {"Literal": {"Bool": true}}, {"Literal": {"I32": 3}}, {"Constant": 0},
          {"Binary": {"op": "And", "left": 0, "right": 20}}
        ],
        "body": [
          {"ControlBarrier": "WORK_GROUP"}, {"MemoryBarrier": "STORAGE | TEXTURE"},
          {"Emit": {"start": 3, "end": 4}},
          {"Atomic": {"pointer": 3, "fun": "Add", "value": 0, "result": 4}},
          {"Emit": {"start": 21, "end": 22}},
          {"Atomic": {"pointer": 3, "fun": {"Exchange": {"compare": 4}}, "value": 21}},
          {"ImageStore": {"image": 5, "coordinate": 1, "value": 7}},
          {"ImageAtomic": {"image": 6, "coordinate": 1, "fun": "Max", "value": 0}},
          {"WorkGroupUniformLoad": {"pointer": 8, "result": 9}},
          {"SubgroupBallot": {"predicate": 18, "result": 10}},
          {
            "SubgroupCollectiveOperation": {"op": "Add", "collective_op": "Reduce", "argument": 9, "result": 11}
          },
          {"SubgroupGather": {"mode": "BroadcastFirst", "argument": 11, "result": 12}},
          {"Emit": {"start": 14, "end": 15}},
          {
            "CooperativeStore": {"target": 14, "data": {"pointer": 13, "stride": 12, "row_major": true}}
          },
          {"Call": {"function": 0, "arguments": [18, 19], "result": 17}},
          {
            "RayPipelineFunction": {"TraceRay": {"acceleration_structure": 15, "descriptor": 17, "payload": 16}}
          },
          {"Return": {}}
        ]
      }
    ],
    "entry_points": [
      {
        "stage": "Vertex",
        "workgroup_size": [0, 0, 0],
        "name": "vs",
        "function": {
          "name": "vs",
          "arguments": [{"name": "index", "ty": 1, "binding": {"BuiltIn": "VertexIndex"}}],
          "result": {"ty": 4},
          "expressions": [{"ZeroValue": 4}],
          "body": [{"Return": {"value": 0}}]
        }
      },
      {
        "stage": "Fragment",
        "workgroup_size": [0, 0, 0],
        "name": "fs",
        "function": {
          "name": "fs",
          "arguments": [
            {"name": "input", "ty": 4},
            {"name": "depth", "ty": 13, "binding": {"Location": {"location": 1}}}
          ],
          "result": {"ty": 3, "binding": {"Location": {"location": 0}}},
          "expressions": [
            {"FunctionArgument": 1}, {"Splat": {"size": "Quad", "value": 0}},
            {"Literal": {"Bool": true}}
          ],
          "body": [
            {"If": {"condition": 2, "accept": ["Kill"], "reject": []}},
            {"Emit": {"start": 1, "end": 2}}, {"Return": {"value": 1}}
          ]
        }
      },
      {
        "stage": "Compute",
        "workgroup_size": [8, 8, 1],
        "name": "cs",
        "function": {
          "name": "cs",
          "arguments": [{"name": "id", "ty": 16, "binding": {"BuiltIn": "GlobalInvocationId"}}],
          "expressions": [
            {"FunctionArgument": 0}, {"AccessIndex": {"base": 0, "index": 0}},
            {"ZeroValue": 12}, {"GlobalVariable": 5}, {"Override": 0}
          ],
          "body": [
            {"Emit": {"start": 1, "end": 2}}, {"Call": {"function": 1, "arguments": [1, 2]}},
            {"Store": {"pointer": 3, "value": 4}}
          ]
        }
      },
      {
        "stage": "Miss",
        "workgroup_size": [0, 0, 0],
        "incoming_ray_payload": 8,
        "name": "missed",
        "function": {
          "name": "missed",
          "expressions": [{"GlobalVariable": 8}, {"Override": 1}],
          "body": [{"Store": {"pointer": 0, "value": 1}}]
        }
      }
    ]
  },
  "info": {
    "const_expression_types": [
      {"Value": {"Scalar": {"kind": "Uint", "width": 4}}},
      {"Value": {"Scalar": {"kind": "Sint", "width": 4}}}
    ],
    "functions": [
      [
        11, 5, {"Value": {"Scalar": {"kind": "Sint", "width": 4}}},
        {"Value": {"Pointer": {"base": 5, "space": "Function"}}}, 5, 5
      ],
      [
        1, 12,
        {
          "Value": {"Pointer": {"base": 7, "space": {"Storage": {"access": "LOAD | STORE"}}}}
        },
        {
          "Value": {"Pointer": {"base": 6, "space": {"Storage": {"access": "LOAD | STORE"}}}}
        },
        1, 8, 9, 3, {"Value": {"Pointer": {"base": 1, "space": "WorkGroup"}}}, 1, 14, 1, 1,
        {"Value": {"Pointer": {"base": 13, "space": "Function"}}}, 15, 10,
        {"Value": {"Pointer": {"base": 1, "space": "RayPayload"}}}, 5, 11, 5, 1, 1
      ]
    ],
    "entry_points": [
      [4], [13, 3, 11],
      [16, 1, 12, {"Value": {"Pointer": {"base": 5, "space": "Private"}}}, 5],
      [{"Value": {"Pointer": {"base": 1, "space": "IncomingRayPayload"}}}, 1]
    ]
  }
}"#;
