//! That numbers fit their types: always true in code, where each has the type of an integer.

ghost use Rattle.std.specs.Prelude.{◌≡◌, true};
ghost use Rattle.std.specs.List.{list_all};
ghost use Rattle.std.specs.Option.{option_map_or};
ghost use Rattle.naga_ir.specs.StatementViews.{cases_of};
ghost use Rattle.naga_acceptance.specs.TextOrder.{case_values_fit_32_bits};
ghost use Rattle.module_semantics.specs.acceptance.Numbers.{binding_fits_32_bits, fits_16_bits};
ghost use Rattle.module_semantics.specs.acceptance.Numbers.{fits_32_bits};
ghost use Rattle.module_semantics.specs.acceptance.Numbers.{case_value_fits_32_bits};
ghost use Rattle.module_semantics.specs.acceptance.Numbers.{member_fits_32_bits};
ghost use Rattle.module_semantics.specs.acceptance.Numbers.{pattern_is_whole, resource_fits_32_bits};
ghost use Rattle.module_semantics.specs.acceptance.Numbers.{signature_fits_32_bits};
ghost use Rattle.module_semantics.specs.acceptance.Numbers.{size_fits_32_bits};
ghost use Rattle.module_semantics.specs.acceptance.Numbers.{type_fits_32_bits};
ghost use Rattle.module_semantics.specs.acceptance.Numbers.{sizes_fit_32_bits};

use naga_ir::{
    ArraySize, Binding, Function, FunctionArgument, FunctionResult, Handle, Override,
    ResourceBinding, StructMember, SwitchCase, SwitchValue, SwizzleComponent, TypeInner,
};

fn fits_16_bits(_number: u16) -> bool
    ensures { result ≡ fits_16_bits _number }
{
    true
}

pub(crate) fn fits_32_bits(_number: u32) -> bool
    ensures { result ≡ fits_32_bits _number }
{
    true
}

/// Whether a pattern has four letters.
pub(crate) fn pattern_is_whole(pattern: [SwizzleComponent; 4]) -> bool
    ensures { result ≡ pattern_is_whole pattern }
{
    pattern.len() == 4
}

fn case_value_fits_32_bits(case_value: SwitchValue) -> bool
    ensures { result ≡ case_value_fits_32_bits case_value }
{
    match case_value {
        SwitchValue::I32(_) | SwitchValue::U32(_) => true,
        SwitchValue::Default => true,
    }
}

/// Whether each case value of a switch has 32 bits.
pub(crate) fn case_values_fit_32_bits(cases: &[SwitchCase]) -> bool
    ensures { result ≡ case_values_fit_32_bits (cases_of cases.now) }
{
    for case in cases {
        if !case_value_fits_32_bits(case.value) {
            return false;
        }
    }
    true
}

/// Whether the number of an override, if it has one, has 16 bits.
pub(crate) fn id_fits_16_bits(id: Option<u16>) -> bool
    ensures { result ≡ option_map_or fits_16_bits id true }
{
    match id {
        Some(number) => fits_16_bits(number),
        None => true,
    }
}

fn source_fits_32_bits(blend_src: Option<u32>) -> bool
    ensures { result ≡ option_map_or fits_32_bits blend_src true }
{
    match blend_src {
        Some(number) => fits_32_bits(number),
        None => true,
    }
}

fn binding_fits_32_bits(binding: Option<Binding>) -> bool
    ensures { result ≡ option_map_or binding_fits_32_bits binding true }
{
    match binding {
        Some(
            Binding::Location {
                location,
                blend_src,
                ..
            },
        ) => fits_32_bits(location) && source_fits_32_bits(blend_src),
        Some(Binding::BuiltIn(_)) => true,
        None => true,
    }
}

/// Whether the numbers of what a resource is bound to, if it is, have 32 bits.
pub(crate) fn resource_fits_32_bits(binding: Option<ResourceBinding>) -> bool
    ensures { result ≡ option_map_or resource_fits_32_bits binding true }
{
    match binding {
        Some(resource) => fits_32_bits(resource.group) && fits_32_bits(resource.binding),
        None => true,
    }
}

fn arguments_fit_32_bits(arguments: &[FunctionArgument]) -> bool
    ensures { result
        ≡ list_all (λ a. option_map_or binding_fits_32_bits a.binding true) arguments.now }
{
    for argument in arguments {
        if !binding_fits_32_bits(argument.binding) {
            return false;
        }
    }
    true
}

fn result_fits_32_bits(answer: Option<FunctionResult>) -> bool
    ensures { result
        ≡ option_map_or (λ r. option_map_or binding_fits_32_bits r.binding true) answer true }
{
    match answer {
        Some(answer) => binding_fits_32_bits(answer.binding),
        None => true,
    }
}

/// Whether the numbers of what arguments and the result are bound to have 32 bits.
pub(crate) fn signature_fits_32_bits(function: &Function) -> bool
    ensures { result ≡ signature_fits_32_bits function.now }
{
    arguments_fit_32_bits(&function.arguments) && result_fits_32_bits(function.result)
}

fn size_fits_32_bits(size: ArraySize) -> bool
    ensures { result ≡ size_fits_32_bits size }
{
    match size {
        ArraySize::Constant(number) => fits_32_bits(number.get()),
        ArraySize::Pending(_) | ArraySize::Dynamic => true,
    }
}

fn members_fit_32_bits(members: &[StructMember]) -> bool
    ensures { result ≡ list_all member_fits_32_bits members.now }
{
    for member in members {
        if !(fits_32_bits(member.offset) && binding_fits_32_bits(member.binding)) {
            return false;
        }
    }
    true
}

/// Whether the numbers of a type have 32 bits.
pub(crate) fn type_fits_32_bits(inner: &TypeInner) -> bool
    ensures { result ≡ type_fits_32_bits inner.now }
{
    match inner {
        TypeInner::Scalar(_)
        | TypeInner::Vector { .. }
        | TypeInner::Matrix { .. }
        | TypeInner::CooperativeMatrix { .. }
        | TypeInner::Atomic(_)
        | TypeInner::Pointer { .. }
        | TypeInner::ValuePointer { .. }
        | TypeInner::Image { .. }
        | TypeInner::Sampler { .. }
        | TypeInner::AccelerationStructure { .. }
        | TypeInner::RayQuery { .. } => true,
        TypeInner::Array { size, stride, .. } => {
            size_fits_32_bits(*size) && fits_32_bits(*stride)
        }
        TypeInner::Struct { members, span } => {
            members_fit_32_bits(members) && fits_32_bits(*span)
        }
        TypeInner::BindingArray { size, .. } => size_fits_32_bits(*size),
    }
}

/// Whether a workgroup has three sizes, of 32 bits each, and for each an override or none.
pub(crate) fn workgroup_fits_32_bits(
    sizes: [u32; 3],
    _overrides: &[Option<Handle<Override>>; 3],
) -> bool
    ensures { result ≡ sizes_fit_32_bits sizes _overrides.now }
{
    let [x, y, z] = sizes;
    fits_32_bits(x) && fits_32_bits(y) && fits_32_bits(z)
}
