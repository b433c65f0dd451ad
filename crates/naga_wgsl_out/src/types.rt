//! What text is written to, how types are spelled in a context, and how they stand in memory.

ghost use Rattle.std.specs.Prelude.{◌≡◌, ◌<◌, IsTrue, length};
ghost use Rattle.std.specs.Option.{option_map};
ghost use Rattle.module_semantics.specs.acceptance.Ranges.{parts_stand_before};
ghost use Rattle.naga_layout.specs.Types.{layout_at, told, user_rule};

use naga_ir::{Handle, Type_, UniqueArena};
pub use naga_layout::TypeLayout;
pub use naga_wgsl_shared::names_undeclared;
pub use naga_words::types::{type_fits, types_in_order};
pub use naga_words::{SinkError, TextSink, TypeContext, TypeTextError, WriterTypeContext};

/// How values of a type of an accepted module stand in memory, by WGSL's rules, where each struct
/// is written with the sizes that leave its members where they are: what a host needs that shares a
/// buffer with the shader. Each struct of the arena counts as one that the text declares.
///
/// It is `None` where
///
/// - no buffer holds values of the type: truth values, abstract numbers, pointers, images, samplers
///   and the like, and what has such a part;
/// - an override gives the length of an array, or an array's elements have no size;
/// - an array's elements begin at another distance in the module than WGSL has them begin;
/// - a struct has no members, one with a binding, or one that can't stay where it is: the first not
///   at 0, another at 0, one off its alignment, before the end of the one before it, or after one
///   that has no size.
///
/// The size of a struct is its span in the module, where that is a multiple of the alignment and
/// has room for the last member, and the one that WGSL's rules give it otherwise.
///
/// It takes no memory; how deep the stack goes grows with how deep types are made of one another.
/// Time grows with the types that it looks at, but structs whose handles differ by a multiple of 256
/// may be looked at again and again: `naga_layout::type_layout` says why.
///
/// ```text
/// // struct Q { @size(16) a: u32, b: u32 }: a at 0, b at 16, span 20
/// if accepts(&shader.module, &shader.info) && q.index() < shader.module.types.len() {
///     let layout = type_layout(&shader.module.types, q);
///     // Some(TypeLayout { align: 4, size: Some(20) })
/// }
/// ```
#[tactic(auto, using(module_semantics::proofs::Layouts::stand_in_order))]
pub fn type_layout(types: &UniqueArena<Type_>, handle: Handle<Type_>) -> Option<TypeLayout>
    requires ordered { IsTrue (parts_stand_before types.now) }
    requires there { handle < length types.now }
    ensures { result ≡ option_map told (layout_at user_rule types.now handle) }
{
    naga_layout::type_layout(types, handle)
}
