//! The structs that a text declares, each with its members.

ghost use Rattle.std.specs.Prelude.{◌≡◌, ◌+◌, IfSome, Some, slice_get};
ghost use Rattle.module_semantics.specs.Layouts.{layout_in, written_size};
ghost use Rattle.naga_naming.specs.declared.key.NameKey.TheVariants as key;
ghost use Rattle.naga_tables.specs.Tables.{AreTablesOf};
ghost use Rattle.naga_words.specs.Output.{Writes};
ghost use Rattle.wgsl_layout.specs.Capped.{IsAlignment};
ghost use Rattle.naga_wgsl_shared.specs.Attributes.{attributes_text};
ghost use Rattle.naga_wgsl_out.specs.Items.{CanDeclare, IsNamedIn};
ghost use Rattle.naga_wgsl_out.specs.Structs.{CanDeclareStruct, IsDeclaredMember, after_member};
ghost use Rattle.naga_wgsl_out.specs.Structs.{after_with, declared_text, member_text};
ghost use Rattle.naga_wgsl_out.specs.Structs.{members_text, given_size_attributes, struct_text};
ghost use Rattle.naga_wgsl_out.specs.Structs.{structs_text};

use crate::declarations::write_typed;
use naga_ir::{Handle, StructMember, Type_, TypeInner};
use naga_naming::NameKey;
use naga_wgsl_shared::attributes::write_numbered;
use naga_wgsl_shared::bindings::write_optional_binding;
use naga_wgsl_shared::module_text::ModuleText;
use naga_words::{Output, TextSink};
use std::alloc::Global;
use wgsl_layout::gap_size;

/// The structs, an empty line after each.
pub(crate) fn write_structs<W: TextSink>(
    alloc: Global,
    text: &ModuleText<'_>,
    out: &mut Output<'_, W>,
)
    requires { CanDeclare text.now }
    ensures { Writes W.text W.failures out.old out.new (structs_text text.now.shader.now) }
{
    for (handle, ty) in text.shader.types.iter() {
        write_declared(alloc, text, handle, ty, out);
    }
}

/// A type, if it is a struct that a text declares.
fn write_declared<W: TextSink>(
    alloc: Global,
    text: &ModuleText<'_>,
    handle: Handle<Type_>,
    ty: &Type_,
    out: &mut Output<'_, W>,
)
    requires can { CanDeclare text.now }
    requires there { slice_get text.now.shader.now.types handle ≡ Some ty.now }
    ensures { Writes W.text W.failures out.old out.new
        (declared_text text.now.shader.now handle ty.now) }
{
    if let TypeInner::Struct { members, span } = &ty.inner {
        if !text.tables.is_undeclared(text.shader, handle) {
            let declared = StructText {
                alloc,
                text: *text,
                handle,
                members,
                span: *span,
            };
            declared.write(out);
        }
    }
}

/// What the text of a struct is made from.
#[derive(Clone, Copy)]
struct StructText<'a> {
    /// Where memory comes from.
    alloc: Global,
    /// Its module.
    text: ModuleText<'a>,
    handle: Handle<Type_>,
    members: &'a [StructMember],
    /// How many bytes it takes.
    span: u32,
}

impl StructText<'_> {
    fn write<W: TextSink>(&self, out: &mut Output<'_, W>)
        requires can { CanDeclareStruct self.now }
        requires named { IsNamedIn self.now.text (key.Type_ self.now.handle) }
        ensures { Writes W.text W.failures out.old out.new
            (struct_text self.now.text.shader.now self.now.handle self.now.members.now) }
    {
        out.put("struct ");
        self.text.write_name(&NameKey::Type_(self.handle), out);
        out.put(" {\n");
        self.write_members(out);
        out.put("}\n\n");
    }

    fn write_members<W: TextSink>(&self, out: &mut Output<'_, W>)
        requires { CanDeclareStruct self.now }
        ensures { Writes W.text W.failures out.old out.new
            (members_text self.now.text.shader.now self.now.handle self.now.members.now) }
    {
        let members = self.members;
        for (index, member) in members.iter().enumerate() {
            let number = index as u32;
            let size = self.given_size(number, member);
            self.write_member(number, size, member, out);
        }
    }

    /// A member, with the size that it is given, if it is given one.
    fn write_member<W: TextSink>(
        &self,
        number: u32,
        size: Option<u32>,
        member: &StructMember,
        out: &mut Output<'_, W>,
    )
        requires can { CanDeclareStruct self.now }
        requires there { IsDeclaredMember self.now.text.shader.now self.now.handle number
            member.now }
        requires size { size ≡ written_size self.now.text.shader.now self.now.handle number }
        ensures { Writes W.text W.failures out.old out.new
            (member_text self.now.text.shader.now self.now.handle number member.now) }
    {
        out.put("    ");
        write_size(size, out);
        write_optional_binding(member.binding, out);
        let key = NameKey::StructMember(self.handle, number);
        write_typed(self.alloc, &self.text, &key, member.ty, out);
        out.put(",\n");
    }

    /// The size that this member is given: the bytes up to what stands after it in the module,
    /// where WGSL's rules alone would have that begin earlier. A struct that has no layout is
    /// written without sizes.
    fn given_size(&self, number: u32, member: &StructMember) -> Option<u32>
        requires can { CanDeclareStruct self.now }
        requires there { slice_get self.now.members.now number ≡ Some member.now }
        ensures { result ≡ written_size self.now.text.shader.now self.now.handle number }
    {
        let text = &self.text;
        let whole = text.tables.layout(text.shader, self.handle)?;
        let own = text.tables.layout(text.shader, member.ty)?;
        let after = after_member(text, self.members, number, self.span, whole.alignment)?;
        gap_size(member.offset, own.size, after.offset, after.alignment)
    }
}

/// The size that a member is given, if it is given one.
fn write_size<W: TextSink>(size: Option<u32>, out: &mut Output<'_, W>)
    ensures { Writes W.text W.failures out.old out.new (attributes_text (given_size_attributes size)) }
{
    match size {
        Some(size) => write_numbered("@size(", size, out),
        None => {}
    }
}

/// What stands after a member of a struct: the next one, or the struct's end.
#[derive(Clone, Copy)]
struct After {
    offset: u32,
    alignment: u32,
}

/// What stands after the member with this number, in a struct of so many bytes and of this
/// alignment, if a next member has a layout.
fn after_member(
    text: &ModuleText<'_>,
    members: &[StructMember],
    number: u32,
    span: u32,
    alignment: u32,
) -> Option<After>
    requires tables { AreTablesOf text.now.shader.now text.now.tables.now }
    requires whole { IsAlignment alignment }
    ensures after { result ≡ after_member (layout_in text.now.shader.now) span alignment
        (slice_get members.now (number + 1)) }
    ensures aligned { IfSome result (λ a. IsAlignment a.alignment) }
{
    match members.get(number as usize + 1) {
        Some(next) => after_with(text, next),
        None => Some(After {
            offset: span,
            alignment,
        }),
    }
}

fn after_with(text: &ModuleText<'_>, next: &StructMember) -> Option<After>
    requires tables { AreTablesOf text.now.shader.now text.now.tables.now }
    ensures after { result ≡ after_with (layout_in text.now.shader.now) next.now }
    ensures aligned { IfSome result (λ a. IsAlignment a.alignment) }
{
    let layout = text.tables.layout(text.shader, next.ty)?;
    Some(After {
        offset: next.offset,
        alignment: layout.alignment,
    })
}
