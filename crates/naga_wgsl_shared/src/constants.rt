//! Constants, which are written as their names, and without one as their initialisers are.

ghost use Rattle.std.specs.Prelude.{IsTrue};
ghost use Rattle.module_semantics.specs.AlikeTypes.{has_type_form};
ghost use Rattle.module_semantics.specs.ExpressionForms.{constant_has_form, global_has_form};
ghost use Rattle.naga_info.specs.declared.info.TypeResolution.TheVariants as resolution;
ghost use Rattle.naga_words.specs.Output.{Writes};
ghost use Rattle.naga_wgsl_shared.specs.Constants.{called_global_text, constant_text, global_text};
ghost use Rattle.naga_wgsl_shared.specs.Constants.{made_global_text, next_part_text, parts_text};
ghost use Rattle.naga_wgsl_shared.specs.ModuleText.{CanWriteIn};

use crate::literal::write_literal;
use crate::module_text::ModuleText;
use naga_ir::{Constant, Expression, Handle, Type_};
use naga_spelling::words::vector_str;
use naga_words::{Output, TextSink};
use std::alloc::Global;

impl ModuleText<'_> {
    /// One of the module's own expressions. Through constants without names it takes one step, however
    /// many name one another.
    #[cycle(global)]
    pub fn write_global<W: TextSink>(
        &self,
        alloc: Global,
        handle: Handle<Expression>,
        out: &mut Output<'_, W>,
    )
        requires can { CanWriteIn self.now }
        requires has_form { IsTrue (global_has_form self.now.shader.now handle) }
        ensures { Writes W.text W.failures out.old out.new
            (global_text self.now.shader.now handle) }
    {
        self.write_representative(alloc, self.tables.representative(handle), out);
    }

    /// The same, by what it is.
    #[cycle(global)]
    fn write_representative<W: TextSink>(
        &self,
        alloc: Global,
        handle: Handle<Expression>,
        out: &mut Output<'_, W>,
    )
        requires can { CanWriteIn self.now }
        requires has_form { IsTrue (global_has_form self.now.shader.now handle) }
        ensures { Writes W.text W.failures out.old out.new
            (global_text self.now.shader.now handle) }
    {
        match &self.shader.global_expressions[handle] {
            Expression::Literal(literal) => write_literal(alloc, *literal, out),
            Expression::Constant(constant) => self.write_constant(alloc, *constant, out),
            Expression::Override(item) => self.write_override_name(*item, out),
            Expression::ZeroValue(ty) => self.write_made_global(alloc, *ty, handle, out),
            Expression::Compose { ty, .. } => self.write_made_global(alloc, *ty, handle, out),
            Expression::Splat { size, .. } => {
                self.write_called_global(alloc, vector_str(*size), handle, out)
            }
            _ => unreachable!(),
        }
    }

    /// A constant: its name, or without one its initialiser.
    #[cycle(global)]
    pub fn write_constant<W: TextSink>(
        &self,
        alloc: Global,
        constant: Handle<Constant>,
        out: &mut Output<'_, W>,
    )
        requires can { CanWriteIn self.now }
        requires has_form { IsTrue (constant_has_form self.now.shader.now constant) }
        ensures { Writes W.text W.failures out.old out.new
            (constant_text self.now.shader.now constant) }
    {
        let item = &self.shader.constants[constant];
        if item.name.is_some() {
            self.write_constant_name(constant, out);
        } else {
            self.write_global(alloc, item.init, out);
        }
    }

    /// A value of a type, made of the parts of the expression with this handle.
    #[cycle(global)]
    #[tactic(auto, using(naga_words::proofs::Writing::writes_then, crate::proofs::ConstantRows::made_global_row))]
    fn write_made_global<W: TextSink>(
        &self,
        alloc: Global,
        ty: Handle<Type_>,
        handle: Handle<Expression>,
        out: &mut Output<'_, W>,
    )
        requires can { CanWriteIn self.now }
        requires formed { IsTrue (has_type_form self.now.shader.now.types (resolution.Handle ty)) }
        requires has_form { IsTrue (global_has_form self.now.shader.now handle) }
        ensures { Writes W.text W.failures out.old out.new
            (made_global_text self.now.shader.now ty handle) }
    {
        self.write_type(alloc, ty, out);
        out.put("(");
        self.write_parts(alloc, handle, out);
    }

    /// A word that is called with the parts of the expression with this handle.
    #[cycle(global)]
    #[tactic(auto, using(naga_words::proofs::Writing::writes_then, crate::proofs::ConstantRows::called_global_row))]
    fn write_called_global<W: TextSink>(
        &self,
        alloc: Global,
        word: &str,
        handle: Handle<Expression>,
        out: &mut Output<'_, W>,
    )
        requires can { CanWriteIn self.now }
        requires has_form { IsTrue (global_has_form self.now.shader.now handle) }
        ensures { Writes W.text W.failures out.old out.new
            (called_global_text self.now.shader.now word.now handle) }
    {
        out.put(word);
        out.put("(");
        self.write_parts(alloc, handle, out);
    }

    /// The parts of the expression with this handle, up to the `)` after them.
    #[cycle(global)]
    fn write_parts<W: TextSink>(
        &self,
        alloc: Global,
        handle: Handle<Expression>,
        out: &mut Output<'_, W>,
    )
        requires can { CanWriteIn self.now }
        requires has_form { IsTrue (global_has_form self.now.shader.now handle) }
        ensures { Writes W.text W.failures out.old out.new (parts_text self.now.shader.now handle) }
    {
        let mut is_first = true;
        for part in self.shader.global_expressions[handle].operands() {
            self.write_next_part(alloc, is_first, part, out);
            is_first = false;
        }
        out.put(")");
    }

    /// A part, and what stands between it and the one before. After a want its own parts are not
    /// looked at.
    #[cycle(global)]
    #[tactic(auto, using(naga_words::proofs::Writing::writes_then, naga_words::proofs::Writing::writes_no_more, crate::proofs::ConstantRows::next_part_row))]
    fn write_next_part<W: TextSink>(
        &self,
        alloc: Global,
        is_first: bool,
        part: Handle<Expression>,
        out: &mut Output<'_, W>,
    )
        requires can { CanWriteIn self.now }
        requires has_form { IsTrue (global_has_form self.now.shader.now part) }
        ensures { Writes W.text W.failures out.old out.new
            (next_part_text self.now.shader.now is_first part) }
    {
        if out.is_wanting() {
            return;
        }
        out.put(if is_first { "" } else { ", " });
        self.write_global(alloc, part, out);
    }
}
