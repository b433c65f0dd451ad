//! Names, of which a module has a text for each key.

ghost use Rattle.std.specs.Prelude.{◌≡◌, ◌<◌, Some, length};
ghost use Rattle.module_semantics.specs.Names.{module_names, name_in, numbered_name};
ghost use Rattle.naga_naming.specs.Keys.{names_in};
ghost use Rattle.naga_naming.specs.declared.key.NameKey.TheVariants as key;
ghost use Rattle.naga_words.specs.Output.{Writes};
ghost use Rattle.naga_wgsl_fns.specs.FunctionText.{CanWrite, named_in};
ghost use Rattle.naga_wgsl_fns.specs.Names.{bound_text, name_of_argument};
ghost use Rattle.naga_wgsl_fns.specs.Names.{name_of_function, name_of_global, name_of_local};
ghost use Rattle.naga_wgsl_fns.specs.Names.{next_name_text};

use crate::functions::FunctionText;
use itoa::Buffer;
use naga_ir::{Expression, Function, GlobalVariable, Handle, LocalVariable, Type_};
use naga_naming::NameKey;
use naga_scope::{BoundName, Scope};
use naga_words::{Output, TextSink};

// A key is large, and stands in the frames of these functions alone: the writing of nested operands
// has none.
impl FunctionText<'_> {
    /// The name of the function itself.
    #[tactic(auto, unfolding(crate::specs::Names::name_of_function))]
    pub(crate) fn write_function_name<W: TextSink>(&self, out: &mut Output<'_, W>)
        requires { CanWrite self.now }
        ensures { Writes W.text W.failures out.old out.new (name_of_function self.now) }
    {
        self.write_name(&self.ty.key(), out);
    }

    #[inline(never)]
    #[tactic(auto, unfolding(crate::specs::Names::name_of_argument))]
    pub(crate) fn write_argument_name<W: TextSink>(&self, number: u32, out: &mut Output<'_, W>)
        requires can { CanWrite self.now }
        requires argument { number < length self.now.function.now.arguments.items }
        ensures { Writes W.text W.failures out.old out.new (name_of_argument self.now number) }
    {
        self.write_name(&self.ty.argument_key(number), out);
    }

    #[inline(never)]
    #[tactic(auto, unfolding(crate::specs::Names::name_of_local))]
    pub(crate) fn write_local_name<W: TextSink>(
        &self,
        local: Handle<LocalVariable>,
        out: &mut Output<'_, W>,
    )
        requires can { CanWrite self.now }
        requires local { local < length self.now.function.now.local_variables }
        ensures { Writes W.text W.failures out.old out.new (name_of_local self.now local) }
    {
        self.write_name(&self.ty.local_key(local), out);
    }

    /// A variable of the module.
    #[inline(never)]
    #[tactic(auto, unfolding(crate::specs::Names::name_of_global))]
    pub(crate) fn write_global_name<W: TextSink>(
        &self,
        variable: Handle<GlobalVariable>,
        out: &mut Output<'_, W>,
    )
        requires can { CanWrite self.now }
        requires variable { variable < length self.now.known.shader.now.global_variables }
        ensures { Writes W.text W.failures out.old out.new (name_of_global self.now variable) }
    {
        self.write_name(&NameKey::GlobalVariable(variable), out);
    }

    /// A member of a struct.
    #[inline(never)]
    pub(crate) fn write_member_name<W: TextSink>(
        &self,
        whole: Handle<Type_>,
        index: u32,
        out: &mut Output<'_, W>,
    )
        requires { names_in self.now.known.names.now (key.StructMember whole index) ≡ Some
            (name_in (module_names self.now.known.shader.now) (key.StructMember whole index)) }
        ensures { Writes W.text W.failures out.old out.new
            (name_in (module_names self.now.known.shader.now) (key.StructMember whole index)) }
    {
        self.write_name(&NameKey::StructMember(whole, index), out);
    }

    /// The name of an expression that a `let` binds.
    #[inline(never)]
    #[tactic(auto, unfolding(crate::specs::Names::bound_text))]
    pub(crate) fn write_bound_name<W: TextSink>(
        &self,
        handle: Handle<Expression>,
        name: BoundName,
        out: &mut Output<'_, W>,
    )
        requires { CanWrite self.now }
        ensures { Writes W.text W.failures out.old out.new (bound_text self.now handle name) }
    {
        match name {
            BoundName::Numbered => write_numbered_name(handle, out),
            BoundName::Named(number) => self.write_expression_name(number, out),
        }
    }

    /// The name that a `let` gives the expression at this point.
    pub(crate) fn write_next_name<W: TextSink>(
        &self,
        scope: &Scope,
        handle: Handle<Expression>,
        out: &mut Output<'_, W>,
    )
        requires { CanWrite self.now }
        ensures { Writes W.text W.failures out.old out.new
            (next_name_text self.now scope.now.named handle) }
    {
        let name = scope.next_name(self.function, handle);
        self.write_bound_name(handle, name, out);
    }

    /// The name with this number of those that front ends gave; there is none past them.
    fn write_expression_name<W: TextSink>(&self, number: usize, out: &mut Output<'_, W>)
        requires { CanWrite self.now }
        ensures { Writes W.text W.failures out.old out.new
            (named_in self.now number) }
    {
        match self.named.get(number) {
            Some(name) => out.put(name),
            None => {}
        }
    }

    /// The name of a function of the module that this one calls.
    #[inline(never)]
    pub(crate) fn callee_str(&self, function: Handle<Function>) -> &str
        requires { names_in self.now.known.names.now (key.Function function)
            ≡ Some (name_in (module_names self.now.known.shader.now) (key.Function function)) }
        ensures { result.now
            ≡ name_in (module_names self.now.known.shader.now) (key.Function function) }
    {
        match self.known.names.get(&NameKey::Function(function)) {
            Some(name) => name.as_str(),
            None => unreachable!(),
        }
    }

    #[inline(always)]
    fn write_name<W: TextSink>(&self, key: &NameKey, out: &mut Output<'_, W>)
        requires named { names_in self.now.known.names.now key.now
            ≡ Some (name_in (module_names self.now.known.shader.now) key.now) }
        ensures { Writes W.text W.failures out.old out.new
            (name_in (module_names self.now.known.shader.now) key.now) }
    {
        self.of_module().write_name(key, out);
    }
}

/// The name of an expression that no front end named.
#[inline(never)]
#[tactic(auto, using(naga_words::proofs::Writing::writes_then, crate::proofs::NameRows::bound_row))]
pub(crate) fn write_numbered_name<W: TextSink>(handle: Handle<Expression>, out: &mut Output<'_, W>)
    ensures { Writes W.text W.failures out.old out.new (numbered_name handle) }
{
    let mut digits = Buffer::new();
    out.put("_e");
    out.put(digits.format(handle.index()));
}
