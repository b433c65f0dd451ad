//! Names of a module's items, of which it has a text for each key.

ghost use Rattle.std.specs.Prelude.{◌≡◌, ◌<◌, Some, length};
ghost use Rattle.module_semantics.specs.Names.{module_names, name_in};
ghost use Rattle.naga_naming.specs.Keys.{names_in};
ghost use Rattle.naga_naming.specs.declared.key.NameKey.TheVariants as key;
ghost use Rattle.naga_words.specs.Output.{Writes};
ghost use Rattle.naga_wgsl_shared.specs.ModuleText.{CanWriteIn};
ghost use Rattle.naga_wgsl_shared.specs.Names.{name_of_constant};
ghost use Rattle.naga_wgsl_shared.specs.Names.{name_of_override};

use crate::module_text::ModuleText;
use naga_ir::{Constant, Handle, Override};
use naga_naming::NameKey;
use naga_words::{Output, TextSink};

// A key is large, and stands in the frames of these functions alone: the writing of nested operands
// has none.
impl ModuleText<'_> {
    /// The name of a constant.
    #[inline(never)]
    #[tactic(auto, unfolding(crate::specs::Names::name_of_constant))]
    pub(crate) fn write_constant_name<W: TextSink>(
        &self,
        constant: Handle<Constant>,
        out: &mut Output<'_, W>,
    )
        requires can { CanWriteIn self.now }
        requires constant { constant < length self.now.shader.now.constants }
        ensures { Writes W.text W.failures out.old out.new
            (name_of_constant self.now.shader.now constant) }
    {
        self.write_name(&NameKey::Constant(constant), out);
    }

    /// The name of an override.
    #[inline(never)]
    #[tactic(auto, unfolding(crate::specs::Names::name_of_override))]
    pub fn write_override_name<W: TextSink>(
        &self,
        handle: Handle<Override>,
        out: &mut Output<'_, W>,
    )
        requires can { CanWriteIn self.now }
        requires there { handle < length self.now.shader.now.overrides }
        ensures { Writes W.text W.failures out.old out.new
            (name_of_override self.now.shader.now handle) }
    {
        self.write_name(&NameKey::Override(handle), out);
    }

    /// The name of the item with this key.
    // In each caller the kind of the key is known, so that hashing it takes no choice there.
    #[inline(always)]
    pub fn write_name<W: TextSink>(&self, key: &NameKey, out: &mut Output<'_, W>)
        requires named { names_in self.now.names.now key.now
            ≡ Some (name_in (module_names self.now.shader.now) key.now) }
        ensures { Writes W.text W.failures out.old out.new
            (name_in (module_names self.now.shader.now) key.now) }
    {
        match self.names.get(key) {
            Some(name) => out.put(name),
            None => unreachable!(),
        }
    }
}
