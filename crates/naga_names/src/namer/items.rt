//! Names for the items of a module, one after another.
ghost use Rattle.std.specs.Prelude.{◌≡◌, ℕ, true, false, ◌∷◌, [], ◌++◌, length, map, IfOk, IfErr};
ghost use Rattle.std.specs.Prelude.{None, Some};
ghost use Rattle.std.specs.List.{flat_map, enumerate_from};
ghost use Rattle.std.specs.Option.{option_or};
ghost use Rattle.naga_naming.specs.declared.key.NameKey.TheVariants as keys;
ghost use Rattle.naga_naming.specs.declared.key.ExternalTextureNameKey.{ExternalTextureNameKey};
ghost use Rattle.naga_naming.specs.Keys.{same_key, names_in};
ghost use Rattle.naga_naming.specs.Naming.{label_or};
ghost use Rattle.naga_naming.specs.Reset.{is_external_inner, is_external, is_member, key_fits};
ghost use Rattle.naga_naming.specs.Reset.{labelled_types, labelled_entry_points, labelled_functions};
ghost use Rattle.naga_naming.specs.Reset.{labelled_globals, labelled_constants, labelled_overrides};
ghost use Rattle.naga_naming.specs.Reset.{labelled_members, members_of, type_names_in, value_label};
ghost use Rattle.naga_naming.specs.Reset.{with_parts};
ghost use Rattle.naga_names.specs.Progress.{progress, Gives, GivesModule, argument_key, local_key};
ghost use Rattle.naga_names.specs.Progress.{part_key, has_parts, argument_items, local_item};

use crate::namer::fallback::{label_or, output_words, type_label, value_label};
use crate::namer::{EntryPointIndex, ExternalTextureNameKey, NameKey, Namer, NamerError};
use naga_ir::{
    Arena, Constant, EntryPoint, Function, FunctionArgument, GlobalVariable, Handle, ImageClass,
    LocalVariable, Module, Override, StructMember, Type_, TypeInner, UniqueArena,
};
use std::alloc::Global;
use std::collections::HashMap;

/// What has arguments and variables.
#[derive(Drop)]
pub enum Owner {
    Function(Handle<Function>),
    EntryPoint(EntryPointIndex),
}

impl Owner {
    fn argument(&self, index: u32) -> NameKey
        ensures is { result ≡ argument_key self.now index }
        ensures fits { key_fits result ≡ true }
        ensures outside { is_member result ≡ false }
        ensures parts_fit { (part : ExternalTextureNameKey) →
            key_fits (part_key result part) ≡ true }
        ensures parts_outside { (part : ExternalTextureNameKey) →
            is_member (part_key result part) ≡ false }
    {
        match self {
            Owner::Function(function) => NameKey::FunctionArgument(*function, index),
            Owner::EntryPoint(entry_point) => NameKey::EntryPointArgument(*entry_point, index),
        }
    }

    fn local(&self, handle: Handle<LocalVariable>) -> NameKey
        ensures is { result ≡ local_key self.now handle }
        ensures fits { key_fits result ≡ true }
        ensures outside { is_member result ≡ false }
    {
        match self {
            Owner::Function(function) => NameKey::FunctionLocal(*function, handle),
            Owner::EntryPoint(entry_point) => NameKey::EntryPointLocal(*entry_point, handle),
        }
    }

    /// Whether an argument of this type has parts with names of their own.
    fn has_parts(&self, types: &UniqueArena<Type_>, ty: Handle<Type_>) -> bool
        ensures { result ≡ has_parts self.now types.now ty }
    {
        match self {
            Owner::Function(_) => is_external(types, ty),
            Owner::EntryPoint(_) => false,
        }
    }
}

/// Gives items their names, up to the first refusal.
///
/// After a refusal nothing is named, so that who names items goes on, and looks for it once, at
/// the end.
#[derive(Drop)]
pub struct Naming {
    pub alloc: Global,
    pub namer: Namer,
    pub refusal: Option<NamerError>,
}

impl Naming {
    /// A start, where nothing was refused.
    pub fn new(alloc: Global, namer: Namer) -> Self
        ensures namer { result.namer ≡ namer }
        ensures refusal { result.refusal ≡ None }
    {
        Self {
            alloc,
            namer,
            refusal: None,
        }
    }

    /// The `Namer` that gave the names, or the first refusal.
    pub fn end(self) -> Result<Namer, NamerError>
        ensures ok { IfOk result (λ namer. (self.refusal ≡ None) × (namer ≡ self.namer)) }
        ensures err { IfErr result (λ refusal. self.refusal ≡ Some refusal) }
    {
        let Naming {
            alloc: _,
            namer,
            refusal,
        } = self;
        match refusal {
            None => Ok(namer),
            Some(refusal) => Err(refusal),
        }
    }

    /// Names the items of a module; its values only where all types have their names, by which they
    /// are labelled.
    pub fn name_items(&mut self, module: &Module, output: &mut HashMap<NameKey, String>)
        ensures { GivesModule (progress self.old output.old)
            «module».now
            (progress self.new output.new) }
    {
        make_room(module, output);
        let types = &module.types;
        self.name_types(&module.entry_points, types, output);
        self.name_entry_points(types, &module.entry_points, output);
        self.name_functions(types, &module.functions, output);
        self.name_globals(types, &module.global_variables, output);
        if self.refusal.is_some() {
            return;
        }
        self.name_constants(types, &module.constants, output);
        self.name_overrides(types, &module.overrides, output);
    }

    fn name_types(
        &mut self,
        entry_points: &[EntryPoint],
        types: &UniqueArena<Type_>,
        output: &mut HashMap<NameKey, String>,
    )
        ensures { Gives (progress self.old output.old)
            (labelled_types entry_points.now types.now)
            (progress self.new output.new) }
    {
        let outputs = match output_words(self.alloc, entry_points) {
            Ok(outputs) => outputs,
            Err(refusal) => {
                self.refuse(NamerError::Memory(refusal));
                return;
            }
        };
        for (handle, ty) in types.iter() {
            let label = type_label(&outputs, handle, ty);
            self.name(&NameKey::Type_(handle), label, output);
            self.name_members(handle, members_of(&ty.inner), output);
        }
    }

    fn name_entry_points(
        &mut self,
        types: &UniqueArena<Type_>,
        entry_points: &[EntryPoint],
        output: &mut HashMap<NameKey, String>,
    )
        ensures { Gives (progress self.old output.old)
            (labelled_entry_points entry_points.now)
            (progress self.new output.new) }
    {
        for (index, entry_point) in entry_points.iter().enumerate() {
            let Ok(index) = EntryPointIndex::try_from(index) else {
                self.refuse(NamerError::KeyFull);
                return;
            };
            let owner = Owner::EntryPoint(index);
            let function = &entry_point.function;
            self.name(
                &NameKey::EntryPoint(index),
                entry_point.name.as_str(),
                output,
            );
            self.name_arguments(&owner, types, &function.arguments, output);
            self.name_locals(&owner, &function.local_variables, output);
        }
    }

    fn name_functions(
        &mut self,
        types: &UniqueArena<Type_>,
        functions: &Arena<Function>,
        output: &mut HashMap<NameKey, String>,
    )
        ensures { Gives (progress self.old output.old)
            (labelled_functions types.now functions.now)
            (progress self.new output.new) }
    {
        for (handle, function) in functions.iter() {
            let owner = Owner::Function(handle);
            let label = label_or(&function.name, "function");
            self.name(&NameKey::Function(handle), label, output);
            self.name_arguments(&owner, types, &function.arguments, output);
            self.name_locals(&owner, &function.local_variables, output);
        }
    }

    fn name_arguments(
        &mut self,
        owner: &Owner,
        types: &UniqueArena<Type_>,
        arguments: &[FunctionArgument],
        output: &mut HashMap<NameKey, String>,
    )
        ensures { Gives (progress self.old output.old)
            (flat_map (λ p. argument_items owner.now types.now p.0 p.1)
            (enumerate_from 0 arguments.now))
            (progress self.new output.new) }
    {
        for (index, argument) in arguments.iter().enumerate() {
            let Ok(index) = u32::try_from(index) else {
                self.refuse(NamerError::KeyFull);
                return;
            };
            let label = label_or(&argument.name, "param");
            let has_parts = owner.has_parts(types, argument.ty);
            self.name_with_parts(has_parts, &owner.argument(index), label, output);
        }
    }

    fn name_locals(
        &mut self,
        owner: &Owner,
        locals: &Arena<LocalVariable>,
        output: &mut HashMap<NameKey, String>,
    )
        ensures { Gives (progress self.old output.old)
            (map (λ p. local_item owner.now p.0 p.1) (enumerate_from 0 locals.now))
            (progress self.new output.new) }
    {
        for (handle, local) in locals.iter() {
            let label = label_or(&local.name, "local");
            self.name(&owner.local(handle), label, output);
        }
    }

    fn name_globals(
        &mut self,
        types: &UniqueArena<Type_>,
        globals: &Arena<GlobalVariable>,
        output: &mut HashMap<NameKey, String>,
    )
        ensures { Gives (progress self.old output.old)
            (labelled_globals types.now globals.now)
            (progress self.new output.new) }
    {
        for (handle, global) in globals.iter() {
            let label = label_or(&global.name, "global");
            let has_parts = is_external(types, global.ty);
            self.name_with_parts(has_parts, &NameKey::GlobalVariable(handle), label, output);
        }
    }

    fn name_constants(
        &mut self,
        types: &UniqueArena<Type_>,
        constants: &Arena<Constant>,
        output: &mut HashMap<NameKey, String>,
    )
        ensures named { Gives (progress self.old output.old)
            (labelled_constants (type_names_in (names_in output.old) (length types.now))
            constants.now)
            (progress self.new output.new) }
        ensures kept { (t : ℕ) →
            names_in output.new (keys.Type_ t) ≡ names_in output.old (keys.Type_ t) }
    {
        for (handle, constant) in constants.iter() {
            let key = NameKey::Constant(handle);
            self.name_value(&key, &constant.name, "const_", types, constant.ty, output);
        }
    }

    fn name_overrides(
        &mut self,
        types: &UniqueArena<Type_>,
        overrides: &Arena<Override>,
        output: &mut HashMap<NameKey, String>,
    )
        ensures { Gives (progress self.old output.old)
            (labelled_overrides (type_names_in (names_in output.old) (length types.now))
            overrides.now)
            (progress self.new output.new) }
    {
        for (handle, value) in overrides.iter() {
            let key = NameKey::Override(handle);
            self.name_value(&key, &value.name, "override_", types, value.ty, output);
        }
    }

    fn name_value(
        &mut self,
        key: &NameKey,
        label: &Option<String>,
        word: &str,
        types: &UniqueArena<Type_>,
        ty: Handle<Type_>,
        output: &mut HashMap<NameKey, String>,
    )
        requires fits { key_fits key.now ≡ true }
        requires outside { is_member key.now ≡ false }
        requires no_type { (t : ℕ) → same_key key.now (keys.Type_ t) ≡ false }
        ensures named { Gives (progress self.old output.old)
            ((
              key.now,
              value_label (type_names_in (names_in output.old) (length types.now))
                  word.now label.now ty,
            ) ∷ [])
            (progress self.new output.new) }
        ensures kept { (t : ℕ) →
            names_in output.new (keys.Type_ t) ≡ names_in output.old (keys.Type_ t) }
    {
        match label {
            Some(label) => self.name(key, label.as_str(), output),
            None => match value_label(self.alloc, word, types, ty, output) {
                Ok(label) => self.name(key, label.as_str(), output),
                Err(refusal) => self.refuse(NamerError::Memory(refusal)),
            },
        }
    }

    /// Names an item, and the parts that it has as an external image, by the image's label.
    fn name_with_parts(
        &mut self,
        has_parts: bool,
        key: &NameKey,
        label: &str,
        output: &mut HashMap<NameKey, String>,
    )
        requires fits { key_fits key.now ≡ true }
        requires outside { is_member key.now ≡ false }
        requires parts_fit { (part : ExternalTextureNameKey) →
            key_fits (part_key key.now part) ≡ true }
        requires parts_outside { (part : ExternalTextureNameKey) →
            is_member (part_key key.now part) ≡ false }
        ensures { Gives (progress self.old output.old)
            (with_parts has_parts (part_key key.now) (key.now, label.now))
            (progress self.new output.new) }
    {
        self.name(key, label, output);
        if has_parts {
            self.name_part(
                key,
                ExternalTextureNameKey::Plane(0),
                label,
                "__plane0",
                output,
            );
            self.name_part(
                key,
                ExternalTextureNameKey::Plane(1),
                label,
                "__plane1",
                output,
            );
            self.name_part(
                key,
                ExternalTextureNameKey::Plane(2),
                label,
                "__plane2",
                output,
            );
            self.name_part(
                key,
                ExternalTextureNameKey::Params,
                label,
                "__params",
                output,
            );
        }
    }

    fn name_part(
        &mut self,
        whole: &NameKey,
        part: ExternalTextureNameKey,
        label: &str,
        ending: &str,
        output: &mut HashMap<NameKey, String>,
    )
        requires fits { key_fits (part_key whole.now part) ≡ true }
        requires outside { is_member (part_key whole.now part) ≡ false }
        ensures { Gives (progress self.old output.old)
            ((part_key whole.now part, label.now ++ ending.now) ∷ [])
            (progress self.new output.new) }
    {
        match format!(in self.alloc; "{label}{ending}") {
            Ok(label) => self.name(&part_key(whole, part), label.as_str(), output),
            Err(refusal) => self.refuse(NamerError::Memory(refusal)),
        }
    }

    /// Names the members of a struct, in a namespace of their own.
    fn name_members(
        &mut self,
        ty: Handle<Type_>,
        members: &[StructMember],
        output: &mut HashMap<NameKey, String>,
    )
        ensures { Gives (progress self.old output.old)
            (labelled_members ty members.now)
            (progress self.new output.new) }
    {
        if self.refusal.is_some() {
            return;
        }
        if let Err(refusal) = self.namer.name_members(ty, members, output) {
            self.refusal = Some(refusal);
        }
    }

    /// Names one item, which is no member of a struct.
    fn name(&mut self, key: &NameKey, label: &str, output: &mut HashMap<NameKey, String>)
        requires fits { key_fits key.now ≡ true }
        requires outside { is_member key.now ≡ false }
        ensures named { Gives (progress self.old output.old)
            ((key.now, label.now) ∷ [])
            (progress self.new output.new) }
        ensures others { (q : NameKey) → same_key key.now q ≡ false →
            names_in output.new q ≡ names_in output.old q }
    {
        if self.refusal.is_some() {
            return;
        }
        if let Err(refusal) = self.namer.put_name(*key, label, output) {
            self.refusal = Some(refusal);
        }
    }

    /// Remembers a refusal, unless there was one before.
    fn refuse(&mut self, refusal: NamerError)
        ensures refusal { self.new.refusal ≡ option_or self.old.refusal (Some refusal) }
        ensures namer { self.new.namer ≡ self.old.namer }
    {
        if self.refusal.is_none() {
            self.refusal = Some(refusal);
        }
    }
}

/// Makes room for the names of the module, so that the map need not grow while it gets them. Where
/// there is no memory for all of them at once, the map grows as they come.
fn make_room(module: &Module, output: &mut HashMap<NameKey, String>)
    ensures { names_in output.new ≡ names_in output.old }
{
    let _ = output.reserve(name_count(module));
}

/// How many names the module has, but for those of parts.
fn name_count(module: &Module) -> usize {
    let mut count = module
        .global_variables
        .len()
        .saturating_add(module.constants.len())
        .saturating_add(module.overrides.len());
    for (_, ty) in module.types.iter() {
        count = count
            .saturating_add(members_of(&ty.inner).len())
            .saturating_add(1);
    }
    for entry_point in &module.entry_points {
        count = count.saturating_add(own_name_count(&entry_point.function));
    }
    for (_, function) in module.functions.iter() {
        count = count.saturating_add(own_name_count(function));
    }
    count
}

/// How many names a function has with its arguments and its variables.
fn own_name_count(function: &Function) -> usize {
    let arguments = function.arguments.len();
    let locals = function.local_variables.len();
    arguments.saturating_add(locals).saturating_add(1)
}

/// The key of a part of what has this key.
fn part_key(whole: &NameKey, part: ExternalTextureNameKey) -> NameKey
    ensures { result ≡ part_key whole.now part }
{
    match whole {
        NameKey::GlobalVariable(global) => NameKey::ExternalTextureGlobalVariable(*global, part),
        NameKey::FunctionArgument(function, index) => {
            NameKey::ExternalTextureFunctionArgument(*function, *index, part)
        }
        other => *other,
    }
}

/// The members of a type; only a struct has some.
fn members_of(inner: &TypeInner) -> &[StructMember]
    ensures { result.now ≡ members_of inner.now }
{
    match inner {
        TypeInner::Struct { members, .. } => members,
        _ => &[],
    }
}

/// Whether the type is an image from outside the graphics interface.
fn is_external(types: &UniqueArena<Type_>, ty: Handle<Type_>) -> bool
    ensures { result ≡ is_external types.now ty }
{
    ty.index() < types.len() && is_external_inner(&types[ty].inner)
}

fn is_external_inner(inner: &TypeInner) -> bool
    ensures { result ≡ is_external_inner inner.now }
{
    matches!(
        inner,
        TypeInner::Image {
            class: ImageClass::External,
            ..
        }
    )
}
