//! Identifiers from labels.
ghost use Rattle.std.specs.Prelude.{◌≡◌, ◌<◌, ◌^◌, true, ◌∷◌, [], ◌++◌, List, ℕ, map, length};
ghost use Rattle.std.specs.Prelude.{false, codes, IfOk, IfErr, OnOk, OnErr, IsErr, string_bytes};
ghost use Rattle.std.specs.FinSet as set;
ghost use Rattle.naga_naming.specs.Starts.{start_of};
ghost use Rattle.naga_naming.specs.Naming.{Names, names_code, new_names, no_names, label_or};
ghost use Rattle.naga_naming.specs.Naming.{first_name};
ghost use Rattle.naga_naming.specs.Naming.{is_taken, name_of, name_of_stem, uses_of, with_use};
ghost use Rattle.naga_naming.specs.Naming.{with_use_of_stem, IsFull, HasNamed, name_after};
ghost use Rattle.naga_naming.specs.Members.{PutsName, PutsNoName, HasNamedMembers, RefusesMembers};
ghost use Rattle.naga_naming.specs.Refusal.{IsRefusalOf, IsRefusalOfStem, IsReset, RefusesItems};
ghost use Rattle.naga_naming.specs.Keys.{names_in};
ghost use Rattle.naga_naming.specs.Reset.{labelled_members, NamesItems};

use crate::namer::fallback::label_or;
use crate::namer::items::Naming;
use crate::namer::uses::Uses;
pub use crate::{EntryPointIndex, ExternalTextureNameKey, NameKey, NamerError};
use naga_ir::{Handle, Module, StructMember, Type_};
use naga_keywords::by_bytes::{builtin_words, reserved_words};
use naga_keywords::keyword_set::{CaseInsensitiveKeywordSet, KeywordSet};
use naga_keywords::keywords::{BUILTIN_IDENTIFIERS, RESERVED, RESERVED_PREFIXES};
use std::alloc::{AllocError, Global};
use std::collections::HashMap;
use std::marker::Model;
use std::mem;

mod fallback;
mod items;
mod label;
mod uses;

/// Gives each label an identifier that it has given to no other label.
///
/// An identifier has ASCII letters, digits and `_` alone. It begins with the label's *stem*, which is
/// made of the label alone. The first label with a stem gets the stem as it is; but a `_` follows where
/// the stem ends in a digit or is a word that the namer keeps off. A later one gets the stem, a `_` and
/// the number of labels with this stem before it. Where digits are kept ([`Namer::keep_digits`]), no `_`
/// follows a digit. Contracts see a `Namer` as its words, its prefixes, whether it keeps digits, and the
/// number of uses of each stem.
///
/// One that keeps off WGSL's words names the labels of `crates/example_names` so:
///
/// ```text
/// let mut namer = Namer::for_wgsl(alloc)?;
/// let name = namer.call("x")?;   // x
/// let name = namer.call("x")?;   // x_1
/// let name = namer.call("fn")?;  // fn_
/// let name = namer.call("a b")?; // a_u0020_b
/// ```
#[derive(Drop)]
pub struct Namer {
    alloc: Global,
    uses: Uses,
    keywords: KeywordSet,
    builtin_identifiers: KeywordSet,
    keywords_case_insensitive: CaseInsensitiveKeywordSet,
    reserved_prefixes: Vec<&'static str>,
    keeps_digits: bool,
}

impl Model for Namer {
    ghost Value = { Names };

    ghost coded = { names_code };

    ghost view = { λ n. record {
      keywords = n.keywords;
      builtin_identifiers = n.builtin_identifiers;
      caseless_keywords = n.keywords_case_insensitive;
      reserved_prefixes = map (λ p. p.now) n.reserved_prefixes.items;
      keeps_digits = n.keeps_digits;
      uses = n.uses;
    } };
}

impl Namer {
    /// A `Namer` that has given no name and keeps off no word. It takes no memory.
    pub fn default(alloc: Global) -> Self
        ensures empty { result ≡ no_names }
        ensures history { HasNamed result [] }
    {
        Self {
            alloc,
            uses: Uses::new(alloc),
            keywords: KeywordSet::new(alloc),
            builtin_identifiers: KeywordSet::new(alloc),
            keywords_case_insensitive: CaseInsensitiveKeywordSet::new(alloc),
            reserved_prefixes: Vec::new(alloc),
            keeps_digits: false,
        }
    }

    /// A `Namer` that has given no name and keeps off the words of WGSL, [`RESERVED`] and
    /// [`BUILTIN_IDENTIFIERS`], and off [`RESERVED_PREFIXES`], as that of the writer does.
    pub fn for_wgsl(alloc: Global) -> Result<Self, AllocError>
        ensures words { IfOk result (λ n. n ≡ new_names
            (set.from_list (map (λ word. word.now) RESERVED.now))
            (set.from_list (map (λ word. word.now) BUILTIN_IDENTIFIERS.now))
            set.empty (map (λ prefix. prefix.now) RESERVED_PREFIXES.now) false) }
        ensures history { IfOk result (λ n. HasNamed n []) }
    {
        Ok(Self {
            alloc,
            uses: Uses::new(alloc),
            keywords: reserved_words(alloc),
            builtin_identifiers: builtin_words(alloc),
            keywords_case_insensitive: CaseInsensitiveKeywordSet::new(alloc),
            reserved_prefixes: Vec::from_slice(alloc, RESERVED_PREFIXES)?,
            keeps_digits: false,
        })
    }

    /// Lets identifiers end in digits from now on: one keeps the digits that its stem ends in, unless
    /// they come after a `_`, where they could be a number of uses, or after `_e` alone, as in the
    /// name of an expression. No identifier that was given before comes again.
    ///
    /// ```text
    /// let mut namer = Namer::for_wgsl(alloc)?;
    /// let name = namer.call("x2")?;     // x2_
    /// namer.keep_digits();
    /// let name = namer.call("pass2")?;  // pass2
    /// let name = namer.call("pass_2")?; // pass_2_
    /// let name = namer.call("x2")?;     // x2_1
    /// ```
    pub fn keep_digits(&mut self)
        ensures kept { self.new ≡ record self.old { keeps_digits = true } }
        ensures history { (earlier : List (List ℕ)) → HasNamed self.old earlier →
            HasNamed self.new earlier }
    {
        self.keeps_digits = true;
    }

    /// The identifier of the label, and one more use of the label's stem.
    ///
    /// A second `x` is `x_1`, and `x1` is `x1_`. The answer is `NamerError::Full` only where the
    /// stem was used 4,294,967,295 times after its first use, and `NamerError::Memory` where memory
    /// runs out. A refused call changes nothing.
    pub fn call(&mut self, label: &str) -> Result<String, NamerError>
        ensures name { IfOk result (λ name. string_bytes name ≡ name_of self.old label.now) }
        ensures used { OnOk result (self.new ≡ with_use self.old label.now) }

        // The same by the labels that were named before.
        ensures history { (earlier : List (List ℕ)) → HasNamed self.old earlier →
            IfOk result (λ name. string_bytes name ≡ name_after self.old earlier label.now) }
        ensures more_history { (earlier : List (List ℕ)) → HasNamed self.old earlier →
            OnOk result (HasNamed self.new (earlier ++ label.now ∷ [])) }

        // A refusal changes nothing, and has a reason.
        ensures err { OnErr result (self.new ≡ self.old) }
        ensures reason { IfErr result (IsRefusalOf self.old label.now) }
        ensures full { IsFull self.old label.now → IsErr result }
    {
        if let Some(stem) = label::own_stem(&self.reserved_prefixes, label) {
            return self.name_of_stem(stem);
        }
        let stem = label::stem(self.alloc, &self.reserved_prefixes, label)?;
        self.name_of_stem(stem.as_str())
    }

    /// The next identifier of the stem, and one more use of it. A refused call changes nothing.
    fn name_of_stem(&mut self, stem: &str) -> Result<String, NamerError>
        ensures name { IfOk result (λ name. string_bytes name
            ≡ name_of_stem self.old stem.now (uses_of self.old.uses stem.now)) }
        ensures used { OnOk result (self.new ≡ with_use_of_stem self.old stem.now) }
        ensures room { OnOk result (uses_of self.old.uses stem.now < 2 ^ 32) }
        ensures err { OnErr result (self.new ≡ self.old) }
        ensures reason { IfErr result (IsRefusalOfStem self.old.uses stem.now) }
        ensures full { uses_of self.old.uses stem.now ≡ 2 ^ 32 → IsErr result }
    {
        if let Some(name) = self.uses.later_name(self.alloc, stem)? {
            return Ok(name);
        }
        let name = self.first_name(stem)?;
        let stem = String::from_str(self.alloc, stem)?;
        self.uses.begin(stem)?;
        Ok(name)
    }

    /// `call` of the label, or of the fallback where there is none. An empty label is one.
    pub fn call_or(&mut self, label: &Option<String>, fallback: &str) -> Result<String, NamerError>
        ensures name { IfOk result (λ name.
            string_bytes name ≡ name_of self.old (label_or label.now fallback.now)) }
        ensures used { OnOk result (self.new
            ≡ with_use self.old (label_or label.now fallback.now)) }
        ensures history { (earlier : List (List ℕ)) → HasNamed self.old earlier →
            IfOk result (λ name.
            string_bytes name ≡ name_after self.old earlier (label_or label.now fallback.now)) }
        ensures more_history { (earlier : List (List ℕ)) → HasNamed self.old earlier →
            OnOk result (HasNamed self.new (earlier ++ label_or label.now fallback.now ∷ [])) }
        ensures err { OnErr result (self.new ≡ self.old) }
        ensures reason { IfErr result (IsRefusalOf self.old (label_or label.now fallback.now)) }
        ensures full { IsFull self.old (label_or label.now fallback.now) → IsErr result }
    {
        self.call(label_or(label, fallback))
    }

    /// Gives names to what the module declares, and puts them into the map under their keys: to its
    /// types, each with its members, its entry points and its functions with their arguments and
    /// variables, its globals, its constants and its overrides, in this order.
    ///
    /// From then on identifiers keep off the words and prefixes given, and keep their digits where
    /// `module.keeps_digits` says so, and the names given before are forgotten. The members of a
    /// struct are a namespace of their own, in which builtin words are free: a member may have the
    /// name of another struct's, or of an item outside. An item
    /// without a label is named `type`, `member`, `param`, `local`, `function` or `global`; a
    /// struct without one that entry points return `VertexOutput`, `FragmentOutput` or
    /// `ComputeOutput`, by the last of them that has such a word; a constant `const_` and its
    /// type's name, an override `override_` and its type's name. A global or a function's argument
    /// that is an external image has four names more, for its planes and its parameters.
    ///
    /// The map keeps its other keys. The answer is `NamerError::Full` only where a label comes
    /// whose stem the labels before it used up, and `NamerError::KeyFull` only where there are more
    /// entry points than an `EntryPointIndex` can tell apart, or more members or arguments than a
    /// `u32` can count; such a module is always refused. After a refusal the `Namer` is as a new
    /// one, and the names of some first items stand in the map.
    pub fn reset(
        &mut self,
        module: &Module,
        reserved_keywords: KeywordSet,
        builtin_identifiers: KeywordSet,
        keywords_case_insensitive: CaseInsensitiveKeywordSet,
        reserved_prefixes: &[&'static str],
        output: &mut HashMap<NameKey, String>,
    ) -> Result<(), NamerError>
        ensures { IsReset (start_of reserved_keywords builtin_identifiers
            keywords_case_insensitive reserved_prefixes.now «module».now.keeps_digits)
            «module».now result self.new
            (names_in output.old) (names_in output.new) }
    {
        let alloc = self.alloc;
        let prefixes = match Vec::from_slice(alloc, reserved_prefixes) {
            Ok(prefixes) => prefixes,
            Err(refusal) => {
                *self = Self::default(alloc);
                return Err(NamerError::Memory(refusal));
            }
        };
        let uses = Uses::new(alloc);
        let namer = Self {
            alloc,
            uses,
            keywords: reserved_keywords,
            builtin_identifiers,
            keywords_case_insensitive,
            reserved_prefixes: prefixes,
            keeps_digits: module.keeps_digits,
        };
        let mut naming = Naming::new(alloc, namer);
        naming.name_items(module, output);
        match naming.end() {
            Ok(namer) => {
                *self = namer;
                Ok(())
            }
            Err(refusal) => {
                *self = Self::default(alloc);
                Err(refusal)
            }
        }
    }

    /// Gives the members of a struct their names, in a namespace of their own without builtin
    /// words.
    fn name_members(
        &mut self,
        ty: Handle<Type_>,
        members: &[StructMember],
        output: &mut HashMap<NameKey, String>,
    ) -> Result<(), NamerError>
        ensures ok { OnOk result (NamesItems self.old (names_in output.old)
            (labelled_members ty members.now) self.new (names_in output.new)) }
        ensures err { IfErr result (RefusesItems self.old (names_in output.old)
            (labelled_members ty members.now) (names_in output.new)) }
    {
        let uses = mem::replace(&mut self.uses, Uses::new(self.alloc));
        let no_words = KeywordSet::new(self.alloc);
        let builtin_identifiers = mem::replace(&mut self.builtin_identifiers, no_words);
        let named = self.name_each_member(ty, members, output);
        self.uses = uses;
        self.builtin_identifiers = builtin_identifiers;
        named
    }

    fn name_each_member(
        &mut self,
        ty: Handle<Type_>,
        members: &[StructMember],
        output: &mut HashMap<NameKey, String>,
    ) -> Result<(), NamerError>
        requires { HasNamed self.now [] }
        ensures words { self.new ≡ record self.old { uses = self.new.uses } }
        ensures ok { OnOk result (HasNamedMembers self.old (names_in output.old) ty members.now
            self.new (names_in output.new)) }
        ensures err { IfErr result (RefusesMembers self.old (names_in output.old) ty members.now
            (names_in output.new)) }
    {
        for (index, member) in members.iter().enumerate() {
            let Ok(index) = u32::try_from(index) else {
                return Err(NamerError::KeyFull);
            };
            let key = NameKey::StructMember(ty, index);
            self.put_name(key, label_or(&member.name, "member"), output)?;
        }
        Ok(())
    }

    /// Puts the label's name into the map.
    fn put_name(
        &mut self,
        key: NameKey,
        label: &str,
        output: &mut HashMap<NameKey, String>,
    ) -> Result<(), NamerError>
        ensures ok { OnOk result (PutsName self.old (names_in output.old) key label.now
            self.new (names_in output.new)) }
        ensures words { self.new ≡ record self.old { uses = self.new.uses } }
        ensures err { IfErr result (PutsNoName self.old (names_in output.old) label.now
            (names_in output.new)) }
    {
        let name = self.call(label)?;
        output.insert(key, name)?;
        Ok(())
    }

    fn first_name(&self, stem: &str) -> Result<String, AllocError>
        ensures { IfOk result (λ name. string_bytes name ≡ first_name self.now stem.now) }
    {
        let mut name = String::from_str(self.alloc, stem)?;
        if label::has_bad_end(self.keeps_digits, stem) || self.is_taken(stem) {
            name.push('_')?;
        }
        Ok(name)
    }

    fn is_taken(&self, word: &str) -> bool
        ensures { result ≡ is_taken self.now word.now }
    {
        self.keywords.contains(word)
            || self.builtin_identifiers.contains(word)
            || self.keywords_case_insensitive.contains(word)
    }
}
