//! Sets of words that no identifier may be.
ghost use Rattle.std.specs.Prelude.{◌≡◌, IsTrue, ◌↔◌, IfOk, OnOk, OnErr, map};
ghost use Rattle.std.specs.Cmp.Lexicographic.{nat_list_eq_equiv};
ghost use Rattle.std.specs.Cmp.{partial_equiv_from_equiv, on_per, on_equiv};
ghost use Rattle.std.specs.Coded.{coded_ℕ, coded_list};
ghost use Rattle.std.specs.FinSet as set;
ghost use Rattle.std.specs.Iterator.{IsFinite};
ghost use Rattle.std.specs.List.Sorted.{IsStrictlySortedBy};
ghost use Rattle.std.proofs.Common.{rules};
ghost use Rattle.naga_keywords.specs.SortedWords.{IsWithinDigits, word_cmp};
ghost use Rattle.naga_keywords.specs.Words.{Words, in_lower_case, same_caseless, caseless_writes};
ghost use Rattle.naga_keywords.specs.Words.{same_words, same_words_equiv, AddsAll, AddsSome};
ghost use Rattle.naga_keywords.specs.declared.sorted.Case.TheVariants.{Sensitive, Insensitive};

use crate::sorted::{Case, SortedWords};
use std::alloc::{AllocError, Global};
use std::convert::AsStr;
use std::fmt;
use std::hash::{Hash, Hasher};
use std::marker::Model;

/// A set of words, case-sensitive, which a `Namer` keeps its identifiers out of. It keeps them in
/// the order of their bytes.
///
/// Contracts see it as the finite set of its words' bytes.
///
/// ```text
/// let mut words = KeywordSet::from_slice(alloc, &["let", "fn"])?;
/// words.extend(["if"].iter().copied())?;
/// let is_word = words.contains("fn"); // true
/// let is_word = words.contains("FN"); // false
/// ```
#[derive(Drop)]
pub struct KeywordSet {
    words: SortedWords,
}

impl Model for KeywordSet {
    ghost Value = { Words };

    ghost coded = { set.code (coded_list coded_ℕ) };

    ghost view = { λ s. s.words.words };

    ghost invariant = { λ s. s.words.case ≡ Sensitive };
}

impl KeywordSet {
    /// The empty set, which takes no memory.
    pub fn new(alloc: Global) -> Self
        ensures { result ≡ set.empty }
    {
        Self {
            words: SortedWords::new(alloc, Case::Sensitive),
        }
    }

    /// Whether the word is in the set, byte for byte.
    pub fn contains(&self, identifier: &str) -> bool
        ensures { result ≡ set.contains self.now identifier.now }
    {
        self.words.probe(identifier).0
    }

    /// What [`contains`](Self::contains) answers, and how many members were compared with the word
    /// to tell: at most as many as the number of members has binary digits, so none in the empty
    /// set, one where there is one member, and two where there are two or three. It takes no memory
    /// and always succeeds.
    pub fn contains_probes(&self, identifier: &str) -> (bool, usize)
        ensures contains { result.0 ≡ set.contains self.now identifier.now }
        ensures probes { IsWithinDigits result.1 (set.len self.now) }
    {
        self.words.probe(identifier)
    }

    /// The set of the words that the iterator gives.
    pub fn from_words<I: Iterator<Item = &'static str> + Drop>(
        alloc: Global,
        words: I,
    ) -> Result<Self, AllocError>
        requires can { I.can_next words }
        requires ends { IsFinite (I.remaining words) }
        ensures { IfOk result (AddsAll I.next_gives (λ w. w) words set.empty) }
    {
        let mut set = Self::new(alloc);
        set.extend(words)?;
        Ok(set)
    }

    /// The set of the words of a slice. Memory is taken once, for as many words as the slice has;
    /// words that come in ascending order take one comparison each, and are copied as they are.
    pub fn from_slice(alloc: Global, words: &[&'static str]) -> Result<Self, AllocError>
        ensures { IfOk result (λ s. s ≡ set.from_list (map (λ w. w.now) words.now)) }
    {
        let words = SortedWords::from_slice(alloc, Case::Sensitive, words)?;
        Ok(Self { words })
    }

    /// The set of the words of a table, which come in ascending order. It takes neither memory nor a
    /// comparison.
    pub(crate) fn from_table(alloc: Global, words: &'static [&'static str]) -> Self
        requires sorted { IsStrictlySortedBy word_cmp (map (λ w. w.now) words.now) }
        ensures { result ≡ set.from_list (map (λ w. w.now) words.now) }
    {
        Self {
            words: SortedWords::from_table(alloc, Case::Sensitive, words),
        }
    }

    /// Adds the words that the iterator gives. Memory is taken once where the iterator says how
    /// many there are and the set's words are not WGSL's own table. Where memory runs out, the set
    /// has got the words of some beginning of them.
    pub fn extend<I: Iterator<Item = &'static str> + Drop>(
        &mut self,
        words: I,
    ) -> Result<(), AllocError>
        requires can { I.can_next words }
        requires ends { IsFinite (I.remaining words) }
        ensures ok { OnOk result (AddsAll I.next_gives (λ w. w) words self.old self.new) }
        ensures err { OnErr result (AddsSome I.next_gives (λ w. w) words self.old self.new) }
    {
        self.words.extend(words)
    }
}

impl Clone for KeywordSet {
    ghost is_clone = { λ s copy. copy ≡ s };

    fn clone(&self) -> Result<Self, AllocError> {
        let words = self.words.clone()?;
        Ok(Self { words })
    }
}

impl PartialEq for KeywordSet {
    ghost eq = { same_words };

    ghost laws = { partial_equiv_from_equiv same_words_equiv };

    /// Whether the two sets have the same words.
    fn eq(&self, other: &Self) -> bool
        ensures value { result ≡ same_words self.now other.now }
        ensures same { IsTrue result ↔ (self.now ≡ other.now) }
    {
        self.words.has_words_of(&other.words)
    }
}

impl Eq for KeywordSet {
    ghost laws = { same_words_equiv };
}

/// A set of ASCII words that regards no case, which a `Namer` keeps its identifiers out of. It
/// keeps them in the order of their bytes with the ASCII letters in lower case.
///
/// Contracts see it as the finite set of its words' bytes, with the ASCII letters in lower case.
///
/// ```text
/// let words = CaseInsensitiveKeywordSet::from_slice(alloc, &["let", "fn"])?;
/// let is_word = words.contains("FN"); // true
/// ```
#[derive(Drop)]
pub struct CaseInsensitiveKeywordSet {
    folded: SortedWords,
}

impl Model for CaseInsensitiveKeywordSet {
    ghost Value = { Words };

    ghost coded = { set.code (coded_list coded_ℕ) };

    ghost view = { λ s. s.folded.words };

    ghost invariant = { λ s. s.folded.case ≡ Insensitive };
}

impl CaseInsensitiveKeywordSet {
    /// The empty set, which takes no memory.
    pub fn new(alloc: Global) -> Self
        ensures { result ≡ set.empty }
    {
        Self {
            folded: SortedWords::new(alloc, Case::Insensitive),
        }
    }

    /// Whether a word of the set equals this one when ASCII case is ignored.
    pub fn contains(&self, identifier: &str) -> bool
        ensures { result ≡ set.contains self.now (in_lower_case identifier.now) }
    {
        self.folded.probe(identifier).0
    }

    /// What [`contains`](Self::contains) answers, and how many members were compared with the word
    /// to tell: at most as many as the number of members has binary digits, so none in the empty
    /// set, one where there is one member, and two where there are two or three. It takes no memory
    /// and always succeeds.
    pub fn contains_probes(&self, identifier: &str) -> (bool, usize)
        ensures contains { result.0 ≡ set.contains self.now (in_lower_case identifier.now) }
        ensures probes { IsWithinDigits result.1 (set.len self.now) }
    {
        self.folded.probe(identifier)
    }

    /// The set of the words that the iterator gives.
    pub fn from_words<I: Iterator<Item = &'static str> + Drop>(
        alloc: Global,
        words: I,
    ) -> Result<Self, AllocError>
        requires can { I.can_next words }
        requires ends { IsFinite (I.remaining words) }
        ensures { IfOk result (AddsAll I.next_gives in_lower_case words set.empty) }
    {
        let mut caseless = Self::new(alloc);
        caseless.extend(words)?;
        Ok(caseless)
    }

    /// The set of the words of a slice. Memory is taken once, for as many words as the slice has;
    /// words that come in ascending order take one comparison each, and are copied as they are.
    pub fn from_slice(alloc: Global, words: &[&'static str]) -> Result<Self, AllocError>
        ensures { IfOk result (λ s. s ≡ set.from_list (map (λ w. in_lower_case w.now) words.now)) }
    {
        let folded = SortedWords::from_slice(alloc, Case::Insensitive, words)?;
        Ok(Self { folded })
    }

    /// Adds the words that the iterator gives. Memory is taken once where the iterator says how
    /// many there are. Where memory runs out, the set has got the words of some beginning of them.
    pub fn extend<I: Iterator<Item = &'static str> + Drop>(
        &mut self,
        words: I,
    ) -> Result<(), AllocError>
        requires can { I.can_next words }
        requires ends { IsFinite (I.remaining words) }
        ensures ok { OnOk result (AddsAll I.next_gives in_lower_case words self.old self.new) }
        ensures err { OnErr result (AddsSome I.next_gives in_lower_case words self.old self.new) }
    {
        self.folded.extend(words)
    }
}

impl Clone for CaseInsensitiveKeywordSet {
    ghost is_clone = { λ s copy. copy ≡ s };

    fn clone(&self) -> Result<Self, AllocError> {
        let folded = self.folded.clone()?;
        Ok(Self { folded })
    }
}

impl PartialEq for CaseInsensitiveKeywordSet {
    ghost eq = { same_words };

    ghost laws = { partial_equiv_from_equiv same_words_equiv };

    /// Whether the two sets have the same words when ASCII case is ignored.
    fn eq(&self, other: &Self) -> bool
        ensures value { result ≡ same_words self.now other.now }
        ensures same { IsTrue result ↔ (self.now ≡ other.now) }
    {
        self.folded.has_words_of(&other.folded)
    }
}

impl Eq for CaseInsensitiveKeywordSet {
    ghost laws = { same_words_equiv };
}

/// A text that is compared and hashed with no regard to ASCII case.
#[derive(Clone, Copy)]
pub struct AsciiUniCase<S: AsStr> {
    pub word: S,
}

impl<S: AsStr> fmt::Debug for AsciiUniCase<S> {
    fn fmt<W: fmt::Write>(&self, f: &mut fmt::Formatter<W>) -> fmt::Result {
        self.word.as_str().fmt(f)
    }
}

impl<S: AsStr> PartialEq for AsciiUniCase<S> {
    ghost eq = { λ a b. same_caseless (S.text a.word) (S.text b.word) };

    ghost laws = { on_per (λ a. in_lower_case (S.text a.word))
        (partial_equiv_from_equiv nat_list_eq_equiv) };

    fn eq(&self, other: &Self) -> bool {
        self.word.as_str().eq_ignore_ascii_case(other.word.as_str())
    }
}

impl<S: AsStr> Eq for AsciiUniCase<S> {
    ghost laws = { on_equiv (λ a. in_lower_case (S.text a.word)) nat_list_eq_equiv };
}

impl<S: AsStr> Hash for AsciiUniCase<S> {
    ghost use Rattle.std.specs.Cmp.Rules.{hashing};

    ghost hash_input = { λ a. caseless_writes (S.text a.word) };

    ghost respects_eq = { Prim.search (hashing, rules) };

    fn hash<H: Hasher>(&self, state: &mut H) {
        for byte in self.word.as_str().as_bytes() {
            state.write_u8(byte.to_ascii_lowercase());
        }
    }
}
