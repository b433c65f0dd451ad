//! Words in ascending order, among which one is found by halving.

ghost use Rattle.std.specs.Cow.{cow_slice_items};
ghost use Rattle.std.specs.Prelude.{◌≡◌, ◌+◌, ◌<◌, ◌≤◌, ◌^◌, IfOk, IsTrue, OnErr, OnOk, insert};
ghost use Rattle.std.specs.Prelude.{if◌then◌else◌, is_ok, length, map};
ghost use Rattle.std.specs.FinSet as set;
ghost use Rattle.std.specs.Iterator.{IsFinite};
ghost use Rattle.std.specs.List.Sorted.{IsStrictlySortedBy};
ghost use Rattle.naga_keywords.specs.SortedWords.{IsFoundAt, IsIndexFor, IsWithinDigits, keys_of};
ghost use Rattle.naga_keywords.specs.SortedWords.{SetView, comparison_key, view_code};
ghost use Rattle.naga_keywords.specs.SortedWords.{view_of_words, word_cmp};
ghost use Rattle.naga_keywords.specs.Words.{AddsAll, AddsSome, in_lower_case, same_words};

use std::alloc::{AllocError, Global};
use std::borrow::CowSlice;
use std::cmp::Ordering;
use std::marker::Model;

/// Whether words that differ in ASCII case alone are different words.
#[derive(Clone, Copy, Debug, PartialEq, Eq)]
pub(crate) enum Case {
    /// They are.
    Sensitive,
    /// They are one word.
    Insensitive,
}

impl Case {
    /// How two words stand to each other, by their bytes.
    fn compare(self, word: &str, other: &str) -> Ordering
        ensures { result ≡ word_cmp (comparison_key self word.now) (comparison_key self other.now) }
    {
        match self {
            Case::Sensitive => word.cmp(other),
            Case::Insensitive => compare_lowered(word, other),
        }
    }
}

/// How two words stand to each other, by their bytes with the ASCII letters in lower case.
fn compare_lowered(word: &str, other: &str) -> Ordering
    ensures { result ≡ word_cmp (in_lower_case word.now) (in_lower_case other.now) }
{
    let word = word.bytes().map(|byte| byte.to_ascii_lowercase());
    let other = other.bytes().map(|byte| byte.to_ascii_lowercase());
    word.cmp(other)
}

/// A wanted word, and how often a member was compared with it.
#[derive(Drop)]
struct Counter<'a> {
    case: Case,
    wanted: &'a str,
    comparisons: usize,
}

impl<'a> Counter<'a> {
    fn new(case: Case, wanted: &'a str) -> Self
        ensures case { result.case ≡ case }
        ensures wanted { result.wanted.now ≡ wanted.now }
        ensures fresh { result.comparisons ≡ 0 }
    {
        Self {
            case,
            wanted,
            comparisons: 0,
        }
    }

    /// How the member stands to the wanted word. It counts one comparison more.
    fn compare(&mut self, member: &str) -> Ordering
        requires { self.old.comparisons < 2 ^ 63 }
        ensures order { result ≡ word_cmp (comparison_key self.old.case member.now)
            (comparison_key self.old.case self.old.wanted.now) }
        ensures counted { self.new.comparisons ≡ self.old.comparisons + 1 }
        ensures case { self.new.case ≡ self.old.case }
        ensures wanted { self.new.wanted ≡ self.old.wanted }
    {
        self.comparisons += 1;
        self.case.compare(member, self.wanted)
    }
}

/// Where the wanted word stands among words in ascending order, or where it would be put.
fn search(members: &[&'static str], counter: &mut Counter) -> Result<usize, usize>
    requires sorted { IsStrictlySortedBy word_cmp (keys_of counter.old.case members.now) }
    requires fresh { counter.old.comparisons ≡ 0 }
    ensures found { IsFoundAt (keys_of counter.old.case members.now)
        (comparison_key counter.old.case counter.old.wanted.now) result }
    ensures probes { IsWithinDigits counter.new.comparisons (length members.now) }
{
    let mut low = 0;
    let mut high = members.len();
    while low < high {
        let middle = low + (high - low) / 2;
        match counter.compare(members[middle]) {
            Ordering::Less => low = middle + 1,
            Ordering::Equal => return Ok(middle),
            Ordering::Greater => high = middle,
        }
    }
    Err(low)
}

/// Whether each word comes before the next.
fn ascend(case: Case, words: &[&'static str]) -> bool
    ensures { IsTrue result → IsStrictlySortedBy word_cmp (keys_of case words.now) }
{
    for index in 1..words.len() {
        match Counter::new(case, words[index]).compare(words[index - 1]) {
            Ordering::Less => {}
            _ => return false,
        }
    }
    true
}

/// Where the word is to be put among words in ascending order, if it isn't there. One that comes
/// after all of them takes one comparison.
fn insertion_index(case: Case, members: &[&'static str], word: &str) -> Option<usize>
    requires sorted { IsStrictlySortedBy word_cmp (keys_of case members.now) }
    ensures { IsIndexFor (keys_of case members.now) (comparison_key case word.now) result }
{
    let Some(last) = members.last() else {
        return Some(0);
    };
    match Counter::new(case, word).compare(last) {
        Ordering::Less => Some(members.len()),
        Ordering::Equal => None,
        Ordering::Greater => search(members, &mut Counter::new(case, word)).err(),
    }
}

/// Puts a word in front of the one at the index. Words that stand in a table are copied first. An
/// error leaves them as they were.
fn put_among(
    alloc: Global,
    members: &mut CowSlice<'static, &'static str, Global>,
    index: usize,
    word: &'static str,
) -> Result<(), AllocError>
    requires within { index ≤ length (cow_slice_items members.old) }
    ensures { cow_slice_items members.new ≡ (if is_ok result
        then insert (cow_slice_items members.old) index word.entry
        else cow_slice_items members.old) }
{
    match members {
        CowSlice::Owned(list) => list.insert(index, word)?,
        CowSlice::Borrowed(table) => {
            let mut list = Vec::from_slice(alloc, table)?;
            list.insert(index, word)?;
            *members = CowSlice::Owned(list);
        }
    }
    Ok(())
}

/// A set of words, which keeps them in ascending order and without repeats. They stand in a table
/// of the program, or in memory of the set's own.
#[derive(Drop)]
pub(crate) struct SortedWords {
    alloc: Global,
    case: Case,
    members: CowSlice<'static, &'static str, Global>,
}

impl Model for SortedWords {
    ghost Value = { SetView };

    ghost coded = { view_code };

    ghost view = { λ s. view_of_words s.case (cow_slice_items s.members) };

    ghost invariant = { λ s.
        IsStrictlySortedBy word_cmp (keys_of s.case (cow_slice_items s.members)) };
}

impl SortedWords {
    /// The empty set, which takes no memory.
    pub(crate) fn new(alloc: Global, case: Case) -> Self
        ensures case { result.case ≡ case }
        ensures words { result.words ≡ set.empty }
    {
        Self {
            alloc,
            case,
            members: CowSlice::Owned(Vec::new(alloc)),
        }
    }

    /// Whether the word is in the set, and how many comparisons it took to tell.
    pub(crate) fn probe(&self, word: &str) -> (bool, usize)
        ensures contains { result.0
            ≡ set.contains self.now.words (comparison_key self.now.case word.now) }
        ensures probes { IsWithinDigits result.1 (set.len self.now.words) }
    {
        let mut counter = Counter::new(self.case, word);
        let found = search(self.members.as_slice(), &mut counter);
        (found.is_ok(), counter.comparisons)
    }

    /// Takes memory for so many words more, where those that it has are in memory of its own.
    fn reserve(&mut self, more: usize) -> Result<(), AllocError>
        ensures { self.new ≡ self.old }
    {
        if let CowSlice::Owned(list) = &mut self.members {
            list.reserve(more)?;
        }
        Ok(())
    }

    fn insert(&mut self, word: &'static str) -> Result<(), AllocError>
        ensures case { self.new.case ≡ self.old.case }
        ensures ok { OnOk result (self.new.words
            ≡ set.insert self.old.words (comparison_key self.old.case word.now)) }
        ensures err { OnErr result (self.new.words ≡ self.old.words) }
    {
        if let Some(index) = insertion_index(self.case, self.members.as_slice(), word) {
            put_among(self.alloc, &mut self.members, index, word)?;
        }
        Ok(())
    }

    /// The set of the words of a table, which come in ascending order. It takes neither memory nor a
    /// comparison.
    pub(crate) fn from_table(alloc: Global, case: Case, table: &'static [&'static str]) -> Self
        requires sorted { IsStrictlySortedBy word_cmp (keys_of case table.now) }
        ensures case { result.case ≡ case }
        ensures words { result.words
            ≡ set.from_list (map (λ word. comparison_key case word.now) table.now) }
    {
        Self {
            alloc,
            case,
            members: CowSlice::Borrowed(table),
        }
    }

    /// The set of words that come in ascending order. It takes no comparison, and memory once.
    fn from_ascending(alloc: Global, case: Case, words: &[&'static str]) -> Result<Self, AllocError>
        requires sorted { IsStrictlySortedBy word_cmp (keys_of case words.now) }
        ensures case { IfOk result (λ s. s.case ≡ case) }
        ensures words { IfOk result (λ s. s.words
            ≡ set.from_list (map (λ word. comparison_key case word.now) words.now)) }
    {
        let members = CowSlice::Owned(Vec::from_slice(alloc, words)?);
        Ok(Self {
            alloc,
            case,
            members,
        })
    }

    /// The set of the words of a slice. Words that come in ascending order take one comparison
    /// each, and memory once.
    pub(crate) fn from_slice(
        alloc: Global,
        case: Case,
        words: &[&'static str],
    ) -> Result<Self, AllocError>
        ensures case { IfOk result (λ s. s.case ≡ case) }
        ensures words { IfOk result (λ s. s.words
            ≡ set.from_list (map (λ word. comparison_key case word.now) words.now)) }
    {
        if ascend(case, words) {
            Self::from_ascending(alloc, case, words)
        } else {
            Self::from_any(alloc, case, words)
        }
    }

    /// The set of the words of a slice, put in one by one.
    fn from_any(alloc: Global, case: Case, words: &[&'static str]) -> Result<Self, AllocError>
        ensures case { IfOk result (λ s. s.case ≡ case) }
        ensures words { IfOk result (λ s. s.words
            ≡ set.from_list (map (λ word. comparison_key case word.now) words.now)) }
    {
        let members = CowSlice::Owned(Vec::with_capacity(alloc, words.len())?);
        let mut sorted = Self {
            alloc,
            case,
            members,
        };
        for word in words {
            sorted.insert(word)?;
        }
        Ok(sorted)
    }

    /// Adds the words that the iterator gives. Where memory runs out, the set has got the words of
    /// some beginning of them.
    pub(crate) fn extend<I: Iterator<Item = &'static str> + Drop>(
        &mut self,
        words: I,
    ) -> Result<(), AllocError>
        requires can { I.can_next words }
        requires ends { IsFinite (I.remaining words) }
        ensures case { self.new.case ≡ self.old.case }
        ensures ok { OnOk result
            (AddsAll I.next_gives (comparison_key self.old.case) words self.old.words
            self.new.words) }
        ensures err { OnErr result
            (AddsSome I.next_gives (comparison_key self.old.case) words self.old.words
            self.new.words) }
    {
        let (least, _) = words.size_hint();
        self.reserve(least)?;
        for word in words {
            self.insert(word)?;
        }
        Ok(())
    }

    /// Whether each word of the set is one of the other.
    fn is_within(&self, other: &Self) -> bool
        requires { self.now.case ≡ other.now.case }
        ensures { result ≡ set.is_subset self.now.words other.now.words }
    {
        self.members
            .as_slice()
            .iter()
            .all(|word| other.probe(word).0)
    }

    /// Whether the two sets, which regard case alike, have the same words.
    pub(crate) fn has_words_of(&self, other: &Self) -> bool
        requires { self.now.case ≡ other.now.case }
        ensures { result ≡ same_words self.now.words other.now.words }
    {
        self.is_within(other) && other.is_within(self)
    }
}

impl Clone for SortedWords {
    ghost is_clone = { λ s copy. copy ≡ s };

    fn clone(&self) -> Result<Self, AllocError> {
        let members = match &self.members {
            CowSlice::Borrowed(table) => CowSlice::Borrowed(*table),
            CowSlice::Owned(list) => CowSlice::Owned(list.clone()?),
        };
        Ok(Self {
            alloc: self.alloc,
            case: self.case,
            members,
        })
    }
}
