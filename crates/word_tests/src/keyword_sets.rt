//! Sets of words, with regard to case and without.
use naga_names::by_bytes::{builtin_words, reserved_words};
use naga_names::keyword_set::{AsciiUniCase, CaseInsensitiveKeywordSet, KeywordSet};
use naga_names::keywords::{BUILTIN_IDENTIFIERS, RESERVED};
use std::alloc::Global;
use std::hash::{DefaultHasher, Hash, Hasher};
use std::process::Abort;

/// The set with regard to case.
fn set_of(rt: &impl Abort, alloc: Global, words: &[&'static str]) -> KeywordSet {
    KeywordSet::from_slice(alloc, words).expect(rt, "memory")
}

/// The set without.
fn caseless_of(
    rt: &impl Abort,
    alloc: Global,
    words: &[&'static str],
) -> CaseInsensitiveKeywordSet {
    CaseInsensitiveKeywordSet::from_slice(alloc, words).expect(rt, "memory")
}

#[test]
fn case_counts(rt: HostRuntime) {
    let alloc = rt.alloc();
    let mut set = set_of(&rt, alloc, &["fn", "let", "fn"]);
    assert!(rt; set.contains("fn") && !set.contains("Fn") && !set.contains(""));
    set.extend(["Fn", "if"].iter().copied())
        .expect(&rt, "memory");
    assert!(rt; set.contains("Fn") && set.contains("if"));
    let words = ["if", "Fn", "let", "fn"];
    let same = KeywordSet::from_words(alloc, words.iter().copied()).expect(&rt, "memory");
    assert!(rt; set == same && set != KeywordSet::new(alloc));
    assert!(rt; set.clone().expect(&rt, "memory") == same);
}

#[test]
fn case_does_not_count(rt: HostRuntime) {
    let alloc = rt.alloc();
    let mut set = caseless_of(&rt, alloc, &["Foo", "fOO", "a1"]);
    assert!(rt; set.contains("FOO") && set.contains("A1") && !set.contains("fo"));
    set.extend(["BAR"].iter().copied()).expect(&rt, "memory");
    assert!(rt; set.contains("bar"));
    let words = ["bar", "foo", "A1"].iter().copied();
    let same = CaseInsensitiveKeywordSet::from_words(alloc, words).expect(&rt, "memory");
    assert!(rt; set == same && set != CaseInsensitiveKeywordSet::new(alloc));
    assert!(rt; set.clone().expect(&rt, "memory") == same);
}

/// Members of a set, a word, whether it is one of them, and how many comparisons tell it.
const PROBES: &[(&[&str], &str, (bool, usize))] = &[
    (&[], "x", (false, 0)),
    (&["a", "b", "c"], "d", (false, 2)),
    (&["a", "b", "c"], "b", (true, 1)),
    (&["a", "b", "c"], "a", (true, 2)),
    (&["a", "a"], "b", (false, 1)),
    (&["a", "a"], "0", (false, 1)),
];

/// A search halves what is left, so that it takes at most as many comparisons as the number of
/// members has binary digits; a repeated word is one member.
#[test]
fn probes_are_counted(rt: HostRuntime) {
    let alloc = rt.alloc();
    for (words, word, want) in PROBES {
        let set = set_of(&rt, alloc, *words);
        assert_eq!(rt; set.contains_probes(*word), *want, "{word} in {words:?}");
    }
    let none = CaseInsensitiveKeywordSet::new(alloc);
    assert!(rt; none.contains_probes("x") == (false, 0));
    let caseless = caseless_of(&rt, alloc, &["Foo", "fOO"]);
    assert!(rt; caseless.contains_probes("FOO") == (true, 1));
}

/// The sets of WGSL's words are those of the tables, whatever the order in which they are made.
#[test]
fn tables_make_their_sets(rt: HostRuntime) {
    let alloc = rt.alloc();
    let reserved = reserved_words(alloc);
    assert!(rt; reserved == set_of(&rt, alloc, RESERVED));
    let builtin = builtin_words(alloc);
    assert!(rt; builtin == set_of(&rt, alloc, BUILTIN_IDENTIFIERS));
    for word in RESERVED {
        assert!(rt; reserved.contains(*word));
    }
    assert!(rt; reserved.contains_probes("while").1 <= 8);
}

#[test]
fn caseless_texts(rt: HostRuntime) {
    let upper = AsciiUniCase { word: "IF" };
    let lower = AsciiUniCase { word: "if" };
    assert!(rt; upper == lower && upper != AsciiUniCase { word: "it" });
    let mut hashers = (DefaultHasher::new(), DefaultHasher::new());
    upper.hash(&mut hashers.0);
    lower.hash(&mut hashers.1);
    assert_eq!(rt; hashers.0.finish(), hashers.1.finish());
    let shown = format!(in rt.alloc(); "{upper:?}").expect(&rt, "memory");
    assert_eq!(rt; shown.as_str(), "\"IF\"");
}

#[test]
fn words_of_wgsl(rt: HostRuntime) {
    assert_eq!(rt; RESERVED.len(), 172);
    assert_eq!(rt; BUILTIN_IDENTIFIERS.len(), 292);
    assert!(rt; RESERVED.contains(&"fn") && BUILTIN_IDENTIFIERS.contains(&"vec3"));
}
