//! Laws of names, each on a function that does nothing: its contract says the law.
ghost use Rattle.std.specs.Prelude.{map};
ghost use Rattle.std.specs.Cmp.{IsEquivalence};
ghost use Rattle.std.specs.FinSet as set;
ghost use Rattle.std.specs.Hash.{Alike};
ghost use Rattle.naga_naming.specs.Laws.{NamesAreIdentifiers, NamesKeepOffNaga, NamesAreNoKeywords};
ghost use Rattle.naga_naming.specs.Laws.{NamesAreNoBuiltins, NamesAreNoCaselessKeywords};
ghost use Rattle.naga_naming.specs.Laws.{NamesAreNotNumbered, NamesDiffer, ItemsAreNamed};
ghost use Rattle.naga_naming.specs.Laws.{NamesDifferAcrossSettings, DigitsAreSetApart, DigitsAreKept};
ghost use Rattle.naga_naming.specs.Laws.{ItemsAreDistinguished, MembersAreNamed};
ghost use Rattle.naga_naming.specs.Laws.{MembersAreDistinguished};
ghost use Rattle.naga_naming.specs.Laws.{MembersAreNotReserved, AssignedNamesFollow};
ghost use Rattle.naga_naming.specs.Laws.{AssignedNamesAreNew};
ghost use Rattle.naga_keywords.specs.Plain.{HasPlainEnds};
ghost use Rattle.naga_naming.specs.Keys.{same_key, key_writes};
ghost use Rattle.naga_keywords.specs.Words.{same_caseless, caseless_writes};

use naga_keywords::keywords::{BUILTIN_IDENTIFIERS, RESERVED};

/// Every name has ASCII letters, digits and `_` alone, begins with no digit and not with `__`, and
/// is not `_`.
pub fn names_are_identifiers()
    ensures { NamesAreIdentifiers }
{}

/// Where identifiers keep off the prefixes `__` and `_naga`, no name begins with either.
pub fn names_keep_off_prefixes()
    ensures { NamesKeepOffNaga }
{}

/// No name is a word of the sets, where none of these words ends in `_`, or in `_` and digits.
pub fn names_are_not_taken()
    ensures keywords { NamesAreNoKeywords }
    ensures builtins { NamesAreNoBuiltins }
    ensures caseless { NamesAreNoCaselessKeywords }
{}

/// The words of WGSL have no such end.
pub fn words_of_wgsl_have_plain_ends()
    ensures reserved { HasPlainEnds (set.from_list (map (λ word. word.now) RESERVED.now)) }
    ensures builtin { HasPlainEnds
        (set.from_list (map (λ word. word.now) BUILTIN_IDENTIFIERS.now)) }
{}

/// No name is `_e` and digits after it, be they a number's or not: `_e05` as little as `_e5`.
pub fn names_are_not_numbered()
    ensures { NamesAreNotNumbered }
{}

/// No two labels get one name, not even where digits are kept from some label on.
pub fn names_differ()
    ensures labels { NamesDiffer }
    ensures settings { NamesDifferAcrossSettings }
{}

/// A first name has a `_` after it where its stem ends in a digit or is taken. Where digits are
/// kept, it ends in them, unless they come after a `_` or after `_e` alone.
pub fn digits_are_kept_where_asked()
    ensures not_asked { DigitsAreSetApart }
    ensures asked { DigitsAreKept }
{}

/// The identifiers given since a `Namer` began or was last reset, but to members of structs, follow
/// from the uses: a stem with n uses gave its first form and the numbers below n. The next call
/// gives a new one.
pub fn names_follow_from_uses()
    ensures assigned { AssignedNamesFollow }
    ensures new { AssignedNamesAreNew }
{}

/// After a `reset` each item of the module has its name in the map, and no two items outside
/// structs have one.
pub fn items_have_their_names()
    ensures named { ItemsAreNamed }
    ensures distinguished { ItemsAreDistinguished }
{}

/// The members of a struct are named by themselves: no two have one name, and none a name that is a
/// reserved word of WGSL.
pub fn members_have_their_names()
    ensures named { MembersAreNamed }
    ensures distinguished { MembersAreDistinguished }
    ensures free { MembersAreNotReserved }
{}

/// Keys are compared as an equivalence does, and equal ones hash equally.
pub fn keys_are_compared()
    ensures equality { IsEquivalence same_key }
    ensures hash { Alike same_key key_writes }
{}

/// Texts are compared as an equivalence does where ASCII case is ignored, and equal ones hash
/// equally.
pub fn caseless_texts_are_compared()
    ensures equality { IsEquivalence same_caseless }
    ensures hash { Alike same_caseless caseless_writes }
{}
