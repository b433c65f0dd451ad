//! Hashes of types and operators, the same for those with the same key.

ghost use Rattle.std.specs.Prelude.{◌≡◌, [], true, unwrap_or};
ghost use Rattle.std.specs.Option.{is_some};
ghost use Rattle.naga_acceptance.specs.Uses.{all_mixed, mixed};
ghost use Rattle.naga_acceptance.specs.Views.{is_whole, numbers, over_key, identity_numbers};

use crate::alike::{Identity, Over, next};
use crate::type_numbers::Level;
use naga_ir::{Type_, UniqueArena};

/// A number mixed into those before it.
pub(crate) fn mixed(hash: usize, number: usize) -> usize
    ensures { result ≡ mixed hash number }
{
    hash.wrapping_mul(31).wrapping_add(number)
}

pub(crate) fn level_mixed(hash: usize, level: &Level) -> usize
    ensures { result ≡ all_mixed hash (numbers level.now) }
{
    let hash = mixed(mixed(mixed(hash, level.tag), level.first), level.second);
    mixed(mixed(mixed(hash, level.third), level.fourth), level.fifth)
}

/// The bytes of a word.
pub(crate) fn word_mixed(hash: usize, word: &str) -> usize
    ensures { result ≡ all_mixed hash word.now }
{
    let mut hash = hash;
    for byte in word.as_bytes() {
        hash = mixed(hash, *byte as usize);
    }
    hash
}

/// The numbers of what a type is over, which has a form.
fn over_mixed(types: &UniqueArena<Type_>, hash: usize, over: Over) -> usize
    requires { is_some (over_key types.now over) ≡ true }
    ensures { result ≡ all_mixed hash (unwrap_or (over_key types.now over) []) }
{
    let (mut hash, mut over) = (hash, over);
    while let Some(top) = next(types, over) {
        hash = level_mixed(hash, &top.level);
        over = top.over;
    }
    hash
}

/// The numbers that tell a type.
pub(crate) fn identity_mixed(types: &UniqueArena<Type_>, hash: usize, identity: Identity) -> usize
    requires { is_whole types.now identity ≡ true }
    ensures { result ≡ all_mixed hash (identity_numbers types.now identity) }
{
    match identity {
        Identity::Formed(top) => over_mixed(types, level_mixed(hash, &top.level), top.over),
        Identity::Unsupported(Some(level)) => level_mixed(mixed(mixed(hash, 32), 2), &level),
        Identity::Unsupported(None) => mixed(mixed(hash, 32), 0),
    }
}
