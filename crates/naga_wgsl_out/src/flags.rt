//! The sets of flags by name, for a program that has no other use for sets of flags.

ghost use Rattle.std.specs.Prelude.{◌≡◌, false};
ghost use Rattle.naga_back.specs.Flags.{annotates_types, is_portable};

use bitflags::Flags;
use naga_back::WriterFlags;

/// No flags: a `let` states no type, and the text has what naga's has.
pub fn no_flags() -> WriterFlags
    ensures types { annotates_types result ≡ false }
    ensures portable { is_portable result ≡ false }
{
    WriterFlags::empty()
}
