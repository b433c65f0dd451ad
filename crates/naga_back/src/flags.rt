//! How a module is written.

ghost use Rattle.std.specs.Prelude.{◌≡◌, ⊤, [], ◌∷◌, codes};
ghost use Rattle.naga_back.specs.Flags.{annotates_types, is_portable};

use bitflags::{Flag, Flags, bitflag_items};

/// How a module is written.
#[derive(Clone, Copy, Debug, PartialEq, Eq)]
pub struct WriterFlags(u32);

bitflag_items! {
    impl WriterFlags: u32 {
        /// Each `let` states its type: `let _e2: i32 = a;`.
        const EXPLICIT_TYPES = 1;

        /// The text has what standard compilers ask for: `enable subgroups;` where something of
        /// subgroups stands in it, `enable f16;` wherever a type over `f16` may be spelled or a
        /// literal of one stand, and level zero of an image of depths as the whole number `0`.
        const PORTABLE = 2;
    }
}

impl Flags for WriterFlags {
    type Bits = u32;

    ghost exact = { ⊤ };

    ghost table = { (codes "EXPLICIT_TYPES", 1) ∷ (codes "PORTABLE", 2) ∷ [] };

    ghost set_of = { λ f. f.0 };

    fn flags<'a>() -> &'a [Flag<WriterFlags>] {
        WriterFlags::FLAGS
    }

    fn bits(&self) -> u32 {
        self.0
    }

    fn from_bits_retain(bits: u32) -> WriterFlags {
        WriterFlags(bits)
    }
}

/// Whether each `let` tells its type.
pub fn annotates_types(flags: WriterFlags) -> bool
    ensures { result ≡ annotates_types flags }
{
    flags.contains(WriterFlags::EXPLICIT_TYPES)
}

/// Whether the text has what standard compilers ask for.
pub fn is_portable(flags: WriterFlags) -> bool
    ensures { result ≡ is_portable flags }
{
    flags.contains(WriterFlags::PORTABLE)
}
