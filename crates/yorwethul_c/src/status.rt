//! What becomes of a module, in one word.

ghost use Rattle.std.specs.Prelude.{◌≡◌};
ghost use Rattle.yorwethul_c.specs.Answers.{number_of, status_of_error};

use naga_wgsl_shared::Error;

/// What becomes of a module, in one word. `yorwethul.h` has a constant for each.
#[derive(Clone, Copy, Debug, PartialEq, Eq)]
pub enum Status {
    /// It is written, accepted, or its layouts are told.
    Done,
    /// It is accepted, and refused for a construct, or for a rule of a filter of diagnostics.
    Refused,
    /// It is not accepted.
    NotAccepted,
    /// There is none in the bytes.
    NoModule,
    /// A bit is set that no flag has.
    UnknownFlag,
    /// Memory was refused.
    OutOfMemory,
    /// Lists and objects nest too deep in the bytes, or the module itself is nested too deep.
    TooDeep,
    /// Its text is too long.
    TooLong,
}

impl Status {
    /// The number that `yorwethul.h` has for it.
    pub fn number(self) -> u32
        ensures { result ≡ number_of self }
    {
        match self {
            Status::Done => 0,
            Status::Refused => 1,
            Status::NotAccepted => 2,
            Status::NoModule => 3,
            Status::UnknownFlag => 4,
            Status::OutOfMemory => 5,
            Status::TooDeep => 6,
            Status::TooLong => 7,
        }
    }
}

/// What an error of the writer says. Its sink fails only where the text is too long, which is told
/// otherwise.
pub fn status_of(error: &Error) -> Status
    ensures { result ≡ status_of_error error.now }
{
    match error {
        Error::Memory(_) => Status::OutOfMemory,
        _ => Status::Refused,
    }
}
