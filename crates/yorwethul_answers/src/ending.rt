//! How the program ends.
ghost use Rattle.std.specs.Prelude.{◌≡◌};
ghost use Rattle.yorwethul_answers.specs.Statuses.{status_for, first_status_of};

use yorwethul_progress::Outcome;

/// The status where a module is refused.
pub const REFUSED: u8 = 1;

/// The status where an option is wrong, the input is no module, or something cannot be read or
/// written.
pub const FAILED: u8 = 2;

/// The status where a module is not accepted.
pub const NOT_ACCEPTED: u8 = 3;

/// The status for what became of a module.
pub fn status_of(outcome: Outcome) -> u8
    ensures { result ≡ status_for outcome }
{
    match outcome {
        Outcome::Written => 0,
        Outcome::Refused => REFUSED,
        Outcome::NotAccepted => NOT_ACCEPTED,
        Outcome::Unread => FAILED,
    }
}

/// The status of a run of which one part would have this status, and another the other.
pub fn status_of_both(one: u8, other: u8) -> u8
    ensures { result ≡ first_status_of one other }
{
    if one == FAILED || other == FAILED {
        FAILED
    } else if one == NOT_ACCEPTED || other == NOT_ACCEPTED {
        NOT_ACCEPTED
    } else if one == REFUSED || other == REFUSED {
        REFUSED
    } else {
        0
    }
}
