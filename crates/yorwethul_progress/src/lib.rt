//! How far a run over many modules has come, for one who watches.
#![tactic(auto)]

use std::fmt;
use std::io::Write;
use std::rt::Clock;
use std::time::Instant;

#[cfg(test)]
mod tests;

/// What became of a module.
#[derive(Clone, Copy, Debug, PartialEq, Eq)]
pub enum Outcome {
    /// It is written.
    Written,
    /// It is refused.
    Refused,
    /// It is not accepted.
    NotAccepted,
    /// The line holds none.
    Unread,
}

/// How many modules were answered, and how.
#[derive(Clone, Copy, Debug, PartialEq, Eq)]
pub struct Counts {
    /// How many lines were answered.
    pub answered: u64,
    /// How many of these hold a module that is refused.
    pub refused: u64,
    /// How many hold one that is not accepted.
    pub not_accepted: u64,
    /// How many hold none.
    pub unread: u64,
}

impl Counts {
    fn none() -> Self {
        Counts {
            answered: 0,
            refused: 0,
            not_accepted: 0,
            unread: 0,
        }
    }

    /// Counts one more. What would be more than 64 bits count stays.
    fn add(&mut self, outcome: Outcome) {
        self.answered = self.answered.saturating_add(1);
        match outcome {
            Outcome::Written => {}
            Outcome::Refused => self.refused = self.refused.saturating_add(1),
            Outcome::NotAccepted => self.not_accepted = self.not_accepted.saturating_add(1),
            Outcome::Unread => self.unread = self.unread.saturating_add(1),
        }
    }
}

/// How far a run has come after so many milliseconds, in one line.
#[derive(Clone, Copy, Debug, PartialEq, Eq)]
pub struct Report {
    /// How many modules were answered, and how.
    pub counts: Counts,
    /// The milliseconds since the run began.
    pub milliseconds: u64,
}

impl Report {
    /// How many modules were answered in a second.
    fn rate(&self) -> u64 {
        self.counts.answered.saturating_mul(1000) / self.milliseconds.max(1)
    }
}

impl fmt::Display for Report {
    fn fmt<W: fmt::Write>(&self, f: &mut fmt::Formatter<W>) -> fmt::Result {
        let Counts {
            answered,
            refused,
            not_accepted,
            unread,
        } = self.counts;
        let rate = self.rate();
        write!(
            f,
            "{answered} modules, {rate} a second: {refused} refused, "
        )?;
        write!(f, "{not_accepted} not accepted, {unread} unread")
    }
}

/// Tells one who watches how far a run has come, by a line that is written again, at most once a
/// second. A clock that can't be read and a failure of the output end it: the run goes on.
#[derive(Drop)]
pub struct Progress<'a, R: Clock, E: Write> {
    rt: &'a R,
    err: &'a mut E,
    /// When it began, if someone watches.
    start: Option<Instant>,
    /// How many seconds had gone by when it was told last.
    told: u64,
    counts: Counts,
}

impl<'a, R: Clock, E: Write> Progress<'a, R, E> {
    /// Begins; without one who watches it tells nothing.
    pub fn new(rt: &'a R, err: &'a mut E, is_watched: bool) -> Self {
        Progress {
            rt,
            err,
            start: begin(rt, is_watched),
            told: 0,
            counts: Counts::none(),
        }
    }

    /// Goes on after a module.
    pub fn add(&mut self, outcome: Outcome) {
        self.counts.add(outcome);
        if let Some(milliseconds) = self.milliseconds() {
            let seconds = milliseconds / 1000;
            if seconds > self.told {
                self.told = seconds;
                self.tell(milliseconds, "");
            }
        }
    }

    /// Tells the end, and ends the line.
    pub fn finish(&mut self) {
        if let Some(milliseconds) = self.milliseconds() {
            self.tell(milliseconds, "\n");
        }
    }

    /// How long it has gone on, if someone watches.
    fn milliseconds(&self) -> Option<u64> {
        let start = self.start?;
        match start.elapsed(self.rt) {
            Ok(elapsed) => u64::try_from(elapsed.as_millis()).ok(),
            Err(_) => None,
        }
    }

    /// Writes the line again, from its begin and up to its end.
    fn tell(&mut self, milliseconds: u64, end: &str) {
        let report = Report {
            counts: self.counts,
            milliseconds,
        };
        let _ = write!(self.err, "\r{report}\u{1b}[K{end}");
        let _ = self.err.flush();
    }
}

fn begin<R: Clock>(rt: &R, is_watched: bool) -> Option<Instant> {
    if is_watched {
        Instant::now(rt).ok()
    } else {
        None
    }
}
