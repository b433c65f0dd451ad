use super::{Outcome, Progress};
use std::alloc::Global;
use std::cell::Cell;
use std::io;
use std::rt::Clock;
use std::time::Duration;

/// A clock that goes on by 400 milliseconds each time it is read.
#[derive(Drop)]
struct Steady {
    milliseconds: Cell<u64>,
}

impl Clock for Steady {
    fn monotonic(&self) -> io::Result<Duration> {
        let now = self.milliseconds.get();
        self.milliseconds.set(now.saturating_add(400));
        Ok(Duration::from_millis(now))
    }

    fn since_1970(&self) -> io::Result<Duration> {
        self.monotonic()
    }
}

const OUTCOMES: [Outcome; 4] = [
    Outcome::Written,
    Outcome::Refused,
    Outcome::NotAccepted,
    Outcome::Unread,
];

/// What is told of four modules, read at 400, 800, 1200 and 1600 milliseconds.
fn told(alloc: Global, is_watched: bool) -> Vec<u8> {
    let clock = Steady {
        milliseconds: Cell::new(0),
    };
    let mut err = Vec::new(alloc);
    let mut progress = Progress::new(&clock, &mut err, is_watched);
    for outcome in &OUTCOMES {
        progress.add(*outcome);
    }
    progress.finish();
    drop(progress);
    err
}

const LINES: &str = "\
\r3 modules, 2 a second: 1 refused, 1 not accepted, 0 unread\u{1b}[K\
\r4 modules, 2 a second: 1 refused, 1 not accepted, 1 unread\u{1b}[K\n";

#[test]
fn a_run_is_told_once_a_second(rt: HostRuntime) {
    assert_eq!(rt; told(rt.alloc(), true).as_slice(), LINES.as_bytes());
    assert_eq!(rt; told(rt.alloc(), false).as_slice(), b"".as_slice());
}
