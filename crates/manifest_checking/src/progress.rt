//! A line on a terminal that says how far a run is, where it takes longer than a second.

use manifest_json::Text;
use std::rt::Clock;
use std::time::{Duration, Instant};

/// When the line is first shown, and how often it changes, in milliseconds.
const FIRST: u64 = 1000;

const EACH: u64 = 200;

/// What takes the line away.
const CLEAR: &str = "\r\u{1b}[K";

/// The line, and when it was written.
#[derive(Drop)]
pub(crate) struct Progress {
    /// When the run began; `None` where no line is to be shown.
    start: Option<Instant>,
    next: u64,
    is_shown: bool,
}

/// How many milliseconds a time has.
fn milliseconds(time: Duration) -> u64 {
    let rest = u64::from(time.subsec_millis());
    time.as_secs().saturating_mul(1000).saturating_add(rest)
}

impl Progress {
    /// No line yet; and none ever, unless there is a terminal for it.
    pub(crate) fn new<H: Clock>(rt: &H, has_terminal: bool) -> Progress {
        Progress {
            start: if has_terminal {
                Instant::now(rt).ok()
            } else {
                None
            },
            next: FIRST,
            is_shown: false,
        }
    }

    /// What takes the line away, if it is shown; the empty text if it is not.
    pub(crate) fn clear(&mut self) -> &'static str {
        if !self.is_shown {
            return "";
        }
        self.is_shown = false;
        CLEAR
    }

    /// How long the run takes so far.
    fn elapsed<H: Clock>(&self, rt: &H) -> Option<Duration> {
        match &self.start {
            Some(start) => start.elapsed(rt).ok(),
            None => None,
        }
    }

    /// Writes the line, if it is time.
    pub(crate) fn push_line<H: Clock>(&mut self, rt: &H, out: &mut Text, done: usize, all: usize) {
        let Some(elapsed) = self.elapsed(rt) else {
            return;
        };
        let elapsed = milliseconds(elapsed);
        if elapsed < self.next {
            return;
        }
        self.next = elapsed.saturating_add(EACH);
        self.is_shown = true;
        out.push_str(CLEAR);
        out.push_str("checking ");
        out.push_number(done);
        out.push_str(" of ");
        out.push_number(all);
        out.push_str(" manifests");
    }
}
