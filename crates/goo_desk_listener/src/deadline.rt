//! How long a client may take.
ghost use Rattle.std.specs.Prelude.{◌≡◌, ◌-◌, ◌+◌, ◌*◌, ◌<◌, ◌≤◌, ◌↔◌, max, Some, IfSome, IsNone};
ghost use Rattle.std.specs.Prelude.{IsSome, IsSomeAnd};
ghost use Rattle.std.specs.Duration.{as_nanos};
ghost use Rattle.std.specs.Time.{instant_nanos, FitsClock};

use std::io::{Error, ErrorKind};
use std::time::{Clock, Duration, Instant};

/// How many seconds a client may take to send its request, and how many to take its answer.
const PATIENCE: u64 = 10;

/// The least number of milliseconds that a stream takes as its limit.
const LEAST: u64 = 1;

/// That a call may not begin: time is up, or the clock tells no time. Only a [`Deadline`] tells so.
#[derive(Drop)]
pub struct TimeUp {
    error: Error,
}

impl TimeUp {
    /// The fault of the call.
    pub(crate) fn error(self) -> Error {
        self.error
    }
}

/// The time of a client, which ends ten seconds after its first call.
#[derive(Drop)]
pub(crate) struct Deadline<'a, C: Clock> {
    clock: &'a C,
    until: Option<Instant>,
}

/// The moment that is ten seconds after this one. `None` where the clock counts no further.
fn ten_seconds_after(now: Instant) -> Option<Instant>
    ensures counts { IsSome result ↔ FitsClock (instant_nanos now + 10 * 1_000_000_000) }
    ensures until { IfSome result
        (λ until. instant_nanos until ≡ instant_nanos now + 10 * 1_000_000_000) }
{
    now.checked_add(Duration::from_secs(PATIENCE))
}

/// How long a call may wait from now on: until this moment, or what a stream takes as its least.
/// `None` where the moment has come.
fn time_left(now: Instant, until: Instant) -> Option<Duration>
    ensures late { IsNone result ↔ (instant_nanos until ≤ instant_nanos now) }
    ensures left { IfSome result
        (λ left. as_nanos left ≡ max (instant_nanos until - instant_nanos now) 1_000_000) }
{
    let left = until.saturating_duration_since(now);
    if left.is_zero() {
        return None;
    }
    Some(left.max(Duration::from_millis(LEAST)))
}

impl<'a, C: Clock> Deadline<'a, C> {
    /// The time of a client that begins with its first call.
    pub(crate) fn new(clock: &'a C) -> Self {
        Deadline { clock, until: None }
    }

    /// How long a call at this moment may wait: until time is up, or what a stream takes as its
    /// least. `None` where time is up, or the clock counts no further.
    ///
    /// - `set`, `first`: time is up ten seconds after the first call, and no later call moves that.
    fn left_at(&mut self, now: Instant) -> Option<Duration>
        ensures set { IfSome self.old.until (λ until. self.new.until ≡ Some until) }
        ensures first { IsNone self.old.until → IfSome self.new.until
            (λ until. instant_nanos until ≡ instant_nanos now + 10 * 1_000_000_000) }
        ensures late { IsNone result → FitsClock (instant_nanos now + 10 * 1_000_000_000)
            → IsSomeAnd self.new.until (λ until. instant_nanos until ≤ instant_nanos now) }
        ensures left { IfSome result (λ left. IsSomeAnd self.new.until
            (λ until. (instant_nanos now < instant_nanos until)
            × (as_nanos left ≡ max (instant_nanos until - instant_nanos now) 1_000_000))) }
    {
        let until = match self.until {
            Some(until) => until,
            None => ten_seconds_after(now)?,
        };
        self.until = Some(until);
        time_left(now, until)
    }

    /// How long the next call may wait, by what the clock tells now.
    ///
    /// # Errors
    ///
    /// Where time is up, or the clock counts no further; and where the clock can't be read.
    pub(crate) fn left(&mut self) -> Result<Duration, TimeUp>
        ensures set { IfSome self.old.until (λ until. self.new.until ≡ Some until) }
    {
        match Instant::now(self.clock) {
            Ok(now) => self.left_at(now).ok_or_else(|| TimeUp {
                error: Error::from(ErrorKind::TimedOut),
            }),
            Err(error) => Err(TimeUp { error }),
        }
    }
}
