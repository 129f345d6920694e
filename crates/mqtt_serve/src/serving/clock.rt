//! The moments of a server, by the runtime's clocks (ours).
ghost use Rattle.std.specs.Prelude.{◌≡◌, ◌≤◌, max, Some, IfOk, IfErr};
ghost use Rattle.mqtt_serve.specs.serving.Clock.{milliseconds, milliseconds_of, moment_after, first_reading};

use crate::turns::Timer;
use mqtt_base::LAST_NUMBER;
use std::io;
use std::rt::Clock;
use std::time::{Duration, SystemTime};

/// Whole milliseconds since 1970, at most 2^62.
fn milliseconds(time: SystemTime) -> u64
    ensures { result ≡ milliseconds time }
{
    match time.duration_since(SystemTime::UNIX_EPOCH) {
        Ok(since) => match u64::try_from(since.as_millis()) {
            Ok(count) => count.min(LAST_NUMBER),
            Err(_) => LAST_NUMBER,
        },
        Err(_) => 0,
    }
}

/// The moment of a reading: never one before the last, and the last if the clock failed.
fn moment_of(reading: io::Result<SystemTime>, last: u64) -> u64
    ensures read { IfOk reading (λ time. result ≡ max last (milliseconds time)) }
    ensures failed { IfErr reading (λ _. result ≡ last) }
{
    match reading {
        Ok(time) => last.max(milliseconds(time)),
        Err(_) => last,
    }
}

/// Whole milliseconds since 1970 by the wall clock, at most 2^62 and never before the last moment, which stays if the
/// clock fails.
pub(crate) fn moment(rt: &impl Clock, last: u64) -> u64
    ensures late { last ≤ result }
    ensures within { last ≤ LAST_NUMBER → result ≤ LAST_NUMBER }
{
    moment_of(SystemTime::now(rt), last)
}

/// Whole milliseconds of a time, at most 2^62.
fn milliseconds_of(time: Duration) -> u64
    ensures { result ≡ milliseconds_of time }
{
    match u64::try_from(time.as_millis()) {
        Ok(count) => count.min(LAST_NUMBER),
        Err(_) => LAST_NUMBER,
    }
}

/// Moments that go on from a first one as a clock goes on from its first reading.
#[derive(Drop)]
struct Steady {
    begin: u64,
    first: Option<u64>,
    last: u64,
}

impl Steady {
    /// The moment of a reading; if the clock failed the last one.
    fn tell(&mut self, reading: io::Result<Duration>) -> u64
        ensures read { IfOk reading (λ time. (result ≡ moment_after self.old.begin self.old.first (milliseconds_of time))
            × (self.new.first ≡ Some (first_reading self.old.first (milliseconds_of time)))) }
        ensures failed { IfErr reading (λ _. (result ≡ self.old.last) × (self.new.first ≡ self.old.first)) }
        ensures last { self.new.last ≡ result }
        ensures same { self.new.begin ≡ self.old.begin }
    {
        if let Ok(time) = reading {
            let reading = milliseconds_of(time);
            let first = self.first.unwrap_or(reading);
            self.first = Some(first);
            let passed = reading.saturating_sub(first);
            self.last = self.begin.saturating_add(passed).min(LAST_NUMBER);
        }
        self.last
    }
}

/// A clock that goes on from a moment by a clock of the runtime that never jumps, from its first reading on. The wall clock is
/// not looked at.
#[derive(Drop)]
pub struct SteadyClock<'a, R: Clock> {
    rt: &'a R,
    steady: Steady,
}

impl<'a, R: Clock> SteadyClock<'a, R> {
    /// A clock that begins at a moment. None that it tells is above 2^62.
    pub fn new(rt: &'a R, begin: u64) -> SteadyClock<'a, R> {
        let steady = Steady {
            begin,
            first: None,
            last: begin,
        };
        SteadyClock { rt, steady }
    }
}

impl<R: Clock> Timer for SteadyClock<'_, R> {
    fn now(&mut self) -> u64 {
        self.steady.tell(self.rt.monotonic())
    }
}
