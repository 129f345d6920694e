//! Time in a server (MQTT 5.0, 3.1.2.10).
use crate::serving::callers::{LIMITS, forget, is_answered};
use mqtt_serve::{SteadyClock, Timer};
use sqlite::{Connection, Error};
use std::cell::Cell;
use std::io;
use std::io::ErrorKind;
use std::rt::Clock;
use std::test::Fail;
use std::time::Duration;

/// CONNECT by "k1" with Keep Alive 1.
const CONNECT: &[u8] = b"\x10\x0f\x00\x04MQTT\x05\x02\x00\x01\x00\x00\x02k1";

/// CONNACK, and DISCONNECT for Keep Alive after a second and a half (3.14.2.1).
const SILENCED: &[u8] =
    b"\x20\x0e\x00\x00\x0b\x21\x00\x14\x22\x00\x0a\x27\x00\x01\x00\x00\xe0\x01\x8d";

/// The newest step of a database was a year later than it was.
fn set_forward(rt: &HostRuntime, db: &str) -> Result<(), Error> {
    let mut conn = Connection::open(rt, db)?;
    conn.execute(
        "UPDATE meta SET n = n + 31536000000 WHERE name = 'moment'",
        &[],
    )?;
    conn.close()
}

#[test]
fn idle_turns_wait_and_time_passes_behind_a_stored_moment_that_lies_ahead_too(
    rt: HostRuntime,
) -> Result<(), Fail> {
    let (db, log) = ("ahead.db", "ahead.db-wal");
    forget(&rt, db, log);
    // 240 idle turns of 10 ms each: without waits, or with a clock that stands, they end before Keep Alive does.
    let is_first = is_answered(&rt, db, 240, LIMITS, CONNECT, SILENCED);
    let is_set = set_forward(&rt, db);
    let is_silenced = is_answered(&rt, db, 240, LIMITS, CONNECT, SILENCED);
    forget(&rt, db, log);
    assert!(rt; is_first?);
    assert!(rt; is_set.is_ok());
    assert!(rt; is_silenced?);
    Ok(())
}

/// Clocks that go on by a second a reading; the wall clock is set forward and back by a year each time, and the third reading of
/// the other one fails.
#[derive(Drop)]
struct Jumping {
    seconds: Cell<u64>,
    years: Cell<u64>,
}

impl Clock for Jumping {
    fn monotonic(&self) -> io::Result<Duration> {
        let seconds = self.seconds.get().saturating_add(1);
        self.seconds.set(seconds);
        if seconds == 3 {
            return Err(io::Error::from(ErrorKind::Other));
        }
        Ok(Duration::from_secs(seconds))
    }

    fn since_1970(&self) -> io::Result<Duration> {
        let years = 1 - self.years.get().min(1);
        self.years.set(years);
        Ok(Duration::from_secs(31_536_000 * years))
    }
}

#[test]
fn a_wall_clock_that_is_set_changes_nothing(rt: HostRuntime) {
    let clock = Jumping {
        seconds: Cell::new(0),
        years: Cell::new(0),
    };
    let mut steady = SteadyClock::new(&clock, 5_000);
    assert_eq!(rt; steady.now(), 5_000);
    assert_eq!(rt; steady.now(), 6_000);
    assert_eq!(rt; steady.now(), 6_000, "a reading that fails");
    assert_eq!(rt; steady.now(), 8_000);
}
