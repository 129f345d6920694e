//! What becomes of sessions and their Wills, a line an event (MQTT 5.0, 3.1.2.4, 3.1.2.5, 3.1.2.11.2, 3.1.3.2.2, 4.1).
ghost use Rattle.std.specs.Prelude.{◌≡◌, Some};
ghost use Rattle.mqtt_serve.specs.journal.Lines.{session_end_text, session_text, will_cause_text};

use crate::journal::line_event::Client;
use std::fmt;

/// Why a session ended (4.1).
#[derive(Clone, Copy, Debug, PartialEq, Eq)]
pub enum SessionEnd {
    /// Its client connected with Clean Start 1 (3.1.2.4).
    CleanStart,
    /// Its connection closed, and its Session Expiry Interval was 0 (3.1.2.11.2).
    Closed,
    /// Its Session Expiry Interval passed (3.1.2.11.2).
    Expired,
}

impl fmt::Display for SessionEnd {
    ghost output = { λ why. Some (session_end_text why) };

    fn fmt<W: fmt::Write>(&self, f: &mut fmt::Formatter<W>) -> fmt::Result {
        match self {
            SessionEnd::CleanStart => f.write_str("clean-start"),
            SessionEnd::Closed => f.write_str("closed"),
            SessionEnd::Expired => f.write_str("expired"),
        }
    }
}

/// Why a Will was published (3.1.2.5).
#[derive(Clone, Copy, Debug, PartialEq, Eq)]
pub enum WillCause {
    /// Its connection closed.
    Closed,
    /// Its connection closed before, and its Will Delay Interval passed, or that of its session (3.1.3.2.2).
    Delay,
    /// Its session ended before its Will Delay Interval passed (3.1.3.2.2).
    SessionEnded,
}

impl fmt::Display for WillCause {
    ghost output = { λ why. Some (will_cause_text why) };

    fn fmt<W: fmt::Write>(&self, f: &mut fmt::Formatter<W>) -> fmt::Result {
        match self {
            WillCause::Closed => f.write_str("closed"),
            WillCause::Delay => f.write_str("delay"),
            WillCause::SessionEnded => f.write_str("session-ended"),
        }
    }
}

/// What becomes of a session, or of its Will.
#[derive(Clone, Copy, Debug)]
pub enum SessionEvent<'a> {
    /// A session ended (4.1).
    Ended {
        /// Its client.
        client: Client<'a>,
        /// Why.
        why: SessionEnd,
    },
    /// A Will was published (3.1.2.5).
    Will {
        /// Its client.
        client: Client<'a>,
        /// Why.
        why: WillCause,
    },
}

impl fmt::Display for SessionEvent<'_> {
    ghost output = { λ event. Some (session_text event) };

    fn fmt<W: fmt::Write>(&self, f: &mut fmt::Formatter<W>) -> fmt::Result {
        match self {
            SessionEvent::Ended { client, why } => write!(f, "session{client} ended cause={why}"),
            SessionEvent::Will { client, why } => write!(f, "will{client} published cause={why}"),
        }
    }
}
