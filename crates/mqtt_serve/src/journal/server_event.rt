//! The server's beginning and end, and its counts, a line an event (ours).
ghost use Rattle.std.specs.Prelude.{◌≡◌, Some};
ghost use Rattle.mqtt_serve.specs.journal.Lines.{bounds_text, end_text, server_text, session_count_text, traffic_text, when_full_text};

use crate::causes::Cause;
use mqtt_base::Escaped;
use std::fmt;
use std::net::SocketAddr;

/// Why the server ends: for a cause, or since it had its turns.
#[derive(Clone, Copy, Debug, PartialEq, Eq)]
pub struct End(pub Option<Cause>);

impl fmt::Display for End {
    ghost output = { λ end. Some (end_text end.0) };

    fn fmt<W: fmt::Write>(&self, f: &mut fmt::Formatter<W>) -> fmt::Result {
        match self.0 {
            Some(cause) => f.write_str(cause.text()),
            None => f.write_str("done"),
        }
    }
}

/// What becomes of a publication for which a queue has no room (ours).
#[derive(Clone, Copy, Debug, PartialEq, Eq)]
pub enum WhenFull {
    /// It is refused.
    Refuse,
    /// The oldest copies that wait give way.
    Drop,
}

impl fmt::Display for WhenFull {
    ghost output = { λ full. Some (when_full_text full) };

    fn fmt<W: fmt::Write>(&self, f: &mut fmt::Formatter<W>) -> fmt::Result {
        match self {
            WhenFull::Refuse => f.write_str("refuse"),
            WhenFull::Drop => f.write_str("drop"),
        }
    }
}

/// What queues and retained messages are held to.
#[derive(Clone, Copy, Debug, PartialEq, Eq)]
pub struct Bounds {
    /// How many copies may wait for a session.
    pub queue: u32,
    /// What becomes of a publication for which there is no room.
    pub full: WhenFull,
    /// How many retained messages may be.
    pub retained: u32,
}

impl fmt::Display for Bounds {
    ghost output = { λ bounds. Some (bounds_text bounds) };

    #[tactic(auto, unfolding(crate::specs::journal::Lines::bounds_text))]
    fn fmt<W: fmt::Write>(&self, f: &mut fmt::Formatter<W>) -> fmt::Result {
        write!(
            f,
            "queue={} full={} retained={}",
            self.queue, self.full, self.retained
        )
    }
}

/// How many sessions stand, and how many may.
#[derive(Clone, Copy, Debug, PartialEq, Eq)]
pub struct SessionCount {
    /// How many stand.
    pub sessions: usize,
    /// How many may.
    pub limit: u32,
}

impl fmt::Display for SessionCount {
    ghost output = { λ count. Some (session_count_text count) };

    #[tactic(auto, unfolding(crate::specs::journal::Lines::session_count_text))]
    fn fmt<W: fmt::Write>(&self, f: &mut fmt::Formatter<W>) -> fmt::Result {
        write!(f, "sessions={} of={}", self.sessions, self.limit)
    }
}

/// What came and went.
#[derive(Clone, Copy, Debug, PartialEq, Eq)]
pub struct Traffic {
    /// How many publications were accepted.
    pub accepted: u64,
    /// How many PUBLISH packets went out.
    pub sent: u64,
    /// How many packets went out.
    pub packets: u64,
}

impl fmt::Display for Traffic {
    ghost output = { λ traffic. Some (traffic_text traffic) };

    #[tactic(auto, unfolding(crate::specs::journal::Lines::traffic_text))]
    fn fmt<W: fmt::Write>(&self, f: &mut fmt::Formatter<W>) -> fmt::Result {
        write!(
            f,
            "accepted={} sent={} packets={}",
            self.accepted, self.sent, self.packets
        )
    }
}

/// What comes about with the server.
#[derive(Clone, Copy, Debug)]
pub enum ServerEvent<'a> {
    /// It listens.
    Start {
        /// Where.
        address: SocketAddr,
        /// The path of its database.
        db: &'a str,
        /// How many sessions stand, and how many may.
        count: SessionCount,
        /// How many copies wait.
        copies: usize,
        /// How many may, and how many retained messages.
        bounds: Bounds,
    },
    /// It ends.
    End {
        /// Why.
        why: End,
    },
    /// What there is now, and what came about since the last counts.
    Counts {
        /// How many connections there are.
        connections: usize,
        /// How many sessions stand.
        sessions: usize,
        /// How many copies wait.
        copies: usize,
        /// What came and went since.
        traffic: Traffic,
    },
    /// So many lines could not be written.
    Unwritten {
        /// How many.
        lines: u64,
    },
}

impl fmt::Display for ServerEvent<'_> {
    ghost output = { λ event. Some (server_text event) };

    fn fmt<W: fmt::Write>(&self, f: &mut fmt::Formatter<W>) -> fmt::Result {
        match self {
            ServerEvent::Start {
                address,
                db,
                count,
                copies,
                bounds,
            } => {
                let db = Escaped(db);
                write!(
                    f,
                    "start {address} db={db} {count} copies={copies} {bounds}"
                )
            }
            ServerEvent::End { why } => write!(f, "end cause={why}"),
            ServerEvent::Counts {
                connections,
                sessions,
                copies,
                traffic,
            } => write!(
                f,
                "counts connections={connections} sessions={sessions} copies={copies} {traffic}"
            ),
            ServerEvent::Unwritten { lines } => write!(f, "unwritten lines={lines}"),
        }
    }
}
