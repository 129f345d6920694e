//! What comes about with connections, a line an event (MQTT 5.0, 3.1, 3.2, 3.14).
ghost use Rattle.std.specs.Prelude.{◌≡◌, Some};
ghost use Rattle.mqtt_serve.specs.journal.Lines.{clean_text, close_text, line_text, name_text, present_text, side_text, terms_text};

use crate::journal::call::Loss;
use mqtt_base::Escaped;
use std::fmt;
use std::net::SocketAddr;

/// The other side of a connection.
#[derive(Clone, Copy, Debug, PartialEq, Eq)]
pub struct Peer(pub Option<SocketAddr>);

impl fmt::Display for Peer {
    ghost output = { λ peer. Some (side_text peer) };

    fn fmt<W: fmt::Write>(&self, f: &mut fmt::Formatter<W>) -> fmt::Result {
        match self.0 {
            Some(address) => write!(f, " from {address}"),
            None => f.write_str(" from an unknown address"),
        }
    }
}

/// The client of a connection, if it has said one.
#[derive(Clone, Copy, Debug, PartialEq, Eq)]
pub struct Client<'a>(pub Option<&'a str>);

impl fmt::Display for Client<'_> {
    ghost output = { λ client. Some (name_text client) };

    fn fmt<W: fmt::Write>(&self, f: &mut fmt::Formatter<W>) -> fmt::Result {
        match self.0 {
            Some(name) => write!(f, " client={}", Escaped(name)),
            None => Ok(()),
        }
    }
}

/// Clean Start of a CONNECT (3.1.2.4).
#[derive(Clone, Copy, Debug, PartialEq, Eq)]
pub enum CleanStart {
    /// 0: the session goes on, if one stands.
    No = 0,
    /// 1: the session ends, if one stands, and another begins.
    Yes = 1,
}

impl fmt::Display for CleanStart {
    ghost output = { λ start. Some (clean_text start) };

    fn fmt<W: fmt::Write>(&self, f: &mut fmt::Formatter<W>) -> fmt::Result {
        match self {
            CleanStart::No => f.write_str("0"),
            CleanStart::Yes => f.write_str("1"),
        }
    }
}

/// Session Present of a CONNACK (3.2.2.1.1).
#[derive(Clone, Copy, Debug, PartialEq, Eq)]
pub enum Present {
    /// 0: the session begins.
    No = 0,
    /// 1: it stood before.
    Yes = 1,
}

impl fmt::Display for Present {
    ghost output = { λ present. Some (present_text present) };

    fn fmt<W: fmt::Write>(&self, f: &mut fmt::Formatter<W>) -> fmt::Result {
        match self {
            Present::No => f.write_str("0"),
            Present::Yes => f.write_str("1"),
        }
    }
}

/// Why a connection closed.
#[derive(Clone, Copy, Debug, PartialEq, Eq)]
pub enum Close {
    /// By the client's DISCONNECT, with this Reason Code (3.14.2.1).
    Disconnect(u8),
    /// By the server, with a DISCONNECT of this Reason Code (3.14.2.1).
    Code(u8),
    /// It was lost.
    Lost(Loss),
    /// By the server, without a DISCONNECT.
    Server,
    /// No CONNECT came, or something else did, and nothing was answered (3.1).
    NoConnect,
}

impl fmt::Display for Close {
    ghost output = { λ close. Some (close_text close) };

    fn fmt<W: fmt::Write>(&self, f: &mut fmt::Formatter<W>) -> fmt::Result {
        match self {
            Close::Disconnect(code) => write!(f, "disconnect code=0x{code:x}"),
            Close::Code(code) => write!(f, "0x{code:x}"),
            Close::Lost(loss) => write!(f, "{loss}"),
            Close::Server => f.write_str("server"),
            Close::NoConnect => f.write_str("no-connect"),
        }
    }
}

/// What a client and the server agreed on.
#[derive(Clone, Copy, Debug, PartialEq, Eq)]
pub struct Terms {
    /// Whether its CONNECT ends a session that stands.
    pub clean_start: CleanStart,
    /// Whether its session stood before.
    pub session_present: Present,
    /// Seconds; 0 turns it off (3.1.2.10).
    pub keep_alive: u16,
    /// The Session Expiry Interval, in seconds; 4294967295: it doesn't expire (3.1.2.11.2).
    pub expiry: u32,
}

impl fmt::Display for Terms {
    ghost output = { λ terms. Some (terms_text terms) };

    #[tactic(auto, unfolding(crate::specs::journal::Lines::terms_text))]
    fn fmt<W: fmt::Write>(&self, f: &mut fmt::Formatter<W>) -> fmt::Result {
        write!(
            f,
            " clean-start={} session-present={} keep-alive={} expiry={}",
            self.clean_start, self.session_present, self.keep_alive, self.expiry
        )
    }
}

/// What comes about with a connection.
#[derive(Clone, Copy, Debug)]
pub enum LineEvent<'a> {
    /// A client is connected (3.2).
    Connect {
        /// The number of the line.
        line: u64,
        /// The other side.
        peer: Peer,
        /// The client.
        client: Client<'a>,
        /// What was agreed on.
        terms: Terms,
    },
    /// A CONNECT is refused (3.2.2.2).
    Refuse {
        /// The number of the line.
        line: u64,
        /// The other side.
        peer: Peer,
        /// The Reason Code of CONNACK.
        code: u8,
    },
    /// A connection closed that wasn't refused.
    Close {
        /// The number of the line.
        line: u64,
        /// The other side.
        peer: Peer,
        /// The client.
        client: Client<'a>,
        /// Why.
        why: Close,
    },
    /// A connection came, and is dropped: as many are here as may be.
    Drop {
        /// The other side.
        peer: Peer,
    },
}

impl fmt::Display for LineEvent<'_> {
    ghost output = { λ event. Some (line_text event) };

    fn fmt<W: fmt::Write>(&self, f: &mut fmt::Formatter<W>) -> fmt::Result {
        match self {
            LineEvent::Connect {
                line,
                peer,
                client,
                terms,
            } => write!(f, "connect {line}{peer}{client}{terms}"),
            LineEvent::Refuse { line, peer, code } => write!(
                f,
                "refuse {line}{peer} code=0x{code:x}"
            ),
            LineEvent::Close {
                line,
                peer,
                client,
                why,
            } => write!(f, "close {line}{peer}{client} cause={why}"),
            LineEvent::Drop { peer } => write!(f, "drop{peer}"),
        }
    }
}
