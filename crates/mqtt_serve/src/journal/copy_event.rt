//! What comes about with publications and copies, a line an event (MQTT 5.0, 3.1.2.5, 3.3, 4.6).
ghost use Rattle.std.specs.Prelude.{◌≡◌, Some};
ghost use Rattle.mqtt_serve.specs.journal.Lines.{copy_text, copy_loss_text, queue_text};

use crate::journal::line_event::Client;
use mqtt_base::Escaped;
use std::fmt;

/// Why a copy did not reach its client.
#[derive(Clone, Copy, Debug, PartialEq, Eq)]
pub enum CopyLoss {
    /// The queue was full, and it was the oldest that waited (ours).
    Dropped,
    /// Its PUBLISH is larger than the client takes (3.1.2.11.4).
    TooLarge,
    /// Its Message Expiry Interval had passed (3.3.2.3.3).
    Expired,
}

impl fmt::Display for CopyLoss {
    ghost output = { λ loss. Some (copy_loss_text loss) };

    fn fmt<W: fmt::Write>(&self, f: &mut fmt::Formatter<W>) -> fmt::Result {
        match self {
            CopyLoss::Dropped => f.write_str("dropped"),
            CopyLoss::TooLarge => f.write_str("too-large"),
            CopyLoss::Expired => f.write_str("expired"),
        }
    }
}

/// A client whose queue is full, if one is.
#[derive(Clone, Copy, Debug, PartialEq, Eq)]
pub struct FullQueue<'a>(pub Option<&'a str>);

impl fmt::Display for FullQueue<'_> {
    ghost output = { λ queue. Some (queue_text queue) };

    fn fmt<W: fmt::Write>(&self, f: &mut fmt::Formatter<W>) -> fmt::Result {
        match self.0 {
            Some(name) => write!(f, " queue={}", Escaped(name)),
            None => Ok(()),
        }
    }
}

/// What comes about with a publication or a copy. Of each kind at most one is told a second, with the count of those that were not.
#[derive(Clone, Copy, Debug)]
pub enum CopyEvent<'a> {
    /// A publication was refused with 0x97: a queue is full, or there are as many retained messages as may be (ours).
    Full {
        /// Its publisher.
        client: Client<'a>,
        /// A client whose queue is full, if a full queue refuses; none: there are as many retained messages as may be.
        queue: FullQueue<'a>,
        /// How many were not told.
        untold: u64,
    },
    /// A copy ended before its client took it.
    Copy {
        /// Its client.
        client: Client<'a>,
        /// Why.
        why: CopyLoss,
        /// How many were not told.
        untold: u64,
    },
    /// A Will was not accepted (3.1.2.5).
    Will {
        /// Its client.
        client: Client<'a>,
        /// How many were not told.
        untold: u64,
    },
}

impl fmt::Display for CopyEvent<'_> {
    ghost output = { λ event. Some (copy_text event) };

    fn fmt<W: fmt::Write>(&self, f: &mut fmt::Formatter<W>) -> fmt::Result {
        match self {
            CopyEvent::Full {
                client,
                queue,
                untold,
            } => write!(f, "full{client} code=0x97{queue} untold={untold}"),
            CopyEvent::Copy {
                client,
                why,
                untold,
            } => write!(f, "copy{client} {why} untold={untold}"),
            CopyEvent::Will { client, untold } => write!(f, "will{client} refused untold={untold}"),
        }
    }
}
