//! What is asked of the broker in turns, and why a connection is lost (ours).
ghost use Rattle.std.specs.Prelude.{◌≡◌, Some};
ghost use Rattle.mqtt_serve.specs.journal.Lines.{loss_text};

use std::fmt;

/// Why a connection is lost.
#[derive(Clone, Copy, Debug, PartialEq, Eq)]
pub enum Loss {
    /// 1: the other side closed it.
    Closed = 1,
    /// 2: a read or a write failed.
    Failed = 2,
    /// 3: more would wait on it than may.
    Full = 3,
    /// 4: want of memory.
    Memory = 4,
}

impl fmt::Display for Loss {
    ghost output = { λ loss. Some (loss_text loss) };

    fn fmt<W: fmt::Write>(&self, f: &mut fmt::Formatter<W>) -> fmt::Result {
        match self {
            Loss::Closed => f.write_str("closed"),
            Loss::Failed => f.write_str("failed"),
            Loss::Full => f.write_str("too-much-waits"),
            Loss::Memory => f.write_str("memory"),
        }
    }
}

/// A call of the broker.
#[derive(Clone, Copy, Debug)]
pub enum Call<'a> {
    /// It was given bytes that came on a line. It may have taken fewer: the others are given again.
    Piece {
        /// The number of the line.
        line: u64,
        /// The bytes.
        bytes: &'a [u8],
    },
    /// It was to send to a line.
    Pump {
        /// The number of the line.
        line: u64,
    },
    /// It was told that the connection on a line is lost.
    Lost {
        /// The number of the line.
        line: u64,
        /// Why it is lost.
        why: Loss,
    },
    /// A turn of its clock.
    Tick,
}
