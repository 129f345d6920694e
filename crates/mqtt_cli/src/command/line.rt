//! What a command line asks for, and why it asks for nothing (ours).

ghost use Rattle.std.specs.Prelude.{◌≡◌};

use crate::viewer::Details;
use mqtt_link::Commit;
use mqtt_rules::{Capacity, Limits};
use std::alloc::AllocError;
use std::net::SocketAddrV4;
use thiserror::Error;

/// What a command line asks for. Its texts lie in the words.
#[derive(Clone, Copy, Debug, PartialEq, Eq)]
pub enum Action<'a> {
    /// `view [--payload] [--properties] [--json] FILE`
    View {
        /// The path of the input; `-` is standard input.
        file: &'a str,
        /// What the lines show beside the fields.
        details: Details,
    },
    /// `replay [--full refuse|drop] [--queue N] [--sessions N] [--retained N] FILE`
    Replay {
        /// The path of the script; `-` is standard input.
        file: &'a str,
        /// The limits of the broker's tables.
        limits: Limits,
    },
    /// `vectors`
    Vectors,
    /// `serve --listen ADDR --db FILE --turns N [--commit turn|step] [--log] [--full refuse|drop] [--queue N] [--sessions N]
    /// [--retained N] [--connections N]`
    Serve {
        /// Where to listen.
        listen: SocketAddrV4,
        /// The path of the database.
        db: &'a str,
        /// How many turns, at least 1.
        turns: u32,
        /// The limits of the broker's tables, and how many lines are linked at one time.
        limits: Capacity,
        /// When the steps are stored.
        commit: Commit,
        /// Whether standard error tells more than the one line of the exit status.
        log: bool,
    },
}

/// Why a command line asks for nothing.
#[derive(Debug, Drop, Error)]
pub enum LineFault {
    /// 1: the words are no command of ours, or a call for help; with the text that says so.
    #[error("{0}")]
    Usage(String),
    /// 2: want of memory.
    #[error("want of memory")]
    Memory,
    /// 3: the words are a call for the version.
    #[error("a call for the version")]
    Version,
}

impl From<AllocError> for LineFault {
    ghost use Rattle.mqtt_cli.specs.declared.command.line.LineFault.TheVariants.{Memory};

    ghost from_gives = { λ _ e. e ≡ Memory };

    fn from(_error: AllocError) -> LineFault {
        LineFault::Memory
    }
}
