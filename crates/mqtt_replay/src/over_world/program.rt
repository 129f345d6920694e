//! The replay of the script in a file, for the program (ours).

ghost use Rattle.mqtt_rules.specs.step.Laws.{AreWithin, unasked};

use crate::over_world::replaying::replay;
use mqtt_rules::Limits;
use mqtt_script::{Played, ReplayFault};
use std::fs;
use std::hash::RandomState;
use std::io::{ErrorKind, Read, Write};

/// Replays the script that a reader gives.
fn replay_of<R: Read + Drop, W: Write>(
    rt: &HostRuntime,
    mut reader: R,
    writer: &mut W,
    limits: Limits,
) -> Result<Played, ReplayFault>
    requires within { AreWithin (unasked limits) }
{
    match RandomState::new(rt) {
        Ok(hasher) => replay(rt.alloc(), hasher, &mut reader, writer, limits),
        Err(_) => Err(ReplayFault::Memory),
    }
}

/// Replays the script in the file at a path, `-` for standard input, from nothing stored, with these limits. A file that does not
/// open is `Read` (1). What a file holds no contract can say; `replay` says what is written.
pub fn replay_at<W: Write>(
    rt: &HostRuntime,
    file: &str,
    writer: &mut W,
    limits: Limits,
) -> Result<Played, ReplayFault>
    requires within { AreWithin (unasked limits) }
{
    if file == "-" {
        return replay_of(rt, rt.reader(), writer, limits);
    }
    match fs::open(rt, file) {
        Ok(file) => replay_of(rt, file, writer, limits),
        Err(error) if error.kind() == ErrorKind::OutOfMemory => Err(ReplayFault::Memory),
        Err(_) => Err(ReplayFault::Read),
    }
}
