//! How a script is replayed, in whatever pieces it comes (ours).

ghost use Rattle.std.specs.Prelude.{◌≡◌, ◌≢◌, ◌<◌, ℕ, List, [], ◌++◌, length, IfOk, IfErr, IfSome};
ghost use Rattle.mqtt_replay.specs.playing.Playing.{IsDue};
ghost use Rattle.mqtt_replay.specs.playing.Replaying.{IsPlain, PieceShows, Replays, ReplaysFront, Shows, ShowsFront, lines_of};

use crate::playing::playing::{play_last, play_line};
use crate::playing::runs::Runs;
use crate::playing::script::Script;
use mqtt_script::{Played, ReplayFault};
use std::alloc::Global;
use std::io::{ErrorKind, Read, Write};

/// The most bytes that one read takes.
const CHUNK_SIZE: usize = 4_096;

/// Replays the script that a reader gives to its end on a world, and writes the text of it: a line for each event, and
/// one for each end and one for the broker behind the last; a line that is no event, or an event that can't happen
/// there, ends it: `Bad` has the number of the line, and why it is bad. A read that was interrupted is tried again.
/// However long the script is, at most a line of it is held, and the ends that it makes.
pub fn replay<P: Runs, R: Read, W: Write>(
    alloc: Global,
    world: P,
    reader: &mut R,
    writer: &mut W,
) -> Result<Played, ReplayFault>
    ensures ok { IfOk result (λ played. IfSome (R.remaining reader.old) (λ input.
        Replays P.play world input (W.contents writer.old) (W.contents writer.new) played)) }
    ensures err { IfErr result (λ fault. fault ≢ ReplayFault.Write
        → IfSome (R.remaining reader.old) (λ input.
        ReplaysFront P.play world input (W.contents writer.old) (W.contents writer.new))) }
    ensures cause { IfErr result (IsDue P.play) }
{
    let mut chunk = [0u8; CHUNK_SIZE];
    let mut held = Vec::new(alloc);
    let mut script = Script::new(alloc, world);
    let played = replay_by(alloc, &mut script, &mut held, &mut chunk, reader, writer);
    drop(script);
    drop(held);
    played
}

/// The same, by reads of at most a chunk, if no byte is held.
fn replay_by<P: Runs, R: Read, W: Write>(
    alloc: Global,
    script: &mut Script<P>,
    held: &mut Vec<u8>,
    chunk: &mut [u8],
    reader: &mut R,
    writer: &mut W,
) -> Result<Played, ReplayFault>
    requires room { 0 < length chunk.old }
    requires start { held.old.items ≡ [] }
    ensures ok { IfOk result (λ played. IfSome (R.remaining reader.old) (λ input.
        Shows P.play (lines_of input) script.old
        (W.contents writer.old) (W.contents writer.new) played)) }
    ensures err { IfErr result (λ fault. fault ≢ ReplayFault.Write
        → IfSome (R.remaining reader.old) (λ input. ShowsFront P.play (lines_of input) script.old
        (W.contents writer.old) (W.contents writer.new))) }
    ensures cause { IfErr result (IsDue P.play) }
{
    for _ in 0..u64::MAX {
        let count = match reader.read(chunk) {
            Ok(count) => count,
            Err(error) if error.kind() == ErrorKind::Interrupted => continue,
            Err(_) => return Err(ReplayFault::Read),
        };
        if count == 0 {
            return play_last(alloc, script, held.as_slice(), writer);
        }
        match play_piece(alloc, script, held, &chunk[..count], writer)? {
            Played::Whole => {}
            Played::Bad(bad) => return Ok(Played::Bad(bad)),
        }
    }
    Err(ReplayFault::Read)
}

/// Plays the lines that are whole in the next piece of a script, behind the bytes that are held; what is behind its
/// last line feed is held then.
fn play_piece<P: Runs, W: Write>(
    alloc: Global,
    script: &mut Script<P>,
    held: &mut Vec<u8>,
    piece: &[u8],
    writer: &mut W,
) -> Result<Played, ReplayFault>
    requires plain { IsPlain held.old.items }
    ensures ok { IfOk result (λ played. PieceShows P.play held.old.items piece.now held.new.items
        script.old script.new (W.contents writer.old) (W.contents writer.new) played) }
    ensures err { IfErr result (λ fault. fault ≢ ReplayFault.Write → (more : List ℕ)
        → ShowsFront P.play (lines_of (held.old.items ++ (piece.now ++ more))) script.old
        (W.contents writer.old) (W.contents writer.new)) }
    ensures cause { IfErr result (IsDue P.play) }
{
    let mut rest = piece;
    while let Some((byte, after)) = rest.split_first() {
        if *byte == b'\n' {
            match play_line(alloc, script, held.as_slice(), writer)? {
                Played::Whole => held.clear(),
                Played::Bad(bad) => return Ok(Played::Bad(bad)),
            }
        } else {
            held.push(*byte)?;
        }
        rest = after;
    }
    Ok(Played::Whole)
}
