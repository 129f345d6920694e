//! How a line of a script is played (ours).

ghost use Rattle.std.specs.Prelude.{◌≡◌, ◌≢◌, ◌+◌, [], ◌∷◌, OnOk, IfOk, IfErr};
ghost use Rattle.std.specs.Io.KnownBytes.{Appends, Keeps};
ghost use Rattle.mqtt_script.specs.BadLines.{why_no_event};
ghost use Rattle.mqtt_script.specs.Telling.{bad_text};
ghost use Rattle.mqtt_replay.specs.playing.Playing.{IsDue, last_lines};
ghost use Rattle.mqtt_replay.specs.playing.Replaying.{EventShows, LineShows, Shows, ShowsFront};

use crate::playing::runs::Runs;
use crate::playing::script::Script;
use mqtt_script::{
    BadLine, Event, Played, ReplayFault, ScriptFault, event_of, is_passed_over, why_no_event,
};
use std::alloc::Global;
use std::io::Write;

/// Writes a text.
fn write_text<W: Write>(writer: &mut W, text: &[u8]) -> Result<(), ReplayFault>
    ensures ok { OnOk result (Appends (W.contents writer.old) (W.contents writer.new) text.now) }
    ensures fault { IfErr result (λ fault. fault ≡ ReplayFault.Write) }
{
    match writer.write_all(text) {
        Ok(()) => Ok(()),
        Err(_) => Err(ReplayFault::Write),
    }
}

/// An event happens, and its line is written; or the line of one that can't happen there.
fn play_event<P: Runs, W: Write>(
    alloc: Global,
    script: &mut Script<P>,
    event: &Event,
    writer: &mut W,
) -> Result<Played, ReplayFault>
    ensures ok { IfOk result (λ played. EventShows P.play event.now script.old script.new
        (W.contents writer.old) (W.contents writer.new) played) }
    ensures err { IfErr result (λ fault. fault ≢ ReplayFault.Write
        → Keeps (W.contents writer.old) (W.contents writer.new)) }
    ensures cause { IfErr result (IsDue P.play) }
{
    let mut text = String::new(alloc);
    let played = script.happen(&mut text, event)?;
    write_text(writer, text.as_bytes())?;
    Ok(played)
}

/// Writes the line of what is no event, and answers which line of the script is bad, and why.
fn play_bad<P: Runs, W: Write>(
    alloc: Global,
    script: &Script<P>,
    line: &[u8],
    writer: &mut W,
) -> Result<BadLine, ReplayFault>
    ensures number { IfOk result (λ bad. bad.number ≡ script.now.lines + 1) }
    ensures reason { IfOk result (λ bad. bad.reason ≡ why_no_event line.now) }
    ensures ok { OnOk result (Appends (W.contents writer.old) (W.contents writer.new)
        (bad_text (script.now.number + 1))) }
    ensures err { IfErr result (λ fault. fault ≢ ReplayFault.Write
        → Keeps (W.contents writer.old) (W.contents writer.new)) }
    ensures cause { IfErr result (IsDue P.play) }
{
    let mut text = String::new(alloc);
    let bad = script.push_bad(&mut text, why_no_event(line))?;
    write_text(writer, text.as_bytes())?;
    Ok(bad)
}

/// Plays a line: it is passed over, or its event happens, or it is bad.
pub fn play_line<P: Runs, W: Write>(
    alloc: Global,
    script: &mut Script<P>,
    line: &[u8],
    writer: &mut W,
) -> Result<Played, ReplayFault>
    ensures ok { IfOk result (λ played. LineShows P.play line.now script.old script.new
        (W.contents writer.old) (W.contents writer.new) played) }
    ensures err { IfErr result (λ fault. fault ≢ ReplayFault.Write
        → Keeps (W.contents writer.old) (W.contents writer.new)) }
    ensures cause { IfErr result (IsDue P.play) }
{
    if is_passed_over(line) {
        script.pass_over()?;
        return Ok(Played::Whole);
    }
    match event_of(alloc, line) {
        Ok(event) => {
            let played = play_event(alloc, script, &event, writer);
            drop(event);
            played
        }
        Err(ScriptFault::NoEvent) => {
            let bad = play_bad(alloc, script, line, writer)?;
            Ok(Played::Bad(bad))
        }
        Err(ScriptFault::Memory) => Err(ReplayFault::Memory),
    }
}

/// Writes what the world came to.
fn write_last<P: Runs, W: Write>(
    alloc: Global,
    script: &Script<P>,
    writer: &mut W,
) -> Result<(), ReplayFault>
    ensures ok { OnOk result (Appends (W.contents writer.old) (W.contents writer.new)
        (last_lines P.play script.now)) }
    ensures err { IfErr result (λ fault. fault ≢ ReplayFault.Write
        → Keeps (W.contents writer.old) (W.contents writer.new)) }
    ensures cause { IfErr result (IsDue P.play) }
{
    let mut text = String::new(alloc);
    script.push_last(alloc, &mut text)?;
    write_text(writer, text.as_bytes())
}

/// Plays the last line of a script, behind its last line feed, and writes what the world came to.
pub fn play_last<P: Runs, W: Write>(
    alloc: Global,
    script: &mut Script<P>,
    line: &[u8],
    writer: &mut W,
) -> Result<Played, ReplayFault>
    ensures ok { IfOk result (λ played. Shows P.play (line.now ∷ []) script.old
        (W.contents writer.old) (W.contents writer.new) played) }
    ensures err { IfErr result (λ fault. fault ≢ ReplayFault.Write
        → ShowsFront P.play (line.now ∷ []) script.old
        (W.contents writer.old) (W.contents writer.new)) }
    ensures cause { IfErr result (IsDue P.play) }
{
    match play_line(alloc, script, line, writer)? {
        Played::Whole => {
            write_last(alloc, script, writer)?;
            Ok(Played::Whole)
        }
        Played::Bad(bad) => Ok(Played::Bad(bad)),
    }
}
