//! The replay of a script over a store, and from nothing stored (ours).

ghost use Rattle.std.specs.Prelude.{◌≡◌, ◌≢◌, ◌⊎◌, IfErr, IfOk, IfSome};
ghost use Rattle.std.specs.Io.KnownBytes.{Keeps};
ghost use Rattle.mqtt_rules.specs.step.Laws.{AreWithin, unasked};
ghost use Rattle.mqtt_world_laws.specs.headline.Lives.{BeginsWell};
ghost use Rattle.mqtt_world_model.specs.model.World.{start};
ghost use Rattle.mqtt_replay.specs.playing.Replaying.{lines_of};
ghost use Rattle.mqtt_replay.specs.over_world.Causes.{IsReplayDue, ends_as};
ghost use Rattle.mqtt_replay.specs.over_world.Texts.{FrontOver, FrontText, ReplayText, ReplaysOver, Wrote};

use crate::over_world::playing::Playing;
use mqtt_keep::{Keep, MemKeep};
use mqtt_rules::Limits;
use mqtt_script::{Played, ReplayFault};
use mqtt_world::World;
use mqtt_world_ends::peers::RunFault;
use std::alloc::Global;
use std::hash::RandomState;
use std::io::{Read, Write};

/// Why a world that does not begin ends the replay. Takes no memory.
fn fault_of(fault: RunFault) -> ReplayFault
    ensures { result ≡ ends_as fault }
{
    match fault {
        RunFault::Memory => ReplayFault::Memory,
        RunFault::Store | RunFault::BadEvent { .. } => ReplayFault::Store,
    }
}

/// Replays the script that a reader gives to its end, on a world whose broker is opened over what a store holds, at moment 0
/// (4.1). What is written is the text of a run of the script's events: a line for each, and one for each end and one for the
/// broker behind the last. A line that is no event, or an event that can't happen where it comes, ends it: `Bad` has the number
/// of the line, counted from 1 among all lines, and why it is bad. `Read` (1), `Write` (2), `Memory` (3) and `Store` (4) end it
/// early. Of the script at most a line is held; the world keeps its events. The broker runs with these limits.
pub fn replay_over<K: Keep, R: Read, W: Write>(
    alloc: Global,
    keep: K,
    hasher: RandomState,
    reader: &mut R,
    writer: &mut W,
    limits: Limits,
) -> Result<Played, ReplayFault>
    requires within { AreWithin (unasked limits) }
    ensures ok { IfOk result (λ played. IfSome (R.remaining reader.old) (λ input.
        ReplaysOver K.Keep (unasked limits) keep (lines_of input) (W.contents writer.old) (W.contents writer.new) played)) }
    ensures err { IfErr result (λ fault. fault ≢ ReplayFault.Write
        → IfSome (R.remaining reader.old) (λ input. Keeps (W.contents writer.old) (W.contents writer.new)
        ⊎ FrontOver K.Keep (unasked limits) keep (lines_of input) (W.contents writer.old) (W.contents writer.new))) }

    // `Store` has a cause: the broker was not opened on what is stored, or one that the world tells.
    ensures cause { IfErr result (IsReplayDue K.Keep (unasked limits) keep) }
{
    match World::new(alloc, keep, limits, hasher) {
        Ok(world) => crate::playing::replay(alloc, Playing::new(world), reader, writer),
        Err(fault) => Err(fault_of(fault)),
    }
}

/// The same from nothing stored, in memory, where no store fails: that it ends for its store only if a number would be spent no
/// contract says here.
pub fn replay<R: Read, W: Write>(
    alloc: Global,
    hasher: RandomState,
    reader: &mut R,
    writer: &mut W,
    limits: Limits,
) -> Result<Played, ReplayFault>
    requires within { AreWithin (unasked limits) }
    ensures ok { IfOk result (λ played. IfSome (R.remaining reader.old) (λ input.
        Wrote (λ text. ReplayText (unasked limits) start (lines_of input) text played)
        (W.contents writer.old) (W.contents writer.new))) }
    ensures err { IfErr result (λ fault. fault ≢ ReplayFault.Write
        → IfSome (R.remaining reader.old) (λ input. Wrote (λ text. FrontText (unasked limits) start (lines_of input) text)
        (W.contents writer.old) (W.contents writer.new))) }

    // Nobody is there at first, so exactly-once delivery holds of whatever is replayed.
    ensures untouched { BeginsWell (unasked limits) start }
{
    let keep = MemKeep::new(alloc)?;
    replay_over(alloc, keep, hasher, reader, writer, limits)
}
