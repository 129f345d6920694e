//! A store of which one call fails, whichever it is: the broker says so until it is opened again, and a whole step is left (MQTT
//! 5.0, 4.1). All scripts are played so, and each call of the store fails in turn, in lines and turns of any number of calls.
//!
//! Of a script with more than `MANY` calls, which repeats one line a thousand times, the first and the last fail and some between:
//! those of one turn are as those of the next.

use crate::counted::{Ask, CountedKeep, Failing};
use crate::judging::{blame, judge, judge_kept, play_in_memory};
use crate::run::{Part, Played, play_over, play_untold, tell_kept};
use crate::telling::Telling;
use mqtt_broker::Keep;
use mqtt_keep::MemKeep;
use std::alloc::{AllocError, Global};
use std::hash::RandomState;

/// A script with more calls of its store than these repeats a line.
const MANY: u64 = 300;

/// How many of its calls fail at the beginning, between and at the end, each.
const FEW: u64 = 8;

/// How the calls of a store fail.
#[derive(Clone, Copy)]
pub(crate) enum Sweep {
    /// Its device fails, the changes made or not.
    Device,
    /// Memory is wanting.
    Memory,
}

/// How many calls of a store failed in turn, by what was asked, and in how many scripts.
#[derive(Clone, Copy)]
pub(crate) struct Counts {
    pub(crate) scripts: u64,
    pub(crate) loads: u64,
    pub(crate) applies: u64,
    pub(crate) contents: u64,
    /// Calls that didn't fail, since they are as others of their script.
    pub(crate) alike: u64,
}

impl Counts {
    /// None.
    pub(crate) fn none() -> Counts {
        Counts {
            scripts: 0,
            loads: 0,
            applies: 0,
            contents: 0,
            alike: 0,
        }
    }

    /// Whether some of each kind failed.
    pub(crate) fn are_all(&self) -> bool {
        self.loads > 0 && self.applies > 0 && self.contents > 0
    }

    /// Counts a call.
    fn count(&mut self, ask: Ask) {
        match ask {
            Ask::Load => self.loads = self.loads.wrapping_add(1),
            Ask::Apply => self.applies = self.applies.wrapping_add(1),
            Ask::Contents => self.contents = self.contents.wrapping_add(1),
        }
    }
}

/// What a store has, and how a broker is opened over it then.
#[derive(Drop)]
struct Found {
    kept: Telling,
    opened: Played,
}

/// Finds that, and lets the store go.
fn find_in<K: Keep>(alloc: Global, hasher: RandomState, keep: K) -> Found {
    let mut keep = keep;
    let mut kept = Telling::new(alloc);
    tell_kept(alloc, &mut kept, &mut keep);
    let (keep, opened) = play_over(alloc, hasher, keep, "", Part::whole());
    drop(keep);
    Found { kept, opened }
}

/// What a store that doesn't fail has once so many calls of the broker were made.
fn find_after(
    alloc: Global,
    hasher: RandomState,
    script: &str,
    calls: u64,
) -> Result<Found, AllocError> {
    let keep = MemKeep::new(alloc)?;
    let (keep, played) = play_untold(alloc, hasher, keep, script, Part::of_calls(calls));
    drop(played);
    Ok(find_in(alloc, hasher, keep))
}

/// Whether a broker is opened over both, and they have the same before and then.
fn are_alike(one: &Found, other: &Found) -> bool {
    one.opened.is_right
        && other.opened.is_right
        && one.kept.as_str() == other.kept.as_str()
        && one.opened.kept.as_str() == other.opened.kept.as_str()
}

/// Plays a script over a store of which a call fails.
fn play_failing(
    alloc: Global,
    hasher: RandomState,
    script: &str,
    until: u64,
    failing: Failing,
) -> Result<(CountedKeep, Played), AllocError> {
    let keep = CountedKeep::new(alloc, until, failing)?;
    Ok(play_untold(alloc, hasher, keep, script, Part::whole()))
}

/// How many calls of the store a script makes.
fn calls_of(alloc: Global, hasher: RandomState, script: &str) -> Result<u64, AllocError> {
    let (keep, played) = play_failing(alloc, hasher, script, u64::MAX, Failing::Before)?;
    drop(played);
    let calls = keep.calls();
    drop(keep);
    Ok(calls)
}

/// Whether a call fails in its turn.
fn is_tried(until: u64, calls: u64) -> bool {
    calls <= MANY
        || until < FEW
        || calls.saturating_sub(until) <= FEW
        || until % (calls / FEW).max(1) == 0
}

/// Says if a broker whose store failed doesn't say so, or not to each further call, or makes a further call of the store.
fn judge_stop(wrong: &mut Telling, script: &str, played: &Played) {
    let told = played.told.as_str();
    if !told.contains("Disk") && !(told.contains("Stopped") && played.refuses_all) {
        blame(
            wrong,
            script,
            played,
            " fails, is not stopped by that, and tells ",
        );
    }
    if played.failures != 1 {
        blame(wrong, script, played, " asks its store again, and tells ");
    }
}

/// Says if the store that failed in a call doesn't have what one has that doesn't fail, before that call or after it.
fn judge_left(
    wrong: &mut Telling,
    alloc: Global,
    hasher: RandomState,
    script: &str,
    keep: CountedKeep,
    played: &Played,
    failing: Failing,
) -> Result<(), AllocError> {
    let calls = if failing == Failing::After {
        played.asked
    } else {
        played.asked.saturating_sub(1)
    };
    let found = find_in(alloc, hasher, keep);
    let due = find_after(alloc, hasher, script, calls)?;
    if !are_alike(&found, &due) {
        blame(wrong, script, played, " leaves part of a step, and tells ");
    }
    drop(found);
    drop(due);
    Ok(())
}

/// Says that of a script; answers what the call was that failed, if there is one.
fn judge_failing(
    wrong: &mut Telling,
    alloc: Global,
    hasher: RandomState,
    script: &str,
    until: u64,
    failing: Failing,
) -> Result<Option<Ask>, AllocError> {
    let (keep, played) = play_failing(alloc, hasher, script, until, failing)?;
    let failed = keep.failed();
    if failed.is_none() {
        drop(keep);
        drop(played);
        return Ok(None);
    }
    judge_stop(wrong, script, &played);
    let judged = judge_left(wrong, alloc, hasher, script, keep, &played, failing);
    drop(played);
    judged?;
    Ok(failed)
}

/// A call fails, its changes not made; and then made, if it makes some.
fn judge_device(
    wrong: &mut Telling,
    counts: &mut Counts,
    alloc: Global,
    hasher: RandomState,
    script: &str,
    until: u64,
) -> Result<(), AllocError> {
    let Some(ask) = judge_failing(wrong, alloc, hasher, script, until, Failing::Before)? else {
        return Ok(());
    };
    counts.count(ask);
    if ask == Ask::Apply {
        judge_failing(wrong, alloc, hasher, script, until, Failing::After)?;
    }
    Ok(())
}

/// Says if a script doesn't tell what it says once a call that was refused for want of memory was asked for again, or was not
/// refused so once, or leaves something else than these rows.
fn judge_again(wrong: &mut Telling, script: &str, played: &Played, kept: &str) {
    judge(wrong, script, played);
    judge_kept(wrong, script, played, kept);
    if played.wanted != 1 {
        blame(wrong, script, played, " is not refused once, and tells ");
    }
}

/// A call is refused for want of memory, once.
fn judge_memory(
    wrong: &mut Telling,
    counts: &mut Counts,
    alloc: Global,
    hasher: RandomState,
    script: &str,
    until: u64,
    kept: &str,
) -> Result<(), AllocError> {
    let (keep, played) = play_failing(alloc, hasher, script, until, Failing::Memory)?;
    let (mut keep, mut played) = (keep, played);
    if let Some(ask) = keep.failed() {
        counts.count(ask);
        tell_kept(alloc, &mut played.kept, &mut keep);
        judge_again(wrong, script, &played, kept);
    }
    drop(keep);
    drop(played);
    Ok(())
}

/// Plays a script as often as there are calls to try.
fn sweep_script(
    wrong: &mut Telling,
    counts: &mut Counts,
    alloc: Global,
    hasher: RandomState,
    script: &str,
    how: Sweep,
    kept: &str,
) -> Result<(), AllocError> {
    let calls = calls_of(alloc, hasher, script)?;
    for until in 0..calls {
        if !is_tried(until, calls) {
            counts.alike = counts.alike.wrapping_add(1);
            continue;
        }
        match how {
            Sweep::Device => judge_device(wrong, counts, alloc, hasher, script, until)?,
            Sweep::Memory => judge_memory(wrong, counts, alloc, hasher, script, until, kept)?,
        }
    }
    counts.scripts = counts.scripts.wrapping_add(1);
    Ok(())
}

/// The same, with the rows that a script leaves whose store doesn't fail.
fn sweep_one(
    wrong: &mut Telling,
    counts: &mut Counts,
    alloc: Global,
    hasher: RandomState,
    script: &str,
    how: Sweep,
) -> Result<(), AllocError> {
    let played = play_in_memory(alloc, hasher, script, Part::whole())?;
    if played.kept.is_short() {
        wrong.shorten();
    }
    let kept = played.kept.as_str();
    let swept = sweep_script(wrong, counts, alloc, hasher, script, how, kept);
    drop(played);
    swept
}

/// Plays scripts so; says what they do that isn't so.
pub(crate) fn sweep_all(
    wrong: &mut Telling,
    counts: &mut Counts,
    alloc: Global,
    hasher: RandomState,
    scripts: &str,
    how: Sweep,
) {
    for script in scripts.split("\n\n") {
        if sweep_one(wrong, counts, alloc, hasher, script, how).is_err() {
            wrong.shorten();
        }
    }
}
