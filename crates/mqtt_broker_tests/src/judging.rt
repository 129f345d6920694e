//! Whether scripts are played as they say: over a store in memory, with and without what is refused, and over one in SQL.

use crate::run::{Part, Played, play_over};
use crate::sql::judge_in_sql;
use crate::telling::Telling;
use mqtt_keep::MemKeep;
use std::alloc::{AllocError, Global};
use std::hash::RandomState;

/// How scripts are played.
#[derive(Clone, Copy)]
pub enum How {
    /// Over a store in memory.
    InMemory,
    /// The same twice, those of these names alone: both leave the same rows.
    Twice(&'static str),
    /// Over a store in memory, with and without what is refused: both leave the same rows.
    WithRefusals,
    /// Over a store in SQL: each leaves the rows that it leaves in a store in memory.
    InSql,
}

/// Plays a script over a store in memory that has nothing yet.
pub fn play_in_memory(
    alloc: Global,
    hasher: RandomState,
    script: &str,
    part: Part,
) -> Result<Played, AllocError> {
    let (keep, played) = play_over(alloc, hasher, MemKeep::new(alloc)?, script, part);
    drop(keep);
    Ok(played)
}

/// What a script says that happens.
fn name_of(script: &str) -> &str {
    match script.split_once('\n') {
        Some((name, _)) => name,
        None => script,
    }
}

/// Says what a script does that isn't so.
pub(crate) fn blame(wrong: &mut Telling, script: &str, played: &Played, why: &str) {
    wrong.word(name_of(script));
    wrong.pair("\nline ", played.lines as u64);
    wrong.word(why);
    wrong.word(played.told.as_str());
    wrong.word("\n");
    if played.told.is_short() || played.kept.is_short() {
        wrong.shorten();
    }
}

/// Says if a script tells something else than it says, or the store counted a failure.
pub fn judge(wrong: &mut Telling, script: &str, played: &Played) {
    if !played.is_right {
        blame(wrong, script, played, " tells ");
    }
    if played.failures != 0 {
        blame(wrong, script, played, " fails and tells ");
    }
}

/// Says if a script left something else than these rows.
pub fn judge_kept(wrong: &mut Telling, script: &str, played: &Played, kept: &str) {
    if played.kept.as_str() != kept {
        blame(wrong, script, played, " leaves something else, and tells ");
    }
}

/// The same if there was memory for it.
fn judge_played(wrong: &mut Telling, script: &str, played: &Result<Played, AllocError>) {
    match played {
        Ok(played) => judge(wrong, script, played),
        Err(_) => wrong.shorten(),
    }
}

/// Says if a script that was told isn't played as it says.
pub(crate) fn judge_script(
    wrong: &mut Telling,
    alloc: Global,
    hasher: RandomState,
    script: &Telling,
) {
    if script.is_short() {
        wrong.shorten();
    }
    let played = play_in_memory(alloc, hasher, script.as_str(), Part::whole());
    judge_played(wrong, script.as_str(), &played);
    drop(played);
}

fn judge_in_memory(
    wrong: &mut Telling,
    alloc: Global,
    hasher: RandomState,
    script: &str,
) -> Result<(), AllocError> {
    let played = play_in_memory(alloc, hasher, script, Part::whole())?;
    judge(wrong, script, &played);
    drop(played);
    Ok(())
}

/// Says if a script without what is refused leaves something else.
fn judge_without(
    wrong: &mut Telling,
    alloc: Global,
    hasher: RandomState,
    script: &str,
    kept: &str,
) -> Result<(), AllocError> {
    let played = play_in_memory(alloc, hasher, script, Part::without())?;
    judge(wrong, script, &played);
    judge_kept(wrong, script, &played, kept);
    drop(played);
    Ok(())
}

fn judge_refusal(
    wrong: &mut Telling,
    alloc: Global,
    hasher: RandomState,
    script: &str,
) -> Result<(), AllocError> {
    let played = play_in_memory(alloc, hasher, script, Part::whole())?;
    judge(wrong, script, &played);
    if played.kept.is_short() {
        wrong.shorten();
    }
    let judged = judge_without(wrong, alloc, hasher, script, played.kept.as_str());
    drop(played);
    judged
}

fn judge_one(
    wrong: &mut Telling,
    alloc: Global,
    hasher: RandomState,
    script: &str,
    how: How,
) -> Result<(), AllocError> {
    match how {
        How::InMemory => judge_in_memory(wrong, alloc, hasher, script),
        How::Twice(names) if names.contains(name_of(script)) => {
            judge_refusal(wrong, alloc, hasher, script)
        }
        How::WithRefusals => judge_refusal(wrong, alloc, hasher, script),
        How::InSql => judge_in_sql(wrong, alloc, hasher, script),
        How::Twice(_) => Ok(()),
    }
}

/// Plays scripts; says what they do that isn't so.
pub fn judge_all(wrong: &mut Telling, alloc: Global, hasher: RandomState, scripts: &str, how: How) {
    for script in scripts.split("\n\n") {
        if judge_one(wrong, alloc, hasher, script, how).is_err() {
            wrong.shorten();
        }
    }
}
