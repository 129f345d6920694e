//! Scripts over a store in SQL, whose database is in memory (MQTT 5.0, 4.1).
ghost use Rattle.std.specs.Prelude.{OnOk};

use crate::judging::{judge, judge_kept, play_in_memory};
use crate::run::{Part, Played, play_over};
use crate::telling::Telling;
use mqtt_base::LAST_NUMBER;
use mqtt_keep::{Keep, KeepError};
use mqtt_records::{Change, Counter};
use mqtt_store::SqlKeep;
use sqlite::Connection;
use std::alloc::{AllocError, Global};
use std::hash::RandomState;

/// Loads, so that changes can be made.
fn load<K: Keep>(keep: &mut K, alloc: Global) -> Result<(), KeepError>
    ensures { OnOk result (K.Keep.is_loaded keep.new) }
{
    let records = keep.load(alloc)?;
    drop(records);
    Ok(())
}

/// So many publications were numbered.
fn number<K: Keep>(keep: &mut K, alloc: Global, publications: u64) -> Result<(), KeepError> {
    load(keep, alloc)?;
    let changes = [Change::SetCounter {
        counter: Counter::Publications,
        value: publications,
    }];
    let answer = keep.apply(&changes);
    drop(changes);
    answer
}

/// Plays a script over a store, once so many publications were numbered.
fn play_numbered<K: Keep>(
    alloc: Global,
    hasher: RandomState,
    keep: K,
    script: &str,
    part: Part,
    publications: u64,
) -> Result<Played, KeepError> {
    let mut keep = keep;
    let numbered = number(&mut keep, alloc, publications);
    let (keep, played) = play_over(alloc, hasher, keep, script, part);
    drop(keep);
    match numbered {
        Ok(()) => Ok(played),
        Err(fault) => {
            drop(played);
            Err(fault)
        }
    }
}

/// Plays a script over a store in SQL that has nothing yet but so many numbers of publications.
fn play_in_sql(
    alloc: Global,
    hasher: RandomState,
    script: &str,
    part: Part,
    publications: u64,
) -> Result<Played, KeepError> {
    let conn = Connection::open_in_memory(alloc)?;
    match SqlKeep::new(alloc, conn) {
        Ok(keep) => play_numbered(alloc, hasher, keep, script, part, publications),
        Err((_, store)) => {
            drop(store);
            Err(KeepError::Disk)
        }
    }
}

/// Says if a script over a store in SQL tells something else than it says, or leaves something else than these rows.
fn judge_rows(
    wrong: &mut Telling,
    alloc: Global,
    hasher: RandomState,
    script: &str,
    part: Part,
    publications: u64,
    kept: &str,
) {
    match play_in_sql(alloc, hasher, script, part, publications) {
        Ok(played) => {
            judge(wrong, script, &played);
            judge_kept(wrong, script, &played, kept);
            drop(played);
        }
        Err(_) => wrong.word("a store in SQL isn't made\n"),
    }
}

/// The same, if the rows are those that it leaves in a store in memory.
pub(crate) fn judge_in_sql(
    wrong: &mut Telling,
    alloc: Global,
    hasher: RandomState,
    script: &str,
) -> Result<(), AllocError> {
    let played = play_in_memory(alloc, hasher, script, Part::whole())?;
    if played.kept.is_short() {
        wrong.shorten();
    }
    let kept = played.kept.as_str();
    judge_rows(wrong, alloc, hasher, script, Part::whole(), 0, kept);
    drop(played);
    Ok(())
}

/// A client of which each publication is refused, since none can be numbered, and nothing else (3.3).
fn spent() -> &'static str {
    "\
-- a publication that can't be numbered changes nothing
link -> 1
connect 1 c -> 1:connected
on 1 8209 0001 00 0003612f62 02 -> 1:900400010002
+ on 1 3007 0003612f62 00 21 -> Spent
+ on 1 3209 0003612f62 0007 00 21 -> Spent
+ on 1 340a 0003612f62 000a 00 6869 -> Spent
+ on 1 3108 0003612f62 00 6869 -> Spent
on 1 c000 -> 1:d000
pump 1
tick
restart
link -> 1
connect 1 c -> 1:resumed
pump 1
"
}

/// Says if a client that comes when the last publication is numbered isn't refused each of its own, or changes a row by it.
pub(crate) fn judge_spent(wrong: &mut Telling, alloc: Global, hasher: RandomState) {
    match play_in_sql(alloc, hasher, spent(), Part::without(), LAST_NUMBER) {
        Ok(played) => {
            judge(wrong, spent(), &played);
            let kept = played.kept.as_str();
            judge_rows(
                wrong,
                alloc,
                hasher,
                spent(),
                Part::whole(),
                LAST_NUMBER,
                kept,
            );
            drop(played);
        }
        Err(_) => wrong.word("a store in SQL isn't made\n"),
    }
}
