//! All that is asked of the broker over stores in memory, in SQL, and over stores of which a call fails (MQTT 5.0, 2.1, 3, 4).

use crate::costly::judge_costly;
use crate::drained::judge_drained;
use crate::failing::{Counts, Sweep, sweep_all};
use crate::judging::{How, judge_all};
use crate::scripts::{
    clients, closing, filters, publishing, receiving, refusing, reopening, turning,
};
use crate::sql::judge_spent;
use crate::sweeps::judge_sweeps;
use crate::tables::judge_tables;
use crate::taken::judge_taken;
use crate::telling::Telling;
use std::alloc::{AllocError, Global};
use std::hash::RandomState;
use std::test::Fail;

/// What is asked.
#[derive(Clone, Copy)]
pub enum What {
    /// Whether scripts tell what they say.
    Scripts,
    /// Whether what is refused changes nothing else.
    Refusals,
    /// Whether scripts tell what they say over a store in SQL, and leave the rows that they leave in memory.
    InSql,
    /// Whether a broker's steps leave the rows in the tables that they should, and changed tables are refused.
    Tables,
    /// Whether a broker that is opened over a store of schema 1 goes on as over any other, and the store is taken over.
    TakenOver,
    /// Whether nothing changes in a store in SQL, if no publication can be numbered any more.
    Spent,
    /// Whether what memory was wanting for is done when it is asked again, and leaves the same rows: to be run with each
    /// growth refused in turn.
    Wanting,
    /// Whether cut and changed frames are taken as the framer alone takes them, as a line's first bytes and behind a CONNECT.
    Frames,
    /// Whether a SUBSCRIBE of 64 KB gets all that is retained for each of its filters.
    Costly,
    /// Whether a queue of a thousand copies is drained sixteen at a time, with a question to the store for each 64.
    Drained,
}

/// Scripts that are short enough to be played once for each of their growths.
const SHORT: &str = "\
-- a client without a name is given one
-- a publisher comes on a new line, and its old line is read first
-- a publisher comes on a new line, and its CONNECT is read first
-- a Will waits for its delay or for its session's end, whichever is first
-- a restart closes every session that was connected
-- overlapping subscriptions make one copy with all identifiers
-- members of a group take turns
-- twenty identifiers may be open, and stay so over a restart
-- an alias stands for its topic
-- the oldest copy that waits gives way in a queue that drops
-- a retained message goes to who subscribes later, until an empty one comes
-- a copy is sent again with its identifier after a restart
-- a receiver that takes one alias is told one, and again on its next connection
-- in a pump what goes out tells its topic to the copies behind it, and on a line where nothing was told they are too large
-- a copy that waits expires
-- a copy that was sent in time does not expire
";

/// Plays the scripts of what isn't refused.
fn judge_subjects(wrong: &mut Telling, alloc: Global, hasher: RandomState, how: How) {
    judge_all(wrong, alloc, hasher, clients(), how);
    judge_all(wrong, alloc, hasher, closing(), how);
    judge_all(wrong, alloc, hasher, filters(), how);
    judge_all(wrong, alloc, hasher, publishing(), how);
    judge_all(wrong, alloc, hasher, receiving(), how);
    judge_all(wrong, alloc, hasher, reopening(), how);
    judge_all(wrong, alloc, hasher, turning(), how);
}

/// Says what isn't so.
fn judge_what(
    wrong: &mut Telling,
    script: &mut Telling,
    alloc: Global,
    hasher: RandomState,
    what: What,
) {
    match what {
        What::Scripts => judge_subjects(wrong, alloc, hasher, How::InMemory),
        What::Refusals => judge_all(wrong, alloc, hasher, refusing(), How::WithRefusals),
        What::InSql => {
            judge_subjects(wrong, alloc, hasher, How::InSql);
            judge_all(wrong, alloc, hasher, refusing(), How::InSql);
        }
        What::Tables => judge_tables(wrong, alloc, hasher),
        What::TakenOver => judge_taken(wrong, alloc, hasher),
        What::Spent => judge_spent(wrong, alloc, hasher),
        What::Wanting => judge_subjects(wrong, alloc, hasher, How::Twice(SHORT)),
        What::Frames => judge_sweeps(wrong, script, alloc, hasher),
        What::Costly => judge_costly(wrong, script, alloc, hasher),
        What::Drained => judge_drained(wrong, alloc, hasher),
    }
}

/// Fails if memory was wanting, since what was said may be cut short then; else by what was said.
fn verdict_of(wrong: &Telling) -> Result<(), Fail> {
    if wrong.is_short() {
        Err(Fail::from(AllocError))
    } else if wrong.as_str() != "" {
        Err(Fail::new(wrong.as_str()))
    } else {
        Ok(())
    }
}

/// Fails by the first scripts, names and lines, that aren't played as they say.
pub fn check(alloc: Global, hasher: RandomState, what: What) -> Result<(), Fail> {
    let mut wrong = Telling::new(alloc);
    let mut script = Telling::new(alloc);
    judge_what(&mut wrong, &mut script, alloc, hasher, what);
    drop(script);
    let verdict = verdict_of(&wrong);
    drop(wrong);
    verdict
}

/// Plays all scripts over stores of which a call fails, each in turn, and fails like `check`; answers how many failed so.
pub(crate) fn sweep(alloc: Global, hasher: RandomState, how: Sweep) -> Result<Counts, Fail> {
    let mut wrong = Telling::new(alloc);
    let mut counts = Counts::none();
    for scripts in [
        clients(),
        closing(),
        filters(),
        publishing(),
        receiving(),
        reopening(),
        refusing(),
        turning(),
    ] {
        sweep_all(&mut wrong, &mut counts, alloc, hasher, scripts, how);
    }
    let verdict = verdict_of(&wrong);
    drop(wrong);
    match verdict {
        Ok(()) => Ok(counts),
        Err(fail) => Err(fail),
    }
}
