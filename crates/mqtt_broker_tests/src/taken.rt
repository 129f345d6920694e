//! Scripts whose broker is opened anew over a database of schema 1, which schema 2 takes over then (MQTT 5.0, 4.1).

use crate::first_schema::create_first;
use crate::judging::{judge, judge_kept};
use crate::run::{Part, Played, play_over, tell_kept};
use crate::telling::Telling;
use mqtt_keep::{KeepError, MemKeep};
use mqtt_store::SqlKeep;
use sqlite::{Alter, Connection, Error, MemStore};
use std::alloc::{AllocError, Global};
use std::hash::RandomState;

/// A script in two parts, between which the broker is closed and opened.
#[derive(Clone, Copy)]
struct Taken {
    before: &'static str,
    /// Statements that give a database of schema 1 the rows that the first part leaves.
    rows: &'static str,
    /// How many rows the tables have once it was taken over.
    begun: &'static str,
    after: &'static str,
    /// And at the end.
    ended: &'static str,
}

const IDENTIFIERS: Taken = Taken {
    before: "\
-- twenty identifiers are open
link -> 1
connect 1 p1 -> 1:connected
times 20 on 1 340a 0003612f62 % 00 6869 -> accepted=20 1:5003001410
on 1 340a 0003612f62 0015 00 6869 -> 1:e00193 closed=1
",
    rows: "\
UPDATE meta SET n = 1 WHERE name = 'births';
UPDATE meta SET n = 20 WHERE name = 'publications';
INSERT INTO session VALUES (1, 'p1', 4294967295, 0);
INSERT INTO inbound WITH RECURSIVE n (i) AS (SELECT 1 UNION ALL SELECT i + 1 FROM n WHERE i < 20) SELECT 1, i FROM n
",
    begun: " message 0 queued 0 kept 0 copy 0 retained 0",
    after: "\
-- twenty identifiers stay open when their store is taken over
link -> 1
connect 1 p1 -> 1:resumed
times 20 on 1 3c0a 0003612f62 % 00 6869 -> 1:50020014
on 1 3209 0003612f62 0015 00 21 -> 1:e00193 closed=1
",
    ended: " message 0 queued 0 kept 0 copy 0 retained 0",
};

const SENT: Taken = Taken {
    before: "\
-- a copy was sent
link -> 1
connect 1 r1 -> 1:connected
on 1 8209 0001 00 0003612f62 02 -> 1:900400010002
link -> 2
connect 2 p1 -> 2:connected
on 2 340a 0003612f62 000a 00 6869 -> accepted=1 entered=1>r1 2:5002000a
pump 1 -> 1:340a0003612f620001006869
",
    rows: "\
UPDATE meta SET n = 2 WHERE name = 'births';
UPDATE meta SET n = 1 WHERE name = 'publications';
UPDATE meta SET n = 1 WHERE name = 'subscribes';
INSERT INTO session VALUES (1, 'r1', 4294967295, NULL), (2, 'p1', 4294967295, NULL);
INSERT INTO sub VALUES (1, 'a/b', 1, 2, 0, 0, 0, 0);
INSERT INTO inbound VALUES (2, 10);
INSERT INTO copy VALUES (1, 1, 1, 0, '', 0, 1, 1, NULL, 'a/b', 2, 0, x'00', x'6869', 0)
",
    begun: " message 1 queued 1 kept 0 copy 0 retained 0",
    after: "\
-- a copy is sent again with its identifier when its store was taken over
link -> 1
on 1 1014 00044d515454 05 00 0000 05 11ffffffff 00027231 -> 1:resumed
pump 1 -> 1:3c0a0003612f620001006869
pump 1
on 1 50020001 -> 1:62020001
restart
link -> 1
connect 1 r1 -> 1:resumed 1:62020001
pump 1
on 1 70020001 -> ended=1>r1:Taken
",
    ended: " message 0 queued 0 kept 0 copy 0 retained 0",
};

const RETAINED: Taken = Taken {
    before: "\
-- two copies of a retained message wait
link -> 1
connect 1 r1 -> 1:connected
on 1 8209 0001 00 0003612f62 02 -> 1:900400010002
link -> 2
connect 2 r2 -> 2:connected
on 2 8209 0001 00 0003612f62 02 -> 2:900400010002
link -> 3
connect 3 p1 -> 3:connected
on 3 350a 0003612f62 000a 00 6869 -> accepted=1 entered=1>r1 entered=1>r2 3:5002000a
",
    rows: "\
UPDATE meta SET n = 3 WHERE name = 'births';
UPDATE meta SET n = 1 WHERE name = 'publications';
UPDATE meta SET n = 2 WHERE name = 'subscribes';
INSERT INTO session VALUES (1, 'r1', 4294967295, NULL), (2, 'r2', 4294967295, NULL), (3, 'p1', 4294967295, NULL);
INSERT INTO sub VALUES (1, 'a/b', 1, 2, 0, 0, 0, 0), (2, 'a/b', 2, 2, 0, 0, 0, 0);
INSERT INTO inbound VALUES (3, 10);
INSERT INTO copy VALUES (1, 1, 1, 0, '', 0, NULL, 0, NULL, 'a/b', 2, 0, x'00', x'6869', 0);
INSERT INTO copy VALUES (2, 1, 1, 0, '', 0, NULL, 0, NULL, 'a/b', 2, 0, x'00', x'6869', 0);
INSERT INTO retained VALUES (1, 'a/b', 'p1', 1, 2, x'00', x'6869', 0)
",
    begun: " message 1 queued 2 kept 1 copy 0 retained 0",
    after: "\
-- a message goes with its copies and its retained message when its store was taken over
link -> 1
connect 1 r1 -> 1:resumed
pump 1 -> 1:340a0003612f620001006869
on 1 50020001 -> 1:62020001
on 1 70020001 -> ended=1>r1:Taken
link -> 2
connect 2 r2 -> 2:resumed
pump 2 -> 2:340a0003612f620001006869
on 2 50020001 -> 2:62020001
on 2 70020001 -> ended=1>r2:Taken
link -> 3
connect 3 p1 -> 3:resumed
on 3 3106 0003612f62 00 -> accepted=2 1:30060003612f6200 2:30060003612f6200
",
    ended: " message 0 queued 0 kept 0 copy 0 retained 0",
};

/// Makes the tables of schema 1, with these rows; answers whether they are made.
fn fill<S: Alter>(conn: &mut Connection<S>, rows: &str) -> bool {
    create_first(conn).is_ok() && conn.execute_batch(rows).is_ok()
}

/// A store over a database of schema 1 with these rows, in memory.
fn first_store(alloc: Global, rows: &str) -> Result<SqlKeep<MemStore>, KeepError> {
    let mut conn = Connection::open_in_memory(alloc)?;
    if !fill(&mut conn, rows) {
        drop(conn);
        return Err(KeepError::Disk);
    }
    match SqlKeep::new(alloc, conn) {
        Ok(keep) => Ok(keep),
        Err((_, store)) => {
            drop(store);
            Err(KeepError::Disk)
        }
    }
}

/// The number that a query finds.
pub(crate) fn number<S: Alter>(conn: &mut Connection<S>, sql: &str) -> Result<i64, Error> {
    conn.query_row(sql, &[])?.get(0)
}

/// Tells how many rows the tables have of messages and of what refers to them, and those of schema 1.
fn tell_counts<S: Alter>(told: &mut Telling, conn: &mut Connection<S>) {
    for (name, sql) in [
        (" message ", "SELECT count(*) FROM message"),
        (" queued ", "SELECT count(*) FROM queued"),
        (" kept ", "SELECT count(*) FROM kept"),
        (" copy ", "SELECT count(*) FROM copy"),
        (" retained ", "SELECT count(*) FROM retained"),
    ] {
        match number(conn, sql) {
            Ok(count) => told.pair(name, u64::try_from(count).unwrap_or(u64::MAX)),
            Err(_) => told.word(" no table"),
        }
    }
}

/// Says if the tables have something else than so many rows.
fn judge_counts<S: Alter>(
    wrong: &mut Telling,
    alloc: Global,
    conn: &mut Connection<S>,
    counts: &str,
) {
    let mut told = Telling::new(alloc);
    tell_counts(&mut told, conn);
    if told.is_short() {
        wrong.shorten();
    } else if told.as_str() != counts {
        wrong.word("the tables have");
        wrong.word(told.as_str());
        wrong.word("\n");
    }
    drop(told);
}

/// Says if a load takes over something else than was kept.
fn judge_begun(wrong: &mut Telling, alloc: Global, taken: &Taken, kept: &str) {
    match first_store(alloc, taken.rows) {
        Ok(keep) => {
            let mut keep = keep;
            let mut told = Telling::new(alloc);
            tell_kept(alloc, &mut told, &mut keep);
            if told.is_short() {
                wrong.shorten();
            } else if told.as_str() != kept {
                wrong.word("schema 1 has ");
                wrong.word(told.as_str());
                wrong.word("\n");
            }
            drop(told);
            let mut conn = keep.into_inner();
            judge_counts(wrong, alloc, &mut conn, taken.begun);
            drop(conn);
        }
        Err(_) => wrong.word("a store of schema 1 isn't made\n"),
    }
}

/// Says if the second part over a store of schema 1 tells something else than it says, or leaves something else than this.
fn judge_after(wrong: &mut Telling, alloc: Global, hasher: RandomState, taken: &Taken, kept: &str) {
    match first_store(alloc, taken.rows) {
        Ok(keep) => {
            let (keep, played) = play_over(alloc, hasher, keep, taken.after, Part::whole());
            judge(wrong, taken.after, &played);
            judge_kept(wrong, taken.after, &played, kept);
            drop(played);
            let mut conn = keep.into_inner();
            judge_counts(wrong, alloc, &mut conn, taken.ended);
            drop(conn);
        }
        Err(_) => wrong.word("a store of schema 1 isn't made\n"),
    }
}

/// Both parts over a store in memory.
fn play_parts(
    alloc: Global,
    hasher: RandomState,
    taken: &Taken,
) -> Result<(Played, Played), AllocError> {
    let (keep, before) = play_over(
        alloc,
        hasher,
        MemKeep::new(alloc)?,
        taken.before,
        Part::whole(),
    );
    let (keep, after) = play_over(alloc, hasher, keep, taken.after, Part::whole());
    drop(keep);
    Ok((before, after))
}

/// Says if a script isn't played as it says, over a store in memory and over one that is taken over between its parts.
fn judge_one(wrong: &mut Telling, alloc: Global, hasher: RandomState, taken: &Taken) {
    match play_parts(alloc, hasher, taken) {
        Ok((before, after)) => {
            judge(wrong, taken.before, &before);
            judge(wrong, taken.after, &after);
            if before.kept.is_short() || after.kept.is_short() {
                wrong.shorten();
            }
            judge_begun(wrong, alloc, taken, before.kept.as_str());
            judge_after(wrong, alloc, hasher, taken, after.kept.as_str());
            drop(before);
            drop(after);
        }
        Err(_) => wrong.shorten(),
    }
}

/// Says if a broker that is opened over a store of schema 1 goes on otherwise than over any other.
pub(crate) fn judge_taken(wrong: &mut Telling, alloc: Global, hasher: RandomState) {
    for taken in [IDENTIFIERS, SENT, RETAINED] {
        judge_one(wrong, alloc, hasher, &taken);
    }
}
