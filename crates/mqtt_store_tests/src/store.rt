//! A store over a connection: what it finds, and the steps of the course in it.
ghost use Rattle.std.specs.Prelude.{OnOk};
ghost use Rattle.sqlite.specs.Held.{state};
ghost use Rattle.mqtt_store.specs.Holding.{IsLoaded};

use crate::changes::{STEPS, add_changes};
use crate::seen::{Seen, seen, with};
use crate::told::ask_all;
use mqtt_keep::{Keep, KeepError};
use mqtt_store::SqlKeep;
use sqlite::{Alter, Connection, MemStore};
use std::alloc::Global;

/// What is done with a store: it is loaded, makes steps of the course, and is loaded again.
#[derive(Clone, Copy)]
pub(crate) struct Deed {
    /// The steps that are made, from one up to another.
    pub(crate) from: usize,
    pub(crate) to: usize,
    /// How many steps each statement may take, if not any number, in those steps and in a load before them.
    pub(crate) limit: Option<u64>,
}

/// What came about.
#[derive(Clone, Copy)]
pub(crate) struct Told {
    /// What a load answers within the limit.
    pub(crate) limited: Result<Seen, KeepError>,
    /// What one without a limit answers before the steps.
    pub(crate) before: Result<Seen, KeepError>,
    /// What the last step answers that was made.
    pub(crate) made: Result<(), KeepError>,
    /// What a load without a limit answers after the steps.
    pub(crate) after: Result<Seen, KeepError>,
    pub(crate) failures: u64,
}

/// A store that can't be opened: it tells nothing and counts nothing.
const SHUT: Told = Told {
    limited: Err(KeepError::Disk),
    before: Err(KeepError::Disk),
    made: Err(KeepError::Disk),
    after: Err(KeepError::Disk),
    failures: 0,
};

/// Loads: what the slim rows say.
pub(crate) fn load<K: Keep>(keep: &mut K, alloc: Global) -> Result<Seen, KeepError>
    ensures { OnOk result (K.Keep.is_loaded keep.new) }
{
    let records = keep.load(alloc)?;
    let seen = seen(&records);
    drop(records);
    Ok(seen)
}

/// All copies of the sessions of the course: a birth, a place and a limit.
const ALL: [(u64, u64, u32); 2] = [(1, 0, u32::MAX), (2, 0, u32::MAX)];

/// Loads, and asks what the copies say.
pub(crate) fn load_whole<K: Keep>(keep: &mut K, alloc: Global) -> Result<Seen, KeepError>
    ensures { OnOk result (K.Keep.is_loaded keep.new) }
{
    let mut seen = load(keep, alloc)?;
    let told = ask_all(keep, alloc, &ALL)?;
    seen[11] = with(seen[11], told);
    Ok(seen)
}

/// Makes the changes of the course from one number up to another as one step.
fn apply<K: Keep>(keep: &mut K, alloc: Global, from: usize, to: usize) -> Result<(), KeepError>
    requires { K.Keep.is_loaded keep.old }
    ensures { OnOk result (K.Keep.is_loaded keep.new) }
{
    let mut changes = Vec::new(alloc);
    let made = add_changes(&mut changes, alloc, from, to);
    let answer = match made {
        Ok(()) => keep.apply(&changes),
        Err(_) => Err(KeepError::Memory),
    };
    drop(changes);
    answer
}

/// Makes steps of the course, from one up to another, until one isn't made.
pub(crate) fn make<K: Keep>(
    keep: &mut K,
    alloc: Global,
    from: usize,
    to: usize,
) -> Result<(), KeepError>
    requires { K.Keep.is_loaded keep.old }
    ensures { OnOk result (K.Keep.is_loaded keep.new) }
{
    for (from, to) in STEPS.get(from..to).unwrap_or(&[]) {
        apply(keep, alloc, *from, *to)?;
    }
    Ok(())
}

/// Limits the steps of each later statement of a store that was loaded.
fn limit_loaded<S: Alter + Drop>(keep: &mut SqlKeep<S>, limit: Option<u64>)
    requires { IsLoaded (state S.Store keep.old.conn) }
    ensures { IsLoaded (state S.Store keep.new.conn) }
{
    keep.set_step_limit(limit);
}

/// Loads without a limit and makes steps within it.
fn make_within<S: Alter + Drop>(
    keep: &mut SqlKeep<S>,
    alloc: Global,
    deed: Deed,
) -> (Result<Seen, KeepError>, Result<(), KeepError>) {
    keep.set_step_limit(None);
    match load_whole(keep, alloc) {
        Ok(before) => {
            limit_loaded(keep, deed.limit);
            (Ok(before), make(keep, alloc, deed.from, deed.to))
        }
        Err(fault) => (Err(fault), Err(fault)),
    }
}

fn act<S: Alter + Drop>(keep: &mut SqlKeep<S>, alloc: Global, deed: Deed) -> Told {
    keep.set_step_limit(deed.limit);
    let limited = load_whole(keep, alloc);
    let (before, made) = make_within(keep, alloc, deed);
    keep.set_step_limit(None);
    let after = load_whole(keep, alloc);
    Told {
        limited,
        before,
        made,
        after,
        failures: keep.failures(),
    }
}

/// What comes about by a deed in the database of a connection, which is given back; its store alone, if the connection
/// can't be opened anew.
pub(crate) fn act_over<S: Alter + Drop>(
    alloc: Global,
    conn: Connection<S>,
    deed: Deed,
) -> (Told, Result<Connection<S>, S>) {
    match SqlKeep::new(alloc, conn) {
        Ok(keep) => {
            let mut keep = keep;
            let told = act(&mut keep, alloc, deed);
            (told, Ok(keep.into_inner()))
        }
        Err((_, store)) => (SHUT, Err(store)),
    }
}

/// What comes about by a deed in the database of a connection.
pub(crate) fn told_over<S: Alter + Drop>(alloc: Global, conn: Connection<S>, deed: Deed) -> Told {
    let (told, left) = act_over(alloc, conn, deed);
    drop(left);
    told
}

/// The connection that a deed left; Disk if the deed wasn't done.
pub(crate) fn left_of(
    is_done: bool,
    left: Result<Connection<MemStore>, MemStore>,
) -> Result<Connection<MemStore>, KeepError> {
    match left {
        Ok(conn) => {
            if is_done {
                return Ok(conn);
            }
            drop(conn);
        }
        Err(store) => drop(store),
    }
    Err(KeepError::Disk)
}

/// A database in memory after so many steps of the course; Disk if one isn't made.
pub(crate) fn database(alloc: Global, steps: usize) -> Result<Connection<MemStore>, KeepError> {
    let conn = Connection::open_in_memory(alloc)?;
    let deed = Deed {
        from: 0,
        to: steps,
        limit: None,
    };
    let (told, left) = act_over(alloc, conn, deed);
    left_of(told.made.is_ok(), left)
}

/// A load and no step.
pub(crate) const LOAD: Deed = Deed {
    from: 0,
    to: 0,
    limit: None,
};

/// What a load finds in the database of a connection, and how many failures were counted.
pub(crate) fn found<S: Alter + Drop>(
    alloc: Global,
    conn: Connection<S>,
) -> (Result<Seen, KeepError>, u64) {
    let told = told_over(alloc, conn, LOAD);
    (told.after, told.failures)
}
