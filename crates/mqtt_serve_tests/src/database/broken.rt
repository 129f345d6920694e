//! Databases whose making breaks off, and which are made again.
use mqtt_serve::{MakeFault, make_database, make_over};
use sqlite::{Alter, Connection, Error};
use sqlite_disk::{Disk, Files, Fuse, Memory};
use std::alloc::Global;
use std::test::Fail;
use std::{fs, io};

/// What is left of a database file and its log, after a call that told this.
#[derive(Drop)]
struct Left {
    made: Result<bool, MakeFault>,
    log: Vec<u8>,
    db: Vec<u8>,
}

/// A file in memory with these bytes, which fails after so many calls.
fn file_of(alloc: Global, bytes: &[u8], calls: u64) -> io::Result<Fuse<Memory>> {
    let mut file = Memory::new(alloc);
    match file.write_at(0, bytes) {
        Ok(()) => Ok(Fuse::new(file, calls)),
        Err(error) => {
            drop(file);
            Err(error)
        }
    }
}

/// What a making leaves of files.
fn left_by(
    alloc: Global,
    made: Result<bool, MakeFault>,
    files: &Files<Fuse<Memory>>,
) -> io::Result<Left> {
    let mut left = Left {
        made,
        log: Vec::new(alloc),
        db: Vec::new(alloc),
    };
    left.log.extend_from_slice(files.log.inner().bytes())?;
    left.db.extend_from_slice(files.db.inner().bytes())?;
    Ok(left)
}

/// What a making leaves of a log and a database file with these bytes, which fail after so many calls of each.
fn make(alloc: Global, log: &[u8], db: &[u8], calls: (u64, u64)) -> io::Result<Left> {
    let files = Files {
        log: file_of(alloc, log, calls.0)?,
        db: file_of(alloc, db, calls.1)?,
    };
    if !files.may_be_used() {
        drop(files);
        return Err(io::ErrorKind::Other.into());
    }
    let (made, files) = make_over(alloc, files, 1);
    let left = left_by(alloc, made, &files);
    drop(files);
    left
}

/// Whether bytes 16 and 17 of a file of one page say 1,024 (1.3.2 of SQLite's file format).
fn is_page(db: &[u8]) -> bool {
    db.len() == 1_024 && db.starts_with(b"SQLite format 3\0\x04\0")
}

/// Whether what a making left that broke off there is made whole by the next.
fn is_mended(alloc: Global, calls: (u64, u64)) -> io::Result<(bool, bool)> {
    let first = make(alloc, &[], &[], calls)?;
    let next = make(alloc, &first.log, &first.db, (u64::MAX, u64::MAX))?;
    let is_mended = next.made.is_ok() && is_page(&next.db);
    let broke_off = first.made.is_err();
    drop((first, next));
    Ok((is_mended, broke_off))
}

// A call of either file is the first that fails, so these are all the ways in which a making breaks off.
#[test]
fn a_making_that_breaks_off_is_gone_on_with(rt: HostRuntime) -> Result<(), Fail> {
    let mut broken = 0;
    for calls in 0..24 {
        for (log, db) in [(calls, u64::MAX), (u64::MAX, calls)] {
            let (is_mended, broke_off) = is_mended(rt.alloc(), (log, db))?;
            assert!(rt;
                is_mended,
                "after {log} calls of the log and {db} of the file"
            );
            broken = u32::from(broke_off).saturating_add(broken);
        }
    }
    assert!(rt; broken > 12 && broken < 48, "{broken} broke off");
    Ok(())
}

/// How many tables and indexes a database has.
fn count<S: Alter + Drop>(conn: &mut Connection<S>) -> Result<i64, Error> {
    let row = conn.query_row("SELECT count(*) FROM sqlite_schema", &[])?;
    Ok(row.get(0).unwrap_or(-1))
}

/// Whether the database at a path can be opened, has pages of 1,024 bytes, and has no table.
fn is_empty(rt: &HostRuntime, path: &str) -> Result<bool, Fail> {
    let mut conn = Connection::open(rt, path)?;
    let count = count(&mut conn);
    drop(conn);
    let bytes = fs::read(rt, path)?;
    Ok(count == Ok(0) && is_page(&bytes))
}

#[test]
fn a_start_after_one_that_broke_off_is_not_refused(rt: HostRuntime) -> Result<(), Fail> {
    let (path, log) = ("broke_off.db", "broke_off.db-wal");
    for calls in 0..12 {
        let left = make(rt.alloc(), &[], &[], (calls, calls))?;
        fs::write(&rt, path, left.db.as_slice())?;
        fs::write(&rt, log, left.log.as_slice())?;
        let made = make_database(&rt, path);
        assert!(rt; made.is_ok(), "after {calls} calls");
        assert!(rt; is_empty(&rt, path)?, "after {calls} calls");
        fs::remove_file(&rt, path)?;
        fs::remove_file(&rt, log)?;
    }
    Ok(())
}
