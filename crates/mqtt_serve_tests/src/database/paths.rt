//! What is made at a path, and what is not.
use mqtt_serve::{MakeFault, make_database};
use sqlite::{Alter, Connection, Error};
use std::os::unix::fs::symlink;
use std::test::Fail;
use std::{fs, io};

/// Removes a database and its log, if they are there.
fn forget(rt: &HostRuntime, db: &str, log: &str) {
    let _ = fs::remove_file(rt, db);
    let _ = fs::remove_file(rt, log);
}

/// Puts a row into a table, which is made if there is none, and counts its rows.
fn put_row<S: Alter + Drop>(conn: &mut Connection<S>) -> Result<i64, Error> {
    conn.execute("CREATE TABLE IF NOT EXISTS t (n INTEGER)", &[])?;
    conn.execute("INSERT INTO t VALUES (1)", &[])?;
    let row = conn.query_row("SELECT count(*) FROM t", &[])?;
    Ok(row.get(0).unwrap_or(-1))
}

/// Puts a row into the database at a path, and counts them all.
fn count_rows(rt: &HostRuntime, db: &str) -> Result<i64, Fail> {
    let mut conn = Connection::open(rt, db)?;
    let count = put_row(&mut conn);
    conn.close()?;
    Ok(count?)
}

/// Whether nothing is made at a path, and what stands there has the same bytes.
fn is_kept(rt: &HostRuntime, path: &str) -> io::Result<bool> {
    let before = fs::read(rt, path)?;
    let made = make_database(rt, path);
    let after = fs::read(rt, path);
    let is_same = after.as_ref().is_ok_and(|bytes| *bytes == before);
    drop((before, after));
    Ok(is_same && made == Ok(false))
}

/// What bytes 16 and 17 of a database say, and whether it is whole pages of 1,024 bytes.
fn page_size(rt: &HostRuntime, db: &str) -> Result<([u8; 2], bool), Fail> {
    let bytes = fs::read(rt, db)?;
    let said = [
        bytes.get(16).copied().unwrap_or(0),
        bytes.get(17).copied().unwrap_or(0),
    ];
    Ok((said, bytes.len() % 1_024 == 0))
}

#[test]
fn a_new_path_gets_pages_of_1024_bytes(rt: HostRuntime) -> Result<(), Fail> {
    let (db, log) = ("new_path.db", "new_path.db-wal");
    forget(&rt, db, log);
    assert!(rt; make_database(&rt, db) == Ok(true), "the first time");
    assert_eq!(rt; fs::read(&rt, db)?.len(), 1_024);
    assert!(rt; make_database(&rt, db) == Ok(false), "the same again");
    for count in 1..4 {
        assert_eq!(rt; count_rows(&rt, db)?, count);
        assert_eq!(rt; page_size(&rt, db)?, ([4, 0], true));
        assert!(rt; make_database(&rt, db) == Ok(false), "with a table");
    }
    forget(&rt, db, log);
    Ok(())
}

#[test]
fn an_empty_file_gets_them_too(rt: HostRuntime) -> Result<(), Fail> {
    let (db, log) = ("empty_file.db", "empty_file.db-wal");
    forget(&rt, db, log);
    fs::write(&rt, db, b"".as_slice())?;
    assert!(rt; make_database(&rt, db) == Ok(true));
    assert_eq!(rt; page_size(&rt, db)?, ([4, 0], true));
    forget(&rt, db, log);
    Ok(())
}

#[test]
fn what_stands_there_stays(rt: HostRuntime) -> Result<(), Fail> {
    let (db, log) = ("stands_there.db", "stands_there.db-wal");
    forget(&rt, db, log);
    assert_eq!(rt; count_rows(&rt, db)?, 1);
    assert_eq!(rt; page_size(&rt, db)?.0, [16, 0]);
    assert!(rt; is_kept(&rt, db)?, "a database with pages of 4,096 bytes");
    for text in ["x\n", "a text of some bytes\n", "\0\0\0\0"] {
        forget(&rt, db, log);
        fs::write(&rt, db, text.as_bytes())?;
        assert!(rt; is_kept(&rt, db)?, "{text}");
    }
    forget(&rt, db, log);
    Ok(())
}

#[test]
fn no_file_is_made_of_another_name(rt: HostRuntime) {
    assert!(rt; make_database(&rt, ":memory:") == Ok(false));
    assert!(rt; make_database(&rt, "file:new.db") == Ok(false));
    assert!(rt; make_database(&rt, ".") == Ok(false), "a folder");
    assert!(rt; make_database(&rt, "no_such_folder/new.db") == Err(MakeFault::Files));
    for name in [":memory:", "file:new.db", "no_such_folder"] {
        assert!(rt; fs::symlink_metadata(&rt, name).is_err(), "{name}");
    }
}

#[test]
fn a_link_is_followed_to_what_is_there_alone(rt: HostRuntime) -> Result<(), Fail> {
    let (db, log, link) = ("linked.db", "linked.db-wal", "link.db");
    forget(&rt, db, log);
    let _ = fs::remove_file(&rt, link);
    symlink(&rt, db, link)?;
    assert!(rt;
        make_database(&rt, link) == Err(MakeFault::Files),
        "to nothing"
    );
    assert!(rt; fs::symlink_metadata(&rt, db).is_err());
    fs::write(&rt, db, b"".as_slice())?;
    assert!(rt; make_database(&rt, link) == Ok(true), "to an empty file");
    assert_eq!(rt; page_size(&rt, db)?, ([4, 0], true));
    fs::remove_file(&rt, link)?;
    forget(&rt, db, log);
    Ok(())
}

#[test]
fn a_journal_or_another_process_keeps_it_from_being_made(rt: HostRuntime) -> Result<(), Fail> {
    let (db, log, journal) = ("kept.db", "kept.db-wal", "kept.db-journal");
    forget(&rt, db, log);
    fs::write(&rt, journal, b"\xd9".as_slice())?;
    assert!(rt;
        make_database(&rt, db) == Err(MakeFault::Files),
        "a journal"
    );
    fs::remove_file(&rt, journal)?;
    assert!(rt; make_database(&rt, db) == Ok(true));
    let conn = Connection::open(&rt, db)?;
    assert!(rt;
        make_database(&rt, db) == Err(MakeFault::Files),
        "it is open"
    );
    drop(conn);
    forget(&rt, db, log);
    Ok(())
}
