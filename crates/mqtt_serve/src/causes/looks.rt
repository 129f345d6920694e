//! Looks at what stands at the path of a database that did not open (ours).
ghost use Rattle.std.specs.Prelude.{◌≡◌, ◌≢◌, ◌⊎◌, codes};
ghost use Rattle.mqtt_serve.specs.causes.Causes.{IsOfSocket};
ghost use Rattle.mqtt_serve.specs.causes.Reports.{database_cause};

use crate::causes::cause::{Cause, StoreCause};
use crate::causes::reports::{of_database, of_file};
use sqlite::{Error, ErrorCode};
use sqlite_disk::Wary;
use sqlite_std_file::OpenError;
use std::fs;
use std::io::{ErrorKind, Read};
use std::os::unix::fs::MetadataExt;

/// The first bytes of an SQLite database (1.3.1 of SQLite's file format).
const MAGIC: [u8; 16] = *b"SQLite format 3\0";

/// What stands at a path, or beside it, that is not opened as a database.
fn what_stands(rt: &HostRuntime, path: &str) -> StoreCause {
    match fs::metadata(rt, path) {
        Ok(found) if found.is_dir() => StoreCause::Folder,
        Ok(found) if !found.is_file() => StoreCause::NoFile,
        Ok(found) if found.nlink() != 1 => StoreCause::Links,
        Ok(_) => StoreCause::Log,
        Err(_) => StoreCause::NoFile,
    }
}

/// Why the files at a path did not open.
fn of_files(rt: &HostRuntime, path: &str, error: OpenError) -> Cause
    ensures { ¬ IsOfSocket result }
{
    match error {
        OpenError::OutOfMemory => Cause::Memory,
        OpenError::Busy => Cause::Store(StoreCause::InUse),
        OpenError::HotJournal => Cause::Store(StoreCause::Journal),
        OpenError::Io(error) if error.kind() == ErrorKind::Unsupported => {
            Cause::Store(what_stands(rt, path))
        }
        OpenError::Io(error) => of_file(&error),
    }
}

/// Why the files at a path can't be opened, by one more try.
fn why_unopened(rt: &HostRuntime, path: &str) -> Cause
    ensures no_file { path.now ≡ codes ":memory:" → result ≡ Cause.Store StoreCause.NoName }
    ensures store { ¬ IsOfSocket result }
{
    if path == ":memory:" || path.starts_with("file:") || path.is_empty() {
        return Cause::Store(StoreCause::NoName);
    }
    match sqlite_std_file::open(rt, path, Wary) {
        Ok(files) => {
            drop(files);
            Cause::Store(StoreCause::Disk)
        }
        Err(error) => of_files(rt, path, error),
    }
}

/// Whether the file at a path begins as an SQLite database does.
fn begins_as_sqlite(rt: &HostRuntime, path: &str) -> bool {
    let Ok(mut file) = fs::open(rt, path) else {
        return false;
    };
    let mut head = [0; 16];
    let found = file.read_exact(&mut head);
    drop(file);
    found.is_ok() && head == MAGIC
}

/// What the file at a path is that the kit can't read as a database.
fn unread(rt: &HostRuntime, path: &str) -> Cause
    ensures unread { (result ≡ Cause.Store StoreCause.NotADatabase) ⊎ (result ≡ Cause.Store StoreCause.Unreadable) }
    ensures store { ¬ IsOfSocket result }
{
    if begins_as_sqlite(rt, path) {
        Cause::Store(StoreCause::Unreadable)
    } else {
        Cause::Store(StoreCause::NotADatabase)
    }
}

/// Why the database at a path did not open, which told this failure.
pub(crate) fn why_not(rt: &HostRuntime, path: &str, error: &Error) -> Cause
    ensures told { error.now ≢ Error.SqliteFailure ErrorCode.CannotOpen → error.now ≢ Error.SqliteFailure ErrorCode.NotADatabase
        → result ≡ database_cause error.now }
    ensures unread { error.now ≡ Error.SqliteFailure ErrorCode.NotADatabase
        → (result ≡ Cause.Store StoreCause.NotADatabase) ⊎ (result ≡ Cause.Store StoreCause.Unreadable) }
    ensures no_file { error.now ≡ Error.SqliteFailure ErrorCode.CannotOpen → path.now ≡ codes ":memory:"
        → result ≡ Cause.Store StoreCause.NoName }
    ensures store { ¬ IsOfSocket result }
{
    match error {
        Error::SqliteFailure(ErrorCode::CannotOpen) => why_unopened(rt, path),
        Error::SqliteFailure(ErrorCode::NotADatabase) => unread(rt, path),
        _ => of_database(error),
    }
}
