//! What failed calls tell (ours).
ghost use Rattle.std.specs.Prelude.{◌≡◌, ◌↔◌, IsTrue};
ghost use Rattle.std.specs.IoError.{error_kind};
ghost use Rattle.mqtt_serve.specs.causes.Causes.{IsOfSocket};
ghost use Rattle.mqtt_serve.specs.causes.Reports.{WantsHandle, by_tally, code_cause, database_cause, disk_cause, engine_cause, file_cause, load_cause, socket_cause};

use crate::causes::cause::{Cause, SocketCause, StoreCause};
use mqtt_broker_step::EngineError;
use mqtt_keep::KeepError;
use sqlite::{Error, ErrorCode};
use sqlite_disk::Tally;
use std::io;
use std::io::ErrorKind;

/// With this number Linux says that the process may open no more files (EMFILE).
const PROCESS_IS_FULL: i32 = 24;

/// And with this that the machine may (ENFILE).
const MACHINE_IS_FULL: i32 = 23;

/// Whether a call failed since no handle is left for another file.
fn wants_handle(error: &io::Error) -> bool
    ensures { IsTrue result ↔ WantsHandle error.now }
{
    let number = error.raw_os_error();
    number == Some(PROCESS_IS_FULL) || number == Some(MACHINE_IS_FULL)
}

/// What a failed call on a socket tells.
pub(crate) fn of_socket(error: &io::Error) -> Cause
    ensures handle { WantsHandle error.now → result ≡ Cause.Socket SocketCause.Handles }
    ensures kind { ¬ WantsHandle error.now → result ≡ socket_cause (error_kind error.now) }
{
    if wants_handle(error) {
        return Cause::Socket(SocketCause::Handles);
    }
    match error.kind() {
        ErrorKind::OutOfMemory => Cause::Memory,
        ErrorKind::AddrInUse => Cause::Socket(SocketCause::InUse),
        ErrorKind::AddrNotAvailable => Cause::Socket(SocketCause::NoAddress),
        ErrorKind::PermissionDenied => Cause::Socket(SocketCause::NoPermission),
        _ => Cause::Socket(SocketCause::Unopened),
    }
}

/// What a failed call on a file of a database tells.
pub(crate) fn of_file(error: &io::Error) -> Cause
    ensures handle { WantsHandle error.now → result ≡ Cause.Store StoreCause.Handles }
    ensures kind { ¬ WantsHandle error.now → result ≡ file_cause (error_kind error.now) }
    ensures store { ¬ IsOfSocket result }
{
    if wants_handle(error) {
        return Cause::Store(StoreCause::Handles);
    }
    match error.kind() {
        ErrorKind::OutOfMemory => Cause::Memory,
        ErrorKind::NotFound | ErrorKind::NotADirectory => Cause::Store(StoreCause::NotThere),
        ErrorKind::PermissionDenied => Cause::Store(StoreCause::NoPermission),
        ErrorKind::ReadOnlyFilesystem => Cause::Store(StoreCause::ReadOnly),
        ErrorKind::StorageFull | ErrorKind::QuotaExceeded => Cause::Store(StoreCause::Full),
        ErrorKind::InvalidFilename | ErrorKind::InvalidInput | ErrorKind::FilesystemLoop => {
            Cause::Store(StoreCause::BadName)
        }
        ErrorKind::IsADirectory => Cause::Store(StoreCause::Folder),
        _ => Cause::Store(StoreCause::Disk),
    }
}

/// What a failure of a database with this code tells.
fn of_code(code: ErrorCode) -> Cause
    ensures told { result ≡ code_cause code }
    ensures store { ¬ IsOfSocket result }
{
    match code {
        ErrorCode::OutOfMemory => Cause::Memory,
        ErrorCode::DatabaseBusy => Cause::Store(StoreCause::InUse),
        ErrorCode::NotADatabase => Cause::Store(StoreCause::Unreadable),
        ErrorCode::DatabaseCorrupt => Cause::Store(StoreCause::Damaged),
        ErrorCode::DiskFull => Cause::Store(StoreCause::Full),
        _ => Cause::Store(StoreCause::Disk),
    }
}

/// What a failure of a database tells.
pub(crate) fn of_database(error: &Error) -> Cause
    ensures told { result ≡ database_cause error.now }
    ensures store { ¬ IsOfSocket result }
{
    match error {
        Error::SqliteFailure(code) => of_code(*code),
        _ => Cause::Store(StoreCause::Disk),
    }
}

/// What a failed load of the records tells.
pub(crate) fn of_load(error: KeepError) -> Cause
    ensures told { result ≡ load_cause error }
    ensures store { ¬ IsOfSocket result }
{
    match error {
        KeepError::Memory => Cause::Memory,
        KeepError::Disk | KeepError::Size => Cause::Store(StoreCause::Disk),
        KeepError::Corrupt => Cause::Store(StoreCause::Damaged),
        KeepError::Schema => Cause::Store(StoreCause::OtherSchema),
    }
}

/// What a refusal of the engine tells.
pub(crate) fn of_engine(error: EngineError) -> Cause
    ensures told { result ≡ engine_cause error }
    ensures store { ¬ IsOfSocket result }
{
    match error {
        EngineError::Memory => Cause::Memory,
        EngineError::Stopped => Cause::Store(StoreCause::Disk),
        EngineError::Spent => Cause::Store(StoreCause::Spent),
    }
}

/// Why a disk failed, by the count of what the failed calls on its files met.
fn of_disk(tally: Tally) -> StoreCause
    ensures { result ≡ disk_cause tally }
{
    if tally.caught != 0 {
        StoreCause::Damaged
    } else if tally.refused != 0 {
        StoreCause::Full
    } else {
        StoreCause::Disk
    }
}

/// What a cause is by the count of what the failed calls on the database's files met.
pub(crate) fn of_tally(cause: Cause, tally: Tally) -> Cause
    ensures told { result ≡ by_tally tally cause }
    ensures socket { IsOfSocket result → IsOfSocket cause }
{
    match cause {
        Cause::Store(StoreCause::Disk) => Cause::Store(of_disk(tally)),
        other => other,
    }
}
