//! An empty database in files that have none yet (MQTT 5.0, 4.1).
ghost use Rattle.std.specs.Prelude.{◌≡◌, ◌≢◌, ◌↔◌, Ok, true, false, IsTrue, IfErr, IfOk, OnOk};
ghost use Rattle.sqlite_wal.specs.Files.{seen_image};
ghost use Rattle.sqlite_wal.specs.PageSize.{bytes_of};
ghost use Rattle.mqtt_serve.specs.database.Making.{AreHonest, AreUsable, IsMissing, LeaveAtMostEmpty, LeaveEmpty, WereOnlyRead};

use crate::database::fault::MakeFault;
use sqlite_disk::{Disk, Files};
use sqlite_pager::{Options, Pager};
use sqlite_pool::probe_blank;
use sqlite_store::{OpenError, Unopened};
use sqlite_wal::{Error, PageSize};
use std::alloc::Global;

/// Bytes of a page of a new database.
pub const PAGE_SIZE: usize = 1_024;

/// What a failure to read the files is.
fn read_fault(error: Error) -> MakeFault
    ensures memory { error ≡ Error.OutOfMemory → result ≡ MakeFault.Memory }
    ensures disk { error ≢ Error.OutOfMemory → result ≡ MakeFault.Disk }
{
    match error {
        Error::OutOfMemory => MakeFault::Memory,
        _ => MakeFault::Disk,
    }
}

/// What a failure to write a database is.
fn write_fault(error: OpenError) -> MakeFault
    ensures memory { error ≡ OpenError.OutOfMemory → result ≡ MakeFault.Memory }
    ensures disk { error ≢ OpenError.OutOfMemory → result ≡ MakeFault.Disk }
{
    match error {
        OpenError::OutOfMemory => MakeFault::Memory,
        _ => MakeFault::Disk,
    }
}

/// The size of a page of a new database.
fn page_size() -> PageSize
    ensures { bytes_of result ≡ PAGE_SIZE }
{
    PageSize::new(PAGE_SIZE).unwrap()
}

/// Whether no database was made in files yet.
fn is_missing<D: Disk>(alloc: Global, files: &mut Files<D>) -> Result<bool, MakeFault>
    requires { AreUsable D.Disk files.old }
    ensures found { IfOk result (λ missing. AreHonest D.Disk files.new
        → (IsTrue missing ↔ IsMissing (seen_image D.Disk files.old.log files.old.db))) }
    ensures same { WereOnlyRead D.Disk files.old files.new }
    ensures fault { IfErr result (λ fault. fault ≢ MakeFault.Files) }
{
    match probe_blank(alloc, files, page_size(), false) {
        Ok(missing) => Ok(missing),
        Err(error) => Err(read_fault(error)),
    }
}

/// Makes an empty database in files that have none, and gives them back.
fn create<D: Disk>(alloc: Global, files: Files<D>, seed: u64) -> (Result<bool, MakeFault>, Files<D>)
    requires { AreUsable D.Disk files }
    ensures ok { IfOk result.0 (λ made. IsTrue made) }
    ensures made { OnOk result.0 (AreHonest D.Disk result.1 → LeaveEmpty D.Disk result.1) }
    ensures crash { AreHonest D.Disk result.1 → IsMissing (seen_image D.Disk files.log files.db)
        → LeaveAtMostEmpty D.Disk files result.1 }
    ensures honest { AreHonest D.Disk result.1 → AreHonest D.Disk files }
    ensures fault { IfErr result.0 (λ fault. fault ≢ MakeFault.Files) }
{
    // One page is written, so none has to be kept.
    let options = Options {
        cache_pages: 1,
        ..Options::new(seed)
    };
    let pager = match Pager::new(alloc, files, page_size(), options) {
        Ok(pager) => pager,
        Err(failed) => return (Err(MakeFault::Memory), failed.value),
    };
    let unopened = match Unopened::new(alloc, pager, &[]) {
        Ok(unopened) => unopened,
        Err(failed) => return (Err(MakeFault::Memory), failed.value.close()),
    };
    match unopened.create() {
        Ok(store) => (Ok(true), store.close()),
        Err((error, left)) => (Err(write_fault(error)), left.close()),
    }
}

/// Makes an empty database with pages of `PAGE_SIZE` bytes in files that have none yet, and writes nothing into others. Tells whether
/// it made one, and gives the files back. What a stop of the machine leaves on the way is not refused, but made whole by the next call.
pub fn make_over<D: Disk>(
    alloc: Global,
    mut files: Files<D>,
    seed: u64,
) -> (Result<bool, MakeFault>, Files<D>)
    requires { AreUsable D.Disk files }
    ensures made { result.0 ≡ Ok true → AreHonest D.Disk result.1 → LeaveEmpty D.Disk result.1 }
    ensures only { result.0 ≡ Ok true → AreHonest D.Disk result.1
        → IsMissing (seen_image D.Disk files.log files.db) }
    ensures there { result.0 ≡ Ok false → AreHonest D.Disk result.1
        → ¬ IsMissing (seen_image D.Disk files.log files.db) }
    ensures same { AreHonest D.Disk result.1 → ¬ IsMissing (seen_image D.Disk files.log files.db)
        → WereOnlyRead D.Disk files result.1 }
    ensures crash { AreHonest D.Disk result.1 → IsMissing (seen_image D.Disk files.log files.db)
        → LeaveAtMostEmpty D.Disk files result.1 }
    ensures fault { IfErr result.0 (λ fault. fault ≢ MakeFault.Files) }
{
    match is_missing(alloc, &mut files) {
        Ok(false) => (Ok(false), files),
        Ok(true) => create(alloc, files, seed),
        Err(fault) => (Err(fault), files),
    }
}
