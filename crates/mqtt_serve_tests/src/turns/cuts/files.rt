//! A database in files in memory that fail from some call on, and what a power cut leaves of them.
use crate::turns::cuts::runs::{Plan, Told, act};
use mqtt_serve::make_over;
use mqtt_store::SqlKeep;
use sqlite::{Connection, FileStore, Options};
use sqlite_disk::{Crash, Disk, Files, Fuse, Memory};
use std::alloc::{AllocError, Global};
use std::hash::RandomState;
use std::io;

/// A file in memory, or its log, that fails after some calls.
type Device = Fuse<Memory>;

/// After how many calls the log fails, and the file.
#[derive(Clone, Copy, Debug)]
pub(crate) struct Power {
    pub(crate) log: u64,
    pub(crate) db: u64,
}

/// Power that stays.
const STEADY: Power = Power {
    log: u64::MAX,
    db: u64::MAX,
};

/// The bytes of a file and its log.
#[derive(Drop)]
pub(crate) struct Image {
    log: Vec<u8>,
    db: Vec<u8>,
    is_new: bool,
}

impl Image {
    /// No file yet.
    pub(crate) fn new(alloc: Global) -> Image {
        Image {
            log: Vec::new(alloc),
            db: Vec::new(alloc),
            is_new: true,
        }
    }

    /// Whether the bytes taken last are others than those before.
    pub(crate) fn is_new(&self) -> bool {
        self.is_new
    }

    /// Whether a log and a file have these bytes.
    fn has(&self, log: &[u8], db: &[u8]) -> bool {
        self.log.as_slice() == log && self.db.as_slice() == db
    }

    /// Takes the bytes of files.
    fn take(&mut self, files: &Files<Device>) -> Result<(), AllocError> {
        let (log, db) = (files.log.inner().bytes(), files.db.inner().bytes());
        self.is_new = !self.has(log, db);
        if self.is_new {
            self.log.clear();
            self.log.extend_from_slice(log)?;
            self.db.clear();
            self.db.extend_from_slice(db)?;
        }
        Ok(())
    }
}

/// What a cut leaves of files: all that was written, in one image; in the other what was synced.
fn take_left(kept: &mut Image, synced: &mut Image, files: Files<Device>) -> Result<(), AllocError> {
    let mut files = files;
    let taken = kept.take(&files);
    files.log.crash();
    files.db.crash();
    let taken_synced = synced.take(&files);
    drop(files);
    taken?;
    taken_synced
}

/// A file with these bytes that are synced, which fails after so many calls.
fn file_of(alloc: Global, bytes: &[u8], calls: u64) -> io::Result<Device> {
    let mut file = Memory::new(alloc);
    let done = match file.write_at(0, bytes) {
        Ok(()) => file.sync(),
        Err(error) => Err(error),
    };
    match done {
        Ok(()) => Ok(Fuse::new(file, calls)),
        Err(error) => {
            drop(file);
            Err(error)
        }
    }
}

/// A log and a file with these bytes, under this power.
fn files_of(alloc: Global, log: &[u8], db: &[u8], power: Power) -> io::Result<Files<Device>> {
    let log = file_of(alloc, log, power.log)?;
    match file_of(alloc, db, power.db) {
        Ok(db) => Ok(Files { log, db }),
        Err(error) => {
            drop(log);
            Err(error)
        }
    }
}

/// The files with a database, which is made as the server makes it if they have none.
fn made<D: Disk + Drop>(alloc: Global, files: Files<D>) -> Files<D> {
    if !files.may_be_used() {
        return files;
    }
    let (_made, files) = make_over(alloc, files, 1);
    files
}

/// A connection to the database in files; the files alone, if they can't be opened.
fn connect<D: Disk + Drop>(
    alloc: Global,
    files: Files<D>,
) -> Result<Connection<FileStore<D>>, Files<D>> {
    if !files.may_be_used() {
        return Err(files);
    }
    match Connection::open_files_with(alloc, files, Options::new(1), false) {
        Ok(conn) => Ok(conn),
        Err((_, left)) => Err(left.into_files()),
    }
}

/// A store over a connection; the files alone, if it can't be opened anew.
fn store_of<D: Disk + Drop>(
    alloc: Global,
    conn: Connection<FileStore<D>>,
) -> Result<SqlKeep<FileStore<D>>, Files<D>> {
    match SqlKeep::new(alloc, conn) {
        Ok(keep) => Ok(keep),
        Err((_, store)) => Err(store.close()),
    }
}

/// The files of a store.
fn files_under<D: Disk + Drop>(keep: SqlKeep<FileStore<D>>) -> Files<D> {
    keep.into_inner().into_store().close()
}

/// A run over a connection, and the files that are left. Nothing is told if no store can be opened over it.
fn act_over<D: Disk + Drop>(
    alloc: Global,
    conn: Connection<FileStore<D>>,
    plan: Plan,
    hasher: RandomState,
) -> (Option<Told>, Files<D>) {
    match store_of(alloc, conn) {
        Ok(keep) => {
            let (told, keep) = act(alloc, keep, plan, hasher);
            (Some(told), files_under(keep))
        }
        Err(files) => (None, files),
    }
}

/// A run over files, and what is left of them. Nothing is told if they can't be opened.
fn act_on<D: Disk + Drop>(
    alloc: Global,
    files: Files<D>,
    plan: Plan,
    hasher: RandomState,
) -> (Option<Told>, Files<D>) {
    match connect(alloc, made(alloc, files)) {
        Ok(conn) => act_over(alloc, conn, plan, hasher),
        Err(files) => (None, files),
    }
}

/// A run over no file yet, up to a cut: all that it wrote is left in one image, and in the other what was synced. Nothing is told if
/// the files can't be opened.
pub(crate) fn act_until(
    alloc: Global,
    kept: &mut Image,
    synced: &mut Image,
    power: Power,
    plan: Plan,
    hasher: RandomState,
) -> io::Result<Option<Told>> {
    let files = files_of(alloc, &[], &[], power)?;
    let (told, files) = act_on(alloc, files, plan, hasher);
    take_left(kept, synced, files)?;
    Ok(told)
}

/// A run over the files of an image, which is as before. Nothing is told if they can't be opened.
pub(crate) fn act_after(
    alloc: Global,
    image: &Image,
    plan: Plan,
    hasher: RandomState,
) -> io::Result<Option<Told>> {
    let files = files_of(alloc, &image.log, &image.db, STEADY)?;
    let (told, files) = act_on(alloc, files, plan, hasher);
    drop(files);
    Ok(told)
}
