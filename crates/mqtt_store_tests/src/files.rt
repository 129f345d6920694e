//! A store over a file and its log, in memory: closed or dropped and opened again, cut, changed, and on a device that fails.

use crate::broken::fill_first;
use crate::changes::LONG;
use crate::limits::two;
use crate::seen::Seen;
use crate::store::{Deed, LOAD, Told, act_over, database, found};
use mqtt_keep::KeepError;
use sqlite::{Connection, FileStore, Files, Options};
use sqlite_disk::{Disk, Fuse, Memory};
use std::alloc::{AllocError, Global};
use std::io;
use std::test::Fail;

/// A file in memory, or its log, which fails after some calls.
type Device = Fuse<Memory>;

/// The bytes of a file and its log.
#[derive(Drop)]
struct Image {
    log: Vec<u8>,
    db: Vec<u8>,
}

/// Changes a byte.
fn change_byte(bytes: &mut [u8], at: usize) {
    if let Some(byte) = bytes.get_mut(at) {
        *byte ^= 0x5a;
    }
}

impl Image {
    /// No file yet.
    fn new(alloc: Global) -> Image {
        Image {
            log: Vec::new(alloc),
            db: Vec::new(alloc),
        }
    }

    /// How many bytes the log has, or the file.
    fn len(&self, is_log: bool) -> usize {
        if is_log {
            self.log.len()
        } else {
            self.db.len()
        }
    }

    /// Changes a byte of the log, or of the file; a second time changes it back.
    fn change(&mut self, is_log: bool, at: usize) {
        if is_log {
            change_byte(&mut self.log, at);
        } else {
            change_byte(&mut self.db, at);
        }
    }

    /// Takes the bytes of files.
    fn take(&mut self, files: &Files<Device>) -> Result<(), AllocError> {
        self.log.clear();
        self.log.extend_from_slice(files.log.inner().bytes())?;
        self.db.clear();
        self.db.extend_from_slice(files.db.inner().bytes())
    }
}

/// A file with these bytes.
fn file_of(alloc: Global, bytes: &[u8]) -> io::Result<Memory> {
    let mut file = Memory::new(alloc);
    match file.write_at(0, bytes) {
        Ok(()) => Ok(file),
        Err(error) => {
            drop(file);
            Err(error)
        }
    }
}

/// Opens a file and its log on a device that fails after so many calls of each; a new file has sums, so that a changed byte is
/// seen.
fn open(
    alloc: Global,
    log: &[u8],
    db: &[u8],
    calls: u64,
) -> io::Result<Result<Connection<FileStore<Device>>, Files<Device>>> {
    let log = file_of(alloc, log)?;
    match file_of(alloc, db) {
        Ok(db) => {
            let files = Files {
                log: Fuse::new(log, calls),
                db: Fuse::new(db, calls),
            };
            if !files.may_be_used() {
                drop(files);
                return Err(io::ErrorKind::Other.into());
            }
            match Connection::open_files_with(alloc, files, Options::new(1), true) {
                Ok(conn) => Ok(Ok(conn)),
                Err((_, left)) => Ok(Err(left.into_files())),
            }
        }
        Err(error) => {
            drop(log);
            Err(error)
        }
    }
}

/// The files of a connection that is closed, so that the log is copied into the file.
fn closed(conn: Connection<FileStore<Device>>) -> Files<Device> {
    match conn.close_files() {
        Ok(files) => files,
        Err((_, store)) => store.close(),
    }
}

/// The files of a connection that is closed, or only dropped.
fn files_after(conn: Connection<FileStore<Device>>, is_closed: bool) -> Files<Device> {
    if is_closed {
        return closed(conn);
    }
    conn.into_store().close()
}

/// What comes about over a file and its log, and the files that are left. Nothing does if they can't be opened.
fn act_on(
    alloc: Global,
    log: &[u8],
    db: &[u8],
    calls: u64,
    deed: Deed,
    is_closed: bool,
) -> io::Result<(Option<Told>, Files<Device>)> {
    match open(alloc, log, db, calls)? {
        Ok(conn) => {
            let (told, left) = act_over(alloc, conn, deed);
            match left {
                Ok(conn) => Ok((Some(told), files_after(conn, is_closed))),
                Err(store) => Ok((Some(told), store.close())),
            }
        }
        Err(files) => Ok((None, files)),
    }
}

/// Makes the first steps of the course over new files, and takes their bytes.
fn begin(alloc: Global, image: &mut Image, steps: usize, is_closed: bool) -> Result<(), KeepError> {
    let deed = Deed {
        from: 0,
        to: steps,
        limit: None,
    };
    match act_on(alloc, &[], &[], u64::MAX, deed, is_closed) {
        Ok((told, files)) => {
            let taken = image.take(&files);
            drop(files);
            taken?;
            match told {
                Some(told) => told.made,
                None => Err(KeepError::Disk),
            }
        }
        Err(_) => Err(KeepError::Memory),
    }
}

/// Makes new files of schema 1, with the rows of the long course, and takes their bytes.
fn begin_first(alloc: Global, image: &mut Image, is_closed: bool) -> Result<(), KeepError> {
    match open(alloc, &[], &[], u64::MAX) {
        Ok(Ok(conn)) => {
            let mut conn = conn;
            let is_made = fill_first(&mut conn);
            let files = files_after(conn, is_closed);
            let taken = image.take(&files);
            drop(files);
            taken?;
            if is_made {
                Ok(())
            } else {
                Err(KeepError::Disk)
            }
        }
        Ok(Err(files)) => {
            drop(files);
            Err(KeepError::Disk)
        }
        Err(_) => Err(KeepError::Memory),
    }
}

/// What is found in a file and its log; Disk if they can't be opened.
fn found_in(alloc: Global, log: &[u8], db: &[u8]) -> Result<Seen, KeepError> {
    match act_on(alloc, log, db, u64::MAX, LOAD, false) {
        Ok((told, files)) => {
            drop(files);
            match told {
                Some(told) => told.after,
                None => Err(KeepError::Disk),
            }
        }
        Err(_) => Err(KeepError::Memory),
    }
}

/// What is found after no step, and after each of the course.
fn known(alloc: Global) -> Result<[Result<Seen, KeepError>; 12], KeepError> {
    let mut known = [Err(KeepError::Disk); 12];
    for (steps, seen) in known.iter_mut().enumerate() {
        *seen = found(alloc, database(alloc, steps)?).0;
    }
    Ok(known)
}

/// Whether files are refused, or one of these is found in them.
fn is_whole(alloc: Global, log: &[u8], db: &[u8], known: &[Result<Seen, KeepError>]) -> bool {
    let found = found_in(alloc, log, db);
    found.is_err() || known.contains(&found)
}

/// The bytes before a place.
fn cut(bytes: &[u8], at: usize) -> &[u8] {
    bytes.get(..at).unwrap_or(bytes)
}

/// Where a file that is cut there, or its log, is neither refused nor has one of these.
fn wrong_cut(
    alloc: Global,
    image: &Image,
    is_log: bool,
    known: &[Result<Seen, KeepError>],
) -> Option<usize> {
    for at in (512..image.len(is_log)).step_by(512) {
        let is_right = if is_log {
            is_whole(alloc, cut(&image.log, at), &image.db, known)
        } else {
            is_whole(alloc, &image.log, cut(&image.db, at), known)
        };
        if !is_right {
            return Some(at);
        }
    }
    None
}

/// Where a file whose byte is changed there, or its log, is neither refused nor has one of these.
fn wrong_change(
    alloc: Global,
    image: &mut Image,
    is_log: bool,
    known: &[Result<Seen, KeepError>],
) -> Option<usize> {
    for at in (0..image.len(is_log)).step_by(512) {
        image.change(is_log, at);
        let is_right = is_whole(alloc, &image.log, &image.db, known);
        image.change(is_log, at);
        if !is_right {
            return Some(at);
        }
    }
    None
}

/// Where the files of the long course are wrong when they are cut or changed there: a file that was closed has the whole course
/// or is refused, a dropped one with its log may have what stood after some step.
fn wrong_places(alloc: Global, is_closed: bool) -> Result<[Option<usize>; 4], KeepError> {
    let all = known(alloc)?;
    let (from, to) = if is_closed {
        (LONG, LONG + 1)
    } else {
        (0, all.len())
    };
    let known = all.get(from..to).unwrap_or(&[]);
    let mut image = Image::new(alloc);
    let begun = begin(alloc, &mut image, LONG, is_closed);
    let wrong = [
        wrong_cut(alloc, &image, false, known),
        wrong_cut(alloc, &image, true, known),
        wrong_change(alloc, &mut image, false, known),
        wrong_change(alloc, &mut image, true, known),
    ];
    drop(image);
    begun?;
    Ok(wrong)
}

#[test]
fn a_file_that_is_cut_or_changed_is_refused_or_whole(rt: HostRuntime) -> Result<(), Fail> {
    for is_closed in [true, false] {
        let wrong = wrong_places(rt.alloc(), is_closed)?;
        assert_eq!(rt; wrong, [None; 4], "closed: {is_closed}");
    }
    Ok(())
}

/// What is found in files that were closed or dropped after so many steps.
fn found_again(alloc: Global, steps: usize, is_closed: bool) -> Result<Seen, KeepError> {
    let mut image = Image::new(alloc);
    let begun = begin(alloc, &mut image, steps, is_closed);
    let found = found_in(alloc, &image.log, &image.db);
    drop(image);
    begun?;
    found
}

#[test]
fn files_are_found_again(rt: HostRuntime) -> Result<(), Fail> {
    for (steps, seen) in known(rt.alloc())?.iter().enumerate() {
        for is_closed in [true, false] {
            let found = found_again(rt.alloc(), steps, is_closed);
            assert!(rt; found.is_ok() && found == *seen, "{steps} steps");
        }
    }
    Ok(())
}

/// What the step behind the long course tells on a device that fails after so many calls, and what is found in what it leaves.
fn failed(
    alloc: Global,
    image: &Image,
    calls: u64,
) -> io::Result<(Option<Told>, Result<Seen, KeepError>)> {
    let deed = Deed {
        from: LONG,
        to: LONG + 1,
        limit: None,
    };
    let (told, files) = act_on(alloc, &image.log, &image.db, calls, deed, false)?;
    let found = found_in(alloc, files.log.inner().bytes(), files.db.inner().bytes());
    drop(files);
    Ok((told, found))
}

/// Whether a step that was made is found, and one that wasn't is found whole or not at all.
fn is_kept(
    told: &Option<Told>,
    found: Result<Seen, KeepError>,
    two: &[Result<Seen, KeepError>; 2],
) -> bool {
    match told {
        None => found == two[0],
        Some(told) => match told.made {
            Ok(()) => found == two[1],
            Err(fault) => fault == KeepError::Disk && two.contains(&found),
        },
    }
}

/// Whether no call failed.
fn is_done(told: &Option<Told>, two: &[Result<Seen, KeepError>; 2]) -> bool {
    match told {
        Some(told) => told.failures == 0 && told.after == two[1],
        None => false,
    }
}

/// After how many calls a failing device leaves something else, if after any; and after how many none of the calls fails.
fn wrong_failure(
    alloc: Global,
    image: &Image,
    two: &[Result<Seen, KeepError>; 2],
) -> (Option<u64>, u64) {
    for calls in 0..10_000_u64 {
        match failed(alloc, image, calls) {
            Ok((told, found)) => {
                if !is_kept(&told, found, two) {
                    return (Some(calls), calls);
                }
                if is_done(&told, two) {
                    return (None, calls);
                }
            }
            Err(_) => return (Some(calls), calls),
        }
    }
    (None, 0)
}

/// The same over the files of the long course, closed or dropped; of schema 1, if they are to be taken over.
fn wrong_failure_of(
    alloc: Global,
    is_first: bool,
    is_closed: bool,
) -> Result<(Option<u64>, u64), KeepError> {
    let two = two(alloc)?;
    let mut image = Image::new(alloc);
    let begun = if is_first {
        begin_first(alloc, &mut image, is_closed)
    } else {
        begin(alloc, &mut image, LONG, is_closed)
    };
    let wrong = wrong_failure(alloc, &image, &two);
    drop(image);
    begun?;
    Ok(wrong)
}

#[test]
fn a_device_that_fails_leaves_whole_steps(rt: HostRuntime) -> Result<(), Fail> {
    for is_closed in [true, false] {
        let (wrong, calls) = wrong_failure_of(rt.alloc(), false, is_closed)?;
        assert!(rt;
            wrong == None && calls > 0,
            "closed: {is_closed}, {calls} calls"
        );
    }
    Ok(())
}

/// The load takes the store over, and the step is made behind it.
#[test]
fn a_device_that_fails_keeps_all_of_a_store_that_is_taken_over(
    rt: HostRuntime,
) -> Result<(), Fail> {
    for is_closed in [true, false] {
        let (wrong, calls) = wrong_failure_of(rt.alloc(), true, is_closed)?;
        assert!(rt;
            wrong == None && calls > 0,
            "closed: {is_closed}, {calls} calls"
        );
    }
    Ok(())
}
