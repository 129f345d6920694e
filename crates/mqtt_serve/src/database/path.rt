//! The database at a path (MQTT 5.0, 4.1).
ghost use Rattle.std.specs.Prelude.{◌≡◌, ◌≢◌, codes, false, Ok};

use crate::database::fault::MakeFault;
use crate::database::making::{PAGE_SIZE, make_over};
use sqlite_disk::Wary;
use sqlite_std_file::OpenError;
use std::fs;
use std::hash::{BuildHasher, RandomState};
use std::io::ErrorKind;

/// What files that did not open are.
fn open_fault(error: OpenError) -> MakeFault
    ensures { result ≢ MakeFault.Disk }
{
    match error {
        OpenError::OutOfMemory => MakeFault::Memory,
        OpenError::Io(error) if error.kind() == ErrorKind::OutOfMemory => MakeFault::Memory,
        _ => MakeFault::Files,
    }
}

/// Whether a path may lead to files in which no database was made yet: nothing stands there, or a file no longer than its first page.
fn may_be_new(rt: &HostRuntime, path: &str) -> bool {
    match fs::metadata(rt, path) {
        Ok(found) => found.is_file() && found.len() <= PAGE_SIZE as u64,
        Err(error) => error.kind() == ErrorKind::NotFound,
    }
}

/// Makes an empty database at a path, with its log beside it, where none was made yet, and tells whether it made one. Anything else
/// that stands there is as before.
pub fn make_database(rt: &HostRuntime, path: &str) -> Result<bool, MakeFault>
    ensures no_file { path.now ≡ codes ":memory:" → result ≡ Ok false }
{
    if path == ":memory:" || path.starts_with("file:") || !may_be_new(rt, path) {
        return Ok(false);
    }
    // It is made in its place, under the lock of its file: a start after a stop on the way finds what the kit's own creation leaves,
    // and goes on with it. Under another name it would have two names for a moment, or take the place of another server's file.
    let Ok(hasher) = RandomState::new(rt) else {
        return Err(MakeFault::Memory);
    };
    match sqlite_std_file::open(rt, path, Wary) {
        Ok(files) => {
            let (made, files) = make_over(rt.alloc(), files, hasher.hash_one(&0u8));
            drop(files);
            made
        }
        Err(error) => Err(open_fault(error)),
    }
}
