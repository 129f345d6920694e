//! What a failure of the database is to the store (4.1).
ghost use Rattle.std.specs.Prelude.{◌≡◌, ◌⊎◌, ◌↔◌};

use mqtt_keep::KeepError;
use sqlite::{Error, ErrorCode};

/// What a failure of the database is to the store.
pub fn fault_of(error: &Error) -> KeepError
    ensures memory { (result ≡ KeepError.Memory) ↔ (error.now ≡ Error.SqliteFailure ErrorCode.OutOfMemory) }
    ensures only { (result ≡ KeepError.Memory) ⊎ (result ≡ KeepError.Disk) }
{
    match error {
        Error::SqliteFailure(ErrorCode::OutOfMemory) => KeepError::Memory,
        _ => KeepError::Disk,
    }
}
