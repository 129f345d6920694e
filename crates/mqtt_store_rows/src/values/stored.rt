//! What is kept in a row of its own.
ghost use Rattle.std.specs.Prelude.{◌≡◌, ◌⊎◌, ◌<◌, ℕ, IfOk, IfErr, IsErrOf};
ghost use Rattle.sqlite_value.specs.Order.{Row as SqlRow};

use mqtt_keep::KeepError;
use mqtt_records::{Boxed, Row};
use std::alloc::Global;

/// What has a row of its own in a table.
pub trait Stored: Row {
    // The row says this.
    ghost says: { Self → SqlRow → Type 0 };

    /// Reads a row. `Corrupt` if it says nothing of this kind.
    fn read(alloc: Global, row: &sqlite::Row) -> Result<Self, KeepError>
        ensures ok { IfOk result (λ x. says x row.now) }
        ensures err { IsErrOf result KeepError.Corrupt → (x : Self) → says x row.now → ⊥ }
        ensures fault { IfErr result (λ e. (e ≡ KeepError.Memory) ⊎ (e ≡ KeepError.Corrupt)) };

    // A row says one thing, and keys are counted from 1.
    ghost one: { (x y : Self) (row : SqlRow) → says x row → says y row → x ≡ y };

    ghost from_one: { (x : Self) (row : SqlRow) → says x row → 0 < Self.key_of x };
}

impl<R: Stored> Stored for Boxed<R> {
    ghost says = { λ x row. R.says x row };

    fn read(alloc: Global, row: &sqlite::Row) -> Result<Self, KeepError> {
        let item = match R::read(alloc, row) {
            Ok(item) => item,
            Err(fault) => return Err(fault),
        };
        Ok(Boxed::new(alloc, item)?)
    }

    ghost one = { λ x y row h k. R.one x y row h k };

    ghost from_one = { λ x row h. R.from_one x row h };
}
