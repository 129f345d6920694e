//! What is made of rows, as an answer gives one after the other.
ghost use Rattle.std.specs.Prelude.{[], ◌∷◌, ◌++◌, List, OnOk};
ghost use Rattle.sqlite_value.specs.Order.{Row as SqlRow};

use sqlite::Row;
use std::alloc::AllocError;

/// What takes in the rows of an answer, one after the other.
pub trait Gather {
    // It has taken in these rows.
    ghost has_taken: { Self → List SqlRow → Type 0 };

    // The second goes on with what the first was begun for.
    ghost goes_on: { Self → Self → Type 0 };

    /// Takes in the next row.
    fn take_in(&mut self, row: &Row) -> Result<(), AllocError>
        ensures taken { (rows : List SqlRow) → has_taken self.old rows
            → OnOk result (has_taken self.new (rows ++ row.now ∷ [])) }
        ensures goes_on { OnOk result (goes_on self.old self.new) };

    ghost stays: { (gather : Self) → goes_on gather gather };

    ghost on_and_on: { (first mid last : Self) → goes_on first mid → goes_on mid last → goes_on first last };
}
