//! What is asked of a row, and of each row of a list.
ghost use Rattle.std.specs.Prelude.{◌↔◌, IfOk, IsTrue};
ghost use Rattle.std.specs.List.{AllByRecursion};
ghost use Rattle.mqtt_keep.specs.lawful.Lawful.{IsUpTo};

use mqtt_records::Boxed;
use std::alloc::{AllocError, Global};

/// The numbers that were given last, and the moment of the newest step.
#[derive(Clone, Copy)]
pub struct Last {
    /// The birth of the newest session; 0 before the first.
    pub births: u64,
    /// The number of the newest publication; 0 before the first.
    pub publications: u64,
    /// The number of the newest subscribe; 0 before the first.
    pub subscribes: u64,
    /// The number in the newest client identifier that was assigned; 0 before the first (3.1.3.1).
    pub autos: u64,
    /// The moment of the newest step, in milliseconds.
    pub moment: u64,
}

/// Whether a number is from 1 up to the last.
pub(crate) fn is_up_to(last: u64, number: u64) -> bool
    ensures { IsTrue result ↔ IsUpTo last number }
{
    1 <= number && number <= last
}

/// A row with rules of its own.
pub(crate) trait Lawful: Drop {
    type Within: Copy + Drop;

    ghost is_lawful_within: { Self.Within → Self → Type 0 };

    /// Whether it keeps them.
    fn is_lawful(&self, alloc: Global, within: Self::Within) -> Result<bool, AllocError>
        ensures { IfOk result (λ lawful. IsTrue lawful ↔ is_lawful_within within self.now) };
}

impl<R: Lawful> Lawful for Boxed<R> {
    type Within = R::Within;

    ghost is_lawful_within = { λ within row. R.is_lawful_within within row };

    fn is_lawful(&self, alloc: Global, within: Self::Within) -> Result<bool, AllocError> {
        self.get().is_lawful(alloc, within)
    }
}

/// Whether each row keeps its own rules.
pub(crate) fn are_lawful<R: Lawful>(
    alloc: Global,
    rows: &[R],
    within: R::Within,
) -> Result<bool, AllocError>
    ensures { IfOk result (λ lawful. IsTrue lawful
        ↔ AllByRecursion (R.is_lawful_within within) rows.now) }
{
    let mut rest = rows;
    while let Some((row, after)) = rest.split_first() {
        if !row.is_lawful(alloc, within)? {
            return Ok(false);
        }
        rest = after;
    }
    Ok(true)
}
