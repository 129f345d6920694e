//! Owned parts that are made one after the other.

ghost use Rattle.std.specs.Prelude.{◌≡◌, IfOk, Ok};

use std::alloc::AllocError;

/// Both parts, if the second was made; else the first is let go.
#[inline(always)]
pub fn both<A: Drop, B>(first: A, second: Result<B, AllocError>) -> Result<(A, B), AllocError>
    ensures first { IfOk result (λ parts. parts.0 ≡ first) }
    ensures second { IfOk result (λ parts. second ≡ Ok parts.1) }
{
    match second {
        Ok(second) => Ok((first, second)),
        Err(error) => {
            drop(first);
            Err(error)
        }
    }
}
