//! Why a copy gets no row.

use thiserror::Error;

/// Why a copy gets no row in a queue.
#[derive(Clone, Copy, Debug, PartialEq, Eq, Error)]
pub enum CopyFault {
    /// 1: its PUBLISH has no spelling (2.1.4).
    #[error("the PUBLISH has no spelling")]
    Unspelled = 1,
    /// 2: want of memory.
    #[error("want of memory")]
    Memory = 2,
}
