//! Why no database was made (ours).
use thiserror::Error;

/// Why no database was made where none stands.
#[derive(Clone, Copy, Debug, PartialEq, Eq, Error)]
pub enum MakeFault {
    /// 1: want of memory.
    #[error("want of memory")]
    Memory = 1,
    /// 2: the files did not open, or another process has them.
    #[error("the files did not open")]
    Files = 2,
    /// 3: a read or a write of them failed, or the disk is full.
    #[error("the disk failed")]
    Disk = 3,
}
