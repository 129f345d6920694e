//! Why a handshake does not take a step.

use thiserror::Error;

/// Why a flow is as it was before the call.
#[derive(Clone, Copy, Debug, PartialEq, Eq, Error)]
pub enum FlowFault {
    /// 1: the queue has 1,000 copies (ours).
    #[error("the queue is full")]
    Full = 1,
    /// 2: the packet answers no step that its handshake has come to (4.3); answered 0x82 (ours).
    #[error("the handshake has not come to this step")]
    WrongStep = 2,
    /// 3: want of memory.
    #[error("want of memory")]
    Memory = 3,
}
