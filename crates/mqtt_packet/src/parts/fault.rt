//! Why bytes are no packet, or none could be made (4.13).

ghost use Rattle.std.specs.Prelude.{◌≡◌};
ghost use Rattle.mqtt_packet.specs.declared.parts.fault.Fault.TheVariants.{Malformed, Memory};
ghost use Rattle.mqtt_packet.specs.parts.Faults.{answer_to};

use mqtt_base::{ReadFault, Reason};
use std::alloc::AllocError;
use thiserror::Error;

/// Why a frame gives no packet, or a packet no frame.
#[derive(Clone, Copy, Debug, PartialEq, Eq, Error)]
pub enum Fault {
    /// 1: the bytes have no layout of a packet (1.2); answered 0x81.
    #[error("malformed packet")]
    Malformed = 1,
    /// 2: they have one, and a law is broken (1.2); answered 0x82.
    #[error("protocol error")]
    Protocol = 2,
    /// 3: the packet has more than 65,536 bytes, fixed header included (ours); answered 0x95.
    #[error("packet too large")]
    TooLarge = 3,
    /// 4: a CONNECT of another protocol or another version (3.1.2.1, 3.1.2.2); answered 0x84.
    #[error("unsupported protocol version")]
    Version = 4,
    /// 5: want of memory.
    #[error("want of memory")]
    Memory = 5,
}

impl Fault {
    /// The reason code that CONNACK or DISCONNECT answers it with (4.13); none for want of memory,
    /// which says nothing of the packet. Takes no memory.
    pub fn reason(self) -> Option<Reason>
        ensures { result ≡ answer_to self }
    {
        match self {
            Fault::Malformed => Some(Reason::MALFORMED_PACKET),
            Fault::Protocol => Some(Reason::PROTOCOL_ERROR),
            Fault::TooLarge => Some(Reason::PACKET_TOO_LARGE),
            Fault::Version => Some(Reason::UNSUPPORTED_PROTOCOL_VERSION),
            Fault::Memory => None,
        }
    }
}

impl From<ReadFault> for Fault {
    ghost from_gives = { λ _ fault. fault ≡ Malformed };

    fn from(_fault: ReadFault) -> Fault {
        Fault::Malformed
    }
}

impl From<AllocError> for Fault {
    ghost from_gives = { λ _ fault. fault ≡ Memory };

    fn from(_error: AllocError) -> Fault {
        Fault::Memory
    }
}
