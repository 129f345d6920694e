//! Vectors whose frame gives what is known of it, and vectors of each kind that are wrong.

use mqtt_cli::{Gives, Vector, is_right};
use mqtt_packet::Fault;
use std::test::Fail;

/// A vector whose frame is to give a packet.
fn packet(frame: &'static [u8], line: &'static [u8], shortest: &'static [u8]) -> Vector {
    Vector {
        frame,
        gives: Gives::Packet { line, shortest },
    }
}

/// A vector whose frame is to be refused.
fn refusal(frame: &'static [u8], fault: Fault) -> Vector {
    Vector {
        frame,
        gives: Gives::Refusal(fault),
    }
}

/// PUBACK with the identifier 10 and a code 00 that is spelled out (3.4.2.1), and its shortest spelling.
const ACK: &[u8] = b"\x40\x03\x00\x0a\x00";

const SHORTEST: &[u8] = b"\x40\x02\x00\x0a";

const LINE: &[u8] = b" PUBACK 5 id=10 code=00";

#[test]
fn a_vector_is_right_by_its_packet_line_and_shortest_spelling(rt: HostRuntime) -> Result<(), Fail> {
    for (vector, right, case) in [
        (packet(ACK, LINE, SHORTEST), true, "all as it is"),
        (
            packet(ACK, b" PUBACK 5 id=11 code=00", SHORTEST),
            false,
            "another line",
        ),
        (packet(ACK, LINE, ACK), false, "a longer spelling"),
        (
            packet(b"\x40\x03\x00\x0a", LINE, SHORTEST),
            false,
            "a frame that is cut short",
        ),
        (
            packet(b"\x40\x03\x00\x0a\x00\xc0", LINE, SHORTEST),
            false,
            "a byte behind the frame",
        ),
        (
            packet(b"\x40\x03\x00\x0a\x01", LINE, SHORTEST),
            false,
            "a frame that is refused",
        ),
        (packet(b"", LINE, SHORTEST), false, "no frame"),
        (
            refusal(b"\x40\x03\x00\x0a\x01", Fault::Malformed),
            true,
            "refused so",
        ),
        (
            refusal(b"\x40\x03\x00\x0a\x01", Fault::Protocol),
            false,
            "refused for another fault",
        ),
        (
            refusal(b"\x40\x03\x00\x0a", Fault::Malformed),
            false,
            "not refused yet",
        ),
        (refusal(ACK, Fault::Malformed), false, "not refused"),
        (
            refusal(b"\x30\xfd\xff\x03", Fault::TooLarge),
            true,
            "refused by its length alone",
        ),
    ] {
        assert!(rt; is_right(rt.alloc(), &vector)? == right, "{case}");
    }
    Ok(())
}
