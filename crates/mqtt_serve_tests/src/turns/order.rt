//! In which order a client is answered (MQTT 5.0, 4.6).
use crate::turns::clients::{Clients, Stage};
use crate::turns::settled::play;
use crate::turns::turns::{CONNACK, are};
use mqtt_link::Commit;
use std::hash::RandomState;
use std::test::Fail;

/// By "p": CONNECT; then, in one read, PUBLISH at QoS 1, PINGREQ, PUBLISH at QoS 2 and PUBLISH at QoS 1 (3.3, 3.12).
const MIXED: &[Stage] = &[
    (0, b"\x10\x0e\x00\x04MQTT\x05\x02\x00\x3c\x00\x00\x01p"),
    (
        16,
        b"\x32\x08\x00\x03c/d\x00\x01\x00\xc0\x00\x34\x08\x00\x03c/d\x00\x02\x00\x32\x08\x00\x03c/d\x00\x03\x00",
    ),
];

/// PUBACK, PINGRESP, PUBREC and PUBACK behind the CONNACK; nobody has subscribed (3.4.2.1, 3.5.2.1).
const IN_ORDER: &[u8] = b"\x40\x03\x00\x01\x10\xd0\x00\x50\x03\x00\x02\x10\x40\x03\x00\x03\x10";

#[test]
fn what_one_read_brings_is_answered_in_order(rt: HostRuntime) -> Result<(), Fail> {
    for commit in [Commit::Turn, Commit::Step] {
        let clients = Clients::new(rt.alloc(), &[MIXED], 4096, None)?;
        let links = play(rt.alloc(), clients, commit, RandomState::new(&rt)?, 20)?;
        let is_in_order = are(links.link().link().taken(0), CONNACK, IN_ORDER);
        drop(links);
        assert!(rt; is_in_order, "{commit:?}");
    }
    Ok(())
}
