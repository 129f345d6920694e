//! The streams of examples/ with their views, which other programs wrote or a hand did (3).

use crate::viewer::views::{one_view, why};
use mqtt_cli::{Status, ViewFault};
use std::alloc::Global;
use std::test::Fail;

/// `examples/first.mqtt`: a sensor's line.
const FIRST: &[u8] =
    b"1\x1c\x00\x13home/kitchen/status\x00online0\x1f\x00\x18home/kitchen/temperature\x0021.50\x1a\x00\x15home/kitchen/humidity\x0048\xc0\x000#\x00\x1chome/living room/temperature\x0019.80\x1f\x00\x18home/kitchen/temperature\x0021.60'\x00\x10home/kitchen/air\x00{\x22co2\x22:612,\x22voc\x22:37}\xc0\x00";

/// `examples/first.view`.
const FIRST_VIEW: &[u8] =
    b"0 PUBLISH 30 qos=0 retain topic=home/kitchen/status payload=6\n30 PUBLISH 33 qos=0 topic=home/kitchen/temperature payload=4\n63 PUBLISH 28 qos=0 topic=home/kitchen/humidity payload=2\n91 PINGREQ 2\n93 PUBLISH 37 qos=0 topic=home/living%20room/temperature payload=4\n130 PUBLISH 33 qos=0 topic=home/kitchen/temperature payload=4\n163 PUBLISH 41 qos=0 topic=home/kitchen/air payload=20\n204 PINGREQ 2\n";

/// `examples/board.client.mqtt`: what mosquitto_sub sent.
const BOARD_CLIENT: &[u8] =
    b"\x10(\x00\x04MQTT\x05\x00\x00<\x16!\x00\x0a&\x00\x04site\x00\x05attic\x11\x00\x00\x01,\x00\x05board\x82,\x00\x01\x02\x0b\x07\x00\x12home/+/temperature\x02\x00\x0f$share/g/home/#\x02@\x02\x00\x01@\x02\x00\x02P\x02\x00\x03P\x02\x00\x04p\x02\x00\x03p\x02\x00\x04@\x02\x00\x05@\x02\x00\x06\xe0\x01\x04";

/// `examples/board.client.view`.
const BOARD_CLIENT_VIEW: &[u8] =
    b"0 CONNECT 42 client=board clean=0 keep=60 will=0 props=3\n42 SUBSCRIBE 46 id=1 filter=home/+/temperature:02 filter=$share/g/home/#:02 props=1\n88 PUBACK 4 id=1 code=00\n92 PUBACK 4 id=2 code=00\n96 PUBREC 4 id=3 code=00\n100 PUBREC 4 id=4 code=00\n104 PUBCOMP 4 id=3 code=00\n108 PUBCOMP 4 id=4 code=00\n112 PUBACK 4 id=5 code=00\n116 PUBACK 4 id=6 code=00\n120 DISCONNECT 3 code=04\n";

/// `examples/board.broker.mqtt`: what mosquitto answered.
const BOARD_BROKER: &[u8] =
    b" \x09\x00\x00\x06\x22\x00\x0a!\x00\x14\x90\x05\x00\x01\x00\x02\x020!\x00\x18home/kitchen/temperature\x02\x0b\x0721.50!\x00\x18home/kitchen/temperature\x02\x0b\x0721.525\x00\x18home/kitchen/temperature\x00\x01\x14\x0b\x07\x03\x00\x0atext/plain\x02\x00\x00\x00<21.625\x00\x18home/kitchen/temperature\x00\x02\x14\x0b\x07\x03\x00\x0atext/plain\x02\x00\x00\x00<21.64K\x00\x1chome/living room/temperature\x00\x03&\x0b\x07&\x00\x04unit\x00\x07celsius\x08\x00\x0chome/answers\x09\x00\x021719.84K\x00\x1chome/living room/temperature\x00\x04&\x0b\x07&\x00\x04unit\x00\x07celsius\x08\x00\x0chome/answers\x09\x00\x021719.8b\x02\x00\x03b\x02\x00\x042\x1d\x00\x16home/attic/temperature\x00\x05\x02\x0b\x072\x1d\x00\x16home/attic/temperature\x00\x06\x02\x0b\x07";

/// `examples/board.broker.view`.
const BOARD_BROKER_VIEW: &[u8] =
    b"0 CONNACK 11 present=0 code=00 props=2\n11 SUBACK 7 id=1 codes=02,02\n18 PUBLISH 35 qos=0 topic=home/kitchen/temperature payload=4 props=1\n53 PUBLISH 35 qos=0 topic=home/kitchen/temperature payload=4 props=1\n88 PUBLISH 55 qos=1 id=1 topic=home/kitchen/temperature payload=4 props=3\n143 PUBLISH 55 qos=1 id=2 topic=home/kitchen/temperature payload=4 props=3\n198 PUBLISH 77 qos=2 id=3 topic=home/living%20room/temperature payload=4 props=4\n275 PUBLISH 77 qos=2 id=4 topic=home/living%20room/temperature payload=4 props=4\n352 PUBREL 4 id=3 code=00\n356 PUBREL 4 id=4 code=00\n360 PUBLISH 31 qos=1 id=5 topic=home/attic/temperature payload=0 props=1\n391 PUBLISH 31 qos=1 id=6 topic=home/attic/temperature payload=0 props=1\n";

/// How many of the examples have their view.
fn right_examples(
    alloc: Global,
    written: &mut Vec<u8>,
    again: &mut Vec<u8>,
) -> Result<u32, ViewFault> {
    let mut count: u32 = 0;
    for (input, text) in [
        (FIRST, FIRST_VIEW),
        (BOARD_CLIENT, BOARD_CLIENT_VIEW),
        (BOARD_BROKER, BOARD_BROKER_VIEW),
    ] {
        let status = one_view(alloc, input, written, again)?;
        if status == Some(Status::Whole) && written.as_slice() == text {
            count = count.wrapping_add(1);
        }
    }
    Ok(count)
}

#[test]
fn each_example_has_its_view(rt: HostRuntime) -> Result<(), Fail> {
    let mut written: Vec<u8> = Vec::new(rt.alloc());
    let mut again: Vec<u8> = Vec::new(rt.alloc());
    let count = right_examples(rt.alloc(), &mut written, &mut again);
    drop(written);
    drop(again);
    assert!(rt; count.map_err(why)? == 3);
    Ok(())
}
