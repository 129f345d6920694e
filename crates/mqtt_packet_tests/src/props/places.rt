//! Which property stands where, of which kind its value is, and the laws of a block (2.2.2.2).

use crate::props::rows::{PLACES, table};
use mqtt_props::{Place, PropFault, PropName, allowed, layout_read, look_at, read};
use std::alloc::Global;
use std::process::Abort;

fn fault_of(block: &[u8], place: Place) -> Option<PropFault> {
    match look_at(block, place) {
        Ok((props, _)) => {
            drop(props);
            None
        }
        Err(fault) => Some(fault),
    }
}

/// A property of this block may stand in this place, or not; a block that is cut never may.
fn assert_stands(rt: &impl Abort, stands: bool, place: Place, block: &[u8], cut: &[u8]) {
    let malformed = Some(PropFault::Malformed);
    let want = if stands { None } else { malformed };
    let has_layout = layout_read(block, place).is_ok();
    assert!(rt; fault_of(block, place) == want, "{block:?} in {place:?}");
    assert!(rt; has_layout == stands);
    assert!(rt; fault_of(cut, place) == malformed);
}

#[test]
fn each_property_stands_in_its_places_alone(rt: HostRuntime) {
    for (id, _, bits, block, cut) in table() {
        for (place, bit) in PLACES.iter().zip(bits.iter()) {
            let stands = *bit == b'x';
            assert!(rt; allowed(*id, *place) == stands, "{id} in {place:?}");
            assert_stands(&rt, stands, *place, block, cut);
        }
    }
}

#[test]
fn each_identifier_is_of_a_name_and_a_kind(rt: HostRuntime) {
    for (id, kind, _, _, _) in table() {
        let name = PropName::from_id(*id).expect(&rt, "it is an identifier");
        assert!(rt; name.kind() == *kind, "{id}");
        assert!(rt; u32::from(name.id()) == *id);
    }
}

/// Numbers that Table 2-4 leaves out.
fn other_numbers() -> &'static [u32] {
    &[
        0,
        4,
        7,
        0x0a,
        0x0c,
        0x10,
        0x14,
        0x1b,
        0x1d,
        0x20,
        0x2b,
        0x7f,
        0x80,
        0x101,
        0xffff_ffff,
    ]
}

#[test]
fn no_other_number_is_an_identifier(rt: HostRuntime) {
    for id in other_numbers() {
        assert!(rt; PropName::from_id(*id).is_none(), "{id}");
        for place in PLACES {
            assert!(rt; !allowed(*id, place), "{id} in {place:?}");
        }
    }
}

const MALFORMED: Option<PropFault> = Some(PropFault::Malformed);

const TWICE: Option<PropFault> = Some(PropFault::Twice);

const BAD: Option<PropFault> = Some(PropFault::BadValue);

/// The laws of 2.2.2.2, 3.1.2.11.3, 3.1.2.11.4, 3.1.2.11.10, 3.3.2.3.5 and 3.8.2.1.2, each broken
/// once and kept once beside it; and the order of the faults.
fn laws() -> &'static [(&'static str, Place, &'static [u8], Option<PropFault>)] {
    &[
        ("no property", Place::Connect, &[0], None),
        ("a byte of 2", Place::Publish, &[2, 1, 2], BAD),
        ("a byte of 255", Place::Connack, &[2, 0x25, 255], BAD),
        ("Maximum QoS 2", Place::Connack, &[2, 0x24, 2], BAD),
        ("Receive Maximum 0", Place::Connect, &[3, 0x21, 0, 0], BAD),
        (
            "Receive Maximum 256",
            Place::Connect,
            &[3, 0x21, 1, 0],
            None,
        ),
        (
            "Topic Alias Maximum 0",
            Place::Connect,
            &[3, 0x22, 0, 0],
            None,
        ),
        (
            "Maximum Packet Size 0",
            Place::Connack,
            &[5, 0x27, 0, 0, 0, 0],
            BAD,
        ),
        (
            "Maximum Packet Size 1",
            Place::Connack,
            &[5, 0x27, 0, 0, 0, 1],
            None,
        ),
        (
            "Message Expiry Interval 0",
            Place::Will,
            &[5, 2, 0, 0, 0, 0],
            None,
        ),
        (
            "Subscription Identifier 0",
            Place::Subscribe,
            &[2, 0x0b, 0],
            BAD,
        ),
        (
            "Subscription Identifier 1",
            Place::Subscribe,
            &[2, 0x0b, 1],
            None,
        ),
        (
            "Response Topic a/b",
            Place::Publish,
            &[6, 8, 0, 3, b'a', b'/', b'b'],
            None,
        ),
        ("Response Topic +", Place::Publish, &[4, 8, 0, 1, b'+'], BAD),
        (
            "Response Topic a#",
            Place::Will,
            &[5, 8, 0, 2, b'a', b'#'],
            BAD,
        ),
        ("Content Type +", Place::Publish, &[4, 3, 0, 1, b'+'], None),
        (
            "data without a method",
            Place::Connect,
            &[4, 0x16, 0, 1, 7],
            BAD,
        ),
        (
            "data before its method",
            Place::Auth,
            &[8, 0x16, 0, 1, 7, 0x15, 0, 1, b'm'],
            None,
        ),
        (
            "a method without data",
            Place::Auth,
            &[4, 0x15, 0, 1, b'm'],
            None,
        ),
        (
            "Payload Format Indicator twice",
            Place::Publish,
            &[4, 1, 0, 1, 0],
            TWICE,
        ),
        (
            "Topic Alias twice, of other values",
            Place::Publish,
            &[6, 0x23, 0, 1, 0x23, 0, 2],
            TWICE,
        ),
        (
            "two User Properties",
            Place::Unsuback,
            &[10, 0x26, 0, 0, 0, 0, 0x26, 0, 0, 0, 0],
            None,
        ),
        (
            "two Subscription Identifiers",
            Place::Publish,
            &[4, 0x0b, 5, 0x0b, 5],
            None,
        ),
        (
            "two of them in SUBSCRIBE",
            Place::Subscribe,
            &[4, 0x0b, 5, 0x0b, 6],
            TWICE,
        ),
        (
            "twice before a bad value",
            Place::Connect,
            &[6, 0x21, 0, 0, 0x21, 0, 0],
            TWICE,
        ),
        (
            "a foreign one before twice",
            Place::Publish,
            &[6, 1, 2, 1, 2, 0x17, 1],
            MALFORMED,
        ),
        (
            "an unknown identifier",
            Place::Publish,
            &[2, 4, 0],
            MALFORMED,
        ),
        (
            "an identifier of two bytes",
            Place::Publish,
            &[3, 0x81, 0, 1],
            MALFORMED,
        ),
        (
            "a length that is too great",
            Place::Publish,
            &[3, 1, 1],
            MALFORMED,
        ),
        (
            "a length that is too small",
            Place::Publish,
            &[1, 1, 1],
            MALFORMED,
        ),
        (
            "a length of two bytes for 2",
            Place::Publish,
            &[0x82, 0, 1, 1],
            MALFORMED,
        ),
        ("no length", Place::Publish, &[], MALFORMED),
        (
            "a text with U+0000",
            Place::Publish,
            &[4, 3, 0, 1, 0],
            MALFORMED,
        ),
        (
            "a text that is no UTF-8",
            Place::Publish,
            &[4, 3, 0, 1, 0xff],
            MALFORMED,
        ),
    ]
}

/// The fault of the block where it is read into memory of its own.
fn owned_fault_of(alloc: Global, block: &[u8], place: Place) -> Option<PropFault> {
    match read(alloc, block, place) {
        Ok((list, _)) => {
            drop(list);
            None
        }
        Err(fault) => Some(fault),
    }
}

#[test]
fn a_broken_law_has_its_fault(rt: HostRuntime) {
    for (text, place, block, want) in laws() {
        assert!(rt; fault_of(block, *place) == *want, "{text}");
        assert!(rt;
            owned_fault_of(rt.alloc(), block, *place) == *want,
            "{text}"
        );
        // A law is no part of the layout.
        let has_layout = layout_read(block, *place).is_ok();
        assert!(rt; has_layout == (*want != MALFORMED), "{text}");
    }
}
