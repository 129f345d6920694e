//! The packets of ends on the wire, byte by byte (MQTT 5.0, 3.1, 3.3, 3.8).

use crate::peers::ends::{connack, draft, publisher_reads, receiver_reads, text};
use mqtt_base::{Qos, RetainHandling, SubscriptionOptions};
use mqtt_packet::{Fault, Packet, encode, lawful};
use mqtt_script::Wish;
use mqtt_world_ends::peers::{Back, PublisherEnd, ReceiverEnd, Sent, is_message, is_wish};
use std::alloc::{AllocError, Global};
use std::process::Abort;
use std::test::*;

/// CONNECT of p1 with Clean Start: its session doesn't expire (3.1.2.4, 3.1.2.11.2).
const CONNECT: &[u8] = b"\x10\x14\x00\x04MQTT\x05\x02\x00\x00\x05\x11\xff\xff\xff\xff\x00\x02p1";

/// CONNECT of r1 without it, with a Receive Maximum of 10 and a Topic Alias Maximum of 2 (3.1.2.11.3, 3.1.2.11.5).
const CONNECT_BACK: &[u8] =
    b"\x10\x1a\x00\x04MQTT\x05\x00\x00\x00\x0b\x11\xff\xff\xff\xff\x21\x00\x0a\x22\x00\x02\x00\x02r1";

/// PUBLISH of QoS 2 to a/b under the identifier 1 (3.3).
const PUBLISH: &[u8] = b"\x34\x08\x00\x03a/b\x00\x01\x00";

/// SUBSCRIBE to a/b at QoS 2 with the Subscription Identifier 5 (3.8).
const SUBSCRIBE: &[u8] = b"\x82\x0b\x00\x01\x02\x0b\x05\x00\x03a/b\x02";

/// What a packet encodes to.
fn frame_of(alloc: Global, packet: Packet) -> Result<Vec<u8>, AllocError> {
    let frame = if lawful(&packet) {
        encode(alloc, &packet)
    } else {
        Err(Fault::Protocol)
    };
    drop(packet);
    frame.map_err(|_| AllocError)
}

/// What the packet in front encodes to.
fn front_of(
    alloc: Global,
    front: Result<Option<Packet>, AllocError>,
) -> Result<Vec<u8>, AllocError> {
    match front? {
        None => Ok(Vec::new(alloc)),
        Some(packet) => frame_of(alloc, packet),
    }
}

/// The packet in front has these bytes.
fn assert_front(
    rt: &impl Abort,
    alloc: Global,
    front: Result<Option<Packet>, AllocError>,
    bytes: &[u8],
) -> Result<(), AllocError> {
    let frame = front_of(alloc, front)?;
    assert_eq!(rt; frame.as_slice(), bytes, "the packet in front");
    Ok(())
}

/// A publisher joins.
fn joins(rt: &impl Abort, alloc: Global, end: &mut PublisherEnd) -> Result<(), AllocError> {
    end.line.join(Sent::connect(true), 1, true)?;
    assert_front(rt, alloc, end.front(false), CONNECT)?;
    drop(end.line.take_up());
    publisher_reads(end, connack())
}

/// Its message is its own packet in front, and then that of the line that it gave up.
fn publishes(rt: &impl Abort, alloc: Global, end: &mut PublisherEnd) -> Result<(), AllocError> {
    end.publish(draft(alloc)?, true)?;
    assert_front(rt, alloc, end.front(false), PUBLISH)?;
    end.line.give_up();
    assert_front(rt, alloc, end.front(false), &[])?;
    assert_front(rt, alloc, end.front(true), PUBLISH)?;
    assert_eq!(rt; end.done(), 0, "messages");
    Ok(())
}

/// A receiver joins.
fn joins_back(rt: &impl Abort, alloc: Global, end: &mut ReceiverEnd) -> Result<(), AllocError> {
    end.line.join(Back::connect(false), 2, false)?;
    assert_front(rt, alloc, end.front(false), CONNECT_BACK)?;
    drop(end.line.take_up());
    receiver_reads(end, connack())
}

/// A subscription to a/b at QoS 2.
fn wish(alloc: Global, identifier: u32) -> Result<Wish, AllocError> {
    let filter = text(alloc, "a/b")?;
    Ok(Wish {
        filter,
        options: SubscriptionOptions {
            qos: Qos::ExactlyOnce,
            no_local: false,
            retain_as_published: false,
            retain_handling: RetainHandling::SendAlways,
        },
        identifier: Some(identifier),
    })
}

/// A subscription with that identifier is one, or isn't.
fn assert_is_wish(
    rt: &impl Abort,
    alloc: Global,
    identifier: u32,
    wanted: bool,
) -> Result<(), AllocError> {
    let wish = wish(alloc, identifier)?;
    let is = is_wish(alloc, &wish);
    drop(wish);
    assert_eq!(rt; is?, wanted, "the identifier {identifier}");
    Ok(())
}

/// And asks for a subscription.
fn asks(rt: &impl Abort, alloc: Global, end: &mut ReceiverEnd) -> Result<(), AllocError> {
    end.ask(wish(alloc, 5)?, true)?;
    assert!(rt; end.is_asking(), "no SUBACK was read");
    assert_front(rt, alloc, end.front(false), SUBSCRIBE)
}

#[test]
fn a_publisher_on_the_wire(rt: HostRuntime) -> Result<(), AllocError> {
    let alloc = rt.alloc();
    let mut end = PublisherEnd::new(alloc, text(alloc, "p1")?);
    let mut done = joins(&rt, alloc, &mut end);
    if done.is_ok() {
        done = publishes(&rt, alloc, &mut end);
    }
    drop(end);
    done
}

#[test]
fn a_receiver_on_the_wire(rt: HostRuntime) -> Result<(), AllocError> {
    let alloc = rt.alloc();
    let mut end = ReceiverEnd::new(alloc, text(alloc, "r1")?, 10, 2, 0);
    let mut done = joins_back(&rt, alloc, &mut end);
    if done.is_ok() {
        done = asks(&rt, alloc, &mut end);
    }
    drop(end);
    done
}

/// The Subscription Identifier is not 0, and has four bytes at most (1.5.5, 3.8.2.1.2).
#[test]
fn what_may_be_asked_for(rt: HostRuntime) -> Result<(), AllocError> {
    let alloc = rt.alloc();
    assert_is_wish(&rt, alloc, 0, false)?;
    assert_is_wish(&rt, alloc, 1, true)?;
    assert_is_wish(&rt, alloc, 268_435_455, true)?;
    assert_is_wish(&rt, alloc, 268_435_456, false)?;
    let message = draft(alloc)?;
    let is = is_message(&message);
    drop(message);
    assert!(rt; is?, "a message");
    Ok(())
}
