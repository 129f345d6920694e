//! A publisher and a receiver from their CONNECT to the end of a handshake (MQTT 5.0, 3.1, 4.3.3).

use bytes::Bytes;
use mqtt_base::{Cause, CopyId, Qos, Reason, Text};
use mqtt_packet::{Ack, Connack, Delivery, Packet, Publish};
use mqtt_props::PropList;
use mqtt_script::{Content, Draft};
use mqtt_world_ends::peers::{Back, Down, PublisherEnd, ReceiverEnd, Sent};
use std::alloc::{AllocError, Global};
use std::process::Abort;
use std::test::*;

pub(crate) fn text(alloc: Global, text: &str) -> Result<Text, AllocError> {
    if !Text::may_hold(text) {
        return Err(AllocError);
    }
    Text::new(alloc, text)
}

pub(crate) fn connack() -> Packet {
    Packet::Connack(Connack {
        session_present: false,
        reason: Reason::SUCCESS,
        properties: PropList::new(),
    })
}

fn ack() -> Ack {
    Ack {
        identifier: 1,
        reason: Reason::SUCCESS,
        properties: PropList::new(),
    }
}

/// A message of QoS 2.
pub(crate) fn draft(alloc: Global) -> Result<Draft, AllocError> {
    let topic = text(alloc, "a/b")?;
    Ok(Draft {
        qos: Qos::ExactlyOnce,
        content: Content {
            retain: false,
            topic,
            payload: Bytes::new(),
        },
    })
}

/// A PUBLISH of QoS 2.
fn publish(alloc: Global) -> Result<Packet, AllocError> {
    let topic = text(alloc, "a/b")?;
    Ok(Packet::Publish(Publish {
        delivery: Delivery::ExactlyOnce {
            dup: false,
            identifier: 1,
        },
        retain: false,
        topic,
        properties: PropList::new(),
        payload: Bytes::new(),
    }))
}

/// A publisher reads a packet.
pub(crate) fn publisher_reads(end: &mut PublisherEnd, packet: Packet) -> Result<(), AllocError> {
    let copy = None;
    end.line.push_down(Down { packet, copy })?;
    end.read(true)
}

/// A receiver reads a packet.
pub(crate) fn receiver_reads(end: &mut ReceiverEnd, packet: Packet) -> Result<(), AllocError> {
    let copy = None;
    end.line.push_down(Down { packet, copy })?;
    end.read(true)
}

/// It reads a copy of the seventh publication.
fn reads_copy(alloc: Global, end: &mut ReceiverEnd) -> Result<(), AllocError> {
    let packet = publish(alloc)?;
    let copy = Some(CopyId {
        publication: 7,
        birth: 1,
        cause: Cause::Direct,
    });
    end.line.push_down(Down { packet, copy })?;
    end.read(true)
}

/// Whether the publisher has a packet under way is as is said.
fn publisher_sends(rt: &impl Abort, end: &mut PublisherEnd, wanted: bool) {
    let sent = end.line.take_up();
    let is_sent = sent.is_some();
    drop(sent);
    assert_eq!(rt; is_sent, wanted, "a packet of the publisher");
}

/// And the receiver.
fn receiver_sends(rt: &impl Abort, end: &mut ReceiverEnd, wanted: bool) {
    let sent = end.line.take_up();
    let is_sent = sent.is_some();
    drop(sent);
    assert_eq!(rt; is_sent, wanted, "a packet of the receiver");
}

/// A message waits for CONNACK.
fn publish_early(rt: &impl Abort, alloc: Global, end: &mut PublisherEnd) -> Result<(), AllocError> {
    end.line.join(Sent::connect(true), 1, true)?;
    end.publish(draft(alloc)?, true)?;
    publisher_sends(rt, end, true);
    publisher_sends(rt, end, false);
    Ok(())
}

/// It goes out, is released and done.
fn send(rt: &impl Abort, end: &mut PublisherEnd) -> Result<(), AllocError> {
    publisher_reads(end, connack())?;
    publisher_sends(rt, end, true);
    publisher_reads(end, Packet::Pubrec(ack()))?;
    publisher_sends(rt, end, true);
    publisher_reads(end, Packet::Pubcomp(ack()))?;
    publisher_sends(rt, end, false);
    Ok(())
}

/// A receiver joins, and a message is read twice.
fn take(rt: &impl Abort, alloc: Global, end: &mut ReceiverEnd) -> Result<(), AllocError> {
    end.line.join(Back::connect(true), 2, true)?;
    receiver_reads(end, connack())?;
    receiver_sends(rt, end, true);
    reads_copy(alloc, end)?;
    reads_copy(alloc, end)?;
    receiver_sends(rt, end, true);
    receiver_sends(rt, end, true);
    Ok(())
}

/// It was handed over once.
fn was_handed(rt: &impl Abort, alloc: Global, end: &ReceiverEnd) -> Result<(), AllocError> {
    let handed = end.handed(alloc)?;
    assert_eq!(rt; handed.as_slice(), [7].as_slice(), "the seventh, once");
    Ok(())
}

/// It is released, and nothing is left on a line that is given up.
fn release(rt: &impl Abort, end: &mut ReceiverEnd) -> Result<(), AllocError> {
    receiver_reads(end, Packet::Pubrel(ack()))?;
    receiver_sends(rt, end, true);
    end.line.give_up();
    let late = end.line.take_old();
    let is_late = late.is_some();
    drop(late);
    assert!(rt; !is_late, "nothing is under way");
    Ok(())
}

/// A publisher from its CONNECT on.
fn publisher_lives(
    rt: &impl Abort,
    alloc: Global,
    end: &mut PublisherEnd,
) -> Result<(), AllocError> {
    publish_early(rt, alloc, end)?;
    send(rt, end)
}

/// And a receiver.
fn receiver_lives(rt: &impl Abort, alloc: Global, end: &mut ReceiverEnd) -> Result<(), AllocError> {
    take(rt, alloc, end)?;
    was_handed(rt, alloc, end)?;
    release(rt, end)
}

#[test]
fn a_publisher_is_answered(rt: HostRuntime) -> Result<(), AllocError> {
    let alloc = rt.alloc();
    let mut end = PublisherEnd::new(alloc, text(alloc, "p1")?);
    let done = publisher_lives(&rt, alloc, &mut end);
    drop(end);
    done
}

#[test]
fn a_receiver_answers(rt: HostRuntime) -> Result<(), AllocError> {
    let alloc = rt.alloc();
    let mut end = ReceiverEnd::new(alloc, text(alloc, "r1")?, 10, 0, 0);
    let done = receiver_lives(&rt, alloc, &mut end);
    drop(end);
    done
}
