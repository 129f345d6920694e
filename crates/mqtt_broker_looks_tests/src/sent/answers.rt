//! Answers against bytes that were worked by hand (3.2, 3.4 to 3.7, 3.9, 3.11, 3.13, 3.14).

use bytes::Bytes;
use mqtt_base::{Reason, Text};
use mqtt_broker_looks::sent::{
    connack_assigned, connack_granted, connack_refused, disconnect, puback, pubcomp, pubrec,
    pubrel, suback, suback_len, unsuback,
};
use std::alloc::{AllocError, Global};
use std::process::Abort;
use std::test::Fail;

fn assert_is(
    rt: &impl Abort,
    found: Result<Bytes, AllocError>,
    want: &[u8],
) -> Result<(), AllocError> {
    match found {
        Ok(bytes) => {
            assert_eq!(rt; bytes.as_slice(), want);
            drop(bytes);
            Ok(())
        }
        Err(fault) => Err(fault),
    }
}

#[test]
fn a_success_goes_without_its_code(rt: HostRuntime) -> Result<(), Fail> {
    let alloc = rt.alloc();
    let code = Reason::SUCCESS;
    assert_is(&rt, puback(alloc, 10, code), &[0x40, 0x02, 0x00, 0x0a])?;
    assert_is(&rt, pubrec(alloc, 10, code), &[0x50, 0x02, 0x00, 0x0a])?;
    assert_is(&rt, pubrel(alloc, 7, code), &[0x62, 0x02, 0x00, 0x07])?;
    assert_is(&rt, pubcomp(alloc, 10, code), &[0x70, 0x02, 0x00, 0x0a])?;
    assert_is(&rt, disconnect(alloc, code), &[0xe0, 0x00])?;
    Ok(())
}

#[test]
fn any_other_code_is_told(rt: HostRuntime) -> Result<(), Fail> {
    let alloc = rt.alloc();
    let none = Reason::NO_MATCHING_SUBSCRIBERS;
    assert_is(
        &rt,
        pubrec(alloc, 10, none),
        &[0x50, 0x03, 0x00, 0x0a, 0x10],
    )?;
    let full = Reason::QUOTA_EXCEEDED;
    assert_is(
        &rt,
        pubrec(alloc, 10, full),
        &[0x50, 0x03, 0x00, 0x0a, 0x97],
    )?;
    let unknown = Reason::PACKET_IDENTIFIER_NOT_FOUND;
    assert_is(
        &rt,
        pubcomp(alloc, 7, unknown),
        &[0x70, 0x03, 0x00, 0x07, 0x92],
    )?;
    let over = Reason::RECEIVE_MAXIMUM_EXCEEDED;
    assert_is(&rt, disconnect(alloc, over), &[0xe0, 0x01, 0x93])?;
    Ok(())
}

#[test]
fn each_filter_has_its_code(rt: HostRuntime) -> Result<(), Fail> {
    let alloc = rt.alloc();
    let granted = [0x90, 0x05, 0x00, 0x01, 0x00, 0x02, 0x8f];
    assert_is(&rt, suback(alloc, 1, &[0x02, 0x8f]), &granted)?;
    let dropped = [0xb0, 0x05, 0x00, 0x07, 0x00, 0x00, 0x11];
    assert_is(&rt, unsuback(alloc, 7, &[0x00, 0x11]), &dropped)?;
    assert_eq!(rt; suback_len(2), 7);
    // two bytes of head, two of identifier, one of properties: 59 codes make 64 bytes
    assert_eq!(rt; suback_len(59), 64);
    assert_eq!(rt; suback_len(125), 131);
    Ok(())
}

#[test]
fn another_version_is_refused(rt: HostRuntime) -> Result<(), Fail> {
    let code = Reason::UNSUPPORTED_PROTOCOL_VERSION;
    let want = [0x20, 0x03, 0x00, 0x84, 0x00];
    assert_is(&rt, connack_refused(rt.alloc(), code), &want)?;
    Ok(())
}

#[test]
fn a_resumed_client_is_told_the_limits(rt: HostRuntime) -> Result<(), Fail> {
    let want = [
        0x20, 0x0e, 0x01, 0x00, 0x0b, 0x21, 0x00, 0x14, 0x22, 0x00, 0x0a, 0x27, 0x00, 0x01, 0x00,
        0x00,
    ];
    assert_is(&rt, connack_granted(rt.alloc(), true), &want)?;
    Ok(())
}

/// The CONNACK that assigns a client identifier.
fn assigned(alloc: Global, client: &str) -> Result<Bytes, AllocError> {
    if !Text::may_hold(client) {
        return Err(AllocError);
    }
    let client = Text::new(alloc, client)?;
    let bytes = connack_assigned(alloc, &client);
    drop(client);
    bytes
}

#[test]
fn a_nameless_client_is_given_a_name(rt: HostRuntime) -> Result<(), Fail> {
    let want = [
        0x20, 0x17, 0x00, 0x00, 0x14, 0x12, 0x00, 0x06, 0x61, 0x75, 0x74, 0x6f, 0x2d, 0x31, 0x21,
        0x00, 0x14, 0x22, 0x00, 0x0a, 0x27, 0x00, 0x01, 0x00, 0x00,
    ];
    assert_is(&rt, assigned(rt.alloc(), "auto-1"), &want)?;
    Ok(())
}
