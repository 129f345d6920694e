//! A copy's PUBLISH in its forms against bytes that were worked by hand (3.3.2.1, 3.3.2.3.4).

use crate::sent::copies::{copy, passed};
use mqtt_base::Qos;
use mqtt_broker_looks::sent::{other_bytes, publish_in, publish_in_len};
use mqtt_records::{MessageCopy, PassedOn};
use mqtt_topic::{Form, OtherBytes};
use std::alloc::{AllocError, Global};
use std::process::Abort;
use std::test::Fail;

/// Its PUBLISH in a form, and the size that is told of it.
fn goes_out(
    rt: &impl Abort,
    alloc: Global,
    now: u64,
    dup: bool,
    identifier: u16,
    form: Form,
    copy: &MessageCopy,
    want: &[u8],
) -> Result<(), AllocError> {
    let Some(size) = publish_in_len(form, &copy.lend()) else {
        assert!(rt; false, "it has a spelling in this form");
        return Ok(());
    };
    assert_eq!(rt; size, want.len());
    let bytes = publish_in(alloc, now, dup, identifier, form, &copy.lend())?;
    assert_eq!(rt; bytes.as_slice(), want);
    drop(bytes);
    Ok(())
}

/// The first time with the topic and its new alias, then by the alias alone.
fn named_and_short(rt: &impl Abort, alloc: Global, copy: &MessageCopy) -> Result<(), AllocError> {
    let named = [
        0x34, 0x0d, 0x00, 0x03, 0x61, 0x2f, 0x62, 0x00, 0x01, 0x03, 0x23, 0x00, 0x01, 0x68, 0x69,
    ];
    goes_out(rt, alloc, 0, false, 1, Form::Named(1), copy, &named)?;
    let short = [
        0x34, 0x0a, 0x00, 0x00, 0x00, 0x02, 0x03, 0x23, 0x00, 0x01, 0x68, 0x69,
    ];
    goes_out(rt, alloc, 0, false, 2, Form::Short(1), copy, &short)?;
    let again = [
        0x3c, 0x0a, 0x00, 0x00, 0x00, 0x02, 0x03, 0x23, 0x00, 0x01, 0x68, 0x69,
    ];
    goes_out(rt, alloc, 0, true, 2, Form::Short(1), copy, &again)?;
    let plain = [
        0x34, 0x0a, 0x00, 0x03, 0x61, 0x2f, 0x62, 0x00, 0x03, 0x00, 0x68, 0x69,
    ];
    goes_out(rt, alloc, 0, false, 3, Form::Plain, copy, &plain)
}

#[test]
fn an_alias_is_told_and_then_stands_for_its_topic(rt: HostRuntime) -> Result<(), Fail> {
    let alloc = rt.alloc();
    let copy = copy(alloc, Qos::ExactlyOnce, &[], PassedOn::new())?;
    let done = named_and_short(&rt, alloc, &copy);
    drop(copy);
    done?;
    Ok(())
}

#[test]
fn an_alias_stands_between_identifiers_and_user_properties(rt: HostRuntime) -> Result<(), Fail> {
    let alloc = rt.alloc();
    let properties = passed(alloc, Some(10), true)?;
    let copy = copy(alloc, Qos::AtLeastOnce, &[7, 8], properties)?;
    let want = [
        0x32, 0x1d, 0x00, 0x03, 0x61, 0x2f, 0x62, 0x00, 0x01, 0x13, 0x02, 0x00, 0x00, 0x00, 0x08,
        0x0b, 0x07, 0x0b, 0x08, 0x23, 0x01, 0x02, 0x26, 0x00, 0x01, 0x6b, 0x00, 0x01, 0x76, 0x68,
        0x69,
    ];
    let done = goes_out(
        &rt,
        alloc,
        2_000,
        false,
        1,
        Form::Named(0x0102),
        &copy,
        &want,
    );
    drop(copy);
    done?;
    Ok(())
}

#[test]
fn the_other_bytes_are_counted(rt: HostRuntime) -> Result<(), Fail> {
    let alloc = rt.alloc();
    let properties = passed(alloc, Some(10), true)?;
    let copy = copy(alloc, Qos::AtLeastOnce, &[7, 8], properties)?;
    let found = other_bytes(&copy.lend());
    drop(copy);
    // five of the interval, four of the identifiers, seven of the User Property
    let want = OtherBytes {
        properties: 16,
        rest: 4,
    };
    assert_eq!(rt; found, Some(want));
    Ok(())
}

#[test]
fn too_great_an_identifier_has_no_spelling_in_any_form(rt: HostRuntime) -> Result<(), Fail> {
    let alloc = rt.alloc();
    let copy = copy(alloc, Qos::AtMostOnce, &[1 << 28], PassedOn::new())?;
    let named = publish_in_len(Form::Named(1), &copy.lend());
    let found = other_bytes(&copy.lend());
    drop(copy);
    assert_eq!(rt; named, None);
    assert_eq!(rt; found, None);
    Ok(())
}
