//! The forms in which topics are sent, by size (MQTT 5.0, 2.1.4, 3.1.2.11.4, 3.3.2.3.4).
use mqtt_topic::{Form, OtherBytes, OutAliases, TopicName, size_in};
use std::alloc::Global;
use std::process::Abort;
use std::test::Fail;

/// The Maximum Packet Size, a topic, and the form in which it is sent.
type Call = (u32, &'static str, Option<Form>);

/// PUBLISH packets one after another to a client that takes two aliases, each with an identifier and a payload of two bytes: plain it has the
/// topic's bytes and 9, named 12, short 12.
fn calls() -> &'static [Call] {
    &[
        // Topic, alias and all have 15 bytes, the topic alone 12.
        (14, "a/b", Some(Form::Plain)),
        (11, "a/b", None),
        (15, "a/b", Some(Form::Named(1))),
        (15, "a/b", Some(Form::Short(1))),
        (12, "a/b", Some(Form::Short(1))),
        (11, "a/b", None),
        // A topic of one byte is shorter than its alias.
        (100, "c", Some(Form::Named(2))),
        (12, "c", Some(Form::Short(2))),
        (11, "c", Some(Form::Plain)),
        (10, "c", Some(Form::Plain)),
        (9, "c", None),
        // No further number is free.
        (100, "d", Some(Form::Plain)),
        (10, "d", Some(Form::Plain)),
        (9, "d", None),
    ]
}

/// Whether a topic is sent so, and was to be.
fn is_sent(
    alloc: Global,
    aliases: &mut OutAliases,
    other: OtherBytes,
    call: &Call,
) -> Result<bool, Fail> {
    let (largest, topic, expected) = call;
    let name = TopicName::parse(alloc, topic)?;
    let found = aliases.form_for(*largest, name.text(), other);
    let form = aliases.send(*largest, name.text(), other);
    drop(name);
    Ok(found == *expected && form? == *expected)
}

fn send_all(rt: &impl Abort, alloc: Global, aliases: &mut OutAliases) -> Result<(), Fail> {
    let other = OtherBytes {
        properties: 0,
        rest: 4,
    };
    for call in calls() {
        assert!(rt;
            is_sent(alloc, aliases, other, call)?,
            "{} {}",
            call.0,
            call.1
        );
    }
    assert!(rt; aliases.count() == 2);
    Ok(())
}

#[test]
fn the_first_form_that_is_within_is_sent(rt: HostRuntime) -> Result<(), Fail> {
    let mut aliases = OutAliases::new(rt.alloc(), 2);
    let done = send_all(&rt, rt.alloc(), &mut aliases);
    drop(aliases);
    done
}

/// A form, bytes of other properties and of what stands beside them, and the size with the topic `a`.
type Size = (Form, usize, usize, Option<usize>);

/// Sizes by the layout of a PUBLISH (3.3) and the limits of a Remaining Length (2.1.4).
fn sizes() -> &'static [Size] {
    &[
        (Form::Plain, 0, 0, Some(6)),
        (Form::Named(1), 0, 0, Some(9)),
        (Form::Short(1), 0, 0, Some(8)),
        // The length of the properties takes a second byte, and so does the Remaining Length.
        (Form::Plain, 127, 0, Some(134)),
        (Form::Plain, 124, 0, Some(131)),
        (Form::Plain, 123, 0, Some(129)),
        (Form::Named(1), 125, 0, Some(136)),
        (Form::Plain, 0, 268_435_451, Some(268_435_460)),
        (Form::Plain, 0, 268_435_452, None),
        (Form::Named(1), 0, 268_435_449, None),
        (Form::Short(1), 0, 268_435_449, Some(268_435_460)),
        (Form::Plain, 268_435_453, 0, None),
        (Form::Plain, 268_435_447, 0, Some(268_435_459)),
        (Form::Plain, usize::MAX, 0, None),
        (Form::Named(1), 0, usize::MAX, None),
    ]
}

#[test]
fn sizes_are_those_of_the_layout(rt: HostRuntime) -> Result<(), Fail> {
    let name = TopicName::parse(rt.alloc(), "a")?;
    for (form, properties, rest, size) in sizes() {
        let other = OtherBytes {
            properties: *properties,
            rest: *rest,
        };
        assert!(rt;
            size_in(*form, name.text(), other) == *size,
            "{properties} {rest}"
        );
    }
    drop(name);
    Ok(())
}
