//! Three PUBLISH packets to a client that takes one alias, byte by byte (MQTT 5.0, 3.3.2.3.4).
use mqtt_packet::{PacketRef, look_at};
use mqtt_props::{PropName, ValueRef};
use mqtt_topic::{Aliases, Form, OtherBytes, OutAliases, TopicName, most_of, size_in};
use std::alloc::Global;
use std::process::Abort;
use std::test::Fail;

/// A topic that is meant, the frame that goes out, and the form in it.
type Row = (&'static str, &'static [u8], Form);

/// Of QoS 2, with identifiers 1 to 3 and the payload 68 69; Topic Alias Maximum 1.
fn rows() -> &'static [Row] {
    &[
        (
            "a/b",
            &[
                0x34, 0x0d, 0x00, 0x03, 0x61, 0x2f, 0x62, 0x00, 0x01, 0x03, 0x23, 0x00, 0x01, 0x68,
                0x69,
            ],
            Form::Named(1),
        ),
        (
            "a/b",
            &[
                0x34, 0x0a, 0x00, 0x00, 0x00, 0x02, 0x03, 0x23, 0x00, 0x01, 0x68, 0x69,
            ],
            Form::Short(1),
        ),
        (
            "a/c",
            &[
                0x34, 0x0a, 0x00, 0x03, 0x61, 0x2f, 0x63, 0x00, 0x03, 0x00, 0x68, 0x69,
            ],
            Form::Plain,
        ),
    ]
}

/// The Topic Alias of a frame that spells a PUBLISH, and what its reader takes for its topic.
fn is_read(frame: &[u8], aliases: &mut Aliases, meant: &str, form: Form) -> bool {
    let Ok(PacketRef::Publish(publish)) = look_at(frame) else {
        return false;
    };
    let alias = match publish.properties.get(PropName::TopicAlias) {
        Some(prop) => match prop.value {
            ValueRef::U16(alias) => Some(alias),
            _ => None,
        },
        None => None,
    };
    let Ok(name) = aliases.resolve(publish.topic, alias) else {
        return false;
    };
    let is_meant = name.as_str() == meant;
    drop(name);
    is_meant && alias == form.alias()
}

/// Whether a row goes out in its form, has the size of its frame, and is read as it was meant.
fn goes_out(
    alloc: Global,
    told: &mut OutAliases,
    known: &mut Aliases,
    row: &Row,
) -> Result<bool, Fail> {
    let (topic, frame, form) = row;
    let other = OtherBytes {
        properties: 0,
        rest: 4,
    };
    let name = TopicName::parse(alloc, topic)?;
    let sent = told.send(65_536, name.text(), other);
    let size = size_in(*form, name.text(), other);
    drop(name);
    Ok(sent? == Some(*form) && size == Some(frame.len()) && is_read(frame, known, topic, *form))
}

fn all_go_out(
    rt: &impl Abort,
    alloc: Global,
    told: &mut OutAliases,
    known: &mut Aliases,
) -> Result<(), Fail> {
    for row in rows() {
        assert!(rt; goes_out(alloc, told, known, row)?, "{}", row.0);
    }
    Ok(())
}

/// A connection: its sender's table and its reader's begin anew.
fn connect(rt: &impl Abort, alloc: Global) -> Result<(), Fail> {
    let mut told = OutAliases::new(alloc, most_of(Some(1)));
    let mut known = Aliases::new(alloc, 1);
    let done = all_go_out(rt, alloc, &mut told, &mut known);
    drop(told);
    drop(known);
    done
}

#[test]
fn each_connection_begins_with_the_named_form(rt: HostRuntime) -> Result<(), Fail> {
    connect(&rt, rt.alloc())?;
    connect(&rt, rt.alloc())
}
