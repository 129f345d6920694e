//! The table of what was told (MQTT 5.0, 3.1.2.11.5, 3.3.2.3.4).
use mqtt_topic::{ALIAS_LIMIT, Form, OutAliases, TopicName, most_of};
use std::alloc::Global;
use std::process::Abort;
use std::test::Fail;

#[test]
fn ten_aliases_at_most(rt: HostRuntime) {
    assert!(rt; ALIAS_LIMIT == 10);
    assert!(rt; most_of(None) == 0);
    assert!(rt; most_of(Some(0)) == 0);
    assert!(rt; most_of(Some(1)) == 1);
    assert!(rt; most_of(Some(10)) == 10);
    assert!(rt; most_of(Some(11)) == 10);
    assert!(rt; most_of(Some(65_535)) == 10);
}

#[test]
fn a_form_carries_its_alias(rt: HostRuntime) {
    assert!(rt; Form::Plain.alias().is_none());
    assert!(rt; Form::Named(3).alias() == Some(3));
    assert!(rt; Form::Short(4).alias() == Some(4));
}

/// Adds a topic if it wasn't told, and answers its number.
fn add(alloc: Global, aliases: &mut OutAliases, topic: &str) -> Result<Option<u16>, Fail> {
    if aliases.look(topic).is_some() {
        return Ok(None);
    }
    let name = TopicName::parse(alloc, topic)?;
    let number = aliases.add(name.text());
    drop(name);
    Ok(number?)
}

/// Eleven topics, of which ten get a number.
fn topics() -> &'static [(&'static str, Option<u16>)] {
    &[
        ("a", Some(1)),
        ("b", Some(2)),
        ("c/c", Some(3)),
        ("d", Some(4)),
        ("e", Some(5)),
        ("f", Some(6)),
        ("a/a", Some(7)),
        ("h", Some(8)),
        ("i", Some(9)),
        ("j", Some(10)),
        ("k", None),
    ]
}

fn add_eleven(rt: &impl Abort, alloc: Global, aliases: &mut OutAliases) -> Result<(), Fail> {
    for (topic, number) in topics() {
        assert!(rt; add(alloc, aliases, topic)? == *number, "{topic}");
        assert!(rt; aliases.look(topic) == *number, "{topic}");
    }
    assert!(rt; aliases.count() == 10);
    assert!(rt; aliases.look("c").is_none());
    aliases.shorten(3);
    assert!(rt; aliases.count() == 3);
    assert!(rt; aliases.look("c/c") == Some(3));
    assert!(rt; aliases.look("d").is_none());
    assert!(rt; add(alloc, aliases, "k")? == Some(4));
    Ok(())
}

#[test]
fn each_topic_has_its_place(rt: HostRuntime) -> Result<(), Fail> {
    let mut aliases = OutAliases::new(rt.alloc(), most_of(Some(65_535)));
    let done = add_eleven(&rt, rt.alloc(), &mut aliases);
    drop(aliases);
    done
}

#[test]
fn who_takes_none_is_told_none(rt: HostRuntime) -> Result<(), Fail> {
    let mut aliases = OutAliases::new(rt.alloc(), most_of(None));
    let number = add(rt.alloc(), &mut aliases, "a");
    let count = aliases.count();
    drop(aliases);
    assert!(rt; number?.is_none() && count == 0);
    Ok(())
}
