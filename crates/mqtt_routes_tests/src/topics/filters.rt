//! Which texts are filters, shared ones too, and what stands in them (MQTT 5.0, 4.7.1, 4.7.3, 4.8.2).
use crate::topics::texts::faults_of;
use mqtt_topic::{Shared, SubFilter, TopicFault, TopicName};
use std::alloc::Global;
use std::test::Fail;

/// Texts, and why they are no filters.
fn texts() -> &'static [(&'static str, Option<TopicFault>)] {
    &[
        ("", Some(TopicFault::Empty)),
        ("a/b", None),
        ("/", None),
        ("#", None),
        ("+", None),
        ("+/tennis/#", None),
        ("sport/tennis#", Some(TopicFault::WildcardPlace)),
        ("sport/tennis/#/ranking", Some(TopicFault::WildcardPlace)),
        ("sport+", Some(TopicFault::WildcardPlace)),
        ("+sport/x", Some(TopicFault::WildcardPlace)),
        ("++", Some(TopicFault::WildcardPlace)),
        ("##", Some(TopicFault::WildcardPlace)),
        ("#/", Some(TopicFault::WildcardPlace)),
        ("$share", None),
        ("$shared/g", None),
        ("/$share/g", None),
        ("$share/", Some(TopicFault::Share)),
        ("$share/g", Some(TopicFault::Share)),
        ("$share//a", Some(TopicFault::Share)),
        ("$share/g/", Some(TopicFault::Share)),
        ("$share/+/a", Some(TopicFault::Share)),
        ("$share/g#/a", Some(TopicFault::Share)),
        ("$share/g/a#", Some(TopicFault::Share)),
        ("$share/g/#/a", Some(TopicFault::Share)),
        ("$share/g/a", None),
        ("$share/g/#", None),
        ("$share/g//", None),
        ("$share/g/$share/h", Some(TopicFault::Share)),
        ("$share/g/$share/h/a", None),
    ]
}

#[test]
fn a_filter_has_its_wildcards_in_their_places(rt: HostRuntime) {
    for (text, fault) in texts() {
        let [_, filter, _, sub] = faults_of(rt.alloc(), text);
        assert!(rt; filter == *fault && sub == *fault, "{text}");
    }
}

/// Whether a shared filter has these parts.
fn has_parts(alloc: Global, text: &str, name: &str, filter: &str) -> Result<bool, TopicFault> {
    let shared = Shared::parse(alloc, text)?;
    let has = shared.as_str() == text && shared.name() == name && shared.filter() == filter;
    drop(shared);
    Ok(has)
}

/// Texts that are no shared filters.
fn unshared() -> &'static [&'static str] {
    &[
        "",
        "a/b",
        "#/a",
        "$share",
        "$share/g",
        "$share/g/",
        "/$share/g/a",
    ]
}

/// Shared filters, each with its name and its filter.
fn shared() -> &'static [(&'static str, &'static str, &'static str)] {
    &[
        ("$share/g/a/b", "g", "a/b"),
        ("$share/ü/+/#", "ü", "+/#"),
        ("$share/g//", "g", "/"),
    ]
}

#[test]
fn a_shared_filter_has_a_name_and_a_filter(rt: HostRuntime) -> Result<(), Fail> {
    for text in unshared() {
        let [_, _, shared, _] = faults_of(rt.alloc(), text);
        assert!(rt; shared == Some(TopicFault::Share), "{text}");
    }
    for (text, name, filter) in shared() {
        assert!(rt; has_parts(rt.alloc(), text, name, filter)?, "{text}");
    }
    Ok(())
}

/// The texts of a subscription, of its group and of its filter, a name, and whether they match.
type Row = (&'static str, &'static str, &'static str, &'static str, bool);

/// Subscriptions and names, and whether they match.
fn subscriptions() -> &'static [Row] {
    &[
        ("a/+", "", "a/+", "a/b", true),
        ("$share/g/a/+", "g/a/+", "a/+", "a/b", true),
        ("$share/g/a/+", "g/a/+", "a/+", "$share/g/a/b", false),
        ("$share/g/#", "g/#", "#", "$SYS/x", false),
        (
            "$share/g/$share/h/a",
            "g/$share/h/a",
            "$share/h/a",
            "$share/h/a",
            true,
        ),
    ]
}

/// Whether a subscription has these texts.
fn has_texts(sub: &SubFilter, text: &str, group: &str, filter: &str) -> bool {
    let is_group = match sub.group() {
        Some(found) => sub.is_shared() && found == group,
        None => !sub.is_shared() && group.is_empty(),
    };
    is_group && sub.as_str() == text && sub.filter() == filter
}

/// Whether a subscription has the texts of a row, and matches its name or not.
fn is_subscribed(alloc: Global, row: &Row) -> Result<bool, TopicFault> {
    let (text, group, filter, name, expected) = row;
    let sub = SubFilter::parse(alloc, text)?;
    let name = TopicName::parse(alloc, name)?;
    let is = has_texts(&sub, text, group, filter) && sub.matches(&name) == *expected;
    drop(sub);
    drop(name);
    Ok(is)
}

#[test]
fn a_subscription_matches_by_its_filter(rt: HostRuntime) -> Result<(), Fail> {
    for row in subscriptions() {
        assert!(rt; is_subscribed(rt.alloc(), row)?, "{}", row.0);
    }
    Ok(())
}
