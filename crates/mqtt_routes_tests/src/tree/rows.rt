//! Filters in order are found by the names that they match: rows of the standard (MQTT 5.0, 4.7.1 to 4.7.2).
use crate::tree::shelf::Shelf;
use mqtt_routes::matching;
use mqtt_topic::{SubFilter, TopicName};
use std::test::Fail;

/// The filters.
fn filters() -> &'static [&'static str] {
    &[
        "#",
        "+",
        "+/#",
        "+/+",
        "a",
        "a/#",
        "a/+",
        "a/b",
        "a/+/b",
        "a//b",
        "/",
        "/#",
        "+/",
        "$SYS/#",
        "$SYS/+",
        "$share/g/a/b",
        "a/b",
    ]
}

/// Names, and how many of the filters match.
fn names() -> &'static [(&'static str, usize)] {
    &[
        // # + +/# a a/#
        ("a", 5),
        // # +/# +/+ a/# a/+ a/b twice, and the shared one
        ("a/b", 8),
        // # +/# a/# a/+/b a//b
        ("a//b", 5),
        // # +/# +/+ / /# +/
        ("/", 6),
        // # +/# +/+ +/ a/# a/+
        ("a/", 6),
        // # + +/#
        ("b", 3),
        // $SYS/# alone, since no wildcard takes a first level with $
        ("$SYS", 1),
        ("$SYS/x", 2),
        ("$SYS/x/y", 1),
        // # +/# a/#
        ("a/b/c", 3),
    ]
}

#[test]
fn filters_are_found_by_what_they_match(rt: HostRuntime) -> Result<(), Fail> {
    let mut shelf = Shelf::new(rt.alloc());
    for text in filters() {
        shelf.put(SubFilter::parse(rt.alloc(), text)?)?;
    }
    shelf.show_order();
    for (text, expected) in names() {
        let name = TopicName::parse(rt.alloc(), text)?;
        let found = matching(rt.alloc(), &shelf, &name)?.len();
        drop(name);
        assert!(rt; found == *expected, "{text} has {found}");
    }
    drop(shelf);
    Ok(())
}
