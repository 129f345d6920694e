//! The levels of names and filters, lent (MQTT 5.0, 4.7.1.1).
use mqtt_topic::{Filter, Levels, SubFilter, TopicName};
use std::process::Abort;
use std::test::Fail;

/// These levels, and no further one.
fn are(rt: &impl Abort, levels: Levels<'_>, wanted: &[&str]) {
    let mut levels = levels;
    for level in wanted {
        assert!(rt; !levels.is_at_end());
        assert_eq!(rt; levels.next(), Some(*level));
    }
    assert!(rt; levels.is_at_end());
    assert_eq!(rt; levels.next(), None);
    drop(levels);
}

#[test]
fn a_slash_stands_between_two_levels(rt: HostRuntime) -> Result<(), Fail> {
    let name = TopicName::parse(rt.alloc(), "/a//b")?;
    are(&rt, name.levels(), &["", "a", "", "b"]);
    drop(name);
    let filter = Filter::parse(rt.alloc(), "+/#")?;
    are(&rt, filter.levels(), &["+", "#"]);
    drop(filter);
    Ok(())
}

#[test]
fn a_shared_filter_lends_those_that_are_matched(rt: HostRuntime) -> Result<(), Fail> {
    let filter = SubFilter::parse(rt.alloc(), "$share/g/a/+")?;
    are(&rt, filter.levels(), &["a", "+"]);
    drop(filter);
    Ok(())
}
