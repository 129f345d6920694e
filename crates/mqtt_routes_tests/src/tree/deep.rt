//! Filters and names of as many levels as fit a packet (MQTT 5.0, 1.5.4, 4.7).
use crate::tree::shelf::Shelf;
use mqtt_routes::matching;
use mqtt_topic::{SubFilter, TopicName};
use std::alloc::{AllocError, Global};
use std::test::Fail;

/// 65,535 slashes.
fn slashes(alloc: Global) -> Result<String, AllocError> {
    let mut text = String::new(alloc);
    for _ in 0..65_535u32 {
        text.push_str("/")?;
    }
    Ok(text)
}

#[test]
fn filters_of_the_most_levels(rt: HostRuntime) -> Result<(), Fail> {
    let text = slashes(rt.alloc())?;
    let mut shelf = Shelf::new(rt.alloc());
    for _ in 0..3u32 {
        shelf.put(SubFilter::parse(rt.alloc(), text.as_str())?)?;
    }
    shelf.put(SubFilter::parse(rt.alloc(), "+/#")?)?;
    shelf.show_order();
    let name = TopicName::parse(rt.alloc(), text.as_str())?;
    let found = matching(rt.alloc(), &shelf, &name)?.len();
    assert!(rt; found == 4, "{found}");
    let other = TopicName::parse(rt.alloc(), "a/b")?;
    let one = matching(rt.alloc(), &shelf, &other)?.len();
    assert!(rt; one == 1, "{one}");
    Ok(())
}
