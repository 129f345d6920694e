//! Names and filters out of packets' texts, and what no packet carries (MQTT 5.0, 1.5.4, 4.7.3).
use mqtt_base::Text;
use mqtt_topic::{Filter, Shared, SubFilter, TopicFault, TopicName};
use std::alloc::Global;
use std::process::Abort;
use std::test::Fail;

/// Why a text is no topic name, no filter, no shared filter and no subscription.
pub(super) fn faults_of(alloc: Global, text: &str) -> [Option<TopicFault>; 4] {
    [
        TopicName::parse(alloc, text).err(),
        Filter::parse(alloc, text).err(),
        Shared::parse(alloc, text).err(),
        SubFilter::parse(alloc, text).err(),
    ]
}

/// A packet's text.
fn text(rt: &impl Abort, alloc: Global, text: &str) -> Result<Text, Fail> {
    assert!(rt; Text::may_hold(text));
    Ok(Text::new(alloc, text)?)
}

/// Whether a topic name gives its text back.
fn is_given_back(rt: &impl Abort, alloc: Global) -> Result<bool, Fail> {
    let name = TopicName::from_text(text(rt, alloc, "a/b")?)?;
    let is_name = name.text().as_str() == "a/b";
    let text = name.into_text();
    let is_text = text.as_str() == "a/b";
    drop(text);
    Ok(is_name && is_text)
}

#[test]
fn a_name_gives_its_text_back(rt: HostRuntime) -> Result<(), Fail> {
    assert!(rt; is_given_back(&rt, rt.alloc())?);
    Ok(())
}

#[test]
fn a_text_of_a_packet_is_read_as_any(rt: HostRuntime) -> Result<(), Fail> {
    let name = TopicName::from_text(text(&rt, rt.alloc(), "a/+")?).err();
    assert!(rt; name == Some(TopicFault::WildcardInName));
    let filter = Filter::from_text(text(&rt, rt.alloc(), "a/+")?).err();
    assert!(rt; filter == None);
    let shared = Shared::from_text(text(&rt, rt.alloc(), "a/+")?).err();
    assert!(rt; shared == Some(TopicFault::Share));
    let sub = SubFilter::from_text(text(&rt, rt.alloc(), "a#")?).err();
    assert!(rt; sub == Some(TopicFault::WildcardPlace));
    Ok(())
}

#[test]
fn what_no_packet_carries_is_no_text(rt: HostRuntime) {
    let fault = Some(TopicFault::NotText);
    let [name, _, _, _] = faults_of(rt.alloc(), "a\0b");
    assert!(rt; name == fault);
    let [_, filter, _, _] = faults_of(rt.alloc(), "a/\0");
    assert!(rt; filter == fault);
    let [_, _, shared, _] = faults_of(rt.alloc(), "$share/g/\0");
    assert!(rt; shared == fault);
    let [_, _, _, sub] = faults_of(rt.alloc(), "\0");
    assert!(rt; sub == fault);
}
