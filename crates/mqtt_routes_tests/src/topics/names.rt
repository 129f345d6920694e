//! Which texts are topic names (MQTT 5.0, 4.7.1, 4.7.3).
use crate::topics::texts::faults_of;
use mqtt_topic::TopicFault;

/// Texts, and why they are no topic names.
fn texts() -> &'static [(&'static str, Option<TopicFault>)] {
    &[
        ("", Some(TopicFault::Empty)),
        ("a/b", None),
        ("/", None),
        ("//", None),
        (" ", None),
        ("$SYS/x", None),
        ("$share/g", None),
        ("a/+", Some(TopicFault::WildcardInName)),
        ("a+b", Some(TopicFault::WildcardInName)),
        ("#", Some(TopicFault::WildcardInName)),
        ("$share/g/#", Some(TopicFault::WildcardInName)),
    ]
}

#[test]
fn a_topic_name_has_no_wildcard(rt: HostRuntime) {
    for (text, fault) in texts() {
        let [name, _, _, _] = faults_of(rt.alloc(), text);
        assert!(rt; name == *fault, "{text}");
    }
}
