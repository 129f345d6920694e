//! Moments, codes and limits, from the standard and worked by hand (2.4, 3.1.2.10, 3.3.4, 3.9.3).

use mqtt_base::{LAST_NUMBER, Qos, Reason, RetainHandling};
use mqtt_broker_looks::decided::{
    accepted_code, again_code, capped, drop_code, fault_code, filter_code, is_due, is_late_expiry,
    is_silent, later, silence_due, topic_code, wants_retained,
};
use mqtt_packet::Delivery;
use mqtt_topic::TopicFault;

#[test]
fn a_line_is_silent_after_one_and_a_half_keep_alives(rt: HostRuntime) {
    assert_eq!(rt; silence_due(0, 60, true), Some(90_000));
    assert!(rt; !is_silent(89_999, 0, 60, true), "a millisecond before");
    assert!(rt; is_silent(90_000, 0, 60, true), "after 90 seconds");
    assert_eq!(rt; silence_due(0, 0, true), None, "Keep Alive 0");
    assert_eq!(rt; silence_due(5, 0, false), Some(10_005), "without CONNECT");
}

#[test]
fn moments_stop_at_the_last(rt: HostRuntime) {
    assert_eq!(rt; capped(7), 7);
    assert_eq!(rt; capped(LAST_NUMBER + 1), LAST_NUMBER);
    assert_eq!(rt; later(1, 2), 3);
    assert_eq!(rt; later(LAST_NUMBER, 5), LAST_NUMBER);
    assert!(rt; is_due(5, Some(5)), "now");
    assert!(rt; !is_due(4, Some(5)), "later");
    assert!(rt; !is_due(4, None), "never");
}

#[test]
fn codes_are_those_of_the_standard(rt: HostRuntime) {
    let id = 1;
    assert_eq!(rt; accepted_code(true).0, 0x00);
    assert_eq!(rt; accepted_code(false).0, 0x10);
    let once = Delivery::ExactlyOnce {
        dup: true,
        identifier: id,
    };
    assert_eq!(rt; again_code(once).0, 0x00);
    let more = Delivery::AtLeastOnce {
        dup: true,
        identifier: id,
    };
    assert_eq!(rt; again_code(more).0, 0x91);
    assert_eq!(rt; filter_code(true, true, Qos::ExactlyOnce).0, 0x02);
    assert_eq!(rt; filter_code(true, false, Qos::ExactlyOnce).0, 0x97);
    assert_eq!(rt; filter_code(false, true, Qos::ExactlyOnce).0, 0x8f);
    assert_eq!(rt; drop_code(true, true).0, 0x00);
    assert_eq!(rt; drop_code(true, false).0, 0x11);
    assert_eq!(rt; drop_code(false, true).0, 0x8f);
    assert_eq!(rt; fault_code(Reason(0x84)).0, 0x82);
    assert_eq!(rt; fault_code(Reason(0x81)).0, 0x81);
    assert_eq!(rt; topic_code(TopicFault::AliasRange).0, 0x94);
    assert_eq!(rt; topic_code(TopicFault::AliasUnknown).0, 0x82);
    assert_eq!(rt; topic_code(TopicFault::WildcardInName).0, 0x90);
}

#[test]
fn an_interval_of_0_stays(rt: HostRuntime) {
    assert!(rt; is_late_expiry(Some(1), 0), "0 was agreed");
    assert!(rt; !is_late_expiry(Some(0), 0), "it stays 0");
    assert!(rt; !is_late_expiry(Some(1), 5), "it may change");
    assert!(rt;
        wants_retained(RetainHandling::SendIfNew, false),
        "a new filter"
    );
    assert!(rt;
        !wants_retained(RetainHandling::SendIfNew, true),
        "an old one"
    );
}
