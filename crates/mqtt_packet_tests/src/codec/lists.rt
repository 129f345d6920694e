//! Lists of filters that are made, and packets that have no frame (3.8, 3.10).

use crate::codec::common::frame_of;
use mqtt_base::{Qos, Reason, RetainHandling, SubscriptionOptions, Text};
use mqtt_packet::{Ack, Filters, Packet, Subscribe, Subscriptions, Unsubscribe, lawful};
use mqtt_props::PropList;
use std::alloc::Global;
use std::process::Abort;
use std::test::Fail;

/// A text of a test.
fn text_of(rt: &impl Abort, alloc: Global, text: &str) -> Text {
    assert!(rt; Text::may_hold(text), "it is a text");
    Text::new(alloc, text).expect(rt, "there is memory")
}

/// Adds a filter to the list.
fn push_filter(rt: &impl Abort, alloc: Global, filters: &mut Filters, text: &str) {
    let text = text_of(rt, alloc, text);
    let pushed = filters.push(alloc, &text).is_ok();
    drop(text);
    assert!(rt; pushed, "there is memory");
}

/// Whether the list has no filter.
fn is_empty(filters: &Filters) -> bool {
    let lent = filters.lend();
    let found = lent.is_empty();
    drop(lent);
    found
}

/// Whether the list has a filter, and nothing behind it.
fn is_one(filters: &Filters) -> bool {
    let lent = filters.lend();
    let split = lent.split_first();
    drop(lent);
    match split {
        Some((_, rest)) => {
            let found = rest.is_empty();
            drop(rest);
            found
        }
        None => false,
    }
}

fn unsubscribe_of(filters: Filters) -> Packet {
    Packet::Unsubscribe(Unsubscribe {
        identifier: 2,
        properties: PropList::new(),
        filters,
    })
}

#[test]
fn a_list_of_filters_is_made(rt: HostRuntime) {
    let mut filters = Filters::new();
    assert!(rt; is_empty(&filters), "no filter");
    push_filter(&rt, rt.alloc(), &mut filters, "a/b");
    push_filter(&rt, rt.alloc(), &mut filters, "#");
    let frame = frame_of(rt.alloc(), unsubscribe_of(filters)).expect(&rt, "there is memory");
    assert_eq!(rt;
        &frame[..],
        &[0xa2, 11, 0, 2, 0, 0, 3, b'a', b'/', b'b', 0, 1, b'#'][..]
    );
}

#[test]
fn a_clone_of_filters_stays_as_it_is(rt: HostRuntime) {
    let mut filters = Filters::new();
    push_filter(&rt, rt.alloc(), &mut filters, "a/b");
    let one = filters.clone().expect(&rt, "there is memory");
    push_filter(&rt, rt.alloc(), &mut filters, "#");
    let found = (is_one(&one), is_one(&filters));
    drop(one);
    drop(filters);
    assert_eq!(rt; found, (true, false));
}

const OPTIONS: SubscriptionOptions = SubscriptionOptions {
    qos: Qos::ExactlyOnce,
    no_local: true,
    retain_as_published: false,
    retain_handling: RetainHandling::DoNotSend,
};

/// One subscription, to the filter `a/b`.
fn one_subscription(rt: &impl Abort, alloc: Global) -> Subscriptions {
    let mut subscriptions = Subscriptions::new();
    let text = text_of(rt, alloc, "a/b");
    let pushed = subscriptions.push(alloc, &text, OPTIONS).is_ok();
    drop(text);
    assert!(rt; pushed, "there is memory");
    subscriptions
}

fn subscribe_of(subscriptions: Subscriptions) -> Packet {
    Packet::Subscribe(Subscribe {
        identifier: 1,
        properties: PropList::new(),
        subscriptions,
    })
}

#[test]
fn a_list_of_subscriptions_is_made(rt: HostRuntime) {
    let subscriptions = one_subscription(&rt, rt.alloc());
    let frame = frame_of(rt.alloc(), subscribe_of(subscriptions)).expect(&rt, "there is memory");
    assert_eq!(rt;
        &frame[..],
        &[0x82, 9, 0, 1, 0, 0, 3, b'a', b'/', b'b', 0x26][..]
    );
}

/// The options of the first subscription.
fn first_options(subscriptions: &Subscriptions) -> Option<SubscriptionOptions> {
    let lent = subscriptions.lend();
    let split = lent.split_first();
    drop(lent);
    match split {
        Some((first, rest)) => {
            drop(rest);
            first.options()
        }
        None => None,
    }
}

#[test]
fn a_list_without_a_subscription_is_empty(rt: HostRuntime) {
    let subscriptions = Subscriptions::new();
    let lent = subscriptions.lend();
    let is_empty = lent.is_empty();
    drop(lent);
    assert!(rt; is_empty, "no filter");
}

#[test]
fn a_clone_of_subscriptions_has_their_options(rt: HostRuntime) {
    let subscriptions = one_subscription(&rt, rt.alloc());
    let copy = subscriptions.clone().expect(&rt, "there is memory");
    drop(subscriptions);
    let found = first_options(&copy);
    drop(copy);
    assert_eq!(rt; found, Some(OPTIONS));
}

/// Whether a packet has a frame, and keeps the laws.
fn is_lawful(packet: Packet) -> bool {
    let found = lawful(&packet);
    drop(packet);
    found
}

fn ack_of(identifier: u16, reason: Reason) -> Ack {
    Ack {
        identifier,
        reason,
        properties: PropList::new(),
    }
}

#[test]
fn a_packet_that_breaks_a_law_or_has_no_layout_is_not_lawful(rt: HostRuntime) {
    assert!(rt; !is_lawful(unsubscribe_of(Filters::new())), "no filter");
    assert!(rt;
        !is_lawful(Packet::Pubrel(ack_of(2, Reason::QUOTA_EXCEEDED))),
        "a foreign code"
    );
    assert!(rt;
        !is_lawful(Packet::Puback(ack_of(0, Reason::SUCCESS))),
        "identifier 0"
    );
    assert!(rt;
        is_lawful(Packet::Puback(ack_of(2, Reason::QUOTA_EXCEEDED))),
        "a lawful PUBACK"
    );
}
