//! Tells how long the calls of `Routes` take, by the size of its tables; for bench/routes/run. A word
//! asks for one table of so many subscriptions, 0 for one of a hundred filters of the most levels.

ghost use Rattle.std.specs.Prelude.{true, false};

use anyhow::Context;
use mqtt_base::{Qos, RETAINED_LIMIT, RetainHandling, SubscriptionOptions};
use mqtt_routes::{Routes, Sessions, Subscription};
use mqtt_topic::{SubFilter, TopicName};
use std::alloc::Global;
use std::hash::RandomState;
use std::time::{CpuClock, Duration};

/// How many subscriptions stand in the tables that are compared if the words ask for none.
const SUBSCRIPTIONS: [u32; 3] = [10, 100, 1_000];

/// How many topics have a retained message in the tables that are compared.
const TOPICS: [u32; 3] = [10, 100, 1_000];

/// How many of the subscriptions match the topic of the publications, each of another session.
const MATCHING: u32 = 10;

/// A session and a number of its own, for a subscription that comes and goes.
const LATE: (u64, u32) = (1_000_000, 1_000_000);

/// The filter of that number. It stands before nearly all others in the order of filters.
const LATE_FILTER: &str = "house/1000000/+";

/// How many filters of the most levels stand, in one session.
const DEEP: u32 = 100;

/// How many slashes each of them has, and the topic that all match.
const SLASHES: u32 = 65_534;

/// How many calls that try each row are timed together, for a small table.
const CALLS: u32 = 20_000;

/// How many other calls are timed together.
const FINDS: u32 = 2_000;

/// Sessions that have room and are connected.
struct Open;

impl Sessions for Open {
    ghost answers = { λ _. record {
      room = λ birth. 1000;
      is_connected = λ birth. true;
      is_named = λ birth client. false;
    } };

    fn room(&self, _birth: u64) -> u32 {
        1000
    }

    fn connected(&self, _birth: u64) -> bool {
        true
    }

    fn is_named(&self, _birth: u64, _client: &str) -> bool {
        false
    }
}

/// Options without No Local and Retain As Published.
fn options(qos: Qos) -> SubscriptionOptions {
    SubscriptionOptions {
        qos,
        no_local: false,
        retain_as_published: false,
        retain_handling: RetainHandling::SendAlways,
    }
}

/// A filter of the children of a topic of its own; the first few share one.
fn filter(alloc: Global, n: u32) -> anyhow::Result<SubFilter> {
    let topic = if n < MATCHING { 7 } else { n };
    let text = format!(in alloc; "house/{topic}/+")?;
    let filter = SubFilter::parse(alloc, text.as_str());
    drop(text);
    Ok(filter?)
}

/// A subscription to the children of a topic of its own.
fn subscription(alloc: Global, n: u32, qos: Qos) -> anyhow::Result<Subscription> {
    Ok(Subscription {
        filter: filter(alloc, n)?,
        place: u64::from(n),
        options: options(qos),
        identifier: None,
    })
}

/// Adds so many subscriptions, at most a hundred a session.
fn subscribe_all(alloc: Global, routes: &mut Routes<u32>, count: u32) -> anyhow::Result<()> {
    let sessions = (count / 100).max(MATCHING);
    for n in 0..count {
        let new = subscription(alloc, n, Qos::AtLeastOnce)?;
        routes.subscribe(u64::from(n % sessions), new)?;
    }
    Ok(())
}

/// How many direct copies a publication makes.
fn count_copies(routes: &Routes<u32>, topic: &TopicName) -> anyhow::Result<usize> {
    let routed = routes.route("bench", topic, 1, false, &Open)?;
    let count = routed.direct().len();
    drop(routed);
    Ok(count)
}

/// Routes so often a publication that makes so many copies.
fn route(routes: &Routes<u32>, topic: &TopicName, calls: u32, copies: usize) -> anyhow::Result<()> {
    for _ in 0..calls {
        let count = count_copies(routes, topic)?;
        anyhow::ensure!(count == copies, "other copies were meant");
    }
    Ok(())
}

/// Replaces a subscription so often.
fn resubscribe(alloc: Global, routes: &mut Routes<u32>, calls: u32) -> anyhow::Result<()> {
    for _ in 0..calls {
        let new = subscription(alloc, 7, Qos::ExactlyOnce)?;
        routes.subscribe(7, new)?;
    }
    Ok(())
}

/// Subscribes to a filter that stands near the front, and unsubscribes, so often.
fn come_and_go(alloc: Global, routes: &mut Routes<u32>, calls: u32) -> anyhow::Result<()> {
    let (birth, number) = LATE;
    for _ in 0..calls {
        let new = subscription(alloc, number, Qos::AtLeastOnce)?;
        routes.subscribe(birth, new)?;
        anyhow::ensure!(routes.unsubscribe(birth, LATE_FILTER), "it was put");
    }
    Ok(())
}

/// The topic of a door.
fn door(alloc: Global, n: u32) -> anyhow::Result<TopicName> {
    let text = format!(in alloc; "house/{n}/door")?;
    let topic = TopicName::parse(alloc, text.as_str());
    drop(text);
    Ok(topic?)
}

/// Adds so many retained messages.
fn retain_all(alloc: Global, routes: &mut Routes<u32>, count: u32) -> anyhow::Result<()> {
    for n in 0..count {
        let topic = door(alloc, n)?;
        routes.retain(topic, Some(n))?;
    }
    Ok(())
}

/// How many retained messages a filter matches.
fn count_kept(routes: &Routes<u32>, filter: &SubFilter) -> anyhow::Result<usize> {
    let found = routes.retained_for(filter)?;
    let count = found.len();
    drop(found);
    Ok(count)
}

/// Looks so often for the retained messages of a filter that one topic matches.
fn look_up(routes: &Routes<u32>, filter: &SubFilter, calls: u32) -> anyhow::Result<()> {
    for _ in 0..calls {
        anyhow::ensure!(count_kept(routes, filter)? == 1, "one message was meant");
    }
    Ok(())
}

/// Replaces a retained message so often.
fn retain(alloc: Global, routes: &mut Routes<u32>, calls: u32) -> anyhow::Result<()> {
    for n in 0..calls {
        let topic = door(alloc, 7)?;
        routes.retain(topic, Some(n))?;
    }
    Ok(())
}

/// How many calls that try each row are timed for a table of this size.
fn calls(count: u32) -> u32 {
    CALLS / count.max(10) + 5
}

/// The nanoseconds of one of so many calls.
fn nanos(time: Duration, calls: u32) -> u128 {
    time.as_nanos() / u128::from(calls.max(1))
}

/// What calls take in a table of so many subscriptions, in nanoseconds.
#[derive(Clone, Copy)]
struct Times {
    /// One of the subscriptions, while the table is filled.
    filled: u128,
    /// A publication to ten sessions.
    routed: u128,
    /// A subscription in place of one to the same filter.
    replaced: u128,
    /// One that is put near the front, and taken off.
    moved: u128,
}

/// Times routing and subscribing for a table of so many subscriptions.
fn time_routes(
    rt: &impl CpuClock,
    alloc: Global,
    routes: &mut Routes<u32>,
    topic: &TopicName,
    count: u32,
) -> anyhow::Result<Times> {
    let begun = rt.process_cpu_time()?;
    subscribe_all(alloc, routes, count)?;
    let filled = rt.process_cpu_time()?;
    route(routes, topic, FINDS, MATCHING as usize)?;
    let routed = rt.process_cpu_time()?;
    resubscribe(alloc, routes, FINDS)?;
    let replaced = rt.process_cpu_time()?;
    come_and_go(alloc, routes, FINDS)?;
    let moved = rt.process_cpu_time()?;
    Ok(Times {
        filled: nanos(filled.saturating_sub(begun), count),
        routed: nanos(routed.saturating_sub(filled), FINDS),
        replaced: nanos(replaced.saturating_sub(routed), FINDS),
        moved: nanos(moved.saturating_sub(replaced), FINDS),
    })
}

/// Times look-ups and retaining for a table of so many messages, in nanoseconds a call.
fn time_retained(
    rt: &impl CpuClock,
    alloc: Global,
    routes: &mut Routes<u32>,
    filter: &SubFilter,
    count: u32,
) -> anyhow::Result<(u128, u128)> {
    retain_all(alloc, routes, count)?;
    let begun = rt.process_cpu_time()?;
    look_up(routes, filter, calls(count))?;
    let found = rt.process_cpu_time()?;
    retain(alloc, routes, FINDS)?;
    let replaced = rt.process_cpu_time()?;
    Ok((
        nanos(found.saturating_sub(begun), calls(count)),
        nanos(replaced.saturating_sub(found), FINDS),
    ))
}

/// Times a table of so many subscriptions, made for it.
fn one_table(
    rt: &impl CpuClock,
    alloc: Global,
    hasher: RandomState,
    count: u32,
) -> anyhow::Result<Times> {
    let topic = TopicName::parse(alloc, "house/7/door")?;
    let mut routes = Routes::new(alloc, hasher, RETAINED_LIMIT);
    let times = time_routes(rt, alloc, &mut routes, &topic, count);
    drop(routes);
    drop(topic);
    times
}

/// Times a table of so many retained messages, made for it.
fn one_store(
    rt: &impl CpuClock,
    alloc: Global,
    hasher: RandomState,
    count: u32,
) -> anyhow::Result<(u128, u128)> {
    let filter = SubFilter::parse(alloc, "house/7/#")?;
    let mut routes = Routes::new(alloc, hasher, RETAINED_LIMIT);
    let times = time_retained(rt, alloc, &mut routes, &filter, count);
    drop(routes);
    drop(filter);
    times
}

/// Slashes, with a `+` behind so many of them, or without one.
fn slashes(alloc: Global, plus: Option<u32>) -> anyhow::Result<String> {
    let mut text = String::new(alloc);
    for n in 0..SLASHES {
        if plus == Some(n) {
            text.push_str("+")?;
        }
        text.push_str("/")?;
    }
    Ok(text)
}

/// A subscription to a filter of the most levels.
fn deep_subscription(alloc: Global, n: u32) -> anyhow::Result<Subscription> {
    let text = slashes(alloc, Some(n))?;
    let filter = SubFilter::parse(alloc, text.as_str());
    drop(text);
    Ok(Subscription {
        filter: filter?,
        place: u64::from(n),
        options: options(Qos::AtLeastOnce),
        identifier: None,
    })
}

/// Times subscribing to filters of the most levels in one session, and a publication that each matches.
fn time_deep(
    rt: &impl CpuClock,
    alloc: Global,
    routes: &mut Routes<u32>,
    topic: &TopicName,
) -> anyhow::Result<(u128, u128)> {
    let begun = rt.process_cpu_time()?;
    for n in 0..DEEP {
        let new = deep_subscription(alloc, n)?;
        routes.subscribe(1, new)?;
    }
    let filled = rt.process_cpu_time()?;
    route(routes, topic, 2, 1)?;
    let routed = rt.process_cpu_time()?;
    Ok((
        nanos(filled.saturating_sub(begun), DEEP),
        nanos(routed.saturating_sub(filled), 2),
    ))
}

/// Times a table of filters of the most levels, made for it.
fn one_deep(
    rt: &impl CpuClock,
    alloc: Global,
    hasher: RandomState,
) -> anyhow::Result<(u128, u128)> {
    let text = slashes(alloc, None)?;
    let topic = TopicName::parse(alloc, text.as_str());
    drop(text);
    let topic = topic?;
    let mut routes = Routes::new(alloc, hasher, RETAINED_LIMIT);
    let times = time_deep(rt, alloc, &mut routes, &topic);
    drop(routes);
    drop(topic);
    times
}

/// How many subscriptions stand in the one table that the words ask for, if they do.
fn count_asked(words: &[String]) -> anyhow::Result<Option<u32>> {
    match words.first() {
        Some(word) => Ok(Some(word.parse::<u32>().context("how many subscriptions")?)),
        None => Ok(None),
    }
}

/// Tells the times of a table of so many subscriptions.
fn tell_table(rt: &HostRuntime, hasher: RandomState, count: u32) -> anyhow::Result<()> {
    let times = one_table(rt, rt.alloc(), hasher, count)?;
    eprintln!(rt;
        "{count:>14} {:>12} {:>12} {:>12} {:>14}",
        times.filled, times.routed, times.replaced, times.moved
    )?;
    Ok(())
}

/// Tells the times of filters of the most levels.
fn tell_deep(rt: &HostRuntime, hasher: RandomState) -> anyhow::Result<()> {
    let (filled, routed) = one_deep(rt, rt.alloc(), hasher)?;
    eprintln!(rt; "{:>14} {filled:>12} {routed:>12}", "deep, 100")?;
    Ok(())
}

/// Tells the times of small tables, of subscriptions and of topics.
fn tell_small(rt: &HostRuntime, hasher: RandomState) -> anyhow::Result<()> {
    eprintln!(rt;
        "{:>14} {:>12} {:>12} {:>12} {:>14}",
        "subscriptions", "fill, ns", "route, ns", "replace, ns", "put, remove, ns"
    )?;
    for count in SUBSCRIPTIONS {
        tell_table(rt, hasher, count)?;
    }
    eprintln!(rt;
        "{:>14} {:>16} {:>16}",
        "topics", "look-up, ns", "retain, ns"
    )?;
    for count in TOPICS {
        let (found, replaced) = one_store(rt, rt.alloc(), hasher, count)?;
        eprintln!(rt; "{count:>14} {found:>16} {replaced:>16}")?;
    }
    Ok(())
}

/// Tells the times of the table that the words ask for, or of small ones.
pub(crate) fn run(rt: &HostRuntime, words: &[String]) -> anyhow::Result<()> {
    let hasher = RandomState::new(rt)?;
    match count_asked(words)? {
        None => tell_small(rt, hasher),
        Some(0) => tell_deep(rt, hasher),
        Some(count) => tell_table(rt, hasher, count),
    }
}
