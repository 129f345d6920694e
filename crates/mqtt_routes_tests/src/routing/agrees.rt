//! 1,000 subscriptions give 200 topics the copies that a list of them gives (MQTT 5.0, 3.3.4, 4.7).
use crate::routing::bed::{ALL, TWO, identified};
use mqtt_base::RETAINED_LIMIT;
use mqtt_routes::{RoutedCopy, Routes, RoutesFault};
use mqtt_topic::{SubFilter, TopicName};
use std::alloc::{AllocError, Global};
use std::hash::RandomState;
use std::process::Abort;
use std::test::Fail;

/// A subscription as the list has it.
#[derive(Drop)]
struct Listed {
    birth: u64,
    filter: SubFilter,
    identifier: u32,
}

/// A table, and the list of what was subscribed, in that order.
#[derive(Drop)]
struct Pair {
    routes: Routes<u8>,
    list: Vec<Listed>,
}

/// A level of a filter, or of a name.
fn level(number: u32, is_filter: bool) -> &'static str {
    match (number % 5, is_filter) {
        (0, _) => "a",
        (1, _) => "b",
        (2, _) => "",
        (3, true) => "+",
        (3, false) => "$c",
        (_, true) => "#",
        (_, false) => "c",
    }
}

/// One to four levels by a number, another text for each below 780.
fn text_of(alloc: Global, number: u32, is_filter: bool) -> Result<String, AllocError> {
    let mut text = String::new(alloc);
    text.push_str(level(number, is_filter))?;
    let mut rest = number / 5;
    for _ in 0..3u8 {
        if rest > 0 {
            text.push_str("/")?;
            text.push_str(level(rest - 1, is_filter))?;
            rest = (rest - 1) / 5;
        }
    }
    Ok(text)
}

/// Subscribes a session to the filter of a number, if it is one.
fn put(alloc: Global, pair: &mut Pair, birth: u64, number: u32) -> Result<bool, Fail> {
    let text = text_of(alloc, number, true)?;
    let Ok(filter) = SubFilter::parse(alloc, text.as_str()) else {
        return Ok(false);
    };
    let identifier = number.saturating_add(1);
    let new = identified(alloc, filter.as_str(), 1, TWO, identifier)?;
    pair.routes.subscribe(birth, new)?;
    pair.list.push(Listed {
        birth,
        filter,
        identifier,
    })?;
    Ok(true)
}

/// Subscribes a session to 100 filters.
fn fill(alloc: Global, pair: &mut Pair, birth: u64, first: u32) -> Result<(), Fail> {
    let mut number = first;
    let mut count: u32 = 0;
    for _ in 0..200u8 {
        number %= 780;
        if count < 100 && put(alloc, pair, birth, number)? {
            count += 1;
        }
        number += 7;
    }
    Ok(())
}

/// Unsubscribes a third, and ends a session.
fn take_off(rt: &impl Abort, pair: &mut Pair) {
    for listed in &pair.list {
        if listed.identifier % 3 == 0 {
            let was = pair
                .routes
                .unsubscribe(listed.birth, listed.filter.as_str());
            assert!(rt; was, "it was subscribed");
        }
    }
    pair.routes.drop_session(3);
    pair.list
        .retain(|listed| listed.identifier % 3 != 0 && listed.birth != 3);
}

/// Subscribes a fifth again, by another identifier.
fn put_again(alloc: Global, pair: &mut Pair) -> Result<(), Fail> {
    for listed in &mut pair.list {
        if listed.identifier % 5 == 0 {
            let new = identified(alloc, listed.filter.as_str(), 2, TWO, 7_000)?;
            pair.routes.subscribe(listed.birth, new)?;
            listed.identifier = 7_000;
        }
    }
    Ok(())
}

/// The sessions and identifiers of copies, in order.
fn told(alloc: Global, copies: &[RoutedCopy]) -> Result<Vec<(u64, u32)>, AllocError> {
    let mut told = Vec::new(alloc);
    for copy in copies {
        for identifier in copy.identifiers() {
            told.push((copy.birth(), *identifier))?;
        }
    }
    Ok(told)
}

/// Whether each session has one copy at most, by their births in order.
fn are_apart(copies: &[RoutedCopy]) -> bool {
    let mut last = 0;
    for copy in copies {
        if copy.birth() <= last {
            return false;
        }
        last = copy.birth();
    }
    true
}

/// Whether the list has just these sessions and identifiers for a name. Its sessions stand one after
/// another.
fn is_told(list: &[Listed], name: &TopicName, told: &[(u64, u32)]) -> bool {
    let mut at: usize = 0;
    for listed in list {
        if listed.filter.matches(name) {
            if told.get(at) != Some(&(listed.birth, listed.identifier)) {
                return false;
            }
            at = at.saturating_add(1);
        }
    }
    at == told.len()
}

/// Whether a publication to a name goes where the list says.
fn is_routed(alloc: Global, pair: &Pair, name: &TopicName) -> Result<bool, RoutesFault> {
    let routed = pair.routes.route("p", name, 2, false, &ALL)?;
    let is_apart = are_apart(routed.direct());
    let told = told(alloc, routed.direct());
    drop(routed);
    let told = told?;
    let is_right = is_apart && is_told(pair.list.as_slice(), name, told.as_slice());
    drop(told);
    Ok(is_right)
}

/// Tries the names of 201 numbers, and says how many are names.
fn try_names(rt: &impl Abort, alloc: Global, pair: &Pair) -> Result<u32, Fail> {
    let mut count: u32 = 0;
    for number in 0..201u32 {
        let text = text_of(alloc, number, false)?;
        let name = TopicName::parse(alloc, text.as_str());
        drop(text);
        if let Ok(name) = name {
            let is_right = is_routed(alloc, pair, &name);
            drop(name);
            let is_right = is_right?;
            assert!(rt; is_right, "the name of {number}");
            count = count.saturating_add(1);
        }
    }
    Ok(count)
}

/// Tries all names with a thousand subscriptions, with some, and with some that are replaced.
fn try_all(rt: &impl Abort, alloc: Global, pair: &mut Pair) -> Result<(), Fail> {
    for birth in 1..11u32 {
        fill(alloc, pair, u64::from(birth), birth * 31)?;
    }
    assert_eq!(rt; pair.list.len(), 1000);
    assert_eq!(rt; try_names(rt, alloc, pair)?, 200);
    take_off(rt, pair);
    assert_eq!(rt; try_names(rt, alloc, pair)?, 200);
    put_again(alloc, pair)?;
    assert_eq!(rt; try_names(rt, alloc, pair)?, 200);
    Ok(())
}

#[test]
fn a_thousand_subscriptions_route_as_a_list(rt: HostRuntime) -> Result<(), Fail> {
    let hasher = RandomState::new(&rt)?;
    let mut pair = Pair {
        routes: Routes::new(rt.alloc(), hasher, RETAINED_LIMIT),
        list: Vec::new(rt.alloc()),
    };
    let done = try_all(&rt, rt.alloc(), &mut pair);
    drop(pair);
    done
}
