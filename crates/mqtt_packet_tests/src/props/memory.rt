//! Want of memory: to be run with each allocation failing in turn. Every answer is the right one or
//! want of memory, which changes nothing.

use crate::props::rows::PUBLISH;
use mqtt_props::{Place, PropFault, PropList, PropName, PropRef, ValueRef, look_at, read, write};
use std::alloc::{AllocError, Global};
use std::process::Abort;

/// A call that changes a list, and the length that it leaves after Ok.
fn assert_memory_changes_nothing(
    rt: &impl Abort,
    found: Result<(), PropFault>,
    len: usize,
    before: usize,
    after: usize,
) {
    match found {
        Ok(()) => assert!(rt; len == after),
        Err(fault) => {
            assert!(rt; fault == PropFault::Memory);
            assert!(rt; len == before);
        }
    }
}

/// The list of the block `PUBLISH`, or an empty one for want of memory.
fn list_or_none(rt: &impl Abort, alloc: Global) -> PropList {
    match read(alloc, &PUBLISH, Place::Publish) {
        Ok((list, taken)) => {
            assert!(rt; taken == 15);
            list
        }
        Err(fault) => {
            assert!(rt; fault == PropFault::Memory);
            PropList::new()
        }
    }
}

#[test]
fn want_of_memory_writes_nothing(rt: HostRuntime) {
    let list = list_or_none(&rt, rt.alloc());
    let mut out = Vec::new(rt.alloc());
    let found = write(&list, &mut out);
    let (len, whole) = (out.len(), list.lend().block_len());
    drop(out);
    drop(list);
    assert_memory_changes_nothing(&rt, found, len, 0, whole);
}

#[test]
fn want_of_memory_adds_no_property(rt: HostRuntime) {
    let mut list = list_or_none(&rt, rt.alloc());
    let before = list.lend().len();
    let prop = PropRef {
        name: PropName::ReasonString,
        value: ValueRef::Text("why"),
    };
    let found = list.push(rt.alloc(), prop);
    let len = list.lend().len();
    drop(list);
    let after = before.saturating_add(1);
    assert_memory_changes_nothing(&rt, found, len, before, after);
}

#[test]
fn want_of_memory_adds_no_list(rt: HostRuntime) {
    let mut list = list_or_none(&rt, rt.alloc());
    let before = list.lend().len();
    let (props, _) = look_at(&PUBLISH, Place::Publish).expect(&rt, "it is read");
    let found = list.append(rt.alloc(), &props);
    let len = list.lend().len();
    drop(list);
    let after = before.saturating_add(props.len());
    assert_memory_changes_nothing(&rt, found, len, before, after);
}

/// Whether a list has so many properties, with a Topic Alias or without, or memory is wanting.
fn is_made(made: Result<PropList, AllocError>, len: usize, has_alias: bool) -> bool {
    match made {
        Ok(list) => {
            let is_long = list.lend().len() == len;
            let is_made = is_long && list.lend().has(PropName::TopicAlias) == has_alias;
            drop(list);
            is_made
        }
        Err(AllocError) => true,
    }
}

#[test]
fn what_is_made_from_a_list_is_right_or_want_of_memory(rt: HostRuntime) {
    let (props, _) = look_at(&PUBLISH, Place::Publish).expect(&rt, "it is read");
    let only = props.only(rt.alloc(), PropName::UserProperty);
    assert!(rt; is_made(only, 1, false));
    let without = props.without(rt.alloc(), PropName::TopicAlias);
    assert!(rt; is_made(without, 3, false));
    let list = props.to_list(rt.alloc());
    assert!(rt; is_made(list, props.len(), true));
}
