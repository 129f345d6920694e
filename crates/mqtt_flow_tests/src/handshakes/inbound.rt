//! Open identifiers as they live, and want of memory.

use mqtt_flow::{FlowFault, Inflow, Published, ReleaseAnswer};
use std::alloc::Global;
use std::process::Abort;
use std::test::*;

/// A PUBLISH and its repeat.
fn open_once(rt: &impl Abort, flow: &mut Inflow) {
    assert_eq!(rt; flow.would_publish(7), Published::New, "before it");
    assert_eq!(rt; flow.publish(7), Ok(Published::New), "the first");
    assert!(rt; flow.is_open(7), "open until PUBREL");
    assert_eq!(rt; flow.would_publish(7), Published::Again, "after it");
    assert_eq!(rt; flow.publish(7), Ok(Published::Again), "its repeat");
}

/// Its PUBREL, its repeat and another message.
fn close_once(rt: &impl Abort, flow: &mut Inflow) {
    assert_eq!(rt; flow.release(7), ReleaseAnswer::Known, "the first PUBREL");
    assert!(rt; !flow.is_open(7), "closed by PUBREL");
    assert_eq!(rt; flow.release(7), ReleaseAnswer::Unknown, "its repeat");
    assert_eq!(rt; flow.publish(7), Ok(Published::New), "another message");
}

/// The life of one identifier (4.3.3).
#[test]
fn a_repeat_is_not_new(rt: HostRuntime) -> Result<(), FlowFault> {
    let mut flow = Inflow::new(rt.alloc());
    let made = flow.make_room();
    if made.is_ok() {
        open_once(&rt, &mut flow);
        close_once(&rt, &mut flow);
    }
    drop(flow);
    made
}

/// Opens 20 identifiers from the greatest down, so that each goes to the front: 60, 57, .. 3.
fn open_twenty(rt: &impl Abort, flow: &mut Inflow) -> Result<(), FlowFault> {
    for step in 0..20 {
        assert_eq!(rt; flow.publish(60 - 3 * step)?, Published::New, "one of 20");
    }
    Ok(())
}

/// One more than 20 opens nothing.
fn be_over(rt: &impl Abort, flow: &mut Inflow, id: u16) -> Result<(), FlowFault> {
    assert_eq!(rt; flow.would_publish(id), Published::Over, "it would be");
    assert_eq!(rt; flow.publish(id)?, Published::Over, "the 21st");
    assert_eq!(rt; flow.release(id), ReleaseAnswer::Unknown, "it did not open");
    assert_eq!(rt; flow.ids().len(), 20, "it changed nothing");
    Ok(())
}

/// 20 are open, and one of them is released.
fn fill(rt: &impl Abort, flow: &mut Inflow) -> Result<(), FlowFault> {
    open_twenty(rt, flow)?;
    assert_eq!(rt; flow.publish(30)?, Published::Again, "30 is open");
    for id in [1, 31, 65535] {
        be_over(rt, flow, id)?;
    }
    assert_eq!(rt; flow.release(30), ReleaseAnswer::Known, "30 is released");
    assert_eq!(rt; flow.publish(1)?, Published::New, "there is room for 1");
    Ok(())
}

/// CONNACK told the publisher a Receive Maximum of 20 (3.2.2.3.3).
#[test]
fn the_twenty_first_is_over(rt: HostRuntime) -> Result<(), FlowFault> {
    let mut flow = Inflow::new(rt.alloc());
    let done = fill(&rt, &mut flow);
    drop(flow);
    done
}

/// Opens four identifiers and closes one.
fn open_four(rt: &impl Abort, flow: &mut Inflow) -> Result<(), FlowFault> {
    for id in [9, 65535, 1, 300] {
        flow.publish(id)?;
    }
    assert_eq!(rt;
        flow.ids(),
        [1, 9, 300, 65535].as_slice(),
        "as they are kept"
    );
    flow.release(9);
    Ok(())
}

/// One of the stored ones is open still, the released one isn't.
fn go_on(rt: &impl Abort, flow: &mut Inflow) -> Result<(), FlowFault> {
    assert_eq!(rt; flow.ids(), [1, 300, 65535].as_slice(), "as they were kept");
    assert_eq!(rt; flow.publish(300)?, Published::Again, "300 was open");
    assert_eq!(rt; flow.publish(9)?, Published::New, "9 was released");
    Ok(())
}

/// A session that was stored, and is made again.
fn reopen(rt: &impl Abort, alloc: Global, flow: &mut Inflow) -> Result<(), FlowFault> {
    open_four(rt, flow)?;
    let mut again = Inflow::from_ids(alloc, flow.ids())?;
    let done = go_on(rt, &mut again);
    drop(again);
    done
}

/// A store keeps the identifiers alone, in ascending order (4.1).
#[test]
fn a_stored_session_goes_on(rt: HostRuntime) -> Result<(), FlowFault> {
    let mut flow = Inflow::new(rt.alloc());
    let done = reopen(&rt, rt.alloc(), &mut flow);
    drop(flow);
    done
}

/// Opens an identifier, at the second time if the first was want of memory.
fn open_at_last(rt: &impl Abort, flow: &mut Inflow, id: u16) {
    let open = flow.ids().len();
    if let Err(fault) = flow.publish(id) {
        assert_eq!(rt; fault, FlowFault::Memory, "it is refused");
        assert!(rt; !flow.is_open(id), "it is not open");
        assert_eq!(rt; flow.ids().len(), open, "no other was closed");
        assert_eq!(rt; flow.publish(id), Ok(Published::New), "tried again");
    }
    assert!(rt; flow.is_open(id), "it is open");
}

/// To be run with each allocation failing in turn: an answer is right, or it is want of memory, which changes nothing.
#[test]
fn want_of_memory_changes_nothing(rt: HostRuntime) {
    let mut flow = Inflow::new(rt.alloc());
    for id in 1..=20 {
        open_at_last(&rt, &mut flow, id);
    }
    drop(flow);
}

/// Makes room, at the second time if the first was refused, and publishes.
fn publish_with_room(rt: &impl Abort, flow: &mut Inflow, id: u16) {
    if flow.make_room().is_err() {
        assert!(rt; !flow.is_open(id), "it is not open");
        assert!(rt; flow.make_room().is_ok(), "one growth is refused");
    }
    assert_eq!(rt; flow.publish(id), Ok(Published::New), "it has room");
}

/// Once there is room, PUBLISH takes no memory.
#[test]
fn a_publish_after_make_room_succeeds(rt: HostRuntime) {
    let mut flow = Inflow::new(rt.alloc());
    for id in 1..=20 {
        publish_with_room(&rt, &mut flow, id);
    }
    drop(flow);
}
