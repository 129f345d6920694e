//! A queue of outbound copies at work: windows, resumptions, expiry, a full queue.

use mqtt_base::{Cause, CopyId, Ending, LAST_NUMBER, QUEUE_LIMIT, Qos, Reason};
use mqtt_flow::{FlowFault, Full, Outflow, QueueLimits, QueuedCopy, Turn, Way};
use std::alloc::Global;
use std::process::Abort;
use std::test::*;

/// A copy of 20 bytes that arrived at 0 ms.
fn copy(publication: u64, qos: Qos, expiry: Option<u32>) -> QueuedCopy {
    QueuedCopy {
        id: CopyId {
            publication,
            birth: 1,
            cause: Cause::Direct,
        },
        qos,
        size: 20,
        arrived: 0,
        expiry,
    }
}

/// A way with this window, for packets of up to 100 bytes.
fn way(window: u16, now: u64) -> Way {
    Way {
        window,
        largest: 100,
        now,
    }
}

/// A first PUBLISH.
fn send(place: u64, identifier: u16) -> Turn {
    Turn::Send { place, identifier }
}

/// A copy's end.
fn leave(place: u64, ending: Ending) -> Turn {
    Turn::Leave { place, ending }
}

/// Takes a copy into a queue of at most `queue` copies.
fn enter(
    rt: &impl Abort,
    flow: &mut Outflow,
    alloc: Global,
    (queue, full): (usize, Full),
    copy: QueuedCopy,
) -> Result<Vec<Turn>, FlowFault> {
    assert!(rt; queue <= QUEUE_LIMIT);
    let since = flow.next_place();
    assert!(rt; since <= LAST_NUMBER);
    flow.enter(alloc, QueueLimits { queue, full }, since, copy)
}

/// Takes a copy in, and others make way by these turns.
fn enters(
    rt: &impl Abort,
    flow: &mut Outflow,
    alloc: Global,
    limits: (usize, Full),
    copy: QueuedCopy,
    way_made: &[Turn],
) -> Result<(), FlowFault> {
    let made = enter(rt, flow, alloc, limits, copy)?;
    assert_eq!(rt; made.as_slice(), way_made, "who makes way");
    drop(made);
    Ok(())
}

/// Takes in the copies of these publications of QoS 2, into a queue of 1,000.
fn fill(
    rt: &impl Abort,
    flow: &mut Outflow,
    alloc: Global,
    most: u64,
    expiry: Option<u32>,
) -> Result<(), FlowFault> {
    for number in 1..=most {
        let next = copy(number, Qos::ExactlyOnce, expiry);
        enters(rt, flow, alloc, (1_000, Full::Refuse), next, &[])?;
    }
    Ok(())
}

/// A full queue refuses a copy.
fn refuses(rt: &impl Abort, flow: &mut Outflow, alloc: Global, limits: (usize, Full)) {
    let kept_out = match enter(rt, flow, alloc, limits, copy(9, Qos::ExactlyOnce, None)) {
        Ok(made) => {
            drop(made);
            false
        }
        Err(fault) => fault == FlowFault::Full,
    };
    assert!(rt; kept_out, "it is full");
}

/// Pumps.
fn pump(
    rt: &impl Abort,
    flow: &mut Outflow,
    alloc: Global,
    way: Way,
) -> Result<Vec<Turn>, FlowFault> {
    assert!(rt; flow.entries().len() <= 1_000);
    assert!(rt; flow.next_order() <= LAST_NUMBER - 1_000);
    flow.pump(alloc, way)
}

/// Pumps these turns.
fn pumps(
    rt: &impl Abort,
    flow: &mut Outflow,
    alloc: Global,
    way: Way,
    wanted: &[Turn],
) -> Result<(), FlowFault> {
    let sent = pump(rt, flow, alloc, way)?;
    assert_eq!(rt; sent.as_slice(), wanted, "what is sent");
    drop(sent);
    Ok(())
}

/// Resumes with these turns.
fn resumes(
    rt: &impl Abort,
    flow: &mut Outflow,
    alloc: Global,
    wanted: &[Turn],
) -> Result<(), FlowFault> {
    let resumed = flow.resume(alloc)?;
    assert_eq!(rt; resumed.as_slice(), wanted, "what goes out after CONNACK");
    drop(resumed);
    Ok(())
}

/// Expires by these turns.
fn expires(
    rt: &impl Abort,
    flow: &mut Outflow,
    alloc: Global,
    now: u64,
    wanted: &[Turn],
) -> Result<(), FlowFault> {
    let ended = flow.expire(alloc, now)?;
    assert_eq!(rt; ended.as_slice(), wanted, "what expires");
    drop(ended);
    Ok(())
}

/// Takes a PUBREC.
fn pubrec(
    rt: &impl Abort,
    flow: &mut Outflow,
    identifier: u16,
    code: u8,
) -> Result<Option<Turn>, FlowFault> {
    assert!(rt; flow.next_order() <= LAST_NUMBER);
    flow.pubrec(identifier, Reason(code))
}

/// One is released on the first connection, two wait.
fn resume_with_one_released(
    rt: &impl Abort,
    flow: &mut Outflow,
    alloc: Global,
) -> Result<(), FlowFault> {
    fill(rt, flow, alloc, 3, None)?;
    pumps(rt, flow, alloc, way(1, 0), &[send(1, 1)])?;
    let released = Turn::Release {
        place: 1,
        identifier: 1,
        order: 1,
    };
    assert_eq!(rt; pubrec(rt, flow, 1, 0x00), Ok(Some(released)), "PUBREC");
    resumes(rt, flow, alloc, &[Turn::Repeat { identifier: 1 }])?;
    pumps(rt, flow, alloc, way(1, 0), &[send(2, 2)])?;
    go_on_behind_one(rt, flow, alloc)
}

/// The released one ends, and the two that waited go out one after the other.
fn go_on_behind_one(rt: &impl Abort, flow: &mut Outflow, alloc: Global) -> Result<(), FlowFault> {
    let taken = Some(leave(1, Ending::Taken));
    assert_eq!(rt; flow.pubcomp(1), Ok(taken), "PUBCOMP of the first");
    pumps(rt, flow, alloc, way(1, 0), &[])?;
    pubrec(rt, flow, 2, 0x00)?;
    flow.pubcomp(2)?;
    pumps(rt, flow, alloc, way(1, 0), &[send(3, 1)])
}

/// A client with Receive Maximum 1 resumes with one released and two waiting copies (4.4, 4.9).
#[test]
fn a_released_copy_of_an_earlier_connection_fills_no_window(
    rt: HostRuntime,
) -> Result<(), FlowFault> {
    let mut flow = Outflow::new(rt.alloc());
    let done = resume_with_one_released(&rt, &mut flow, rt.alloc());
    drop(flow);
    done
}

/// Takes PUBREC and PUBCOMP for each PUBLISH, in order from `next`; answers with the place after the last.
fn complete(
    rt: &impl Abort,
    flow: &mut Outflow,
    sent: &[Turn],
    next: u64,
) -> Result<u64, FlowFault> {
    let mut next = next;
    for turn in sent {
        if let Turn::Send { place, identifier } = *turn {
            assert_eq!(rt; place, next, "in order");
            next = place.saturating_add(1);
            pubrec(rt, flow, identifier, 0x00)?;
            flow.pubcomp(identifier)?;
        }
    }
    Ok(next)
}

/// Pumps at most `most` PUBLISH and takes their answers.
fn round(
    rt: &impl Abort,
    flow: &mut Outflow,
    alloc: Global,
    (window, most): (u16, usize),
    next: u64,
) -> Result<u64, FlowFault> {
    let sent = pump(rt, flow, alloc, way(window, 0))?;
    assert!(rt; sent.len() <= most, "so many at most");
    let done = complete(rt, flow, &sent, next);
    drop(sent);
    done
}

/// 21 copies go out through a window.
fn drain(
    rt: &impl Abort,
    flow: &mut Outflow,
    alloc: Global,
    through: (u16, usize),
) -> Result<(), FlowFault> {
    fill(rt, flow, alloc, 21, None)?;
    let mut next = 1;
    for _round in 0..21 {
        next = round(rt, flow, alloc, through, next)?;
    }
    assert_eq!(rt; next, 22, "all went out");
    assert_eq!(rt; flow.entries().len(), 0, "and ended");
    Ok(())
}

/// A queue of its own for each window.
fn drain_anew(rt: &impl Abort, alloc: Global, through: (u16, usize)) -> Result<(), FlowFault> {
    let mut flow = Outflow::new(alloc);
    let done = drain(rt, &mut flow, alloc, through);
    drop(flow);
    done
}

/// 21 copies go out in the order of the queue, as the window lets them (4.6, 4.9).
#[test]
fn twenty_one_copies_go_out_in_order(rt: HostRuntime) -> Result<(), FlowFault> {
    for through in [(1, 1), (2, 2), (65_535, 16)] {
        drain_anew(&rt, rt.alloc(), through)?;
    }
    Ok(())
}

/// Of two copies one is sent before its interval of 5 seconds has passed.
fn wait(rt: &impl Abort, flow: &mut Outflow, alloc: Global) -> Result<(), FlowFault> {
    fill(rt, flow, alloc, 2, Some(5))?;
    pumps(rt, flow, alloc, way(1, 4_999), &[send(1, 1)])?;
    expires(rt, flow, alloc, 4_999, &[])?;
    expires(rt, flow, alloc, 5_000, &[leave(2, Ending::Expired)])?;
    resumes(rt, flow, alloc, &[])?;
    let resent = Turn::Resend {
        place: 1,
        identifier: 1,
    };
    pumps(rt, flow, alloc, way(1, 90_000), &[resent])
}

/// An interval of 5 seconds (3.3.2.3.3): a copy that waits ends, a sent one is sent again.
#[test]
fn a_sent_copy_does_not_expire(rt: HostRuntime) -> Result<(), FlowFault> {
    let mut flow = Outflow::new(rt.alloc());
    let done = wait(&rt, &mut flow, rt.alloc());
    drop(flow);
    done
}

/// Answers that fit no phase, for a copy of QoS 2 and one of QoS 1.
fn answer_wrongly(rt: &impl Abort, flow: &mut Outflow) {
    let wrong = Err(FlowFault::WrongStep);
    assert_eq!(rt; flow.puback(1, Reason(0x00)), wrong, "PUBACK at QoS 2");
    assert_eq!(rt; flow.pubcomp(1), wrong, "PUBCOMP before PUBREC");
    assert_eq!(rt; pubrec(rt, flow, 2, 0x00), wrong, "PUBREC at QoS 1");
}

/// Answers whose identifier no copy has.
fn answer_for_none(rt: &impl Abort, flow: &mut Outflow) {
    assert_eq!(rt; flow.puback(9, Reason(0x00)), Ok(None), "PUBACK of none");
    assert_eq!(rt; flow.pubcomp(9), Ok(None), "PUBCOMP of none");
    let unknown = Turn::Unknown { identifier: 9 };
    assert_eq!(rt;
        pubrec(rt, flow, 9, 0x00),
        Ok(Some(unknown)),
        "PUBREC of none"
    );
}

/// A copy of QoS 2 and one of QoS 1 are sent and answered.
fn answer(rt: &impl Abort, flow: &mut Outflow, alloc: Global) -> Result<(), FlowFault> {
    fill(rt, flow, alloc, 1, None)?;
    let second = copy(2, Qos::AtLeastOnce, None);
    enters(rt, flow, alloc, (1_000, Full::Refuse), second, &[])?;
    pumps(rt, flow, alloc, way(10, 0), &[send(1, 1), send(2, 2)])?;
    answer_wrongly(rt, flow);
    answer_for_none(rt, flow);
    let refused = leave(1, Ending::Refused);
    assert_eq!(rt; pubrec(rt, flow, 1, 0x80), Ok(Some(refused)), "PUBREC 0x80");
    let taken = leave(2, Ending::Taken);
    assert_eq!(rt;
        flow.puback(2, Reason(0x10)),
        Ok(Some(taken)),
        "PUBACK 0x10"
    );
    assert_eq!(rt; flow.entries().len(), 0, "both ended");
    Ok(())
}

/// Answers that fit no phase, and those whose identifier no copy has (4.3).
#[test]
fn an_answer_fits_its_phase(rt: HostRuntime) -> Result<(), FlowFault> {
    let mut flow = Outflow::new(rt.alloc());
    let done = answer(&rt, &mut flow, rt.alloc());
    drop(flow);
    done
}

/// A queue of two is full, and drops what waits.
fn give_way(rt: &impl Abort, flow: &mut Outflow, alloc: Global) -> Result<(), FlowFault> {
    fill(rt, flow, alloc, 2, None)?;
    refuses(rt, flow, alloc, (2, Full::Refuse));
    pumps(rt, flow, alloc, way(1, 0), &[send(1, 1)])?;
    let third = copy(3, Qos::ExactlyOnce, None);
    enters(
        rt,
        flow,
        alloc,
        (2, Full::Drop),
        third,
        &[leave(2, Ending::Dropped)],
    )?;
    pumps(rt, flow, alloc, way(2, 0), &[send(2, 2)])?;
    refuses(rt, flow, alloc, (2, Full::Drop));
    assert!(rt; flow.holder(1).is_some(), "the first has its identifier");
    Ok(())
}

/// A queue of two (ours).
#[test]
fn the_oldest_that_waits_gives_way(rt: HostRuntime) -> Result<(), FlowFault> {
    let mut flow = Outflow::new(rt.alloc());
    let done = give_way(&rt, &mut flow, rt.alloc());
    drop(flow);
    done
}
