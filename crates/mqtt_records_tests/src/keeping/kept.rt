//! A subscriber's and a publisher's rows, each kind of change, a failing device, want of memory.

use bytes::Bytes;
use mqtt_base::{
    Cause, CopyId, OPEN_LIMIT, Phase, QUEUE_LIMIT, Qos, RetainHandling, SESSION_LIMIT,
    SUBSCRIPTION_LIMIT, SubscriptionOptions, Text,
};
use mqtt_keep::{Failure, FaultyKeep, Keep, KeepError, MemKeep};
use mqtt_props::PropList;
use mqtt_records::{
    Boxed, Change, Columns, Content, CopyRow, Counter, MessageCopy, PassedOn, Records,
    RetainedMessage, Rows, SessionRow, Subscription, SubscriptionIdentifiers, Will,
};
use std::alloc::{AllocError, Global};
use std::process::Abort;
use std::test::Fail;

/// A text that is one.
fn text(alloc: Global, text: &str) -> Result<Text, AllocError> {
    if !Text::may_hold(text) {
        return Err(AllocError);
    }
    Text::new(alloc, text)
}

fn content(alloc: Global) -> Result<Content, AllocError> {
    let topic = text(alloc, "a/b")?;
    match Bytes::copy_from_slice(alloc, b"hi") {
        Ok(payload) => Ok(Content {
            topic,
            properties: PassedOn::new(),
            payload,
            arrived: 0,
        }),
        Err(fault) => {
            drop(topic);
            Err(fault)
        }
    }
}

pub(crate) fn session(
    alloc: Global,
    birth: u64,
    client: &str,
    closed: Option<u64>,
) -> Result<Change, AllocError> {
    let columns = Columns {
        birth,
        client: text(alloc, client)?,
        expiry: 60,
        closed,
    };
    Ok(Change::PutSession {
        row: SessionRow::new(alloc, columns)?,
    })
}

fn subscription(alloc: Global, birth: u64, filter: &str, place: u64) -> Result<Change, AllocError> {
    let subscription = Subscription {
        filter: text(alloc, filter)?,
        place,
        options: SubscriptionOptions {
            qos: Qos::ExactlyOnce,
            no_local: false,
            retain_as_published: false,
            retain_handling: RetainHandling::SendAlways,
        },
        identifier: None,
    };
    Ok(Change::PutSubscription {
        birth,
        subscription: Boxed::new(alloc, subscription)?,
    })
}

/// What tells a shared copy from all others.
fn copy_id(alloc: Global, birth: u64, publication: u64) -> Result<CopyId, AllocError> {
    let group = text(alloc, "g/a/b")?;
    Ok(CopyId {
        publication,
        birth,
        cause: Cause::Share { group },
    })
}

/// A copy of a publication with these identifiers.
fn message_copy(
    alloc: Global,
    birth: u64,
    publication: u64,
    identifiers: SubscriptionIdentifiers,
) -> Result<MessageCopy, AllocError> {
    let content = match content(alloc) {
        Ok(content) => content,
        Err(fault) => {
            drop(identifiers);
            return Err(fault);
        }
    };
    match copy_id(alloc, birth, publication) {
        Ok(id) => Ok(MessageCopy {
            id,
            qos: Qos::ExactlyOnce,
            retain: false,
            identifiers,
            content,
        }),
        Err(fault) => {
            drop(identifiers);
            drop(content);
            Err(fault)
        }
    }
}

/// A copy waits at the place of its publication's number.
pub(crate) fn copy(alloc: Global, birth: u64, place: u64) -> Result<Change, AllocError> {
    let identifiers = SubscriptionIdentifiers::from_slice(alloc, &[7])?;
    let copy = message_copy(alloc, birth, place, identifiers)?;
    let Ok(row) = CopyRow::new(alloc, place, Phase::Waiting, copy) else {
        return Err(AllocError);
    };
    Ok(Change::PutCopy {
        birth,
        row: Boxed::new(alloc, row)?,
    })
}

fn will(alloc: Global, birth: u64) -> Result<Change, AllocError> {
    let topic = text(alloc, "w")?;
    match Bytes::copy_from_slice(alloc, b"gone") {
        Ok(payload) => Ok(Change::PutWill {
            birth,
            will: Will {
                delay: 5,
                qos: Qos::AtLeastOnce,
                retain: true,
                topic,
                properties: PropList::new(),
                payload,
            },
        }),
        Err(fault) => {
            drop(topic);
            Err(fault)
        }
    }
}

/// A message of `p1` that was retained.
fn retained_message(alloc: Global, place: u64) -> Result<RetainedMessage, AllocError> {
    let sender = text(alloc, "p1")?;
    match content(alloc) {
        Ok(content) => Ok(RetainedMessage {
            place,
            sender,
            publication: 1,
            qos: Qos::ExactlyOnce,
            content,
        }),
        Err(fault) => {
            drop(sender);
            Err(fault)
        }
    }
}

fn retained(alloc: Global, place: u64) -> Result<Change, AllocError> {
    let kept = retained_message(alloc, place)?;
    Ok(Change::PutRetained {
        kept: Boxed::new(alloc, kept)?,
    })
}

pub(crate) fn counter(counter: Counter, value: u64) -> Change {
    Change::SetCounter { counter, value }
}

/// Adds a change that could be made.
pub(crate) fn add(
    changes: &mut Vec<Change>,
    change: Result<Change, AllocError>,
) -> Result<(), AllocError> {
    let change = change?;
    changes.push(change)?;
    Ok(())
}

/// Adds what `course` makes.
fn add_course(changes: &mut Vec<Change>, alloc: Global) -> Result<(), AllocError> {
    add(changes, session(alloc, 1, "r1", None))?;
    add(changes, Ok(counter(Counter::Births, 1)))?;
    add(changes, subscription(alloc, 1, "a/b", 1))?;
    add(changes, Ok(counter(Counter::Subscribes, 1)))?;
    add(changes, session(alloc, 2, "p1", None))?;
    add(changes, Ok(counter(Counter::Births, 2)))?;
    add(changes, Ok(counter(Counter::Publications, 1)))?;
    add(changes, Ok(open(10)))?;
    add(changes, copy(alloc, 1, 1))?;
    add(changes, Ok(sent(1)))
}

/// The publisher's identifier is opened.
fn open(identifier: u16) -> Change {
    Change::PutInbound {
        birth: 2,
        identifier,
    }
}

/// The subscriber's first copy is sent.
fn sent(identifier: u16) -> Change {
    Change::SetCopy {
        birth: 1,
        place: 1,
        phase: Phase::Sent { identifier },
    }
}

/// Changes, or why not all of them could be made.
pub(crate) fn all(
    changes: Vec<Change>,
    made: Result<(), AllocError>,
) -> Result<Vec<Change>, AllocError> {
    match made {
        Ok(()) => Ok(changes),
        Err(fault) => {
            drop(changes);
            Err(fault)
        }
    }
}

/// `r1` comes and subscribes `a/b` at QoS 2; `p1` comes and publishes under identifier 10; the copy
/// is sent.
pub(crate) fn course(alloc: Global) -> Result<Vec<Change>, AllocError> {
    let mut changes = Vec::new(alloc);
    let made = add_course(&mut changes, alloc);
    all(changes, made)
}

/// The course, a Will and a retained message.
fn long_course(alloc: Global) -> Result<Vec<Change>, AllocError> {
    let mut changes = Vec::new(alloc);
    let made = add_long_course(&mut changes, alloc);
    all(changes, made)
}

fn add_long_course(changes: &mut Vec<Change>, alloc: Global) -> Result<(), AllocError> {
    add_course(changes, alloc)?;
    add(changes, will(alloc, 1))?;
    add(changes, retained(alloc, 1))
}

/// Rows of sessions, Wills, subscriptions, open identifiers, copies and retained messages.
fn rows(records: &Records) -> [usize; 6] {
    let mut rows = [0_usize; 6];
    rows[0] = records.sessions.len();
    for session in records.sessions.as_slice() {
        let session = session.get();
        rows[1] = rows[1].wrapping_add(usize::from(session.will.is_some()));
        rows[2] = rows[2].wrapping_add(session.subscriptions.len());
        rows[3] = rows[3].wrapping_add(session.inbound.len());
        rows[4] = rows[4].wrapping_add(session.queue.len());
    }
    rows[5] = records.retained.len();
    rows
}

fn numbers(records: &Records) -> [u64; 5] {
    [
        records.births,
        records.publications,
        records.subscribes,
        records.autos,
        records.moment,
    ]
}

fn phase(records: &Records, birth: u64, place: u64) -> Option<Phase> {
    let session = records.sessions.get(birth)?;
    let row = session.get().queue.get(place)?;
    Some(row.get().phase())
}

/// Loads, changes, and loads again, through what any store promises.
fn kept<K: Keep>(keep: &mut K, alloc: Global, changes: &[Change]) -> Result<Records, KeepError> {
    let before = keep.load(alloc)?;
    drop(before);
    keep.apply(changes)?;
    keep.load(alloc)
}

#[test]
fn a_copy_that_is_sent_is_kept_with_its_identifier(rt: HostRuntime) -> Result<(), Fail> {
    let alloc = rt.alloc();
    let mut keep = MemKeep::new(alloc)?;
    let changes = course(alloc)?;
    let records = kept(&mut keep, alloc, &changes)?;
    drop(changes);
    assert_eq!(rt; rows(&records), [2, 0, 1, 1, 1, 0], "rows of each kind");
    assert_eq!(rt; numbers(&records), [2, 1, 1, 0, 0], "the numbers");
    assert_eq!(rt;
        phase(&records, 1, 1),
        Some(Phase::Sent { identifier: 1 }),
        "the copy"
    );
    assert_eq!(rt; phase(&records, 2, 1), None, "the publisher has no copy");
    assert!(rt; is_publisher(&records), "its open identifier and its name");
    assert_eq!(rt; keep.failures(), 0);
    drop(records);
    drop(keep);
    Ok(())
}

/// Session 2 is `p1`, with identifier 10 open.
fn is_publisher(records: &Records) -> bool {
    match records.sessions.get(2) {
        Some(session) => {
            let session = session.get();
            session.inbound.as_slice() == [10].as_slice() && session.client.as_str() == "p1"
        }
        None => false,
    }
}

#[test]
fn a_session_ends_with_all_its_rows(rt: HostRuntime) -> Result<(), Fail> {
    let alloc = rt.alloc();
    let mut records = Records::new(alloc)?;
    let changed = change_by_course(&mut records, alloc);
    assert_eq!(rt; changed.is_ok(), true, "there is memory");
    assert_eq!(rt; rows(&records), [2, 1, 1, 1, 1, 0], "before");
    records.change(Change::RemoveSession { birth: 1 });
    assert_eq!(rt; rows(&records), [1, 0, 0, 1, 0, 0], "the subscriber ended");
    records.change(Change::RemoveSession { birth: 2 });
    assert_eq!(rt; rows(&records), [0, 0, 0, 0, 0, 0], "the publisher ended");
    assert_eq!(rt; numbers(&records), [2, 1, 1, 0, 0], "the numbers stay");
    drop(records);
    Ok(())
}

/// The course, and a Will of the subscriber.
fn change_by_course(records: &mut Records, alloc: Global) -> Result<(), AllocError> {
    records.change_all(course(alloc)?);
    records.change(will(alloc, 1)?);
    Ok(())
}

/// The rows after each change of `change_at`, made one after the other behind `course`.
const ROWS: &[(&str, [usize; 6])] = &[
    ("a number", [2, 0, 1, 1, 1, 0]),
    ("a moment", [2, 0, 1, 1, 1, 0]),
    ("a session", [3, 0, 1, 1, 1, 0]),
    ("its row anew", [3, 0, 1, 1, 1, 0]),
    ("a Will", [3, 1, 1, 1, 1, 0]),
    ("a second subscription", [3, 1, 2, 1, 1, 0]),
    ("the same filter", [3, 1, 2, 1, 1, 0]),
    ("an identifier", [3, 1, 2, 2, 1, 0]),
    ("a second copy", [3, 1, 2, 2, 2, 0]),
    ("a retained message", [3, 1, 2, 2, 2, 1]),
    ("it anew", [3, 1, 2, 2, 2, 1]),
    ("it is removed", [3, 1, 2, 2, 2, 0]),
    ("a copy ends", [3, 1, 2, 2, 1, 0]),
    ("an identifier closes", [3, 1, 2, 1, 1, 0]),
    ("an UNSUBSCRIBE", [3, 1, 1, 1, 1, 0]),
    ("the Will is dropped", [3, 0, 1, 1, 1, 0]),
    ("a session ends", [2, 0, 1, 1, 1, 0]),
];

fn table() -> &'static [(&'static str, [usize; 6])] {
    ROWS
}

/// A change of each kind, in an order in which each fits.
fn change_at(alloc: Global, turn: usize) -> Result<Change, AllocError> {
    match turn {
        0 => Ok(counter(Counter::Autos, 3)),
        1 => Ok(counter(Counter::Moment, 9)),
        2 => session(alloc, 3, "x", Some(5)),
        3 => session(alloc, 1, "r1", Some(6)),
        4 => will(alloc, 1),
        5 => subscription(alloc, 1, "c", 2),
        6 => subscription(alloc, 1, "a/b", 1),
        7 => Ok(Change::PutInbound {
            birth: 2,
            identifier: 4,
        }),
        8 => copy(alloc, 1, 2),
        9 | 10 => retained(alloc, 1),
        11 => Ok(Change::RemoveRetained { place: 1 }),
        12 => Ok(Change::RemoveCopy { birth: 1, place: 1 }),
        13 => Ok(Change::RemoveInbound {
            birth: 2,
            identifier: 10,
        }),
        14 => Ok(Change::RemoveSubscription {
            birth: 1,
            filter: text(alloc, "a/b")?,
        }),
        15 => Ok(Change::RemoveWill { birth: 1 }),
        _ => Ok(Change::RemoveSession { birth: 3 }),
    }
}

/// What is kept after one further change.
fn kept_after(keep: &mut MemKeep, alloc: Global, turn: usize) -> Result<Records, KeepError> {
    let changes = [change_at(alloc, turn)?];
    let records = kept(keep, alloc, &changes);
    drop(changes);
    records
}

/// A store that has the course, and has given the numbers of what `change_at` puts.
fn started(alloc: Global) -> Result<MemKeep, AllocError> {
    let mut records = Records::new(alloc)?;
    let changed = course(alloc);
    match changed {
        Ok(changes) => {
            records.change_all(changes);
            records.change(counter(Counter::Births, 3));
            records.change(counter(Counter::Publications, 2));
            records.change(counter(Counter::Subscribes, 2));
            Ok(MemKeep::with(alloc, records))
        }
        Err(fault) => {
            drop(records);
            Err(fault)
        }
    }
}

#[test]
fn each_kind_of_change_changes_its_rows(rt: HostRuntime) -> Result<(), Fail> {
    let alloc = rt.alloc();
    let mut keep = started(alloc)?;
    for (turn, (name, wanted)) in table().iter().enumerate() {
        let records = kept_after(&mut keep, alloc, turn)?;
        assert_eq!(rt; rows(&records), *wanted, "after {name}");
        drop(records);
    }
    let records = keep.load(alloc)?;
    drop(keep);
    assert_eq!(rt; numbers(&records), [3, 2, 2, 3, 9], "the numbers");
    assert_eq!(rt; closed(&records, 1), Some(6), "its new row");
    assert_eq!(rt;
        phase(&records, 1, 2),
        Some(Phase::Waiting),
        "the copy that is left"
    );
    drop(records);
    Ok(())
}

/// When the connection of a session closed.
fn closed(records: &Records, birth: u64) -> Option<u64> {
    records.sessions.get(birth)?.get().closed
}

/// Rows that are kept, of a store that may want memory.
fn rows_of<K: Keep>(keep: &mut K, alloc: Global) -> Result<[usize; 6], KeepError> {
    let records = keep.load(alloc)?;
    let found = rows(&records);
    drop(records);
    Ok(found)
}

/// A store that has nothing yet, of which no call has failed.
fn has_nothing(rt: &impl Abort, alloc: Global, keep: &mut FaultyKeep) -> Result<(), Fail> {
    assert_eq!(rt; keep.apply(&[]), Ok(()), "no changes");
    assert_eq!(rt; rows_of(keep, alloc)?, [0; 6], "no rows");
    assert_eq!(rt; keep.failures(), 0, "no failure yet");
    Ok(())
}

/// A store of which the next call of `apply` fails.
fn fails(
    rt: &impl Abort,
    alloc: Global,
    keep: &mut FaultyKeep,
    changes: &[Change],
    left: [usize; 6],
) -> Result<(), Fail> {
    assert_eq!(rt;
        keep.apply(changes),
        Err(KeepError::Disk),
        "the second call"
    );
    assert_eq!(rt; keep.failures(), 1, "counted");
    assert_eq!(rt; rows_of(keep, alloc)?, left, "what is left");
    Ok(())
}

/// A store of which the second call of `apply` fails.
fn fails_once(
    rt: &impl Abort,
    alloc: Global,
    keep: &mut FaultyKeep,
    changes: &[Change],
    left: [usize; 6],
) -> Result<(), Fail> {
    has_nothing(rt, alloc, keep)?;
    fails(rt, alloc, keep, changes, left)?;
    assert_eq!(rt; keep.apply(changes), Ok(()), "the third call");
    assert_eq!(rt; rows_of(keep, alloc)?, [2, 0, 1, 1, 1, 0], "at the end");
    assert_eq!(rt; keep.failures(), 1, "no further failure");
    Ok(())
}

#[test]
fn a_failing_device_leaves_all_changes_or_none(rt: HostRuntime) -> Result<(), Fail> {
    let alloc = rt.alloc();
    let changes = course(alloc)?;
    let table = [
        (Failure::BeforeChanges, [0, 0, 0, 0, 0, 0]),
        (Failure::AfterChanges, [2, 0, 1, 1, 1, 0]),
    ];
    for (failure, left) in table {
        let mut keep = FaultyKeep::new(alloc, 1, failure)?;
        let done = fails_once(&rt, alloc, &mut keep, &changes, left);
        drop(keep);
        done?;
    }
    drop(changes);
    Ok(())
}

#[test]
fn records_that_break_a_rule_are_refused(rt: HostRuntime) -> Result<(), Fail> {
    let alloc = rt.alloc();
    let mut keep = MemKeep::new(alloc)?;
    keep.apply(&[session(alloc, 1, "r1", None)?])?;
    assert_eq!(rt;
        rows_of(&mut keep, alloc),
        Err(KeepError::Corrupt),
        "a birth that was not given"
    );
    keep.apply(&[counter(Counter::Births, 1)])?;
    assert_eq!(rt;
        rows_of(&mut keep, alloc),
        Ok([1, 0, 0, 0, 0, 0]),
        "once it was given"
    );
    drop(keep);
    let mut keep = FaultyKeep::new(alloc, 2, Failure::BeforeChanges)?;
    keep.apply(&[session(alloc, 1, "r1", None)?])?;
    assert_eq!(rt;
        rows_of(&mut keep, alloc),
        Err(KeepError::Corrupt),
        "so in the other store"
    );
    keep.apply(&[counter(Counter::Births, 1)])?;
    assert_eq!(rt;
        rows_of(&mut keep, alloc),
        Ok([1, 0, 0, 0, 0, 0]),
        "and there"
    );
    assert_eq!(rt; keep.failures(), 0, "which is no failure of its device");
    drop(keep);
    Ok(())
}

/// Makes changes in a store that may want memory, and a second time if it does.
fn made_in_the_end(
    rt: &impl Abort,
    alloc: Global,
    keep: &mut MemKeep,
    changes: &[Change],
) -> Result<(), Fail> {
    if let Err(fault) = keep.apply(changes) {
        assert_eq!(rt; fault, KeepError::Memory);
        assert_eq!(rt; rows_of(keep, alloc)?, [0; 6], "no row");
        assert_eq!(rt; keep.apply(changes), Ok(()), "a second try");
    }
    match rows_of(keep, alloc) {
        Ok(found) => assert_eq!(rt; found, [2, 1, 1, 1, 1, 1], "all rows"),
        Err(fault) => {
            assert_eq!(rt; fault, KeepError::Memory);
            assert_eq!(rt; rows_of(keep, alloc)?, [2, 1, 1, 1, 1, 1], "all rows");
        }
    }
    Ok(())
}

/// To be run with each allocation refused in turn.
#[test]
fn want_of_memory_changes_nothing(rt: HostRuntime) -> Result<(), Fail> {
    let alloc = rt.alloc();
    let mut keep = MemKeep::new(alloc)?;
    let changes = long_course(alloc)?;
    let done = made_in_the_end(&rt, alloc, &mut keep, &changes);
    drop(changes);
    drop(keep);
    done
}

/// 40, 38 .. 2, put from the greatest down.
fn even(alloc: Global) -> Result<Rows<u16, OPEN_LIMIT>, AllocError> {
    let mut open: Rows<u16, OPEN_LIMIT> = Rows::new(alloc)?;
    for turn in 0..20 {
        open.put(40 - 2 * turn);
    }
    Ok(open)
}

#[test]
fn a_full_list_takes_no_other_key(rt: HostRuntime) -> Result<(), Fail> {
    let mut open = even(rt.alloc())?;
    assert_eq!(rt; open.len(), OPEN_LIMIT, "our Receive Maximum");
    open.put(5);
    assert!(rt; !open.has(5), "there is no room for another");
    open.put(40);
    assert_eq!(rt; open.len(), OPEN_LIMIT, "one of them is there already");
    drop(open);
    Ok(())
}

#[test]
fn a_list_is_in_order(rt: HostRuntime) -> Result<(), Fail> {
    let mut open = even(rt.alloc())?;
    assert_eq!(rt; open.at(0), Some(&2), "the lowest");
    assert_eq!(rt; open.at(19), Some(&40), "the highest");
    assert_eq!(rt; open.at(20), None, "past the end");
    assert_eq!(rt; open.get(6), Some(&6));
    open.remove(6);
    assert_eq!(rt; open.get(6), None, "removed");
    drop(open);
    Ok(())
}

#[test]
fn a_copy_of_a_list_is_in_its_order(rt: HostRuntime) -> Result<(), Fail> {
    let mut open = even(rt.alloc())?;
    open.remove(6);
    open.put(5);
    let shared = open.clone()?;
    drop(open);
    let wanted = [
        2, 4, 5, 8, 10, 12, 14, 16, 18, 20, 22, 24, 26, 28, 30, 32, 34, 36, 38, 40,
    ];
    assert_eq!(rt; shared.as_slice(), wanted.as_slice(), "in ascending order");
    drop(shared);
    Ok(())
}

#[test]
fn limits_and_numbers_of_faults_are_fixed(rt: HostRuntime) -> Result<(), Fail> {
    assert_eq!(rt;
        [SESSION_LIMIT, SUBSCRIPTION_LIMIT, OPEN_LIMIT, QUEUE_LIMIT],
        [1000, 100, 20, 1000]
    );
    let faults = [
        (KeepError::Memory, 1, "want of memory"),
        (KeepError::Disk, 2, "the device failed"),
        (KeepError::Size, 3, "larger than the store takes"),
        (KeepError::Corrupt, 4, "the records break their rules"),
        (KeepError::Schema, 5, "the records are of another schema"),
    ];
    for (fault, number, said) in faults {
        assert_eq!(rt; fault as u8, number, "{said}");
        assert_eq!(rt; format!(in rt.alloc(); "{fault}")?.as_str(), said);
    }
    Ok(())
}
