//! Whether something refers to each message.

use super::database::{database, message_rows, messages_of, put_queue, queued_rows, tables};
use mqtt_store_rows::rows::{are_referred, heads_of, is_among};
use std::alloc::Global;
use std::test::Fail;

/// Whether something refers to each message of the rows after a change, with the queues of these sessions.
fn referred(alloc: Global, change: &str, births: &[u64]) -> Result<bool, Fail> {
    let mut conn = database(alloc)?;
    conn.execute_batch(change)?;
    let rows = message_rows(&mut conn)?;
    let tables = tables(&mut conn)?;
    let mut queued = queued_rows(&mut conn)?;
    drop(conn);
    let messages = messages_of(alloc, &rows)?;
    let mut records = heads_of(alloc, &messages, &tables)?;
    for birth in births {
        put_queue(alloc, &messages, &mut queued, &mut records, *birth)?;
    }
    let found = are_referred(alloc, &messages, &records)?;
    drop(records);
    drop(messages);
    drop(queued);
    drop(tables);
    Ok(found)
}

#[test]
fn copies_and_retained_messages_refer(rt: HostRuntime) -> Result<(), Fail> {
    let alloc = rt.alloc();
    assert!(rt; referred(alloc, "", &[1, 2])?);
    // copies alone
    assert!(rt; referred(alloc, "DELETE FROM kept", &[1, 2])?);
    assert!(rt; referred(alloc, "DELETE FROM kept", &[1])?);
    // the retained message alone
    assert!(rt; referred(alloc, "DELETE FROM message WHERE pub = 1", &[])?);
    // no messages
    assert!(rt; referred(alloc, "DELETE FROM kept; DELETE FROM message", &[])?);
    Ok(())
}

#[test]
fn nothing_refers_to_one(rt: HostRuntime) -> Result<(), Fail> {
    let alloc = rt.alloc();
    // the copy of publication 1 is not in a queue
    assert!(rt; !referred(alloc, "", &[])?);
    assert!(rt; !referred(alloc, "DELETE FROM queued WHERE birth = 1", &[1, 2])?);
    // the first, the last, and one between
    assert!(rt; !referred(alloc, "UPDATE message SET pub = 3 WHERE pub = 1", &[])?);
    assert!(rt;
        !referred(
            alloc,
            "INSERT INTO message VALUES (9, 'a/b', x'00', x'')",
            &[1, 2]
        )?
    );
    assert!(rt;
        !referred(
            alloc,
            "UPDATE queued SET pub = 4 WHERE birth = 2; INSERT INTO message VALUES (3, 'a/b', x'00', x''), (4, 'a/b', x'00', x'')",
            &[1, 2],
        )?
    );
    Ok(())
}

#[test]
fn numbers_are_found_among_others(rt: HostRuntime) -> Result<(), Fail> {
    let numbers = [2, 4, 4, 9];
    assert!(rt; is_among(&numbers, 2) && is_among(&numbers, 4) && is_among(&numbers, 9));
    assert!(rt; !is_among(&numbers, 1) && !is_among(&numbers, 5) && !is_among(&[], 5));
    Ok(())
}
