//! What waiting copies say, read off records in memory (3.3, 4.1).
ghost use Rattle.std.specs.Prelude.{◌≡◌, IfOk, filter, map, take};
ghost use Rattle.mqtt_records.specs.lists.Order.{IsAscending};
ghost use Rattle.mqtt_records.specs.state.Session.{copy_place};
ghost use Rattle.mqtt_records.specs.state.Telling.{contents_from, copy_content, is_from};

use crate::lists::{Boxed, Row};
use crate::messages::{CopyContent, CopyRow};
use crate::state::records::Records;
use std::alloc::{AllocError, Global};

/// The rows of a queue from a place on. Takes no memory.
fn rows_from(queue: &[Boxed<CopyRow>], place: u64) -> &[Boxed<CopyRow>]
    requires { IsAscending copy_place queue.now }
    ensures { result.now ≡ filter (is_from place) queue.now }
{
    let start = queue.partition_point(|row| row.key() < place);
    &queue[start..]
}

/// The first rows, at most so many. Takes no memory.
fn first_rows(rows: &[Boxed<CopyRow>], limit: u32) -> &[Boxed<CopyRow>]
    ensures { result.now ≡ take limit rows.now }
{
    let limit = limit as usize;
    if rows.len() <= limit {
        return rows;
    }
    &rows[..limit]
}

/// What the copy of a row says; the bytes are shared with it. Want of memory also if the row is slim.
pub fn content_of(alloc: Global, row: &CopyRow) -> Result<CopyContent, AllocError>
    ensures { IfOk result (λ content. content ≡ copy_content row.now) }
{
    let Some(copy) = row.whole() else {
        return Err(AllocError);
    };
    CopyContent::new(
        alloc,
        row.place(),
        copy.identifiers.clone()?,
        copy.content.topic.clone()?,
        copy.content.properties.clone()?,
        copy.content.payload.clone()?,
    )
}

/// What each row's copy says, in order.
fn contents_of(alloc: Global, rows: &[Boxed<CopyRow>]) -> Result<Vec<CopyContent>, AllocError>
    ensures { IfOk result (λ all. all.items ≡ map copy_content rows.now) }
{
    let mut all = Vec::with_capacity(alloc, rows.len())?;
    for row in rows {
        let content = content_of(alloc, row.get())?;
        all.push(content)?;
    }
    Ok(all)
}

/// What the first copies of a session say from a place on, at most so many, in the order of the queue; nothing of a
/// session that isn't there.
pub fn contents_in(
    alloc: Global,
    records: &Records,
    birth: u64,
    place: u64,
    limit: u32,
) -> Result<Vec<CopyContent>, AllocError>
    ensures { IfOk result (λ all. all.items ≡ contents_from birth place limit records.now) }
{
    let Some(session) = records.sessions.get(birth) else {
        return Ok(Vec::new(alloc));
    };
    let queue = session.get().queue.as_slice();
    contents_of(alloc, first_rows(rows_from(queue, place), limit))
}
