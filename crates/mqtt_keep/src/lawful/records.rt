//! Whether a store may be opened with records (4.1).
ghost use Rattle.std.specs.Prelude.{◌↔◌, ◌≡◌, IfOk, IsTrue};
ghost use Rattle.mqtt_keep.specs.lawful.Lawful.{AreNumbers, AreLawfulSessions, AreLawfulRetained};
ghost use Rattle.mqtt_keep.specs.lawful.Lawful.{IsLawful, last_of};

use crate::contents::shares_contents;
use crate::lawful::rows::{Last, are_lawful};
use crate::lawful::session::have_places_apart;
use mqtt_base::{LAST_NUMBER, RETAINED_LIMIT, SESSION_LIMIT};
use mqtt_records::{Boxed, Records, RetainedMessage, Rows, Session, are_named_apart};
use std::alloc::{AllocError, Global};

/// The numbers that were given last, and the moment.
fn last_of(records: &Records) -> Last
    ensures { result ≡ last_of records.now }
{
    Last {
        births: records.births,
        publications: records.publications,
        subscribes: records.subscribes,
        autos: records.autos,
        moment: records.moment,
    }
}

/// Whether numbers are such as are kept.
fn are_numbers(last: Last) -> bool
    ensures { IsTrue result ↔ AreNumbers last }
{
    last.births <= LAST_NUMBER
        && last.publications <= LAST_NUMBER
        && last.subscribes <= LAST_NUMBER
        && last.autos <= LAST_NUMBER
        && last.moment <= LAST_NUMBER
}

/// Whether sessions keep their rules.
fn are_sessions(
    alloc: Global,
    sessions: &Rows<Boxed<Session>, SESSION_LIMIT>,
    last: Last,
) -> Result<bool, AllocError>
    ensures { IfOk result (λ lawful. IsTrue lawful ↔ AreLawfulSessions last sessions.now) }
{
    let rows = sessions.as_slice();
    let apart = are_named_apart(alloc, rows)? && have_places_apart(alloc, rows)?;
    Ok(apart && are_lawful(alloc, rows, last)?)
}

/// Whether retained messages keep their rules.
fn are_retained(
    alloc: Global,
    retained: &Rows<Boxed<RetainedMessage>, RETAINED_LIMIT>,
    last: Last,
) -> Result<bool, AllocError>
    ensures { IfOk result (λ lawful. IsTrue lawful ↔ AreLawfulRetained last retained.now) }
{
    let rows = retained.as_slice();
    Ok(are_named_apart(alloc, rows)? && are_lawful(alloc, rows, last)?)
}

/// Whether a store may be opened with these records: each row keeps the rules that its type doesn't,
/// none is of a number or a moment that hasn't been, what is to be unique is, and copies and retained
/// messages of one publication say the same. A copy that is slim in memory is refused as for want of memory.
pub fn is_lawful(alloc: Global, records: &Records) -> Result<bool, AllocError>
    ensures { IfOk result (λ lawful. IsTrue lawful ↔ IsLawful records.now) }
{
    let last = last_of(records);
    Ok(
        are_numbers(last)
            && are_sessions(alloc, &records.sessions, last)?
            && are_retained(alloc, &records.retained, last)?
            && shares_contents(alloc, records)?,
    )
}
