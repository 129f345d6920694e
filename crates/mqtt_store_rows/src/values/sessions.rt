//! The sessions out of the rows of five tables (4.1).
ghost use Rattle.std.specs.Prelude.{◌≡◌, ◌≢◌, ◌⊎◌, ℕ, List, Option, MatchBool, IfOk, IfErr, IsErrOf};
ghost use Rattle.std.specs.List.{AllByRecursion};
ghost use Rattle.sqlite_value.specs.Order.{Row as SqlRow};
ghost use Rattle.mqtt_base.specs.declared.limits.TheConstants.{SUBSCRIPTION_LIMIT, OPEN_LIMIT, QUEUE_LIMIT};
ghost use Rattle.mqtt_records.specs.declared.messages.message.Will.{Will};
ghost use Rattle.mqtt_records.specs.messages.Queue.{CopyRow};
ghost use Rattle.mqtt_records.specs.declared.state.session.Session.{Session};
ghost use Rattle.mqtt_records.specs.declared.state.subscription.Subscription.{Subscription};
ghost use Rattle.mqtt_records.specs.state.Session.{birth_of, place_of, number_of, copy_place, columns_of};
ghost use Rattle.mqtt_store_rows.specs.values.Rows.{SaysSession, SaysWill, SaysSubscription, SaysOpen, SaysCopy};
ghost use Rattle.mqtt_store_rows.specs.values.Lists.{TakesAll};
ghost use Rattle.mqtt_records.specs.lists.Order.{IsTable};
ghost use Rattle.mqtt_store_rows.specs.values.Gives.{Parts, no_parts, list_of, TakesParts, AreSessions, IsWithin};
ghost use Rattle.mqtt_store_rows.specs.values.Ends.{EndsParts};

use crate::values::lists::{part_of, will_part};
use crate::values::session::columns_of;
use mqtt_base::{OPEN_LIMIT, QUEUE_LIMIT, SESSION_LIMIT, SUBSCRIPTION_LIMIT};
use mqtt_keep::KeepError;
use mqtt_records::{Boxed, CopyRow, Rows, Session, Subscription, Will, newest_comes_last};
use sqlite::Row;
use std::alloc::Global;
use std::marker::Model;

/// Rows of the tables of what sessions have, each in the order of births.
#[derive(Debug, Drop)]
pub struct PartRows<'a> {
    /// Of `will`.
    pub wills: &'a [Row],
    /// Of `sub`, a session's by place.
    pub subscriptions: &'a [Row],
    /// Of `inbound`, a session's by identifier.
    pub inbound: &'a [Row],
    /// Of `copy`, a session's by place.
    pub copies: &'a [Row],
}

impl<'a> Model for PartRows<'a> {
    ghost use Rattle.mqtt_store_rows.specs.values.Gives.{Parts};

    ghost Value = { Parts };

    ghost view = { λ a. record {
      wills = a.wills.now;
      subscriptions = a.subscriptions.now;
      inbound = a.inbound.now;
      copies = a.copies.now;
    } };
}

/// What of a session came in: its Will and its subscriptions.
type Wishes = (Option<Will>, Rows<Boxed<Subscription>, SUBSCRIPTION_LIMIT>);

/// A session's Will and subscriptions, and the rows behind theirs.
fn wishes_of<'a>(
    alloc: Global,
    birth: u64,
    wills: &'a [Row],
    subscriptions: &'a [Row],
) -> Result<(Wishes, &'a [Row], &'a [Row]), KeepError>
    ensures will { IfOk result (λ x. TakesAll SaysWill birth (list_of x.0.0) wills.now x.1.now) }
    ensures subs { IfOk result (λ x. TakesAll SaysSubscription birth x.0.1 subscriptions.now x.2.now) }
    ensures within { IfOk result (λ x. IsTable place_of SUBSCRIPTION_LIMIT x.0.1) }
    ensures err { IsErrOf result KeepError.Corrupt
        → (will : Option Will) (all : List Subscription) (rest more : List SqlRow)
        → TakesAll SaysWill birth (list_of will) wills.now rest
        → TakesAll SaysSubscription birth all subscriptions.now more
        → IsTable place_of SUBSCRIPTION_LIMIT all → ⊥ }
    ensures fault { IfErr result (λ e. (e ≡ KeepError.Memory) ⊎ (e ≡ KeepError.Corrupt)) }
{
    let (subscriptions, more) = match part_of::<Boxed<Subscription>, SUBSCRIPTION_LIMIT>(
        alloc,
        birth,
        subscriptions,
    ) {
        Ok(part) => part,
        Err(fault) => return Err(fault),
    };
    match will_part(alloc, birth, wills) {
        Ok((will, rest)) => Ok(((will, subscriptions), rest, more)),
        Err(fault) => {
            drop(subscriptions);
            Err(fault)
        }
    }
}

/// A session's open identifiers and copies.
type Flights = (Rows<u16, OPEN_LIMIT>, Rows<Boxed<CopyRow>, QUEUE_LIMIT>);

/// A session's open identifiers and copies, and the rows behind theirs.
fn flights_of<'a>(
    alloc: Global,
    birth: u64,
    inbound: &'a [Row],
    copies: &'a [Row],
) -> Result<(Flights, &'a [Row], &'a [Row]), KeepError>
    ensures inbound { IfOk result (λ x. TakesAll SaysOpen birth x.0.0 inbound.now x.1.now) }
    ensures queue { IfOk result (λ x. TakesAll SaysCopy birth x.0.1 copies.now x.2.now) }
    ensures numbers { IfOk result (λ x. IsTable number_of OPEN_LIMIT x.0.0) }
    ensures places { IfOk result (λ x. IsTable copy_place QUEUE_LIMIT x.0.1) }
    ensures err { IsErrOf result KeepError.Corrupt
        → (ids : List ℕ) (queue : List CopyRow) (rest more : List SqlRow)
        → TakesAll SaysOpen birth ids inbound.now rest → IsTable number_of OPEN_LIMIT ids
        → TakesAll SaysCopy birth queue copies.now more → IsTable copy_place QUEUE_LIMIT queue → ⊥ }
    ensures fault { IfErr result (λ e. (e ≡ KeepError.Memory) ⊎ (e ≡ KeepError.Corrupt)) }
{
    let (inbound, rest) = match part_of::<u16, OPEN_LIMIT>(alloc, birth, inbound) {
        Ok(part) => part,
        Err(fault) => return Err(fault),
    };
    match part_of::<Boxed<CopyRow>, QUEUE_LIMIT>(alloc, birth, copies) {
        Ok((queue, more)) => Ok(((inbound, queue), rest, more)),
        Err(fault) => {
            drop(inbound);
            Err(fault)
        }
    }
}

/// A session, and the rows behind those that it has.
fn session_of<'a>(
    alloc: Global,
    row: &Row,
    parts: &PartRows<'a>,
) -> Result<(Session, PartRows<'a>), KeepError>
    ensures says { IfOk result (λ x. SaysSession (columns_of x.0) row.now) }
    ensures takes { IfOk result (λ x. TakesParts x.0 parts.now x.1) }
    ensures ends { IfOk result (λ x. EndsParts x.0.birth x.1) }
    ensures within { IfOk result (λ x. IsWithin x.0) }
    ensures err { IsErrOf result KeepError.Corrupt
        → (s : Session) (rest : Parts) → SaysSession (columns_of s) row.now
        → TakesParts s parts.now rest → EndsParts s.birth rest → IsWithin s → ⊥ }
    ensures fault { IfErr result (λ e. (e ≡ KeepError.Memory) ⊎ (e ≡ KeepError.Corrupt)) }
{
    let columns = match columns_of(alloc, row) {
        Ok(columns) => columns,
        Err(fault) => return Err(fault),
    };
    let ((will, subscriptions), wills, more) = match wishes_of(
        alloc,
        columns.birth,
        parts.wills,
        parts.subscriptions,
    ) {
        Ok(found) => found,
        Err(fault) => {
            drop(columns);
            return Err(fault);
        }
    };
    match flights_of(alloc, columns.birth, parts.inbound, parts.copies) {
        Ok(((inbound, queue), opened, copies)) => {
            let session = Session {
                birth: columns.birth,
                client: columns.client,
                expiry: columns.expiry,
                closed: columns.closed,
                will,
                subscriptions,
                inbound,
                queue,
            };
            let rest = PartRows {
                wills,
                subscriptions: more,
                inbound: opened,
                copies,
            };
            Ok((session, rest))
        }
        Err(fault) => {
            drop(columns);
            drop(will);
            drop(subscriptions);
            Err(fault)
        }
    }
}

impl<'a> PartRows<'a> {
    /// Whether there are no rows.
    fn is_empty(&self) -> bool
        ensures { MatchBool result (self.now ≡ no_parts) (self.now ≢ no_parts) }
    {
        self.wills.is_empty()
            && self.subscriptions.is_empty()
            && self.inbound.is_empty()
            && self.copies.is_empty()
    }

    /// The same rows, lent once more.
    fn reborrow(&self) -> PartRows<'a>
        ensures { result ≡ self.now }
    {
        PartRows {
            wills: self.wills,
            subscriptions: self.subscriptions,
            inbound: self.inbound,
            copies: self.copies,
        }
    }
}

/// The sessions that the rows of `session`, by birth, and the rows of what sessions have say.
/// `Corrupt` if they say none.
pub fn sessions_of(
    alloc: Global,
    rows: &[Row],
    parts: &PartRows<'_>,
) -> Result<Rows<Boxed<Session>, SESSION_LIMIT>, KeepError>
    ensures ok { IfOk result (λ all. AreSessions rows.now parts.now all) }
    ensures within { IfOk result (λ all. IsTable birth_of SESSION_LIMIT all × AllByRecursion IsWithin all) }
    ensures err { IsErrOf result KeepError.Corrupt
        → (all : List Session) → AreSessions rows.now parts.now all
        → IsTable birth_of SESSION_LIMIT all → AllByRecursion IsWithin all → ⊥ }
    ensures fault { IfErr result (λ e. (e ≡ KeepError.Memory) ⊎ (e ≡ KeepError.Corrupt)) }
{
    if rows.len() > SESSION_LIMIT {
        return Err(KeepError::Corrupt);
    }
    let mut all = Rows::new(alloc)?;
    let mut last = 0;
    let mut left = parts.reborrow();
    newest_comes_last::<Boxed<Session>>();
    for row in rows {
        let (session, rest) = match session_of(alloc, row, &left) {
            Ok(found) => found,
            Err(fault) => return Err(fault),
        };
        let birth = session.birth;
        if birth <= last {
            drop(session);
            return Err(KeepError::Corrupt);
        }
        all.put(Boxed::new(alloc, session)?);
        left = rest;
        last = birth;
    }
    if !left.is_empty() {
        return Err(KeepError::Corrupt);
    }
    Ok(all)
}
