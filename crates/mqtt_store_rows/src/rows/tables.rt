//! Records out of the rows of all tables of schema 2 (4.1).
ghost use Rattle.std.specs.Prelude.{◌≡◌, ◌⊎◌, List, map, IfOk, IfErr, IsErrOf};
ghost use Rattle.std.specs.List.{AllByRecursion};
ghost use Rattle.mqtt_base.specs.declared.limits.TheConstants.{SESSION_LIMIT};
ghost use Rattle.mqtt_records.specs.declared.state.records.Records.{Records};
ghost use Rattle.mqtt_records.specs.declared.state.session.Session.{Session};
ghost use Rattle.mqtt_records.specs.state.Session.{birth_of};
ghost use Rattle.mqtt_records.specs.lists.Order.{IsTable};
ghost use Rattle.mqtt_store_rows.specs.values.Gives.{AreSessions, IsWithin, AreWithin};
ghost use Rattle.mqtt_store_rows.specs.rows.Gives.{parts_of, without_queue, AreHeads};
ghost use Rattle.mqtt_store_rows.specs.rows.Tables.{rows_in};

use crate::rows::messages::Messages;
use crate::rows::refers::all_with;
use crate::values::{PartRows, counters_of, sessions_of};
use mqtt_base::{RETAINED_LIMIT, SESSION_LIMIT};
use mqtt_keep::KeepError;
use mqtt_records::{Boxed, Records, RetainedMessage, Rows, Session};
use sqlite::Row;
use std::alloc::Global;

/// The rows of all tables of schema 2 but `message` and `queued`, which are read one by one.
#[derive(Debug, Drop)]
pub struct Tables {
    /// Of `meta`, by name.
    pub meta: Vec<Row>,
    /// Of `session`, by birth.
    pub sessions: Vec<Row>,
    /// Of `will`, by birth.
    pub wills: Vec<Row>,
    /// Of `sub`, by birth and place.
    pub subscriptions: Vec<Row>,
    /// Of `inbound`, by birth and identifier.
    pub inbound: Vec<Row>,
    /// Of `kept`, by place.
    pub kept: Vec<Row>,
}

impl Tables {
    /// The rows of what sessions have beside their queues.
    fn parts(&self) -> PartRows<'_>
        ensures { result ≡ parts_of (rows_in self.now) }
    {
        PartRows {
            wills: &self.wills,
            subscriptions: &self.subscriptions,
            inbound: &self.inbound,
            copies: &[],
        }
    }
}

/// The sessions without queues that the rows say.
fn bare_sessions(
    alloc: Global,
    tables: &Tables,
) -> Result<Rows<Boxed<Session>, SESSION_LIMIT>, KeepError>
    ensures ok { IfOk result (AreSessions (rows_in tables.now).sessions (parts_of (rows_in tables.now))) }
    ensures bare { IfOk result (λ all. map without_queue all ≡ all) }
    ensures within { IfOk result (λ all. IsTable birth_of SESSION_LIMIT all × AllByRecursion IsWithin all) }
    ensures err { IsErrOf result KeepError.Corrupt → (all : List Session)
        → AreSessions (rows_in tables.now).sessions (parts_of (rows_in tables.now)) all
        → IsTable birth_of SESSION_LIMIT all → AllByRecursion IsWithin all → ⊥ }
    ensures fault { IfErr result (λ e. (e ≡ KeepError.Memory) ⊎ (e ≡ KeepError.Corrupt)) }
{
    match sessions_of(alloc, &tables.sessions, &tables.parts()) {
        Ok(all) => Ok(all),
        Err(fault) => Err(fault),
    }
}

/// The records that the rows give with these messages, of sessions without queues. `Corrupt` if they give none whose lists
/// are in order and within their limits.
pub fn heads_of(alloc: Global, messages: &Messages, tables: &Tables) -> Result<Records, KeepError>
    ensures ok { IfOk result (AreHeads messages.now (rows_in tables.now)) }
    ensures within { IfOk result (λ r. AreWithin r) }
    ensures err { IsErrOf result KeepError.Corrupt → (r : Records)
        → AreHeads messages.now (rows_in tables.now) r → AreWithin r → ⊥ }
    ensures fault { IfErr result (λ e. (e ≡ KeepError.Memory) ⊎ (e ≡ KeepError.Corrupt)) }
{
    let Some(numbers) = counters_of(&tables.meta, 2) else {
        return Err(KeepError::Corrupt);
    };
    let retained = match all_with::<Boxed<RetainedMessage>, RETAINED_LIMIT>(
        alloc,
        messages,
        &tables.kept,
    ) {
        Ok(retained) => retained,
        Err(fault) => return Err(fault),
    };
    match bare_sessions(alloc, tables) {
        Ok(sessions) => Ok(Records {
            births: numbers.births,
            publications: numbers.publications,
            subscribes: numbers.subscribes,
            autos: numbers.autos,
            moment: numbers.moment,
            sessions,
            retained,
        }),
        Err(fault) => {
            drop(retained);
            Err(fault)
        }
    }
}
