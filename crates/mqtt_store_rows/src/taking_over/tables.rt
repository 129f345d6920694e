//! Records out of the rows of all tables of schema 1 (4.1).
ghost use Rattle.std.specs.Prelude.{◌≡◌, ◌⊎◌, IfOk, IfErr, IsErrOf};
ghost use Rattle.mqtt_keep.specs.lawful.Lawful.{IsLawful};
ghost use Rattle.mqtt_records.specs.declared.state.records.Records.{Records};
ghost use Rattle.mqtt_store_rows.specs.values.Gives.{Parts, AreWithin};
ghost use Rattle.mqtt_store_rows.specs.taking_over.Gives.{Gives};
ghost use Rattle.mqtt_store_rows.specs.taking_over.Tables.{parts_in, rows_in};

use crate::values::{PartRows, all_of, counters_of, sessions_of};
use mqtt_base::RETAINED_LIMIT;
use mqtt_keep::{KeepError, is_lawful};
use mqtt_records::{Boxed, Records, RetainedMessage};
use sqlite::Row;
use std::alloc::Global;

/// The rows of all tables of schema 1.
#[derive(Debug, Drop)]
pub struct Tables {
    /// Of `meta`, by name.
    pub meta: Vec<Row>,
    /// Of `session`, by birth.
    pub sessions: Vec<Row>,
    /// Of `will`, by birth.
    pub wills: Vec<Row>,
    /// Of `sub`, by birth and place.
    pub subscriptions: Vec<Row>,
    /// Of `inbound`, by birth and identifier.
    pub inbound: Vec<Row>,
    /// Of `copy`, by birth and place.
    pub copies: Vec<Row>,
    /// Of `retained`, by place.
    pub retained: Vec<Row>,
}

impl Tables {
    /// The rows of what sessions have.
    fn parts(&self) -> PartRows<'_>
        ensures { result ≡ parts_in self.now }
    {
        PartRows {
            wills: &self.wills,
            subscriptions: &self.subscriptions,
            inbound: &self.inbound,
            copies: &self.copies,
        }
    }
}

/// The records that the rows give. `Corrupt` if they give none whose lists are in order and
/// within their limits.
pub fn records_of(alloc: Global, tables: &Tables) -> Result<Records, KeepError>
    ensures ok { IfOk result (λ r. Gives (rows_in tables.now) r) }
    ensures within { IfOk result (λ r. AreWithin r) }
    ensures err { IsErrOf result KeepError.Corrupt
        → (r : Records) → Gives (rows_in tables.now) r → AreWithin r → ⊥ }
    ensures fault { IfErr result (λ e. (e ≡ KeepError.Memory) ⊎ (e ≡ KeepError.Corrupt)) }
{
    let Some(numbers) = counters_of(&tables.meta, 1) else {
        return Err(KeepError::Corrupt);
    };
    let sessions = match sessions_of(alloc, &tables.sessions, &tables.parts()) {
        Ok(sessions) => sessions,
        Err(fault) => return Err(fault),
    };
    match all_of::<Boxed<RetainedMessage>, RETAINED_LIMIT>(alloc, &tables.retained) {
        Ok(retained) => Ok(Records {
            births: numbers.births,
            publications: numbers.publications,
            subscribes: numbers.subscribes,
            autos: numbers.autos,
            moment: numbers.moment,
            sessions,
            retained,
        }),
        Err(fault) => {
            drop(sessions);
            Err(fault)
        }
    }
}

/// The lawful records that the rows give. `Corrupt` if they give none.
pub fn lawful_records_of(alloc: Global, tables: &Tables) -> Result<Records, KeepError>
    ensures ok { IfOk result (λ r. Gives (rows_in tables.now) r) }
    ensures lawful { IfOk result (λ r. IsLawful r) }
    ensures err { IsErrOf result KeepError.Corrupt
        → (r : Records) → Gives (rows_in tables.now) r → IsLawful r → ⊥ }
    ensures fault { IfErr result (λ e. (e ≡ KeepError.Memory) ⊎ (e ≡ KeepError.Corrupt)) }
{
    let records = match records_of(alloc, tables) {
        Ok(records) => records,
        Err(fault) => return Err(fault),
    };
    match is_lawful(alloc, &records) {
        Ok(true) => Ok(records),
        Ok(false) => {
            drop(records);
            Err(KeepError::Corrupt)
        }
        Err(_) => {
            drop(records);
            Err(KeepError::Memory)
        }
    }
}
