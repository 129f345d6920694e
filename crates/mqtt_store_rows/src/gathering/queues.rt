//! The queues of all sessions, gathered row by row, slim (3.3, 4.1, 4.3).
ghost use Rattle.std.specs.Prelude.{◌≡◌, ◌⊎◌, ◌++◌, Ok, true, false, List, [], map, IfOk, IfErr, OnOk, IsErrOf};
ghost use Rattle.std.specs.List.{AllByRecursion};
ghost use Rattle.sqlite_value.specs.Order.{Row as SqlRow};
ghost use Rattle.mqtt_records.specs.declared.state.records.Records.{Records as Kept};
ghost use Rattle.mqtt_base.specs.declared.limits.TheConstants.{SESSION_LIMIT};
ghost use Rattle.mqtt_records.specs.state.Contents.{retained_message};
ghost use Rattle.mqtt_records.specs.state.Session.{birth_of};
ghost use Rattle.mqtt_records.specs.lists.Order.{IsTable};
ghost use Rattle.mqtt_keep.specs.lawful.Lawful.{IsLawful, AreNumbers};
ghost use Rattle.mqtt_store_rows.specs.gathering.Alone.{last_in};
ghost use Rattle.mqtt_store_rows.specs.rows.Gives.{without_queue, AreHeads, IsReferred};
ghost use Rattle.mqtt_store_rows.specs.rows.Joins.{Stands};
ghost use Rattle.mqtt_store_rows.specs.rows.Tables.{rows_in};
ghost use Rattle.mqtt_store_rows.specs.gathering.Queues.{heads_in, IsSameButQueues, AreGathered, AreWhole, SayNone, Any, IsEnd, HasTakenQueues, HaveQueues, AreSlimOf};

use crate::gathering::gather::Gather;
use crate::gathering::messages::GatheredMessages;
use crate::gathering::reading::Reading;
use crate::rows::{Messages, Tables, are_referred, heads_of};
use crate::values::Counters;
use mqtt_base::RETAINED_LIMIT;
use mqtt_keep::{KeepError, is_lawful};
use mqtt_records::{Boxed, Records, RetainedMessage, Rows};
use sqlite::Row;
use std::alloc::{AllocError, Global};
use std::collections::VecDeque;
use std::marker::Model;

/// The queues of all sessions, gathered row by row. A session is judged with its queue as soon as that is read, and kept
/// slim: so no more than the copies of one session are whole in memory.
#[derive(Drop)]
pub struct GatheredQueues {
    alloc: Global,
    reading: Reading,
    retained: Rows<Boxed<RetainedMessage>, RETAINED_LIMIT>,
    is_corrupt: bool,
}

impl Model for GatheredQueues {
    ghost use Rattle.std.specs.Prelude.{◌++◌};
    ghost use Rattle.mqtt_base.specs.declared.limits.TheConstants.{SESSION_LIMIT};
    ghost use Rattle.mqtt_records.specs.state.Session.{birth_of};
    ghost use Rattle.mqtt_keep.specs.lawful.Lawful.{AreNumbers};
    ghost use Rattle.mqtt_records.specs.lists.Order.{IsTable};
    ghost use Rattle.mqtt_store_rows.specs.gathering.Alone.{last_in};
    ghost use Rattle.mqtt_store_rows.specs.gathering.Queues.{Queues, heads_in};

    ghost Value = { Queues };

    ghost view = { λ a. record {
      heads = heads_in a.reading a.retained;
      reading = a.reading;
      is_corrupt = a.is_corrupt;
    } };

    ghost invariant = { λ a. AreNumbers (last_in a.reading.numbers)
        × IsTable birth_of SESSION_LIMIT (a.reading.all ++ a.reading.bare) };
}

/// The lawful records that the rows give, of sessions without queues.
fn lawful_heads_of(
    alloc: Global,
    messages: &Messages,
    tables: &Tables,
) -> Result<Records, KeepError>
    ensures ok { IfOk result (AreHeads messages.now (rows_in tables.now)) }
    ensures lawful { IfOk result (λ r. IsLawful r) }
    ensures err { IsErrOf result KeepError.Corrupt
        → (r : Kept) → AreHeads messages.now (rows_in tables.now) r → IsLawful r → ⊥ }
    ensures fault { IfErr result (λ e. (e ≡ KeepError.Memory) ⊎ (e ≡ KeepError.Corrupt)) }
{
    let records = match heads_of(alloc, messages, tables) {
        Ok(records) => records,
        Err(fault) => return Err(fault),
    };
    match is_lawful(alloc, &records) {
        Ok(true) => Ok(records),
        Ok(false) => {
            drop(records);
            Err(KeepError::Corrupt)
        }
        Err(_) => {
            drop(records);
            Err(KeepError::Memory)
        }
    }
}

/// No rows of queues so far, with these records of sessions without queues.
fn begun_with(
    alloc: Global,
    messages: Messages,
    heads: Records,
) -> Result<GatheredQueues, KeepError>
    requires lawful { IsLawful heads }
    requires bare { map without_queue heads.sessions ≡ heads.sessions }
    requires stand { AllByRecursion (λ kept. Stands messages (retained_message kept)) heads.retained }
    ensures begun { IfOk result (λ g. HasTakenQueues g []) }
    ensures messages { IfOk result (λ g. g.reading.messages ≡ messages) }
    ensures heads { IfOk result (λ g. g.heads ≡ heads) }
    ensures fault { IfErr result (λ e. e ≡ KeepError.Memory) }
{
    let all = match Rows::new(alloc) {
        Ok(all) => all,
        Err(_) => {
            drop(messages);
            drop(heads);
            return Err(KeepError::Memory);
        }
    };
    let numbers = Counters {
        births: heads.births,
        publications: heads.publications,
        subscribes: heads.subscribes,
        autos: heads.autos,
        moment: heads.moment,
    };
    let reading = Reading {
        messages,
        numbers,
        bare: heads.sessions,
        all,
        part: VecDeque::new(alloc),
    };
    Ok(GatheredQueues {
        alloc,
        reading,
        retained: heads.retained,
        is_corrupt: false,
    })
}

/// Reads the queues of the sessions that are bare, behind which no row is to come. `false` if the rows say no queues of
/// lawful sessions, or if some are left over.
fn read_rest(alloc: Global, reading: &mut Reading, is_corrupt: bool) -> Result<bool, AllocError>
    requires numbers { AreNumbers (last_in reading.old.numbers) }
    requires table { IsTable birth_of SESSION_LIMIT (reading.old.all ++ reading.old.bare) }
    ensures same { OnOk result (IsSameButQueues reading.old reading.new) }
    ensures read { result ≡ Ok true → (rows : List SqlRow) → AreGathered reading.old rows Any → AreWhole reading.new rows }
    ensures sound { result ≡ Ok true → is_corrupt ≡ false }
    ensures no { result ≡ Ok false → is_corrupt ≡ false → (rows : List SqlRow) → AreGathered reading.old rows Any
        → SayNone reading.old rows IsEnd }
{
    if is_corrupt || !reading.read_on(alloc, None)? {
        return Ok(false);
    }
    Ok(reading.part.is_empty())
}

/// Records with the sessions whose queues are read, if something refers to each message.
fn records_of(
    alloc: Global,
    reading: Reading,
    retained: Rows<Boxed<RetainedMessage>, RETAINED_LIMIT>,
) -> Result<Records, KeepError>
    ensures ok { IfOk result (λ r. r ≡ record (heads_in reading retained) { sessions = reading.all }) }
    ensures referred { IfOk result (λ r. AllByRecursion (IsReferred r) reading.messages) }
    ensures err { IsErrOf result KeepError.Corrupt
        → AllByRecursion (IsReferred (record (heads_in reading retained) { sessions = reading.all })) reading.messages → ⊥ }
    ensures fault { IfErr result (λ e. (e ≡ KeepError.Memory) ⊎ (e ≡ KeepError.Corrupt)) }
{
    let Reading {
        messages,
        numbers,
        bare,
        all,
        part,
    } = reading;
    drop(bare);
    drop(part);
    let records = Records {
        births: numbers.births,
        publications: numbers.publications,
        subscribes: numbers.subscribes,
        autos: numbers.autos,
        moment: numbers.moment,
        sessions: all,
        retained,
    };
    let referred = are_referred(alloc, &messages, &records);
    drop(messages);
    match referred {
        Ok(true) => Ok(records),
        Ok(false) => {
            drop(records);
            Err(KeepError::Corrupt)
        }
        Err(_) => {
            drop(records);
            Err(KeepError::Memory)
        }
    }
}

impl GatheredQueues {
    /// None so far. `Corrupt` if no messages were gathered, or if the rows of the other tables give no lawful records without
    /// queues with them.
    pub fn new(
        alloc: Global,
        gathered: GatheredMessages,
        tables: &Tables,
    ) -> Result<GatheredQueues, KeepError>
        ensures begun { IfOk result (λ g. HasTakenQueues g []) }
        ensures messages { IfOk result (λ g. (gathered.is_corrupt ≡ false) × (g.reading.messages ≡ gathered.messages)) }
        ensures heads { IfOk result (λ g. AreHeads gathered.messages (rows_in tables.now) g.heads) }
        ensures err { IsErrOf result KeepError.Corrupt → (gathered.is_corrupt ≡ true)
            ⊎ ((gathered.is_corrupt ≡ false) × ((r : Kept) → AreHeads gathered.messages (rows_in tables.now) r → IsLawful r → ⊥)) }
        ensures fault { IfErr result (λ e. (e ≡ KeepError.Memory) ⊎ (e ≡ KeepError.Corrupt)) }
    {
        let Some(messages) = gathered.into_messages() else {
            return Err(KeepError::Corrupt);
        };
        match lawful_heads_of(alloc, &messages, tables) {
            Ok(heads) => begun_with(alloc, messages, heads),
            Err(fault) => {
                drop(messages);
                Err(fault)
            }
        }
    }

    /// The records with these queues, slim. `Corrupt` if the rows say no queues of the sessions with which they are lawful,
    /// or if nothing refers to a message.
    pub fn finish(self) -> Result<Records, KeepError>
        ensures ok { (rows : List SqlRow) → HasTakenQueues self rows → IfOk result (AreSlimOf self rows) }
        ensures err { (rows : List SqlRow) → HasTakenQueues self rows → IsErrOf result KeepError.Corrupt
            → (r : Kept) → HaveQueues self rows r → ⊥ }
        ensures fault { IfErr result (λ e. (e ≡ KeepError.Memory) ⊎ (e ≡ KeepError.Corrupt)) }
    {
        let GatheredQueues {
            alloc,
            mut reading,
            retained,
            is_corrupt,
        } = self;
        match read_rest(alloc, &mut reading, is_corrupt) {
            Ok(true) => records_of(alloc, reading, retained),
            Ok(false) => {
                drop(reading);
                drop(retained);
                Err(KeepError::Corrupt)
            }
            Err(_) => {
                drop(reading);
                drop(retained);
                Err(KeepError::Memory)
            }
        }
    }
}

impl Gather for GatheredQueues {
    ghost use Rattle.mqtt_store_rows.specs.gathering.Queues.{HasTakenQueues, GoesOn, stays, on_and_on};

    ghost has_taken = { HasTakenQueues };

    ghost goes_on = { GoesOn };

    fn take_in(&mut self, row: &Row) -> Result<(), AllocError> {
        if self.is_corrupt {
            return Ok(());
        }
        if self.reading.read_on(self.alloc, Some(row))? {
            self.reading.part.push_back(row.copy()?)?;
        } else {
            self.is_corrupt = true;
        }
        Ok(())
    }

    ghost stays = { stays };

    ghost on_and_on = { on_and_on };
}
