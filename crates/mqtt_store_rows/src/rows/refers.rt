//! What refers to a message by its number, and its rows.
ghost use Rattle.std.specs.Prelude.{◌≡◌, ◌⊎◌, ◌<◌, ◌≢◌, ℕ, List, MatchBool, IfOk, IfErr, IsErrOf};
ghost use Rattle.sqlite_value.specs.Order.{Row as SqlRow};
ghost use Rattle.sqlite_value.specs.Value.{owned};
ghost use Rattle.sqlite_value.specs.declared.value.Value.TheVariants as sql;
ghost use Rattle.mqtt_records.specs.declared.messages.message.Content.{Content};
ghost use Rattle.mqtt_records.specs.lists.Order.{IsTable};
ghost use Rattle.mqtt_records.specs.state.Contents.{StoredMessage, stored_message};
ghost use Rattle.mqtt_store_rows.specs.values.Lists.{AreRows, TakesAll};
ghost use Rattle.mqtt_store_rows.specs.rows.Joins.{Stands};

use crate::rows::messages::Messages;
use crate::rows::taken::take_rows;
use mqtt_keep::KeepError;
use mqtt_records::{Boxed, Content, Row, Rows, newest_comes_last};
use std::alloc::Global;
use std::collections::VecDeque;

/// What is said under a number, by what arrived then. Its bytes are shared. `Corrupt` if no
/// message has the number.
pub fn content_at(messages: &Messages, publication: u64, arrived: u64) -> Result<Content, KeepError>
    ensures ok { IfOk result (λ c. Stands messages.now (stored_message publication c)) }
    ensures arrived { IfOk result (λ c. c.arrived ≡ arrived) }
    ensures err { IsErrOf result KeepError.Corrupt
        → (c : Content) → Stands messages.now (stored_message publication c) → ⊥ }
    ensures fault { IfErr result (λ e. (e ≡ KeepError.Memory) ⊎ (e ≡ KeepError.Corrupt)) }
{
    match messages.get(publication) {
        Some(message) => Ok(message.content(arrived)?),
        None => Err(KeepError::Corrupt),
    }
}

/// What has a row of its own that refers to a message.
pub trait Refers: Row {
    // With these messages the row says this.
    ghost says: { List StoredMessage → Self → SqlRow → Type 0 };

    /// Reads a row. `Corrupt` if it says nothing of this kind with these messages.
    fn read(alloc: Global, messages: &Messages, row: &sqlite::Row) -> Result<Self, KeepError>
        ensures ok { IfOk result (λ x. says messages.now x row.now) }
        ensures err { IsErrOf result KeepError.Corrupt
            → (x : Self) → says messages.now x row.now → ⊥ }
        ensures fault { IfErr result (λ e. (e ≡ KeepError.Memory) ⊎ (e ≡ KeepError.Corrupt)) };

    // A row says one thing, and keys are counted from 1.
    ghost one: { (messages : List StoredMessage) (x y : Self) (row : SqlRow)
        → says messages x row → says messages y row → x ≡ y };

    ghost from_one: { (messages : List StoredMessage) (x : Self) (row : SqlRow)
        → says messages x row → 0 < Self.key_of x };
}

impl<R: Refers> Refers for Boxed<R> {
    ghost says = { λ messages x row. R.says messages x row };

    fn read(alloc: Global, messages: &Messages, row: &sqlite::Row) -> Result<Self, KeepError> {
        let item = match R::read(alloc, messages, row) {
            Ok(item) => item,
            Err(fault) => return Err(fault),
        };
        Ok(Boxed::new(alloc, item)?)
    }

    ghost one = { λ messages x y row h k. R.one messages x y row h k };

    ghost from_one = { λ messages x row h. R.from_one messages x row h };
}

/// The items of rows, whose keys ascend. `Corrupt` if no such list has the rows with these
/// messages.
pub fn all_with<P: Refers, const LIMIT: usize>(
    alloc: Global,
    messages: &Messages,
    rows: &[sqlite::Row],
) -> Result<Rows<P, LIMIT>, KeepError>
    ensures ok { IfOk result (λ all. AreRows (P.says messages.now) rows.now all) }
    ensures within { IfOk result (λ all. IsTable P.key_of LIMIT all) }
    ensures err { IsErrOf result KeepError.Corrupt → (all : List P)
        → AreRows (P.says messages.now) rows.now all → IsTable P.key_of LIMIT all → ⊥ }
    ensures fault { IfErr result (λ e. (e ≡ KeepError.Memory) ⊎ (e ≡ KeepError.Corrupt)) }
{
    if rows.len() > LIMIT {
        return Err(KeepError::Corrupt);
    }
    let mut all = Rows::new(alloc)?;
    let mut last = 0;
    newest_comes_last::<P>();
    for row in rows {
        let item = match P::read(alloc, messages, row) {
            Ok(item) => item,
            Err(fault) => return Err(fault),
        };
        let key = item.key();
        if key <= last {
            return Err(KeepError::Corrupt);
        }
        all.put(item);
        last = key;
    }
    Ok(all)
}

/// Takes the items of the session's rows at the front, and lets these rows go. `Corrupt` if the
/// session has no such list.
pub fn part_with<P: Refers, const LIMIT: usize>(
    alloc: Global,
    messages: &Messages,
    birth: u64,
    rows: &mut VecDeque<sqlite::Row>,
) -> Result<Rows<P, LIMIT>, KeepError>
    ensures ok { IfOk result
        (λ all. TakesAll (P.says messages.now) birth all rows.old.items rows.new.items) }
    ensures within { IfOk result (λ all. IsTable P.key_of LIMIT all) }
    ensures err { IsErrOf result KeepError.Corrupt → (all : List P) (rest : List SqlRow)
        → TakesAll (P.says messages.now) birth all rows.old.items rest
        → IsTable P.key_of LIMIT all → ⊥ }
    ensures fault { IfErr result (λ e. (e ≡ KeepError.Memory) ⊎ (e ≡ KeepError.Corrupt)) }
{
    let part = take_rows(alloc, rows, birth)?;
    let all = all_with(alloc, messages, &part);
    drop(part);
    all
}
