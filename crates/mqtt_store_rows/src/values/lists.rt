//! The rows of one list, and of one session.
ghost use Rattle.std.specs.Prelude.{◌≡◌, ◌⊎◌, ◌≤◌, List, Option, length, take, drop, IfOk, IfErr, IsErrOf};
ghost use Rattle.sqlite_value.specs.Order.{Row as SqlRow};
ghost use Rattle.mqtt_records.specs.declared.messages.message.Will.{Will};
ghost use Rattle.mqtt_store_rows.specs.values.Rows.{SaysWill};
ghost use Rattle.mqtt_store_rows.specs.values.Lists.{AreRows, AllOf, BeginsOther, TakesAll};
ghost use Rattle.mqtt_records.specs.lists.Order.{IsTable};
ghost use Rattle.mqtt_store_rows.specs.values.Gives.{list_of};

use crate::values::stored::Stored;
use crate::values::value::{is_number, value_at};
use crate::values::will::will_of;
use mqtt_keep::KeepError;
use mqtt_records::{Rows, Will, newest_comes_last};
use sqlite::Row;
use std::alloc::Global;

/// The items of rows, whose keys ascend. `Corrupt` if no such list has the rows.
pub fn all_of<P: Stored, const LIMIT: usize>(
    alloc: Global,
    rows: &[Row],
) -> Result<Rows<P, LIMIT>, KeepError>
    ensures ok { IfOk result (λ all. AreRows P.says rows.now all) }
    ensures within { IfOk result (λ all. IsTable P.key_of LIMIT all) }
    ensures err { IsErrOf result KeepError.Corrupt
        → (all : List P) → AreRows P.says rows.now all → IsTable P.key_of LIMIT all → ⊥ }
    ensures fault { IfErr result (λ e. (e ≡ KeepError.Memory) ⊎ (e ≡ KeepError.Corrupt)) }
{
    if rows.len() > LIMIT {
        return Err(KeepError::Corrupt);
    }
    let mut all = Rows::new(alloc)?;
    let mut last = 0;
    newest_comes_last::<P>();
    for row in rows {
        let item = match P::read(alloc, row) {
            Ok(item) => item,
            Err(fault) => return Err(fault),
        };
        let key = item.key();
        if key <= last {
            return Err(KeepError::Corrupt);
        }
        all.put(item);
        last = key;
    }
    Ok(all)
}

/// How many rows at the front are the session's.
pub fn front_of(rows: &[Row], birth: u64) -> usize
    ensures within { result ≤ length rows.now }
    ensures mine { AllOf birth (take result rows.now) }
    ensures rest { BeginsOther birth (drop result rows.now) }
{
    let mut count = 0;
    while count < rows.len() && is_number(value_at(&rows[count], 0), birth) {
        count += 1;
    }
    count
}

/// The items of the session's rows at the front, and the rows behind them. `Corrupt` if the
/// session has no such list.
pub fn part_of<'a, P: Stored, const LIMIT: usize>(
    alloc: Global,
    birth: u64,
    rows: &'a [Row],
) -> Result<(Rows<P, LIMIT>, &'a [Row]), KeepError>
    ensures ok { IfOk result (λ x. TakesAll P.says birth x.0 rows.now x.1.now) }
    ensures within { IfOk result (λ x. IsTable P.key_of LIMIT x.0) }
    ensures err { IsErrOf result KeepError.Corrupt → (all : List P) (rest : List SqlRow)
        → TakesAll P.says birth all rows.now rest → IsTable P.key_of LIMIT all → ⊥ }
    ensures fault { IfErr result (λ e. (e ≡ KeepError.Memory) ⊎ (e ≡ KeepError.Corrupt)) }
{
    let count = front_of(rows, birth);
    match all_of(alloc, &rows[..count]) {
        Ok(all) => Ok((all, &rows[count..])),
        Err(fault) => Err(fault),
    }
}

/// The session's Will, if the rows at the front have one, and the rows behind it. `Corrupt` if
/// they have none that says a Will.
pub(crate) fn will_part<'a>(
    alloc: Global,
    birth: u64,
    rows: &'a [Row],
) -> Result<(Option<Will>, &'a [Row]), KeepError>
    ensures ok { IfOk result (λ x. TakesAll SaysWill birth (list_of x.0) rows.now x.1.now) }
    ensures err { IsErrOf result KeepError.Corrupt → (will : Option Will) (rest : List SqlRow)
        → TakesAll SaysWill birth (list_of will) rows.now rest → ⊥ }
    ensures fault { IfErr result (λ e. (e ≡ KeepError.Memory) ⊎ (e ≡ KeepError.Corrupt)) }
{
    let count = front_of(rows, birth);
    if count == 0 {
        return Ok((None, rows));
    }
    if count > 1 {
        return Err(KeepError::Corrupt);
    }
    match will_of(alloc, &rows[0]) {
        Ok(will) => Ok((Some(will), &rows[1..])),
        Err(fault) => Err(fault),
    }
}
