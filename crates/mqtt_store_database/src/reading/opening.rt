//! A new store of schema 2, made in an empty database (4.1).
ghost use Rattle.std.specs.Prelude.{◌≡◌, ◌⊎◌, false, IfOk, IfErr, OnOk, OnErr, IsTrue};
ghost use Rattle.sqlite.specs.Held.{state};
ghost use Rattle.sqlite.specs.State.{HasCleanDisk, Survives};
ghost use Rattle.mqtt_records.specs.state.Records.{nothing};
ghost use Rattle.mqtt_store_tables.specs.forms.Creation.{first};
ghost use Rattle.mqtt_store_tables.specs.forms.Settled.{Stays};
ghost use Rattle.mqtt_store_tables.specs.schema.Creation.{IsNewSecond, MakesSecond};
ghost use Rattle.mqtt_store_tables.specs.declared.schema.tables.Making.{Making};
ghost use Rattle.mqtt_store_database.specs.reading.Opening.{HasNowTwo, BeginsSecond};

use crate::asking::{fault_of, probe};
use mqtt_keep::KeepError;
use mqtt_records::Records;
use mqtt_store_tables::schema::create_second;
use sqlite::{Alter, Connection};
use std::alloc::Global;

/// The records of a new store of schema 2, whose tables are made in an empty database.
fn new_second<S: Alter>(alloc: Global, conn: &mut Connection<S>) -> Result<Records, KeepError>
    requires autocommit { conn.old.in_transaction ≡ false }
    ensures autocommit { conn.new.in_transaction ≡ false }
    ensures ok { IfOk result (λ r. r ≡ nothing) }
    ensures made { HasCleanDisk (state S.Store conn.new) → (state S.Store conn.old).now.schema ≡ first 0
        → IfOk result (HasNowTwo Making.New (state S.Store conn.new)) }
    ensures is_open { HasCleanDisk (state S.Store conn.new) → OnOk result (IsTrue (state S.Store conn.new).is_open) }
    ensures was_open { HasCleanDisk (state S.Store conn.new) → IsTrue (state S.Store conn.new).is_open → IsTrue (state S.Store conn.old).is_open }
    ensures begun { HasCleanDisk (state S.Store conn.new) → (state S.Store conn.old).now.schema ≡ first 0
        → OnOk result (IsNewSecond (state S.Store conn.new).now) }
    ensures err { HasCleanDisk (state S.Store conn.new) → (state S.Store conn.old).now.schema ≡ first 0
        → OnErr result (Stays (state S.Store conn.old) (state S.Store conn.new)) }
    ensures fault { IfErr result (λ e. (e ≡ KeepError.Memory) ⊎ (e ≡ KeepError.Disk)) }
    ensures crash { Survives (state S.Store conn.old) (state S.Store conn.new) (MakesSecond (state S.Store conn.old)) }
{
    let records = match Records::new(alloc) {
        Ok(records) => records,
        Err(_) => return Err(KeepError::Memory),
    };
    match create_second(conn) {
        Ok(()) => Ok(records),
        Err(error) => {
            drop(records);
            Err(fault_of(&error))
        }
    }
}

/// The records of a new store of schema 2, made if the connection is open.
pub fn begin_second<S: Alter>(alloc: Global, conn: &mut Connection<S>) -> Result<Records, KeepError>
    requires autocommit { conn.old.in_transaction ≡ false }
    ensures autocommit { conn.new.in_transaction ≡ false }
    ensures ok { IfOk result (λ r. r ≡ nothing) }
    ensures made { HasCleanDisk (state S.Store conn.new) → (state S.Store conn.old).now.schema ≡ first 0
        → IfOk result (HasNowTwo Making.New (state S.Store conn.new)) }
    ensures is_open { HasCleanDisk (state S.Store conn.new) → OnOk result (IsTrue (state S.Store conn.new).is_open) }
    ensures was_open { HasCleanDisk (state S.Store conn.new) → IsTrue (state S.Store conn.new).is_open → IsTrue (state S.Store conn.old).is_open }
    ensures begun { HasCleanDisk (state S.Store conn.new) → (state S.Store conn.old).now.schema ≡ first 0
        → OnOk result (IsNewSecond (state S.Store conn.new).now) }
    ensures err { HasCleanDisk (state S.Store conn.new) → (state S.Store conn.old).now.schema ≡ first 0
        → OnErr result (Stays (state S.Store conn.old) (state S.Store conn.new)) }
    ensures fault { IfErr result (λ e. (e ≡ KeepError.Memory) ⊎ (e ≡ KeepError.Disk)) }
    ensures crash { Survives (state S.Store conn.old) (state S.Store conn.new) (BeginsSecond (state S.Store conn.old)) }
{
    match probe(conn) {
        Ok(()) => new_second(alloc, conn),
        Err(error) => Err(fault_of(&error)),
    }
}
