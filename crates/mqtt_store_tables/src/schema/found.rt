//! What a database is to the store, of both schemas.
ghost use Rattle.std.specs.Prelude.{◌≡◌, ◌≢◌, IfOk, MatchBool};
ghost use Rattle.sqlite.specs.Held.{state};
ghost use Rattle.sqlite.specs.State.{HasCleanDisk};
ghost use Rattle.mqtt_store_tables.specs.forms.Settled.{OnlyReads};
ghost use Rattle.mqtt_store_tables.specs.schema.Finding.{IsKnown, SaysKnown, SaysUnknown, IsFound};
ghost use Rattle.mqtt_store_tables.specs.declared.schema.found.FoundStore.{FoundStore};

use crate::forms::{is_empty, is_schema, schema_said};
use crate::schema::tables::{Making, is_second};
use sqlite::{Alter, Connection, Error};

/// What a database is to the store.
#[derive(Clone, Copy, Debug, PartialEq, Eq)]
pub enum FoundStore {
    /// It has the tables of schema 1.
    First,
    /// It has those of schema 2, made so.
    Second(Making),
    /// It has no tables, indexes or views.
    Empty,
    /// It says that its schema is 1 or 2, and has the tables of neither: Corrupt.
    Broken,
    /// It says neither: Schema.
    Other,
}

/// Whether the schema is 1 or 2.
fn is_known(said: Option<i64>) -> bool
    ensures { MatchBool result (IsKnown said) (¬ IsKnown said) }
{
    said == Some(1) || said == Some(2)
}

/// Whether a database says that its schema is 1 or 2.
fn says_known<S: Alter>(conn: &mut Connection<S>) -> Result<bool, Error>
    ensures said { HasCleanDisk (state S.Store conn.new) → IfOk result (λ yes. MatchBool yes
        (SaysKnown (state S.Store conn.old) (state S.Store conn.new)) (SaysUnknown (state S.Store conn.old) (state S.Store conn.new))) }
    ensures reads { OnlyReads (state S.Store conn.old) (state S.Store conn.new) }
{
    let said = schema_said(conn)?;
    Ok(is_known(said))
}

/// What a database is to the store. Writes nothing.
#[tactic(auto, using(crate::proofs::forms_lemmas::Staying::reads_nothing))]
pub fn found_store<S: Alter>(conn: &mut Connection<S>) -> Result<FoundStore, Error>
    ensures found { HasCleanDisk (state S.Store conn.new) → IfOk result (λ it. IsFound it (state S.Store conn.old) (state S.Store conn.new)) }
    ensures untouched { IfOk result (λ it. it ≢ FoundStore.Broken → it ≢ FoundStore.Other → conn.new ≡ conn.old) }
    ensures reads { OnlyReads (state S.Store conn.old) (state S.Store conn.new) }
{
    if is_schema(conn.schema()) {
        return Ok(FoundStore::First);
    }
    if is_second(conn.schema(), Making::New) {
        return Ok(FoundStore::Second(Making::New));
    }
    if is_second(conn.schema(), Making::TakenOver) {
        return Ok(FoundStore::Second(Making::TakenOver));
    }
    if is_empty(conn.schema()) {
        return Ok(FoundStore::Empty);
    }
    if says_known(conn)? {
        Ok(FoundStore::Broken)
    } else {
        Ok(FoundStore::Other)
    }
}
