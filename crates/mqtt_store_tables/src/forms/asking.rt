//! What a database that is not ours says of its schema.
ghost use Rattle.std.specs.Prelude.{◌≡◌, ◌≢◌, ◌∷◌, [], ℤ, MatchBool, IfOk, MatchOption};
ghost use Rattle.sqlite_value.specs.declared.value.Value.TheVariants.{Int};
ghost use Rattle.sqlite.specs.Held.{state};
ghost use Rattle.sqlite.specs.State.{HasCleanDisk};
ghost use Rattle.mqtt_store_tables.specs.forms.Creation.{first};
ghost use Rattle.mqtt_store_tables.specs.forms.Asking.{Says};
ghost use Rattle.mqtt_store_tables.specs.forms.Settled.{OnlyReads};

use sqlite::types::ValueRef;
use sqlite::{Alter, Connection, Error, Row};
use sqlite_schema::schema::Schema;

/// Whether a database has no tables, indexes or views.
pub fn is_empty(schema: &Schema) -> bool
    ensures { MatchBool result (schema.now ≡ first 0) (schema.now ≢ first 0) }
{
    schema.tables.is_empty() && schema.indexes.is_empty() && schema.views.is_empty()
}

/// The one number that a row has.
#[tactic(auto, using(crate::proofs::forms_lemmas::One::one_item))]
fn number_in(row: &Row) -> Option<i64>
    ensures { MatchOption result ((n : ℤ) → row.now ≢ Int n ∷ []) (λ n. row.now ≡ Int n ∷ []) }
{
    if row.column_count() != 1 {
        return None;
    }
    match row.get_ref(0) {
        Ok(ValueRef::Int(n)) => Some(n),
        _ => None,
    }
}

/// The one number of the one row that there is.
#[tactic(auto, using(crate::proofs::forms_lemmas::One::one_item))]
fn number_of(rows: &[Row]) -> Option<i64>
    ensures { MatchOption result ((n : ℤ) → rows.now ≢ (Int n ∷ []) ∷ []) (λ n. rows.now ≡ (Int n ∷ []) ∷ []) }
{
    match rows {
        [row] => number_in(row),
        _ => None,
    }
}

/// The number that a database says that its schema has. One that has no such question to ask says
/// none.
pub fn schema_said<S: Alter>(conn: &mut Connection<S>) -> Result<Option<i64>, Error>
    ensures said { HasCleanDisk (state S.Store conn.new) → IfOk result (λ it. Says it (state S.Store conn.old) (state S.Store conn.new)) }
    ensures reads { OnlyReads (state S.Store conn.old) (state S.Store conn.new) }
{
    match conn.query_all("SELECT n FROM meta WHERE name = 'schema'", &[]) {
        Ok(rows) => Ok(number_of(rows.as_slice())),
        Err(Error::SqlInputError(_)) => Ok(None),
        Err(error) => Err(error),
    }
}
