//! The rows of `meta`: the numbers that are kept.
ghost use Rattle.std.specs.Prelude.{ℕ, [], ◌∷◌, MatchOption};
ghost use Rattle.mqtt_store_rows.specs.declared.values.meta.Counters.{Counters};
ghost use Rattle.mqtt_store_rows.specs.values.Rows.{SaysNumber, SaysNumbers};

use crate::values::value::{kept, value_at};
use sqlite::Row;
use sqlite::types::ValueRef;

/// The five numbers that are kept.
#[derive(Clone, Copy, Debug, PartialEq, Eq)]
pub struct Counters {
    /// The birth of the newest session.
    pub births: u64,
    /// The number of the newest publication.
    pub publications: u64,
    /// The number of the newest subscribe.
    pub subscribes: u64,
    /// The number in the newest client identifier that was assigned.
    pub autos: u64,
    /// The moment of the newest step, in milliseconds.
    pub moment: u64,
}

/// The number in a row with that name.
pub fn number_in(row: &Row, name: &str) -> Option<u64>
    ensures { MatchOption result ((n : ℕ) → SaysNumber name.now n row.now → ⊥)
        (λ n. SaysNumber name.now n row.now) }
{
    let ValueRef::Text(bytes) = value_at(row, 0) else {
        return None;
    };
    if bytes != name.as_bytes() {
        return None;
    }
    kept(value_at(row, 1))
}

/// The numbers in six rows, of a store of that schema.
fn numbers_in(
    autos: &Row,
    births: &Row,
    moment: &Row,
    publications: &Row,
    named: &Row,
    subscribes: &Row,
    schema: u64,
) -> Option<Counters>
    ensures { let six = autos.now ∷ births.now ∷ moment.now ∷ publications.now ∷ named.now ∷ subscribes.now ∷ [] in
        MatchOption result ((all : Counters) → SaysNumbers schema all six → ⊥) (λ all. SaysNumbers schema all six) }
{
    let autos = number_in(autos, "autos")?;
    let births = number_in(births, "births")?;
    let moment = number_in(moment, "moment")?;
    let publications = number_in(publications, "publications")?;
    let subscribes = number_in(subscribes, "subscribes")?;
    if number_in(named, "schema")? != schema {
        return None;
    }
    Some(Counters {
        births,
        publications,
        subscribes,
        autos,
        moment,
    })
}

/// The numbers that the rows of `meta` say, by name, of a store of that schema. Takes no memory.
pub fn counters_of(rows: &[Row], schema: u64) -> Option<Counters>
    ensures { MatchOption result ((all : Counters) → SaysNumbers schema all rows.now → ⊥)
        (λ all. SaysNumbers schema all rows.now) }
{
    let [autos, births, moment, publications, named, subscribes] = rows else {
        return None;
    };
    numbers_in(
        autos,
        births,
        moment,
        publications,
        named,
        subscribes,
        schema,
    )
}
