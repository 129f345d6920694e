//! The law of what rows of schema 1 give (4.1).
ghost use Rattle.std.specs.Prelude.{◌≡◌};
ghost use Rattle.mqtt_records.specs.declared.state.records.Records.{Records};
ghost use Rattle.mqtt_store_rows.specs.values.Gives.{AreWithin};
ghost use Rattle.mqtt_store_rows.specs.taking_over.Gives.{Rows, Gives};

/// Rows give the records of one store, and of no other.
pub fn rows_give_one()
    ensures { (rows : Rows) (r s : Records)
        → Gives rows r → AreWithin r → Gives rows s → AreWithin s → r ≡ s }
{}
