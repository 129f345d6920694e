//! The law of what a database of schema 2 has (4.1).
ghost use Rattle.std.specs.Prelude.{◌≡◌};
ghost use Rattle.sqlite_trees.specs.Tree.{Trees};
ghost use Rattle.mqtt_records.specs.declared.state.records.Records.{Records};
ghost use Rattle.mqtt_store_tables.specs.declared.schema.tables.Making.{Making};
ghost use Rattle.mqtt_store_database.specs.reading.Kept.{HasRecordsTwo};

/// The tables of a database of schema 2 have the records of one store, and of no other.
pub fn second_database_has_one()
    ensures { (making : Making) (db : Trees) (q r : Records)
        → HasRecordsTwo making db q → HasRecordsTwo making db r → q ≡ r }
{}
