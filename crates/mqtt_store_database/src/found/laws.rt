//! The laws of the records that a load of schema 2 finds and of those that a database keeps (4.1).
ghost use Rattle.std.specs.Prelude.{◌≡◌};
ghost use Rattle.sqlite_trees.specs.Tree.{Trees};
ghost use Rattle.sqlite_schema.specs.Rules.{Obeys};
ghost use Rattle.mqtt_records.specs.declared.state.records.Records.{Records};
ghost use Rattle.mqtt_store_tables.specs.schema.Tables.{second_schema};
ghost use Rattle.mqtt_store_tables.specs.declared.schema.tables.Making.{Making};
ghost use Rattle.mqtt_store_database.specs.taking_over.Kept.{HasRecords};
ghost use Rattle.mqtt_store_database.specs.taking_over.Written.{KeepsRows};
ghost use Rattle.mqtt_store_database.specs.reading.Kept.{HasRecordsTwo};
ghost use Rattle.mqtt_store_database.specs.row_laws.Written.{KeepsRowsTwo, AreInOrderTwo};

/// What a load finds is what the database keeps, if its tables obey their schema and their rows
/// rise by their numbers. It is so of a new database, and of one that was taken over.
pub fn found_in_second_is_kept()
    ensures { (making : Making) (db : Trees) (q : Records)
        → Obeys (second_schema making) db → AreInOrderTwo making db
        → HasRecordsTwo making db q → KeepsRowsTwo making db q }
{}

/// A load finds no other records than those that the database keeps.
pub fn kept_in_second_is_found()
    ensures { (making : Making) (db : Trees) (q r : Records)
        → HasRecordsTwo making db q → KeepsRowsTwo making db r → q ≡ r }
{}

/// A database keeps the records of one store, and of no other.
pub fn rows_of_second_are_of_one()
    ensures { (making : Making) (db : Trees) (q r : Records)
        → KeepsRowsTwo making db q → KeepsRowsTwo making db r → q ≡ r }
{}

/// Tables that keep records by one of the two schemas, or in which a load by it finds some, have
/// none by the other: `meta` says which it is.
pub fn schemas_are_told_apart()
    ensures kept { (making : Making) (db : Trees) (q r : Records)
        → KeepsRows db q → KeepsRowsTwo making db r → ⊥ }
    ensures found { (making : Making) (db : Trees) (q r : Records)
        → HasRecords db q → HasRecordsTwo making db r → ⊥ }
    ensures found_in_first { (making : Making) (db : Trees) (q r : Records)
        → HasRecords db q → KeepsRowsTwo making db r → ⊥ }
    ensures found_in_second { (making : Making) (db : Trees) (q r : Records)
        → KeepsRows db q → HasRecordsTwo making db r → ⊥ }
{}
