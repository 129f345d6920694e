//! The laws of the records that a load of schema 1 finds and of those that a database keeps (4.1).
ghost use Rattle.std.specs.Prelude.{◌≡◌};
ghost use Rattle.sqlite_trees.specs.Tree.{Trees};
ghost use Rattle.sqlite_schema.specs.Rules.{Obeys};
ghost use Rattle.mqtt_records.specs.declared.state.records.Records.{Records};
ghost use Rattle.mqtt_store_tables.specs.forms.Tables.{keep_schema};
ghost use Rattle.mqtt_store_database.specs.taking_over.Kept.{HasRecords};
ghost use Rattle.mqtt_store_database.specs.taking_over.Written.{KeepsRows, AreInOrder};

/// What a load finds is what the database keeps, if its tables obey their schema and their rows
/// rise by their numbers.
pub fn found_is_kept()
    ensures { (db : Trees) (q : Records)
        → Obeys keep_schema db → AreInOrder db → HasRecords db q → KeepsRows db q }
{}

/// A load finds no other records than those that the database keeps.
pub fn kept_is_found()
    ensures { (db : Trees) (q r : Records) → HasRecords db q → KeepsRows db r → q ≡ r }
{}

/// A database keeps the records of one store, and of no other.
pub fn rows_are_of_one()
    ensures { (db : Trees) (q r : Records) → KeepsRows db q → KeepsRows db r → q ≡ r }
{}
