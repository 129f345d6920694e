//! The laws of the records that a database has (4.1).
ghost use Rattle.std.specs.Prelude.{◌≡◌};
ghost use Rattle.sqlite_trees.specs.Tree.{Trees};
ghost use Rattle.sqlite.specs.Effect.{Database};
ghost use Rattle.mqtt_records.specs.declared.state.records.Records.{Records};
ghost use Rattle.mqtt_store_database.specs.loading.Keeping.{FindsIn, Keeps, Saves, Finds};

/// What a load finds in a database is what was written into it, be it of schema 1 or of schema 2.
pub fn load_finds_what_was_written()
    ensures { (db : Database) (q r : Records) → FindsIn db q → Keeps db r → q ≡ r }
{}

/// A database keeps the records of one store, and of no other.
pub fn database_keeps_one()
    ensures { (db : Database) (q r : Records) → Keeps db q → Keeps db r → q ≡ r }
{}

/// What is found in trees that a crash left is what they keep.
pub fn saved_records_are_found()
    ensures { (db : Trees) (q r : Records) → Finds db q → Saves db r → q ≡ r }
{}
