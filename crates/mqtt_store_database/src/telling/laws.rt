//! The law of what the tables of schema 2 tell of waiting copies (3.3, 4.1).
ghost use Rattle.sqlite_trees.specs.Tree.{Trees};
ghost use Rattle.mqtt_records.specs.declared.state.records.Records.{Records};
ghost use Rattle.mqtt_records.specs.state.Telling.{AreTold};
ghost use Rattle.mqtt_store_tables.specs.declared.schema.tables.Making.{Making};
ghost use Rattle.mqtt_store_database.specs.row_laws.Written.{KeepsRowsTwo};
ghost use Rattle.mqtt_store_database.specs.telling.Told.{told_in};

/// Tables that keep records tell for the place of each waiting copy what it says: its Subscription
/// Identifiers, and the properties and the payload of its publication.
pub fn tables_tell_what_copies_say()
    ensures { (making : Making) (db : Trees) (r : Records)
        → KeepsRowsTwo making db r → AreTold (told_in making db) r }
{}
