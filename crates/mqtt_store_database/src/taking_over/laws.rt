//! The laws of what a database of schema 1 has, and of what its copies and retained messages make, put one after the other.
ghost use Rattle.std.specs.Prelude.{◌≡◌};
ghost use Rattle.sqlite_trees.specs.Tree.{Trees};
ghost use Rattle.mqtt_records.specs.declared.state.records.Records.{Records};
ghost use Rattle.mqtt_records.specs.state.Contents.{FitContents};
ghost use Rattle.mqtt_records.specs.state.Records.{changed_all, FitAll};
ghost use Rattle.mqtt_keep.specs.lawful.Lawful.{IsLawful};
ghost use Rattle.mqtt_store_database.specs.taking_over.Kept.{HasRecords};
ghost use Rattle.mqtt_store_database.specs.taking_over.Puts.{emptied, puts_of};

/// The copies and retained messages of lawful records make these records of what is left without
/// them. Each fits what those before it leave, and says what is said under its number.
pub fn puts_make_records()
    ensures made { (r : Records) → IsLawful r → changed_all (puts_of r) (emptied r) ≡ r }
    ensures fit { (r : Records) → IsLawful r → FitAll (puts_of r) (emptied r) }
    ensures agree { (r : Records) → IsLawful r → FitContents (puts_of r) (emptied r) }
{}

/// The tables of a database have the records of one store, and of no other.
pub fn database_has_one()
    ensures { (db : Trees) (q r : Records) → HasRecords db q → HasRecords db r → q ≡ r }
{}
