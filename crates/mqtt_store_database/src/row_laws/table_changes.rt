//! What the changes of the tables that are those of changes of records make of the rows that are kept.
ghost use Rattle.std.specs.Prelude.{List};
ghost use Rattle.sqlite_trees.specs.Tree.{Trees};
ghost use Rattle.mqtt_records.specs.declared.state.change.Change.{Change};
ghost use Rattle.mqtt_records.specs.declared.state.records.Records.{Records};
ghost use Rattle.mqtt_records.specs.state.Records.{changed, changed_all, Fits, FitAll};
ghost use Rattle.mqtt_records.specs.state.Contents.{FitsContents, FitContents};
ghost use Rattle.mqtt_store_tables.specs.declared.schema.tables.Making.{Making};
ghost use Rattle.mqtt_store_tables.specs.messages.Step.{Asks, Does, AskAll, DoAll};
ghost use Rattle.mqtt_store_tables.specs.declared.messages.change.TableChange.{TableChange};
ghost use Rattle.mqtt_store_database.specs.item_laws.Written.{IsSayable, AllSayable};
ghost use Rattle.mqtt_store_database.specs.row_laws.TableChanges.{IsTableChangeFor, AreTableChangesFor};
ghost use Rattle.mqtt_store_database.specs.row_laws.Written.{KeepsRowsTwo, AreInOrderTwo};

/// The change of the tables that is that of a change of records makes the rows those of the records
/// after it.
pub fn table_change_keeps_rows()
    ensures rows { (making : Making) (change : Change) (it : TableChange) (db next : Trees) (r : Records)
        → KeepsRowsTwo making db r → AreInOrderTwo making db → Fits change r
        → FitsContents change r → IsSayable change → IsTableChangeFor change it
        → Does making it db next → KeepsRowsTwo making next (changed change r) }
    ensures order { (making : Making) (change : Change) (it : TableChange) (db next : Trees) (r : Records)
        → KeepsRowsTwo making db r → AreInOrderTwo making db → Fits change r
        → FitsContents change r → IsSayable change → IsTableChangeFor change it
        → Does making it db next → AreInOrderTwo making next }
{}

/// Those of the changes of a step, one after the other, make the rows those of the records after it.
pub fn table_changes_keep_rows()
    ensures rows { (making : Making) (changes : List Change) (them : List TableChange) (db next : Trees) (r : Records)
        → KeepsRowsTwo making db r → AreInOrderTwo making db → FitAll changes r
        → FitContents changes r → AllSayable changes → AreTableChangesFor changes them
        → DoAll making them db next → KeepsRowsTwo making next (changed_all changes r) }
    ensures order { (making : Making) (changes : List Change) (them : List TableChange) (db next : Trees) (r : Records)
        → KeepsRowsTwo making db r → AreInOrderTwo making db → FitAll changes r
        → FitContents changes r → AllSayable changes → AreTableChangesFor changes them
        → DoAll making them db next → AreInOrderTwo making next }
{}

/// What such a change of the tables sets stands, and what each of a step sets stands in what those
/// before it leave.
pub fn asked_rows_stand()
    ensures one { (making : Making) (change : Change) (it : TableChange) (db : Trees) (r : Records)
        → KeepsRowsTwo making db r → Fits change r → IsTableChangeFor change it
        → Asks making it db }
    ensures all { (making : Making) (changes : List Change) (them : List TableChange) (db : Trees) (r : Records)
        → KeepsRowsTwo making db r → AreInOrderTwo making db → FitAll changes r
        → FitContents changes r → AllSayable changes → AreTableChangesFor changes them
        → AskAll making them db }
{}
