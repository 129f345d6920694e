//! What a step makes of a database of schema 2 that keeps records.
ghost use Rattle.std.specs.Prelude.{◌≡◌, List};
ghost use Rattle.sqlite_trees.specs.Objects.{catalog_tree};
ghost use Rattle.sqlite_trees.specs.Tree.{Trees};
ghost use Rattle.sqlite.specs.Held.{Held, state};
ghost use Rattle.mqtt_records.specs.declared.state.change.Change.{Change};
ghost use Rattle.mqtt_records.specs.declared.state.records.Records.{Records};
ghost use Rattle.mqtt_records.specs.state.Records.{changed_all, FitAll};
ghost use Rattle.mqtt_records.specs.state.Contents.{FitContents};
ghost use Rattle.mqtt_store_tables.specs.declared.schema.tables.Making.{Making};
ghost use Rattle.mqtt_store_database.specs.item_laws.Written.{AllSayable};
ghost use Rattle.mqtt_store_database.specs.written.Shortened.{shortened};
ghost use Rattle.mqtt_store_database.specs.row_laws.Written.{KeepsRowsTwo, AreInOrderTwo};
ghost use Rattle.mqtt_store_database.specs.committing.Making.{MakeAll, NeedAll, MayCommit};
ghost use Rattle.mqtt_store_database.specs.committing.Settled.{IsSettled};

use sqlite::Alter;

/// What a step writes makes the rows those of the records after all its changes, also after those that
/// it doesn't write; and what it sets stands.
pub fn step_keeps_rows()
    ensures needs { (making : Making) (changes : List Change) (db : Trees) (r : Records)
        → KeepsRowsTwo making db r → AreInOrderTwo making db → FitAll changes r
        → FitContents changes r → AllSayable changes → NeedAll making (shortened changes) db }
    ensures rows { (making : Making) (changes : List Change) (db next : Trees) (r : Records)
        → KeepsRowsTwo making db r → AreInOrderTwo making db → FitAll changes r
        → FitContents changes r → AllSayable changes → MakeAll making (shortened changes) db next
        → KeepsRowsTwo making next (changed_all changes r) }
    ensures order { (making : Making) (changes : List Change) (db next : Trees) (r : Records)
        → KeepsRowsTwo making db r → AreInOrderTwo making db → FitAll changes r
        → FitContents changes r → AllSayable changes → MakeAll making (shortened changes) db next
        → AreInOrderTwo making next }
{}

/// Between two steps the rows rise by their numbers.
pub fn settled_rows_are_in_order<S: Alter>()
    ensures { (making : Making) (conn : Held S)
        → IsSettled making (state S.Store conn) → AreInOrderTwo making (state S.Store conn).now.trees }
{}

/// What a step may commit, also what a crash in it leaves then, is the rows of the records after it.
pub fn committed_step_keeps_rows<S: Alter>()
    ensures { (making : Making) (conn : Held S) (changes : List Change) (db : Trees) (r : Records)
        → IsSettled making (state S.Store conn) → KeepsRowsTwo making (state S.Store conn).now.trees r
        → FitAll changes r → FitContents changes r → AllSayable changes
        → MayCommit making (state S.Store conn) (shortened changes) db
        → KeepsRowsTwo making db (changed_all changes r) }
{}

/// What a step writes leaves the list of the database's tables and indexes as it was.
pub fn step_keeps_the_list()
    ensures { (making : Making) (changes : List Change) (db next : Trees)
        → MakeAll making (shortened changes) db next → next catalog_tree ≡ db catalog_tree }
{}
