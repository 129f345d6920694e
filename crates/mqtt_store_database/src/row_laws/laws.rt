//! What a change sets, and a new database.
ghost use Rattle.std.specs.Prelude.{ℕ, ℤ, ◌∷◌};
ghost use Rattle.sqlite_value.specs.declared.value.Value.TheVariants.{Int};
ghost use Rattle.sqlite_trees.specs.Tree.{Trees};
ghost use Rattle.sqlite_rules.specs.Lists.{Has};
ghost use Rattle.sqlite.specs.Effect.{Database};
ghost use Rattle.mqtt_base.specs.declared.session.Phase.{Phase};
ghost use Rattle.mqtt_records.specs.declared.state.change.Change.TheVariants.{SetCopy};
ghost use Rattle.mqtt_records.specs.declared.state.change.Counter.{Counter};
ghost use Rattle.mqtt_records.specs.declared.state.records.Records.{Records};
ghost use Rattle.mqtt_records.specs.state.Records.{nothing, Fits};
ghost use Rattle.mqtt_store_tables.specs.schema.Creation.{IsNewSecond};
ghost use Rattle.mqtt_store_tables.specs.declared.schema.tables.Making.{Making};
ghost use Rattle.mqtt_store_tables.specs.declared.schema.tables.Making.TheVariants.{New};
ghost use Rattle.mqtt_store_tables.specs.statements.Numbers.{number_row};
ghost use Rattle.mqtt_store_tables.specs.messages.Places.{queued_tree};
ghost use Rattle.mqtt_store_tables.specs.messages.Rows.{QueuedColumns, queued_row};
ghost use Rattle.mqtt_store_database.specs.item_laws.Counters.{counter_name};
ghost use Rattle.mqtt_store_database.specs.row_laws.Written.{KeepsRowsTwo, AreInOrderTwo};

/// What a change sets stands: the row of the copy, or of the number.
pub fn rows_that_are_set_stand()
    ensures copy { (making : Making) (birth place : ℕ) (phase : Phase) (db : Trees) (r : Records)
        → KeepsRowsTwo making db r → Fits (SetCopy birth place phase) r
        → (id : ℤ) × (c : QueuedColumns) × Has (db (queued_tree making)) (Int id ∷ queued_row birth place c) }
    ensures number { (making : Making) (counter : Counter) (db : Trees) (r : Records)
        → KeepsRowsTwo making db r
        → (id : ℤ) × (n : ℕ) × Has (db 0) (Int id ∷ number_row (counter_name counter) n) }
{}

/// The tables of a new database of schema 2 keep what is there before the first session.
pub fn new_second_keeps_nothing()
    ensures rows { (db : Database) → IsNewSecond db → KeepsRowsTwo New db.trees nothing }
    ensures order { (db : Database) → IsNewSecond db → AreInOrderTwo New db.trees }
{}
