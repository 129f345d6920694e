//! What the statements of a change of copies or retained messages make of the rows that are kept.
ghost use Rattle.std.specs.Prelude.{ℕ, pos};
ghost use Rattle.sqlite_trees.specs.Tree.{Trees};
ghost use Rattle.mqtt_base.specs.declared.session.Phase.{Phase};
ghost use Rattle.mqtt_records.specs.declared.messages.message.RetainedMessage.{RetainedMessage};
ghost use Rattle.mqtt_records.specs.messages.Queue.{CopyRow};
ghost use Rattle.mqtt_records.specs.declared.state.change.Change.TheVariants.{PutCopy, SetCopy, RemoveCopy, RemoveSession, PutRetained, RemoveRetained};
ghost use Rattle.mqtt_records.specs.declared.state.records.Records.{Records};
ghost use Rattle.mqtt_records.specs.state.Records.{changed, Fits};
ghost use Rattle.mqtt_records.specs.state.Contents.{copy_message, retained_message, AgreesWith};
ghost use Rattle.mqtt_store_tables.specs.declared.schema.tables.Making.{Making};
ghost use Rattle.mqtt_store_tables.specs.statements.Content.{is_of};
ghost use Rattle.mqtt_store_tables.specs.statements.Layout.{second_layout};
ghost use Rattle.mqtt_store_tables.specs.statements.Put.{PutsInto, PutsNumbered, is_retained};
ghost use Rattle.mqtt_store_tables.specs.statements.Removal.{is_keyed, RemovesFrom};
ghost use Rattle.mqtt_store_tables.specs.messages.Endings.{EndsSession};
ghost use Rattle.mqtt_store_tables.specs.messages.Places.{queued_tree, kept_tree};
ghost use Rattle.mqtt_store_tables.specs.messages.Rows.{queued_row, kept_row};
ghost use Rattle.mqtt_store_database.specs.item_laws.Written.{IsSayableCopy, IsSayableRetained};
ghost use Rattle.mqtt_store_database.specs.row_laws.Items.{queued_columns, kept_columns};
ghost use Rattle.mqtt_store_database.specs.row_laws.Written.{KeepsRowsTwo, AreInOrderTwo};
ghost use Rattle.mqtt_store_database.specs.row_laws.Steps.{PutsMessageOf, DropsLast, PutsCopy, SetsPhase, RemovesCopy, RemovesWholeSession, PutsRetained, RemovesRetained};

/// The statements that put a copy make the rows those of the records after it.
pub fn copy_that_is_put_keeps_rows()
    ensures rows { (making : Making) (birth : ℕ) (entry : CopyRow) (db next : Trees) (r : Records)
        → KeepsRowsTwo making db r → AreInOrderTwo making db → Fits (PutCopy birth entry) r
        → AgreesWith r (copy_message entry) → IsSayableCopy entry.copy
        → PutsCopy making birth entry db next
        → KeepsRowsTwo making next (changed (PutCopy birth entry) r) }
    ensures order { (making : Making) (birth : ℕ) (entry : CopyRow) (db next : Trees) (r : Records)
        → KeepsRowsTwo making db r → AreInOrderTwo making db → Fits (PutCopy birth entry) r
        → AgreesWith r (copy_message entry) → PutsCopy making birth entry db next
        → AreInOrderTwo making next }
    ensures dropped { (making : Making) (birth : ℕ) (entry : CopyRow) (db said mid next : Trees) (r : Records)
        → KeepsRowsTwo making db r → AreInOrderTwo making db → Fits (PutCopy birth entry) r
        → AgreesWith r (copy_message entry) → IsSayableCopy entry.copy
        → PutsMessageOf making (copy_message entry) db said
        → PutsNumbered (second_layout making) (queued_tree making) (queued_row birth entry.place (queued_columns entry)) (is_keyed (pos birth) (pos entry.place)) said mid
        → DropsLast making db mid next
        → KeepsRowsTwo making next (changed (PutCopy birth entry) r) × AreInOrderTwo making next }
{}

/// The statement that sets a copy's phase makes the rows those of the records after it.
pub fn copy_that_is_set_keeps_rows()
    ensures rows { (making : Making) (birth place : ℕ) (phase : Phase) (db next : Trees) (r : Records)
        → KeepsRowsTwo making db r → AreInOrderTwo making db
        → SetsPhase making birth place phase db next
        → KeepsRowsTwo making next (changed (SetCopy birth place phase) r) }
    ensures order { (making : Making) (birth place : ℕ) (phase : Phase) (db next : Trees) (r : Records)
        → KeepsRowsTwo making db r → AreInOrderTwo making db
        → SetsPhase making birth place phase db next → AreInOrderTwo making next }
{}

/// The statements that remove a copy make the rows those of the records after it.
pub fn copy_that_is_removed_keeps_rows()
    ensures rows { (making : Making) (birth place : ℕ) (db next : Trees) (r : Records)
        → KeepsRowsTwo making db r → AreInOrderTwo making db
        → RemovesCopy making birth place db next
        → KeepsRowsTwo making next (changed (RemoveCopy birth place) r) }
    ensures order { (making : Making) (birth place : ℕ) (db next : Trees) (r : Records)
        → KeepsRowsTwo making db r → AreInOrderTwo making db
        → RemovesCopy making birth place db next → AreInOrderTwo making next }
    ensures dropped { (making : Making) (birth place : ℕ) (db mid next : Trees) (r : Records)
        → KeepsRowsTwo making db r → AreInOrderTwo making db
        → RemovesFrom (second_layout making) (queued_tree making) (is_keyed (pos birth) (pos place)) db mid
        → DropsLast making db mid next
        → KeepsRowsTwo making next (changed (RemoveCopy birth place) r) × AreInOrderTwo making next }
{}

/// The statements that remove a session make the rows those of the records after it.
pub fn session_that_is_removed_keeps_rows()
    ensures rows { (making : Making) (birth : ℕ) (db next : Trees) (r : Records)
        → KeepsRowsTwo making db r → AreInOrderTwo making db
        → RemovesWholeSession making birth db next
        → KeepsRowsTwo making next (changed (RemoveSession birth) r) }
    ensures order { (making : Making) (birth : ℕ) (db next : Trees) (r : Records)
        → KeepsRowsTwo making db r → AreInOrderTwo making db
        → RemovesWholeSession making birth db next → AreInOrderTwo making next }
    ensures dropped { (making : Making) (birth : ℕ) (db mid next : Trees) (r : Records)
        → KeepsRowsTwo making db r → AreInOrderTwo making db
        → EndsSession making (pos birth) db mid → DropsLast making db mid next
        → KeepsRowsTwo making next (changed (RemoveSession birth) r) × AreInOrderTwo making next }
{}

/// The statements that retain a message make the rows those of the records after it.
pub fn message_that_is_retained_keeps_rows()
    ensures rows { (making : Making) (kept : RetainedMessage) (db next : Trees) (r : Records)
        → KeepsRowsTwo making db r → AreInOrderTwo making db → Fits (PutRetained kept) r
        → AgreesWith r (retained_message kept) → IsSayableRetained kept
        → PutsRetained making kept db next
        → KeepsRowsTwo making next (changed (PutRetained kept) r) }
    ensures order { (making : Making) (kept : RetainedMessage) (db next : Trees) (r : Records)
        → KeepsRowsTwo making db r → AreInOrderTwo making db → Fits (PutRetained kept) r
        → AgreesWith r (retained_message kept) → PutsRetained making kept db next
        → AreInOrderTwo making next }
    ensures dropped { (making : Making) (kept : RetainedMessage) (db said mid next : Trees) (r : Records)
        → KeepsRowsTwo making db r → AreInOrderTwo making db → Fits (PutRetained kept) r
        → AgreesWith r (retained_message kept) → IsSayableRetained kept
        → PutsMessageOf making (retained_message kept) db said
        → PutsInto (second_layout making) (kept_tree making) (kept_row kept.place (kept_columns kept)) (is_retained kept.place kept.content.topic) said mid
        → DropsLast making db mid next
        → KeepsRowsTwo making next (changed (PutRetained kept) r) × AreInOrderTwo making next }
{}

/// The statements that remove a retained message make the rows those of the records after it.
pub fn message_that_is_removed_keeps_rows()
    ensures rows { (making : Making) (place : ℕ) (db next : Trees) (r : Records)
        → KeepsRowsTwo making db r → AreInOrderTwo making db
        → RemovesRetained making place db next
        → KeepsRowsTwo making next (changed (RemoveRetained place) r) }
    ensures order { (making : Making) (place : ℕ) (db next : Trees) (r : Records)
        → KeepsRowsTwo making db r → AreInOrderTwo making db
        → RemovesRetained making place db next → AreInOrderTwo making next }
    ensures dropped { (making : Making) (place : ℕ) (db mid next : Trees) (r : Records)
        → KeepsRowsTwo making db r → AreInOrderTwo making db
        → RemovesFrom (second_layout making) (kept_tree making) (is_of 0 (pos place)) db mid
        → DropsLast making db mid next
        → KeepsRowsTwo making next (changed (RemoveRetained place) r) × AreInOrderTwo making next }
{}
